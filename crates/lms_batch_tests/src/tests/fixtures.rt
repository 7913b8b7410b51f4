//! Levels, jobs and public keys of the tests. Memory that is refused once is asked for again.
use lms_batch::Job;
use lms_hss::HssKey;
use lms_params::{LmsType, OtsType, OutOfMemory};
use std::alloc::{AllocError, Global};
use std::test::Fail;
use std::thread::Threads;

/// The levels 5/8,5/8, with 1024 indices.
pub(crate) const LEVELS: [(LmsType, OtsType); 2] = [(LmsType::H5, OtsType::W8); 2];

/// The levels 5/2,5/2, with as many indices, whose trees take a twentieth of the work.
pub(crate) const CHEAP: [(LmsType, OtsType); 2] = [(LmsType::H5, OtsType::W2); 2];

/// The public key of a key.
pub(crate) fn public_key(
    rt: &(impl AllocGlobal + Threads + Sync),
    key: HssKey,
) -> Result<[u8; 60], OutOfMemory> {
    match key.public_key(rt, rt.alloc()) {
        Ok(public) => Ok(public),
        Err(_) => key.public_key(rt, rt.alloc()),
    }
}

/// The job whose message is this number, and whose randomizer begins with it.
fn job_of(alloc: Global, number: u64) -> Result<Job, AllocError> {
    let number = number.to_be_bytes();
    let mut c = [0_u8; 32];
    c[..8].copy_from_slice(&number);
    match Vec::from_slice(alloc, &number) {
        Ok(message) => Ok(Job { c, message }),
        Err(_) => Ok(Job {
            c,
            message: Vec::from_slice(alloc, &number)?,
        }),
    }
}

/// An empty list with the capacity for so many jobs.
fn no_jobs(alloc: Global, count: usize) -> Result<Vec<Job>, AllocError> {
    match Vec::with_capacity(alloc, count) {
        Ok(jobs) => Ok(jobs),
        Err(_) => Vec::with_capacity(alloc, count),
    }
}

/// As many jobs, of the numbers from 0 on.
pub(crate) fn jobs_of(alloc: Global, count: usize) -> Result<Vec<Job>, Fail> {
    let mut jobs = no_jobs(alloc, count)?;
    for number in 0..count {
        jobs.push(job_of(alloc, number as u64)?)?;
    }
    Ok(jobs)
}
