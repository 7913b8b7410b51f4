//! Job lines read from memory, and answer lines written to memory.
use bench_base::{Fault, SEED, thread_clock};
use lms_batch::{Batch, Job};
use lms_lines::{read_jobs, write_batch};
use sha2::{Digest, Sha256};
use std::alloc::Global;
use std::time::{CpuClock, Duration};

/// How many digests give the digits of a message, which has 1024 bytes.
const DIGESTS: usize = 32;

/// Job lines, and the bytes of their answers.
#[derive(Drop)]
pub struct Lines {
    pub read: Vec<u8>,
    pub written: Vec<u8>,
}

impl Lines {
    /// So many job lines, whose digits are those of digests.
    pub fn new(alloc: Global, count: usize) -> Result<Self, Fault> {
        let mut read = Vec::new(alloc);
        let mut digest = SEED;
        for _ in 0..count {
            push(&mut read, &digits(&digest))?;
            push(&mut read, b" ")?;
            for _ in 0..DIGESTS {
                digest = Sha256::digest(digest);
                push(&mut read, &digits(&digest))?;
            }
            push(&mut read, b"\n")?;
        }
        let written = Vec::new(alloc);
        Ok(Lines { read, written })
    }

    /// So many jobs, and the processor time of reading them.
    pub fn jobs(
        &self,
        rt: &(impl AllocGlobal + CpuClock),
        count: usize,
    ) -> Result<(Vec<Job>, Duration), Fault> {
        let mut text = self.read.as_slice();
        let start = thread_clock(rt);
        match read_jobs(rt.alloc(), &mut text) {
            Ok(jobs) if jobs.len() == count => Ok((jobs, thread_clock(rt).saturating_sub(start))),
            _ => Err(Fault::Lost),
        }
    }

    /// The processor time of writing the answers.
    pub fn time_write(&mut self, rt: &impl CpuClock, batch: &Batch) -> Result<Duration, Fault> {
        self.written.clear();
        let start = thread_clock(rt);
        match write_batch(&mut self.written, batch) {
            Ok(()) => Ok(thread_clock(rt).saturating_sub(start)),
            Err(_) => Err(Fault::OutOfMemory),
        }
    }
}

/// The hexadecimal digits of a digest.
fn digits(digest: &[u8; 32]) -> [u8; 64] {
    let mut digits = [0; 64];
    let _encoded = hex::encode_to_slice(*digest, &mut digits);
    digits
}

fn push(text: &mut Vec<u8>, bytes: &[u8]) -> Result<(), Fault> {
    match text.extend_from_slice(bytes) {
        Ok(()) => Ok(()),
        Err(_) => Err(Fault::OutOfMemory),
    }
}
