//! Batches where a request for memory is refused.
use super::gates::Notes;
use super::outcome::{Outcome, are_signatures, is_signature};
use super::{Asked, signed_alone};
use crate::tests::fixtures::{CHEAP, jobs_of};
use lms_batch::{Batch, BatchFault, Job};
use lms_book::{BookFault, Entry};
use lms_fixtures::{forest_of, key_of};
use lms_hss::Forest;
use lms_slow::{SlowKey, slow_sign};
use std::alloc::Global;
use std::process::Abort;
use std::sync::Wait;
use std::test::Fail;
use std::thread::Threads;

/// Whether the signatures of four jobs by indices 30 to 33 are the slow signer's.
fn are_slow(alloc: Global, forest: &Forest, jobs: &[Job]) -> bool {
    let key = SlowKey {
        levels: &CHEAP,
        seed: [0x11; 32],
        id: [0x22; 16],
    };
    let mut is_right = jobs.len() == 4;
    let mut g = 30_u64;
    for job in jobs {
        match slow_sign(alloc, &key, g, &job.c, &job.message) {
            Ok(slow) => is_right = is_right && is_signature(forest, g, job, &slow),
            Err(_) => is_right = false,
        }
        g = g.saturating_add(1);
    }
    is_right
}

/// The signatures that batches are compared with below are the slow signer's.
#[test]
fn four_signatures_are_the_slow_ones(rt: HostRuntime) -> Result<(), Fail> {
    let forest = forest_of(&rt, key_of(&CHEAP, 0x11)?, 30, 4)?;
    let jobs = jobs_of(rt.alloc(), 4)?;
    assert!(rt; are_slow(rt.alloc(), &forest, &jobs));
    Ok(())
}

/// Whether each slot is empty or has the signature of its job by its index of 30 to 33, and one at
/// least is empty.
fn are_some_of(slots: &[Option<Vec<u8>>], forest: &Forest, jobs: &[Job]) -> bool {
    let mut is_right = slots.len() == jobs.len();
    let mut has_gap = false;
    let mut g = 30_u64;
    for (slot, job) in slots.iter().zip(jobs) {
        match slot {
            Some(signature) => is_right = is_right && is_signature(forest, g, job, signature),
            None => has_gap = true,
        }
        g = g.saturating_add(1);
    }
    is_right && has_gap
}

/// Whether a batch begins with index 30 and has the signatures of four jobs, or some of them, each
/// in its slot.
fn is_of(batch: &Batch, forest: &Forest, jobs: &[Job]) -> bool {
    match batch {
        Batch::Complete { start, signatures } => {
            *start == 30 && are_signatures(forest, 30, jobs, signatures)
        }
        Batch::Partial { start, slots } => *start == 30 && are_some_of(slots, forest, jobs),
    }
}

/// Whether the batch has the signatures of four jobs, or some of them, or none, and the same was
/// reported to the gate.
fn is_as_reported(
    outcome: &Outcome,
    forest: &Forest,
    jobs: &[Job],
    notes: &Notes,
    workers: usize,
) -> bool {
    match outcome.batch(0) {
        Some(batch) => is_of(batch, forest, jobs) && notes.is_of(batch, workers),
        None => {
            let is_refused = outcome.has_fault(0, BatchFault::OutOfMemory { burnt: 4 })
                || outcome.has_fault(0, BatchFault::Book(BookFault::OutOfMemory));
            is_refused && notes.is_blank()
        }
    }
}

/// Whether the indices are used, or nothing is reserved where the book was refused memory.
fn is_counted(outcome: &Outcome) -> bool {
    if outcome.has_fault(0, BatchFault::Book(BookFault::OutOfMemory)) {
        outcome.has_counted(0, (0, 0, 0)) && outcome.has_ended(&[], 30)
    } else {
        outcome.has_counted(0, (1, 4, 0)) && outcome.has_ended(&[Entry::Given { len: 4 }], 34)
    }
}

/// Whether all jobs are signed, or some, or none, with their indices used; or nothing is reserved.
/// The same is reported to the gate.
fn ends_as_reported(
    rt: &(impl AllocGlobal + Threads + Sync),
    outcome: &Outcome,
    jobs: &[Job],
    notes: &Notes,
    workers: usize,
) -> bool {
    match forest_of(rt, outcome.key, 30, 4) {
        Ok(forest) => {
            is_as_reported(outcome, &forest, jobs, notes, workers) && is_counted(outcome)
        }
        Err(_) => false,
    }
}

/// Signs four jobs by so many workers, and asserts that.
fn sign_four(
    rt: &(impl Abort + AllocGlobal + Threads + Wait + Sync),
    workers: usize,
) -> Result<(), Fail> {
    let jobs = jobs_of(rt.alloc(), 4)?;
    let notes = Notes::new();
    let asked = Asked {
        jobs: jobs.as_slice(),
        lengths: &[4],
        workers,
        gate: &notes,
        at_once: false,
        fails_first: false,
    };
    let outcome = signed_alone(rt, &CHEAP, 30, &asked)?;
    assert!(rt; ends_as_reported(rt, &outcome, &jobs, &notes, workers));
    Ok(())
}

/// The merge check refuses each request for memory in turn.
#[test]
fn four_workers_after_refused_memory(rt: HostRuntime) -> Result<(), Fail> {
    sign_four(&rt, 4)
}

/// The same by one worker.
#[test]
fn one_worker_after_refused_memory(rt: HostRuntime) -> Result<(), Fail> {
    sign_four(&rt, 1)
}
