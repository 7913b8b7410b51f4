//! Batches at several desks at once.
use super::outcome::{Outcome, starts_of};
use super::{Asked, signed_alone};
use crate::tests::fixtures::{LEVELS, jobs_of, public_key};
use lms_batch::{Job, OpenGate};
use lms_book::Entry;
use std::test::Fail;
use std::thread::Threads;

/// Whether each of four desks counted two batches of eight in the end.
fn are_counted(outcome: &Outcome) -> bool {
    let mut is_right = true;
    for last in [1, 3, 5, 7] {
        is_right = is_right && outcome.has_counted(last, (2, 16, 0));
    }
    is_right
}

/// The multiples of 8 up to 56.
const MULTIPLES: [Option<u64>; 8] = [
    Some(0),
    Some(8),
    Some(16),
    Some(24),
    Some(32),
    Some(40),
    Some(48),
    Some(56),
];

/// Whether four desks signed two batches of these jobs each, valid and at the multiples.
fn are_signed(rt: &(impl AllocGlobal + Threads + Sync), outcome: &Outcome, jobs: &[Job]) -> bool {
    let Ok(public) = public_key(rt, outcome.key) else {
        return false;
    };
    are_counted(outcome)
        && outcome.has_ended(&[Entry::Given { len: 8 }; 8], 64)
        && outcome.answers.len() == 8
        && starts_of(outcome, &public, jobs) == MULTIPLES
}

/// Four threads sign two batches of eight jobs each. The batches are valid, and begin at the
/// multiples, each once.
#[test]
fn batches_at_once(rt: HostRuntime) -> Result<(), Fail> {
    let jobs = jobs_of(rt.alloc(), 8)?;
    let asked = Asked {
        jobs: jobs.as_slice(),
        lengths: &[8, 8],
        workers: 2,
        gate: &OpenGate,
        at_once: true,
        fails_first: false,
    };
    let outcome = signed_alone(&rt, &LEVELS, 0, &asked)?;
    assert!(rt; are_signed(&rt, &outcome, &jobs));
    Ok(())
}
