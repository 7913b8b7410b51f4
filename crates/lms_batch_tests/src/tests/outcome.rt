//! The results of batches, and what tests ask of them.
use lms_batch::{Batch, BatchFault, Job};
use lms_book::{Book, Entry, MemoryStore};
use lms_fixtures::{forest_of, signature_of};
use lms_hss::{Forest, HssKey, verify};
use std::thread::Threads;

/// The result of a batch, and what its desk had counted then: entries, received, burnt.
#[derive(Drop)]
pub(super) struct Answer {
    pub(super) batch: Result<Batch, BatchFault>,
    pub(super) counts: (u64, u64, u64),
}

/// The key of a service, the results of the batches that were asked for, and the book that was
/// settled then.
#[derive(Drop)]
pub(super) struct Outcome {
    pub(super) key: HssKey,
    pub(super) answers: Vec<Answer>,
    pub(super) book: Book<MemoryStore>,
}

impl Outcome {
    /// The result of the batch of this place.
    pub(super) fn batch(&self, place: usize) -> Option<&Batch> {
        match self.answers.get(place) {
            Some(
                Answer {
                    batch: Ok(batch),
                    counts: _,
                },
            ) => Some(batch),
            _ => None,
        }
    }

    /// Whether the batch of this place was refused so.
    pub(super) fn has_fault(&self, place: usize, fault: BatchFault) -> bool {
        match self.answers.get(place) {
            Some(
                Answer {
                    batch: Err(found),
                    counts: _,
                },
            ) => *found == fault,
            _ => false,
        }
    }

    /// Whether the desk had counted this after the batch of this place.
    pub(super) fn has_counted(&self, place: usize, counts: (u64, u64, u64)) -> bool {
        match self.answers.get(place) {
            Some(answer) => answer.counts == counts,
            None => false,
        }
    }

    /// Whether the book had this history and counter in the end.
    pub(super) fn has_ended(&self, history: &[Entry], counter: u64) -> bool {
        self.book.history() == history && self.book.counter() == counter
    }

    /// Whether the batch of this place is complete, with the signatures of these jobs from this
    /// index on, as trees make them that are computed for these indices alone.
    pub(super) fn is_complete(
        &self,
        rt: &(impl AllocGlobal + Threads + Sync),
        place: usize,
        first: u64,
        jobs: &[Job],
    ) -> bool {
        let Ok(forest) = forest_of(rt, self.key, first, jobs.len() as u64) else {
            return false;
        };
        match self.batch(place) {
            Some(Batch::Complete { start, signatures }) => {
                *start == first && are_signatures(&forest, first, jobs, signatures)
            }
            _ => false,
        }
    }

    /// Whether the batch of this place is complete and has no signatures, from 0 on.
    pub(super) fn is_of_none(&self, place: usize) -> bool {
        match self.batch(place) {
            Some(Batch::Complete { start, signatures }) => *start == 0 && signatures.is_empty(),
            _ => false,
        }
    }

    /// The first index of the batch of this place, where it is valid.
    pub(super) fn start_of(&self, place: usize, public: &[u8], jobs: &[Job]) -> Option<u64> {
        start_of_valid(public, self.batch(place)?, jobs)
    }
}

/// Whether this is the signature of a job by an index, as these trees make it.
pub(super) fn is_signature(forest: &Forest, g: u64, job: &Job, signature: &[u8]) -> bool {
    match signature_of(forest, g, &job.c, &job.message) {
        Ok(own) => own.as_slice() == signature,
        Err(_) => false,
    }
}

/// Whether these are the signatures of jobs by the indices from one on, as these trees make them.
pub(super) fn are_signatures(
    forest: &Forest,
    first: u64,
    jobs: &[Job],
    signatures: &[Vec<u8>],
) -> bool {
    let mut is_right = signatures.len() == jobs.len();
    let mut g = first;
    for (signature, job) in signatures.iter().zip(jobs) {
        is_right = is_right && is_signature(forest, g, job, signature);
        g = g.saturating_add(1);
    }
    is_right
}

/// The first index of a batch that is complete, with signatures of the jobs that are accepted.
fn start_of_valid(public: &[u8], batch: &Batch, jobs: &[Job]) -> Option<u64> {
    let Batch::Complete { start, signatures } = batch else {
        return None;
    };
    let mut is_valid = signatures.len() == jobs.len();
    for (signature, job) in signatures.iter().zip(jobs) {
        is_valid = is_valid && verify(public, &job.message, signature);
    }
    if is_valid { Some(*start) } else { None }
}

/// The first indices of eight batches in order, `None` for one that is not valid.
pub(super) fn starts_of(outcome: &Outcome, public: &[u8], jobs: &[Job]) -> [Option<u64>; 8] {
    let mut starts: [Option<u64>; 8] = [None; 8];
    for (place, start) in (0..8).zip(starts.iter_mut()) {
        *start = outcome.start_of(place, public, jobs);
    }
    starts.sort_unstable();
    starts
}
