//! Gates of two places and of four.
use lms_batch::{Batch, Gate};
use std::sync::atomic::{AtomicBool, AtomicUsize, Ordering};
use std::thread;

/// How often a worker looks for the other one.
const TURNS: u32 = 10_000_000;

/// A gate at which the signature of each of two places waits until that of the other has begun. It
/// counts its calls, those after a signature only where that one had begun.
#[derive(Drop)]
pub(super) struct Meeting {
    has_begun: [AtomicBool; 2],
    is_missed: AtomicBool,
    begun: AtomicUsize,
    ended: AtomicUsize,
}

impl Meeting {
    pub(super) fn new() -> Self {
        Meeting {
            has_begun: [AtomicBool::new(false), AtomicBool::new(false)],
            is_missed: AtomicBool::new(false),
            begun: AtomicUsize::new(0),
            ended: AtomicUsize::new(0),
        }
    }

    /// Whether one of the two waited in vain.
    pub(super) fn is_missed(&self) -> bool {
        self.is_missed.load(Ordering::SeqCst)
    }

    /// Whether both signatures were reported once before and once after.
    pub(super) fn is_called_in_turn(&self) -> bool {
        self.begun.load(Ordering::SeqCst) == 2 && self.ended.load(Ordering::SeqCst) == 2
    }

    /// Whether the signature of this place has begun, and that of the other.
    fn flags(&self, place: u64) -> (&AtomicBool, &AtomicBool) {
        let [first, second] = &self.has_begun;
        if place == 0 {
            (first, second)
        } else {
            (second, first)
        }
    }
}

impl Gate for Meeting {
    fn before_sign(&self, place: u64) {
        let (mine, other) = self.flags(place);
        self.begun.fetch_add(1, Ordering::SeqCst);
        mine.store(true, Ordering::SeqCst);
        for _ in 0..TURNS {
            if other.load(Ordering::SeqCst) {
                return;
            }
            thread::yield_now();
        }
        self.is_missed.store(true, Ordering::SeqCst);
    }

    fn after_sign(&self, place: u64) {
        let (mine, _) = self.flags(place);
        if mine.load(Ordering::SeqCst) {
            self.ended.fetch_add(1, Ordering::SeqCst);
        }
    }
}

/// What is reported to a gate of four places where memory is refused once: 2 of each that was
/// signed, 1 of the one that was burnt, and 0 of those that were stopped.
const REFUSED_ONCE: [[usize; 4]; 4] = [[2, 2, 2, 1], [2, 2, 1, 0], [2, 1, 0, 0], [1, 0, 0, 0]];

/// A gate that keeps how often it was called for each of four places, and whether a call came out
/// of turn.
#[derive(Drop)]
pub(super) struct Notes {
    calls: [AtomicUsize; 4],
    is_out_of_turn: AtomicBool,
}

impl Notes {
    pub(super) fn new() -> Self {
        Notes {
            calls: [
                AtomicUsize::new(0),
                AtomicUsize::new(0),
                AtomicUsize::new(0),
                AtomicUsize::new(0),
            ],
            is_out_of_turn: AtomicBool::new(false),
        }
    }

    /// Notes a call for a place that is to have been called for so often before.
    fn note(&self, place: u64, before: usize) {
        let calls = self.calls.get(place as usize);
        let is_in_turn = match calls {
            Some(calls) => calls.fetch_add(1, Ordering::SeqCst) == before,
            None => false,
        };
        if !is_in_turn {
            self.is_out_of_turn.store(true, Ordering::SeqCst);
        }
    }

    /// How often it was called for each place.
    fn counts(&self) -> [usize; 4] {
        let [a, b, c, d] = &self.calls;
        [a, b, c, d].map(|calls| calls.load(Ordering::SeqCst))
    }

    /// Whether it was not called.
    pub(super) fn is_blank(&self) -> bool {
        self.counts() == [0; 4] && !self.is_out_of_turn.load(Ordering::SeqCst)
    }

    /// Whether it was called in turn for each signature of a batch of four, and, where memory was
    /// refused, before the one that was not made then. One worker goes on in the order of the
    /// places, until then.
    pub(super) fn is_of(&self, batch: &Batch, workers: usize) -> bool {
        let mut counts = self.counts();
        let is_as_reported = match batch {
            Batch::Complete { .. } => counts == [2; 4],
            Batch::Partial { start: _, slots } => {
                let is_of_slots = are_of(&counts, slots);
                if workers > 1 {
                    counts.sort_unstable();
                    counts.reverse();
                }
                is_of_slots && REFUSED_ONCE.contains(&counts)
            }
        };
        is_as_reported && !self.is_out_of_turn.load(Ordering::SeqCst)
    }
}

/// Whether a place was called for twice exactly where its slot is filled.
fn are_of(counts: &[usize], slots: &[Option<Vec<u8>>]) -> bool {
    let mut is_right = counts.len() == slots.len();
    for (count, slot) in counts.iter().zip(slots) {
        is_right = is_right && slot.is_some() == (*count == 2);
    }
    is_right
}

impl Gate for Notes {
    fn before_sign(&self, place: u64) {
        self.note(place, 0);
    }

    fn after_sign(&self, place: u64) {
        self.note(place, 1);
    }
}
