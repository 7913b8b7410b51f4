//! Counts of what is reported to a `Progress`.
use lms_hss::Progress;
use std::sync::atomic::{AtomicBool, AtomicU64, Ordering};

/// Counts the calls that begin and those that begin before another one is done, and adds up the
/// leaves that calls announce and those that are computed. Keeps whether more were computed than
/// were announced by then.
#[derive(Drop)]
pub struct Sums {
    begun: AtomicU64,
    to_do: AtomicU64,
    done: AtomicU64,
    in_between: AtomicU64,
    is_early: AtomicBool,
}

impl Sums {
    /// Nothing is counted.
    pub fn new() -> Self {
        Sums {
            begun: AtomicU64::new(0),
            to_do: AtomicU64::new(0),
            done: AtomicU64::new(0),
            in_between: AtomicU64::new(0),
            is_early: AtomicBool::new(false),
        }
    }

    /// How many leaves were computed.
    pub fn computed(&self) -> u64 {
        self.done.load(Ordering::SeqCst)
    }

    /// Whether so many leaves were announced, and so many computed, none before it was announced.
    pub fn leaves_are(&self, announced: u64, computed: u64) -> bool {
        self.to_do.load(Ordering::SeqCst) == announced
            && self.computed() == computed
            && !self.is_early.load(Ordering::SeqCst)
    }

    /// Whether so many calls began, each after the one before was done, and together announced so
    /// many leaves, which were computed.
    pub fn are(&self, calls: u64, leaves: u64) -> bool {
        self.begun.load(Ordering::SeqCst) == calls
            && self.in_between.load(Ordering::SeqCst) == 0
            && self.leaves_are(leaves, leaves)
    }
}

impl Progress for Sums {
    fn begin(&self, leaves: u64) {
        self.begun.fetch_add(1, Ordering::SeqCst);
        let before = self.to_do.fetch_add(leaves, Ordering::SeqCst);
        if self.done.load(Ordering::SeqCst) != before {
            self.in_between.fetch_add(1, Ordering::SeqCst);
        }
    }

    fn done(&self, leaves: u64) {
        let done = self
            .done
            .fetch_add(leaves, Ordering::SeqCst)
            .saturating_add(leaves);
        if done > self.to_do.load(Ordering::SeqCst) {
            self.is_early.store(true, Ordering::SeqCst);
        }
    }
}
