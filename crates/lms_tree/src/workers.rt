//! How many threads work.
use std::sync::atomic::{AtomicUsize, Ordering};

/// How many threads are at work, and how many may be. It decides which thread computes what, and
/// never the values.
#[derive(Drop)]
pub(crate) struct Workers {
    at_work: AtomicUsize,
    most: usize,
}

impl Workers {
    /// A count of threads of which `most` may be at work, and are at first.
    pub(crate) fn new(most: usize) -> Self {
        Workers {
            at_work: AtomicUsize::new(most),
            most,
        }
    }

    /// Counts one more as at work, if fewer are than may be. The result says whether it did.
    pub(crate) fn begin_where_free(&self) -> bool {
        if self.at_work.load(Ordering::SeqCst) >= self.most {
            return false;
        }
        let is_free = self.at_work.fetch_add(1, Ordering::SeqCst) < self.most;
        if !is_free {
            self.end(1);
        }
        is_free
    }

    /// Counts so many as no longer at work.
    pub(crate) fn end(&self, count: usize) {
        self.at_work.fetch_sub(count, Ordering::SeqCst);
    }
}
