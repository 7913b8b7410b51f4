//! The progress of a call that computes trees.
use std::marker::Sync;

/// Receives the progress of a call that computes trees. All threads of the call report, several at
/// once, and each goes on when the method returns.
pub trait Progress: Sync {
    /// Comes before the first leaf, and again where the call begins anew: it is going to compute so
    /// many leaves.
    fn begin(&self, leaves: u64);

    /// So many more leaves are computed.
    fn done(&self, leaves: u64);
}

/// A `Progress` whose `begin` was called, by `new`. This crate calls `done` only through such a
/// value, so `begin` comes first.
#[derive(Drop)]
pub struct Begun<'a, P> {
    pub(crate) progress: &'a P,
}

impl<'a, P: Progress> Begun<'a, P> {
    /// Reports to `progress` that so many leaves are going to be computed.
    pub fn new(progress: &'a P, leaves: u64) -> Self {
        progress.begin(leaves);
        Begun { progress }
    }
}

/// Ignores what is reported.
#[derive(Clone, Copy)]
pub struct Unwatched;

impl Progress for Unwatched {
    fn begin(&self, _leaves: u64) {}

    fn done(&self, _leaves: u64) {}
}
