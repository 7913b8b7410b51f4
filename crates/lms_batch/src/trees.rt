//! Trees that are kept from one batch to the next.
ghost use Rattle.std.specs.Prelude.{◌≡◌, ◌+◌, ◌<◌, ◌≤◌, IfOk, IsTrue};
ghost use Rattle.lms_spec.specs.Hss.{capacity_of};
ghost use Rattle.lms_hss.specs.Covered.{CanCover};
ghost use Rattle.lms_hss.specs.Keys.{hss_key_of};
ghost use Rattle.lms_batch.specs.Jobs.{most_jobs};
ghost use Rattle.lms_batch.specs.Covering.{IsWithin, covering};

use crate::job::MOST_JOBS;
use lms_book::Lease;
use lms_hss::{Forest, HssKey, Progress, same_key};
use lms_params::OutOfMemory;
use std::alloc::Global;
use std::thread::Threads;

/// The most indices of a window, which begins at a multiple of it where it can.
const WINDOW: u64 = 1024;

/// Where the trees of batches come from: they are computed for each batch, or for a window of indices
/// and kept. What a batch answers is the same either way.
#[derive(Drop)]
pub struct Trees {
    forest: Option<Forest>,
    // The index after those of the last batch.
    next: u64,
    are_kept: bool,
}

impl Trees {
    /// Trees that are computed for each batch, those that its indices go through and no others, and
    /// that are not kept.
    pub fn per_batch() -> Self {
        Trees {
            forest: None,
            next: 0,
            are_kept: false,
        }
    }

    /// The trees of a window of up to 1024 indices, kept for as long as the batches' indices are in
    /// it; then the first tree of each level that the next window needs stays, where it is there. A
    /// window begins at a multiple of 1024, so that it is whole bottom trees of height 5 or 10, or
    /// a part of a taller one; where a batch would reach past such a window, the window begins with
    /// the batch.
    pub fn kept() -> Self {
        Trees {
            forest: None,
            next: 0,
            are_kept: true,
        }
    }

    /// How many jobs a batch of the next indices may have so that no index is past the trees that
    /// are kept, 1 to `MOST_JOBS`. It is `MOST_JOBS` where no trees are kept, or where the next
    /// index is not one that they cover.
    pub fn room(&self) -> usize
        ensures some { 1 ≤ result }
        ensures at_most { result ≤ most_jobs }
    {
        match &self.forest {
            Some(forest) => room_from(forest, self.next),
            None => MOST_JOBS,
        }
    }

    /// Computes the trees of the window that an index of a key is in, unless they are there, so
    /// that a batch that begins with this index need not compute them. Does nothing where trees are
    /// not kept. `OutOfMemory` where memory is refused; no trees are kept then.
    pub fn prepare(
        &mut self,
        rt: &(impl Threads + Sync),
        alloc: Global,
        key: HssKey,
        index: u64,
        progress: &impl Progress,
    ) -> Result<(), OutOfMemory>
        requires { index < capacity_of (hss_key_of key) }
    {
        if !self.are_kept {
            return Ok(());
        }
        let (start, len) = window_around(&key, index, 1);
        let forest = match self.forest.take() {
            Some(forest) => moved(rt, alloc, forest, key, start, len, progress)?,
            None => Forest::cover_watched(rt, alloc, key, start, len, progress)?,
        };
        self.forest = Some(forest);
        self.next = index;
        Ok(())
    }

    /// Takes out trees that cover all indices of a lease. Those that are kept move on where they do
    /// not cover these, so that only what is new is computed. `OutOfMemory` where memory is
    /// refused; no trees are kept then. Whoever takes them out hands them back by `keep`, or drops
    /// them.
    pub(crate) fn take(
        &mut self,
        rt: &(impl Threads + Sync),
        alloc: Global,
        lease: &Lease,
        progress: &impl Progress,
    ) -> Result<Forest, OutOfMemory>
        ensures { IfOk result (λ forest.
            IsWithin lease.now.key lease.now.start lease.now.len forest) }
    {
        self.next = end_of(lease);
        let (start, len) = self.range_for(lease);
        let Some(forest) = self.forest.take() else {
            return Forest::cover_watched(rt, alloc, lease.key(), start, len, progress);
        };
        if holds(&forest, lease) {
            return Ok(forest);
        }
        moved(rt, alloc, forest, lease.key(), start, len, progress)
    }

    /// Hands trees back, to be kept, or dropped where trees are not kept.
    pub(crate) fn keep(&mut self, forest: Forest) {
        if self.are_kept {
            self.forest = Some(forest);
        }
    }

    /// The indices whose trees are computed for a lease, by the first and their number: those of a
    /// window where trees are kept, else those of the lease.
    fn range_for(&self, lease: &Lease) -> (u64, u64)
        ensures can { CanCover lease.now.key result.0 result.1 }
        ensures within { IsWithin lease.now.key lease.now.start lease.now.len
            (covering lease.now.key result.0 result.1) }
    {
        let (start, len) = (lease.start(), lease.len());
        if self.are_kept {
            window_around(&lease.key(), start, len)
        } else {
            (start, len)
        }
    }
}

/// The trees of `len` indices of a key from `start` on, 1 to 1024: the given ones, moved on where
/// they cover other indices; or all computed, where they are another key's. `OutOfMemory` where
/// memory is refused; the given ones are dropped then.
fn moved(
    rt: &(impl Threads + Sync),
    alloc: Global,
    forest: Forest,
    key: HssKey,
    start: u64,
    len: u64,
    progress: &impl Progress,
) -> Result<Forest, OutOfMemory>
    requires { CanCover key start len }
    ensures { IfOk result (λ forest. forest ≡ covering key start len) }
{
    if !same_key(&forest.key(), &key) {
        return Forest::cover_watched(rt, alloc, key, start, len, progress);
    }
    if forest.start() == start && forest.len() == len {
        return Ok(forest);
    }
    forest.moved_to_watched(rt, start, len, progress)
}

/// The index after a lease's.
fn end_of(lease: &Lease) -> u64
    ensures end { result ≡ lease.now.start + lease.now.len }
    ensures some { 1 ≤ result }
{
    // for the proof: the capacity is at most 2^60
    let _capacity = lease.key().capacity();
    lease.start() + lease.len()
}

/// Whether the forest is of the lease's key and covers all indices of the lease.
fn holds(forest: &Forest, lease: &Lease) -> bool
    ensures { IsTrue result
        → IsWithin lease.now.key lease.now.start lease.now.len forest.now }
{
    let last = end_of(lease) - 1;
    same_key(&forest.key(), &lease.key()) && forest.covers(lease.start()) && forest.covers(last)
}

/// How many indices are left of those that the forest covers, from this one on, 1 to `MOST_JOBS`.
/// It is `MOST_JOBS` where this one is not among them.
fn room_from(forest: &Forest, index: u64) -> usize
    ensures some { 1 ≤ result }
    ensures at_most { result ≤ most_jobs }
{
    if !forest.covers(index) {
        return MOST_JOBS;
    }
    let left = forest.len() - (index - forest.start());
    // (For the proof: no forest covers more.)
    if left > WINDOW {
        return MOST_JOBS;
    }
    left as usize
}

/// The window for these indices of a key, by its first index and the number of its indices.
fn window_around(key: &HssKey, start: u64, len: u64) -> (u64, u64)
    requires { CanCover key.now start len }
    ensures can { CanCover key.now result.0 result.1 }
    ensures within { IsWithin key.now start len (covering key.now result.0 result.1) }
{
    let capacity = key.capacity();
    let from = start - start % WINDOW;
    let count = (capacity - from).min(WINDOW);
    if start + len <= from + count {
        (from, count)
    } else {
        (start, (capacity - start).min(WINDOW))
    }
}
