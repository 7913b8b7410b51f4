//! Batches over a shared book.
ghost use Rattle.std.specs.Prelude.{◌≡◌, ◌≤◌};
ghost use Rattle.lms_batch.specs.Jobs.{most_workers};
ghost use Rattle.lms_batch.specs.Answers.{SignsBatch};

use crate::collector::Batch;
use crate::crew::sign_leased;
use crate::fault::BatchFault;
use crate::gate::Gate;
use crate::job::{Job, MOST_JOBS};
use crate::trees::Trees;
use lms_book::StateStore;
use lms_hss::{HssKey, Progress, Unwatched};
use lms_shared_book::{BookLedger, Desk, SharedBook};
use std::alloc::Global;
use std::marker::{Model, Sync};
use std::sync::Wait;
use std::sync::ledger::Ledger;
use std::thread::Threads;

/// The most workers of a batch.
pub const MOST_WORKERS: usize = 64;

/// Signs batches by the indices of a shared book. Contracts see its key and its number of desks.
#[derive(Drop)]
pub struct SigningService<S: StateStore, E: BookLedger, G: Ledger, B: Ledger> {
    book: SharedBook<S, E, G, B>,
}

impl<S: StateStore, E: BookLedger, G: Ledger, B: Ledger> Model for SigningService<S, E, G, B> {
    ghost use Rattle.lms_shared_book.specs.Desks.{SharedState};

    ghost Value = { SharedState };

    ghost view = { λ s. s.book };
}

impl<S: StateStore, E: BookLedger, G: Ledger, B: Ledger> SigningService<S, E, G, B> {
    /// The service over a shared book.
    pub fn over(book: SharedBook<S, E, G, B>) -> Self
        ensures { result ≡ book }
    {
        SigningService { book }
    }

    /// The key of the book that is shared.
    pub fn key(&self) -> HssKey
        ensures { result ≡ self.now.book.key }
    {
        self.book.key()
    }

    /// Hands the shared book back.
    pub fn into_book(self) -> SharedBook<S, E, G, B>
        ensures { result ≡ self }
    {
        self.book
    }

    /// Reserves one index for each of 1 to `MOST_JOBS` jobs, and signs the job at place k, counted
    /// from 0, by index start + k. 1 to `MOST_WORKERS` workers sign at once, the caller's thread
    /// among them, but no more than there are jobs. Waits for the book's lock, and for the workers.
    /// For no jobs it answers `Complete` with start 0 and no signatures, and reserves nothing.
    ///
    /// `TooMany` over `MOST_JOBS` jobs, with nothing reserved. `Book` where the reservation is
    /// refused, as `SharedBook::reserve` answers it. `OutOfMemory` where memory is refused after
    /// it, before any worker ran: its indices sign nothing. A worker that is refused memory burns
    /// the index that it claimed and those that nobody has claimed yet; the batch is then
    /// `Partial`. The desk counts the reservation as `SharedBook::reserve` says: all indices as
    /// received, also at `Partial` and `OutOfMemory`. Where no thread can be started for a worker,
    /// it runs after another one.
    pub fn sign_batch<R: Threads + Wait + Sync, W: Gate>(
        &self,
        rt: &R,
        alloc: Global,
        desk: &mut Desk<E, G, B>,
        jobs: &[Job],
        workers: usize,
        gate: &W,
    ) -> Result<Batch, BatchFault>
        requires some { 1 ≤ workers }
        requires at_most { workers ≤ most_workers }
        ensures { SignsBatch self.now jobs.now desk.old result desk.new }
    {
        let trees = &mut Trees::per_batch();
        self.sign_batch_by(rt, alloc, desk, jobs, workers, gate, &Unwatched, trees)
    }

    /// As `sign_batch`, by `trees`, which may be kept from one batch to the next; `progress` gets
    /// how many of their leaves are computed. What it answers does not depend on what is kept:
    /// where that is of another key or does not cover all indices of the batch, what is missing is
    /// computed.
    pub fn sign_batch_by<R: Threads + Wait + Sync, W: Gate>(
        &self,
        rt: &R,
        alloc: Global,
        desk: &mut Desk<E, G, B>,
        jobs: &[Job],
        workers: usize,
        gate: &W,
        progress: &impl Progress,
        trees: &mut Trees,
    ) -> Result<Batch, BatchFault>
        requires some { 1 ≤ workers }
        requires at_most { workers ≤ most_workers }
        ensures { SignsBatch self.now jobs.now desk.old result desk.new }
    {
        if jobs.len() > MOST_JOBS {
            return Err(BatchFault::TooMany);
        }
        if jobs.is_empty() {
            return Ok(Batch::Complete {
                start: 0,
                signatures: Vec::new(alloc),
            });
        }
        let count = jobs.len() as u64;
        let lease = match self.book.reserve(rt, desk, count) {
            Ok(lease) => lease,
            Err(refused) => return Err(BatchFault::Book(refused)),
        };
        match sign_leased(rt, alloc, lease, jobs, workers, gate, progress, trees) {
            Ok(batch) => Ok(batch),
            Err((_, lease)) => {
                self.book.give_back(lease);
                Err(BatchFault::OutOfMemory { burnt: count })
            }
        }
    }
}
