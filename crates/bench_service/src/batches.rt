//! Batches signed by one worker and by several at once.
ghost use Rattle.std.specs.Prelude.{◌≡◌};
ghost use Rattle.lms_shared_book.specs.Desks.{BlankFits};

use crate::book::book;
use crate::stopwatch::Stopwatch;
use crate::workers::Workers;
use bench_base::{Fault, Hierarchy, Hss, RANDOMIZER, clock, process_clock};
use lms_batch::{Batch, Job, SigningService, Trees};
use lms_book::{Book, MemoryStore};
use lms_hss::{Forest, HssKey, Unwatched};
use lms_params::OutOfMemory;
use lms_shared_book::{Blanks, BookLedger, Desk, SharedBook};
use std::alloc::Global;
use std::marker::Brand;
use std::sync::Wait;
use std::sync::ledger::{Blank, Ledger};
use std::thread::Threads;
use std::time::{Clock, CpuClock, Duration};

/// Jobs that are signed by the indices of a key from 0 on.
#[derive(Drop)]
pub struct Batches {
    pub hierarchy: Hierarchy,
    pub jobs: Vec<Job>,
}

/// A batch, and how long it took.
#[derive(Drop)]
pub struct SignedBatch {
    pub batch: Batch,
    /// On the clock, from the call to its answer.
    pub whole: Duration,
    /// On the clock, from the beginning of the first signature to the end of the last.
    pub signing: Duration,
    /// The processor time of that, where one worker signed.
    pub processor: Duration,
    /// The processor time of the call, of all threads.
    pub whole_processor: Duration,
}

impl Batches {
    /// So many jobs of one message.
    pub fn new(
        alloc: Global,
        hierarchy: Hierarchy,
        count: usize,
        message: &[u8],
    ) -> Result<Self, Fault> {
        let mut jobs = Vec::new(alloc);
        for _ in 0..count {
            let Ok(message) = Vec::from_slice(alloc, message) else {
                return Err(Fault::OutOfMemory);
            };
            let c = RANDOMIZER;
            let Ok(()) = jobs.push(Job { c, message }) else {
                return Err(Fault::OutOfMemory);
            };
        }
        Ok(Batches { hierarchy, jobs })
    }

    /// The batch of these jobs by a new book.
    pub fn sign<R>(&self, rt: &R, workers: Workers) -> Result<SignedBatch, Fault>
    where
        R: AllocGlobal + Clock + CpuClock + Threads + Wait + Sync,
    {
        self.sign_by(rt, workers, &mut Trees::per_batch())
    }

    /// The same, by trees that were computed before.
    pub fn sign_by_kept<R>(&self, rt: &R, workers: Workers) -> Result<SignedBatch, Fault>
    where
        R: AllocGlobal + Clock + CpuClock + Threads + Wait + Sync,
    {
        let key = self.hierarchy.key()?;
        if key.capacity() == 0 {
            return Err(Fault::Key);
        }
        let mut trees = Trees::kept();
        match trees.prepare(rt, rt.alloc(), key, 0, &Unwatched) {
            Ok(()) => self.sign_by(rt, workers, &mut trees),
            Err(OutOfMemory) => Err(Fault::OutOfMemory),
        }
    }

    fn sign_by<R>(&self, rt: &R, workers: Workers, trees: &mut Trees) -> Result<SignedBatch, Fault>
    where
        R: AllocGlobal + Clock + CpuClock + Threads + Wait + Sync,
    {
        let book = book(rt.alloc(), self.hierarchy)?;
        let blanks = Blanks {
            entries: Blank::new(2),
            received: Blank::new(2),
            burnt: Blank::new(2),
        };
        sign_shared::<Brand, Brand, Brand, R>(rt, book, blanks, &self.jobs, workers, trees)
    }

    /// The time of covering the indices of the batch.
    pub fn time_cover<R>(&self, rt: &R) -> Result<Duration, Fault>
    where
        R: AllocGlobal + Clock + Threads + Sync,
    {
        let key = self.hierarchy.key()?;
        let len = self.jobs.len() as u64;
        if len < 1 || len > 1024 || len > key.capacity() {
            return Err(Fault::Key);
        }
        let start = clock(rt);
        match Forest::cover(rt, rt.alloc(), key, 0, len) {
            Ok(_) => Ok(clock(rt).saturating_sub(start)),
            Err(OutOfMemory) => Err(Fault::OutOfMemory),
        }
    }

    /// The compressions of the batch's signatures with the trees at hand.
    pub fn compressions(&self, batch: &Batch) -> Result<u64, Fault> {
        let key = self.hierarchy.key()?;
        match batch {
            Batch::Complete { signatures, .. } => count(&key, &self.jobs, signatures),
            Batch::Partial { .. } => Err(Fault::OutOfMemory),
        }
    }
}

/// The compressions of the signatures of these jobs with the trees at hand.
fn count(key: &HssKey, jobs: &[Job], signatures: &[Vec<u8>]) -> Result<u64, Fault> {
    let mut sum: u64 = 0;
    for (job, signature) in jobs.iter().zip(signatures) {
        match Hss::new(key, &job.message, signature) {
            Some(counts) => sum = sum.saturating_add(counts.signature),
            None => return Err(Fault::ShortSignature),
        }
    }
    Ok(sum)
}

/// Signs the jobs by a book that is shared meanwhile, with one desk.
fn sign_shared<E: BookLedger, G: Ledger, B: Ledger, R>(
    rt: &R,
    book: Book<MemoryStore>,
    blanks: Blanks,
    jobs: &[Job],
    workers: Workers,
    trees: &mut Trees,
) -> Result<SignedBatch, Fault>
where
    R: AllocGlobal + Clock + CpuClock + Threads + Wait + Sync,
    requires same { book ≡ E.book }
    requires entries { BlankFits blanks.entries E.name E.parts 2 }
    requires received { BlankFits blanks.received G.name G.parts 2 }
    requires burnt { BlankFits blanks.burnt B.name B.parts 2 }
{
    match SharedBook::<MemoryStore, E, G, B>::share(rt.alloc(), book, blanks, 1) {
        Ok((shared, mut desks)) => match desks.first_mut() {
            Some(desk) => sign_at_desk(
                rt,
                &SigningService::over(shared),
                desk,
                jobs,
                workers,
                trees,
            ),
            None => Err(Fault::Service),
        },
        Err(_) => Err(Fault::OutOfMemory),
    }
}

/// Signs the jobs at a desk.
fn sign_at_desk<E: BookLedger, G: Ledger, B: Ledger, R>(
    rt: &R,
    service: &SigningService<MemoryStore, E, G, B>,
    desk: &mut Desk<E, G, B>,
    jobs: &[Job],
    workers: Workers,
    trees: &mut Trees,
) -> Result<SignedBatch, Fault>
where
    R: AllocGlobal + Clock + CpuClock + Threads + Wait + Sync,
{
    let gate = Stopwatch::new(rt);
    let used = process_clock(rt);
    let start = clock(rt);
    let count = workers.count();
    match service.sign_batch_by(rt, rt.alloc(), desk, jobs, count, &gate, &Unwatched, trees) {
        Ok(batch) => Ok(SignedBatch {
            batch,
            whole: clock(rt).saturating_sub(start),
            signing: gate.time(),
            processor: gate.processor_time(),
            whole_processor: process_clock(rt).saturating_sub(used),
        }),
        Err(_) => Err(Fault::Service),
    }
}
