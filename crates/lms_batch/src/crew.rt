//! The workers of a batch, each in a thread of its own where one can be started.
ghost use Rattle.std.specs.Prelude.{◌≡◌, ◌+◌, ◌<◌, ◌≤◌, All, IfOk, IfErr, length, vec_len, vec_capacity};
ghost use Rattle.lms_batch.specs.Jobs.{most_workers, texts_of};
ghost use Rattle.lms_batch.specs.Batches.{none_of};
ghost use Rattle.lms_batch.specs.Answers.{IsAnswerTo};

use crate::collector::{Batch, Collector};
use crate::gate::Gate;
use crate::job::Job;
use crate::open_lease::OpenLease;
use crate::receipt::Receipt;
use crate::trees::Trees;
use crate::worker::Worker;
use lms_book::Lease;
use lms_hss::{HssKey, Progress};
use lms_params::OutOfMemory;
use lms_pool::DrawSeat;
use std::alloc::Global;
use std::thread::{self, Threads};

/// What a batch needs before its lease is opened: a collector, capacity for the workers, and for
/// each of them a list with capacity for the receipts of all jobs.
#[derive(Drop)]
struct Crew<'a> {
    collector: Collector<'a>,
    jobs: &'a [Job],
    lists: Vec<Vec<Receipt<'a>>>,
    workers: Vec<Worker<'a>>,
    ghost capacity: { All (λ list.
        (vec_len list ≡ 0) × (length jobs.now ≤ vec_capacity list)) lists.items },
    ghost fits: { vec_len workers + vec_len lists ≤ vec_capacity workers },
}

impl<'a> Crew<'a> {
    /// A crew for so many workers, none of which is made yet, and for jobs that are signed by
    /// indices of the key from `start` on. `OutOfMemory` where memory is refused.
    fn new(
        alloc: Global,
        key: HssKey,
        start: u64,
        jobs: &'a [Job],
        workers: usize,
    ) -> Result<Crew<'a>, OutOfMemory>
        ensures batch { IfOk result (λ crew.
            crew.collector ≡ none_of key start (texts_of jobs.now)) }
        ensures jobs { IfOk result (λ crew. crew.jobs.now ≡ jobs.now) }
        ensures lists { IfOk result (λ crew. vec_len crew.lists ≡ workers) }
        ensures none { IfOk result (λ crew. vec_len crew.workers ≡ 0) }
    {
        let collector = Collector::new(alloc, key, start, jobs)?;
        let mut lists = Vec::with_capacity(alloc, workers)?;
        for _ in 0..workers {
            lists.push(Vec::with_capacity(alloc, jobs.len())?)?;
        }
        Ok(Crew {
            collector,
            jobs,
            lists,
            workers: Vec::with_capacity(alloc, workers)?,
        })
    }

    /// Makes a worker for each list, at a seat of the open lease, and hands them out with the
    /// collector.
    fn seated(self, lease: &'a OpenLease, seats: Vec<DrawSeat>) -> (Collector<'a>, Vec<Worker<'a>>)
        requires places { lease.now.len ≡ length self.jobs.now }
        requires own { All (λ seat. seat.pool ≡ lease.now) seats.items }
        requires lists { vec_len self.lists ≡ vec_len seats }
        requires none { vec_len self.workers ≡ 0 }
        ensures collector { result.0 ≡ self.entry.collector }
        ensures workers { vec_len result.1 ≡ vec_len seats }
    {
        let Crew {
            collector,
            jobs,
            mut lists,
            mut workers,
        } = self;
        let mut seats = seats;
        while let Some(list) = lists.pop() {
            let Some(seat) = seats.pop() else {
                unreachable!()
            };
            workers.push_reserved(Worker::new(lease, jobs, seat, list));
        }
        (collector, workers)
    }
}

/// The batch of the receipts of all workers.
fn gathered<'a>(collector: Collector<'a>, workers: Vec<Worker<'a>>) -> Batch
    ensures { IsAnswerTo collector.entry.key collector.entry.start collector.entry.jobs result }
{
    let mut collector = collector;
    for worker in workers {
        for receipt in worker.into_receipts() {
            // One that was refused would leave its slot empty.
            let _ = collector.take(receipt);
        }
    }
    collector.finish()
}

/// Signs the jobs by the indices of the lease, one for each, by 1 to `MOST_WORKERS` workers, but no
/// more than there are jobs; the batch is `Partial` where memory is refused to a worker. The lease's
/// trees are taken out of `trees`, which computes what it has not kept, and are handed back to it;
/// how many leaves are computed is reported to `progress`.
///
/// `OutOfMemory` where memory is refused before any worker runs, with the lease handed back as it
/// was; kept trees may be dropped then.
pub(crate) fn sign_leased<R: Threads + Sync, G: Gate>(
    rt: &R,
    alloc: Global,
    lease: Lease,
    jobs: &[Job],
    workers: usize,
    gate: &G,
    progress: &impl Progress,
    trees: &mut Trees,
) -> Result<Batch, (OutOfMemory, Lease)>
    requires some { 1 ≤ workers }
    requires at_most { workers ≤ most_workers }
    requires jobs { 1 ≤ length jobs.now }
    requires len { lease.len ≡ length jobs.now }
    ensures ok { IfOk result (IsAnswerTo lease.key lease.start (texts_of jobs.now)) }
    ensures err { IfErr result (λ e. e.1 ≡ lease) }
{
    let workers = workers.min(jobs.len());
    let crew = match Crew::new(alloc, lease.key(), lease.start(), jobs, workers) {
        Ok(crew) => crew,
        Err(refused) => return Err((refused, lease)),
    };
    let forest = match trees.take(rt, alloc, &lease, progress) {
        Ok(forest) => forest,
        Err(refused) => return Err((refused, lease)),
    };
    let (opened, seats) = OpenLease::over(alloc, lease, forest, workers)?;
    let (collector, mut workers) = crew.seated(&opened, seats);
    let threads = workers.len();
    thread::for_each_mut(
        rt,
        &mut workers,
        threads,
        &|_, worker: &mut Worker| { worker.work(gate) },
    );
    let batch = gathered(collector, workers);
    trees.keep(opened.into_forest());
    Ok(batch)
}
