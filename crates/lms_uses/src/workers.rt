//! A list of messages signed by several workers.
ghost use Rattle.std.specs.Prelude.{◌≡◌, ◌≤◌, [], ◌∷◌, IfOk};
ghost use Rattle.lms_shared_book.specs.Desks.{BlankFits, Sums};
ghost use Rattle.lms_shared_book.specs.Shared.{IsSettled};
ghost use Rattle.lms_batch.specs.Jobs.{most_workers, texts_of};
ghost use Rattle.lms_batch.specs.Answers.{IsAnswerTo, start_of};

use lms_batch::{Batch, BatchFault, Job, OpenGate, SigningService};
use lms_book::{Book, BookFault, StateStore};
use lms_shared_book::{Blanks, BookLedger, SharedBook};
use std::alloc::Global;
use std::marker::Brand;
use std::sync::Wait;
use std::sync::ledger::{Blank, Ledger};
use std::thread::Threads;

/// Signs jobs by the next indices of a book, one index a job, by 1 to 64 workers at once, and hands
/// the book back. The errors, and when a batch is `Partial`, are those of
/// `SigningService::sign_batch`; where memory for the desk is refused it is `Book` with
/// `OutOfMemory`.
pub fn sign_all<S: StateStore>(
    rt: &(impl Threads + Wait + Sync),
    alloc: Global,
    book: Book<S>,
    jobs: &[Job],
    workers: usize,
) -> (Result<Batch, BatchFault>, Book<S>)
    requires some { 1 ≤ workers }
    requires at_most { workers ≤ most_workers }
    ensures answer { IfOk result.0 (λ batch.
        IsAnswerTo book.key (start_of batch) (texts_of jobs.now) batch) }
    ensures left { (counted : Sums) × IsSettled book counted result.1 }
{
    let blanks = Blanks {
        entries: Blank::new(2),
        received: Blank::new(2),
        burnt: Blank::new(2),
    };
    sign_shared::<Brand, Brand, Brand, S>(rt, alloc, book, blanks, jobs, workers)
}

/// As `sign_all`, by the ledgers of a shared book with one desk, whose blanks are given.
fn sign_shared<E: BookLedger, G: Ledger, B: Ledger, S: StateStore>(
    rt: &(impl Threads + Wait + Sync),
    alloc: Global,
    book: Book<S>,
    blanks: Blanks,
    jobs: &[Job],
    workers: usize,
) -> (Result<Batch, BatchFault>, Book<S>)
    requires some { 1 ≤ workers }
    requires at_most { workers ≤ most_workers }
    requires same { book ≡ E.book }
    requires entries { BlankFits blanks.entries E.name E.parts 2 }
    requires received { BlankFits blanks.received G.name G.parts 2 }
    requires burnt { BlankFits blanks.burnt B.name B.parts 2 }
    ensures answer { IfOk result.0 (λ batch.
        IsAnswerTo book.key (start_of batch) (texts_of jobs.now) batch) }
    ensures left { (counted : Sums) × IsSettled book counted result.1 }
{
    let (shared, mut desks) = match SharedBook::<S, E, G, B>::share(alloc, book, blanks, 1) {
        Ok(shared) => shared,
        Err((_, book, _)) => return (Err(BatchFault::Book(BookFault::OutOfMemory)), book),
    };
    let service = SigningService::over(shared);
    let batch = service.sign_batch(rt, alloc, &mut desks[0], jobs, workers, &OpenGate);
    match service.into_book().settle(desks) {
        Ok(left) => (batch, left),
        // All desks have come.
        Err(_) => unreachable!(),
    }
}
