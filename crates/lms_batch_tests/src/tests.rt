ghost use Rattle.std.specs.Prelude.{◌≡◌};
ghost use Rattle.lms_shared_book.specs.Desks.{BlankFits};

mod at_once;
mod faults;
mod fixtures;
mod gates;
mod kept;
mod memory;
mod outcome;

use crate::tests::fixtures::{CHEAP, LEVELS, jobs_of, public_key};
use gates::Meeting;
use kept::Means;
use lms_batch::{BatchFault, Gate, Job, MOST_WORKERS, OpenGate, SigningService, Trees};
use lms_book::{Book, BookFault, Entry, Left, MemoryStore};
use lms_fixtures::{book_of, key_of, store_at};
use lms_hss::HssKey;
use lms_params::{LmsType, OtsType, OutOfMemory};
use lms_shared_book::{Blanks, BookLedger, Desk, SharedBook};
use outcome::{Answer, Outcome};
use std::alloc::{AllocError, AllocGlobal, Global};
use std::marker::Brand;
use std::sync::Wait;
use std::sync::ledger::{Blank, Ledger};
use std::test::Fail;
use std::thread;
use std::thread::Threads;

/// What is asked of a service that has four desks: batches one after another at the first desk, of
/// the first so many jobs each.
#[derive(Drop)]
struct Asked<'a, W> {
    jobs: &'a [Job],
    lengths: &'a [usize],
    workers: usize,
    gate: &'a W,
    /// Whether each of the four desks asks for them, in a thread of its own.
    at_once: bool,
    /// Whether the first write of the book fails.
    fails_first: bool,
}

/// What a desk counted: entries, received, burnt.
fn counts<E: BookLedger, G: Ledger, B: Ledger>(desk: &Desk<E, G, B>) -> (u64, u64, u64) {
    (desk.entries(), desk.received(), desk.burnt())
}

/// Asks for a batch of so many of the jobs, by 1 to `MOST_WORKERS` workers, and by trees of its own
/// where all desks ask at once.
fn answer_at<E: BookLedger, G: Ledger, B: Ledger, W: Gate>(
    rt: &(impl AllocGlobal + Threads + Wait + Sync),
    service: &SigningService<MemoryStore, E, G, B>,
    desk: &mut Desk<E, G, B>,
    asked: &Asked<W>,
    length: usize,
    means: &mut Means,
) -> Answer {
    let length = length.min(asked.jobs.len());
    let workers = asked.workers.clamp(1, MOST_WORKERS);
    let jobs = &asked.jobs[..length];
    let (alloc, gate) = (rt.alloc(), asked.gate);
    let batch = if asked.at_once {
        service.sign_batch(rt, alloc, desk, jobs, workers, gate)
    } else {
        let trees = &mut means.trees;
        service.sign_batch_by(rt, alloc, desk, jobs, workers, gate, &means.sums, trees)
    };
    Answer {
        batch,
        counts: counts(desk),
    }
}

/// An empty list with the capacity for so many answers. Memory that is refused once is asked for
/// again.
fn no_answers(alloc: Global, count: usize) -> Result<Vec<Answer>, AllocError> {
    match Vec::with_capacity(alloc, count) {
        Ok(answers) => Ok(answers),
        Err(_) => Vec::with_capacity(alloc, count),
    }
}

/// Asks for the batches at a desk.
fn answers_at<E: BookLedger, G: Ledger, B: Ledger, W: Gate>(
    rt: &(impl AllocGlobal + Threads + Wait + Sync),
    service: &SigningService<MemoryStore, E, G, B>,
    desk: &mut Desk<E, G, B>,
    asked: &Asked<W>,
    means: &mut Means,
) -> Result<Vec<Answer>, OutOfMemory> {
    let mut answers = no_answers(rt.alloc(), asked.lengths.len())?;
    for length in asked.lengths {
        answers.push(answer_at(rt, service, desk, asked, *length, means))?;
    }
    Ok(answers)
}

/// The same, by a thread that hands the desk back. No answer where memory is refused.
fn visited<E: BookLedger, G: Ledger, B: Ledger, W: Gate>(
    rt: &(impl AllocGlobal + Threads + Wait + Sync),
    service: &SigningService<MemoryStore, E, G, B>,
    desk: Desk<E, G, B>,
    asked: &Asked<W>,
) -> (Desk<E, G, B>, Vec<Answer>) {
    let mut desk = desk;
    let mut means = Means::new(Trees::per_batch());
    let answers = match answers_at(rt, service, &mut desk, asked, &mut means) {
        Ok(answers) => answers,
        Err(_) => Vec::new(rt.alloc()),
    };
    (desk, answers)
}

/// The desks that the threads hand back, and the answers that they got.
fn gathered<E: BookLedger, G: Ledger, B: Ledger>(
    alloc: Global,
    visits: Vec<(Desk<E, G, B>, Vec<Answer>)>,
) -> Result<(Vec<Desk<E, G, B>>, Vec<Answer>), OutOfMemory> {
    let mut desks = Vec::new(alloc);
    let mut answers = Vec::new(alloc);
    for (desk, found) in visits {
        let mut found = found;
        desks.push(desk)?;
        answers.append(&mut found)?;
    }
    Ok((desks, answers))
}

/// Asks for the batches at the first desk, or at all desks at once.
fn asked_for<
    E: BookLedger + Send + Sync,
    G: Ledger + Send + Sync,
    B: Ledger + Send + Sync,
    W: Gate,
>(
    rt: &(impl AllocGlobal + Threads + Wait + Sync),
    service: &SigningService<MemoryStore, E, G, B>,
    desks: Vec<Desk<E, G, B>>,
    asked: &Asked<W>,
    means: &mut Means,
) -> Result<(Vec<Desk<E, G, B>>, Vec<Answer>), Fail> {
    if asked.at_once {
        let visits = thread::map_vec(rt, desks, &|desk| visited(rt, service, desk, asked))?;
        return Ok(gathered(rt.alloc(), visits)?);
    }
    let mut desks = desks;
    let desk = desks.first_mut().ok_or("a desk")?;
    let answers = answers_at(rt, service, desk, asked, means)?;
    Ok((desks, answers))
}

/// Asks a service for the batches, and settles then with all desks.
fn settled<E: BookLedger + Send + Sync, G: Ledger + Send + Sync, B: Ledger + Send + Sync, W: Gate>(
    rt: &(impl AllocGlobal + Threads + Wait + Sync),
    service: SigningService<MemoryStore, E, G, B>,
    desks: Vec<Desk<E, G, B>>,
    asked: &Asked<W>,
    means: &mut Means,
) -> Result<Outcome, Fail> {
    let key = service.key();
    let (desks, answers) = asked_for(rt, &service, desks, asked, means)?;
    match service.into_book().settle(desks) {
        Ok(book) => Ok(Outcome { key, answers, book }),
        Err(_) => Err(Fail::from("all desks are there")),
    }
}

/// Shares a book, and asks a service over it for the batches.
fn carried_out<
    E: BookLedger + Send + Sync,
    G: Ledger + Send + Sync,
    B: Ledger + Send + Sync,
    W: Gate,
>(
    rt: &(impl AllocGlobal + Threads + Wait + Sync),
    book: Book<MemoryStore>,
    blanks: Blanks,
    asked: &Asked<W>,
    means: &mut Means,
) -> Result<Outcome, Fail>
    requires same { book ≡ E.book }
    requires entries { BlankFits blanks.entries E.name E.parts 5 }
    requires received { BlankFits blanks.received G.name G.parts 5 }
    requires burnt { BlankFits blanks.burnt B.name B.parts 5 }
{
    let shared = match SharedBook::<MemoryStore, E, G, B>::share(rt.alloc(), book, blanks, 4) {
        Err((_, book, blanks)) => SharedBook::share(rt.alloc(), book, blanks, 4),
        answer => answer,
    };
    match shared {
        Ok((shared, desks)) => settled(rt, SigningService::over(shared), desks, asked, means),
        Err(_) => Err(Fail::from("memory for desks")),
    }
}

/// Asks a service over the book of this key whose next index is this one for the batches.
fn carry_out<W: Gate>(
    rt: &(impl AllocGlobal + Threads + Wait + Sync),
    key: HssKey,
    start: u64,
    asked: &Asked<W>,
    means: &mut Means,
) -> Result<Outcome, Fail> {
    let mut store = store_at(rt.alloc(), key, start)?;
    if asked.fails_first {
        store.fail_replace(1, Left::Old);
    }
    let book = book_of(rt.alloc(), store)?;
    let blanks = Blanks {
        entries: Blank::new(5),
        received: Blank::new(5),
        burnt: Blank::new(5),
    };
    carried_out::<Brand, Brand, Brand, W>(rt, book, blanks, asked, means)
}

/// The same by the key of these levels, and by trees of each batch alone.
fn signed_alone<W: Gate>(
    rt: &(impl AllocGlobal + Threads + Wait + Sync),
    levels: &[(LmsType, OtsType)],
    start: u64,
    asked: &Asked<W>,
) -> Result<Outcome, Fail> {
    let key = key_of(levels, 0x11)?;
    let mut means = Means::new(Trees::per_batch());
    carry_out(rt, key, start, asked, &mut means)
}

/// Signs jobs at the open gate, by the key of these levels from this index on.
fn signed_from(
    rt: &(impl AllocGlobal + Threads + Wait + Sync),
    levels: &[(LmsType, OtsType)],
    start: u64,
    jobs: &[Job],
    lengths: &[usize],
    workers: usize,
) -> Result<Outcome, Fail> {
    let asked = Asked {
        jobs,
        lengths,
        workers,
        gate: &OpenGate,
        at_once: false,
        fails_first: false,
    };
    signed_alone(rt, levels, start, &asked)
}

/// Whether so many workers sign four jobs.
fn four_are_signed(
    rt: &(impl AllocGlobal + Threads + Wait + Sync),
    jobs: &[Job],
    workers: usize,
) -> Result<bool, Fail> {
    let outcome = signed_from(rt, &LEVELS, 30, jobs, &[4], workers)?;
    Ok(
        outcome.has_counted(0, (1, 4, 0))
            && outcome.has_ended(&[Entry::Given { len: 4 }], 34)
            && outcome.is_complete(rt, 0, 30, jobs),
    )
}

#[test]
fn four_jobs_are_signed_by_each_number_of_workers(rt: HostRuntime) -> Result<(), Fail> {
    let jobs = jobs_of(rt.alloc(), 4)?;
    for workers in [1, 4, 64] {
        assert!(rt; four_are_signed(&rt, &jobs, workers)?, "{workers}");
    }
    Ok(())
}

/// Whether batches of none, of too many jobs, and of more than there are indices left are answered
/// so, and nothing is reserved.
fn reserve_nothing(outcome: &Outcome) -> bool {
    outcome.is_of_none(0)
        && outcome.has_fault(1, BatchFault::TooMany)
        && outcome.has_fault(2, BatchFault::Book(BookFault::Exhausted { left: 994 }))
        && outcome.has_counted(2, (0, 0, 0))
        && outcome.has_ended(&[], 30)
}

/// No job makes a batch of none; 1025 jobs are refused, and 1024 where 994 indices are left.
/// Nothing is reserved.
#[test]
fn too_few_and_too_many_jobs_reserve_nothing(rt: HostRuntime) -> Result<(), Fail> {
    let jobs = jobs_of(rt.alloc(), 1025)?;
    let outcome = signed_from(&rt, &LEVELS, 30, &jobs, &[0, 1025, 1024], 1)?;
    assert!(rt; reserve_nothing(&outcome));
    Ok(())
}

/// Whether the first batch of these jobs was burnt, and the next one signed.
fn is_burnt_once(
    rt: &(impl AllocGlobal + Threads + Sync),
    outcome: &Outcome,
    jobs: &[Job],
) -> bool {
    let burnt = BatchFault::Book(BookFault::Store { start: 0, len: 4 });
    outcome.has_fault(0, burnt)
        && outcome.has_counted(0, (1, 0, 4))
        && outcome.is_complete(rt, 1, 4, jobs)
        && outcome.has_counted(1, (2, 4, 4))
        && outcome.has_ended(&[Entry::Burnt { len: 4 }, Entry::Given { len: 4 }], 8)
}

/// A batch of four whose write fails burns its indices, and the next one goes on after them.
#[test]
fn a_failed_write_burns_a_batch(rt: HostRuntime) -> Result<(), Fail> {
    let jobs = jobs_of(rt.alloc(), 4)?;
    let asked = Asked {
        jobs: jobs.as_slice(),
        lengths: &[4, 4],
        workers: 2,
        gate: &OpenGate,
        at_once: false,
        fails_first: true,
    };
    let outcome = signed_alone(&rt, &LEVELS, 0, &asked)?;
    assert!(rt; is_burnt_once(&rt, &outcome, &jobs));
    Ok(())
}

/// Whether so many workers sign as many jobs as the key has indices.
fn all_are_signed(
    rt: &(impl AllocGlobal + Threads + Wait + Sync),
    jobs: &[Job],
    workers: usize,
) -> Result<bool, Fail> {
    let outcome = signed_from(rt, &CHEAP, 0, jobs, &[1024], workers)?;
    let is_valid = match public_key(rt, outcome.key) {
        Ok(public) => outcome.start_of(0, &public, jobs) == Some(0),
        Err(_) => false,
    };
    Ok(is_valid && outcome.has_ended(&[Entry::Given { len: 1024 }], 1024))
}

/// 1024 jobs are signed by 64 workers, and by one, which has all the receipts.
#[test]
fn all_indices_are_signed_by_most_workers_and_by_one(rt: HostRuntime) -> Result<(), Fail> {
    let jobs = jobs_of(rt.alloc(), 1024)?;
    for workers in [64, 1] {
        assert!(rt; all_are_signed(&rt, &jobs, workers)?, "{workers}");
    }
    Ok(())
}

/// Whether so many workers sign two jobs, where one alone waits in vain for another.
fn two_are_signed(
    rt: &(impl AllocGlobal + Threads + Wait + Sync),
    jobs: &[Job],
    workers: usize,
) -> Result<bool, Fail> {
    let gate = Meeting::new();
    let asked = Asked {
        jobs,
        lengths: &[2],
        workers,
        gate: &gate,
        at_once: false,
        fails_first: false,
    };
    let outcome = signed_alone(rt, &LEVELS, 30, &asked)?;
    Ok(
        gate.is_missed() == (workers == 1)
            && gate.is_called_in_turn()
            && outcome.has_ended(&[Entry::Given { len: 2 }], 32)
            && outcome.is_complete(rt, 0, 30, jobs),
    )
}

/// Each signature waits a while until the other one has begun. Where three workers are asked for,
/// two sign, since there are two jobs.
#[test]
fn two_workers_sign_at_once(rt: HostRuntime) -> Result<(), Fail> {
    let jobs = jobs_of(rt.alloc(), 2)?;
    for workers in [3, 2, 1] {
        assert!(rt; two_are_signed(&rt, &jobs, workers)?, "{workers}");
    }
    Ok(())
}
