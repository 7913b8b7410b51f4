//! `batch`: job lines signed by the next indices of a key's state.
ghost use Rattle.std.specs.Io.KnownBytes.{Appends};
ghost use Rattle.std.specs.Prelude.{Some, ◌≡◌, ◌≤◌, ℕ, List, [], ◌∷◌, length, IfErr, IfOk, OnOk};
ghost use Rattle.lms_batch.specs.Jobs.{most_workers};
ghost use Rattle.lms_shared_book.specs.Desks.{BlankFits, sums};
ghost use Rattle.lms_lines.specs.AnswerLines.{answer_text};
ghost use Rattle.lms_lines.specs.SignedLines.{signatures_in};
ghost use Rattle.lms_batch_commands.specs.BatchLogs.{LogsAnswers, LogsBatch, LogsJobs, LogsJobsFailed, LogsNoBatch, LogsUnanswered};
ghost use Rattle.lms_batch_commands.specs.Batches.{IsUnprinted, LeavesOpened, SignsOpened};
ghost use Rattle.lms_commands.specs.Watching.{watch_of};
ghost use Rattle.lms_world.specs.Held.{Follows};
ghost use Rattle.lms_batch_commands.specs.SharedBooks.{IsRefusedAtDesk, IsRefusedBy, IsSignedAtDesk, IsSignedByBook};

use lms_batch::{SigningService, Trees};
use lms_book::{Book, StateStore};
use lms_commands::{
    Fault, Resources, Witness, discard, image_read, lock_state, note, open_watched,
};
use lms_hss::Progress;
use lms_lines::{SignedJobs, count_signatures, read_and_sign, write_batch};
use lms_shared_book::{Blanks, BookLedger, Desk, SharedBook};
use lms_texts::workers_from;
use lms_world::{Printer, World};
use std::io::{Read, Write};
use std::marker::Brand;
use std::sync::Wait;
use std::sync::ledger::{Blank, Ledger};
use std::thread::Threads;

/// Signs the job lines of the whole input with the next indices of a state's key, one index a job,
/// by 1 to `lms_batch::MOST_WORKERS` workers at once, and prints a line for each signature, in the
/// order of the jobs. `workers` is their number, in decimal. One reservation is made, before any
/// job is signed; where there are no jobs, none.
///
/// Faults, in this order: `BadWorkers`; `StateInUse` where the state's lock is not available; those
/// of `open_watched`; `ReadInput` where the input can't be read; `BadJob` with the number of the
/// first line that is no job line; `TooManyJobs` over 1024; `Exhausted`; `WriteStateBurnt` where
/// the use of the indices may not have been stored; `OutOfMemoryBurnt` where memory is refused
/// after that, before any job is signed; `WriteWitnessBurnt` where the witness may not say so, after
/// they are signed; `WriteOutput`, maybe after a beginning of the lines; `Partial` where memory is
/// refused to a worker, after the lines of those that were signed. `OutOfMemory` may come anywhere
/// before `WriteStateBurnt`. At the last four all indices of the batch are used; after
/// `WriteStateBurnt` the state may still be the older one, which gives them again. The state stays
/// locked while the input is read.
///
/// `resources.progress` gets how many leaves of the trees that the batch needs are computed.
pub fn sign_jobs<W: World, I: Read, O: Write>(
    resources: &Resources<impl Threads + Wait + Sync, impl Progress>,
    world: &mut W,
    state: &str,
    workers: &str,
    input: &mut I,
    output: &mut Printer<O>,
) -> Result<(), Fault>
    ensures logged { OnOk result (LogsJobs state.now workers.now (I.remaining input.old)
        (I.remaining input.new) output.old output.new (W.events world.old) (W.events world.new)) }
    ensures log_failed { IfErr result (λ fault. LogsJobsFailed state.now workers.now
        (I.remaining input.old) (I.remaining input.new) output.old output.new fault
        (W.events world.old) (W.events world.new)) }
    ensures follows { Follows (W.memory world.old) (W.events world.old)
        (W.memory world.new) (W.events world.new) }
{
    let Some(workers) = workers_from(workers) else {
        return Err(Fault::BadWorkers);
    };
    let lock = lock_state(resources.alloc, world, state)?;
    let trees = &mut Trees::per_batch();
    let done = sign_locked(resources, world, &lock, workers, trees, input, output);
    world.unlock(lock);
    done
}

/// As `sign_jobs`, under the lock, by these trees. The answers are printed after the state's store
/// was put back.
fn sign_locked<W: World, I: Read, O: Write>(
    resources: &Resources<impl Threads + Wait + Sync, impl Progress>,
    world: &mut W,
    lock: &W::Lock,
    workers: usize,
    trees: &mut Trees,
    input: &mut I,
    output: &mut Printer<O>,
) -> Result<(), Fault>
    requires some { 1 ≤ workers }
    requires at_most { workers ≤ most_workers }
    ensures logged { OnOk result ((count : ℕ) × LogsAnswers
        (I.remaining input.old) (I.remaining input.new) output.old output.new count count
        (W.events world.old) (W.events world.new)) }
    ensures log_failed { IfErr result (λ fault. LogsUnanswered
        (I.remaining input.old) (I.remaining input.new) output.old output.new fault
        (W.events world.old) (W.events world.new)) }
    ensures follows { Follows (W.memory world.old) (W.events world.old)
        (W.memory world.new) (W.events world.new) }
{
    let signed = sign_stored(resources, world, lock, workers, trees, input)?;
    world.begin_printing(output);
    print_answers(&signed, output)
}

/// Prints the lines of a batch. `WriteOutput` where that can't be done, maybe after a beginning of
/// them; `Partial` where not all jobs were signed, after the lines of those that were.
pub(crate) fn print_answers<O: Write>(signed: &SignedJobs, output: &mut O) -> Result<(), Fault>
    ensures all { OnOk result ((signatures_in signed.now.batch ≡ signed.now.asked)
        × Appends (O.contents output.old) (O.contents output.new) (answer_text signed.now.batch)) }
    ensures failed { IfErr result
        (IsUnprinted signed.now.batch signed.now.asked
        (O.contents output.old) (O.contents output.new)) }
{
    write_batch(output, &signed.batch)?;
    let Ok(()) = output.flush() else {
        return Err(Fault::WriteOutput);
    };
    let count = count_signatures(&signed.batch);
    if count != signed.asked {
        return Err(Fault::Partial {
            signed: count,
            asked: signed.asked,
        });
    }
    Ok(())
}

/// Signs job lines with the next indices of the key of a lock's state, which it opens with its
/// witness and puts back; then it has the witness say that they are used. Faults as `open_watched`
/// and `sign_opened`.
fn sign_stored<W: World, I: Read>(
    resources: &Resources<impl Threads + Wait + Sync, impl Progress>,
    world: &mut W,
    lock: &W::Lock,
    workers: usize,
    trees: &mut Trees,
    input: &mut I,
) -> Result<SignedJobs, Fault>
    requires some { 1 ≤ workers }
    requires at_most { workers ≤ most_workers }
    ensures logged { IfOk result (λ signed.
        (signs : LogsBatch (I.remaining input.old) (I.remaining input.new) signed.batch
        (W.events world.old) (W.events world.new)) × (signed.asked ≡ length signs.jobs)) }
    ensures log_failed { IfErr result (λ fault. LogsNoBatch (I.remaining input.old)
        (I.remaining input.new) fault (W.events world.old) (W.events world.new)) }
    ensures follows { Follows (W.memory world.old) (W.events world.old)
        (W.memory world.new) (W.events world.new) }
{
    let (book, witness) = open_watched(resources.alloc, world, lock)?;
    sign_opened(resources, world, lock, book, witness, workers, trees, input)
}

/// Signs job lines by a book that was just opened with its witness, puts its store back, and has
/// the witness say that their indices are used. `WriteWitnessBurnt` where that may not have been
/// written, and what was signed is let go; else faults as `sign_jobs`, from the reading of the
/// input on.
pub(crate) fn sign_opened<W: World, I: Read>(
    resources: &Resources<impl Threads + Wait + Sync, impl Progress>,
    world: &mut W,
    lock: &W::Lock,
    book: Book<W::Store>,
    witness: Option<Witness<W::Draft>>,
    workers: usize,
    trees: &mut Trees,
    input: &mut I,
) -> Result<SignedJobs, Fault>
    requires some { 1 ≤ workers }
    requires at_most { workers ≤ most_workers }
    requires fresh { book.history ≡ [] }
    ensures logged { IfOk result (λ signed. SignsOpened (watch_of witness) book (I.remaining input.old)
        (I.remaining input.new) signed (W.events world.old) (W.events world.new)) }
    ensures log_failed { IfErr result (λ fault. LeavesOpened (watch_of witness) book (I.remaining input.old)
        (I.remaining input.new) fault (W.events world.old) (W.events world.new)) }
    ensures follows { Follows (W.memory world.old) (W.events world.old)
        (W.memory world.new) (W.events world.new) }
{
    let read = image_read(&book);
    let (answer, left) = sign_by_book(resources, book, workers, trees, input);
    world.put_back(lock, left.close());
    match answer {
        Ok(signed) => {
            note(world, witness, &read, signed.asked as u64)?;
            Ok(signed)
        }
        Err(fault) => {
            discard(world, witness);
            Err(fault)
        }
    }
}

/// Signs job lines by a book that is shared meanwhile, with one desk, and hands the book back.
fn sign_by_book<S: StateStore, I: Read>(
    resources: &Resources<impl Threads + Wait + Sync, impl Progress>,
    book: Book<S>,
    workers: usize,
    trees: &mut Trees,
    input: &mut I,
) -> (Result<SignedJobs, Fault>, Book<S>)
    requires some { 1 ≤ workers }
    requires at_most { workers ≤ most_workers }
    ensures signed { IfOk result.0 (λ signed.
        IsSignedByBook book (I.remaining input.old) (I.remaining input.new) signed result.1) }
    ensures refused { IfErr result.0 (λ fault.
        IsRefusedBy book (I.remaining input.old) (I.remaining input.new) fault result.1) }
{
    let blanks = Blanks {
        entries: Blank::new(2),
        received: Blank::new(2),
        burnt: Blank::new(2),
    };
    sign_shared::<Brand, Brand, Brand, S, I>(resources, book, blanks, workers, trees, input)
}

/// As `sign_by_book`, with the blanks of which the desk's ledgers are made. `OutOfMemory` also
/// where memory for the desk is refused, and no line is read then.
fn sign_shared<E: BookLedger, G: Ledger, B: Ledger, S: StateStore, I: Read>(
    resources: &Resources<impl Threads + Wait + Sync, impl Progress>,
    book: Book<S>,
    blanks: Blanks,
    workers: usize,
    trees: &mut Trees,
    input: &mut I,
) -> (Result<SignedJobs, Fault>, Book<S>)
    requires some { 1 ≤ workers }
    requires at_most { workers ≤ most_workers }
    requires same { book ≡ E.book }
    requires entries { BlankFits blanks.entries E.name E.parts 2 }
    requires received { BlankFits blanks.received G.name G.parts 2 }
    requires burnt { BlankFits blanks.burnt B.name B.parts 2 }
    ensures signed { IfOk result.0 (λ signed.
        IsSignedByBook book (I.remaining input.old) (I.remaining input.new) signed result.1) }
    ensures refused { IfErr result.0 (λ fault.
        IsRefusedBy book (I.remaining input.old) (I.remaining input.new) fault result.1) }
{
    let (shared, mut desks) = match SharedBook::<S, E, G, B>::share(
        resources.alloc,
        book,
        blanks,
        1,
    ) {
        Ok(shared) => shared,
        Err((_, book, _)) => return (Err(Fault::OutOfMemory), book),
    };
    let service = SigningService::over(shared);
    let answer = sign_at_desk(resources, &service, &mut desks, workers, trees, input);
    match service.into_book().settle(desks) {
        Ok(left) => (answer, left),
        // All desks have come, so that nothing is dropped here.
        Err(_) => unreachable!(),
    }
}

/// Signs job lines at the only desk of a service, which has counted nothing before. Faults as
/// `lms_lines::read_and_sign`.
fn sign_at_desk<E: BookLedger, G: Ledger, B: Ledger, S: StateStore, I: Read>(
    resources: &Resources<impl Threads + Wait + Sync, impl Progress>,
    service: &SigningService<S, E, G, B>,
    desks: &mut [Desk<E, G, B>],
    workers: usize,
    trees: &mut Trees,
    input: &mut I,
) -> Result<SignedJobs, Fault>
    requires some { 1 ≤ workers }
    requires at_most { workers ≤ most_workers }
    requires one { desks.old ≡ sums 0 0 0 ∷ [] }
    ensures signed { IfOk result (λ signed. IsSignedAtDesk service.now
        (I.remaining input.old) (I.remaining input.new) signed desks.new) }
    ensures refused { IfErr result (λ fault. IsRefusedAtDesk service.now
        (I.remaining input.old) (I.remaining input.new) fault desks.new) }
{
    Ok(read_and_sign(
        resources.rt,
        resources.alloc,
        service,
        input,
        &mut desks[0],
        workers,
        resources.progress,
        trees,
    )?)
}
