//! `serve`: job lines signed as they come, by the next indices of a key's state.
ghost use Rattle.std.specs.Prelude.{◌≡◌, ◌⊎◌, ◌≤◌, List, IfErr, IfOk, OnOk};
ghost use Rattle.lms_batch.specs.Jobs.{most_workers};
ghost use Rattle.lms_batch_commands.specs.Serving.{AnswersAll, AnswersGroup, Due, FailsLines, FailsToServe, Group, IsFront, LogsGroups, LogsServe, LogsServeFailed, StopsServing, ServesPiece, SparesGroup, SpendsGroup, TriesPiece, due_of, unread_fault};
ghost use Rattle.lms_world.specs.Held.{Follows};

use crate::batch::{print_answers, sign_opened};
use crate::due::{after_use, open_due};
use lms_batch::Trees;
use lms_commands::{Fault, Resources, image_read, lock_state};
use lms_hss::Progress;
use lms_image::Image;
use lms_lines::{JobsFault, Pieces, end_of_lines};
use lms_texts::workers_from;
use lms_world::{Printer, World};
use std::io::{Read, Write};
use std::sync::Wait;
use std::thread::Threads;

/// The most groups of a run, so that a `u64` counts their lines.
const MOST_GROUPS: u64 = 1 << 53;

/// Signs job lines as they come, until the input ends, by the next indices of a state's key, one
/// index a job, by 1 to `lms_batch::MOST_WORKERS` workers at once. `workers` is their number, in
/// decimal.
///
/// The lines of which the end was read, at most 1024, are a group. For a group all is done that
/// `sign_jobs` does with an input of these lines, from the opening of the state to the flush of the
/// answers; then the next is read. So its indices are stored as used by one write, before it is
/// signed. The lock is held all the time, and trees are kept from group to group.
///
/// The state is opened, and the trees of the next indices are computed, before the first read. From
/// then on the state has to say what this call stored last, or opened before it stored anything;
/// where it doesn't, nothing more is signed. The state's witness, where it has one, is read anew at
/// each opening, and written by each group that uses indices.
///
/// Faults are those of `sign_jobs`, each after the answers of earlier groups. `ReadState` comes at
/// another state than was stored last, too. `BadJob` has the number of the line in the whole input,
/// and comes after the answers of all lines before it; `Exhausted` comes once no index is left.
/// `TooManyJobs` comes after 2^53 groups. `OutOfMemory` may come before the first read, too, where
/// memory for the trees is refused.
///
/// `resources.progress` gets how many leaves of the trees are computed.
pub fn serve_jobs<W: World, I: Read, O: Write>(
    resources: &Resources<impl Threads + Wait + Sync, impl Progress>,
    world: &mut W,
    state: &str,
    workers: &str,
    input: &mut I,
    output: &mut Printer<O>,
) -> Result<(), Fault>
    ensures logged { OnOk result (LogsServe state.now workers.now (I.remaining input.old)
        (I.remaining input.new) output.old output.new (W.events world.old) (W.events world.new)) }
    ensures log_failed { IfErr result (λ fault. LogsServeFailed state.now workers.now
        (I.remaining input.old) (I.remaining input.new) output.old output.new fault
        (W.events world.old) (W.events world.new)) }
    ensures follows { Follows (W.memory world.old) (W.events world.old)
        (W.memory world.new) (W.events world.new) }
{
    let Some(workers) = workers_from(workers) else {
        return Err(Fault::BadWorkers);
    };
    let lock = lock_state(resources.alloc, world, state)?;
    let serving = &Serving {
        resources,
        lock: &lock,
        workers,
    };
    let done = serve_locked(serving, world, input, output);
    world.unlock(lock);
    done
}

/// What groups are signed with: what the command has, the lock of the state, and so many workers.
#[derive(Drop)]
struct Serving<'a, L, T, P> {
    resources: &'a Resources<'a, T, P>,
    lock: &'a L,
    workers: usize,
}

/// What goes on from group to group: the trees, and what the state has to say when it is opened again,
/// if that is known.
#[derive(Drop)]
struct Ongoing {
    trees: Trees,
    due: Option<Image>,
}

/// As `serve_jobs`, under the lock. A group of no lines comes first, which opens the state.
fn serve_locked<W: World, I: Read, O: Write>(
    serving: &Serving<W::Lock, impl Threads + Wait + Sync, impl Progress>,
    world: &mut W,
    input: &mut I,
    output: &mut Printer<O>,
) -> Result<(), Fault>
    requires some { 1 ≤ serving.now.workers }
    requires at_most { serving.now.workers ≤ most_workers }
    ensures logged { OnOk result (AnswersAll (I.remaining input.old) (I.remaining input.new)
        output.old output.new (W.events world.old) (W.events world.new)) }
    ensures log_failed { IfErr result (λ fault. FailsToServe (I.remaining input.old)
        (I.remaining input.new) fault output.old output.new
        (W.events world.old) (W.events world.new)) }
    ensures follows { Follows (W.memory world.old) (W.events world.old)
        (W.memory world.new) (W.events world.new) }
{
    let mut ongoing = Ongoing {
        trees: Trees::kept(),
        due: None,
    };
    sign_group(serving, world, &mut ongoing, &[], output)?;
    prepare(serving.resources, &mut ongoing)?;
    let Ok(mut pieces) = Pieces::new(serving.resources.alloc) else {
        return Err(Fault::OutOfMemory);
    };
    let mut before = 0u64;
    for _group in 0..MOST_GROUPS {
        let (lines, is_last) = serve_next(
            serving,
            world,
            &mut ongoing,
            &mut pieces,
            before,
            input,
            output,
        )?;
        if is_last {
            return Ok(());
        }
        before += lines as u64;
    }
    Err(Fault::TooManyJobs)
}

/// Computes the trees of the next index of the state that was opened, where one is left.
/// `OutOfMemory` where memory is refused.
fn prepare(
    resources: &Resources<impl Threads + Wait + Sync, impl Progress>,
    ongoing: &mut Ongoing,
) -> Result<(), Fault>
    ensures same { ongoing.new.due ≡ ongoing.old.due }
    ensures fault { IfErr result (λ fault. fault ≡ Fault.OutOfMemory) }
{
    let Some(image) = ongoing.due else {
        return Ok(());
    };
    if image.counter >= image.key.capacity() {
        return Ok(());
    }
    let (rt, alloc) = (resources.rt, resources.alloc);
    match ongoing
        .trees
        .prepare(rt, alloc, image.key, image.counter, resources.progress)
    {
        Ok(()) => Ok(()),
        Err(_) => Err(Fault::OutOfMemory),
    }
}

/// Reads the next piece of the input, before which `before` lines came, and answers its lines.
/// Returns how many lines it has, and whether it is the last. Faults as `serve_jobs`.
fn serve_next<W: World, I: Read, O: Write>(
    serving: &Serving<W::Lock, impl Threads + Wait + Sync, impl Progress>,
    world: &mut W,
    ongoing: &mut Ongoing,
    pieces: &mut Pieces,
    before: u64,
    input: &mut I,
    output: &mut Printer<O>,
) -> Result<(usize, bool), Fault>
    requires some { 1 ≤ serving.now.workers }
    requires at_most { serving.now.workers ≤ most_workers }
    ensures serves { IfOk result (λ next. ServesPiece (I.remaining input.old)
        (I.remaining input.new) pieces.old pieces.new next.0 next.1 (due_of ongoing.old.due)
        (due_of ongoing.new.due) output.old output.new (W.events world.old) (W.events world.new)) }
    ensures fails { IfErr result (λ fault. StopsServing before (I.remaining input.old)
        (I.remaining input.new) pieces.old fault (due_of ongoing.old.due) output.old output.new
        (W.events world.old) (W.events world.new)) }
    ensures follows { Follows (W.memory world.old) (W.events world.old)
        (W.memory world.new) (W.events world.new) }
{
    let room = ongoing.trees.room();
    let piece = match pieces.next(serving.resources.alloc, input, room) {
        Ok(piece) => piece,
        Err(fault) => return Err(unread(fault, before)),
    };
    let text = piece.text.as_slice();
    serve_piece(serving, world, ongoing, text, before, output)?;
    Ok((piece.lines, piece.is_last))
}

/// The fault of a piece that was not read, before which `before` lines came: `BadJob` gets the
/// number of the line in the whole input.
fn unread(fault: JobsFault, before: u64) -> Fault
    ensures { result ≡ unread_fault before fault }
{
    match fault {
        JobsFault::Read => Fault::ReadInput,
        JobsFault::BadJob { line } => Fault::BadJob {
            line: before.saturating_add(line),
        },
        JobsFault::TooManyJobs => Fault::TooManyJobs,
        JobsFault::OutOfMemory => Fault::OutOfMemory,
    }
}

/// Answers the lines of a piece, before which `before` lines came. Where one of them is no job
/// line, those before it are answered, and then comes `BadJob` with its number in the whole input.
fn serve_piece<W: World, O: Write>(
    serving: &Serving<W::Lock, impl Threads + Wait + Sync, impl Progress>,
    world: &mut W,
    ongoing: &mut Ongoing,
    text: &[u8],
    before: u64,
    output: &mut Printer<O>,
) -> Result<(), Fault>
    requires some { 1 ≤ serving.now.workers }
    requires at_most { serving.now.workers ≤ most_workers }
    ensures answered { OnOk result (AnswersGroup text.now (due_of ongoing.old.due) (due_of ongoing.new.due)
        output.old output.new (W.events world.old) (W.events world.new)) }
    ensures unanswered { IfErr result (λ fault. (groups : List Group)
        × TriesPiece before text.now fault groups × (next : Due)
        × LogsGroups groups (due_of ongoing.old.due) next output.old output.new
        (W.events world.old) (W.events world.new)) }
    ensures follows { Follows (W.memory world.old) (W.events world.old)
        (W.memory world.new) (W.events world.new) }
{
    let Err(fault) = serve_lines(serving, world, ongoing, text, output) else {
        return Ok(());
    };
    let Fault::BadJob { line } = fault else {
        return Err(fault);
    };
    let bad = Fault::BadJob {
        line: before.saturating_add(line),
    };
    if line <= 1 {
        return Err(bad);
    }
    let front = first_lines(text, (line - 1) as usize);
    serve_lines(serving, world, ongoing, front, output)?;
    Err(bad)
}

/// Answers these lines. Where fewer indices are left than there are lines, the first lines get
/// these, and then comes `Exhausted` with 0 left.
fn serve_lines<W: World, O: Write>(
    serving: &Serving<W::Lock, impl Threads + Wait + Sync, impl Progress>,
    world: &mut W,
    ongoing: &mut Ongoing,
    text: &[u8],
    output: &mut Printer<O>,
) -> Result<(), Fault>
    requires some { 1 ≤ serving.now.workers }
    requires at_most { serving.now.workers ≤ most_workers }
    ensures answered { OnOk result (AnswersGroup text.now (due_of ongoing.old.due) (due_of ongoing.new.due)
        output.old output.new (W.events world.old) (W.events world.new)) }
    ensures unanswered { IfErr result (λ fault. FailsLines text.now fault (due_of ongoing.old.due)
        (due_of ongoing.new.due) output.old output.new (W.events world.old) (W.events world.new)) }
    ensures follows { Follows (W.memory world.old) (W.events world.old)
        (W.memory world.new) (W.events world.new) }
{
    let Err(fault) = sign_group(serving, world, ongoing, text, output) else {
        return Ok(());
    };
    let Fault::Exhausted { left } = fault else {
        return Err(fault);
    };
    if left > 0 {
        let front = first_lines(text, left as usize);
        sign_group(serving, world, ongoing, front, output)?;
    }
    Err(Fault::Exhausted { left: 0 })
}

/// The first lines of a text that end with LF, at most `most` of them.
fn first_lines(text: &[u8], most: usize) -> &[u8]
    ensures { IsFront most text.now result.now }
{
    let (end, _) = end_of_lines(text, most);
    &text[..end]
}

/// Signs these lines and prints their answers, as an input of `batch`. The state has to say what is
/// due, else `ReadState`. What it says once the lines are answered is due from then on; where no
/// index was used, what it said as it was opened.
fn sign_group<W: World, O: Write>(
    serving: &Serving<W::Lock, impl Threads + Wait + Sync, impl Progress>,
    world: &mut W,
    ongoing: &mut Ongoing,
    text: &[u8],
    output: &mut Printer<O>,
) -> Result<(), Fault>
    requires some { 1 ≤ serving.now.workers }
    requires at_most { serving.now.workers ≤ most_workers }
    ensures answered { OnOk result (AnswersGroup text.now (due_of ongoing.old.due) (due_of ongoing.new.due)
        output.old output.new (W.events world.old) (W.events world.new)) }
    ensures unanswered { IfErr result (λ fault.
        SparesGroup text.now fault (due_of ongoing.old.due) (due_of ongoing.new.due) output.old output.new
        (W.events world.old) (W.events world.new)
        ⊎ SpendsGroup text.now fault (due_of ongoing.old.due) output.old output.new
        (W.events world.old) (W.events world.new)) }
    ensures follows { Follows (W.memory world.old) (W.events world.old)
        (W.memory world.new) (W.events world.new) }
{
    let (resources, lock) = (serving.resources, serving.lock);
    let (book, witness) = open_due(resources.alloc, world, lock, &ongoing.due)?;
    let read = image_read(&book);
    ongoing.due = Some(read);
    let (workers, trees) = (serving.workers, &mut ongoing.trees);
    let mut input = text;
    let signed = sign_opened(
        resources, world, lock, book, witness, workers, trees, &mut input,
    )?;
    ongoing.due = Some(after_use(&read, signed.asked));
    world.begin_printing(output);
    print_answers(&signed, output)
}
