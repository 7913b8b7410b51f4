//! `resume`: a state that is older than its witness goes on from where this says.
ghost use Rattle.std.specs.Prelude.{◌≡◌, ◌++◌, ◌<◌, ◌≤◌, ◌⊎◌, [], IfErr, IfOk, OnErr, OnOk};
ghost use Rattle.std.specs.Io.KnownBytes.{Appends};
ghost use Rattle.lms_spec.specs.Hss.{capacity_of};
ghost use Rattle.lms_hss.specs.Keys.{hss_key_of};
ghost use Rattle.lms_book.specs.Books.{capacity, counter};
ghost use Rattle.lms_blocks.specs.Writing.{AppendsFront};
ghost use Rattle.lms_world.specs.Held.{Follows};
ghost use Rattle.lms_commands.specs.Logs.{KeyState, state_in, state_of};
ghost use Rattle.lms_key_commands.specs.ResumeLogs.{BurnsBelow, BurnsToPrint, CountsInPart, CountsTo, IsNotResumed, IsOlder, LogsResume, LogsResumeFailed, LogsUnburnt, LogsUnresumed, burnt_line};
ghost use Rattle.lms_key_commands.specs.ResumePieces.{BurnsNoPiece, BurnsPiece};

use lms_blocks::{WriteFault, print_line};
use lms_book::{Book, StateStore};
use lms_commands::{Fault, image_read, lock_state, open_state, see_witness};
use lms_image::Image;
use lms_texts::{decimal_number, witness_counter};
use lms_world::{Printer, World};
use std::alloc::Global;
use std::io::Write;

/// The most indices that are burnt by one write of the state.
const PIECE: u64 = 1024;

/// Burns the indices of a state that is older than its witness, as one that was restored from a
/// backup: all from the state's counter on and below the witness's number, which has to be the one
/// in the text `counter`. They sign nothing, and whoever signs then goes on after them. They are
/// leases that are given back, so the image's number of burnt indices stays. Nothing can see
/// whether the witness is the newest, which the printed line recalls. The witness stays as it is.
///
/// In this order: `BadCounter` where that text is none of a number below 2^64, `StateInUse` where
/// the state's lock is not available, `ReadWitness` where there is no witness or it can't be read,
/// `ReadState` where the state can't be read, `BadState` where it is no image, `BadWitness` where
/// the witness is none of the state's key, `StateNotOlder` where it doesn't say more than the
/// state, `OtherCounter` where it says another number than the given one, `Exhausted` where the key
/// has fewer indices; the state stays as it was in all these cases. `WriteStateBurnt` where an
/// image was not stored for certain, after others perhaps that were: the state may count some of
/// the indices as used, or all, and the command can be given again. `WriteOutput` where the line
/// can't be printed: all are burnt then. `OutOfMemory` may come anywhere before the line is
/// printed, also after some of the images.
pub fn resume_state<W: World, O: Write>(
    alloc: Global,
    world: &mut W,
    state: &str,
    counter: &str,
    output: &mut Printer<O>,
) -> Result<(), Fault>
    ensures logged { OnOk result (LogsResume state.now counter.now output.old output.new
        (W.events world.old) (W.events world.new)) }
    ensures log_failed { IfErr result (λ fault. LogsResumeFailed state.now counter.now
        output.old output.new fault (W.events world.old) (W.events world.new)) }
    ensures follows { Follows (W.memory world.old) (W.events world.old)
        (W.memory world.new) (W.events world.new) }
{
    let Some(end) = decimal_number(counter) else {
        return Err(Fault::BadCounter);
    };
    let lock = lock_state(alloc, world, state)?;
    let resumed = resume_locked(alloc, world, &lock, end, output);
    world.unlock(lock);
    resumed
}

/// As `resume_state`, once the lock is acquired, where `end` is the number of the text `counter`.
fn resume_locked<W: World, O: Write>(
    alloc: Global,
    world: &mut W,
    lock: &W::Lock,
    end: u64,
    output: &mut Printer<O>,
) -> Result<(), Fault>
    ensures logged { OnOk result ((read : KeyState) × BurnsToPrint end read output.old
        (W.events world.old) (W.events world.new)
        × (output.new ≡ output.old ++ burnt_line read.index end)) }
    ensures log_failed { IfErr result (λ fault. LogsUnresumed end
        output.old output.new fault (W.events world.old) (W.events world.new)) }
    ensures follows { Follows (W.memory world.old) (W.events world.old)
        (W.memory world.new) (W.events world.new) }
{
    let start = burn_locked(alloc, world, lock, end)?;
    world.begin_printing(output);
    Ok(print_burnt(output, start, end)?)
}

/// Prints the line that says that the indices from `start` on and below `end` are burnt, which is
/// right only if the witness is the newest.
///
/// On a fault, a beginning of it was written.
fn print_burnt<O: Write>(output: &mut O, start: u64, end: u64) -> Result<(), WriteFault>
    requires some { start < end }
    ensures printed { OnOk result (Appends (O.contents output.old) (O.contents output.new)
        (burnt_line start end)) }
    ensures broken { OnErr result (AppendsFront (O.contents output.old) (O.contents output.new)
        (burnt_line start end)) }
{
    let last = end - 1;
    print_line(
        output,
        format_args!("indices {start} to {last} burnt; right only if the witness is the newest"),
    )
}

/// Burns the indices of a lock's state below `end`, which its witness has to say, and answers from
/// which index on. Faults as `resume_state` from `ReadWitness` on, but for `WriteOutput`.
fn burn_locked<W: World>(
    alloc: Global,
    world: &mut W,
    lock: &W::Lock,
    end: u64,
) -> Result<u64, Fault>
    ensures burnt { IfOk result (λ start. (read : KeyState) × (start ≡ read.index) × (start < end)
        × BurnsBelow end read (W.events world.old) (W.events world.new)) }
    ensures unburnt { IfErr result (λ fault.
        LogsUnburnt end fault (W.events world.old) (W.events world.new)) }
    ensures follows { Follows (W.memory world.old) (W.events world.old)
        (W.memory world.new) (W.events world.new) }
{
    let Some(text) = see_witness(alloc, world, lock)? else {
        return Err(Fault::ReadWitness);
    };
    let mut book = open_state(alloc, world, lock)?;
    let read = image_read(&book);
    let burnt = burn_by(&mut book, &read, &text, end);
    world.put_back(lock, book.close());
    match burnt {
        Ok(()) => Ok(read.counter),
        Err(fault) => Err(fault),
    }
}

/// Burns the indices below `end` of a book that was just opened and has read `read`, if its
/// witness, the bytes `text`, says that number. Faults as `compare`, where the book stays as it
/// was, or as `burn_below`.
fn burn_by<S: StateStore>(
    book: &mut Book<S>,
    read: &Image,
    text: &[u8],
    end: u64,
) -> Result<(), Fault>
    requires fresh { book.old.history ≡ [] }
    requires read { state_in read.now ≡ state_of book.old }
    requires within { read.now.counter ≤ capacity_of (hss_key_of read.now.key) }
    ensures older { OnOk result (IsOlder end (state_of book.old) text.now) }
    ensures burnt { OnOk result (CountsTo end (state_of book.old) book.old.store book.new.store) }
    ensures unburnt { IfErr result (λ fault.
        (IsNotResumed end text.now (state_of book.old) fault × (book.new ≡ book.old))
        ⊎ (IsOlder end (state_of book.old) text.now
        × CountsInPart end (state_of book.old) fault book.old.store book.new.store)) }
{
    compare(text, read, end)?;
    burn_below(book, end)
}

/// Compares a state with the bytes of its witness, before it is resumed at `end`. Faults, in this
/// order: `BadWitness` where they are none of its key, `StateNotOlder` where they don't say more
/// than the state, `OtherCounter` where they say another number than `end`, `Exhausted` where the
/// key has fewer indices.
fn compare(text: &[u8], read: &Image, end: u64) -> Result<(), Fault>
    requires within { read.now.counter ≤ capacity_of (hss_key_of read.now.key) }
    ensures older { OnOk result (IsOlder end (state_in read.now) text.now) }
    ensures refused { IfErr result (IsNotResumed end text.now (state_in read.now)) }
{
    let Some(counter) = witness_counter(text, &read.key.i) else {
        return Err(Fault::BadWitness);
    };
    if counter <= read.counter {
        return Err(Fault::StateNotOlder);
    }
    if counter != end {
        return Err(Fault::OtherCounter { counter });
    }
    let capacity = read.key.capacity();
    if counter > capacity {
        return Err(Fault::Exhausted {
            left: capacity - read.counter,
        });
    }
    Ok(())
}

/// Burns the indices below `end` of a book that was just opened, piece by piece. Faults as
/// `burn_piece`, after pieces perhaps that were stored for certain.
fn burn_below<S: StateStore>(book: &mut Book<S>, end: u64) -> Result<(), Fault>
    requires fresh { book.old.history ≡ [] }
    requires more { book.old.base ≤ end }
    requires within { end ≤ capacity book.old }
    ensures burnt { OnOk result (CountsTo end (state_of book.old) book.old.store book.new.store) }
    ensures unburnt { IfErr result (λ fault.
        CountsInPart end (state_of book.old) fault book.old.store book.new.store) }
{
    while book.counter() < end {
        burn_piece(book, end)?;
    }
    Ok(())
}

/// Burns the next indices of a book below `end`, one at least and at most 1024, by one write: they are
/// a lease that is given back unsigned, so the book's number of burnt indices, of those whose write
/// failed, stays. `OutOfMemory` where memory for their entry is refused, and nothing is written then;
/// `WriteStateBurnt` where their image was not stored for certain.
fn burn_piece<S: StateStore>(book: &mut Book<S>, end: u64) -> Result<(), Fault>
    requires some { counter book.old < end }
    requires within { end ≤ capacity book.old }
    ensures burnt { OnOk result (BurnsPiece end book.old book.new) }
    ensures unburnt { IfErr result (λ fault. BurnsNoPiece end book.old fault book.new) }
{
    let left = end - book.counter();
    match book.reserve(left.min(PIECE)) {
        Ok(lease) => {
            book.give_back(lease);
            Ok(())
        }
        Err(fault) => Err(Fault::from(fault)),
    }
}
