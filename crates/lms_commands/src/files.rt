//! What every command does with files and states.
ghost use Rattle.std.specs.Prelude.{[], ◌∷◌, ◌≡◌, ℕ, List, None, IfErr, IfOk, IfSome, OnOk};
ghost use Rattle.lms_world.specs.Events.{Read, Opened, Written, Locked, opening_of, read_of};
ghost use Rattle.lms_world.specs.Events.{output_name};
ghost use Rattle.lms_world.specs.Held.{Does, Follows};
ghost use Rattle.lms_commands.specs.Logs.{IsLockRefused, IsReadRefused, IsWriteRefused, LogsUnopened, OpensState, caused, locked_so, state_in, state_of, write_cause, written_so};

use crate::fault::Fault;
use lms_book::{Book, StateStore};
use lms_image::Image;
use lms_world::{Contents, LockFault, Output, Taker, World, WorldFault};
use std::alloc::Global;

/// The bytes of a file. `ReadInput` where it can't be read, `OutOfMemory` where memory for it was
/// refused.
pub fn read_file<W: World>(alloc: Global, world: &mut W, name: &str) -> Result<Vec<u8>, Fault>
    ensures logged { W.events world.new
        ≡ Read name.now (read_of (caused result)) ∷ W.events world.old }
    ensures refused { IfErr result IsReadRefused }
    ensures acts { Does (Read name.now (read_of (caused result)))
        (W.memory world.old) (W.memory world.new) }
{
    match world.read(alloc, name) {
        Ok(bytes) => Ok(bytes),
        Err(fault) => Err(Fault::from(fault)),
    }
}

/// Opens a file to be read in pieces. Faults as `read_file`.
pub fn open_file<W: World>(alloc: Global, world: &mut W, name: &str) -> Result<W::Contents, Fault>
    ensures logged { W.events world.new
        ≡ Opened name.now (opening_of W.Contents.holds (caused result)) ∷ W.events world.old }
    ensures refused { IfErr result IsReadRefused }
    ensures acts { Does (Opened name.now (opening_of W.Contents.holds (caused result)))
        (W.memory world.old) (W.memory world.new) }
{
    match world.open(alloc, name) {
        Ok(contents) => Ok(contents),
        Err(fault) => Err(Fault::from(fault)),
    }
}

/// Hands the bytes of an opened file to `taker`, piece by piece. Faults as `read_file`, after some
/// of the pieces perhaps; none where contracts know the file's bytes, as of one in memory.
pub fn hand_over<C: Contents, T: Taker>(contents: C, taker: &mut T) -> Result<(), Fault>
    ensures handed { OnOk result ((bytes : List ℕ)
        × IfSome (C.holds contents) (λ held. bytes ≡ held) × T.after taker.old bytes taker.new) }
    ensures refused { IfErr result (λ fault. IsReadRefused fault × (C.holds contents ≡ None)) }
{
    match contents.hand_over(taker) {
        Ok(()) => Ok(()),
        Err(fault) => Err(Fault::from(fault)),
    }
}

/// Makes these the bytes of a file, and changes no other. `WriteOutput` where it can't be written, or
/// was read before; `OutOfMemory` where the system lacks memory.
pub fn write_file<W: World>(world: &mut W, output: Output, bytes: &[u8]) -> Result<(), Fault>
    ensures logged { W.events world.new
        ≡ Written (output_name output) bytes.now (written_so result) ∷ W.events world.old }
    ensures refused { IfErr result IsWriteRefused }
    ensures acts { Does (Written (output_name output) bytes.now (written_so result))
        (W.memory world.old) (W.memory world.new) }
{
    match world.write(output, bytes) {
        Ok(()) => Ok(()),
        Err(cause) => Err(unwritten(cause)),
    }
}

/// As `write_file`, and flushes the file and its folder, unless it is one that has no flush, as a
/// pipe. `WriteOutput` also where the flush fails. No contract sees a flush.
pub fn write_flushed<W: World>(world: &mut W, output: Output, bytes: &[u8]) -> Result<(), Fault>
    ensures logged { W.events world.new
        ≡ Written (output_name output) bytes.now (written_so result) ∷ W.events world.old }
    ensures refused { IfErr result IsWriteRefused }
    ensures acts { Does (Written (output_name output) bytes.now (written_so result))
        (W.memory world.old) (W.memory world.new) }
{
    match world.write_flushed(output, bytes) {
        Ok(()) => Ok(()),
        Err(cause) => Err(unwritten(cause)),
    }
}

/// The fault of a file that was not written: `WriteOutput` where the device failed, `OutOfMemory`
/// where memory for that was refused.
fn unwritten(cause: WorldFault) -> Fault
    ensures refused { IsWriteRefused result }
    ensures cause { write_cause result ≡ cause }
{
    match cause {
        WorldFault::Device => Fault::WriteOutput,
        WorldFault::OutOfMemory => Fault::OutOfMemory,
    }
}

/// Locks a state, without waiting, and answers the lock. `StateInUse` where another holds it, or
/// where it can't be acquired or reached; `OutOfMemory` where memory for it was refused.
pub fn lock_state<W: World>(alloc: Global, world: &mut W, state: &str) -> Result<W::Lock, Fault>
    ensures logged { W.events world.new ≡ Locked state.now (locked_so result) ∷ W.events world.old }
    ensures refused { IfErr result IsLockRefused }
    ensures acts { Does (Locked state.now (locked_so result))
        (W.memory world.old) (W.memory world.new) }
{
    match world.lock(alloc, state) {
        Ok(lock) => Ok(lock),
        Err(LockFault::InUse | LockFault::Unreachable) => Err(Fault::StateInUse),
        Err(LockFault::OutOfMemory) => Err(Fault::OutOfMemory),
    }
}

/// Takes the store of a lock's state out of the world, and opens its book; the caller puts the
/// store back. `ReadState` where the state can't be read, `BadState` where it is no image,
/// `OutOfMemory` where memory was refused: after a fault the store is in the world, and the state
/// as it was.
pub fn open_state<W: World>(
    alloc: Global,
    world: &mut W,
    lock: &W::Lock,
) -> Result<Book<W::Store>, Fault>
    ensures logged { IfOk result (λ book. OpensState book (W.events world.old) (W.events world.new)) }
    ensures unopened { IfErr result (λ fault.
        LogsUnopened fault (W.events world.old) (W.events world.new)) }
    ensures fresh { IfOk result (λ book. book.history ≡ []) }
    ensures follows { Follows (W.memory world.old) (W.events world.old)
        (W.memory world.new) (W.events world.new) }
{
    let store = world.take_store(alloc, lock)?;
    match Book::open(alloc, store) {
        Ok(book) => Ok(book),
        Err((fault, store)) => {
            world.put_back(lock, store);
            Err(Fault::from(fault))
        }
    }
}

/// What a book that was just opened has read.
pub fn image_read<S: StateStore>(book: &Book<S>) -> Image
    requires fresh { book.now.history ≡ [] }
    ensures { state_in result ≡ state_of book.now }
{
    Image {
        key: book.key(),
        counter: book.base(),
        openings: book.openings(),
        burnt: book.burnt(),
    }
}
