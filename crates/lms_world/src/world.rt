//! What a world of files and states owes.
ghost use Rattle.std.specs.Prelude.{◌≡◌, ◌≤◌, ◌∷◌, ℕ, List, option_map, length, IfOk, IfSome, OnOk};
ghost use Rattle.lms_world.specs.Events.{Event, Read, Opened, Written, Locked, Unlocked, Asked, PutBack, NodesRead, NodesWritten, Printing, WitnessDrafted, WitnessMade, WitnessRead, WitnessWritten, done_of, locking_of, opening_of, output_name, place_of, read_of, taking_of, witness_of};
ghost use Rattle.lms_world.specs.Held.{Does, Memory};

use crate::contents::Contents;
use crate::fault::WorldFault;
use crate::note::Note;
use crate::printer::Printer;
use lms_book::StateStore;
use lms_file_store::LockFault;
use lms_files::Output;
use lms_params::OutOfMemory;
use std::alloc::Global;
use std::fmt::Display;
use std::io::Write;

/// Files and keys' states, by their names, and what is kept beside the states: nodes, and a
/// witness. Contracts see the calls that were made on it, in their order: its log.
pub trait World {
    /// Keeps other programs from a state for as long as it is held. It can't be dropped: its holder
    /// has to hand it back.
    type Lock;

    /// What keeps a state. It can't be dropped: its holder has to put it back.
    type Store: StateStore;

    /// A file that was opened to be read.
    type Contents: Contents + Drop;

    /// A draft beside a witness, which is about to replace it.
    type Draft: Drop;

    // The calls that were made, the newest first.
    ghost events: { Self → List Event };

    // What is known of the files and the states: in memory all, of a disk nothing.
    ghost memory: { Self → Memory };

    // What a read of a file may give.
    ghost may_read: { List ℕ → Type 0 };

    // What is so of these bytes where they were written.
    ghost are_written: { List ℕ → Type 0 };

    /// The bytes of a file.
    ///
    /// `Device` where there is no such file or it can't be read, `OutOfMemory` where memory for its
    /// bytes was refused.
    fn read(&mut self, alloc: Global, name: &str) -> Result<Vec<u8>, WorldFault>
        ensures logged { events self.new ≡ Read name.now (read_of result) ∷ events self.old }
        ensures acts { Does (Read name.now (read_of result)) (memory self.old) (memory self.new) }
        ensures given { IfOk result (λ bytes. may_read bytes.items) };

    /// Opens a file, whose bytes are then handed over piece by piece.
    ///
    /// `Device` where there is no such file or it can't be opened, `OutOfMemory` where memory for
    /// that was refused.
    fn open(&mut self, alloc: Global, name: &str) -> Result<Self::Contents, WorldFault>
        ensures logged { events self.new ≡ Opened name.now (opening_of Self.Contents.holds result) ∷ events self.old }
        ensures acts { Does (Opened name.now (opening_of Self.Contents.holds result)) (memory self.old) (memory self.new) };

    /// Plans to write a file: takes all memory that a write of it needs. The log has no call for it,
    /// and no file is changed.
    ///
    /// `OutOfMemory` where memory is refused.
    fn plan_output(&self, alloc: Global, name: &str) -> Result<Output, OutOfMemory>
        ensures { IfOk result (λ output. output_name output ≡ name.now) };

    /// Makes these the bytes of a file, which need not be there yet. No other file is changed, no
    /// state, and nothing that is kept of nodes.
    ///
    /// `Device` where it can't be written, on a disk also where it is a plain file that was read, by
    /// whatever name, or must stay for another reason; `OutOfMemory` where the system lacks memory.
    /// After an error the file is as it was; on a disk it may be whole with these bytes where its name
    /// leads elsewhere by then, and missing or cut short where it has to be written in place, as a
    /// device or a file of several names.
    fn write(&mut self, output: Output, bytes: &[u8]) -> Result<(), WorldFault>
        ensures logged { events self.new ≡ Written (output_name output) bytes.now result ∷ events self.old }
        ensures acts { Does (Written (output_name output) bytes.now result) (memory self.old) (memory self.new) }
        ensures written { OnOk result (are_written bytes.now) };

    /// As `write`, and flushes the file and its folder where that can be done, so that after `Ok` a
    /// loss of power leaves it. After an error it may also be whole with these bytes.
    fn write_flushed(&mut self, output: Output, bytes: &[u8]) -> Result<(), WorldFault>
        ensures logged { events self.new ≡ Written (output_name output) bytes.now result ∷ events self.old }
        ensures acts { Does (Written (output_name output) bytes.now result) (memory self.old) (memory self.new) }
        ensures written { OnOk result (are_written bytes.now) };

    /// Locks the state of this name, without waiting.
    ///
    /// `InUse` where another holds the lock or it can't be acquired, `Unreachable` where there can't
    /// be one, `OutOfMemory` where memory for it was refused.
    fn lock(&mut self, alloc: Global, name: &str) -> Result<Self::Lock, LockFault>
        ensures logged { events self.new ≡ Locked name.now (locking_of result) ∷ events self.old }
        ensures acts { Does (Locked name.now (locking_of result)) (memory self.old) (memory self.new) };

    /// Hands a lock back.
    fn unlock(&mut self, lock: Self::Lock)
        ensures logged { events self.new ≡ Unlocked ∷ events self.old }
        ensures acts { Does (Unlocked) (memory self.old) (memory self.new) };

    /// True where there is the state of the lock, and where that can't be found out.
    fn exists(&mut self, lock: &Self::Lock) -> bool
        ensures logged { events self.new ≡ Asked result ∷ events self.old }
        ensures acts { Does (Asked result) (memory self.old) (memory self.new) };

    /// Takes out what keeps the state of the lock. Where there is no such state, its reads fail. No
    /// file is changed, and nothing that is kept of nodes.
    ///
    /// `OutOfMemory` where memory for it was refused.
    fn take_store(&mut self, alloc: Global, lock: &Self::Lock) -> Result<Self::Store, OutOfMemory>
        ensures logged { events self.new ≡ taking_of Self.Store.seen Self.Store.may_fail result ∷ events self.old }
        ensures acts { Does (taking_of Self.Store.seen Self.Store.may_fail result) (memory self.old) (memory self.new) };

    /// Puts a store back: the state of the lock is what it keeps. No file is changed, and nothing
    /// that is kept of nodes.
    fn put_back(&mut self, lock: &Self::Lock, store: Self::Store)
        ensures logged { events self.new ≡ PutBack (Self.Store.seen store) ∷ events self.old }
        ensures acts { Does (PutBack (Self.Store.seen store)) (memory self.old) (memory self.new) };

    /// What is kept of the nodes of a key's trees beside the state of the lock.
    ///
    /// `None` where nothing is kept, where it is longer than `most` bytes, where it can't be read,
    /// and where memory for it is refused: whoever reads it goes on without it in each case.
    fn read_nodes(&mut self, alloc: Global, lock: &Self::Lock, most: usize) -> Option<Vec<u8>>
        ensures logged { events self.new ≡ NodesRead (option_map (λ text. text.items) result) ∷ events self.old }
        ensures acts { Does (NodesRead (option_map (λ text. text.items) result)) (memory self.old) (memory self.new) }
        ensures at_most { IfSome result (λ text. length text.items ≤ most) }
        ensures given { IfSome result (λ text. may_read text.items) };

    /// Keeps these bytes of nodes beside the state of the lock, in place of what was kept there. No
    /// file of a name is changed, and no state.
    ///
    /// `Device` where it can't be written, `OutOfMemory` where memory for that was refused. After
    /// an error this may be kept, or what was before.
    fn write_nodes(
        &mut self,
        alloc: Global,
        lock: &Self::Lock,
        text: &[u8],
    ) -> Result<(), WorldFault>
        ensures logged { events self.new ≡ NodesWritten text.now result ∷ events self.old }
        ensures acts { Does (NodesWritten text.now result) (memory self.old) (memory self.new) }
        ensures written { OnOk result (are_written text.now) };

    /// The bytes of the witness beside the state of the lock. `None` where nothing has its name.
    ///
    /// `Device` where it can't be read, is longer than any witness, or is a link that leads nowhere;
    /// `OutOfMemory` where memory for its bytes was refused.
    fn read_witness(
        &mut self,
        alloc: Global,
        lock: &Self::Lock,
    ) -> Result<Option<Vec<u8>>, WorldFault>
        ensures logged { events self.new ≡ WitnessRead (witness_of result) ∷ events self.old }
        ensures acts { Does (WitnessRead (witness_of result)) (memory self.old) (memory self.new) }
        ensures given { IfOk result (λ found. IfSome found (λ text. may_read text.items)) };

    /// As `read_witness`, of the state of this name, whose lock another program may have.
    fn look_at_witness(&mut self, alloc: Global, name: &str) -> Result<Option<Vec<u8>>, WorldFault>
        ensures logged { events self.new ≡ WitnessRead (witness_of result) ∷ events self.old }
        ensures acts { Does (WitnessRead (witness_of result)) (memory self.old) (memory self.new) }
        ensures given { IfOk result (λ found. IfSome found (λ text. may_read text.items)) };

    /// Makes a draft of the witness, with room for the longest, so that all room and memory is there
    /// that `place_witness` needs. The witness stays as it is.
    ///
    /// `Device` where it can't be written, `OutOfMemory` where memory for that was refused.
    fn draft_witness(&mut self, alloc: Global, lock: &Self::Lock) -> Result<Self::Draft, WorldFault>
        ensures logged { events self.new ≡ WitnessDrafted (done_of result) ∷ events self.old }
        ensures acts { Does (WitnessDrafted (done_of result)) (memory self.old) (memory self.new) };

    /// Makes these the bytes of the witness, whole, by its draft: after `Ok` a loss of power leaves
    /// them, and at any moment before it leaves them or what was there.
    ///
    /// `Device` where it can't be written, `OutOfMemory` where memory for that was refused. After an
    /// error these may be its bytes, or those before.
    fn place_witness(&mut self, draft: Self::Draft, text: &[u8]) -> Result<(), WorldFault>
        ensures logged { events self.new ≡ WitnessWritten text.now result ∷ events self.old }
        ensures acts { Does (WitnessWritten text.now result) (memory self.old) (memory self.new) }
        ensures written { OnOk result (are_written text.now) };

    /// Lets a draft go, which is removed if that can be done. The witness stays as it is, and the log
    /// has no call for it.
    fn discard_witness(&mut self, draft: Self::Draft)
        ensures unlogged { events self.new ≡ events self.old }
        ensures same { memory self.new ≡ memory self.old };

    /// Makes a witness with these bytes in a new file of this name, which the state of the lock has
    /// from then on. Returns where the file is, after symbolic links.
    ///
    /// `Device` where it can't be made, or where something has the name, or the state has a witness, be
    /// it a link that leads nowhere; `OutOfMemory` where memory for the paths was refused.
    fn make_witness(
        &mut self,
        alloc: Global,
        lock: &Self::Lock,
        name: &str,
        text: &[u8],
    ) -> Result<String, WorldFault>
        ensures logged { events self.new ≡ WitnessMade name.now text.now (place_of result) ∷ events self.old }
        ensures acts { Does (WitnessMade name.now text.now (place_of result))
            (memory self.old) (memory self.new) }
        ensures written { OnOk result (are_written text.now) };

    /// What stands behind the last refusal of a file, a lock or a witness, for who looks on.
    fn note(&self) -> &Note;

    /// Adds a text to that. The log has no call for it.
    fn explain<D: Display + Drop>(&mut self, text: D)
        ensures unlogged { events self.new ≡ events self.old }
        ensures same { memory self.new ≡ memory self.old };

    /// Records what was printed to an output so far, before more is printed.
    fn begin_printing<O: Write>(&mut self, output: &Printer<O>)
        ensures logged { events self.new ≡ Printing output.now ∷ events self.old }
        ensures acts { Does (Printing output.now) (memory self.old) (memory self.new) };
}
