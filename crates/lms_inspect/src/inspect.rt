//! `inspect`: what a file is.
ghost use Rattle.std.specs.Prelude.{◌≡◌, ◌++◌, ◌∷◌, IfErr, IfOk, OnErr, OnOk, Ok as Done, Some, codes};
ghost use Rattle.std.specs.Io.KnownBytes.{Appends};
ghost use Rattle.lms_blocks.specs.Writing.{AppendsFront};
ghost use Rattle.lms_world.specs.Held.{Follows};
ghost use Rattle.lms_inspect.specs.Found.{IsFound};
ghost use Rattle.lms_inspect.specs.InspectLogs.{LogsInspect, LogsInspectFailed, LooksAtWitness, LooksInVain, WitnessOf, WitnessOfNone};

use crate::found::Found;
use crate::keeper::Keeper;
use crate::text::text_of;
use lms_blocks::{WriteFault, write_bytes};
use lms_commands::{Fault, Status, hand_over, open_file};
use lms_texts::witness_counter;
use lms_world::{Printer, World, WorldFault};
use std::alloc::Global;
use std::io::Write;

/// Prints what a file is and says, on lines of a name and a value: of a state the lines of `info`,
/// its key's identifier and what its witness says; of a public key its levels, the sets of its top
/// tree, its identifier and the SHA-256 of its bytes; of a signature its length, the sets and the leaf
/// of each level, the identifiers of the keys in it, and the index that the leaves make. Of other
/// bytes one line, and answers `Status::Negative`. No lock is taken, and nothing secret is printed. The
/// file is read to its end, and no more of it is kept than a signature can have.
///
/// `ReadInput` where the file can't be read; of a state `ReadWitness` where its witness can't be
/// read, and `BadWitness` where that is none of its key; `WriteOutput` where the lines can't be
/// printed. `OutOfMemory` where memory is refused.
pub fn inspect_file<W: World, O: Write>(
    alloc: Global,
    world: &mut W,
    file: &str,
    output: &mut Printer<O>,
) -> Result<Status, Fault>
    ensures logged { IfOk result (λ status. LogsInspect file.now status output.old output.new
        (W.events world.old) (W.events world.new)) }
    ensures log_failed { IfErr result (λ fault. LogsInspectFailed file.now fault output.old output.new
        (W.events world.old) (W.events world.new)) }
    ensures follows { Follows (W.memory world.old) (W.events world.old)
        (W.memory world.new) (W.events world.new) }
{
    let contents = open_file(alloc, world, file)?;
    let mut keeper = Keeper::new(alloc);
    hand_over(contents, &mut keeper)?;
    let found = keeper.found(alloc)?;
    let witness = witness_for(alloc, world, file, &found)?;
    let text = text_of(alloc, &found, keeper.kept(), witness)?;
    world.begin_printing(output);
    print_text(output, &text)?;
    Ok(found.status())
}

/// Below which index the witness of what was found under this name says that all are used: of a state
/// that has one. `ReadWitness` where it can't be read, `BadWitness` where it is none of the state's
/// key, `OutOfMemory` where memory for it was refused.
fn witness_for<W: World>(
    alloc: Global,
    world: &mut W,
    name: &str,
    found: &Found,
) -> Result<Option<u64>, Fault>
    ensures looks { IfOk result (λ witness.
        LooksAtWitness found.now witness (W.events world.old) (W.events world.new)) }
    ensures in_vain { IfErr result (λ fault.
        LooksInVain found.now fault (W.events world.old) (W.events world.new)) }
    ensures follows { Follows (W.memory world.old) (W.events world.old)
        (W.memory world.new) (W.events world.new) }
{
    let Found::State(image) = found else {
        return Ok(None);
    };
    match world.look_at_witness(alloc, name) {
        Ok(text) => counter_in(&text, &image.key.i),
        Err(WorldFault::Device) => Err(Fault::ReadWitness),
        Err(WorldFault::OutOfMemory) => Err(Fault::OutOfMemory),
    }
}

/// The number of the bytes of a witness, if there is one, of the key of this identifier. `BadWitness`
/// where they are none of it.
fn counter_in(text: &Option<Vec<u8>>, id: &[u8; 16]) -> Result<Option<u64>, Fault>
    ensures some { IfOk result (λ witness. WitnessOf id.now text.now witness) }
    ensures none { IfErr result (λ fault. WitnessOfNone id.now text.now fault) }
{
    let Some(text) = text else {
        return Ok(None);
    };
    match witness_counter(text, id) {
        Some(counter) => Ok(Some(counter)),
        None => Err(Fault::BadWitness),
    }
}

/// Prints a text, and flushes it. On a fault, a beginning of it was printed.
fn print_text<O: Write>(output: &mut O, text: &[u8]) -> Result<(), WriteFault>
    ensures printed { OnOk result (Appends (O.contents output.old) (O.contents output.new) text.now) }
    ensures broken { OnErr result
        (AppendsFront (O.contents output.old) (O.contents output.new) text.now) }
{
    write_bytes(output, text)?;
    match output.flush() {
        Ok(()) => Ok(()),
        Err(_) => Err(WriteFault),
    }
}
