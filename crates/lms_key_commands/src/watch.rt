//! `witness`: a witness of a key's state, which then says below which index all are used.
ghost use Rattle.std.specs.Prelude.{◌≡◌, ◌++◌, ◌∷◌, IfErr, IfOk, None, Ok as Done, OnOk, OnErr, codes, string_bytes};
ghost use Rattle.std.specs.Io.KnownBytes.{Appends};
ghost use Rattle.lms_blocks.specs.Writing.{AppendsFront};
ghost use Rattle.lms_texts.specs.Witnesses.{witness_text};
ghost use Rattle.lms_world.specs.Events.{WitnessMade, WitnessRead};
ghost use Rattle.lms_world.specs.Held.{Follows};
ghost use Rattle.lms_world.specs.Names.{Bytes};
ghost use Rattle.lms_commands.specs.Logs.{KeyState, state_in};
ghost use Rattle.lms_commands.specs.declared.fault.Fault.TheVariants.{OutOfMemory as FaultOfMemory};
ghost use Rattle.lms_key_commands.specs.WitnessLogs.{FailsToMake, LogsUnwitnessed, LogsWitness, LogsWitnessFailed, LogsWitnessThere, MakesToPrint, made_text, witness_line};

use crate::info::read_state;
use lms_blocks::{WriteFault, print_line, write_bytes};
use lms_commands::{Fault, lock_state, see_witness};
use lms_image::Image;
use lms_texts::{decimal_number, print_witness};
use lms_world::{MOST_WITNESS, Printer, World, WorldFault};
use std::alloc::Global;
use std::io::Write;

/// Makes a witness of a key's state in a new file, and prints two lines: what it says, and where
/// the file is, after symbolic links. The text `counter` is to be the state's counter in decimal, so
/// that nobody makes the witness of a state that is older than its user knows.
///
/// In this order: `BadCounter` where that text is none of a number below 2^64, before anything is
/// done; `StateInUse` where the state's lock is not available; `WitnessExists` where the state has a
/// witness, `ReadWitness` where that can't be read; `ReadState` where the state can't be read,
/// `BadState` where it is no image; `OtherCounter` where its counter is another; `WriteWitness` where
/// the witness may not have been made, as where something has the name of its file; `WriteOutput`
/// where a line can't be printed: the witness is made then. `OutOfMemory` may come anywhere before
/// the witness is made. The state stays as it was.
pub fn watch_state<W: World, O: Write>(
    alloc: Global,
    world: &mut W,
    state: &str,
    place: &str,
    counter: &str,
    output: &mut Printer<O>,
) -> Result<(), Fault>
    ensures logged { OnOk result (LogsWitness state.now place.now counter.now output.old output.new
        (W.events world.old) (W.events world.new)) }
    ensures log_failed { IfErr result (λ fault. LogsWitnessFailed state.now place.now counter.now
        output.old output.new fault (W.events world.old) (W.events world.new)) }
    ensures follows { Follows (W.memory world.old) (W.events world.old)
        (W.memory world.new) (W.events world.new) }
{
    let Some(number) = decimal_number(counter) else {
        return Err(Fault::BadCounter);
    };
    let lock = lock_state(alloc, world, state)?;
    let watched = watch_locked(alloc, world, &lock, place, number, output);
    world.unlock(lock);
    watched
}

/// As `watch_state`, once the lock is acquired, where `counter` is the number of its text.
fn watch_locked<W: World, O: Write>(
    alloc: Global,
    world: &mut W,
    lock: &W::Lock,
    place: &str,
    counter: u64,
    output: &mut Printer<O>,
) -> Result<(), Fault>
    ensures logged { OnOk result ((read : KeyState) × (made : Bytes) × (read.index ≡ counter)
        × MakesToPrint read place.now made output.old (W.events world.old) (W.events world.new)
        × (output.new ≡ output.old ++ made_text read made)) }
    ensures log_failed { IfErr result (λ fault. LogsUnwitnessed counter place.now
        output.old output.new fault (W.events world.old) (W.events world.new)) }
    ensures follows { Follows (W.memory world.old) (W.events world.old)
        (W.memory world.new) (W.events world.new) }
{
    see_none(alloc, world, lock)?;
    let image = read_state(alloc, world, lock)?;
    if image.counter != counter {
        return Err(Fault::OtherCounter {
            counter: image.counter,
        });
    }
    let (line, made) = make(alloc, world, lock, place, &image)?;
    world.begin_printing(output);
    Ok(print_made(output, &line, &made)?)
}

/// Sees that the state of a lock has no witness: `WitnessExists` where it has one, else faults as
/// `see_witness`.
pub(crate) fn see_none<W: World>(alloc: Global, world: &mut W, lock: &W::Lock) -> Result<(), Fault>
    ensures none { OnOk result (W.events world.new ≡ WitnessRead (Done None) ∷ W.events world.old) }
    ensures there { IfErr result (λ fault.
        LogsWitnessThere fault (W.events world.old) (W.events world.new)) }
    ensures follows { Follows (W.memory world.old) (W.events world.old)
        (W.memory world.new) (W.events world.new) }
{
    match see_witness(alloc, world, lock)? {
        Some(_) => Err(Fault::WitnessExists),
        None => Ok(()),
    }
}

/// Makes the witness of a state that was read, in a new file of this name. Returns its line, and
/// where the file is. `WriteWitness` where it may not have been made, `OutOfMemory` where memory was
/// refused.
fn make<W: World>(
    alloc: Global,
    world: &mut W,
    lock: &W::Lock,
    place: &str,
    image: &Image,
) -> Result<(Vec<u8>, String), Fault>
    ensures line { IfOk result (λ made. made.0.items ≡ witness_line (state_in image.now)) }
    ensures made { IfOk result (λ made. W.events world.new
        ≡ WitnessMade place.now (witness_line (state_in image.now)) (Done (string_bytes made.1))
        ∷ W.events world.old) }
    ensures unmade { IfErr result (λ fault. FailsToMake place.now (state_in image.now) fault
        (W.events world.old) (W.events world.new)) }
    ensures follows { Follows (W.memory world.old) (W.events world.old)
        (W.memory world.new) (W.events world.new) }
{
    let line = line_of(alloc, &image.key.i, image.counter)?;
    match world.make_witness(alloc, lock, place, &line) {
        Ok(made) => Ok((line, made)),
        Err(WorldFault::Device) => Err(Fault::WriteWitness),
        Err(WorldFault::OutOfMemory) => Err(Fault::OutOfMemory),
    }
}

/// The line of a witness that says that all indices below `counter` of the key of this identifier
/// are used. `OutOfMemory` where memory for it was refused.
fn line_of(alloc: Global, id: &[u8; 16], counter: u64) -> Result<Vec<u8>, Fault>
    ensures line { IfOk result (λ line. line.items ≡ witness_text id.now counter) }
    ensures refused { IfErr result (λ fault. fault ≡ FaultOfMemory) }
{
    let Ok(mut line) = Vec::with_capacity(alloc, MOST_WITNESS) else {
        return Err(Fault::OutOfMemory);
    };
    match print_witness(&mut line, id, counter) {
        Ok(()) => Ok(line),
        Err(_) => Err(Fault::OutOfMemory),
    }
}

/// Prints the line of a witness, and a line that says where it is.
///
/// On a fault, a beginning of them was written.
fn print_made<O: Write>(output: &mut O, line: &[u8], made: &str) -> Result<(), WriteFault>
    ensures printed { OnOk result (Appends (O.contents output.old) (O.contents output.new)
        (line.now ++ (made.now ++ codes "\n"))) }
    ensures broken { OnErr result (AppendsFront (O.contents output.old) (O.contents output.new)
        (line.now ++ (made.now ++ codes "\n"))) }
{
    write_bytes(output, line)?;
    write_bytes(output, made.as_bytes())?;
    print_line(output, format_args!(""))
}
