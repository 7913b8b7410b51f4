//! What is said to who looks on, beside a fault's line or a verdict.
ghost use Rattle.std.specs.Prelude.{◌≡◌, ◌⊎◌, false, true, map};
ghost use Rattle.lms_blocks.specs.Writing.{AppendsFront};
ghost use Rattle.lms_commands.specs.Faults.{fault_line, status_of};
ghost use Rattle.lms_cli.specs.RunLogs.{IsNoted, TellsFault};

use lms_command_line::command::{Command, command};
use lms_commands::{Fault, Status, print_fault};
use lms_image::ImageFault;
use lms_world::{Quoted, World};
use std::alloc::Global;
use std::convert::AsStr;
use std::io::Write;

/// Prints what stands behind a verdict for who looks on, where it is `invalid`.
pub(crate) fn remark<W: World, E: Write>(looked_on: bool, status: Status, world: &W, errors: &mut E)
    ensures { (errors.new ≡ errors.old) ⊎ ((looked_on ≡ true) × (status ≡ Status.Negative)
        × IsNoted (E.contents errors.old) (E.contents errors.new)) }
{
    match status {
        Status::Negative if looked_on => {
            let _ = world.note().print(errors);
        }
        _ => {}
    }
}

/// Prints a fault's line, and for who looks on what stands behind it, or a beginning of both, and
/// answers how the program ends.
pub(crate) fn tell<S: AsStr, W: World, E: Write>(
    alloc: Global,
    looked_on: bool,
    words: &[S],
    world: &mut W,
    fault: Fault,
    errors: &mut E,
) -> Status
    ensures status { result ≡ status_of fault }
    ensures told { TellsFault fault (E.contents errors.old) (E.contents errors.new) }
    ensures plain { looked_on ≡ false
        → AppendsFront (E.contents errors.old) (E.contents errors.new) (fault_line fault) }
    ensures unlogged { W.events world.new ≡ W.events world.old }
    ensures same { W.memory world.new ≡ W.memory world.old }
{
    if print_fault(errors, fault).is_err() || !looked_on {
        return fault.status();
    }
    add_note(alloc, words, world, fault, errors);
    fault.status()
}

/// Prints what stands behind a fault, or a beginning of it.
fn add_note<S: AsStr, W: World, E: Write>(
    alloc: Global,
    words: &[S],
    world: &mut W,
    fault: Fault,
    errors: &mut E,
)
    ensures noted { IsNoted (E.contents errors.old) (E.contents errors.new) }
    ensures unlogged { W.events world.new ≡ W.events world.old }
    ensures same { W.memory world.new ≡ W.memory world.old }
{
    if let Ok(command) = command(alloc, words) {
        explain(world, fault, &command);
    }
    let _ = world.note().print(errors);
}

/// Says what stands behind a fault of this command, beside what the world knows of it: names of files
/// and numbers alone, and no option's value.
fn explain<W: World>(world: &mut W, fault: Fault, command: &Command)
    ensures unlogged { W.events world.new ≡ W.events world.old }
    ensures same { W.memory world.new ≡ W.memory world.old }
{
    match fault {
        Fault::BadSeed => explain_seed(world, command),
        Fault::BadState(fault) => {
            world.explain(format_args!("{} {}", Quoted(state_of(command)), image_text(fault)))
        }
        Fault::StateExists => {
            world.explain(format_args!("{} {}", Quoted(state_of(command)), text_of(fault)))
        }
        Fault::ReadState if world.note().is_empty() => {
            world.explain(format_args!("{} {}", Quoted(state_of(command)), text_of(fault)))
        }
        Fault::ReadState => {}
        Fault::BadLevels if matches!(command, Command::Endorse { .. }) => {
            world.explain("joined keys have 2 to 8 levels, in decimal")
        }
        Fault::BadPublicKey if matches!(command, Command::Endorse { .. }) => {
            explain_signer(world)
        }
        Fault::WriteStateBurnt { .. } if matches!(command, Command::Resume { .. }) => {
            world.explain("info tells whether the indices are counted; give resume again")
        }
        Fault::OtherCounter { .. } if matches!(command, Command::Resume { .. }) => {
            world.explain("that is what the witness says, and --counter says another number")
        }
        Fault::ReadWitness if world.note().is_empty() => {
            world.explain("there is none beside the state")
        }
        Fault::Exhausted { left } => explain_exhausted(world, command, left),
        Fault::ReadInput => world.explain(input_text(command)),
        Fault::WriteOutput if world.note().is_empty() => {
            world.explain(format_args!("standard output{}", printed_text(command)))
        }
        _ => world.explain(text_of(fault)),
    }
}

/// Says how many digits a seed of the command line has, if it has nothing else.
fn explain_seed<W: World>(world: &mut W, command: &Command)
    ensures unlogged { W.events world.new ≡ W.events world.old }
    ensures same { W.memory world.new ≡ W.memory world.old }
{
    match command {
        Command::Keygen { seed, .. } if is_hexadecimal(seed.as_str()) => {
            world.explain(format_args!("{} hexadecimal digits; a seed has 64", seed.len()))
        }
        _ => world.explain("a seed has 64 hexadecimal digits, and nothing else"),
    }
}

/// Says what is wrong with a signer's key that is to be endorsed, where that is not said yet.
fn explain_signer<W: World>(world: &mut W)
    ensures unlogged { W.events world.new ≡ W.events world.old }
    ensures same { W.memory world.new ≡ W.memory world.old }
{
    if world.note().is_empty() {
        world.explain("it is no public key of 60 bytes, 1 to 8 levels and known types");
    }
}

/// Says of which indices there are too few, where so many are left.
fn explain_exhausted<W: World>(world: &mut W, command: &Command, left: u64)
    ensures unlogged { W.events world.new ≡ W.events world.old }
    ensures same { W.memory world.new ≡ W.memory world.old }
{
    match command {
        Command::Resume { .. } => world.explain("the witness counts more indices than the key has"),
        _ if left == 0 => world.explain("the key has no more indices; make a new one"),
        _ => world.explain(format_args!("each line takes an index; hand in {left} at most")),
    }
}

/// Whether a text has hexadecimal digits alone, one at least.
fn is_hexadecimal(text: &str) -> bool {
    !text.is_empty() && text.as_bytes().iter().all(|byte| byte.is_ascii_hexdigit())
}

/// The name of the state's file, if the command has one.
fn state_of(command: &Command) -> &str {
    match command {
        Command::Keygen { state, .. }
        | Command::Info { state }
        | Command::Public { state, .. }
        | Command::Sign { state, .. }
        | Command::Endorse { state, .. }
        | Command::Batch { state, .. }
        | Command::Serve { state, .. }
        | Command::Witness { state, .. }
        | Command::Resume { state, .. } => state.as_str(),
        Command::Inspect { .. }
        | Command::Verify { .. }
        | Command::Join { .. }
        | Command::JoinPublic { .. } => "",
    }
}

/// What can't be read where a command has read no file in vain.
fn input_text(command: &Command) -> &'static str {
    match command {
        Command::Keygen { .. } | Command::Batch { .. } | Command::Serve { .. } => "standard input",
        _ => "",
    }
}

/// What a command has done already when it can't print.
fn printed_text(command: &Command) -> &'static str {
    match command {
        Command::Keygen { .. } => "; the state and the public key are written",
        Command::Public { .. } => "; the public key is written",
        Command::Sign { .. } => "; the signature is written, and its index is used",
        Command::Endorse { .. } => "; the endorsement is written, and its index is used",
        Command::Batch { .. } | Command::Serve { .. } =>
            "; the indices of lines that are not printed are used",
        Command::Witness { .. } => "; the witness is made",
        Command::Resume { .. } => "; the indices are counted",
        Command::Info { .. }
        | Command::Inspect { .. }
        | Command::Verify { .. }
        | Command::Join { .. }
        | Command::JoinPublic { .. } => "",
    }
}

/// What it means of a state's file that it has this fault.
fn image_text(fault: ImageFault) -> &'static str {
    match fault {
        ImageFault::Truncated | ImageFault::WrongLength => "is cut off, or no state",
        ImageFault::NotAnImage => "is no state",
        ImageFault::UnknownVersion => "is a state of another version of this program",
        ImageFault::Damaged => "is damaged; KEYS says what to do with a bad state",
        ImageFault::BadLevels
        | ImageFault::BadType
        | ImageFault::TooTall
        | ImageFault::CounterTooHigh
        | ImageFault::OpeningTooHigh
        | ImageFault::BurntTooHigh => "is no state that this program wrote",
    }
}

/// What stands behind a fault. Nothing where the world alone knows it.
fn text_of(fault: Fault) -> &'static str {
    match fault {
        Fault::BadLevels => "heights are 5, 10, 15, 20, 25, widths 1, 2, 4, 8, as in 10/8,10/8",
        Fault::TooManyLevels => "a key has at most 8 levels",
        Fault::TooTall => "the heights sum to at most 60",
        Fault::BadId => "an identifier has 32 hexadecimal digits, and nothing else",
        Fault::BadRandom => "a randomizer has 64 hexadecimal digits, and nothing else",
        Fault::BadWorkers => "workers are 1 to 64, in decimal",
        Fault::BadCounter => "a counter is a number below 2^64, in decimal",
        Fault::BadEndorsement => "it is no signature of the signer's key by the top key",
        Fault::BadSignature => "it is cut off, or by another key than the signer's",
        Fault::BadJob { .. } =>
            "a job is 64 hexadecimal digits, a space, and a message in hexadecimal",
        Fault::TooManyJobs => "a batch has at most 1024 jobs; serve answers any number",
        Fault::StateExists => "is there, or nobody knows; keygen makes new ones alone",
        Fault::WitnessExists => "beside the state; it was made before, or is another key's",
        Fault::ReadState => "is another than was left",
        Fault::WriteState => "info tells whether the key is stored; none of its indices is used",
        Fault::WriteStateBurnt { len: 1, .. } =>
            "info tells whether the index is counted; it signed nothing",
        Fault::WriteStateBurnt { .. } =>
            "info tells whether the indices are counted; they signed nothing",
        Fault::BadWitness => "it is another key's, or no witness",
        Fault::StateOlder => "the state is an older copy; KEYS says what to do with it",
        Fault::StateNotOlder => "there is nothing to resume",
        Fault::OtherCounter { .. } => "that is what is counted, and --counter says another number",
        Fault::WriteWitnessBurnt { first, last } if first == last =>
            "; the index is counted, and signed nothing",
        Fault::WriteWitnessBurnt { .. } => "; the indices are counted, and signed nothing",
        Fault::OutOfMemoryBurnt { count: 1 } => "the index is counted, and signed nothing",
        Fault::OutOfMemoryBurnt { .. } => "the indices are counted, and signed nothing",
        Fault::Partial { .. } => "all indices are counted; those without a line signed nothing",
        _ => "",
    }
}
