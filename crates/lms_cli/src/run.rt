//! The whole program, over its arguments, its files and its streams.
ghost use Rattle.std.specs.Prelude.{◌≡◌, ◌⊎◌, ◌++◌, ◌<◌, IfErr, IfOk, MatchResult, OnErr, OnOk, Some, map, string_bytes};
ghost use Rattle.std.specs.Io.KnownBytes.{Appends};
ghost use Rattle.lms_blocks.specs.Writing.{AppendsFront};
ghost use Rattle.lms_commands.specs.Faults.{fault_line, status_number, status_of};
ghost use Rattle.lms_world.specs.Held.{Follows};
ghost use Rattle.lms_cli.specs.Deeds.{deed};
ghost use Rattle.lms_cli.specs.RunLogs.{LogsAnswered, LogsFailed, TellsUsage};
ghost use Rattle.lms_cli.specs.Runs.{AsksToRead, Runs, setting};

use crate::notes::{remark, tell};
use lms_batch_commands::{serve_jobs, sign_jobs};
use lms_blocks::{WriteFault, write_bytes};
use lms_command_line::command::{ClapText, Command, CommandFault, command};
use lms_commands::{Fault, Resources, Status, print_fault};
use lms_endorse::{EndorseRequest, endorse_key};
use lms_hss::Progress;
use lms_inspect::inspect_file;
use lms_join_commands::{JoinRequest, join_public_keys, join_signature};
use lms_key_commands::{describe, key_from, make_key, publish_key, resume_state, watch_state};
use lms_signature_commands::{SignRequest, sign_file, verify_files};
use lms_world::{Printer, World};
use std::convert::AsStr;
use std::io::{Read, Write};
use std::sync::Wait;
use std::thread::Threads;

/// The whole program, over its command-line arguments (`words`, the program's name first), its
/// files and its three streams. Answers how it ends; the exit status is that answer's code.
///
/// A fault is one line on `errors`, `error: ` and its text. Where somebody looks on, one more line
/// may follow it, or the verdict `invalid`: `note: ` and what stands behind it. Help is printed to
/// `output` and a mistake in the arguments to `errors`, both in clap's wording. Nothing but
/// `keygen`, `sign`, `endorse`, `batch`, `serve` and `resume` changes states. Of the files only one is
/// changed: by `keygen` and `public` the one that `--public` names, by `sign`, `endorse`, `join` and
/// `join-public` the one of `--out`. `witness` alone makes a witness, and `sign`, `endorse`, `batch` and
/// `serve` alone replace one. `keygen`, `sign` and `endorse` alone keep nodes of trees beside the state.
/// `input` is read by `batch` and `serve`, and by `keygen` where its seed is `-`. `resources.progress`
/// gets how far `keygen`, `public`, `sign`, `endorse`, `batch` and `serve` are while they compute trees.
pub fn run<S: AsStr, W: World, I: Read, O: Write, E: Write>(
    resources: &Resources<impl Threads + Wait + Sync, impl Progress>,
    words: &[S],
    world: &mut W,
    input: &mut I,
    output: &mut Printer<O>,
    errors: &mut E,
) -> Status
    ensures { Runs resources.now.looked_on
        (setting (W.memory world.old) (W.events world.old) input.old
        (I.remaining input.old) output.old errors.old (E.contents errors.old))
        (setting (W.memory world.new) (W.events world.new) input.new
        (I.remaining input.new) output.new errors.new (E.contents errors.new))
        (map S.text words.now) result }
{
    match answer(resources, words, world, input, output, errors) {
        Ok(status) => {
            remark(resources.looked_on, status, world, errors);
            status
        }
        Err(fault) => tell(
            resources.alloc,
            resources.looked_on,
            words,
            world,
            fault,
            errors,
        ),
    }
}

/// Prints a fault's line, or a beginning of it, and answers how the program ends.
pub fn report<E: Write>(fault: Fault, errors: &mut E) -> Status
    ensures status { result ≡ status_of fault }
    ensures line { AppendsFront (E.contents errors.old) (E.contents errors.new) (fault_line fault) }
{
    // Where even the line can't be printed, the exit status alone reports the fault.
    let _ = print_fault(errors, fault);
    fault.status()
}

/// Does what the arguments ask: a command, or help. A mistake in them is printed to `errors` and
/// answered as `Status::Usage`. A fault is left for the caller to print.
fn answer<S: AsStr, W: World, I: Read, O: Write, E: Write>(
    resources: &Resources<impl Threads + Wait + Sync, impl Progress>,
    words: &[S],
    world: &mut W,
    input: &mut I,
    output: &mut Printer<O>,
    errors: &mut E,
) -> Result<Status, Fault>
    ensures logged { IfOk result (λ status. LogsAnswered (map S.text words.now) status
        (I.remaining input.old) (I.remaining input.new) output.old output.new
        (W.events world.old) (W.events world.new)) }
    ensures log_failed { IfErr result (λ fault. LogsFailed (map S.text words.now) fault
        (I.remaining input.old) (I.remaining input.new) output.old output.new
        (W.events world.old) (W.events world.new)) }
    ensures usage { IfOk result (λ status.
        TellsUsage status (E.contents errors.old) (E.contents errors.new)) }
    ensures quiet { MatchResult result
        (λ status. status_number status < 2 → errors.new ≡ errors.old) (λ _. errors.new ≡ errors.old) }
    ensures unread { (input.new ≡ input.old) ⊎ AsksToRead (map S.text words.now) }
    ensures follows { Follows (W.memory world.old) (W.events world.old)
        (W.memory world.new) (W.events world.new) }
{
    match command(resources.alloc, words) {
        Ok(command) => obey(resources, command, world, input, output),
        Err(CommandFault::Help { text }) => show_help(output, &text),
        Err(CommandFault::Usage { text }) => {
            let _ = print_text(errors, &text);
            Ok(Status::Usage)
        }
        Err(CommandFault::OutOfMemory) => Err(Fault::OutOfMemory),
    }
}

/// Prints help. `WriteOutput` where that can't be done, maybe after a beginning of it.
fn show_help<O: Write>(output: &mut Printer<O>, help: &ClapText) -> Result<Status, Fault>
    ensures shown { IfOk result (λ status.
        (status ≡ Status.Done) × (output.new ≡ output.old ++ string_bytes help.now.text)) }
    ensures failed { IfErr result (λ fault. (fault ≡ Fault.WriteOutput)
        × AppendsFront (Some output.old) (Some output.new) (string_bytes help.now.text)) }
{
    match print_text(output, help) {
        Ok(()) => Ok(Status::Done),
        Err(_) => Err(Fault::WriteOutput),
    }
}

/// Does what the command asks, and prints all but a fault.
fn obey<W: World, I: Read, O: Write>(
    resources: &Resources<impl Threads + Wait + Sync, impl Progress>,
    command: Command,
    world: &mut W,
    input: &mut I,
    output: &mut Printer<O>,
) -> Result<Status, Fault>
    ensures logged { IfOk result (λ status. (deed command).done status
        (I.remaining input.old) (I.remaining input.new) output.old output.new
        (W.events world.old) (W.events world.new)) }
    ensures log_failed { IfErr result (λ fault. (deed command).failed fault
        (I.remaining input.old) (I.remaining input.new) output.old output.new
        (W.events world.old) (W.events world.new)) }
    ensures unread { (input.new ≡ input.old) ⊎ (deed command).may.reads }
    ensures follows { Follows (W.memory world.old) (W.events world.old)
        (W.memory world.new) (W.events world.new) }
{
    match command {
        Command::Keygen {
            levels,
            seed,
            id,
            state,
            public,
        } => {
            let key = key_from(resources.alloc, &levels, &seed, &id, input)?;
            make_key(resources, world, key, &state, &public, output)?;
            Ok(Status::Done)
        }
        Command::Info { state } => {
            describe(resources.alloc, world, &state, output)?;
            Ok(Status::Done)
        }
        Command::Inspect { file } => inspect_file(resources.alloc, world, &file, output),
        Command::Public { state, public } => {
            publish_key(resources, world, &state, &public, output)?;
            Ok(Status::Done)
        }
        Command::Sign {
            state,
            random,
            message,
            out,
        } => {
            let request = SignRequest {
                state: &state,
                random: &random,
                message: &message,
                out: &out,
            };
            sign_file(resources, world, &request, output)?;
            Ok(Status::Done)
        }
        Command::Endorse {
            state,
            random,
            signer,
            joined,
            out,
        } => {
            let request = EndorseRequest {
                state: &state,
                random: &random,
                signer: &signer,
                joined: &joined,
                out: &out,
            };
            endorse_key(resources, world, &request, output)?;
            Ok(Status::Done)
        }
        Command::Batch { state, workers } => {
            sign_jobs(resources, world, &state, &workers, input, output)?;
            Ok(Status::Done)
        }
        Command::Serve { state, workers } => {
            serve_jobs(resources, world, &state, &workers, input, output)?;
            Ok(Status::Done)
        }
        Command::Witness { state, on, counter } => {
            watch_state(resources.alloc, world, &state, &on, &counter, output)?;
            Ok(Status::Done)
        }
        Command::Resume { state, counter } => {
            resume_state(resources.alloc, world, &state, &counter, output)?;
            Ok(Status::Done)
        }
        Command::Verify {
            public,
            message,
            signature,
        } => {
            let verdict = verify_files(
                resources.alloc,
                world,
                &public,
                &message,
                &signature,
                output,
            )?;
            Ok(verdict.status())
        }
        Command::Join {
            public,
            endorsement,
            signer,
            signature,
            out,
        } => {
            let request = JoinRequest {
                public: &public,
                endorsement: &endorsement,
                signer: &signer,
                signature: &signature,
                out: &out,
            };
            join_signature(resources.alloc, world, &request)?;
            Ok(Status::Done)
        }
        Command::JoinPublic {
            public,
            signer,
            out,
        } => {
            join_public_keys(resources.alloc, world, &public, &signer, &out)?;
            Ok(Status::Done)
        }
    }
}

/// Prints a text. `WriteFault` where that can't be done, maybe after a beginning of it.
fn print_text<W: Write>(writer: &mut W, text: &ClapText) -> Result<(), WriteFault>
    ensures whole { OnOk result
        (Appends (W.contents writer.old) (W.contents writer.new) (string_bytes text.now.text)) }
    ensures front { OnErr result
        (AppendsFront (W.contents writer.old) (W.contents writer.new) (string_bytes text.now.text)) }
{
    write_bytes(writer, text.as_str().as_bytes())?;
    match writer.flush() {
        Ok(()) => Ok(()),
        Err(_) => Err(WriteFault),
    }
}
