//! The program's command line.
ghost use Rattle.std.specs.Prelude.{◌≡◌, [], IfOk, IfErr, IsSome};
ghost use Rattle.std.specs.Prelude.{Some, MatchResult, map, true, false, string_bytes};
ghost use Rattle.clap.specs.Words.{app_of, fault_of, first_of, first_value, found_of, kind_of, rows_of, rule_of, takes};
ghost use Rattle.clap.specs.declared.builder.command.Command.TheViews.{out-Command as fields_of};
ghost use Rattle.lms_command_line.specs.Application.{app_for, bare_app, lms_app};
ghost use Rattle.lms_command_line.specs.Application.{required_option, subcommand_called, subcommand_in, with_rows};
ghost use Rattle.lms_command_line.specs.Commands.{AreWordsOf, FaultAt, FaultOf, HasOptions, IsMadeOf};

pub mod laws;
mod table;
mod types;

pub use crate::fault::{ClapText, CommandFault};
use crate::version::VERSION;
use clap::error::ErrorKind;
use clap::{Arg, ArgMatches, Error};
use std::alloc::{AllocError, Global};
use std::convert::AsStr;
use table::{OptionRow, Row, SUBCOMMANDS};
pub use types::Command;

/// The command that the command-line arguments ask for; the first of them is the program's name.
///
/// `Help` where they ask for help or for the version and `Usage` where they are no command, both with
/// clap's text, and `OutOfMemory` where memory ran out.
pub fn command<S: AsStr>(alloc: Global, words: &[S]) -> Result<Command, CommandFault>
    ensures reads { IfOk result (AreWordsOf (map S.text words.now)) }
    ensures taken { IfErr result (λ e.
        takes lms_app (map S.text words.now) ≡ true → e ≡ CommandFault.OutOfMemory) }
    ensures faults { MatchResult result (λ _. fault_of lms_app (map S.text words.now) ≡ [])
        (FaultAt (map S.text words.now)) }
{
    let matches = match application(alloc)?.try_get_matches_from(words) {
        Ok(matches) => matches,
        Err(error) => return Err(fault_from(alloc, &error)),
    };
    match matches.subcommand() {
        Some((name, options)) => Ok(read(alloc, name, options)?),
        None => unreachable!(),
    }
}

/// The program as clap knows it.
fn application<'a>(alloc: Global) -> Result<clap::Command<'a>, AllocError>
    ensures { IfOk result (λ c. app_of c ≡ lms_app) }
{
    with_subcommands(alloc, bare_application(alloc), &SUBCOMMANDS)
}

/// The program with one more subcommand for each row.
fn with_subcommands<'a>(
    alloc: Global,
    mut program: clap::Command<'a>,
    rows: &[Row],
) -> Result<clap::Command<'a>, AllocError>
    ensures { IfOk result (λ c. app_of c ≡ with_rows (app_of program.entry) rows.now) }
{
    for row in rows {
        program = program.subcommand(subcommand(alloc, row)?)?;
    }
    Ok(program)
}

/// The program without its subcommands.
fn bare_application<'a>(alloc: Global) -> clap::Command<'a>
    ensures { app_of result ≡ bare_app }
{
    clap::Command::new(alloc, "lms_tool")
        .about("Makes keys, signs and verifies with HSS/LMS (RFC 8554)")
        .version(VERSION)
        .subcommand_required(true)
}

/// The subcommand in this row of the table.
fn subcommand<'a>(alloc: Global, row: &Row) -> Result<clap::Command<'a>, AllocError>
    ensures app { IfOk result (λ c. app_of c ≡ app_for (subcommand_in row.now)) }
    ensures local { IfOk result (λ c. (fields_of c).has_globals ≡ false) }
{
    let (name, about, note, options) = *row;
    let mut command = clap::Command::new(alloc, name)
        .about(about)
        .after_help(note);
    for option in options {
        command = command.arg(required(alloc, option))?;
    }
    Ok(command)
}

/// The option in this row.
fn required<'a>(alloc: Global, row: &OptionRow) -> Arg<'a>
    ensures rule { rule_of result ≡ required_option row.now.0.now }
    ensures local { result.global ≡ false }
{
    let (name, value, help) = *row;
    Arg::new(alloc, name)
        .long(name)
        .value_name(value)
        .help(help)
        .required(true)
}

/// The command of the subcommand `name` with these options.
fn read(alloc: Global, name: &str, options: &ArgMatches<'_>) -> Result<Command, AllocError>
    requires { HasOptions (subcommand_called name.now) (found_of options.now) }
    ensures { IfOk result (IsMadeOf name.now (rows_of (found_of options.now))) }
{
    match name {
        "keygen" => Ok(Command::Keygen {
            levels: option_text(alloc, options, "levels")?,
            seed: option_text(alloc, options, "seed")?,
            id: option_text(alloc, options, "id")?,
            state: option_text(alloc, options, "state")?,
            public: option_text(alloc, options, "public")?,
        }),
        "info" => Ok(Command::Info {
            state: option_text(alloc, options, "state")?,
        }),
        "inspect" => Ok(Command::Inspect {
            file: option_text(alloc, options, "file")?,
        }),
        "public" => Ok(Command::Public {
            state: option_text(alloc, options, "state")?,
            public: option_text(alloc, options, "public")?,
        }),
        "sign" => Ok(Command::Sign {
            state: option_text(alloc, options, "state")?,
            random: option_text(alloc, options, "random")?,
            message: option_text(alloc, options, "message")?,
            out: option_text(alloc, options, "out")?,
        }),
        "endorse" => Ok(Command::Endorse {
            state: option_text(alloc, options, "state")?,
            random: option_text(alloc, options, "random")?,
            signer: option_text(alloc, options, "signer")?,
            joined: option_text(alloc, options, "joined")?,
            out: option_text(alloc, options, "out")?,
        }),
        "batch" => Ok(Command::Batch {
            state: option_text(alloc, options, "state")?,
            workers: option_text(alloc, options, "workers")?,
        }),
        "serve" => Ok(Command::Serve {
            state: option_text(alloc, options, "state")?,
            workers: option_text(alloc, options, "workers")?,
        }),
        "witness" => Ok(Command::Witness {
            state: option_text(alloc, options, "state")?,
            on: option_text(alloc, options, "on")?,
            counter: option_text(alloc, options, "counter")?,
        }),
        "resume" => Ok(Command::Resume {
            state: option_text(alloc, options, "state")?,
            counter: option_text(alloc, options, "counter")?,
        }),
        "verify" => Ok(Command::Verify {
            public: option_text(alloc, options, "public")?,
            message: option_text(alloc, options, "message")?,
            signature: option_text(alloc, options, "signature")?,
        }),
        "join" => Ok(Command::Join {
            public: option_text(alloc, options, "public")?,
            endorsement: option_text(alloc, options, "endorsement")?,
            signer: option_text(alloc, options, "signer")?,
            signature: option_text(alloc, options, "signature")?,
            out: option_text(alloc, options, "out")?,
        }),
        "join-public" => Ok(Command::JoinPublic {
            public: option_text(alloc, options, "public")?,
            signer: option_text(alloc, options, "signer")?,
            out: option_text(alloc, options, "out")?,
        }),
        _ => unreachable!(),
    }
}

/// The text of an option that was given.
fn option_text(alloc: Global, options: &ArgMatches<'_>, name: &str) -> Result<String, AllocError>
    requires { IsSome (first_value (found_of options.now) name.now) }
    ensures { IfOk result (λ text.
        first_of name.now (rows_of (found_of options.now)) ≡ Some (string_bytes text)) }
{
    String::from_str(alloc, options.get_str(name).unwrap())
}

/// The fault that clap's error is: `Help` where it shows help or the version, `OutOfMemory` where
/// memory ran out, also for its text, and else `Usage`.
fn fault_from(alloc: Global, error: &Error) -> CommandFault
    ensures { FaultOf (kind_of error.now) result }
{
    match (error.kind(), ClapText::of(alloc, error)) {
        (ErrorKind::OutOfMemory, _) | (_, Err(_)) => CommandFault::OutOfMemory,
        (ErrorKind::DisplayHelp, Ok(text)) => CommandFault::Help { text },
        (ErrorKind::DisplayVersion, Ok(text)) => CommandFault::Help { text },
        (_, Ok(text)) => CommandFault::Usage { text },
    }
}
