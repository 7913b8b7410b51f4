//! What verification says, and its printed line.
ghost use Rattle.std.specs.Prelude.{◌≡◌, OnErr, OnOk};
ghost use Rattle.std.specs.Io.KnownBytes.{Appends};
ghost use Rattle.lms_blocks.specs.Writing.{AppendsFront};
ghost use Rattle.lms_signature_commands.specs.Verdicts.{line_of, verdict_status};

use lms_blocks::{WriteFault, print_line};
use lms_commands::Status;
use std::io::Write;

/// What verification says of a signature.
#[derive(Clone, Copy, Debug, PartialEq, Eq)]
pub enum Verdict {
    Valid,
    Invalid,
}

impl Verdict {
    /// How the program ends with this verdict.
    pub fn status(self) -> Status
        ensures { result ≡ verdict_status self }
    {
        match self {
            Verdict::Valid => Status::Done,
            Verdict::Invalid => Status::Negative,
        }
    }
}

/// Prints the verdict's line, `valid` or `invalid`. On a fault, a beginning of it was printed.
pub(crate) fn print_verdict<W: Write>(output: &mut W, verdict: Verdict) -> Result<(), WriteFault>
    ensures printed { OnOk result
        (Appends (W.contents output.old) (W.contents output.new) (line_of verdict)) }
    ensures broken { OnErr result
        (AppendsFront (W.contents output.old) (W.contents output.new) (line_of verdict)) }
{
    match verdict {
        Verdict::Valid => print_line(output, "valid"),
        Verdict::Invalid => print_line(output, "invalid"),
    }
}
