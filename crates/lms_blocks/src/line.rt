//! A line that is printed whole.
ghost use Rattle.std.specs.Prelude.{◌≡◌, ◌++◌, IfOk, IfSome, OnErr, OnOk, codes};
ghost use Rattle.std.specs.Io.KnownBytes.{Appends};
ghost use Rattle.lms_blocks.specs.Writing.{AppendsFront};

use crate::fault::WriteFault;
use crate::writing::write_bytes;
use arrayvec::ArrayString;
use std::fmt;
use std::fmt::{Display, Write as _};
use std::io::Write;

/// The most bytes of a line, with its end.
const MOST_BYTES: usize = 128;

/// Prints a line, with its end, in one write where the writer takes it whole, so that a crash
/// leaves no half of it, and flushes it.
///
/// `WriteFault` where the line has over 128 bytes with its end: then nothing of it was printed.
/// Also where the writer fails: then a beginning of it was printed, perhaps all. It takes no
/// memory, so that a line can be printed where memory ran out.
pub fn print_line<W: Write, D: Display + Drop>(writer: &mut W, text: D) -> Result<(), WriteFault>
    ensures printed { OnOk result (IfSome (D.output text) (λ bytes.
        Appends (W.contents writer.old) (W.contents writer.new) (bytes ++ codes "\n"))) }
    ensures broken { OnErr result (IfSome (D.output text) (λ bytes.
        AppendsFront (W.contents writer.old) (W.contents writer.new) (bytes ++ codes "\n"))) }
{
    let Ok(line) = line_of(text) else {
        return Err(WriteFault);
    };
    write_bytes(writer, line.as_str().as_bytes())?;
    match writer.flush() {
        Ok(()) => Ok(()),
        Err(_) => Err(WriteFault),
    }
}

/// A text and the end of its line, where both fit.
fn line_of<D: Display + Drop>(text: D) -> Result<ArrayString<MOST_BYTES>, fmt::Error>
    ensures { IfOk result (λ line.
        IfSome (D.output text) (λ bytes. line.bytes ≡ bytes ++ codes "\n")) }
{
    let mut line = ArrayString::new();
    writeln!(line, "{text}")?;
    Ok(line)
}
