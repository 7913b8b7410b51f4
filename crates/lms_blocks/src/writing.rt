//! Bytes that are written whole.
ghost use Rattle.std.specs.Prelude.{◌<◌, ◌≤◌, length, take, OnOk, OnErr, IfOk};
ghost use Rattle.std.specs.Io.KnownBytes.{Appends, Keeps};
ghost use Rattle.lms_blocks.specs.Writing.{AppendsFront};

use crate::fault::WriteFault;
use std::io::{ErrorKind, Write};

/// Writes these bytes, by as many writes as it takes. On a fault, a beginning of them was written.
pub fn write_bytes<W: Write>(writer: &mut W, bytes: &[u8]) -> Result<(), WriteFault>
    ensures ok { OnOk result (Appends (W.contents writer.old) (W.contents writer.new) bytes.now) }
    ensures err { OnErr result
        (AppendsFront (W.contents writer.old) (W.contents writer.new) bytes.now) }
{
    let mut rest = bytes;
    while !rest.is_empty() {
        let taken = write_some(writer, rest)?;
        rest = &rest[taken..];
    }
    Ok(())
}

/// Writes once, again where that was interrupted, and answers how many of the first bytes the
/// writer took, 1 at least. A writer that takes nothing has failed. On a fault nothing was written.
fn write_some<W: Write>(writer: &mut W, bytes: &[u8]) -> Result<usize, WriteFault>
    ensures some { IfOk result (λ n. (0 < n) × (n ≤ length bytes.now)) }
    ensures ok { IfOk result (λ n.
        Appends (W.contents writer.old) (W.contents writer.new) (take n bytes.now)) }
    ensures err { OnErr result (Keeps (W.contents writer.old) (W.contents writer.new)) }
{
    for _try in 0..u64::MAX {
        match writer.write(bytes) {
            Ok(0) => return Err(WriteFault),
            Ok(taken) => return Ok(taken),
            Err(e) => {
                if e.kind() != ErrorKind::Interrupted {
                    return Err(WriteFault);
                }
            }
        }
    }
    Err(WriteFault)
}
