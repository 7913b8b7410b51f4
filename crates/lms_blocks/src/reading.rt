//! The bytes of a reader, block by block.
ghost use Rattle.std.specs.Prelude.{◌≡◌, ◌<◌, ◌≤◌, length, take, IfOk, OnErr};
ghost use Rattle.std.specs.Io.KnownBytes.{Consumes, IsAtEnd, Keeps};

use std::io;
use std::io::{ErrorKind, Read};

/// Reads once, again where it was interrupted, and answers how many bytes were read, 0 only where
/// the reader is at its end: so many bytes at the beginning of the block are the next ones of the
/// reader.
///
/// An error is the reader's own; no byte is taken from it then.
pub fn read_block<R: Read>(reader: &mut R, block: &mut [u8]) -> io::Result<usize>
    requires { 0 < length block.old }
    ensures bound { IfOk result (λ n. n ≤ length block.new) }
    ensures bytes { IfOk result (λ n.
        Consumes (R.remaining reader.old) (R.remaining reader.new) (take n block.new)) }
    ensures end { IfOk result (λ n. n ≡ 0 → IsAtEnd (R.remaining reader.new)) }
    ensures kept { OnErr result (Keeps (R.remaining reader.old) (R.remaining reader.new)) }
{
    for _try in 0..u64::MAX {
        match reader.read(block) {
            Ok(count) => return Ok(count),
            Err(error) => {
                if error.kind() != ErrorKind::Interrupted {
                    return Err(error);
                }
            }
        }
    }
    Err(io::Error::from(ErrorKind::Interrupted))
}
