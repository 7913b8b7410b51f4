//! Why not all was written.
ghost use Rattle.std.specs.Prelude.{Some};
ghost use Rattle.lms_blocks.specs.Writing.{write_fault_text};

use std::{error, fmt};

/// Not all was written.
#[derive(Clone, Copy, Debug, PartialEq, Eq)]
pub struct WriteFault;

impl fmt::Display for WriteFault {
    ghost output = { λ _. Some write_fault_text };

    fn fmt<W: fmt::Write>(&self, f: &mut fmt::Formatter<W>) -> fmt::Result {
        f.write_str("cannot write output")
    }
}

impl error::Error for WriteFault {}
