//! The fault of a call that is out of memory.
ghost use Rattle.std.specs.Prelude.{Some};
ghost use Rattle.lms_params.specs.Faults.{out_of_memory_text};

use std::alloc::{AllocError, AllocFailed};
use std::{error, fmt};

/// A request for memory was refused. The call changed nothing, unless its own documentation says
/// what it left.
#[derive(Clone, Copy, Debug, PartialEq, Eq)]
pub struct OutOfMemory;

impl fmt::Display for OutOfMemory {
    ghost output = { λ _. Some out_of_memory_text };

    fn fmt<W: fmt::Write>(&self, f: &mut fmt::Formatter<W>) -> fmt::Result {
        f.write_str("out of memory")
    }
}

impl error::Error for OutOfMemory {}

impl From<AllocError> for OutOfMemory {
    fn from(_: AllocError) -> Self {
        OutOfMemory
    }
}

impl<T: Drop> From<AllocFailed<T>> for OutOfMemory {
    fn from(_: AllocFailed<T>) -> Self {
        OutOfMemory
    }
}
