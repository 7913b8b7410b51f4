//! Why levels or a seed are not read.
ghost use Rattle.std.specs.Prelude.{Some};
ghost use Rattle.lms_texts.specs.Faults.{levels_fault_text, seed_fault_text};

use lms_lines::JobsFault;
use lms_params::OutOfMemory;
use std::alloc::AllocError;
use std::{error, fmt};

/// Why no levels were read from a text.
#[derive(Clone, Copy, Debug, PartialEq, Eq)]
pub enum LevelsTextFault {
    /// The text is not that of levels.
    Bad,
    /// Memory for them ran out.
    OutOfMemory,
}

impl fmt::Display for LevelsTextFault {
    ghost output = { λ fault. Some (levels_fault_text fault) };

    fn fmt<W: fmt::Write>(&self, f: &mut fmt::Formatter<W>) -> fmt::Result {
        match *self {
            LevelsTextFault::Bad => f.write_str("bad levels"),
            LevelsTextFault::OutOfMemory => write!(f, "{OutOfMemory}"),
        }
    }
}

impl error::Error for LevelsTextFault {}

impl From<AllocError> for LevelsTextFault {
    ghost use Rattle.std.specs.Prelude.{◌≡◌};
    ghost use Rattle.lms_texts.specs.declared.fault.LevelsTextFault.TheVariants.{OutOfMemory};

    ghost from_gives = { λ _ fault. fault ≡ OutOfMemory };

    fn from(_: AllocError) -> Self {
        LevelsTextFault::OutOfMemory
    }
}

/// Why there is no seed.
#[derive(Clone, Copy, Debug, PartialEq, Eq)]
pub enum SeedFault {
    /// The option's text, or the input, is not 64 hexadecimal digits.
    Bad,
    /// The input can't be read.
    Read,
}

impl fmt::Display for SeedFault {
    ghost output = { λ fault. Some (seed_fault_text fault) };

    fn fmt<W: fmt::Write>(&self, f: &mut fmt::Formatter<W>) -> fmt::Result {
        match *self {
            SeedFault::Bad => f.write_str("bad seed"),
            SeedFault::Read => write!(f, "{}", JobsFault::Read),
        }
    }
}

impl error::Error for SeedFault {}
