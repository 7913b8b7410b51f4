//! Why a list of levels is refused.
ghost use Rattle.std.specs.Prelude.{Some};
ghost use Rattle.lms_hss.specs.Faults.{key_fault_text};

use std::error::Error;
use std::fmt;

/// Why a list of levels was refused.
#[derive(Clone, Copy, Debug, PartialEq, Eq)]
pub enum KeyFault {
    /// It is empty.
    NoLevels,
    /// It has more than `MOST_LEVELS`.
    TooManyLevels,
    /// Its heights sum to more than 60.
    TooTall,
}

impl fmt::Display for KeyFault {
    ghost output = { λ fault. Some (key_fault_text fault) };

    fn fmt<W: fmt::Write>(&self, f: &mut fmt::Formatter<W>) -> fmt::Result {
        match *self {
            KeyFault::NoLevels => f.write_str("no levels"),
            KeyFault::TooManyLevels => f.write_str("too many levels"),
            KeyFault::TooTall => f.write_str("too tall"),
        }
    }
}

impl Error for KeyFault {}
