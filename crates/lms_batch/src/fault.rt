//! Why a job is not signed, a receipt is not taken, or a batch is not made.
ghost use Rattle.std.specs.Prelude.{Some};
ghost use Rattle.lms_batch.specs.Faults.{batch_fault_text};

use lms_book::BookFault;
use lms_params::OutOfMemory;
use lms_pool::IndexPass;
use std::{error, fmt};
use thiserror::Error;

/// Why no batch was made.
#[derive(Clone, Copy, Debug, PartialEq, Eq)]
pub enum BatchFault {
    /// There are more than `MOST_JOBS` jobs.
    TooMany,
    /// The reservation was refused.
    Book(BookFault),
    /// Memory was refused after the reservation: its `burnt` indices sign nothing. The desk counts
    /// them as received.
    OutOfMemory { burnt: u64 },
}

impl fmt::Display for BatchFault {
    ghost output = { λ fault. Some (batch_fault_text fault) };

    fn fmt<W: fmt::Write>(&self, f: &mut fmt::Formatter<W>) -> fmt::Result {
        match *self {
            BatchFault::TooMany => f.write_str("too many jobs"),
            BatchFault::Book(fault) => write!(f, "{fault}"),
            BatchFault::OutOfMemory { burnt } => { write!(f, "{OutOfMemory}: {burnt} burnt") }
        }
    }
}

impl error::Error for BatchFault {}

/// Why a receipt was not taken.
#[derive(Clone, Copy, Debug, PartialEq, Eq, Error)]
pub enum TakeFault {
    /// Its key, index or job is not that of its place in the batch, or there is no such place.
    #[error("the receipt is not of this batch")]
    Stranger,
    /// Its place has a signature.
    #[error("the place has a signature")]
    Twice,
}

/// Why the job was not signed.
pub enum SignFault {
    /// No place is left.
    Ended,
    /// A place was claimed, and memory for the signature was refused. This is the pass of that
    /// place.
    OutOfMemory(IndexPass),
}
