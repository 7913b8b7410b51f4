//! Why job lines give no jobs, are not signed, or are not answered.
ghost use Rattle.std.specs.Prelude.{◌≡◌, Some};
ghost use Rattle.lms_lines.specs.Faults.{jobs_fault_text};
ghost use Rattle.lms_lines.specs.declared.fault.JobsFault.TheVariants.{OutOfMemory as FaultOfMemory};

use lms_batch::BatchFault;
use lms_blocks::WriteFault;
use lms_params::OutOfMemory;
use std::alloc::{AllocError, AllocFailed};
use std::{error, fmt};
use thiserror::Error;

/// The first fault of job lines, or why they were not read to their end.
#[derive(Clone, Copy, Debug, PartialEq, Eq)]
pub enum JobsFault {
    /// The reader failed.
    Read,
    /// This line, counted from 1, is the first that is no job line.
    BadJob { line: u64 },
    /// The first `MOST_JOBS` lines are job lines, and more follows.
    TooManyJobs,
    /// A request for memory was refused.
    OutOfMemory,
}

impl fmt::Display for JobsFault {
    ghost output = { λ fault. Some (jobs_fault_text fault) };

    fn fmt<W: fmt::Write>(&self, f: &mut fmt::Formatter<W>) -> fmt::Result {
        match *self {
            JobsFault::Read => f.write_str("cannot read input"),
            JobsFault::BadJob { line } => write!(f, "line {line}: bad job"),
            JobsFault::TooManyJobs => write!(f, "{}", BatchFault::TooMany),
            JobsFault::OutOfMemory => write!(f, "{OutOfMemory}"),
        }
    }
}

impl error::Error for JobsFault {}

impl From<AllocError> for JobsFault {
    ghost from_gives = { λ _ r. r ≡ FaultOfMemory };

    fn from(_: AllocError) -> Self {
        JobsFault::OutOfMemory
    }
}

impl<T: Drop> From<AllocFailed<T>> for JobsFault {
    ghost from_gives = { λ _ r. r ≡ FaultOfMemory };

    fn from(_: AllocFailed<T>) -> Self {
        JobsFault::OutOfMemory
    }
}

/// Why job lines were not signed, or not all answers written.
#[derive(Clone, Copy, Debug, PartialEq, Eq, Error)]
pub enum LinesFault {
    /// The input has a fault. Nothing was reserved, and nothing written.
    #[error("{0}")]
    Jobs(JobsFault),
    /// No batch was made. Nothing was written.
    #[error("{0}")]
    Batch(BatchFault),
    /// The answers were not all written. The indices of all jobs are used.
    #[error("{WriteFault}")]
    Write,
}
