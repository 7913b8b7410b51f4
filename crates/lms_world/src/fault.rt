//! Why a file can't be read or written.

use lms_params::OutOfMemory;
use thiserror::Error;

/// Why a file can't be read or written.
#[derive(Clone, Copy, Debug, PartialEq, Eq, Error)]
pub enum WorldFault {
    /// There is no such file, or it can't be read or written.
    #[error("the file can't be reached")]
    Device,
    /// Memory ran out.
    #[error("{OutOfMemory}")]
    OutOfMemory,
}
