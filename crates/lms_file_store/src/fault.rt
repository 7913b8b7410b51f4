//! Why a state is not locked.
ghost use Rattle.std.specs.Prelude.{◌≡◌, ◌≢◌};
ghost use Rattle.std.specs.IoError.{error_kind};

use lms_params::OutOfMemory;
use std::io;
use std::io::ErrorKind;
use thiserror::Error;

/// Why a lock of a state was refused.
#[derive(Clone, Copy, Debug, PartialEq, Eq, Error)]
pub enum LockFault {
    /// Another holds the lock.
    #[error("the lock is not available")]
    InUse,
    /// The state's name can't be resolved, or the lock's file can't be opened or locked.
    #[error("the lock can't be reached")]
    Unreachable,
    /// Memory ran out.
    #[error("{OutOfMemory}")]
    OutOfMemory,
}

impl LockFault {
    /// What it means that the system refused a lock for this reason: `InUse` where it would have to
    /// be waited for, `OutOfMemory` where memory ran out, else `Unreachable`.
    pub fn of(reason: &io::Error) -> Self
        ensures in_use { error_kind reason.now ≡ ErrorKind.WouldBlock → result ≡ LockFault.InUse }
        ensures memory { error_kind reason.now ≡ ErrorKind.OutOfMemory
            → result ≡ LockFault.OutOfMemory }
        ensures unreachable { error_kind reason.now ≢ ErrorKind.WouldBlock
            → error_kind reason.now ≢ ErrorKind.OutOfMemory → result ≡ LockFault.Unreachable }
    {
        if reason.kind() == ErrorKind::WouldBlock {
            LockFault::InUse
        } else if reason.kind() == ErrorKind::OutOfMemory {
            LockFault::OutOfMemory
        } else {
            LockFault::Unreachable
        }
    }
}
