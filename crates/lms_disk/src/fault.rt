//! What an error of the disk is to a world.
ghost use Rattle.std.specs.Prelude.{◌≡◌, ◌≢◌};
ghost use Rattle.std.specs.IoError.{error_kind};

use lms_world::WorldFault;
use std::io;
use std::io::ErrorKind;

/// The world's fault for an error of the disk: `OutOfMemory` where that is its kind, else `Device`.
pub(crate) fn fault_of(error: &io::Error) -> WorldFault
    ensures memory { error_kind error.now ≡ ErrorKind.OutOfMemory
        → result ≡ WorldFault.OutOfMemory }
    ensures device { error_kind error.now ≢ ErrorKind.OutOfMemory → result ≡ WorldFault.Device }
{
    if error.kind() == ErrorKind::OutOfMemory {
        WorldFault::OutOfMemory
    } else {
        WorldFault::Device
    }
}
