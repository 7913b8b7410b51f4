//! The standard streams that were closed before the program began.

use std::fs::File;
use std::io;
use std::os::fd::{AsRawFd, RawFd};

/// The number of standard error, the last of the three.
const LAST_STREAM: RawFd = 2;

/// A file that is always there, and that takes no bytes where it is opened for reading.
const NOTHING: &str = "/dev/null";

/// Holds the number of each standard stream that is closed. An opening takes the lowest free
/// number, so the next file would take it, and what is printed would be written into that file. To
/// print to a number that is held so fails.
///
/// The numbers are held as long as the files are kept. An error comes where `/dev/null` can't be
/// opened.
pub fn hold_closed_streams(rt: &HostRuntime) -> io::Result<[Option<File>; 3]> {
    let mut held = [None, None, None];
    for stream in &mut held {
        let file = File::open(rt, NOTHING)?;
        if file.as_raw_fd() > LAST_STREAM {
            break;
        }
        *stream = Some(file);
    }
    Ok(held)
}
