//! Why a store was not read, written or opened, and why no lease was given.
ghost use Rattle.std.specs.Prelude.{◌≡◌, Some};
ghost use Rattle.lms_book.specs.Faults.{book_fault_text, last_index as last_index_of, open_fault_text, read_fault_text, store_fault_text};

use lms_image::ImageFault;
use lms_params::OutOfMemory;
use std::{error, fmt};

/// Why a store was not opened.
#[derive(Clone, Copy, Debug, PartialEq, Eq)]
pub enum OpenFault {
    /// The store failed.
    Store,
    /// What it holds is no image.
    Image(ImageFault),
    /// Memory for its bytes was refused.
    OutOfMemory,
}

impl fmt::Display for OpenFault {
    ghost output = { λ fault. Some (open_fault_text fault) };

    fn fmt<W: fmt::Write>(&self, f: &mut fmt::Formatter<W>) -> fmt::Result {
        match *self {
            OpenFault::Store => write!(f, "{}", ReadFault::Device),
            OpenFault::Image(fault) => write!(f, "bad state: {fault}"),
            OpenFault::OutOfMemory => write!(f, "{OutOfMemory}"),
        }
    }
}

impl error::Error for OpenFault {}

/// Why no lease was given.
#[derive(Clone, Copy, Debug, PartialEq, Eq)]
pub enum BookFault {
    /// The key has fewer indices left, this many. Nothing changed.
    Exhausted { left: u64 },
    /// Memory for the history was refused. Nothing changed, and nothing was written.
    OutOfMemory,
    /// The store failed. The indices are burnt: `len` of them, from `start` on.
    Store { start: u64, len: u64 },
}

impl fmt::Display for BookFault {
    ghost output = { λ fault. Some (book_fault_text fault) };

    fn fmt<W: fmt::Write>(&self, f: &mut fmt::Formatter<W>) -> fmt::Result {
        match *self {
            BookFault::Exhausted { left } => write!(f, "exhausted: {left} left"),
            BookFault::OutOfMemory => write!(f, "{OutOfMemory}"),
            BookFault::Store { start, len } => {
                let last = last_index(start, len);
                write!(f, "{StoreFault}: {start} to {last} burnt")
            }
        }
    }
}

impl error::Error for BookFault {}

/// The last of `len` indices from `start` on, at most 2^64 - 1.
fn last_index(start: u64, len: u64) -> u64
    ensures { result ≡ last_index_of start len }
{
    start.saturating_add(len.saturating_sub(1))
}

/// Why a store was not read.
#[derive(Clone, Copy, Debug, PartialEq, Eq)]
pub enum ReadFault {
    /// The store failed.
    Device,
    /// Memory for the bytes was refused.
    OutOfMemory,
}

impl fmt::Display for ReadFault {
    ghost output = { λ fault. Some (read_fault_text fault) };

    fn fmt<W: fmt::Write>(&self, f: &mut fmt::Formatter<W>) -> fmt::Result {
        match *self {
            ReadFault::Device => f.write_str("cannot read state"),
            ReadFault::OutOfMemory => write!(f, "{OutOfMemory}"),
        }
    }
}

impl error::Error for ReadFault {}

/// It is not certain that the bytes were stored: the store may hold them, or what it held before.
#[derive(Clone, Copy, Debug, PartialEq, Eq)]
pub struct StoreFault;

impl fmt::Display for StoreFault {
    ghost output = { λ _. Some store_fault_text };

    fn fmt<W: fmt::Write>(&self, f: &mut fmt::Formatter<W>) -> fmt::Result {
        f.write_str("cannot write state")
    }
}

impl error::Error for StoreFault {}
