//! Why the program ends with a fault.
use lms_params::OutOfMemory;
use std::io;

/// Why the program ends with a fault, whose name it prints.
#[derive(Clone, Copy, Debug)]
pub enum Fault {
    /// The arguments are none that the program knows.
    Usage,
    OutOfMemory,
    /// Standard output can't be written.
    WriteOutput,
    /// The levels are none of a key, or have too few indices.
    Key,
    /// A signature is shorter than its key says.
    ShortSignature,
    /// The digests that were timed ended in zeros.
    Digests,
    /// A run gave something else than it should.
    Result,
    /// A signature was judged wrongly.
    Verdict,
    /// A book, a pool or a service did not do its work.
    Service,
    /// Places that were claimed, additions or lines were lost.
    Lost,
}

impl From<OutOfMemory> for Fault {
    fn from(_: OutOfMemory) -> Self {
        Fault::OutOfMemory
    }
}

impl From<io::Error> for Fault {
    fn from(_: io::Error) -> Self {
        Fault::WriteOutput
    }
}
