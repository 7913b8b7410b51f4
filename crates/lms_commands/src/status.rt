//! How the program ends.
ghost use Rattle.std.specs.Prelude.{◌≡◌};
ghost use Rattle.lms_commands.specs.Faults.{status_number};

/// How the program ends, by the number that it exits with.
#[derive(Clone, Copy, Debug, PartialEq, Eq)]
pub enum Status {
    /// All was done, or the signature is valid.
    Done = 0,
    /// The signature is invalid, or a batch has not all its signatures.
    Negative = 1,
    /// The arguments are no command, an option's value is bad, or so is a job line or a file that
    /// is to be joined; or there are too many job lines.
    Usage = 2,
    /// The state is in use; or it or its witness exists already, can't be read or written, is bad,
    /// or counts otherwise than it should.
    State = 3,
    /// The key does not have enough indices left.
    Exhausted = 4,
    /// Memory ran out.
    Memory = 5,
    /// A stream failed, or a file other than the state and its witness.
    Stream = 6,
}

impl Status {
    /// The number that the program exits with.
    pub fn code(self) -> u8
        ensures { result ≡ status_number self }
    {
        self as u8
    }
}
