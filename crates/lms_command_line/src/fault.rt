//! Why arguments give no command.
ghost use Rattle.std.specs.Prelude.{◌≡◌, string_bytes};

use clap::Error;
use std::alloc::{AllocError, Global};

/// A text of clap's: what it says at an error, and nothing else.
#[derive(Debug, Drop)]
pub struct ClapText {
    text: String,
}

impl ClapText {
    /// What clap says at this error.
    pub(crate) fn of(alloc: Global, error: &Error) -> Result<Self, AllocError> {
        let text = error.to_string(alloc)?;
        Ok(ClapText { text })
    }

    /// The text.
    pub fn as_str(&self) -> &str
        ensures { result.now ≡ string_bytes self.now.text }
    {
        self.text.as_str()
    }
}

/// Why the arguments give no command.
#[derive(Debug, Drop)]
pub enum CommandFault {
    /// Help or the version was asked for, and this is its text.
    Help { text: ClapText },
    /// The arguments are no command of the program, and this text says why.
    Usage { text: ClapText },
    /// Memory ran out.
    OutOfMemory,
}

impl From<AllocError> for CommandFault {
    ghost use Rattle.std.specs.Prelude.{◌≡◌};
    ghost use Rattle.lms_command_line.specs.declared.fault.CommandFault.TheVariants.{OutOfMemory};

    ghost from_gives = { λ _ fault. fault ≡ OutOfMemory };

    fn from(_: AllocError) -> Self {
        CommandFault::OutOfMemory
    }
}
