//! An input that is asked for where it is typed.
ghost use Rattle.std.specs.Prelude.{◌≡◌};

use std::io;
use std::io::{Print, Read};

/// A stream that first says on `errors` what is waited for: before the first read it prints a line
/// there, if it has one. What can't be printed is left out.
#[derive(Drop)]
pub struct Asking<'r, P, S> {
    errors: &'r P,
    line: Option<&'static str>,
    pub stream: S,
}

impl<'r, P, S> Asking<'r, P, S> {
    pub fn new(errors: &'r P, line: Option<&'static str>, stream: S) -> Self
        ensures { result.stream ≡ stream }
    {
        Asking {
            errors,
            line,
            stream,
        }
    }
}

impl<'r, P: Print, S: Read> Read for Asking<'r, P, S> {
    ghost remaining = { λ asking. S.remaining asking.stream };

    fn read(&mut self, buf: &mut [u8]) -> io::Result<usize> {
        if let Some(line) = self.line.take() {
            let _ = self.errors.println(line);
        }
        self.stream.read(buf)
    }
}
