//! A stream, of which contracts see the bytes that it took.
ghost use Rattle.std.specs.Prelude.{◌≡◌, []};
ghost use Rattle.lms_world.specs.Events as events;

use crate::log::{Call, Event, Log};
use lms_ghost_log::Logged;
use std::io;
use std::io::Write;
use std::marker::Model;
use std::snapshot::Snapshot;

/// Forwards all bytes to a stream. Contracts see the bytes that the stream took, whatever is known
/// of the stream itself. It takes no memory.
#[derive(Drop)]
pub struct Printer<O: Write> {
    stream: O,
    // The stream as it was before it took anything from the printer.
    begun: Snapshot<O>,
    log: Log,
}

impl<O: Write> Model for Printer<O> {
    ghost use Rattle.std.specs.Prelude.{List, ℕ};
    ghost use Rattle.std.specs.Io.KnownBytes.{Appends};
    ghost use Rattle.lms_world.specs.Events.{printed};

    ghost Value = { List ℕ };

    ghost view = { λ printer. printed printer.log };

    // What the stream is known to have taken since then is what the log says.
    ghost invariant = { λ printer. Appends (O.contents printer.begun.value)
        (O.contents printer.stream) (printed printer.log) };
}

impl<O: Write> Printer<O> {
    /// A printer to this stream, which has taken nothing from it yet.
    pub fn new(stream: O) -> Self
        ensures { result ≡ [] }
    {
        Printer {
            begun: Snapshot::of(&stream),
            stream,
            log: Log::new(),
        }
    }
}

impl<O: Write> Write for Printer<O> {
    ghost use Rattle.std.specs.Prelude.{Some};

    ghost contents = { λ bytes. Some bytes };

    fn write(&mut self, buf: &[u8]) -> io::Result<usize> {
        match self.stream.write(buf) {
            Ok(count) => {
                let bytes = &buf[..count];
                self.log = self.log.and(&Call::Printed { bytes });
                Ok(count)
            }
            Err(error) => Err(error),
        }
    }

    fn flush(&mut self) -> io::Result<()> {
        self.stream.flush()
    }
}

/// From here on this stream is printed to.
#[derive(Drop)]
pub struct Beginning<'a, O: Write> {
    pub output: &'a Printer<O>,
}

impl<O: Write> Logged<Event> for Beginning<'_, O> {
    ghost entry = { λ call. events.Printing call.output.now };
}
