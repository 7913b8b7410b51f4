//! A line for who looks on at a terminal.
ghost use Rattle.std.specs.Prelude.{◌≡◌, ◌++◌, ◌≤◌, ◌==◌, [], OnErr, OnOk, codes, length, map, take};
ghost use Rattle.std.specs.Io.KnownBytes.{Appends};
ghost use Rattle.lms_blocks.specs.Writing.{AppendsFront};
ghost use Rattle.lms_world.specs.Notes.{most_noted, note_line, note_text, shown};

use arrayvec::{ArrayString, ArrayVec};
use lms_blocks::{WriteFault, write_bytes};
use std::fmt::Write as _;
use std::io::{ErrorKind, Write};
use std::{fmt, io};

/// The most bytes of a note's text.
const MOST_TEXT: usize = 193;

/// The most bytes of its line.
const MOST_LINE: usize = 200;

/// How its line begins.
const BEFORE: [u8; 6] = *b"note: ";

/// The most bytes of a name that is quoted whole.
const MOST_QUOTED: usize = 80;

/// What stands behind a fault or a verdict, for who looks on: a text of at most 193 bytes, which is
/// printed as one line, or none. It quotes names of files and numbers alone, and nothing secret.
#[derive(Drop)]
pub struct Note {
    text: ArrayVec<u8, MOST_TEXT>,
}

impl Note {
    /// A note that says nothing.
    pub fn new() -> Self
        ensures { note_text result ≡ [] }
    {
        Note {
            text: ArrayVec::new(),
        }
    }

    /// Makes it say nothing.
    pub fn clear(&mut self)
        ensures { note_text self.new ≡ [] }
    {
        self.text.clear();
    }

    /// Whether it says nothing.
    pub fn is_empty(&self) -> bool
        ensures { result ≡ (length (note_text self.now) == 0) }
    {
        self.text.is_empty()
    }

    /// Adds these bytes, as far as there is room.
    pub fn push(&mut self, bytes: &[u8])
        ensures { note_text self.new ≡ take most_noted (note_text self.old ++ bytes.now) }
    {
        let room = self.text.remaining_capacity().min(bytes.len());
        match self.text.try_extend_from_slice(&bytes[..room]) {
            Ok(()) => {}
            Err(_) => unreachable!(),
        }
    }

    /// Says that a file could not be read or written, for this reason.
    pub fn refuse(&mut self, name: &str, reason: &io::Error) {
        self.clear();
        let _ = write!(self, "{}: ", Quoted(name));
        self.push_reason(reason);
    }

    /// Says that a state's lock could not be had, for this reason: that another run holds it where
    /// it would have to be waited for.
    pub fn refuse_lock(&mut self, state: &str, reason: &io::Error) {
        self.clear();
        let state = Quoted(state);
        if reason.kind() == ErrorKind::WouldBlock {
            let _ = write!(
                self,
                "another run holds {state}.lock; wait for it, and never remove it"
            );
            return;
        }
        let _ = write!(self, "{state}.lock can't be made: ");
        self.push_reason(reason);
        if reason.kind() == ErrorKind::PermissionDenied {
            self.push(b"; sign as the state's owner");
        }
    }

    /// Adds the system's reason for a refusal, without its number.
    fn push_reason(&mut self, reason: &io::Error) {
        let mut text = ArrayString::<MOST_LINE>::new();
        let _ = write!(text, "{reason}");
        match text.as_str().split_once(" (os error") {
            Some((words, _)) => self.push(words.as_bytes()),
            None => self.push(text.as_str().as_bytes()),
        }
    }

    /// Prints its line, with `?` for each byte that is no printable ASCII; nothing where it says
    /// nothing. `WriteFault` where that can't be done, maybe after a beginning of it.
    pub fn print<W: Write>(&self, errors: &mut W) -> Result<(), WriteFault>
        ensures printed { OnOk result
            (Appends (W.contents errors.old) (W.contents errors.new) (note_line (note_text self.now))) }
        ensures broken { OnErr result
            (AppendsFront (W.contents errors.old) (W.contents errors.new) (note_line (note_text self.now))) }
        ensures fits { length (note_text self.now) ≤ most_noted }
    {
        if self.is_empty() {
            return Ok(());
        }
        let line = line_of(self.text.as_slice());
        write_bytes(errors, line.as_slice())
    }
}

impl fmt::Write for Note {
    fn write_str(&mut self, s: &str) -> fmt::Result {
        self.push(s.as_bytes());
        Ok(())
    }
}

/// A file's name, of which a note has the end where it is long.
#[derive(Clone, Copy)]
pub struct Quoted<'a>(pub &'a str);

impl fmt::Display for Quoted<'_> {
    fn fmt<W: fmt::Write>(&self, f: &mut fmt::Formatter<W>) -> fmt::Result {
        match self.0.len().checked_sub(MOST_QUOTED) {
            Some(cut) if cut > 0 => {
                f.write_str("...")?;
                f.write_str(end_of(self.0, cut))
            }
            _ => f.write_str(self.0),
        }
    }
}

/// What follows the first `cut` bytes of a text, and the rest of a character there.
fn end_of(text: &str, cut: usize) -> &str {
    for at in cut..text.len() {
        if text.is_char_boundary(at) {
            return &text[at..];
        }
    }
    ""
}

/// The line of a note with this text.
fn line_of(text: &[u8]) -> ArrayVec<u8, MOST_LINE>
    requires { length text.now ≤ most_noted }
    ensures { result.items ≡ codes "note: " ++ map shown text.now ++ codes "\n" }
{
    let mut line = ArrayVec::new();
    for byte in BEFORE {
        line.push(byte);
    }
    for byte in text {
        line.push(printable(*byte));
    }
    line.push(b'\n');
    line
}

/// The byte itself where it is printable ASCII, else `?`.
fn printable(byte: u8) -> u8
    ensures { result ≡ shown byte }
{
    if b' ' <= byte && byte <= b'~' {
        byte
    } else {
        b'?'
    }
}
