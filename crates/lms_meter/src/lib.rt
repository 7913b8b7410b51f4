//! How far a run that computes trees is, and what one that reads a terminal waits for, printed to
//! standard error.
#![tactic(auto)]

mod asking;

ghost use Rattle.std.specs.Prelude.{◌≡◌};

pub use crate::asking::Asking;
use lms_tree::Progress;
use std::io;
use std::io::{Print, Read, Write};
use std::sync::atomic::{AtomicBool, AtomicU64, Ordering};
use std::time::{Clock, Duration};

/// How often the line on a terminal is written again, in nanoseconds.
const ON_A_TERMINAL: u64 = 500_000_000;

/// How often a line is printed where there is no terminal, in nanoseconds.
const ELSEWHERE: u64 = 10_000_000_000;

/// What clears a terminal's line, from its beginning on.
const WIPED: &str = "\r\x1b[K";

/// Prints to `errors` how many leaves are done of how many. On a terminal that is one line, written
/// again twice a second and cleared before anything else is printed or read; elsewhere it is a line
/// every ten seconds. What can't be printed is left out.
#[derive(Drop)]
pub struct Meter<'r, C, P> {
    clock: &'r C,
    errors: &'r P,
    is_on_terminal: bool,
    to_do: AtomicU64,
    done: AtomicU64,
    /// When its line was last printed, or at first when the work began: nanoseconds on the clock.
    printed_at: AtomicU64,
    /// Whether its line is on the terminal.
    is_shown: AtomicBool,
}

impl<'r, C: Clock, P: Print> Meter<'r, C, P> {
    pub fn new(clock: &'r C, errors: &'r P, is_on_terminal: bool) -> Self {
        Meter {
            clock,
            errors,
            is_on_terminal,
            to_do: AtomicU64::new(0),
            done: AtomicU64::new(0),
            printed_at: AtomicU64::new(0),
            is_shown: AtomicBool::new(false),
        }
    }

    /// Clears its line from the terminal, where it is there.
    pub fn wipe(&self) {
        if self.is_shown.swap(false, Ordering::SeqCst) {
            let _ = self.errors.print(WIPED);
        }
    }

    /// The nanoseconds on the clock.
    fn now(&self) -> u64 {
        let time = self.clock.monotonic().unwrap_or(Duration::ZERO);
        u64::try_from(time.as_nanos()).unwrap_or(u64::MAX)
    }

    /// Whether it is time to print again. It is true for one of the threads that ask then.
    fn is_due(&self) -> bool {
        let between = if self.is_on_terminal {
            ON_A_TERMINAL
        } else {
            ELSEWHERE
        };
        let printed_at = self.printed_at.load(Ordering::SeqCst);
        let now = self.now();
        now.saturating_sub(printed_at) >= between
            && self
                .printed_at
                .compare_exchange(printed_at, now, Ordering::SeqCst, Ordering::SeqCst)
                .is_ok()
    }

    /// Prints how many leaves are done of how many: in its line on a terminal, else in a new one.
    fn print_count(&self, done: u64) {
        let to_do = self.to_do.load(Ordering::SeqCst);
        if self.is_on_terminal {
            self.is_shown.store(true, Ordering::SeqCst);
            let _ = self
                .errors
                .print(format_args!("{WIPED}{done} of {to_do} leaves"));
        } else {
            let _ = self
                .errors
                .println(format_args!("{done} of {to_do} leaves"));
        }
    }
}

impl<'r, C: Clock + Sync, P: Print + Sync> Progress for Meter<'r, C, P> {
    fn begin(&self, leaves: u64) {
        self.to_do.store(leaves, Ordering::SeqCst);
        self.done.store(0, Ordering::SeqCst);
        self.printed_at.store(self.now(), Ordering::SeqCst);
    }

    fn done(&self, leaves: u64) {
        let before = self.done.fetch_add(leaves, Ordering::SeqCst);
        if self.is_due() {
            self.print_count(before.saturating_add(leaves));
        }
    }
}

/// A stream that clears the meter's line before each write and each read, which may wait.
#[derive(Drop)]
pub struct Wiping<'m, 'r, C, P, S> {
    meter: &'m Meter<'r, C, P>,
    pub stream: S,
}

impl<'m, 'r, C, P, S> Wiping<'m, 'r, C, P, S> {
    pub fn new(meter: &'m Meter<'r, C, P>, stream: S) -> Self
        ensures { result.stream ≡ stream }
    {
        Wiping { meter, stream }
    }
}

impl<'m, 'r, C: Clock, P: Print, S: Write> Write for Wiping<'m, 'r, C, P, S> {
    ghost contents = { λ wiping. S.contents wiping.stream };

    fn write(&mut self, buf: &[u8]) -> io::Result<usize> {
        self.meter.wipe();
        self.stream.write(buf)
    }

    fn flush(&mut self) -> io::Result<()> {
        self.stream.flush()
    }
}

impl<'m, 'r, C: Clock, P: Print, S: Read> Read for Wiping<'m, 'r, C, P, S> {
    ghost remaining = { λ wiping. S.remaining wiping.stream };

    fn read(&mut self, buf: &mut [u8]) -> io::Result<usize> {
        self.meter.wipe();
        self.stream.read(buf)
    }
}
