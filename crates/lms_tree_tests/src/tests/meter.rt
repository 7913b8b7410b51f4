//! What is printed of how far a run is, by a clock that is set.
use lms_meter::{Asking, Meter, Wiping};
use lms_tree::Progress;
use std::fmt::Display;
use std::io::{Print, Read, Write};
use std::sync::atomic::{AtomicBool, AtomicU64, Ordering};
use std::sync::{Barrier, Mutex, Wait};
use std::thread::Threads;
use std::time::{Clock, Duration};
use std::{io, thread};

/// A stream that marks the end of each write by `|`, and each flush by `!`.
#[derive(Drop)]
struct Marked(Vec<u8>);

impl Write for Marked {
    fn write(&mut self, buf: &[u8]) -> io::Result<usize> {
        self.0.extend_from_slice(buf)?;
        self.0.push(b'|')?;
        Ok(buf.len())
    }

    fn flush(&mut self) -> io::Result<()> {
        self.0.push(b'!')?;
        Ok(())
    }
}

/// A clock that moves only where it is set, in milliseconds.
#[derive(Drop)]
struct SetClock {
    milliseconds: AtomicU64,
}

impl SetClock {
    fn new() -> Self {
        SetClock {
            milliseconds: AtomicU64::new(1000),
        }
    }

    fn set(&self, milliseconds: u64) {
        self.milliseconds.store(milliseconds, Ordering::SeqCst);
    }
}

impl Clock for SetClock {
    fn monotonic(&self) -> io::Result<Duration> {
        Ok(Duration::from_millis(self.milliseconds.load(Ordering::SeqCst)))
    }

    fn since_1970(&self) -> io::Result<Duration> {
        Ok(Duration::ZERO)
    }
}

/// What is printed, kept.
#[derive(Drop)]
struct Kept<'r, R> {
    rt: &'r R,
    text: Mutex<Vec<u8>>,
}

impl<'r, R: Wait + AllocGlobal> Kept<'r, R> {
    fn new(rt: &'r R) -> Self {
        Kept {
            rt,
            text: Mutex::new(Vec::new(rt.alloc())),
        }
    }

    fn is(&self, text: &str) -> bool {
        self.text.lock(self.rt).as_slice() == text.as_bytes()
    }
}

impl<'r, R: Wait + AllocGlobal> Print for Kept<'r, R> {
    fn print<D: Display + Drop>(&self, value: D) -> io::Result<()> {
        let text = format!(in self.rt.alloc(); "{value}")?;
        self.write_all(text.as_bytes())
    }

    fn println<D: Display + Drop>(&self, value: D) -> io::Result<()> {
        let text = format!(in self.rt.alloc(); "{value}\n")?;
        self.write_all(text.as_bytes())
    }

    fn write_all(&self, bytes: &[u8]) -> io::Result<()> {
        self.text.lock(self.rt).extend_from_slice(bytes)?;
        Ok(())
    }
}

#[test]
fn elsewhere_a_line_comes_every_ten_seconds(rt: HostRuntime) {
    let clock = SetClock::new();
    let errors = Kept::new(&rt);
    let meter = Meter::new(&clock, &errors, false);
    meter.begin(1000);
    meter.done(10);
    clock.set(10999);
    meter.done(20);
    let is_silent = errors.is("");
    clock.set(11000);
    meter.done(1);
    let is_told = errors.is("31 of 1000 leaves\n");
    clock.set(20999);
    meter.done(100);
    let is_told_once = errors.is("31 of 1000 leaves\n");
    clock.set(22000);
    meter.done(869);
    meter.done(0);
    meter.wipe();
    let is_told_twice = errors.is("31 of 1000 leaves\n1000 of 1000 leaves\n");
    assert!(rt; is_silent && is_told && is_told_once && is_told_twice);
}

#[test]
fn each_leaf_of_a_tall_tree_is_told(rt: HostRuntime) {
    let clock = SetClock::new();
    let errors = Kept::new(&rt);
    let meter = Meter::new(&clock, &errors, false);
    meter.begin(1 << 25);
    clock.set(11000);
    meter.done(1234567);
    clock.set(21000);
    meter.done(32319864);
    assert!(rt; errors.is("1234567 of 33554432 leaves\n33554431 of 33554432 leaves\n"));
}

#[test]
fn on_a_terminal_a_line_goes_before_others_come(rt: HostRuntime) {
    let clock = SetClock::new();
    let errors = Kept::new(&rt);
    let meter = Meter::new(&clock, &errors, true);
    let mut output = Wiping::new(&meter, Marked(Vec::new(rt.alloc())));
    meter.begin(4);
    clock.set(1499);
    meter.done(1);
    let is_begun = output.write_all(b"index ").is_ok() && errors.is("");
    clock.set(1500);
    meter.done(1);
    clock.set(2000);
    meter.done(2);
    let is_told = errors.is("\r\x1b[K2 of 4 leaves\r\x1b[K4 of 4 leaves");
    let is_written = output.write_all(b"0\n").is_ok()
        && output.flush().is_ok()
        && output.write_all(b"more\n").is_ok();
    let is_wiped = errors.is("\r\x1b[K2 of 4 leaves\r\x1b[K4 of 4 leaves\r\x1b[K");
    let is_whole = output.stream.0.as_slice() == b"index |0\n|!more\n|".as_slice();
    assert!(rt; is_begun && is_told && is_written && is_wiped && is_whole);
}

#[test]
fn on_a_terminal_a_line_goes_before_a_read(rt: HostRuntime) {
    let clock = SetClock::new();
    let errors = Kept::new(&rt);
    let meter = Meter::new(&clock, &errors, true);
    let mut input = Wiping::new(&meter, b"more".as_slice());
    meter.begin(4);
    clock.set(1500);
    meter.done(4);
    let mut block = [0; 8];
    let count = input.read(&mut block).ok();
    let is_more = &block[..4] == b"more".as_slice();
    assert!(rt; count == Some(4) && is_more && errors.is("\r\x1b[K4 of 4 leaves\r\x1b[K"));
}

#[test]
fn an_input_is_asked_for_once(rt: HostRuntime) {
    let errors = Kept::new(&rt);
    let mut input = Asking::new(&errors, Some("waits for more"), b"more".as_slice());
    let is_silent = errors.is("");
    let mut block = [0; 3];
    let first = input.read(&mut block).ok();
    let is_asked = first == Some(3) && block == *b"mor" && errors.is("waits for more\n");
    let more = input.read(&mut block).ok();
    let end = input.read(&mut block).ok();
    let mut unasked = Asking::new(&errors, None, b"more".as_slice());
    let without = unasked.read(&mut block).ok();
    let is_asked_once = errors.is("waits for more\n");
    let mut refused = Asking::new(&Closed, Some("waits"), b"more".as_slice());
    let closed = refused.read(&mut block).ok();
    assert!(rt;
        is_silent
            && is_asked
            && more == Some(1)
            && end == Some(0)
            && without == Some(3)
            && is_asked_once
            && closed == Some(3)
    );
}

/// Keeps what is printed. Where a count is awaited, and is kept, its thread waits for another one, and
/// then for what that one does.
#[derive(Drop)]
struct Meeting<'r, R> {
    kept: Kept<'r, R>,
    turns: Barrier,
    is_awaited: AtomicBool,
}

impl<'r, R: Wait + AllocGlobal> Meeting<'r, R> {
    fn new(rt: &'r R) -> Self {
        Meeting {
            kept: Kept::new(rt),
            turns: Barrier::new(2),
            is_awaited: AtomicBool::new(false),
        }
    }

    /// Meets the other thread, once, where that awaits it.
    fn meet(&self) {
        if self.is_awaited.swap(false, Ordering::SeqCst) {
            self.turns.wait(self.kept.rt);
            self.turns.wait(self.kept.rt);
        }
    }
}

impl<'r, R: Wait + AllocGlobal> Print for Meeting<'r, R> {
    fn print<D: Display + Drop>(&self, value: D) -> io::Result<()> {
        let text = format!(in self.kept.rt.alloc(); "{value}")?;
        self.kept.write_all(text.as_bytes())?;
        if text.as_str().ends_with("leaves") {
            self.meet();
        }
        Ok(())
    }

    fn println<D: Display + Drop>(&self, value: D) -> io::Result<()> {
        self.kept.println(value)
    }

    fn write_all(&self, bytes: &[u8]) -> io::Result<()> {
        self.kept.write_all(bytes)
    }
}

/// Reports leaves, while another thread comes once their count is kept, and wipes it before the first goes
/// on. Where no count is kept it comes afterwards.
fn wipes_at_once<R: Threads + Wait + AllocGlobal + Sync, C: Clock + Sync>(
    rt: &R,
    meter: &Meter<C, Meeting<R>>,
    errors: &Meeting<R>,
) {
    errors.is_awaited.store(true, Ordering::SeqCst);
    thread::join(
        rt,
        || {
            meter.done(4);
            errors.meet();
        },
        || {
            errors.turns.wait(rt);
            meter.wipe();
            errors.turns.wait(rt);
        },
    );
}

#[test]
fn what_is_printed_can_be_wiped_at_once(rt: HostRuntime) {
    let clock = SetClock::new();
    let errors = Meeting::new(&rt);
    let meter = Meter::new(&clock, &errors, true);
    meter.begin(4);
    clock.set(1500);
    wipes_at_once(&rt, &meter, &errors);
    assert!(rt; errors.kept.is("\r\x1b[K4 of 4 leaves\r\x1b[K"));
}

/// What prints nothing, and says so.
#[derive(Drop)]
struct Closed;

impl Print for Closed {
    fn print<D: Display + Drop>(&self, _value: D) -> io::Result<()> {
        Err(io::Error::from(io::ErrorKind::BrokenPipe))
    }

    fn println<D: Display + Drop>(&self, _value: D) -> io::Result<()> {
        Err(io::Error::from(io::ErrorKind::BrokenPipe))
    }

    fn write_all(&self, _bytes: &[u8]) -> io::Result<()> {
        Err(io::Error::from(io::ErrorKind::BrokenPipe))
    }
}

/// Output comes whole where standard error is closed.
#[test]
fn what_can_not_be_printed_is_left_out(rt: HostRuntime) {
    let clock = SetClock::new();
    let meter = Meter::new(&clock, &Closed, true);
    let mut output = Wiping::new(&meter, Marked(Vec::new(rt.alloc())));
    meter.begin(4);
    clock.set(1500);
    meter.done(4);
    let is_written = output.write_all(b"index 0\n").is_ok();
    assert!(rt; is_written && output.stream.0.as_slice() == b"index 0\n|".as_slice());
}
