//! What no contract says: that good texts are read, and which fault a failed stream gives.

mod answers;
mod pieces;
mod signing;
mod witnesses;

use lms_batch::Job;
use lms_lines::{JobsFault, read_jobs};
use std::alloc::Global;
use std::io::{self, Read, Write};
use std::test::Fail;

/// The randomizer 0, 1, .. 31, in both cases of letters.
const C: &str = "000102030405060708090a0B0c0D0e0f101112131415161718191A1b1C1d1E1f";

/// A text that is read in small pieces. After so many reads it fails. Every second read is
/// interrupted.
#[derive(Drop)]
pub(crate) struct Source<'t> {
    pub(crate) rest: &'t [u8],
    pub(crate) step: usize,
    pub(crate) reads: usize,
    pub(crate) is_interrupted: bool,
}

impl<'t> Read for Source<'t> {
    fn read(&mut self, buf: &mut [u8]) -> io::Result<usize> {
        self.is_interrupted = !self.is_interrupted;
        if self.is_interrupted {
            return Err(io::Error::from(io::ErrorKind::Interrupted));
        }
        if self.reads == 0 {
            return Err(io::Error::from(io::ErrorKind::Other));
        }
        self.reads -= 1;
        let count = buf.len().min(self.step).min(self.rest.len());
        let (now, later) = self.rest.split_at(count);
        buf[..count].copy_from_slice(now);
        self.rest = later;
        Ok(count)
    }
}

/// Takes so many bytes a write at most. After so many writes it fails, or takes nothing. Every
/// second write is interrupted.
#[derive(Drop)]
pub(crate) struct Sink {
    pub(crate) taken: Vec<u8>,
    pub(crate) most: usize,
    pub(crate) writes: usize,
    pub(crate) fails: bool,
    pub(crate) is_interrupted: bool,
}

impl Write for Sink {
    fn write(&mut self, buf: &[u8]) -> io::Result<usize> {
        self.is_interrupted = !self.is_interrupted;
        if self.is_interrupted {
            return Err(io::Error::from(io::ErrorKind::Interrupted));
        }
        if self.writes == 0 {
            return if self.fails {
                Err(io::Error::from(io::ErrorKind::Other))
            } else {
                Ok(0)
            };
        }
        self.writes -= 1;
        let count = buf.len().min(self.most);
        self.taken.extend_from_slice(&buf[..count])?;
        Ok(count)
    }

    fn flush(&mut self) -> io::Result<()> {
        Ok(())
    }
}

/// A writer that takes so many bytes, one a write, and then fails, or takes nothing.
pub(crate) fn sink_of(alloc: Global, writes: usize, fails: bool) -> Sink {
    Sink {
        taken: Vec::new(alloc),
        most: 1,
        writes,
        fails,
        is_interrupted: false,
    }
}

/// A line that is read again and again, until so many bytes are read.
#[derive(Drop)]
struct Repeated<'t> {
    line: &'t [u8],
    rest: &'t [u8],
    left: usize,
}

impl<'t> Read for Repeated<'t> {
    fn read(&mut self, buf: &mut [u8]) -> io::Result<usize> {
        if self.rest.is_empty() {
            self.rest = self.line;
        }
        let count = buf.len().min(self.rest.len()).min(self.left);
        let (now, later) = self.rest.split_at(count);
        buf[..count].copy_from_slice(now);
        self.rest = later;
        self.left -= count;
        Ok(count)
    }
}

fn read_whole(alloc: Global, text: &[u8]) -> Result<Vec<Job>, JobsFault> {
    let mut rest = text;
    read_jobs(alloc, &mut rest)
}

/// Whether a text has so many jobs.
fn has_count(alloc: Global, text: &[u8], count: usize) -> bool {
    match read_whole(alloc, text) {
        Ok(jobs) => jobs.len() == count,
        Err(_) => false,
    }
}

/// Whether what a reader gives has this fault.
fn fails(alloc: Global, reader: &mut impl Read, fault: JobsFault) -> bool {
    match read_jobs(alloc, reader) {
        Ok(_) => false,
        Err(found) => found == fault,
    }
}

/// Whether a text has this fault.
fn has_fault(alloc: Global, text: &[u8], fault: JobsFault) -> bool {
    let mut rest = text;
    fails(alloc, &mut rest, fault)
}

pub(crate) fn push_line(text: &mut Vec<u8>, message: &str, end: &str) -> Result<(), Fail> {
    for part in [C, " ", message, end] {
        text.extend_from_slice(part.as_bytes())?;
    }
    Ok(())
}

fn line_of_digits(alloc: Global, digits: usize) -> Result<Vec<u8>, Fail> {
    let message = "7".repeat(alloc, digits)?;
    let mut text = Vec::new(alloc);
    push_line(&mut text, message.as_str(), "\n")?;
    Ok(text)
}

/// As many lines of one job.
pub(crate) fn lines(alloc: Global, count: usize) -> Result<Vec<u8>, Fail> {
    let mut text = Vec::new(alloc);
    for _ in 0..count {
        push_line(&mut text, "aBFf", "\n")?;
    }
    Ok(text)
}

/// Whether a job has the randomizer 0, 1, .. 31.
fn has_c(job: &Job) -> bool {
    let mut is_right = true;
    for (i, byte) in job.c.iter().enumerate() {
        is_right = is_right && usize::from(*byte) == i;
    }
    is_right
}

/// Whether a text has two jobs, whose messages are ab ff and none.
fn has_both(alloc: Global, text: &[u8]) -> bool {
    let Ok(jobs) = read_whole(alloc, text) else {
        return false;
    };
    match jobs.as_slice() {
        [first, second] => {
            has_c(first)
                && has_c(second)
                && first.message.as_slice() == [0xab, 0xff].as_slice()
                && second.message.is_empty()
        }
        _ => false,
    }
}

#[test]
fn jobs_are_read(rt: HostRuntime) -> Result<(), Fail> {
    let alloc = rt.alloc();
    let mut text = Vec::new(alloc);
    push_line(&mut text, "aBFf", "\n")?;
    push_line(&mut text, "", "")?;
    let are_read = has_count(alloc, b"", 0) && has_both(alloc, &text);
    text.push(b'\n')?;
    assert!(rt; are_read && has_count(alloc, &text, 2));
    Ok(())
}

/// Whether a text has one job, of 65,536 bytes 0x77.
fn has_longest(alloc: Global, text: &[u8]) -> bool {
    let Ok(jobs) = read_whole(alloc, text) else {
        return false;
    };
    match jobs.as_slice() {
        [job] => job.message.len() == 65_536 && job.message.iter().all(|byte| *byte == 0x77),
        _ => false,
    }
}

#[test]
fn the_longest_message(rt: HostRuntime) -> Result<(), Fail> {
    let alloc = rt.alloc();
    let fault = JobsFault::BadJob { line: 1 };
    let is_longest_read = has_longest(alloc, &line_of_digits(alloc, 131_072)?);
    let is_longer_refused = has_fault(alloc, &line_of_digits(alloc, 131_074)?, fault);
    let is_endless_refused = fails(alloc, &mut io::repeat(b'7'), fault);
    assert!(rt; is_longest_read && is_longer_refused && is_endless_refused);
    Ok(())
}

/// How many jobs of 65,536 bytes so many bytes have of a line that is read again and again.
fn count_repeated(alloc: Global, line: &[u8], bytes: usize) -> Result<usize, JobsFault> {
    let mut text = Repeated {
        line,
        rest: line,
        left: bytes,
    };
    let jobs = read_jobs(alloc, &mut text)?;
    Ok(
        jobs.iter()
            .filter(|job| job.message.len() == 65_536)
            .count(),
    )
}

/// 1024 lines of 131,138 bytes each, and a byte more.
#[test]
fn the_longest_text(rt: HostRuntime) -> Result<(), Fail> {
    let alloc = rt.alloc();
    let line = line_of_digits(alloc, 131_072)?;
    let longest = count_repeated(alloc, &line, 134_285_312);
    let longer = count_repeated(alloc, &line, 134_285_313);
    assert!(rt; longest == Ok(1024) && longer == Err(JobsFault::TooManyJobs));
    Ok(())
}

/// Whether the second line, of this message, is bad, or the third where the message itself ends a line.
fn is_bad(alloc: Global, message: &str) -> Result<bool, Fail> {
    let mut text = Vec::new(alloc);
    for message in ["", message] {
        push_line(&mut text, message, "\n")?;
    }
    let line = if message.starts_with("00\n") { 3 } else { 2 };
    Ok(has_fault(alloc, &text, JobsFault::BadJob { line }))
}

#[test]
fn bad_lines(rt: HostRuntime) -> Result<(), Fail> {
    let alloc = rt.alloc();
    for message in ["\r", "00\r", " ", " 00", "0", "0g", "00 ", "00\n", "00\n\n"] {
        assert!(rt; is_bad(alloc, message)?, "after {message:?}");
    }
    for start in [
        "\n",
        C,
        "0 00\n",
        "g00102030405060708090a0B0c0D0e0f101112131415161718191A1b1C1d1E1f 00\n",
    ] {
        let fault = JobsFault::BadJob { line: 1 };
        assert!(rt; has_fault(alloc, start.as_bytes(), fault), "at {start:?}");
    }
    Ok(())
}

/// Whether a third line that is empty is the fault of a text that has over 1024 lines after it.
fn has_third_fault(alloc: Global, more: &[u8]) -> Result<bool, Fail> {
    let mut bad = lines(alloc, 2)?;
    for part in [b"\n".as_slice(), more] {
        bad.extend_from_slice(part)?;
    }
    Ok(has_fault(alloc, &bad, JobsFault::BadJob { line: 3 }))
}

/// Whether 1024 lines are read, and with a byte more refused.
fn reads_most(alloc: Global) -> Result<bool, Fail> {
    let mut text = lines(alloc, 1024)?;
    let are_most = has_count(alloc, &text, 1024);
    text.push(b'?')?;
    Ok(are_most && has_fault(alloc, &text, JobsFault::TooManyJobs))
}

#[test]
fn too_many_lines(rt: HostRuntime) -> Result<(), Fail> {
    let alloc = rt.alloc();
    let are_most = reads_most(alloc)?;
    let text = lines(alloc, 1025)?;
    let is_third = has_third_fault(alloc, &text)?;
    assert!(rt; are_most && is_third && has_fault(alloc, &text, JobsFault::TooManyJobs));
    Ok(())
}

/// A text that is read in pieces of so many bytes, and fails after so many reads.
fn source_of(rest: &[u8], step: usize, reads: usize) -> Source<'_> {
    Source {
        rest,
        step,
        reads,
        is_interrupted: false,
    }
}

/// Whether five jobs are read of a text, in pieces of so many bytes, each with the message ab ff.
fn reads_five(alloc: Global, text: &[u8], step: usize) -> bool {
    let Ok(jobs) = read_jobs(alloc, &mut source_of(text, step, 1000)) else {
        return false;
    };
    let mut is_right = jobs.len() == 5;
    for job in &jobs {
        is_right = is_right && job.message.as_slice() == [0xab, 0xff].as_slice();
    }
    is_right
}

#[test]
fn reads_of_any_size(rt: HostRuntime) -> Result<(), Fail> {
    let alloc = rt.alloc();
    let text = lines(alloc, 5)?;
    for step in [1, 2, 69, 70, 71, 1000] {
        assert!(rt; reads_five(alloc, &text, step), "by {step}");
    }
    for reads in 0..6 {
        let mut source = source_of(&text, 70, reads);
        assert!(rt; fails(alloc, &mut source, JobsFault::Read), "at {reads}");
    }
    Ok(())
}
