//! What no contract says of answer lines: the written text, and what a failed writer has of it.
use crate::tests::sink_of;
use lms_batch::Batch;
use lms_lines::{WriteFault, count_signatures, write_batch};
use std::alloc::Global;
use std::io::ErrorKind::{self, Other, TimedOut, WouldBlock, WriteZero};
use std::io::{self, Write};
use std::test::Fail;

/// A batch of these signatures, from this index on.
fn complete(alloc: Global, start: u64, parts: &[&[u8]]) -> Result<Batch, Fail> {
    let mut signatures = Vec::new(alloc);
    for signature in parts {
        signatures.push(signature.to_vec(alloc)?)?;
    }
    Ok(Batch::Complete { start, signatures })
}

/// A batch of three signatures.
fn batch(alloc: Global) -> Result<Batch, Fail> {
    complete(alloc, 9, &[&[1, 2], &[], &[0xff]])
}

/// A batch whose second signature is not there.
fn partial_batch(alloc: Global) -> Result<Batch, Fail> {
    let mut slots = Vec::new(alloc);
    for signature in [Some(b"\xab".as_slice()), None, Some(b"\x00".as_slice())] {
        slots.push(match signature {
            Some(bytes) => Some(bytes.to_vec(alloc)?),
            None => None,
        })?;
    }
    let start = u64::MAX;
    Ok(Batch::Partial { start, slots })
}

/// Whether a batch is written as this text, and has so many signatures.
fn writes(alloc: Global, batch: Batch, wanted: &[u8], count: usize) -> bool {
    let mut text = Vec::new(alloc);
    write_batch(&mut text, &batch) == Ok(())
        && text.as_slice() == wanted
        && count_signatures(&batch) == count
}

/// Whether a batch is written as a text of this length that begins so.
fn writes_long(alloc: Global, batch: Batch, length: usize, front: &[u8]) -> bool {
    let mut text = Vec::new(alloc);
    write_batch(&mut text, &batch) == Ok(()) && text.len() == length && text.starts_with(front)
}

#[test]
fn answers_are_written_and_counted(rt: HostRuntime) -> Result<(), Fail> {
    let alloc = rt.alloc();
    let text = b"18446744073709551615 ab\n18446744073709551617 00\n";
    let is_whole = writes(alloc, batch(alloc)?, b"9 0102\n10 \n11 ff\n", 3);
    let is_partial = writes(alloc, partial_batch(alloc)?, text, 2);
    let is_long = writes_long(alloc, complete(alloc, 30, &[&[0; 2644]])?, 5292, b"30 00");
    assert!(rt; is_whole && is_partial && is_long);
    Ok(())
}

/// Whether a writer that takes so many bytes, one a write, gets as many of the 17 of a text, and a
/// fault says that they are not all.
fn has_beginning(alloc: Global, batch: &Batch, writes: usize, fails: bool) -> bool {
    let mut writer = sink_of(alloc, writes, fails);
    let answer = write_batch(&mut writer, batch);
    let wanted = if writes < 17 { Err(WriteFault) } else { Ok(()) };
    answer == wanted
        && b"9 0102\n10 \n11 ff\n".starts_with(&writer.taken)
        && writer.taken.len() == writes.min(17)
}

#[test]
fn a_failed_writer_has_a_beginning(rt: HostRuntime) -> Result<(), Fail> {
    let alloc = rt.alloc();
    let batch = batch(alloc)?;
    for fails in [false, true] {
        for writes in 0..30 {
            assert!(rt; has_beginning(alloc, &batch, writes, fails), "{writes}");
        }
    }
    Ok(())
}

/// Takes a byte a write, but that one write fails so, once it has so many bytes.
#[derive(Drop)]
struct FailsOnce {
    taken: Vec<u8>,
    before: usize,
    kind: ErrorKind,
    has_failed: bool,
}

impl Write for FailsOnce {
    fn write(&mut self, buf: &[u8]) -> io::Result<usize> {
        if self.taken.len() == self.before && !self.has_failed {
            self.has_failed = true;
            return Err(io::Error::from(self.kind));
        }
        let count = buf.len().min(1);
        self.taken.extend_from_slice(&buf[..count])?;
        Ok(count)
    }

    fn flush(&mut self) -> io::Result<()> {
        Ok(())
    }
}

/// Whether nothing more is written after a write that fails, though the writer would take it.
fn ends_there(alloc: Global, batch: &Batch, before: usize, kind: ErrorKind) -> bool {
    let mut writer = FailsOnce {
        taken: Vec::new(alloc),
        before,
        kind,
        has_failed: false,
    };
    write_batch(&mut writer, batch) == Err(WriteFault) && writer.taken.len() == before
}

#[test]
fn a_failed_write_is_not_tried_again(rt: HostRuntime) -> Result<(), Fail> {
    let alloc = rt.alloc();
    let batch = batch(alloc)?;
    for kind in [Other, WouldBlock, TimedOut, WriteZero] {
        for before in 0..17 {
            assert!(rt; ends_there(alloc, &batch, before, kind), "{before}");
        }
    }
    Ok(())
}
