use crate::{WriteFault, print_line, read_block};
use std::io;
use std::io::{ErrorKind, Read, Write};
use std::test::Fail;

/// Gives its bytes three at a time, and then fails. Every second read is interrupted.
#[derive(Drop)]
struct Halting<'a> {
    left: &'a [u8],
    was_interrupted: bool,
    fails: bool,
}

impl Read for Halting<'_> {
    fn read(&mut self, buf: &mut [u8]) -> io::Result<usize> {
        self.was_interrupted = !self.was_interrupted;
        if self.was_interrupted {
            return Err(io::Error::from(ErrorKind::Interrupted));
        }
        if self.fails && self.left.is_empty() {
            return Err(io::Error::from(ErrorKind::BrokenPipe));
        }
        let most = buf.len().min(3);
        self.left.read(&mut buf[..most])
    }
}

/// Whether the next block of a reader is these bytes.
fn gives(reader: &mut impl Read, bytes: &[u8]) -> bool {
    let mut block = [0; 4];
    match read_block(reader, &mut block) {
        Ok(count) => &block[..count] == bytes,
        Err(_) => false,
    }
}

/// Whether the next read fails so.
fn fails_by(reader: &mut impl Read, kind: ErrorKind) -> bool {
    match read_block(reader, &mut [0; 4]) {
        Ok(_) => false,
        Err(error) => error.kind() == kind,
    }
}

#[test]
fn an_interrupted_read_is_tried_again(rt: HostRuntime) -> Result<(), Fail> {
    let mut reader = Halting {
        left: b"abcde",
        was_interrupted: false,
        fails: false,
    };
    assert!(rt; gives(&mut reader, b"abc"));
    assert!(rt; gives(&mut reader, b"de"));
    assert!(rt; gives(&mut reader, b""));
    Ok(())
}

#[test]
fn another_fault_is_reported(rt: HostRuntime) -> Result<(), Fail> {
    let mut reader = Halting {
        left: b"a",
        was_interrupted: false,
        fails: true,
    };
    assert!(rt; gives(&mut reader, b"a"));
    assert!(rt; fails_by(&mut reader, ErrorKind::BrokenPipe));
    Ok(())
}

/// Is interrupted so many times, and then gives its bytes, or takes three of those that are written.
/// Each flush is an exclamation mark.
#[derive(Drop)]
struct Waiting {
    interruptions: u32,
    bytes: Vec<u8>,
}

impl Waiting {
    /// Whether it is interrupted once more.
    fn is_interrupted(&mut self) -> bool {
        let is_interrupted = self.interruptions > 0;
        self.interruptions = self.interruptions.saturating_sub(1);
        is_interrupted
    }
}

impl Read for Waiting {
    fn read(&mut self, buf: &mut [u8]) -> io::Result<usize> {
        if self.is_interrupted() {
            return Err(io::Error::from(ErrorKind::Interrupted));
        }
        self.bytes.as_slice().read(buf)
    }
}

impl Write for Waiting {
    fn write(&mut self, buf: &[u8]) -> io::Result<usize> {
        if self.is_interrupted() {
            return Err(io::Error::from(ErrorKind::Interrupted));
        }
        let most = buf.len().min(3);
        self.bytes.extend_from_slice(&buf[..most])?;
        Ok(most)
    }

    fn flush(&mut self) -> io::Result<()> {
        self.bytes.push(b'!')?;
        Ok(())
    }
}

#[test]
fn a_thousand_interruptions_are_no_fault(rt: HostRuntime) -> Result<(), Fail> {
    let mut stream = Waiting {
        interruptions: 1000,
        bytes: Vec::new(rt.alloc()),
    };
    assert!(rt; print_line(&mut stream, "abc") == Ok(()));
    stream.interruptions = 1000;
    assert!(rt; gives(&mut stream, b"abc\n"));
    assert!(rt; stream.interruptions == 0);
    Ok(())
}

#[test]
fn a_line_is_flushed_once_it_is_written(rt: HostRuntime) -> Result<(), Fail> {
    let mut output = Waiting {
        interruptions: 0,
        bytes: Vec::new(rt.alloc()),
    };
    assert!(rt; print_line(&mut output, "index 7") == Ok(()));
    assert!(rt; output.bytes.as_slice() == b"index 7\n!".as_slice());
    Ok(())
}

/// 31 bytes.
const PART: &str = "0123456789abcdef0123456789abcde";

#[test]
fn a_line_of_over_128_bytes_is_not_begun(rt: HostRuntime) -> Result<(), Fail> {
    let mut output = Vec::new(rt.alloc());
    let longest = print_line(&mut output, format_args!("{PART}{PART}{PART}{PART}abc"));
    assert!(rt; longest == Ok(()));
    assert!(rt; output.len() == 128);
    let longer = print_line(&mut output, format_args!("{PART}{PART}{PART}{PART}abcd"));
    assert!(rt; longer == Err(WriteFault));
    assert!(rt; output.len() == 128);
    Ok(())
}
