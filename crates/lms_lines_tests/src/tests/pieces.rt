//! What no contract says of pieces: that they come as soon as a line's end was read, and are as
//! large as they may be then.
use crate::tests::{line_of_digits, source_of};
use lms_lines::{JobsFault, Pieces, end_of_lines};
use std::alloc::Global;
use std::io::{self, Read};
use std::test::Fail;

/// The first lines of some bytes: how many bytes and lines they are, where there are at most so
/// many.
const ENDS: [(&str, usize, usize, usize); 9] = [
    ("", 5, 0, 0),
    ("ab", 5, 0, 0),
    ("ab\n", 5, 3, 1),
    ("\n\n\nab", 5, 3, 3),
    ("a\nb\nc", 0, 0, 0),
    ("a\nb\nc", 1, 2, 1),
    ("a\nb\nc", 2, 4, 2),
    ("a\nb\nc", 3, 4, 2),
    ("a\nb\nc\n", 3, 6, 3),
];

#[test]
fn ends_of_lines_are_found(rt: HostRuntime) {
    for (text, most, bytes, lines) in ENDS {
        let found = end_of_lines(text.as_bytes(), most);
        assert!(rt; found == (bytes, lines), "{text:?} {most}");
    }
}

/// The piece that is a first line, and the last one of an input that ends with a line.
const ONE: (&str, usize) = ("1\n", 1);

const END: (&str, usize) = ("", 0);

/// An input, how many bytes of it a read gives, the most lines of a piece, and the pieces, with how
/// many lines each has. The last of them is the input's last.
type Row = (&'static str, usize, usize, &'static [(&'static str, usize)]);

/// By all at once, a byte at a time, a line and a half, and all but the last byte; every second read
/// is interrupted.
const ROWS: [Row; 10] = [
    ("", 9, 4, &[END]),
    ("1\n22\n\n4", 9, 4, &[("1\n22\n\n", 3), ("4", 1)]),
    ("1\n22\n\n4\n", 9, 4, &[("1\n22\n\n4\n", 4), END]),
    ("1\n22\n\n4\n", 9, 3, &[("1\n22\n\n", 3), ("4\n", 1), END]),
    ("1\n22\n3", 9, 1, &[ONE, ("22\n", 1), ("3", 1)]),
    ("1\n22\n3", 1, 4, &[ONE, ("22\n", 1), ("3", 1)]),
    ("1\n22\n3\n", 1, 4, &[ONE, ("22\n", 1), ("3\n", 1), END]),
    ("1\n2\n3\n4\n", 3, 4, &[ONE, ("2\n3\n", 2), ("4\n", 1), END]),
    (
        "1\n2\n3\n4\n",
        3,
        1,
        &[ONE, ("2\n", 1), ("3\n", 1), ("4\n", 1), END],
    ),
    ("1\n2\n3\n4\n", 7, 4, &[("1\n2\n3\n", 3), ("4\n", 1), END]),
];

/// Whether a reader's next piece has these bytes, so many lines, and is the last one or not.
fn is_next(
    alloc: Global,
    pieces: &mut Pieces,
    reader: &mut impl Read,
    most: usize,
    expected: (&[u8], usize, bool),
) -> bool {
    let (text, lines, is_last) = expected;
    let Ok(piece) = pieces.next(alloc, reader, most.clamp(1, 1024)) else {
        return false;
    };
    piece.text.as_slice() == text && piece.lines == lines && piece.is_last == is_last
}

/// Whether a reader gives these pieces, the last of which is the input's last.
fn cuts_so(
    alloc: Global,
    reader: &mut impl Read,
    most: usize,
    expected: &[(&'static str, usize)],
) -> bool {
    let Ok(mut pieces) = Pieces::new(alloc) else {
        return false;
    };
    let mut left = expected.len();
    let mut is_right = true;
    for (text, lines) in expected {
        left = left.saturating_sub(1);
        let piece = (text.as_bytes(), *lines, left == 0);
        is_right = is_right && is_next(alloc, &mut pieces, reader, most, piece);
    }
    is_right
}

#[test]
fn pieces_come_as_they_are_read(rt: HostRuntime) {
    for (text, step, most, expected) in ROWS {
        let mut source = source_of(text.as_bytes(), step, 100);
        let is_so = cuts_so(rt.alloc(), &mut source, most, expected);
        assert!(rt; is_so, "{text:?} by {step}, {most}");
    }
}

/// How many lines and bytes a reader's next piece has, and whether it is the last one.
fn counts_of_next(
    alloc: Global,
    pieces: &mut Pieces,
    reader: &mut impl Read,
) -> Result<(usize, usize, bool), JobsFault> {
    let piece = pieces.next(alloc, reader, 1024)?;
    Ok((piece.lines, piece.text.len(), piece.is_last))
}

/// Whether a text of so many lines of two bytes, which is read at once, is cut after 1024 of them,
/// and what follows is handed out without another read, which would fail.
fn cuts_after_most(alloc: Global, text: &[u8], lines: usize) -> bool {
    let mut source = source_of(text, 65_536, 1);
    let Ok(mut pieces) = Pieces::new(alloc) else {
        return false;
    };
    let most = counts_of_next(alloc, &mut pieces, &mut source);
    let mut is_right = most == Ok((1024, 2048, false));
    let more = lines.saturating_sub(1024);
    if more > 0 {
        let counts = (more, more.saturating_mul(2), false);
        is_right = is_right && counts_of_next(alloc, &mut pieces, &mut source) == Ok(counts);
    }
    let end = counts_of_next(alloc, &mut pieces, &mut source);
    is_right && end == Err(JobsFault::Read)
}

#[test]
fn many_lines_are_read_at_once(rt: HostRuntime) -> Result<(), Fail> {
    for lines in [1024, 1025, 2000] {
        let text = "7\n".repeat(rt.alloc(), lines)?;
        let is_cut = cuts_after_most(rt.alloc(), text.as_str().as_bytes(), lines);
        assert!(rt; is_cut, "{lines}");
    }
    Ok(())
}

/// Whether a text has so many pieces before a read of it fails, by three bytes a read, and nothing
/// comes in the place of the fault, then and at the next call.
fn has_pieces_before_fault(alloc: Global, text: &[u8], reads: usize, count: usize) -> bool {
    let mut source = source_of(text, 3, reads);
    let Ok(mut pieces) = Pieces::new(alloc) else {
        return false;
    };
    let mut is_right = true;
    for _ in 0..count {
        is_right = is_right && counts_of_next(alloc, &mut pieces, &mut source).is_ok();
    }
    let found = counts_of_next(alloc, &mut pieces, &mut source);
    let again = counts_of_next(alloc, &mut pieces, &mut source);
    let fault = Err(JobsFault::Read);
    is_right && found == fault && again == fault
}

/// The third read gives no end of a line, but the fourth; the fifth gives a line without one, which
/// is handed out only where the input ends.
#[test]
fn a_failed_read_gives_no_piece(rt: HostRuntime) {
    let text = b"1\n2\n3\n45678\n9";
    for (reads, count) in [(0, 0), (1, 1), (2, 2), (3, 2), (4, 3), (5, 3)] {
        let are_first = has_pieces_before_fault(rt.alloc(), text, reads, count);
        assert!(rt; are_first, "{reads}");
    }
}

/// Whether the first piece of a text is all of it, one line, and whether the input has ended then.
fn is_one_line(alloc: Global, text: &[u8], is_last: bool) -> bool {
    let mut source = source_of(text, 50_000, 9);
    match Pieces::new(alloc) {
        Ok(mut pieces) => { is_next(alloc, &mut pieces, &mut source, 1024, (text, 1, is_last)) }
        Err(_) => false,
    }
}

/// The first fault of an input.
fn first_fault(alloc: Global, reader: &mut impl Read) -> Option<JobsFault> {
    match Pieces::new(alloc) {
        Ok(mut pieces) => counts_of_next(alloc, &mut pieces, reader).err(),
        Err(fault) => Some(fault),
    }
}

/// How many bytes are left of a text, by so many a read, where its first line is refused.
fn left_of_refused(alloc: Global, text: &[u8], step: usize) -> Option<usize> {
    let mut source = source_of(text, step, 200);
    if first_fault(alloc, &mut source) == Some(JobsFault::BadJob { line: 1 }) {
        Some(source.rest.len())
    } else {
        None
    }
}

/// A line of 131,137 bytes is handed out, with or without its end; one of a byte more is refused,
/// where its end was not read yet, and what follows is left.
#[test]
fn a_line_that_is_too_long_is_refused(rt: HostRuntime) -> Result<(), Fail> {
    let alloc = rt.alloc();
    let endless = first_fault(alloc, &mut io::repeat(b'7'));
    let mut line = line_of_digits(alloc, 131_072)?;
    let is_ended = is_one_line(alloc, &line, false);
    let _end = line.pop();
    let is_last = line.len() == 131_137 && is_one_line(alloc, &line, true);
    line.push(b'7')?;
    let left = left_of_refused(alloc, &line, 50_000);
    for _ in 0..9_000 {
        line.push(b'7')?;
    }
    assert!(rt;
        endless == Some(JobsFault::BadJob { line: 1 })
            && is_ended
            && is_last
            && left == Some(0)
            && left_of_refused(alloc, &line, 1_000) == Some(140_138 - 132_000)
    );
    Ok(())
}

/// How many lines the pieces of four lines have, by a line and a half a read.
fn count_lines(alloc: Global) -> Result<usize, JobsFault> {
    let mut source = source_of(b"1\n2\n3\n4\n", 3, 9);
    let mut pieces = Pieces::new(alloc)?;
    let mut lines = 0_usize;
    for _ in 0..9 {
        let (more, _, is_last) = counts_of_next(alloc, &mut pieces, &mut source)?;
        lines = lines.saturating_add(more);
        if is_last {
            return Ok(lines);
        }
    }
    Ok(0)
}

/// The merge check refuses each request for memory in turn: that fault is reported, and what begins
/// anew gets all lines.
#[test]
fn pieces_after_refused_memory(rt: HostRuntime) -> Result<(), Fail> {
    let lines = match count_lines(rt.alloc()) {
        Err(JobsFault::OutOfMemory) => count_lines(rt.alloc()),
        answer => answer,
    };
    assert!(rt; lines == Ok(4));
    Ok(())
}
