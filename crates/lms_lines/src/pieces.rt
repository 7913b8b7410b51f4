//! An input cut into pieces of whole lines, as they come.
ghost use Rattle.std.specs.Prelude.{◌≡◌, ◌⊎◌, ◌<◌, ◌≤◌, ◌++◌, [], List, ℕ, drop, false, length, take, true, IfErr, IfOk, OnOk};
ghost use Rattle.std.specs.Io.KnownBytes.{Consumes, IsAtEnd};
ghost use Rattle.lms_lines.specs.Gathered.{HasNoEnd};
ghost use Rattle.lms_lines.specs.Pieces.{CutsNone, CutsPiece, EndsLine};
ghost use Rattle.lms_lines.specs.TextLines.{lines_of};
ghost use Rattle.lms_lines.specs.declared.fault.JobsFault.TheVariants.{Read as ReadFailed, OutOfMemory};

use crate::fault::JobsFault;
use crate::gathering::line_end;
use crate::job_line::LONGEST_LINE;
use lms_blocks::read_block;
use std::alloc::Global;
use std::io::Read;
use std::marker::Model;
use std::mem;

/// How many bytes are asked for at once.
const BLOCK: usize = 65_536;

/// Lines of an input.
#[derive(Drop)]
pub struct Piece {
    /// Their bytes. Each line ends with LF, which an input's last line may lack.
    pub text: Vec<u8>,
    /// How many lines these are.
    pub lines: usize,
    /// Whether the input ends after them.
    pub is_last: bool,
}

/// Cuts an input into pieces. It holds what was read and not handed out yet, which is what contracts
/// see of it.
#[derive(Drop)]
pub struct Pieces {
    block: Vec<u8>,
    held: Vec<u8>,
}

impl Model for Pieces {
    ghost use Rattle.std.specs.Prelude.{ℕ, List, ◌<◌, vec_len};

    ghost Value = { List ℕ };

    ghost view = { λ pieces. pieces.held.items };

    ghost invariant = { λ pieces. 0 < vec_len pieces.block };
}

impl Pieces {
    /// Pieces of an input, of which it holds nothing yet. `OutOfMemory` where memory is refused.
    pub fn new(alloc: Global) -> Result<Self, JobsFault>
        ensures none { IfOk result (λ pieces. pieces ≡ []) }
        ensures fault { IfErr result (λ fault. fault ≡ OutOfMemory) }
    {
        let block = vec![in alloc; 0u8; BLOCK]?;
        Ok(Pieces {
            block,
            held: Vec::new(alloc),
        })
    }

    /// The lines whose ends were read already, 1 to `most` of them. Only where there is no such
    /// line is more read, by one read after another, until there is one or the input has ended. At
    /// its end this is what is left, one line without LF or nothing.
    ///
    /// `BadJob` with line 1 where more was read of the next line than any job line has, and not its
    /// end. `Read` where the reader failed. `OutOfMemory` where memory is refused: what was read
    /// last may be lost then.
    pub fn next<R: Read>(
        &mut self,
        alloc: Global,
        reader: &mut R,
        most: usize,
    ) -> Result<Piece, JobsFault>
        requires some { 1 ≤ most }
        ensures piece { IfOk result (λ piece.
            CutsPiece self.old (R.remaining reader.old) (R.remaining reader.new) most piece
            self.new) }
        ensures fault { IfErr result
            (CutsNone self.old (R.remaining reader.old) (R.remaining reader.new)) }
    {
        for _turn in 0..LONGEST_LINE + 2 {
            let (end, lines) = end_of_lines(&self.held, most);
            if lines > 0 {
                return self.cut(alloc, end, lines);
            }
            if self.held.len() > LONGEST_LINE {
                return Err(JobsFault::BadJob { line: 1 });
            }
            if self.read_more(reader)? == 0 {
                return Ok(self.rest(alloc));
            }
        }
        unreachable!()
    }

    /// Reads once, adds the bytes to those that it holds, and answers how many these were, 0 only
    /// at the end of the input. `Read` where the reader failed, `OutOfMemory` where memory is
    /// refused.
    fn read_more<R: Read>(&mut self, reader: &mut R) -> Result<usize, JobsFault>
        ensures read { IfOk result (λ count. (bytes : List ℕ)
            × Consumes (R.remaining reader.old) (R.remaining reader.new) bytes
            × (self.new ≡ self.old ++ bytes) × (length bytes ≡ count)) }
        ensures end { IfOk result (λ count. count ≡ 0 → IsAtEnd (R.remaining reader.new)) }
        ensures fault { IfErr result (λ fault. (fault ≡ ReadFailed) ⊎ (fault ≡ OutOfMemory)) }
    {
        let Ok(count) = read_block(reader, self.block.as_mut_slice()) else {
            return Err(JobsFault::Read);
        };
        self.held.extend_from_slice(&self.block[..count])?;
        Ok(count)
    }

    /// Hands out the first `end` bytes, which are so many lines, and holds the others.
    /// `OutOfMemory` where memory is refused.
    fn cut(&mut self, alloc: Global, end: usize, lines: usize) -> Result<Piece, JobsFault>
        requires { end ≤ length self.old }
        ensures text { IfOk result (λ piece. piece.text.items ≡ take end self.old) }
        ensures lines { IfOk result (λ piece. piece.lines ≡ lines) }
        ensures more { IfOk result (λ piece. piece.is_last ≡ false) }
        ensures held { OnOk result (self.new ≡ drop end self.old) }
        ensures fault { IfErr result (λ fault. fault ≡ OutOfMemory) }
    {
        let text = Vec::from_slice(alloc, &self.held[..end])?;
        let rest = Vec::from_slice(alloc, &self.held[end..])?;
        self.held = rest;
        Ok(Piece {
            text,
            lines,
            is_last: false,
        })
    }

    /// Hands out what is left at the end of the input.
    fn rest(&mut self, alloc: Global) -> Piece
        requires { HasNoEnd self.old }
        ensures text { result.text.items ≡ self.old }
        ensures lines { result.lines ≡ length (lines_of self.old) }
        ensures few { result.lines ≤ 1 }
        ensures last { result.is_last ≡ true }
        ensures none { self.new ≡ [] }
    {
        let text = mem::replace(&mut self.held, Vec::new(alloc));
        if text.is_empty() {
            return Piece {
                text,
                lines: 0,
                is_last: true,
            };
        }
        Piece {
            text,
            lines: 1,
            is_last: true,
        }
    }
}

/// Of the first lines that end with LF, at most `most`: how many bytes they have, and how many
/// lines these are.
pub fn end_of_lines(bytes: &[u8], most: usize) -> (usize, usize)
    ensures within { result.0 ≤ length bytes.now }
    ensures lines { result.1 ≡ length (lines_of (take result.0 bytes.now)) }
    ensures most { result.1 ≤ most }
    ensures ends { 1 ≤ result.1 → EndsLine (take result.0 bytes.now) }
    ensures none { result.1 ≡ 0 → result.0 ≡ 0 }
    ensures all { result.1 < most → HasNoEnd (drop result.0 bytes.now) }
{
    let mut end = 0;
    let mut lines = 0;
    while lines < most {
        let Some(at) = line_end(&bytes[end..]) else {
            return (end, lines);
        };
        end += at + 1;
        lines += 1;
    }
    (end, lines)
}
