//! The seed that an option names.
ghost use Rattle.std.specs.Prelude.{◌≡◌, ◌⊎◌, ◌↔◌, ◌<◌, ◌≤◌, ℕ, List, length, take, Err, IfErr, IfNone, IfOk, IfSome, IsTrue};
ghost use Rattle.std.specs.Io.KnownBytes.{Consumes, IsAtEnd};
ghost use Rattle.lms_texts.specs.Seeds.{GivesNoSeed, IsLineEnd, IsNoSeed, IsSeedOf, IsSeedText, ReadsSeed, TakesAtMost, most_read, on_input};

use crate::fault::SeedFault;
use crate::options::read_bytes;
use hex::FromHex;
use lms_blocks::read_block;
use lms_params::HASH_LEN;
use std::io;
use std::io::Read;

/// The option that asks for the input.
const ON_INPUT: &str = "-";

/// The length of a seed's digits.
const DIGITS: usize = 2 * HASH_LEN;

/// One byte more than the digits and LF have.
const MOST_READ: usize = DIGITS + 2;

/// The seed of an option's text: 64 hexadecimal digits in either case, or `-`. For `-` the input
/// has the digits, perhaps LF, and nothing more; no more than 66 bytes of it are read, and no other
/// copy of these is made. Nothing is read where the text is not `-`.
///
/// `Bad` where the text, or for `-` the input, is anything else; `Read` where the input can't be
/// read.
pub fn read_seed<R: Read>(text: &str, input: &mut R) -> Result<[u8; HASH_LEN], SeedFault>
    ensures seed { IfOk result
        (IsSeedOf text.now (R.remaining input.old) (R.remaining input.new)) }
    ensures refused { IfErr result
        (IsNoSeed text.now (R.remaining input.old) (R.remaining input.new)) }
    ensures unread { (input.new ≡ input.old) ⊎ (text.now ≡ on_input) }
{
    if text == ON_INPUT {
        seed_on(input)
    } else {
        read_bytes(text).ok_or(SeedFault::Bad)
    }
}

/// The seed of an input: 64 hexadecimal digits, perhaps LF, and its end. `Bad` where it has
/// anything else, `Read` where it can't be read. It takes no memory.
fn seed_on<R: Read>(input: &mut R) -> Result<[u8; HASH_LEN], SeedFault>
    ensures read { IfOk result (ReadsSeed (R.remaining input.old) (R.remaining input.new)) }
    ensures bad { result ≡ Err SeedFault.Bad → GivesNoSeed (R.remaining input.old) }
    ensures at_most { TakesAtMost most_read (R.remaining input.old) (R.remaining input.new) }
{
    let mut text = [0; MOST_READ];
    let Ok(length) = fill(input, &mut text) else {
        return Err(SeedFault::Read);
    };
    match seed_in(&text[..length]) {
        Some(seed) => Ok(seed),
        None => Err(SeedFault::Bad),
    }
}

/// Reads until the block is full or the reader at its end, and answers how many bytes that were. An
/// error is the reader's own; bytes may be read before it.
fn fill<R: Read>(reader: &mut R, block: &mut [u8]) -> io::Result<usize>
    ensures bound { IfOk result (λ n. n ≤ length block.new) }
    ensures bytes { IfOk result (λ n.
        Consumes (R.remaining reader.old) (R.remaining reader.new) (take n block.new)) }
    ensures end { IfOk result (λ n. n < length block.new → IsAtEnd (R.remaining reader.new)) }
    ensures at_most { TakesAtMost (length block.old)
        (R.remaining reader.old) (R.remaining reader.new) }
{
    let mut filled = 0;
    while filled < block.len() {
        let count = read_block(reader, &mut block[filled..])?;
        if count == 0 {
            return Ok(filled);
        }
        filled += count;
    }
    Ok(filled)
}

/// The seed of an input's text, which is 64 hexadecimal digits and perhaps LF. `None` exactly where
/// it is no such text.
fn seed_in(text: &[u8]) -> Option<[u8; HASH_LEN]>
    ensures some { IfSome result (IsSeedText text.now) }
    ensures none { IfNone result ((seed : List ℕ) → ¬ IsSeedText text.now seed) }
{
    if text.len() < DIGITS {
        return None;
    }
    let (digits, ending) = text.split_at(DIGITS);
    if !is_line_end(ending) {
        return None;
    }
    <[u8; HASH_LEN] as FromHex>::from_hex(digits).ok()
}

/// Whether the bytes are nothing, or LF.
fn is_line_end(bytes: &[u8]) -> bool
    ensures { IsTrue result ↔ IsLineEnd bytes.now }
{
    match bytes {
        [] => true,
        [last] => *last == b'\n',
        _ => false,
    }
}
