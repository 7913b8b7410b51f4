//! The text of a witness: a line that says of a key below which index all are used.
ghost use Rattle.std.specs.Prelude.{◌≡◌, ◌≢◌, ◌<◌, ◌^◌, ℕ, IfNone, IfSome, OnOk, ◌++◌, codes, decimal};
ghost use Rattle.std.specs.Io.KnownBytes.{Appends};
ghost use Rattle.lms_texts.specs.Witnesses.{witness_head, witness_text};

use lms_blocks::{WriteFault, print_line, write_bytes};
use std::io::Write;
use std::str;

/// How many bytes come before the identifier, how many spell it, and how many come before the
/// number in all.
const BEFORE: usize = 8;

const DIGITS: usize = 32;

const HEAD: usize = 68;

/// Prints the line of a witness: that of the key of this identifier all indices below `counter` are
/// used. On a fault, a beginning of it was written.
pub fn print_witness<O: Write>(
    output: &mut O,
    id: &[u8; 16],
    counter: u64,
) -> Result<(), WriteFault>
    ensures printed { OnOk result (Appends (O.contents output.old) (O.contents output.new)
        (witness_text id.now counter)) }
{
    let head = head_of(id);
    write_bytes(output, &head)?;
    print_line(output, format_args!("{counter}"))
}

/// Below which index all are used, as the text of a witness of the key of this identifier says.
/// `None` exactly where the text is none of such a witness.
pub fn witness_counter(text: &[u8], id: &[u8; 16]) -> Option<u64>
    ensures some { IfSome result (λ counter. text.now ≡ witness_text id.now counter) }
    ensures none { IfNone result
        ((counter : ℕ) → counter < 2 ^ 64 → text.now ≢ witness_text id.now counter) }
{
    if text.len() < HEAD {
        return None;
    }
    let (front, rest) = text.split_at(HEAD);
    if front != head_of(id).as_slice() {
        return None;
    }
    line_number(rest)
}

/// How the line of a witness begins.
fn head_of(id: &[u8; 16]) -> [u8; HEAD]
    ensures { result ≡ witness_head id.now }
{
    let mut head = *b"HSS key 00000000000000000000000000000000 has used all indices below ";
    let Ok(()) = hex::encode_to_slice(id, &mut head[BEFORE..BEFORE + DIGITS]) else {
        unreachable!()
    };
    head
}

/// The number of a line that has nothing else, in decimal without leading zeros, with LF. `None`
/// exactly where it is the line of no number below 2^64.
fn line_number(line: &[u8]) -> Option<u64>
    ensures some { IfSome result (λ number. line.now ≡ decimal number ++ codes "\n") }
    ensures none { IfNone result
        ((number : ℕ) → number < 2 ^ 64 → line.now ≢ decimal number ++ codes "\n") }
{
    let (end, digits) = line.split_last()?;
    if *end != b'\n' {
        return None;
    }
    match str::from_utf8(digits) {
        Ok(digits) => decimal_number(digits),
        Err(_) => None,
    }
}

/// The number of a text that is one in decimal without leading zeros. `None` exactly where it is that
/// of no number below 2^64.
pub fn decimal_number(text: &str) -> Option<u64>
    ensures some { IfSome result (λ number. text.now ≡ decimal number) }
    ensures none { IfNone result ((number : ℕ) → number < 2 ^ 64 → text.now ≢ decimal number) }
{
    if text == "0" {
        return Some(0);
    }
    // A sign and a zero are below the other digits.
    let first = text.as_bytes().first()?;
    if *first <= b'0' {
        return None;
    }
    text.parse::<u64>().ok()
}
