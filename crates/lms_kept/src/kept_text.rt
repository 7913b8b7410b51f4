//! The bytes of kept nodes: their header, and the check value at their end.
ghost use Rattle.std.specs.Prelude.{ℕ, ◌≡◌, ◌^◌, ◌<◌, ◌≤◌, ◌++◌, List, length, IfOk, IfSome, IfNone};
ghost use Rattle.sha2.specs.Hashers.{Holds256};
ghost use Rattle.lms_spec.specs.Bytes.{u32str, u64str};
ghost use Rattle.lms_spec.specs.Hss.{most_levels};
ghost use Rattle.lms_hss.specs.Keys.{hss_key_of};
ghost use Rattle.lms_hss.specs.Levels.{levels_of};
ghost use Rattle.lms_kept.specs.Ways.{check_of, nodes_header, sets_text};

use lms_hss::{HssKey, nodes_secret};
use lms_params::{HASH_LEN, LmsType, OtsType, OutOfMemory, split_u32, split_u64};
use sha2::{Digest, Sha256};
use std::alloc::Global;

/// The most bytes that are kept of any key.
pub const MOST_TEXT_LEN: usize = 0x60_0000;

/// The first four bytes, `HSSN`.
const WORD: u32 = 0x4853_534e;

/// The format's version.
const VERSION: u32 = 1;

/// The length of the header.
pub(crate) const HEADER_LEN: usize = 16;

/// The length of the check value.
pub(crate) const CHECK_LEN: usize = 32;

/// The header: a word, the version, and an index.
#[derive(Clone, Copy)]
struct Numbers {
    word: u32,
    version: u32,
    at: u64,
}

/// The header for an index, `HEADER_LEN` bytes, with memory for `capacity` bytes in all.
/// `OutOfMemory` where memory is refused.
pub(crate) fn header(alloc: Global, at: u64, capacity: usize) -> Result<Vec<u8>, OutOfMemory>
    ensures { IfOk result (λ text. text.items ≡ nodes_header at) }
{
    let mut text = Vec::with_capacity(alloc, capacity)?;
    text.extend_from_slice(&WORD.to_be_bytes())?;
    text.extend_from_slice(&VERSION.to_be_bytes())?;
    text.extend_from_slice(&at.to_be_bytes())?;
    Ok(text)
}

/// The check value of `body`, all bytes before it. The typecodes of the key's levels are hashed
/// with them.
pub(crate) fn check_value(key: &HssKey, body: &[u8]) -> [u8; HASH_LEN]
    ensures { result ≡ check_of (hss_key_of key.now) body.now }
{
    let mut text_hasher = hasher_of_sets(key.levels.as_slice());
    text_hasher.update(body);
    let mut hasher = Sha256::new();
    hasher.update(nodes_secret(&key.tree_key(0, 0)));
    hasher.update(text_hasher.finalize());
    hasher.finalize()
}

/// A hasher that has taken the typecodes of these levels.
fn hasher_of_sets(levels: &[(LmsType, OtsType)]) -> Sha256
    requires { length levels.now ≤ most_levels }
    ensures { Holds256 result (sets_text (levels_of levels.now)) }
{
    let mut hasher = Sha256::new();
    hasher.update((levels.len() as u32).to_be_bytes());
    for (lms, ots) in levels {
        hasher.update(lms.code().to_be_bytes());
        hasher.update(ots.code().to_be_bytes());
    }
    hasher
}

/// The index in the header and what is between the header and the check value. `None` exactly where
/// the header or the check value is wrong.
pub(crate) fn checked_rest<'a>(key: &HssKey, text: &'a [u8]) -> Option<(u64, &'a [u8])>
    ensures some { IfSome result (λ r.
        text.now ≡ (nodes_header r.0 ++ r.1.now)
        ++ check_of (hss_key_of key.now) (nodes_header r.0 ++ r.1.now)) }
    ensures fits { IfSome result (λ r. r.0 < 2 ^ 64) }
    ensures none { IfNone result ((at : ℕ) (rest : List ℕ) → at < 2 ^ 64
        → ¬
        (text.now ≡ (nodes_header at ++ rest)
        ++ check_of (hss_key_of key.now) (nodes_header at ++ rest))) }
{
    let body = checked_body(key, text)?;
    split_header(body)
}

/// What is before the check value. `None` where that is wrong.
fn checked_body<'a>(key: &HssKey, text: &'a [u8]) -> Option<&'a [u8]>
    ensures some { IfSome result (λ body.
        text.now ≡ body.now ++ check_of (hss_key_of key.now) body.now) }
    ensures none { IfNone result
        ((body : List ℕ) → ¬ (text.now ≡ body ++ check_of (hss_key_of key.now) body)) }
{
    let (body, check) = text.split_at_checked(text.len().checked_sub(CHECK_LEN)?)?;
    if check == check_value(key, body).as_slice() {
        Some(body)
    } else {
        None
    }
}

/// The index in the header, and what is after it. `None` where there is no such header.
fn split_header(body: &[u8]) -> Option<(u64, &[u8])>
    ensures some { IfSome result (λ r. body.now ≡ nodes_header r.0 ++ r.1.now) }
    ensures fits { IfSome result (λ r. r.0 < 2 ^ 64) }
    ensures none { IfNone result
        ((at : ℕ) (rest : List ℕ) → at < 2 ^ 64 → ¬ (body.now ≡ nodes_header at ++ rest)) }
{
    let (numbers, rest) = split_numbers(body)?;
    if numbers.word != WORD {
        return None;
    }
    if numbers.version != VERSION {
        return None;
    }
    Some((numbers.at, rest))
}

/// The numbers of the header, and what is after them. `None` where there are fewer than 16 bytes.
fn split_numbers(text: &[u8]) -> Option<(Numbers, &[u8])>
    ensures some { IfSome result (λ r.
        text.now ≡ u32str r.0.word ++ (u32str r.0.version ++ (u64str r.0.at ++ r.1.now))) }
    ensures fits { IfSome result (λ r. r.0.at < 2 ^ 64) }
    ensures none { IfNone result (length text.now < 16) }
{
    let (word, rest) = split_u32(text)?;
    let (version, rest) = split_u32(rest)?;
    let (at, rest) = split_u64(rest)?;
    Some((Numbers { word, version, at }, rest))
}
