//! A signature's levels (RFC 8554, 6.2).
ghost use Rattle.std.specs.Prelude.{List, ℕ, ◌≡◌, ◌++◌, [], IfNone, IfOk, IfSome, IsTrue, IsFalse, length};
ghost use Rattle.lms_inspect.specs.Signatures.{IsKeyed, SaysLevels, SaysThrough};
ghost use Rattle.lms_inspect.specs.declared.level.Level.{Level as SaidLevel};
ghost use Rattle.lms_inspect.specs.declared.signature.KeyedLevel.{KeyedLevel as SaidKeyedLevel};

use crate::level::{Level, level_in};
use crate::public_key::KeyParts;
use lms_hss::{LMS_KEY_LEN, MOST_LEVELS};
use lms_params::{OutOfMemory, split_u32};
use std::alloc::Global;

/// What a signature says of a level below the top one: the identifier of its key, which the level
/// above signed, and what its own signature says.
#[derive(Clone, Copy, Debug, PartialEq, Eq)]
pub struct KeyedLevel {
    pub id: [u8; 16],
    pub level: Level,
}

/// What a signature says of its levels: the top one, whose key is not in it, and those below.
#[derive(Drop)]
pub struct SignatureParts {
    pub top: Level,
    pub below: Vec<KeyedLevel>,
}

impl SignatureParts {
    /// The levels of an HSS signature. `None` exactly where the bytes are none of one to eight levels,
    /// each of known typecodes: those of its key, where that is in it. `OutOfMemory` where memory for
    /// the levels is refused.
    pub(crate) fn of(alloc: Global, text: &[u8]) -> Result<Option<Self>, OutOfMemory>
        ensures some { IfOk result (λ found. IfSome found (λ parts.
            SaysLevels parts.top parts.below.items text.now)) }
        ensures none { IfOk result (λ found. IfNone found
            ((top : SaidLevel) (below : List SaidKeyedLevel) → ¬ SaysLevels top below text.now)) }
    {
        let Some((signed_keys, rest)) = split_u32(text) else {
            return Ok(None);
        };
        if signed_keys >= MOST_LEVELS as u32 {
            return Ok(None);
        }
        let Some((top, rest)) = level_in(rest) else {
            return Ok(None);
        };
        match keyed_levels(alloc, rest, signed_keys)? {
            Some(below) => Ok(Some(SignatureParts { top, below })),
            None => Ok(None),
        }
    }
}

/// So many public keys, each with the signature after it, and nothing left over. `None` exactly where
/// the bytes are no such keys and signatures. `OutOfMemory` where memory for the levels is refused.
fn keyed_levels(
    alloc: Global,
    text: &[u8],
    count: u32,
) -> Result<Option<Vec<KeyedLevel>>, OutOfMemory>
    ensures some { IfOk result (λ found. IfSome found (λ levels.
        (length levels.items ≡ count) × SaysThrough levels.items text.now [])) }
    ensures none { IfOk result (λ found. IfNone found ((levels : List SaidKeyedLevel)
        → length levels ≡ count → ¬ SaysThrough levels text.now [])) }
{
    let mut levels = Vec::new(alloc);
    let mut rest = text;
    for _turn in 0..count {
        let Some((level, after)) = keyed_level(rest) else {
            return Ok(None);
        };
        levels.push(level)?;
        rest = after;
    }
    if rest.is_empty() {
        Ok(Some(levels))
    } else {
        Ok(None)
    }
}

/// Cuts off the public key with which the bytes begin, and the signature after it, which has the
/// key's typecodes: what both say, and the bytes after them. `None` exactly where they begin with no
/// such two.
fn keyed_level(text: &[u8]) -> Option<(KeyedLevel, &[u8])>
    ensures some { IfSome result (λ cut. IsKeyed cut.0 text.now cut.1.now) }
    ensures none { IfNone result
        ((level : SaidKeyedLevel) (rest : List ℕ) → ¬ IsKeyed level text.now rest) }
{
    let (key, rest) = text.split_at_checked(LMS_KEY_LEN)?;
    let parts = KeyParts::of(key)?;
    let (level, rest) = level_in(rest)?;
    if level.lms.code() != parts.lms.code() || level.ots.code() != parts.ots.code() {
        return None;
    }
    let id = parts.id;
    Some((KeyedLevel { id, level }, rest))
}
