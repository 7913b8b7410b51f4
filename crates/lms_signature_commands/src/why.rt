//! What is said to who looks on of a signature that is invalid.
ghost use Rattle.std.specs.Prelude.{◌≡◌};

use crate::verdict::Verdict;
use lms_hss::{HSS_KEY_LEN, LMS_KEY_LEN, LmsType, MOST_LEVELS, OtsType};
use lms_params::{lms_sig_len, split_u32};
use lms_world::World;
use std::fmt;

/// The bytes of the number with which a signature begins, and of a typecode.
const NUMBER_LEN: usize = 4;

/// In which way a public key or a signature is not well formed. Levels count from 1, at the top.
#[derive(Clone, Copy)]
enum Flaw {
    /// The public key has so many bytes.
    KeyLength(usize),
    /// It says that it has so many levels.
    Levels(u32),
    /// It has types that are not known.
    KeyTypes,
    /// The signature has so many bytes, and another number by its keys' types.
    Length { has: usize, needs: usize },
    /// It has so many bytes, too few to tell what it needs.
    Short { has: usize, least: usize },
    /// The key of this level, which it signs, has types that are not known.
    SignedTypes(u32),
    /// It says that it has so many levels, and the public key another number.
    SignatureLevels { says: u32, levels: u32 },
    /// At this level it is of other types than the key.
    Types(u32),
    /// At this level it is by a leaf that the tree has not.
    Leaf { level: u32, leaf: u32 },
}

impl fmt::Display for Flaw {
    fn fmt<W: fmt::Write>(&self, f: &mut fmt::Formatter<W>) -> fmt::Result {
        match *self {
            Flaw::KeyLength(has) => {
                write!(f, "the public key has {has} bytes; one has {HSS_KEY_LEN}")
            }
            Flaw::Levels(levels) => {
                write!(
                    f,
                    "the public key says {levels} levels; one has 1 to {MOST_LEVELS}"
                )
            }
            Flaw::KeyTypes => f.write_str("the public key has types that are not known"),
            Flaw::Length { has, needs } => {
                write!(
                    f,
                    "the signature has {has} bytes; one of its levels has {needs}"
                )
            }
            Flaw::Short { has, least } => {
                write!(
                    f,
                    "the signature has {has} bytes; one of its levels has {least} at least"
                )
            }
            Flaw::SignedTypes(level) => {
                write!(
                    f,
                    "the signature's key of level {level} has types that are not known"
                )
            }
            Flaw::SignatureLevels { says, levels } => {
                write!(
                    f,
                    "the signature says {says} levels, and the public key {levels}"
                )
            }
            Flaw::Types(level) => {
                write!(
                    f,
                    "at level {level} the signature is of other types than its key"
                )
            }
            Flaw::Leaf { level, leaf } => {
                write!(
                    f,
                    "at level {level} the signature is by leaf {leaf}, which its tree has not"
                )
            }
        }
    }
}

/// Says what stands behind a verdict: nothing of a valid signature, and of others the first way in
/// which key or signature is not well formed.
pub(crate) fn explain_verdict<W: World>(
    world: &mut W,
    verdict: Verdict,
    public: &[u8],
    signature: &[u8],
)
    ensures unlogged { W.events world.new ≡ W.events world.old }
    ensures same { W.memory world.new ≡ W.memory world.old }
{
    if verdict == Verdict::Valid {
        return;
    }
    match check(public, signature) {
        Ok(()) => world.explain("all are well formed, but not of one another"),
        Err(flaw) => world.explain(flaw),
    }
}

/// Sees that these have the form of a public key and of a signature under it (RFC 8554, 6.1 and 6.2),
/// whatever is hashed.
fn check(public: &[u8], signature: &[u8]) -> Result<(), Flaw> {
    if public.len() != HSS_KEY_LEN {
        return Err(Flaw::KeyLength(public.len()));
    }
    let (levels, top) = split_u32(public).ok_or(Flaw::KeyTypes)?;
    if levels == 0 || levels as usize > MOST_LEVELS {
        return Err(Flaw::Levels(levels));
    }
    if let Some(says) = levels_of(signature) {
        if says != levels {
            return Err(Flaw::SignatureLevels { says, levels });
        }
    }
    let has = signature.len();
    let needs = needed(levels, top, signature)?;
    if has != needs {
        return Err(Flaw::Length { has, needs });
    }
    check_levels(levels, top, signature)
}

/// How many levels a signature says that it has. `None` where it can't have so many.
fn levels_of(signature: &[u8]) -> Option<u32> {
    let (signs, _) = split_u32(signature)?;
    let levels = signs.checked_add(1)?;
    (levels as usize <= MOST_LEVELS).then_some(levels)
}

/// How many bytes a signature has under a key of these levels and this top tree, by the types of the
/// keys that it signs.
fn needed(levels: u32, top: &[u8], signature: &[u8]) -> Result<usize, Flaw> {
    let has = signature.len();
    let mut length = signature_len(top)
        .ok_or(Flaw::KeyTypes)?
        .saturating_add(NUMBER_LEN);
    for level in 1..levels {
        let least = length.saturating_add(LMS_KEY_LEN);
        let key = signature
            .get(length..least)
            .ok_or(Flaw::Short { has, least })?;
        let own = signature_len(key).ok_or(Flaw::SignedTypes(level.saturating_add(1)))?;
        length = least.saturating_add(own);
    }
    Ok(length)
}

/// Sees that a signature of the length that is needed is of so many levels, and that at each level it
/// is of its key's types and by a leaf of its tree.
fn check_levels(levels: u32, top: &[u8], signature: &[u8]) -> Result<(), Flaw> {
    let (signs, rest) = split_u32(signature).ok_or(Flaw::Types(1))?;
    let says = signs.saturating_add(1);
    if says != levels {
        return Err(Flaw::SignatureLevels { says, levels });
    }
    let (mut key, mut rest) = (top, rest);
    for above in 0..levels {
        let level = above.saturating_add(1);
        check_level(level, key, rest)?;
        let own = signature_len(key).ok_or(Flaw::Types(level))?;
        let below = rest.get(own..).unwrap_or(&[]);
        (key, rest) = below.split_at_checked(LMS_KEY_LEN).unwrap_or((below, &[]));
    }
    Ok(())
}

/// Sees that the signature with which these bytes begin is of the types of this key, and by a leaf of
/// its tree (5.4).
fn check_level(level: u32, key: &[u8], text: &[u8]) -> Result<(), Flaw> {
    let types = Flaw::Types(level);
    let (lms, ots) = types_of(key).ok_or(types)?;
    let (leaf, one_time) = split_u32(text).ok_or(types)?;
    let path = one_time.get(ots.sig_len()..).ok_or(types)?;
    let (ots_code, _) = split_u32(one_time).ok_or(types)?;
    let (lms_code, _) = split_u32(path).ok_or(types)?;
    if ots_code != ots.code() || lms_code != lms.code() {
        return Err(types);
    }
    match leaf.checked_shr(lms.height()) {
        Some(0) => Ok(()),
        _ => Err(Flaw::Leaf { level, leaf }),
    }
}

/// How many bytes a signature of a tree has whose public key begins so. `None` where its types are
/// not known.
fn signature_len(key: &[u8]) -> Option<usize> {
    let (lms, ots) = types_of(key)?;
    Some(lms_sig_len(lms, ots))
}

/// The types of a tree whose public key begins so, if they are known.
fn types_of(key: &[u8]) -> Option<(LmsType, OtsType)> {
    let (lms, rest) = split_u32(key)?;
    let (ots, _) = split_u32(rest)?;
    Some((LmsType::from_code(lms)?, OtsType::from_code(ots)?))
}
