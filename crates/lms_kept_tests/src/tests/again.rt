//! Calls that are made a second time where memory is refused.
use crate::tests::{by_lease, check_leaves, kept_text, moved, signed};
use lms_fixtures::Sums;
use lms_hss::{HssKey, verify};
use lms_kept::KeptTrees;
use lms_params::OutOfMemory;
use std::process::Abort;
use std::test::Fail;
use std::thread::Threads;

/// What is kept of the trees by which index 31 is signed with 64 leaves computed, or, where memory is
/// refused, with none, and at the second try with 64.
pub(super) fn text_of_31(
    rt: &(impl Abort + AllocGlobal + Threads + Sync),
    key: HssKey,
) -> Result<Vec<u8>, Fail> {
    let trees = match check_leaves(rt, key, 31, None, 64)? {
        Some(trees) => trees,
        None => check_leaves(rt, key, 31, None, 64)?.ok_or("trees")?,
    };
    match trees.text(rt.alloc()) {
        Ok(text) => Ok(text),
        Err(OutOfMemory) => Ok(trees.text(rt.alloc())?),
    }
}

/// What is kept of the trees of an index, at the first or at the second try.
pub(super) fn kept_at_last(
    rt: &(impl Abort + AllocGlobal + Threads + Sync),
    key: &HssKey,
    at: u64,
) -> Result<Vec<u8>, OutOfMemory> {
    match kept_text(rt, key, at, &Sums::new()) {
        Ok(text) => Ok(text),
        Err(OutOfMemory) => kept_text(rt, key, at, &Sums::new()),
    }
}

/// The signature by an index to which these bytes' trees move at the first or at the second try.
pub(super) fn signed_at_last(
    rt: &(impl Abort + AllocGlobal + Threads + Sync),
    key: &HssKey,
    text: &[u8],
    g: u64,
) -> Result<Option<Vec<u8>>, Fail> {
    let next = match moved(rt, *key, text, g, &Sums::new()) {
        Ok(next) => next,
        Err(OutOfMemory) => moved(rt, *key, text, g, &Sums::new())?,
    };
    match next {
        Some(next) => signed(rt, *key, &next, g),
        None => Err(Fail::from("right nodes")),
    }
}

/// Whether a signature of `abc` is accepted under the public key of a new key's top tree.
fn is_accepted(
    rt: &(impl AllocGlobal + Threads + Sync),
    key: HssKey,
    signature: &[u8],
) -> Result<bool, OutOfMemory> {
    match KeptTrees::top(rt, rt.alloc(), key, &Sums::new()) {
        Ok(top) => Ok(verify(&top.public(), b"abc", signature)),
        Err(OutOfMemory) => Err(OutOfMemory),
    }
}

/// Whether it is, by a top tree that is computed at the first or at the second try.
pub(super) fn is_accepted_at_last(
    rt: &(impl AllocGlobal + Threads + Sync),
    key: &HssKey,
    signature: &[u8],
) -> bool {
    match is_accepted(rt, *key, signature) {
        Err(OutOfMemory) => is_accepted(rt, *key, signature) == Ok(true),
        answer => answer == Ok(true),
    }
}

/// Whether an index, with these bytes, signs so at the first or at the second try.
pub(super) fn signs_so(
    rt: &(impl AllocGlobal + Threads + Sync),
    key: &HssKey,
    g: u64,
    text: &[u8],
    signature: &[u8],
) -> Result<bool, &'static str> {
    let signed = match by_lease(rt, *key, g, Some(text), &Sums::new())? {
        Ok(signed) => Ok(signed),
        Err(OutOfMemory) => by_lease(rt, *key, g, Some(text), &Sums::new())?,
    };
    match signed {
        Ok(signed) => Ok(signed.signature.as_slice() == signature),
        Err(OutOfMemory) => Ok(false),
    }
}
