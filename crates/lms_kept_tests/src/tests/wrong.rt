//! Bytes with the right check value and wrong nodes, as only a holder of the seed can make them.
use crate::tests::{
    QUICK, TALL_ABOVE, expected, flip, kept_text, moved, signed, taken, takes, text_of,
};
use lms_fixtures::{Sums, key_of};
use lms_hss::{HssKey, verify};
use lms_params::OutOfMemory;
use sha2::{Digest, Sha256};
use std::alloc::Global;
use std::process::Abort;
use std::test::Fail;
use std::thread::Threads;

/// Where the nodes of the top tree begin.
const TOP: usize = 16;

/// What the check value of these keys is made with: the value derived at leaf 0 under the number
/// 0xfffc.
fn secret() -> [u8; 32] {
    let mut hasher = Sha256::new();
    hasher.update([0x22; 16]);
    hasher.update([0, 0, 0, 0, 0xff, 0xfc, 0xff]);
    hasher.update([0x11; 32]);
    hasher.finalize()
}

/// The hash of the typecodes of a key's levels, and of the bytes before the check value.
fn digest(key: &HssKey, body: &[u8]) -> [u8; 32] {
    let levels = key.levels.as_slice();
    let mut hasher = Sha256::new();
    hasher.update((levels.len() as u32).to_be_bytes());
    for (lms, ots) in levels {
        hasher.update(lms.code().to_be_bytes());
        hasher.update(ots.code().to_be_bytes());
    }
    hasher.update(body);
    hasher.finalize()
}

/// Makes the check value, at the end of the bytes, the right one for those before it.
fn check_again(key: &HssKey, text: &mut [u8]) {
    let length = text.len().saturating_sub(32);
    let (body, check) = text.split_at_mut(length);
    let mut hasher = Sha256::new();
    hasher.update(secret());
    hasher.update(digest(key, body));
    if check.len() == 32 {
        check.copy_from_slice(&hasher.finalize());
    }
}

/// The 32 bytes from a place on.
fn at(text: &[u8], start: usize) -> [u8; 32] {
    let mut value = [0; 32];
    if let Some(part) = text.get(start..start.saturating_add(32)) {
        value.copy_from_slice(part);
    }
    value
}

/// Sets them.
fn set(text: &mut [u8], start: usize, value: &[u8; 32]) {
    if let Some(part) = text.get_mut(start..start.saturating_add(32)) {
        part.copy_from_slice(value);
    }
}

/// Changes the lowest bit of each of them.
fn change(text: &mut [u8], start: usize) {
    let changed = at(text, start).map(|byte| byte ^ 1);
    set(text, start, &changed);
}

/// A node over its two children (RFC 8554, 5.3).
fn node(r: u32, left: &[u8; 32], right: &[u8; 32]) -> [u8; 32] {
    let mut hasher = Sha256::new();
    hasher.update([0x22; 16]);
    hasher.update(r.to_be_bytes());
    hasher.update([0x83, 0x83]);
    hasher.update(left);
    hasher.update(right);
    hasher.finalize()
}

/// Where node r of a top tree of height 5 is kept: after the root, which is there once more.
fn place(r: u32) -> usize {
    TOP.saturating_add(32)
        .saturating_add(32 * (r as usize).saturating_sub(1))
}

/// Changes the node of leaf 1 of a top tree of height 5, and all nodes above it with it.
fn change_consistently(key: &HssKey, text: &mut [u8]) {
    change(text, place(33));
    for r in [16, 8, 4, 2, 1] {
        let value = node(r, &at(text, place(2 * r)), &at(text, place(2 * r + 1)));
        set(text, place(r), &value);
    }
    let root = at(text, place(1));
    set(text, TOP, &root);
    check_again(key, text);
}

/// The signature of `abc` by what these bytes keep, which the key takes, or none where it is not
/// accepted.
fn signed_by(
    rt: &(impl Abort + AllocGlobal),
    key: HssKey,
    text: &[u8],
    g: u64,
) -> Result<Option<Vec<u8>>, Fail> {
    match taken(rt, &key, text) {
        Ok(trees) => signed(rt, key, &trees, g),
        Err(fault) => Err(fault),
    }
}

/// A changed node in a leaf's path makes its signature one that is not accepted, and so none; by
/// other leaves it plays no part.
#[test]
fn gives_no_signature_by_a_changed_node(rt: HostRuntime) -> Result<(), Fail> {
    let key = key_of(&[QUICK], 0x11)?;
    let mut text = kept_text(&rt, &key, 0, &Sums::new())?;
    change(&mut text, place(33));
    check_again(&key, &mut text);
    assert!(rt;
        signed_by(&rt, key, &text, 0)?.is_none()
            && signed_by(&rt, key, &text, 2)? == Some(expected(&rt, key, 2)?)
    );
    Ok(())
}

/// What is kept for index 0 of a key, with leaf 1 of its top tree and all nodes above it changed.
fn changed_text(
    rt: &(impl Abort + AllocGlobal + Threads + Sync),
    key: &HssKey,
) -> Result<Vec<u8>, OutOfMemory> {
    let mut text = kept_text(rt, key, 0, &Sums::new())?;
    change_consistently(key, &mut text);
    Ok(text)
}

/// The signature of `abc` by an index and wrong nodes, which these bytes keep and which give one, and
/// that by right ones.
fn both(
    rt: &(impl Abort + AllocGlobal + Threads + Sync),
    key: &HssKey,
    text: &[u8],
    g: u64,
) -> Result<(Vec<u8>, Vec<u8>), Fail> {
    let right = expected(rt, *key, g)?;
    match signed_by(rt, *key, text, g)? {
        Some(wrong) => Ok((wrong, right)),
        None => Err(Fail::from("a signature under the changed root")),
    }
}

/// Whether a signature is one of `abc` under this public key and not under another.
fn is_under(public: &[u8; 60], other: &[u8; 60], signature: &[u8]) -> bool {
    verify(public, b"abc", signature) && !verify(other, b"abc", signature)
}

/// Whether each signature is one of `abc` under its own public key alone, and they are the same up
/// to the path, which begins after 4 + 4 + 4292 + 4 bytes.
fn are_under(public: &[u8; 60], changed: &[u8; 60], wrong: &[u8], right: &[u8]) -> bool {
    changed != public
        && is_under(changed, public, wrong)
        && is_under(public, changed, right)
        && wrong.len() == right.len()
        && wrong.get(..4304) == right.get(..4304)
}

/// The public key of the trees that these bytes keep.
fn public_of(rt: &impl AllocGlobal, key: &HssKey, text: &[u8]) -> Result<[u8; 60], Fail> {
    match taken(rt, key, text) {
        Ok(trees) => Ok(trees.public()),
        Err(fault) => Err(fault),
    }
}

/// Where all nodes above are changed with it, the worst is a signature that the key's public key
/// refuses.
#[test]
fn signs_what_is_refused_at_worst(rt: HostRuntime) -> Result<(), Fail> {
    let key = key_of(&[QUICK], 0x11)?;
    let public = key.public_key(&rt, rt.alloc())?;
    let text = changed_text(&rt, &key)?;
    let changed = public_of(&rt, &key, &text)?;
    let signatures = both(&rt, &key, &text, 0)?;
    assert!(rt; are_under(&public, &changed, &signatures.0, &signatures.1));
    Ok(())
}

/// Whether two signatures differ in the path of the upper tree alone.
fn differ_in_path(wrong: &[u8], right: &[u8]) -> bool {
    wrong.len() == right.len()
        && wrong != right
        && wrong.get(..4304) == right.get(..4304)
        && wrong.get(4464..) == right.get(4464..)
}

/// A tree that is computed below a leaf of a changed tree has its own public key signed, by the
/// same one-time signature as ever: only the path above it is another one.
#[test]
fn signs_the_same_public_keys_at_worst(rt: HostRuntime) -> Result<(), Fail> {
    let key = key_of(&[QUICK; 2], 0x11)?;
    // Index 64 goes through leaf 2 of the top tree, which has node 16, over the changed leaf, in
    // its path.
    let moved = moved(&rt, key, &changed_text(&rt, &key)?, 64, &Sums::new())?;
    let text = text_of(rt.alloc(), moved)?;
    let signatures = both(&rt, &key, &text, 64)?;
    assert!(rt; differ_in_path(&signatures.0, &signatures.1));
    Ok(())
}

/// Whether trees go on to an index or, where they are not to, do not.
fn goes_on(
    rt: &(impl Abort + AllocGlobal + Threads + Sync),
    key: HssKey,
    text: &[u8],
    g: u64,
    is_right: bool,
) -> bool {
    match moved(rt, key, text, g, &Sums::new()) {
        Ok(trees) => trees.is_some() == is_right,
        Err(OutOfMemory) => false,
    }
}

/// In an upper tree of height 15 a changed root of the bottom subtree to go on to is found.
#[test]
fn goes_on_to_no_other_subtree(rt: HostRuntime) -> Result<(), Fail> {
    let key = key_of(&TALL_ABOVE, 0x11)?;
    let mut text = kept_text(&rt, &key, 0, &Sums::new())?;
    // Node 33 is the root of the second bottom subtree, whose first leaf index 32768 goes through.
    change(&mut text, TOP + 32 * 32);
    check_again(&key, &mut text);
    assert!(rt; goes_on(&rt, key, &text, 32768, false) && goes_on(&rt, key, &text, 131072, true));
    Ok(())
}

/// The last of these changed bytes with which, and the right check value, the key takes a text
/// though it is changed, or does not though it is not, or memory is refused.
fn wrong_change(alloc: Global, key: &HssKey, text: &mut [u8]) -> Option<usize> {
    let mut wrong = None;
    for (place, bits) in [(0, 0), (0, 4), (3, 4), (4, 4), (7, 4), (8, 4), (13, 4)] {
        flip(text, place, bits);
        check_again(key, text);
        if !takes(alloc, key, text, bits == 0) {
            wrong = Some(place);
        }
        flip(text, place, bits);
    }
    wrong
}

/// Whether the key takes so many of these bytes once their check value is made anew or, where they
/// are not to be taken, does not.
fn takes_first(alloc: Global, key: &HssKey, text: &[u8], length: usize, is_form: bool) -> bool {
    match Vec::from_slice(alloc, text.get(..length).unwrap_or(&[])) {
        Ok(mut other) => {
            check_again(key, &mut other);
            other.len() == length && takes(alloc, key, &other, is_form)
        }
        Err(_) => false,
    }
}

/// The last length of these to which a text is cut, and taken though it should not be or not taken
/// though it should be, or memory is refused.
fn wrong_length(alloc: Global, key: &HssKey, text: &[u8]) -> Option<usize> {
    let mut wrong = None;
    // 16 bytes and those of the top tree, each with 32 bytes for the check value.
    for (length, is_form) in [
        (16 + 32, false),
        (16 + 1024 + 32, false),
        (16 + 2048 + 32, true),
        (16 + 2049 + 32, false),
        (text.len(), false),
    ] {
        if !takes_first(alloc, key, text, length, is_form) {
            wrong = Some(length);
        }
    }
    wrong
}

/// Other first bytes, another version, an index past the last one, no level, half of one, and more
/// bytes than its levels have, each with the right check value.
#[test]
fn takes_no_other_form(rt: HostRuntime) -> Result<(), Fail> {
    let key = key_of(&[QUICK; 2], 0x11)?;
    let mut text = kept_text(&rt, &key, 0, &Sums::new())?;
    let place = wrong_change(rt.alloc(), &key, &mut text);
    text.push(0)?;
    let length = wrong_length(rt.alloc(), &key, &text);
    assert!(rt; place.is_none() && length.is_none(), "{place:?} {length:?}");
    Ok(())
}
