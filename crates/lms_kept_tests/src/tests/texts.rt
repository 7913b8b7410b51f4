//! Which bytes are read.
use crate::tests::{LEVEL, flip, kept_text, takes, text_of};
use lms_fixtures::{Sums, key_of};
use lms_hss::{HssKey, Levels};
use lms_kept::KeptTrees;
use lms_params::{LmsType, OtsType};
use std::alloc::Global;
use std::test::Fail;

/// The last length below their own to which these bytes are cut and taken, or memory is refused.
fn taken_cut(alloc: Global, key: &HssKey, text: &[u8]) -> Option<usize> {
    let mut taken = None;
    for length in 0..text.len() {
        if !takes(alloc, key, text.get(..length).unwrap_or(&[]), false) {
            taken = Some(length);
        }
    }
    taken
}

/// The last byte with whose lowest bit changed these bytes are taken, or memory is refused.
fn taken_change(alloc: Global, key: &HssKey, text: &mut [u8]) -> Option<usize> {
    let mut taken = None;
    for at in 0..text.len() {
        flip(text, at, 1);
        if !takes(alloc, key, text, false) {
            taken = Some(at);
        }
        flip(text, at, 1);
    }
    taken
}

/// The bytes kept for index 40 of 5/8,5/8: 16 bytes; 64 nodes of the top tree; a signed key of 1348
/// bytes and 64 nodes of the bottom tree; 32 bytes.
#[test]
fn takes_its_own_text_alone(rt: HostRuntime) -> Result<(), Fail> {
    let key = key_of(&[LEVEL; 2], 0x11)?;
    let mut text = kept_text(&rt, &key, 40, &Sums::new())?;
    let is_right = text.len() == 16 + 64 * 32 + (1348 + 64 * 32) + 32
        && text.starts_with(b"HSSN\0\0\0\x01\0\0\0\0\0\0\0\x28")
        && takes(rt.alloc(), &key, &text, true);
    let cut = taken_cut(rt.alloc(), &key, &text);
    let change = taken_change(rt.alloc(), &key, &mut text);
    text.push(0)?;
    assert!(rt;
        is_right && cut.is_none() && change.is_none() && takes(rt.alloc(), &key, &text, false),
        "{cut:?} {change:?}"
    );
    Ok(())
}

/// Levels, and a byte of the seed and one of the identifier, of the key of 5/8,5/8 and of keys that
/// differ from it in the seed, the identifier, the number of levels, or the sets of one.
const KEYS: [(&[(LmsType, OtsType)], u8, u8, bool); 7] = [
    (&[LEVEL; 2], 0x11, 0x22, true),
    (&[LEVEL; 2], 0x12, 0x22, false),
    (&[LEVEL; 2], 0x11, 0x23, false),
    (&[LEVEL], 0x11, 0x22, false),
    (&[LEVEL; 3], 0x11, 0x22, false),
    (&[(LmsType::H5, OtsType::W4), LEVEL], 0x11, 0x22, false),
    (&[LEVEL, (LmsType::H5, OtsType::W4)], 0x11, 0x22, false),
];

/// The last seed and identifier in `KEYS` of a key that takes these bytes where it should not, or
/// does not where it should.
fn wrong_key(alloc: Global, text: &[u8]) -> Option<(u8, u8)> {
    let mut wrong = None;
    for (levels, seed, id, is_own) in KEYS {
        let is_right = match Levels::new(levels) {
            Ok(levels) => takes(
                alloc,
                &HssKey::new(levels, [seed; 32], [id; 16]),
                text,
                is_own,
            ),
            Err(_) => false,
        };
        if !is_right {
            wrong = Some((seed, id));
        }
    }
    wrong
}

#[test]
fn takes_no_text_of_another_key(rt: HostRuntime) -> Result<(), Fail> {
    let key = key_of(&[LEVEL; 2], 0x11)?;
    let whole = wrong_key(rt.alloc(), &kept_text(&rt, &key, 0, &Sums::new())?);
    let top = KeptTrees::top(&rt, rt.alloc(), key, &Sums::new())?;
    let top = wrong_key(rt.alloc(), &text_of(rt.alloc(), Some(top))?);
    assert!(rt; whole.is_none() && top.is_none(), "{whole:?} {top:?}");
    Ok(())
}
