//! What signs the indices of a key.
use crate::tests::moves::covered;
use crate::tests::{LEVEL, QUICK, RANDOMIZER, is_accepted, signed, vectors};
use hex::FromHex;
use lms_fixtures::{Sums, forest_of, key_of, signature_of};
use lms_hss::{Forest, HssKey, Levels};
use lms_params::{LmsType, OtsType, OutOfMemory};
use lms_slow::vectors::Vector;
use std::process::Abort;
use std::test::Fail;
use std::thread::Threads;

/// An index that a forest covers signs as the slow signer does, and the signature is accepted for
/// its message alone.
fn check_index(
    rt: &(impl Abort + AllocGlobal),
    forest: &Forest,
    levels: &[(LmsType, OtsType)],
    g: u64,
) -> Result<Vec<u8>, Fail> {
    let signature = signature_of(forest, g, &RANDOMIZER, b"abc")?;
    let slow = signed(rt, levels, g, b"abc")?;
    assert!(rt;
        signature == slow.signature
            && forest.public().as_slice() == slow.public.as_slice()
            && is_accepted(&slow.public, &signature),
        "{g}"
    );
    Ok(signature)
}

/// Whether two signatures of two levels have the same signature of the upper level in them, with
/// the same key of the bottom level, or, where `is_same` is false, another one with another key.
fn is_below(signature: &[u8], other: &[u8], is_same: bool) -> bool {
    (signature.get(4..1352) == other.get(4..1352)) == is_same
        && (signature.get(1296..1352) == other.get(1296..1352)) == is_same
}

#[test]
fn signs_through_two_levels(rt: HostRuntime) -> Result<(), Fail> {
    let forest = forest_of(&rt, key_of(&[LEVEL; 2], 0x11)?, 0, 1024)?;
    let first = signature_of(&forest, 0, &RANDOMIZER, b"abc")?;
    assert!(rt; forest.covers(0) && forest.covers(1023) && !forest.covers(1024));
    for (g, is_same) in [(0, true), (31, true), (32, false), (1023, false)] {
        let signature = check_index(&rt, &forest, &[LEVEL; 2], g)?;
        assert!(rt; is_below(&signature, &first, is_same), "{g}");
    }
    Ok(())
}

/// Levels, the first index and the number of the indices that are covered, and one that signs.
const COVERED: [(&[(LmsType, OtsType)], u64, u64, u64); 2] = [
    (&[LEVEL, (LmsType::H5, OtsType::W4), QUICK], 1024, 2, 1025),
    (&[(LmsType::H10, OtsType::W4), LEVEL], 22400, 32, 22409),
];

#[test]
fn signs_through_levels_of_different_sets(rt: HostRuntime) -> Result<(), Fail> {
    for (levels, start, len, g) in COVERED {
        let forest = forest_of(&rt, key_of(levels, 0x11)?, start, len)?;
        let _signature = check_index(&rt, &forest, levels, g)?;
    }
    Ok(())
}

/// Whether the signature by an index that a forest covers has this length and is accepted.
fn has_length(forest: &Forest, g: u64, length: usize) -> Result<bool, &'static str> {
    let signature = signature_of(forest, g, &RANDOMIZER, b"abc")?;
    Ok(signature.len() == length && is_accepted(&forest.public(), &signature))
}

/// Some indices are covered, with none beside them, and the first and the last of them sign, under
/// the key's public key, which the forest has, too.
fn check_ends(
    rt: &(impl Abort + AllocGlobal + Threads + Sync),
    key: HssKey,
    start: u64,
    len: u64,
) -> Result<(), Fail> {
    let public = key.public_key(rt, rt.alloc())?;
    let forest = forest_of(rt, key, start, len)?;
    let end = start.saturating_add(len);
    assert!(rt;
        forest.public() == public
            && !forest.covers(start.wrapping_sub(1))
            && !forest.covers(end)
            && has_length(&forest, start, key.sig_len())?
            && has_length(&forest, end.saturating_sub(1), key.sig_len())?,
        "{start} {len}"
    );
    Ok(())
}

/// Levels, and the first index and the number of the indices that are covered: the last index of
/// levels of all widths; eight levels; and two levels where leaf 1023 of the top tree is the last
/// of a bottom subtree, leaf 1024 the first of the next.
const ENDS: [(&[(LmsType, OtsType)], u64, u64); 3] = [
    (
        &[
            (LmsType::H5, OtsType::W1),
            (LmsType::H5, OtsType::W2),
            (LmsType::H5, OtsType::W4),
            LEVEL,
        ],
        1048575,
        1,
    ),
    (&[LEVEL; 8], 34359738367, 2),
    (
        &[(LmsType::H15, OtsType::W2), (LmsType::H5, OtsType::W4)],
        32767,
        2,
    ),
];

#[test]
fn signs_by_the_first_and_the_last(rt: HostRuntime) -> Result<(), Fail> {
    for (levels, start, len) in ENDS {
        check_ends(&rt, key_of(levels, 0x11)?, start, len)?;
    }
    Ok(())
}

/// The last indices of a key, so many of them, are covered, and the first and the last of these
/// sign.
fn check_last(
    rt: &(impl Abort + AllocGlobal + Threads + Sync),
    levels: &[(LmsType, OtsType)],
    len: u64,
) -> Result<(), Fail> {
    let key = key_of(levels, 0x11)?;
    check_ends(rt, key, key.capacity().saturating_sub(len), len)
}

#[test]
fn signs_through_each_number_of_levels(rt: HostRuntime) -> Result<(), Fail> {
    for levels in 1..9 {
        check_last(&rt, &[QUICK; 8][..levels], 2)?;
    }
    Ok(())
}

/// Twenty lengths, from 17 to 1024.
#[test]
fn covers_many_indices(rt: HostRuntime) -> Result<(), Fail> {
    for len in (17..1025).step_by(53) {
        check_last(&rt, &[QUICK; 2], len)?;
    }
    Ok(())
}

/// The public key and the signature are those of another implementation.
fn check_vector(
    rt: &(impl Abort + AllocGlobal + Threads + Sync),
    vector: Vector,
) -> Result<(), Fail> {
    let seed = FromHex::from_hex(vector.seed)?;
    let id = FromHex::from_hex(vector.id)?;
    let randomizer = FromHex::from_hex(vector.randomizer)?;
    let key = HssKey::new(Levels::new(vector.levels)?, seed, id);
    let public = key.public_key(rt, rt.alloc())?;
    let (g, message) = (vector.index, vector.message);
    let forest = forest_of(rt, key, g, 1)?;
    let signature = signature_of(&forest, g, &randomizer, message.as_bytes())?;
    drop(forest);
    let expected = hex::decode(rt.alloc(), vector.signature)?;
    let expected_public = hex::decode(rt.alloc(), vector.public)?;
    assert!(rt;
        public.as_slice() == expected_public.as_slice() && signature == expected,
        "{message:?}"
    );
    Ok(())
}

#[test]
fn signs_as_another_implementation(rt: HostRuntime) -> Result<(), Fail> {
    for vector in vectors() {
        check_vector(&rt, vector)?;
    }
    Ok(())
}

/// The merge check refuses each request for memory in turn: where a call is refused, a second one
/// works. `forest_of` and `signature_of` make the second calls.
#[test]
fn covers_and_signs_after_refused_memory(rt: HostRuntime) -> Result<(), Fail> {
    let key = key_of(&[(LmsType::H5, OtsType::W1); 2], 0x11)?;
    let forest = forest_of(&rt, key, 31, 2)?;
    let signature = signature_of(&forest, 32, &RANDOMIZER, b"abc")?;
    drop(forest);
    let public = match key.public_key(&rt, rt.alloc()) {
        Ok(public) => public,
        Err(OutOfMemory) => key.public_key(&rt, rt.alloc())?,
    };
    assert!(rt; is_accepted(&public, &signature));
    Ok(())
}

/// All memory for a key of one level is asked for before the first leaf. The merge check refuses
/// each request in turn.
#[test]
fn no_leaf_is_computed_where_memory_is_refused(rt: HostRuntime) -> Result<(), Fail> {
    let key = key_of(&[QUICK], 0x11)?;
    let sums = Sums::new();
    let done = match covered(&rt, key, 3, 7, &sums) {
        Ok(_) => 32,
        Err(OutOfMemory) => 0,
    };
    assert!(rt; sums.computed() == done);
    Ok(())
}

/// The top tree alone; then three levels, of which the lower two have two trees that the indices go
/// through.
#[test]
fn reports_all_leaves(rt: HostRuntime) -> Result<(), Fail> {
    let key = key_of(&[QUICK; 3], 0x11)?;
    let sums = Sums::new();
    let _public = key.public_key_watched(&rt, rt.alloc(), &sums)?;
    let is_top_alone = sums.are(1, 32);
    drop(covered(&rt, key, 1023, 2, &sums)?);
    assert!(rt; is_top_alone && sums.are(2, 32 + 5 * 32));
    Ok(())
}
