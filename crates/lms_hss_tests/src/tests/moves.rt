//! Forests that go on to other indices of their key.
use crate::tests::{QUICK, RANDOMIZER, is_accepted};
use lms_fixtures::{Sums, forest_of, key_of, signature_of};
use lms_hss::{Forest, HssKey, same_key, verify};
use lms_params::{LmsType, OtsType, OutOfMemory};
use std::process::Abort;
use std::test::Fail;
use std::thread::Threads;

/// The first index and the number of the indices that are covered, and all calls and all leaves
/// that were reported by then.
type Move = (u64, u64, u64, u64);

/// What signs these indices of the key, which has them.
pub(super) fn covered(
    rt: &(impl Abort + AllocGlobal + Threads + Sync),
    key: HssKey,
    start: u64,
    len: u64,
    sums: &Sums,
) -> Result<Forest, OutOfMemory> {
    assert!(rt; 1 <= len && len <= 1024 && key.capacity() >= len && key.capacity() - len >= start);
    Forest::cover_watched(rt, rt.alloc(), key, start, len, sums)
}

/// Goes on to these indices of the key, which has them.
fn moved(
    rt: &(impl Abort + Threads + Sync),
    forest: Forest,
    start: u64,
    len: u64,
    sums: &Sums,
) -> Result<Forest, OutOfMemory> {
    let key = forest.key();
    assert!(rt; 1 <= len && len <= 1024 && key.capacity() >= len && key.capacity() - len >= start);
    forest.moved_to_watched(rt, start, len, sums)
}

/// Whether a forest signs an index as another does.
fn signs_alike(forest: &Forest, other: &Forest, g: u64) -> Result<bool, &'static str> {
    let signature = signature_of(forest, g, &RANDOMIZER, b"abc")?;
    Ok(signature_of(other, g, &RANDOMIZER, b"abc")? == signature)
}

/// Whether a forest covers the indices that another one covers, and has its public key and its
/// signatures by the first and the last of them.
fn is_alike(forest: &Forest, other: &Forest) -> Result<bool, &'static str> {
    let (start, len) = (other.start(), other.len());
    let last = start.saturating_add(len).saturating_sub(1);
    Ok(
        same_key(&forest.key(), &other.key())
            && forest.start() == start
            && forest.len() == len
            && forest.public() == other.public()
            && signs_alike(forest, other, start)?
            && signs_alike(forest, other, last)?,
    )
}

/// Whether a forest covers these indices and has this public key, and its signature by the last of
/// them is accepted.
fn signs_last(
    public: &[u8; 60],
    forest: &Forest,
    start: u64,
    len: u64,
) -> Result<bool, &'static str> {
    let last = start.saturating_add(len).saturating_sub(1);
    let signature = signature_of(forest, last, &RANDOMIZER, b"abc")?;
    Ok(
        forest.start() == start
            && forest.len() == len
            && forest.public() == *public
            && is_accepted(public, &signature),
    )
}

/// Covers the first of these ranges of indices and goes on to the others in turn. In the end the
/// forest is one that is computed for the last of them.
fn check_moves(
    rt: &(impl Abort + AllocGlobal + Threads + Sync),
    key: HssKey,
    first: Move,
    moves: &[Move],
) -> Result<(), Fail> {
    let public = key.public_key(rt, rt.alloc())?;
    let sums = Sums::new();
    let (start, len, calls, leaves) = first;
    let mut forest = covered(rt, key, start, len, &sums)?;
    assert!(rt; sums.are(calls, leaves));
    for to in moves {
        let (start, len, calls, leaves) = *to;
        forest = moved(rt, forest, start, len, &sums)?;
        assert!(rt;
            sums.are(calls, leaves) && signs_last(&public, &forest, start, len)?,
            "{start}"
        );
    }
    let other = forest_of(rt, key, forest.start(), forest.len())?;
    assert!(rt; is_alike(&forest, &other)?);
    Ok(())
}

/// Leaf 1023 of the top tree is the last of a bottom subtree of 1024, leaf 1024 the first of the
/// next. All leaves are computed of the subtrees that the indices go through, where these are not
/// the same as before, and of the trees below that are not kept.
#[test]
fn computes_bottom_subtrees(rt: HostRuntime) -> Result<(), Fail> {
    let key = key_of(&[(LmsType::H15, OtsType::W2), QUICK], 0x11)?;
    check_moves(
        &rt,
        key,
        (32767, 1, 1, 32768 + 32),
        &[
            (32768, 1, 2, 32768 + 32 + 1024 + 32),
            (32767, 2, 3, 32768 + 32 + 1024 + 32 + 2048 + 64),
        ],
    )
}

/// Each move computes the trees that are new alone: none, the bottom tree, the lower two, and so
/// again on the way back.
#[test]
fn moves_on_by_what_is_new(rt: HostRuntime) -> Result<(), Fail> {
    let key = key_of(&[QUICK; 3], 0x11)?;
    check_moves(
        &rt,
        key,
        (990, 1, 1, 3 * 32),
        &[
            (991, 1, 2, 3 * 32),
            (992, 32, 3, 4 * 32),
            (1024, 2, 4, 6 * 32),
            (1023, 2, 5, 10 * 32),
        ],
    )
}

/// Goes on to these indices of the key, which has them.
fn moved_unwatched(
    rt: &(impl Abort + Threads + Sync),
    forest: Forest,
    start: u64,
    len: u64,
) -> Result<Forest, OutOfMemory> {
    let key = forest.key();
    assert!(rt; 1 <= len && len <= 1024 && key.capacity() >= len && key.capacity() - len >= start);
    forest.moved_to(rt, start, len)
}

/// The merge check refuses each request for memory in turn: where a move is refused, another forest
/// goes on.
#[test]
fn goes_on_after_refused_memory(rt: HostRuntime) -> Result<(), Fail> {
    let key = key_of(&[QUICK; 3], 0x11)?;
    let forest = match moved_unwatched(&rt, forest_of(&rt, key, 1023, 1)?, 1024, 2) {
        Ok(forest) => forest,
        Err(OutOfMemory) => moved_unwatched(&rt, forest_of(&rt, key, 1023, 1)?, 1024, 2)?,
    };
    let signature = signature_of(&forest, 1025, &RANDOMIZER, b"abc")?;
    assert!(rt; verify(&forest.public(), b"abc", &signature));
    Ok(())
}
