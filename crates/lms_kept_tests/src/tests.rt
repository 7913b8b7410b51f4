//! What tests of this crate share, and that kept trees sign as forests do.
ghost use Rattle.std.specs.Prelude.{◌≡◌, IfOk, IfSome};

mod again;
mod join;
mod texts;
mod uses;
mod wrong;

use crate::tests::again::{
    is_accepted_at_last, kept_at_last, signed_at_last, signs_so, text_of_31,
};
use lms_fixtures::{Sums, forest_of, key_of, lease_of, signature_of};
use lms_hss::HssKey;
use lms_kept::{KeptSignature, KeptTrees, sign_lease};
use lms_params::{LmsType, OtsType, OutOfMemory};
use std::alloc::Global;
use std::process::Abort;
use std::test::Fail;
use std::thread::Threads;

const RANDOMIZER: [u8; 32] = [0x33; 32];

/// A level of 5/8.
const LEVEL: (LmsType, OtsType) = (LmsType::H5, OtsType::W8);

/// A level whose trees are computed quickly.
const QUICK: (LmsType, OtsType) = (LmsType::H5, OtsType::W2);

/// Three levels of different widths.
const THREE_LEVELS: [(LmsType, OtsType); 3] = [
    LEVEL,
    (LmsType::H5, OtsType::W4),
    (LmsType::H5, OtsType::W2),
];

/// A bottom tree of 32 leaves below each leaf of a tree of 32 bottom subtrees.
const TALL_ABOVE: [(LmsType, OtsType); 2] = [
    (LmsType::H15, OtsType::W1),
    (LmsType::H5, OtsType::W1),
];

/// What is kept of the trees of an index that a key has.
fn kept_text(
    rt: &(impl Abort + AllocGlobal + Threads + Sync),
    key: &HssKey,
    at: u64,
    sums: &Sums,
) -> Result<Vec<u8>, OutOfMemory> {
    assert!(rt; at < key.capacity());
    match KeptTrees::compute(rt, rt.alloc(), *key, at, sums) {
        Ok(trees) => trees.text(rt.alloc()),
        Err(OutOfMemory) => Err(OutOfMemory),
    }
}

/// What is kept of these trees.
fn text_of(alloc: Global, trees: Option<KeptTrees>) -> Result<Vec<u8>, Fail> {
    match trees {
        Some(trees) => Ok(trees.text(alloc)?),
        None => Err(Fail::from("trees")),
    }
}

/// Whether a key takes these bytes for its own or, where they are not to be taken, does not.
fn takes(alloc: Global, key: &HssKey, text: &[u8], is_own: bool) -> bool {
    match KeptTrees::read(alloc, *key, text) {
        Ok(trees) => trees.is_some() == is_own,
        Err(OutOfMemory) => false,
    }
}

/// What these bytes keep, which the key takes.
fn taken(rt: &impl AllocGlobal, key: &HssKey, text: &[u8]) -> Result<KeptTrees, Fail>
    ensures { IfOk result (λ trees. trees.key ≡ key.now) }
{
    match KeptTrees::read(rt.alloc(), *key, text)? {
        Some(trees) => Ok(trees),
        None => Err(Fail::from("a text of the key")),
    }
}

/// The trees of another index that the key has, or none where the nodes are wrong.
fn moved_on(
    rt: &(impl Abort + AllocGlobal + Threads + Sync),
    key: &HssKey,
    trees: KeptTrees,
    g: u64,
    sums: &Sums,
) -> Result<Option<KeptTrees>, OutOfMemory>
    requires { trees.key ≡ key.now }
    ensures { IfOk result (λ moved. IfSome moved (λ trees. trees.key ≡ key.now)) }
{
    assert!(rt; g < key.capacity());
    trees.moved_to(rt, rt.alloc(), g, sums)
}

/// The trees of another index that the key has, or none where the bytes are another key's or the
/// nodes in them are wrong.
fn moved(
    rt: &(impl Abort + AllocGlobal + Threads + Sync),
    key: HssKey,
    text: &[u8],
    g: u64,
    sums: &Sums,
) -> Result<Option<KeptTrees>, OutOfMemory>
    ensures { IfOk result (λ moved. IfSome moved (λ trees. trees.key ≡ key)) }
{
    match KeptTrees::read(rt.alloc(), key, text)? {
        Some(trees) => moved_on(rt, &key, trees, g, sums),
        None => Ok(None),
    }
}

/// Changes bits of one byte.
fn flip(text: &mut [u8], at: usize, bits: u8) {
    if let Some(byte) = text.get_mut(at) {
        *byte ^= bits;
    }
}

/// The signature of `abc` by an index that is served, or none where it is not accepted. Memory is
/// asked for a second time.
fn signed(
    rt: &(impl Abort + AllocGlobal),
    key: HssKey,
    trees: &KeptTrees,
    g: u64,
) -> Result<Option<Vec<u8>>, Fail>
    requires { trees.now.key ≡ key }
{
    assert!(rt; trees.serves(g), "{g}");
    let memory = match Vec::with_capacity(rt.alloc(), key.sig_len()) {
        Ok(memory) => memory,
        Err(_) => Vec::with_capacity(rt.alloc(), key.sig_len())?,
    };
    Ok(trees.sign(memory, g, &RANDOMIZER, b"abc"))
}

/// The signature of `abc` by an index, from trees that are computed for it alone.
fn expected(
    rt: &(impl AllocGlobal + Threads + Sync),
    key: HssKey,
    g: u64,
) -> Result<Vec<u8>, &'static str> {
    signature_of(&forest_of(rt, key, g, 1)?, g, &RANDOMIZER, b"abc")
}

/// What these bytes keep signs an index as trees do that are computed for it alone, moved on where
/// it doesn't serve it, and is kept again.
fn check_next(
    rt: &(impl Abort + AllocGlobal + Threads + Sync),
    key: &HssKey,
    text: &[u8],
    g: u64,
) -> Result<Vec<u8>, Fail> {
    let kept = taken(rt, key, text)?;
    let trees = if kept.serves(g) {
        kept
    } else {
        moved(rt, *key, text, g, &Sums::new())?.ok_or("right nodes")?
    };
    let signature = signed(rt, *key, &trees, g)?.ok_or("an accepted signature")?;
    assert!(rt; signature == expected(rt, *key, g)?, "{g}");
    Ok(trees.text(rt.alloc())?)
}

/// Indices of a key in this order, each by what was kept for the one before.
fn check_indices(
    rt: &(impl Abort + AllocGlobal + Threads + Sync),
    levels: &[(LmsType, OtsType)],
    indices: &[u64],
) -> Result<(), Fail> {
    let key = key_of(levels, 0x11)?;
    let mut text = kept_text(rt, &key, 0, &Sums::new())?;
    for g in indices {
        text = check_next(rt, &key, &text, *g)?;
    }
    Ok(())
}

/// Over the ends of trees of each level, to the last index, and back.
#[test]
fn signs_as_trees_that_are_computed(rt: HostRuntime) -> Result<(), Fail> {
    check_indices(
        &rt,
        &[LEVEL; 8],
        &[0, 31, 32, 1023, 1024, 32767, 32768, 1099511627775, 5],
    )?;
    let three = [LEVEL, (LmsType::H10, OtsType::W4), LEVEL];
    check_indices(&rt, &three, &[31, 32, 1023, 1024, 32767, 32768, 1048575])?;
    check_indices(&rt, &THREE_LEVELS, &[40, 1000, 32767])
}

/// Over the end of a bottom tree of 1024 leaves.
#[test]
fn signs_across_trees_of_height_10(rt: HostRuntime) -> Result<(), Fail> {
    check_indices(
        &rt,
        &[(LmsType::H10, OtsType::W4); 2],
        &[31, 32, 1023, 1024, 1048575],
    )
}

/// Over the end of a bottom subtree of 1024 leaves.
#[test]
fn signs_across_bottom_subtrees(rt: HostRuntime) -> Result<(), Fail> {
    check_indices(
        &rt,
        &[(LmsType::H15, OtsType::W2)],
        &[31, 32, 1023, 1024, 32767],
    )
}

/// Over the end of a bottom subtree of the level above, and back.
#[test]
fn signs_across_bottom_subtrees_above(rt: HostRuntime) -> Result<(), Fail> {
    check_indices(&rt, &TALL_ABOVE, &[32767, 32768, 32799, 0])
}

/// The public key, and each index from the first on, by the top tree of a new key.
#[test]
fn begins_with_the_top_tree(rt: HostRuntime) -> Result<(), Fail> {
    let key = key_of(&THREE_LEVELS, 0x11)?;
    let public = key.public_key(&rt, rt.alloc())?;
    let sums = Sums::new();
    let top = KeptTrees::top(&rt, rt.alloc(), key, &sums)?;
    assert!(rt; sums.are(1, 32) && top.public() == public && !top.serves(0));
    let text = top.text(rt.alloc())?;
    for g in [0, 2000] {
        drop(check_next(&rt, &key, &text, g)?);
    }
    Ok(())
}

/// Signs by an index of a key, which is leased, with these bytes or none.
fn by_lease(
    rt: &(impl AllocGlobal + Threads + Sync),
    key: HssKey,
    g: u64,
    text: Option<&[u8]>,
    sums: &Sums,
) -> Result<Result<KeptSignature, OutOfMemory>, &'static str> {
    let lease = lease_of(rt.alloc(), key, g, 1)?;
    Ok(sign_lease(rt, rt.alloc(), lease, &RANDOMIZER, b"abc", text, sums))
}

/// Whether there are trees to be kept, which serve an index, or, where none are to be, none.
fn are_kept(trees: &Option<KeptTrees>, g: u64, keeps: bool) -> bool {
    match trees {
        Some(trees) => keeps && trees.serves(g),
        None => !keeps,
    }
}

/// Whether this is the signature by an index, with trees to be kept, or none.
fn is_signed(signed: &KeptSignature, signature: &[u8], g: u64, keeps: bool) -> bool {
    signed.index == g
        && signed.signature.as_slice() == signature
        && are_kept(&signed.trees, g, keeps)
}

/// A signature by an index of a key is that of trees which are computed for it alone, and there are
/// trees to be kept, or none.
fn check_by_text(
    rt: &(impl Abort + AllocGlobal + Threads + Sync),
    key: &HssKey,
    g: u64,
    text: Option<&[u8]>,
    keeps: bool,
) -> Result<Option<KeptTrees>, Fail> {
    let signature = expected(rt, *key, g)?;
    match by_lease(rt, *key, g, text, &Sums::new())? {
        Ok(signed) => {
            assert!(rt; is_signed(&signed, &signature, g, keeps), "{g}");
            Ok(signed.trees)
        }
        Err(OutOfMemory) => Err(Fail::from("memory")),
    }
}

/// By no kept bytes; by some that serve the index; by some that are moved on; by those of another
/// key, and by some that are damaged.
#[test]
fn signs_by_a_text_or_anew(rt: HostRuntime) -> Result<(), Fail> {
    let (key, other) = (key_of(&[QUICK; 2], 0x11)?, key_of(&[LEVEL], 0x11)?);
    let mut text = text_of(rt.alloc(), check_by_text(&rt, &key, 31, None, true)?)?;
    for (key, g, damage, keeps) in [
        (key, 30, 0, false),
        (key, 32, 0, true),
        (other, 31, 0, true),
        (key, 30, 1, true),
    ] {
        let last = text.len().saturating_sub(1);
        flip(&mut text, last, damage);
        drop(check_by_text(&rt, &key, g, Some(&text), keeps)?);
    }
    Ok(())
}

/// Whether trees move to two indices in turn, and for each so many calls have computed so many
/// leaves then.
fn moves_to(
    rt: &(impl Abort + AllocGlobal + Threads + Sync),
    key: HssKey,
    text: &[u8],
    indices: [(u64, u64, u64); 2],
    sums: &Sums,
) -> Result<bool, Fail> {
    let [first, second] = indices;
    let Some(there) = moved(rt, key, text, first.0, sums)? else {
        return Ok(false);
    };
    let is_there = sums.are(first.1, first.2);
    let further = moved_on(rt, &key, there, second.0, sums)?;
    Ok(is_there && sums.are(second.1, second.2) && further.is_some())
}

/// So many leaves are computed for the first index of a key, and, with the two indices to which its
/// trees move in turn, by so many calls so many in all.
fn check_reports(
    rt: &(impl Abort + AllocGlobal + Threads + Sync),
    key: HssKey,
    leaves: u64,
    indices: [(u64, u64, u64); 2],
) -> Result<(), Fail> {
    let sums = Sums::new();
    let text = kept_text(rt, &key, 0, &sums)?;
    assert!(rt; sums.are(1, leaves) && moves_to(rt, key, &text, indices, &sums)?);
    Ok(())
}

/// Trees of two levels; the next bottom tree; one that is served already; the next bottom subtree
/// of a tree of height 15, and the tree below it; one that is served then.
#[test]
fn reports_the_leaves_that_are_computed(rt: HostRuntime) -> Result<(), Fail> {
    let two_levels = key_of(&[QUICK; 2], 0x11)?;
    check_reports(&rt, two_levels, 64, [(32, 2, 64 + 32), (63, 3, 64 + 32)])?;
    let tall = key_of(&TALL_ABOVE, 0x11)?;
    let computed = 32768 + 32 + 1024 + 32;
    check_reports(
        &rt,
        tall,
        32768 + 32,
        [(32768, 2, computed), (32799, 3, computed)],
    )
}

/// Signs by an index with so many leaves computed, or, where memory is refused, with none.
fn check_leaves(
    rt: &(impl Abort + AllocGlobal + Threads + Sync),
    key: HssKey,
    g: u64,
    text: Option<&[u8]>,
    leaves: u64,
) -> Result<Option<KeptTrees>, Fail> {
    let sums = Sums::new();
    let (computed, trees) = match by_lease(rt, key, g, text, &sums)? {
        Ok(signed) => (leaves, signed.trees),
        Err(OutOfMemory) => (0, None),
    };
    assert!(rt; sums.computed() == computed, "{g}");
    Ok(trees)
}

/// All memory for the trees of two levels and the signature is asked for before the first leaf, and
/// so it is for the next tree. The merge check refuses each request in turn.
#[test]
fn no_leaf_is_computed_where_memory_is_refused(rt: HostRuntime) -> Result<(), Fail> {
    let key = key_of(&[QUICK; 2], 0x11)?;
    let text = text_of_31(&rt, key)?;
    drop(check_leaves(&rt, key, 32, Some(&text), 32)?);
    Ok(())
}

/// The merge check refuses each request for memory in turn: where a call is refused, a second one
/// works.
#[test]
fn signs_after_refused_memory(rt: HostRuntime) -> Result<(), Fail> {
    let key = key_of(&[(LmsType::H5, OtsType::W1); 2], 0x11)?;
    let text = kept_at_last(&rt, &key, 31)?;
    let Some(signature) = signed_at_last(&rt, &key, &text, 32)? else {
        return Err(Fail::from("an accepted signature"));
    };
    assert!(rt;
        is_accepted_at_last(&rt, &key, &signature) && signs_so(&rt, &key, 32, &text, &signature)?
    );
    Ok(())
}
