//! Trees whose nodes were given.
ghost use Rattle.std.specs.Prelude.{◌^◌, ◌<◌, IsTrue};
ghost use Rattle.lms_tree.specs.Kept.{upper_height};
ghost use Rattle.lms_tree.specs.TreeKey.{tree_of};

use crate::tests::{RANDOMIZER, band, key_of, signature};
use lms_fixtures::Sums;
use lms_params::{LmsType, OtsType, OutOfMemory, lms_sig_len};
use lms_tree::{
    Begun, KeptTree, NodeSource, Progress, TreeKey, Unwatched, WholeTree, bottom_height,
    public_bytes,
};
use std::alloc::AllocError;
use std::process::Abort;
use std::test::Fail;
use std::thread::Threads;

/// What serves the bottom subtree of a leaf, computed.
pub(super) fn kept(
    rt: &(impl Abort + AllocGlobal + Threads + Sync),
    key: TreeKey,
    leaf: u32,
) -> Result<KeptTree, OutOfMemory> {
    Ok(band(rt, key, leaf, leaf)?.into_kept())
}

/// The signature of `abc` by a leaf that is served.
fn kept_signature(
    rt: &(impl Abort + AllocGlobal),
    tree: &KeptTree,
    q: u32,
) -> Result<Vec<u8>, AllocError> {
    let key = tree.key();
    assert!(rt; q >> bottom_height(key.lms) == tree.subtree(), "{q}");
    let mut text = vec![in rt.alloc(); 0; lms_sig_len(key.lms, key.ots)]?;
    tree.sign_into(q, &RANDOMIZER, b"abc", &mut text);
    Ok(text)
}

/// Whether a leaf is signed as the whole tree does.
fn signs_alike(
    rt: &(impl Abort + AllocGlobal),
    whole: &WholeTree,
    tree: &KeptTree,
    q: u32,
) -> Result<bool, AllocError> {
    let expected = signature(rt, whole, q, &RANDOMIZER, b"abc")?;
    Ok(kept_signature(rt, tree, q)? == expected)
}

/// Whether a tree has so many bottom subtrees that one has this number.
fn has_subtree(key: TreeKey, subtree: u32) -> bool
    ensures { IsTrue result → subtree < 2 ^ upper_height (tree_of key).lms.h }
{
    let above = key.lms.height() - bottom_height(key.lms);
    subtree < 1 << above
}

/// Goes on to another bottom subtree of the tree.
fn moved(
    rt: &(impl Abort + AllocGlobal + Threads + Sync),
    tree: KeptTree,
    subtree: u32,
    begun: &Begun<impl Progress>,
) -> Result<Option<KeptTree>, OutOfMemory> {
    assert!(rt; has_subtree(tree.key(), subtree));
    tree.moved_to(rt, rt.alloc(), subtree, begun)
}

/// What these nodes serve of a bottom subtree of a key's tree, where there are as many as it has.
fn of_nodes(
    rt: &impl Abort,
    key: TreeKey,
    subtree: u32,
    upper: Vec<[u8; 32]>,
    lower: Vec<[u8; 32]>,
) -> Option<KeptTree> {
    assert!(rt; has_subtree(key, subtree));
    KeptTree::given(key, subtree, upper, lower)
}

/// The same nodes, given, with the lowest bit of one byte of node `upper` and of node `lower` of
/// the two lists changed, where there is such a node.
fn given(
    rt: &(impl Abort + AllocGlobal),
    tree: &KeptTree,
    upper: usize,
    lower: usize,
) -> Result<KeptTree, Fail> {
    let mut above = Vec::from_slice(rt.alloc(), tree.upper())?;
    let mut below = Vec::from_slice(rt.alloc(), tree.lower())?;
    if let Some(node) = above.get_mut(upper) {
        node[31] ^= 1;
    }
    if let Some(node) = below.get_mut(lower) {
        node[0] ^= 1;
    }
    let other = of_nodes(rt, tree.key(), tree.subtree(), above, below);
    Ok(other.ok_or("as many nodes")?)
}

/// No node.
const NONE: usize = usize::MAX;

/// The tree of a bottom subtree, which is this one or one to go on to.
fn at_subtree(
    rt: &(impl Abort + AllocGlobal + Threads + Sync),
    tree: KeptTree,
    subtree: u32,
) -> Result<KeptTree, Fail> {
    if tree.subtree() == subtree {
        Ok(tree)
    } else {
        let begun = Begun::new(&Unwatched, 2048);
        Ok(moved(rt, tree, subtree, &begun)?.ok_or("the right root")?)
    }
}

/// Whether a tree has the nodes of this bottom subtree of 15/2, and the public key and the
/// signature by this leaf that the whole tree has.
fn serves(
    rt: &(impl Abort + AllocGlobal),
    whole: &WholeTree,
    tree: &KeptTree,
    subtree: u32,
    q: u32,
) -> Result<bool, AllocError> {
    Ok(
        tree.subtree() == subtree
            && (tree.upper().len(), tree.lower().len()) == KeptTree::counts(LmsType::H15)
            && tree.public_bytes() == public_bytes(whole)
            && signs_alike(rt, whole, tree, q)?,
    )
}

/// The last leaf of the first bottom subtree of 15/2 and the first of the next, and the last of
/// all.
#[test]
fn signs_in_each_subtree(rt: HostRuntime) -> Result<(), Fail> {
    assert!(rt; KeptTree::counts(LmsType::H15) == (63, 2047));
    let key = key_of(LmsType::H15, OtsType::W2);
    let whole = WholeTree::build(&rt, rt.alloc(), key)?;
    let mut tree = kept(&rt, key, 1000)?;
    for (subtree, q) in [(0, 0), (0, 1023), (1, 1024), (31, 32767)] {
        tree = at_subtree(&rt, tree, subtree)?;
        assert!(rt; serves(&rt, &whole, &tree, subtree, q)?, "{q}");
    }
    Ok(())
}

/// The public key, and the signature by leaf 4, with these nodes changed.
fn changed(
    rt: &(impl Abort + AllocGlobal),
    tree: &KeptTree,
    upper: usize,
    lower: usize,
) -> Result<([u8; 56], Vec<u8>), Fail> {
    let other = given(rt, tree, upper, lower)?;
    let text = kept_signature(rt, &other, 4)?;
    Ok((other.public_bytes(), text))
}

/// Whether the first node in the path of a signature of 5/8 is all that differs.
fn differs_at_leaf(text: &[u8], other: &[u8]) -> bool {
    text.len() == 1292
        && text.get(..1132) == other.get(..1132)
        && text.get(1132..1164) != other.get(1132..1164)
        && text.get(1164..) == other.get(1164..)
}

/// The same nodes sign alike; a changed one changes the path or the public key alone.
#[test]
fn takes_the_nodes_as_given(rt: HostRuntime) -> Result<(), Fail> {
    let tree = kept(&rt, key_of(LmsType::H5, OtsType::W8), 0)?;
    let public = tree.public_bytes();
    let right = kept_signature(&rt, &tree, 4)?;
    let (same_public, same) = changed(&rt, &tree, NONE, NONE)?;
    let (other_public, below_root) = changed(&rt, &tree, 0, NONE)?;
    // Leaf 5 is the first node in the path of leaf 4.
    let (_, wrong) = changed(&rt, &tree, NONE, 31 + 5)?;
    assert!(rt;
        same_public == public
            && same == right
            && other_public.get(..24) == public.get(..24)
            && other_public != public
            && below_root == right
            && differs_at_leaf(&wrong, &right)
    );
    Ok(())
}

/// Whether so many nodes of each list are taken.
fn takes_counts(rt: &(impl Abort + AllocGlobal), upper: usize, lower: usize) -> Result<bool, Fail> {
    let upper = vec![in rt.alloc(); [0; 32]; upper]?;
    let lower = vec![in rt.alloc(); [0; 32]; lower]?;
    let key = key_of(LmsType::H15, OtsType::W2);
    Ok(of_nodes(rt, key, 31, upper, lower).is_some())
}

#[test]
fn refuses_another_number_of_nodes(rt: HostRuntime) -> Result<(), Fail> {
    for (upper, lower, is_right) in [
        (63, 2047, true),
        (62, 2047, false),
        (64, 2047, false),
        (63, 2046, false),
        (63, 2048, false),
        (0, 0, false),
    ] {
        assert!(rt;
            takes_counts(&rt, upper, lower)? == is_right,
            "{upper} {lower}"
        );
    }
    Ok(())
}

/// Whether a tree has the same key as another, the same bottom subtree, and above it the same nodes
/// up to that of the subtree's root.
fn has_nodes_of(tree: &KeptTree, other: &KeptTree) -> bool {
    tree.key() == other.key()
        && tree.subtree() == other.subtree()
        && tree.lower() == other.lower()
        && tree.upper().get(..34) == other.upper().get(..34)
}

/// Only the root of the bottom subtree to which it moves is looked at; each leaf of that subtree is
/// reported once.
#[test]
fn moves_on_where_the_root_is_right(rt: HostRuntime) -> Result<(), Fail> {
    let sums = Sums::new();
    let begun = Begun::new(&sums, 2048);
    let key = key_of(LmsType::H15, OtsType::W1);
    let tree = kept(&rt, key, 0)?;
    // Nodes 32 to 63 are the roots of the 32 bottom subtrees, and node r is at place r - 1.
    let other_root = given(&rt, &tree, 31 + 2, NONE)?;
    assert!(rt; moved(&rt, other_root, 2, &begun)?.is_none() && sums.leaves_are(2048, 1024));
    let beside = given(&rt, &tree, 31 + 3, 7)?;
    drop(tree);
    let there = moved(&rt, beside, 2, &begun)?.ok_or("the root is right")?;
    let right = kept(&rt, key, 2048)?;
    assert!(rt;
        sums.leaves_are(2048, 2048) && there.subtree() == 2 && has_nodes_of(&there, &right)
    );
    Ok(())
}

/// The merge check refuses each request for memory in turn: where a move is refused, a second tree
/// moves.
#[test]
fn moves_after_refused_memory(rt: HostRuntime) -> Result<(), Fail> {
    let key = key_of(LmsType::H15, OtsType::W1);
    let tree = match kept(&rt, key, 0) {
        Ok(tree) => tree,
        Err(OutOfMemory) => kept(&rt, key, 0)?,
    };
    let sums = Sums::new();
    let begun = Begun::new(&sums, 1024);
    let there = match moved(&rt, tree, 1, &begun) {
        Ok(there) => there,
        Err(OutOfMemory) => {
            assert!(rt; sums.leaves_are(1024, 0));
            moved(&rt, kept(&rt, key, 0)?, 1, &begun)?
        }
    };
    assert!(rt; sums.leaves_are(1024, 1024) && there.is_some_and(|there| there.subtree() == 1));
    Ok(())
}
