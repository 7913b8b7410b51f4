//! Trees that go on to other leaves.
ghost use Rattle.std.specs.Prelude.{◌≡◌, IfOk};

use super::kept::kept;
use super::{band, key_of, signs_alike};
use lms_fixtures::Sums;
use lms_params::{LmsType, OtsType, OutOfMemory};
use lms_tree::{
    BandTree, Begun, KeptTree, NodeSource, Progress, TreeKey, Unwatched, WholeTree, public_bytes,
};
use std::alloc::AllocError;
use std::process::Abort;
use std::test::Fail;
use std::thread::Threads;

/// The first and the last leaf to which a tree goes on, and how many leaves are computed then.
type Move = (u32, u32, u64);

/// Goes on to these leaves of the tree, which has them.
fn moved(
    rt: &(impl Abort + AllocGlobal + Threads + Sync),
    tree: BandTree,
    first: u32,
    last: u32,
    begun: &Begun<impl Progress>,
) -> Result<BandTree, OutOfMemory>
    ensures { IfOk result (λ there. there ≡ record { key = tree.key; first = first; last = last }) }
{
    let key = tree.key();
    assert!(rt; first <= last && last < 1 << key.lms.height() && last - first < 1024);
    tree.moved_to(rt, rt.alloc(), first, last, begun)
}

/// Whether a tree serves these leaves, and has the public key and the signatures by the first and
/// the last of them that the whole tree has.
fn serves(
    rt: &(impl Abort + AllocGlobal),
    whole: &WholeTree,
    tree: &BandTree,
    first: u32,
    last: u32,
) -> Result<bool, AllocError> {
    Ok(
        tree.first() == first
            && tree.last() == last
            && public_bytes(tree) == public_bytes(whole)
            && signs_alike(rt, whole, tree, first)?
            && signs_alike(rt, whole, tree, last)?,
    )
}

/// A tree says how many leaves a move computes, and reports each of them once. By the first and the
/// last leaf that it serves then, it signs as the whole tree does.
fn check_move(
    rt: &(impl Abort + AllocGlobal + Threads + Sync),
    whole: &WholeTree,
    tree: BandTree,
    to: Move,
) -> Result<BandTree, Fail> {
    let (first, last, leaves) = to;
    let sums = Sums::new();
    let is_said = tree.leaves_to(first, last) == leaves;
    let there = moved(rt, tree, first, last, &Begun::new(&sums, leaves))?;
    assert!(rt;
        is_said && sums.leaves_are(leaves, leaves) && serves(rt, whole, &there, first, last)?,
        "{first} {last}"
    );
    Ok(there)
}

/// These moves one after another, of a tree that serves leaves 7 and 8 at first.
fn check_moves(
    rt: &(impl Abort + AllocGlobal + Threads + Sync),
    key: TreeKey,
    moves: &[Move],
) -> Result<BandTree, Fail> {
    let whole = WholeTree::build(rt, rt.alloc(), key)?;
    let mut tree = band(rt, key, 7, 8)?;
    for to in moves {
        tree = check_move(rt, &whole, tree, *to)?;
    }
    Ok(tree)
}

/// A tree of height 5 is one bottom subtree.
#[test]
fn computes_nothing_in_one_bottom_subtree(rt: HostRuntime) -> Result<(), Fail> {
    let key = key_of(LmsType::H5, OtsType::W8);
    let _tree = check_moves(&rt, key, &[(0, 31, 0), (31, 31, 0), (0, 0, 0)])?;
    Ok(())
}

/// The bottom subtree of a leaf, to which a tree goes on.
fn moved_nodes(
    rt: &(impl Abort + AllocGlobal + Threads + Sync),
    tree: BandTree,
    leaf: u32,
) -> Result<KeptTree, OutOfMemory> {
    let begun = Begun::new(&Unwatched, 1024);
    Ok(moved(rt, tree, leaf, leaf, &begun)?.into_kept())
}

/// Moves of a tree of 15/2: within a bottom subtree, to it and the next, within both, to the second
/// alone, back to the first, to the last of all, and back over both edges of one.
const MOVES: [Move; 8] = [
    (0, 1023, 0),
    (1023, 1024, 2048),
    (1000, 1100, 0),
    (1024, 2047, 1024),
    (1023, 1023, 1024),
    (31744, 32767, 1024),
    (2047, 2048, 2048),
    (1024, 2047, 1024),
];

/// After all these moves the nodes are those of a tree that is built for the same leaf.
#[test]
fn computes_other_bottom_subtrees(rt: HostRuntime) -> Result<(), Fail> {
    let key = key_of(LmsType::H15, OtsType::W2);
    let there = moved_nodes(&rt, check_moves(&rt, key, &MOVES)?, 3000)?;
    let built = kept(&rt, key, 3000)?;
    assert!(rt;
        there.subtree() == 2
            && there.key() == key
            && there.upper() == built.upper()
            && there.lower() == built.lower()
    );
    Ok(())
}

/// The merge check refuses each request for memory in turn: where a move is refused, no leaf was
/// computed, and a second tree goes on.
#[test]
fn goes_on_after_refused_memory(rt: HostRuntime) -> Result<(), Fail> {
    let key = key_of(LmsType::H15, OtsType::W1);
    let tree = match band(&rt, key, 0, 0) {
        Ok(tree) => tree,
        Err(OutOfMemory) => band(&rt, key, 0, 0)?,
    };
    let sums = Sums::new();
    let begun = Begun::new(&sums, 2048);
    let there = match moved(&rt, tree, 1023, 1024, &begun) {
        Ok(there) => there,
        Err(OutOfMemory) => {
            assert!(rt; sums.leaves_are(2048, 0));
            moved(&rt, band(&rt, key, 0, 0)?, 1023, 1024, &begun)?
        }
    };
    assert!(rt; sums.leaves_are(2048, 2048) && there.first() == 1023 && there.last() == 1024);
    Ok(())
}
