//! The trees of one level that a range of indices goes through.
ghost use Rattle.std.specs.Prelude.{ℕ, ◌≡◌, ◌↔◌, ◌+◌, ◌-◌, ◌<◌, ◌≤◌, length, slice_index_or, IfOk, IfSome, IsTrue};
ghost use Rattle.lms_spec.specs.Hss.{capacity_of, HssKey as HssKeyOfSpec};
ghost use Rattle.lms_hss.specs.Covered.{most_covered};
ghost use Rattle.lms_hss.specs.Keys.{hss_key_of, tree_number as number_of};
ghost use Rattle.lms_hss.specs.Forests.{AreLevelsFrom, HoldsLevel, IsTreeNumbered, ServesRange};

use crate::key::HssKey;
use crate::signed_tree::SignedTree;
use lms_params::OutOfMemory;
use lms_tree::{Begun, Progress};
use std::alloc::Global;
use std::thread::Threads;

/// Adjacent trees of one level, from number `first` of the level on.
#[derive(Drop)]
pub(crate) struct LevelTrees {
    first: u64,
    trees: Vec<SignedTree>,
}

impl LevelTrees {
    /// The top level, whose one tree serves the leaves that the indices from `start` to `last` go
    /// through. The tree in `kept` is moved on to these; where there is none it is computed.
    /// `OutOfMemory` where memory is refused.
    pub(crate) fn top(
        rt: &(impl Threads + Sync),
        alloc: Global,
        key: &HssKey,
        start: u64,
        last: u64,
        kept: Option<SignedTree>,
        begun: &Begun<impl Progress>,
    ) -> Result<Self, OutOfMemory>
        requires some { 1 ≤ length key.now.levels }
        requires order { start ≤ last }
        requires at_most { last - start < most_covered }
        requires within { last < capacity_of (hss_key_of key.now) }
        requires kept { IfSome kept (IsTreeNumbered (hss_key_of key.now) 0 0) }
        ensures { IfOk result (λ trees. HoldsLevel (hss_key_of key.now) 0 start last trees) }
    {
        let mut trees = Vec::with_capacity(alloc, 1)?;
        trees.push_reserved(top_tree(rt, alloc, key, start, last, kept, begun)?);
        Ok(LevelTrees { first: 0, trees })
    }

    /// The tree of this number, which must be there.
    pub(crate) fn tree(&self, number: u64) -> &SignedTree
        requires from { self.now.first ≤ number }
        requires to { number < self.now.first + length self.now.trees.items }
        ensures { result.now
            ≡ slice_index_or self.now.trees.items (number - self.now.first) result.now }
    {
        &self.trees[(number - self.first) as usize]
    }

    /// Whether there is a tree of this number.
    fn has(&self, number: u64) -> bool
        ensures { IsTrue result
            ↔ ((self.now.first ≤ number) × (number < self.now.first + length self.now.trees.items)) }
    {
        self.first <= number && number - self.first < self.trees.len() as u64
    }

    /// The tree of this number, `None` where it is not there. The others are dropped.
    pub(crate) fn into_tree(self, number: u64) -> Option<SignedTree>
        ensures { IfSome result (λ tree. (self.first ≤ number)
            × (number < self.first + length self.trees.items)
            × (tree ≡ slice_index_or self.trees.items (number - self.first) tree)) }
    {
        if !self.has(number) {
            return None;
        }
        let LevelTrees { first, trees } = self;
        let mut trees = trees;
        Some(trees.swap_remove((number - first) as usize))
    }

    /// How many leaves of the trees of level k, which these are, need not be computed for the
    /// indices from `start` to `last`, since one of these trees is kept.
    pub(crate) fn leaves_spared(&self, key: &HssKey, k: usize, start: u64, last: u64) -> u64
        requires there { k < length key.now.levels }
        requires order { start ≤ last }
        requires at_most { last - start < most_covered }
    {
        let number = key.tree_number(start, k);
        if self.has(number) {
            self.tree(number)
                .leaves_spared(key.leaves(start, last, k, number))
        } else {
            0
        }
    }

    /// From the trees of level k, those of level k + 1 that the indices from `start` to `last` go
    /// through. Each is signed by the one above it, and serves the leaves that these indices go
    /// through. The first of them may be in `kept` and is then moved on to these leaves; all others
    /// are computed. `OutOfMemory` where memory is refused.
    pub(crate) fn below(
        &self,
        rt: &(impl Threads + Sync),
        alloc: Global,
        key: &HssKey,
        k: usize,
        start: u64,
        last: u64,
        kept: Option<SignedTree>,
        begun: &Begun<impl Progress>,
    ) -> Result<Self, OutOfMemory>
        requires below { k + 1 < length key.now.levels }
        requires order { start ≤ last }
        requires at_most { last - start < most_covered }
        requires within { last < capacity_of (hss_key_of key.now) }
        requires level { HoldsLevel (hss_key_of key.now) k start last self.now }
        requires kept { IfSome kept (IsTreeNumbered (hss_key_of key.now) (k + 1)
            (number_of (hss_key_of key.now) start (k + 1))) }
        ensures { IfOk result (λ trees. HoldsLevel (hss_key_of key.now) (k + 1) start last trees) }
    {
        // for the proof: there are at most eight levels
        let _levels = key.levels.as_slice();
        let first = key.tree_number(start, k + 1);
        let end = key.tree_number(last, k + 1) + 1;
        let mut kept = kept;
        let mut trees = Vec::with_capacity(alloc, (end - first) as usize)?;
        for number in first..end {
            let tree = self.tree_below(rt, alloc, key, k, number, start, last, kept.take(), begun)?;
            trees.push_reserved(tree);
        }
        Ok(LevelTrees { first, trees })
    }

    /// Tree `number` of level k + 1, below one of these trees of level k, to serve the leaves that
    /// the indices from `start` to `last` go through. The tree in `kept` is moved on to these;
    /// where there is none it is computed. `OutOfMemory` where memory is refused.
    fn tree_below(
        &self,
        rt: &(impl Threads + Sync),
        alloc: Global,
        key: &HssKey,
        k: usize,
        number: u64,
        start: u64,
        last: u64,
        kept: Option<SignedTree>,
        begun: &Begun<impl Progress>,
    ) -> Result<SignedTree, OutOfMemory>
        requires below { k + 1 < length key.now.levels }
        requires order { start ≤ last }
        requires at_most { last - start < most_covered }
        requires level { HoldsLevel (hss_key_of key.now) k start last self.now }
        requires from { number_of (hss_key_of key.now) start (k + 1) ≤ number }
        requires to { number ≤ number_of (hss_key_of key.now) last (k + 1) }
        requires kept { IfSome kept (IsTreeNumbered (hss_key_of key.now) (k + 1) number) }
        ensures { IfOk result (ServesRange (hss_key_of key.now) (k + 1) number start last) }
    {
        let levels = key.levels.as_slice();
        match kept {
            Some(tree) => moved(rt, alloc, key, k + 1, number, start, last, tree, begun),
            None => {
                let (parent, leaf) = key.parent(number, k);
                let leaves = key.leaves(start, last, k + 1, number);
                let above = self.tree(parent);
                let tree = above.child(rt, alloc, leaf, levels[k + 1], leaves, begun)?;
                Ok(tree)
            }
        }
    }
}

/// The top tree, which serves the leaves that the indices from `start` to `last` go through. The
/// tree in `kept` is moved on to these; where there is none it is computed. `OutOfMemory` where
/// memory is refused.
fn top_tree(
    rt: &(impl Threads + Sync),
    alloc: Global,
    key: &HssKey,
    start: u64,
    last: u64,
    kept: Option<SignedTree>,
    begun: &Begun<impl Progress>,
) -> Result<SignedTree, OutOfMemory>
    requires some { 1 ≤ length key.now.levels }
    requires order { start ≤ last }
    requires at_most { last - start < most_covered }
    requires within { last < capacity_of (hss_key_of key.now) }
    requires kept { IfSome kept (IsTreeNumbered (hss_key_of key.now) 0 0) }
    ensures { IfOk result (ServesRange (hss_key_of key.now) 0 0 start last) }
{
    match kept {
        Some(tree) => moved(rt, alloc, key, 0, 0, start, last, tree, begun),
        None => {
            let leaves = key.leaves(start, last, 0, 0);
            let tree = SignedTree::top(rt, alloc, key, leaves, begun)?;
            Ok(tree)
        }
    }
}

/// Moves `tree`, which must be tree `number` of level k, on to the leaves that the indices from
/// `start` to `last` go through. `OutOfMemory` where memory is refused.
fn moved(
    rt: &(impl Threads + Sync),
    alloc: Global,
    key: &HssKey,
    k: usize,
    number: u64,
    start: u64,
    last: u64,
    tree: SignedTree,
    begun: &Begun<impl Progress>,
) -> Result<SignedTree, OutOfMemory>
    requires there { k < length key.now.levels }
    requires order { start ≤ last }
    requires at_most { last - start < most_covered }
    requires from { number_of (hss_key_of key.now) start k ≤ number }
    requires to { number ≤ number_of (hss_key_of key.now) last k }
    requires numbered { IsTreeNumbered (hss_key_of key.now) k number tree }
    ensures { IfOk result (ServesRange (hss_key_of key.now) k number start last) }
{
    let leaves = key.leaves(start, last, k, number);
    let tree = tree.moved_to(rt, alloc, leaves, begun)?;
    Ok(tree)
}

/// Takes the first level off the list, and gives its tree of this number. `None` where the level
/// has no such tree, or the list is empty.
pub(crate) fn take_tree(levels: &mut Vec<LevelTrees>, number: u64) -> Option<SignedTree>
    ensures levels { (key : HssKeyOfSpec) (k : ℕ) → AreLevelsFrom key k levels.old.items
        → AreLevelsFrom key (k + 1) levels.new.items }
    ensures tree { (key : HssKeyOfSpec) (k : ℕ) → AreLevelsFrom key k levels.old.items
        → IfSome result (IsTreeNumbered key k number) }
{
    if levels.is_empty() {
        return None;
    }
    levels.remove(0).into_tree(number)
}
