//! A tree with its upper nodes in memory, and of the lower ones those that a range of leaves needs.
ghost use Rattle.std.specs.Prelude.{◌≡◌, ◌+◌, ◌/◌, ◌^◌, ◌<◌, ◌≤◌, IfOk};
ghost use Rattle.lms_tree.specs.TreeKey.{tree_of};
ghost use Rattle.lms_params.specs.LmsType.{lms_set_of};
ghost use Rattle.lms_tree.specs.Bands.{bottom_height as bottom_height_of, CanServe, kept_nodes, lower_rows as lower_rows_of, most_kept, most_kept_of_20, moved_leaves};
ghost use Rattle.lms_tree.specs.Kept.{AreNodes, HasShape, ServesLeaf, upper_rows as upper_rows_of};

use crate::band::{Band, Rows};
use crate::kept_tree::KeptTree;
use crate::node_source::NodeSource;
use crate::planned_tree::PlannedTree;
use crate::progress::{Begun, Progress, Unwatched};
use crate::tree_key::TreeKey;
use lms_params::{HASH_LEN, LmsType, OutOfMemory};
use std::alloc::Global;
use std::marker::Model;
use std::thread::Threads;

/// The greatest height of a bottom subtree.
const TALLEST_SUBTREE: u32 = 10;

/// A tree that serves a range of leaves. Its bottom subtrees have height 10, or the tree's height
/// where that is less. Their roots and all nodes above are held, and all nodes of the one or two
/// bottom subtrees that have the leaves served. Contracts see the key and the range.
#[derive(Drop)]
pub struct BandTree {
    pub(crate) first: u32,
    pub(crate) last: u32,
    pub(crate) upper: Band,
    pub(crate) lower: Band,
}

impl Model for BandTree {
    ghost use Rattle.lms_tree.specs.Bands.{ServedLeaves, HoldsBands};

    ghost Value = { ServedLeaves };

    ghost view = { λ a. record { key = a.upper.key; first = a.first; last = a.last } };

    ghost invariant = { λ a. HoldsBands a.first a.last a.upper a.lower };
}

impl BandTree {
    /// Computes what serves the leaves from `first` to `last`, at most 1024 leaves of the tree, by
    /// as many threads as there are processors, at most 32. `OutOfMemory` where one of the two
    /// requests for memory is refused, before anything is computed.
    pub fn build(
        rt: &(impl Threads + Sync),
        alloc: Global,
        key: TreeKey,
        first: u32,
        last: u32,
    ) -> Result<Self, OutOfMemory>
        requires { CanServe key first last }
        ensures { IfOk result (λ tree. tree ≡ record { key = key; first = first; last = last }) }
    {
        BandTree::build_watched(rt, alloc, key, first, last, &Begun::new(&Unwatched, 0))
    }

    /// As `build`. The leaves that are computed, 2^h in all, are reported to the `Progress` of
    /// `begun`.
    pub fn build_watched(
        rt: &(impl Threads + Sync),
        alloc: Global,
        key: TreeKey,
        first: u32,
        last: u32,
        begun: &Begun<impl Progress>,
    ) -> Result<Self, OutOfMemory>
        requires { CanServe key first last }
        ensures { IfOk result (λ tree. tree ≡ record { key = key; first = first; last = last }) }
    {
        let planned = PlannedTree::new(alloc, key, first, last)?;
        Ok(planned.build(rt, begun))
    }

    /// Moves on to other leaves of the tree, from `first` to `last`, at most 1024. The upper nodes
    /// stay. Where the first and the last of these leaves are in the same bottom subtrees as those
    /// of before, nothing is computed; else all of the new ones' bottom subtrees are, also one that
    /// was held, and reported to the `Progress` of `begun`. `OutOfMemory` where the one request for
    /// memory is refused, before anything is computed: then this tree is gone.
    pub fn moved_to(
        self,
        rt: &(impl Threads + Sync),
        alloc: Global,
        first: u32,
        last: u32,
        begun: &Begun<impl Progress>,
    ) -> Result<Self, OutOfMemory>
        requires { CanServe self.key first last }
        ensures { IfOk result (λ tree.
            tree ≡ record { key = self.key; first = first; last = last }) }
    {
        let mut tree = self;
        let key = tree.upper.key();
        let rows = lower_rows(key.lms, first, last);
        if !tree.lower.has_rows(rows) {
            let memory = rows.allocate(alloc)?;
            tree.lower = Band::build(rt, key, rows, memory, None, begun);
        }
        tree.first = first;
        tree.last = last;
        Ok(tree)
    }

    /// How many leaves `moved_to` computes: none where the first and the last leaf are in the bottom
    /// subtrees of those before, else all that the new ones' bottom subtrees have.
    pub fn leaves_to(&self, first: u32, last: u32) -> u64
        ensures { result ≡ moved_leaves (tree_of self.now.key).lms.h
            self.now.first self.now.last first last }
    {
        let depth = bottom_height(self.upper.key().lms);
        let (from, to) = (first >> depth, last >> depth);
        if from == self.first >> depth && to == self.last >> depth {
            return 0;
        }
        (u64::from(to.saturating_sub(from)) + 1) << depth
    }

    /// The number of nodes that are held: those from the root down to the roots of all bottom
    /// subtrees, and all nodes of each bottom subtree that has a leaf served. The root of such a
    /// subtree is held twice. At most 69629 in a tree of height 25, and 6141 up to height 20.
    pub fn kept(&self) -> usize
        ensures count { result
            ≡ kept_nodes (tree_of self.now.key).lms.h self.now.first self.now.last }
        ensures limit { result ≤ most_kept }
        ensures shorter { (tree_of self.now.key).lms.h ≤ 20 → result ≤ most_kept_of_20 }
    {
        self.upper.len() + self.lower.len()
    }

    /// The nodes that are held, as a `KeptTree` that serves the bottom subtree of the leaves
    /// served. These must all be in one. The nodes are the tree's.
    pub fn into_kept(self) -> KeptTree
        requires { self.first / 2 ^ bottom_height_of (tree_of self.key).lms.h
            ≡ self.last / 2 ^ bottom_height_of (tree_of self.key).lms.h }
        ensures key { result.key ≡ self.key }
        ensures subtree { ServesLeaf result self.first }
        ensures shape { HasShape result }
        ensures nodes { AreNodes result }
    {
        let BandTree {
            first,
            last: _,
            upper,
            lower,
        } = self;
        let key = upper.key();
        KeptTree {
            key,
            subtree: first >> bottom_height(key.lms),
            upper: upper.into_nodes(),
            lower: lower.into_nodes(),
        }
    }
}

impl NodeSource for BandTree {
    ghost tree_key = { λ tree. tree.key };

    ghost first_leaf = { λ tree. tree.first };

    ghost last_leaf = { λ tree. tree.last };

    fn key(&self) -> TreeKey {
        self.upper.key()
    }

    fn first(&self) -> u32 {
        self.first
    }

    fn last(&self) -> u32 {
        self.last
    }

    fn node(&self, r: u32) -> [u8; HASH_LEN] {
        let top = self.upper.depth();
        let level = r.ilog2();
        if level <= top {
            self.upper.node(level, r)
        } else {
            self.lower.node(level - top, r)
        }
    }
}

/// The height of a tree's bottom subtrees: 10, or the tree's where that is less.
pub fn bottom_height(lms: LmsType) -> u32
    ensures { result ≡ bottom_height_of (lms_set_of lms).h }
{
    lms.height().min(TALLEST_SUBTREE)
}

/// The rows from the root down to the roots of the bottom subtrees.
pub(crate) fn upper_rows(lms: LmsType) -> Rows
    ensures { result ≡ upper_rows_of (lms_set_of lms).h }
{
    Rows::from_root(lms.height() - bottom_height(lms))
}

/// The rows of the bottom subtrees that have a range of leaves.
pub(crate) fn lower_rows(lms: LmsType, first: u32, last: u32) -> Rows
    requires order { first ≤ last }
    requires in_tree { last < 2 ^ (lms_set_of lms).h }
    ensures { result ≡ lower_rows_of (lms_set_of lms).h first last }
{
    let depth = bottom_height(lms);
    Rows {
        first: (1 << (lms.height() - depth)) + (first >> depth),
        width: (last >> depth) - (first >> depth) + 1,
        depth,
    }
}
