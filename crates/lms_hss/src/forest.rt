//! The trees that a range of indices needs, and signatures from them.
ghost use Rattle.std.specs.Prelude.{◌≡◌, ◌-◌, ◌<◌, ◌≤◌, ◌↔◌, length, IsTrue, IfOk};
ghost use Rattle.lms_spec.specs.Hss.{HssAccepts};
ghost use Rattle.lms_spec.specs.Profile.{hss_signature, hss_public_key};
ghost use Rattle.lms_hss.specs.Keys.{hss_key_of};
ghost use Rattle.lms_hss.specs.Covered.{CanCover, IsCovered, most_covered};
ghost use Rattle.lms_hss.specs.Forests.{AreLevelsFrom, IsSignedTree};

use crate::key::{HSS_KEY_LEN, HssKey};
use crate::level_trees::{LevelTrees, take_tree};
use crate::signed_tree::SignedTree;
use lms_params::{HASH_LEN, OutOfMemory};
use lms_tree::{Begun, Progress, Unwatched};
use std::alloc::Global;
use std::marker::Model;
use std::thread::Threads;

/// All that is needed to sign with a range of a key's indices: the public key, the trees of the
/// bottom level that the indices go through, with the nodes that their signatures need, and the
/// signatures of the levels above, each made once. The trees above are kept for when it moves on.
/// Contracts see the key and the range.
#[derive(Drop)]
pub struct Forest {
    key: HssKey,
    start: u64,
    len: u64,
    public: [u8; HSS_KEY_LEN],
    /// The trees of the levels above, from the top level down.
    upper: Vec<LevelTrees>,
    bottom: LevelTrees,
    alloc: Global,
}

impl Model for Forest {
    ghost use Rattle.lms_hss.specs.Covered.{Covered};

    ghost Value = { Covered };

    ghost use Rattle.std.specs.Prelude.{◌≡◌, ◌-◌, length};
    ghost use Rattle.lms_spec.specs.Profile.{hss_public_key};
    ghost use Rattle.lms_hss.specs.Keys.{hss_key_of};
    ghost use Rattle.lms_hss.specs.Forests.{AreLevelsFrom, HoldsBottom};

    ghost view = { λ a. record { key = a.key; start = a.start; len = a.len } };

    ghost invariant = { λ a.
        HoldsBottom a.key a.start a.len a.bottom × (a.public ≡ hss_public_key (hss_key_of a.key))
        × AreLevelsFrom (hss_key_of a.key) 0 a.upper.items
        × (length a.upper.items ≡ length a.key.levels - 1) };
}

impl Forest {
    /// Computes what signs the indices from `start` to `start + len - 1`, 1 to 1024 indices below
    /// the key's capacity. The trees are computed level by level from the top, each by as many
    /// threads as there are processors, at most 32. `OutOfMemory` where memory is refused.
    pub fn cover(
        rt: &(impl Threads + Sync),
        alloc: Global,
        key: HssKey,
        start: u64,
        len: u64,
    ) -> Result<Self, OutOfMemory>
        requires { CanCover key start len }
        ensures { IfOk result (λ forest. forest ≡ record { key = key; start = start; len = len }) }
    {
        Forest::cover_watched(rt, alloc, key, start, len, &Unwatched)
    }

    /// As `cover`. The leaves of all these trees are reported to `progress`.
    pub fn cover_watched(
        rt: &(impl Threads + Sync),
        alloc: Global,
        key: HssKey,
        start: u64,
        len: u64,
        progress: &impl Progress,
    ) -> Result<Self, OutOfMemory>
        requires { CanCover key start len }
        ensures { IfOk result (λ forest. forest ≡ record { key = key; start = start; len = len }) }
    {
        let last = start + (len - 1);
        let begun = Begun::new(progress, leaves_of_all_trees(&key, start, last));
        Forest::by_kept(rt, alloc, key, start, len, Vec::new(alloc), &begun)
    }

    /// Moves on to other indices of the key, 1 to 1024 below its capacity. Of each level, the tree
    /// that the first of these indices goes through is kept where the forest has it: of that tree
    /// only bottom subtrees are computed, and none where they are the same ones as before. All
    /// others are computed as by `cover`. `OutOfMemory` where memory is refused; the forest is
    /// dropped then.
    pub fn moved_to(
        self,
        rt: &(impl Threads + Sync),
        start: u64,
        len: u64,
    ) -> Result<Self, OutOfMemory>
        requires { CanCover self.key start len }
        ensures { IfOk result (λ forest.
            forest ≡ record { key = self.key; start = start; len = len }) }
    {
        self.moved_to_watched(rt, start, len, &Unwatched)
    }

    /// As `moved_to`. The leaves that are computed are reported to `progress`.
    pub fn moved_to_watched(
        self,
        rt: &(impl Threads + Sync),
        start: u64,
        len: u64,
        progress: &impl Progress,
    ) -> Result<Self, OutOfMemory>
        requires { CanCover self.key start len }
        ensures { IfOk result (λ forest.
            forest ≡ record { key = self.key; start = start; len = len }) }
    {
        let begun = Begun::new(progress, self.leaves_to(start, start + (len - 1)));
        let Forest {
            key,
            start: _,
            len: _,
            public: _,
            upper,
            bottom,
            alloc,
        } = self;
        // for the proof: there is a level
        let _levels = key.levels.as_slice();
        let mut levels = upper;
        levels.push(bottom)?;
        Forest::by_kept(rt, alloc, key, start, len, levels, &begun)
    }

    /// Makes the forest of the `len` indices from `start` on. `kept` has trees of some levels, from
    /// the top level down, or of none. Of each level, the tree that index `start` goes through is
    /// moved on where `kept` has it; all others are computed. `OutOfMemory` where memory is
    /// refused.
    fn by_kept(
        rt: &(impl Threads + Sync),
        alloc: Global,
        key: HssKey,
        start: u64,
        len: u64,
        kept: Vec<LevelTrees>,
        begun: &Begun<impl Progress>,
    ) -> Result<Self, OutOfMemory>
        requires can { CanCover key start len }
        requires kept { AreLevelsFrom (hss_key_of key) 0 kept.items }
        ensures { IfOk result (λ forest. forest ≡ record { key = key; start = start; len = len }) }
    {
        let below_top = key.levels.as_slice().len() - 1;
        let last = start + (len - 1);
        let mut kept = kept;
        // room for the bottom level, too, when the forest moves on
        let mut upper = Vec::with_capacity(alloc, below_top + 1)?;
        let top = take_tree(&mut kept, 0);
        let mut trees = LevelTrees::top(rt, alloc, &key, start, last, top, begun)?;
        let public = trees.tree(0).public_key(&key);
        for k in 0..below_top {
            let first = take_tree(&mut kept, key.tree_number(start, k + 1));
            let below = trees.below(rt, alloc, &key, k, start, last, first, begun)?;
            upper.push_reserved(trees);
            trees = below;
        }
        Ok(Forest {
            key,
            start,
            len,
            public,
            upper,
            bottom: trees,
            alloc,
        })
    }

    /// The public key (RFC 8554, 6.1), computed when the forest was made.
    pub fn public(&self) -> [u8; HSS_KEY_LEN]
        ensures { result ≡ hss_public_key (hss_key_of self.now.key) }
    {
        self.public
    }

    /// The key whose indices it covers.
    pub fn key(&self) -> HssKey
        ensures { result ≡ self.now.key }
    {
        self.key
    }

    /// The first index that it covers.
    pub fn start(&self) -> u64
        ensures { result ≡ self.now.start }
    {
        self.start
    }

    /// How many indices it covers.
    pub fn len(&self) -> u64
        ensures { result ≡ self.now.len }
    {
        self.len
    }

    /// Whether index g is in the range.
    pub fn covers(&self, g: u64) -> bool
        ensures { IsTrue result ↔ IsCovered self.now g }
    {
        g >= self.start && g - self.start < self.len
    }

    /// The signature of a message by index g under the randomizer `c` (RFC 8554, 6.2),
    /// `HssKey::sig_len` bytes. The forest must cover g. Each index must sign one message only,
    /// which is not checked here. `OutOfMemory` where the one request for memory is refused, before
    /// anything is signed.
    pub fn sign(&self, g: u64, c: &[u8; HASH_LEN], msg: &[u8]) -> Result<Vec<u8>, OutOfMemory>
        requires { IsCovered self.now g }
        ensures signature { IfOk result (λ text.
            text.items ≡ hss_signature (hss_key_of self.now.key) g c.now msg.now) }
        ensures accepted { IfOk result (λ text.
            HssAccepts (hss_public_key (hss_key_of self.now.key)) msg.now text.items) }
    {
        let bottom = self.key.levels.as_slice().len() - 1;
        let tree = self.bottom_tree(g, bottom);
        tree.sign(self.alloc, self.key.leaf_of(g, bottom), c, msg)
    }

    /// How many leaves a move to the indices from `start` to `last` computes.
    fn leaves_to(&self, start: u64, last: u64) -> u64
        requires order { start ≤ last }
        requires at_most { last - start < most_covered }
    {
        let mut leaves = leaves_of_all_trees(&self.key, start, last);
        let bottom = self.key.levels.as_slice().len() - 1;
        for k in 0..bottom {
            let spared = self.upper[k].leaves_spared(&self.key, k, start, last);
            leaves = leaves.saturating_sub(spared);
        }
        leaves.saturating_sub(self.bottom.leaves_spared(&self.key, bottom, start, last))
    }

    /// The tree of the bottom level that index g goes through. The forest must cover g, and
    /// `bottom` must be the number of that level, from 0 at the top.
    fn bottom_tree(&self, g: u64, bottom: usize) -> &SignedTree
        requires covered { IsCovered self.now g }
        requires bottom { bottom ≡ length self.now.key.levels - 1 }
        ensures { IsSignedTree (hss_key_of self.now.key) g bottom result.now }
    {
        self.bottom.tree(self.key.tree_number(g, bottom))
    }
}

/// How many leaves there are in all trees that the indices from `start` to `last` go through.
fn leaves_of_all_trees(key: &HssKey, start: u64, last: u64) -> u64 {
    let mut leaves = 0u64;
    for k in 0..key.levels.as_slice().len() {
        leaves = leaves.saturating_add(key.leaves_of_trees(start, last, k));
    }
    leaves
}
