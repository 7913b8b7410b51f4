//! The private key of HSS, and what its indices go through.
ghost use Rattle.std.specs.Prelude.{◌≡◌, ◌↔◌, ◌-◌, ◌/◌, ◌%◌, ◌^◌, ◌<◌, ◌≤◌, ◌++◌, length, map, replicate, IfOk, IsTrue};
ghost use Rattle.lms_spec.specs.Bytes.{below, u32str};
ghost use Rattle.lms_spec.specs.Hss.{hss_signature_length, capacity_of, level, most_levels};
ghost use Rattle.lms_spec.specs.Profile.{hss_public_key, leaf_at, tree_at};
ghost use Rattle.lms_tree.specs.TreeKey.{tree_of};
ghost use Rattle.lms_hss.specs.Levels.{levels_of, most_height};
ghost use Rattle.lms_hss.specs.Covered.{most_covered};
ghost use Rattle.lms_hss.specs.Keys.{hss_key_of, tree_number as number_of};
ghost use Rattle.lms_hss.specs.Forests.{AreLeavesOf};

use crate::child_key::child_key;
use crate::levels::{Levels, MOST_LEVELS};
use byteorder::{BigEndian, ByteOrder};
use lms_params::{HASH_LEN, OutOfMemory, lms_sig_len};
use lms_tree::{BandTree, Begun, LMS_KEY_LEN, Progress, TreeKey, Unwatched, public_bytes};
use std::alloc::Global;
use std::thread::Threads;

/// The length of an HSS public key in bytes (RFC 8554, 6.1): the number of levels, and the top
/// tree's public key.
pub const HSS_KEY_LEN: usize = 4 + LMS_KEY_LEN;

/// Neighbouring leaves of a tree, from number `first` to number `last`, which is one of them.
#[derive(Clone, Copy)]
pub(crate) struct Leaves {
    pub(crate) first: u32,
    pub(crate) last: u32,
}

/// A private key of HSS (RFC 8554, 6.1): its levels, and the seed and the identifier I of the top
/// tree, from which all trees below follow. There is no `Debug`, which would print the seed.
#[derive(Clone, Copy, PartialEq, Eq)]
pub struct HssKey {
    pub levels: Levels,
    pub seed: [u8; HASH_LEN],
    pub i: [u8; 16],
}

impl HssKey {
    /// The key of these levels with this seed and this identifier.
    pub fn new(levels: Levels, seed: [u8; HASH_LEN], i: [u8; 16]) -> Self
        ensures levels { result.levels ≡ levels }
        ensures seed { result.seed ≡ seed }
        ensures id { result.i ≡ i }
    {
        HssKey { levels, seed, i }
    }

    /// How many messages the key can sign: 2 to the sum of its heights, at most 2^60.
    pub fn capacity(&self) -> u64
        ensures capacity { result ≡ capacity_of (hss_key_of self.now) }
        ensures limit { result ≤ 2 ^ most_height }
    {
        1 << self.levels.height_from(0)
    }

    /// The length in bytes of each signature under the key (RFC 8554, 6.2).
    pub fn sig_len(&self) -> usize
        ensures { result ≡ hss_signature_length (levels_of self.now.levels) }
    {
        let levels = self.levels.as_slice();
        let mut length = 4 + LMS_KEY_LEN * (levels.len() - 1);
        for (lms, ots) in levels {
            length += lms_sig_len(*lms, *ots);
        }
        length
    }

    /// The number of the leaf that index g goes through in each level, from the top level down, and
    /// zeros past the last level: 8 numbers. Indices count the one-time keys of the bottom level
    /// from 0. The index must be below the capacity.
    pub fn places(&self, g: u64) -> [u32; MOST_LEVELS]
        requires { g < capacity_of (hss_key_of self.now) }
        ensures { result
            ≡ map (leaf_at (hss_key_of self.now) g) (below (length self.now.levels))
            ++ replicate (most_levels - length self.now.levels) 0 }
    {
        let mut places = [0; MOST_LEVELS];
        for k in 0..self.levels.as_slice().len() {
            places[k] = self.leaf_of(g, k);
        }
        places
    }

    /// The public key (RFC 8554, 6.1). All leaves of the top tree are computed, by as many threads
    /// as there are processors, at most 32. `OutOfMemory` where memory is refused.
    pub fn public_key(
        &self,
        rt: &(impl Threads + Sync),
        alloc: Global,
    ) -> Result<[u8; HSS_KEY_LEN], OutOfMemory>
        ensures { IfOk result (λ text. text ≡ hss_public_key (hss_key_of self.now)) }
    {
        self.public_key_watched(rt, alloc, &Unwatched)
    }

    /// As `public_key`. The leaves of the top tree are reported to `progress`.
    pub fn public_key_watched(
        &self,
        rt: &(impl Threads + Sync),
        alloc: Global,
        progress: &impl Progress,
    ) -> Result<[u8; HSS_KEY_LEN], OutOfMemory>
        ensures { IfOk result (λ text. text ≡ hss_public_key (hss_key_of self.now)) }
    {
        let (lms, _) = self.levels.as_slice()[0];
        let begun = Begun::new(progress, 1 << lms.height());
        let tree = BandTree::build_watched(rt, alloc, self.top_tree(), 0, 0, &begun)?;
        Ok(self.public_key_over(&tree))
    }

    /// The public key over `top`, which must be the key's tree of level 0.
    pub(crate) fn public_key_over(&self, top: &BandTree) -> [u8; HSS_KEY_LEN]
        requires { tree_of top.now.key ≡ tree_at (hss_key_of self.now) 0 0 }
        ensures { result ≡ hss_public_key (hss_key_of self.now) }
    {
        let levels = self.levels.as_slice().len();
        public_key_bytes(levels as u32, &public_bytes(top))
    }

    /// The key of the tree of level 0, the top level.
    pub(crate) fn top_tree(&self) -> TreeKey
        ensures { tree_of result ≡ tree_at (hss_key_of self.now) 0 0 }
    {
        let (lms, ots) = self.levels.as_slice()[0];
        let HssKey { levels: _, seed, i } = *self;
        TreeKey { lms, ots, i, seed }
    }

    /// The key of the tree of level k that index g goes through.
    pub fn tree_key(&self, g: u64, k: usize) -> TreeKey
        requires { k < length self.now.levels }
        ensures { tree_of result ≡ tree_at (hss_key_of self.now) g k }
    {
        let mut tree = self.top_tree();
        for j in 0..k {
            let sets = self.levels.as_slice()[j + 1];
            tree = child_key(&tree, self.leaf_of(g, j), sets);
        }
        tree
    }

    /// The leaf of level k's tree that index g goes through.
    pub fn leaf_of(&self, g: u64, k: usize) -> u32
        requires { k < length self.now.levels }
        ensures { result ≡ leaf_at (hss_key_of self.now) g k }
    {
        let (lms, _) = self.levels.as_slice()[k];
        (self.tree_number(g, k + 1) % (1 << lms.height())) as u32
    }

    /// The leaves of tree `number` of level k that the indices from `start` to `last` go through,
    /// the first and the last of them. At least one of these indices must go through that tree.
    pub(crate) fn leaves(&self, start: u64, last: u64, k: usize, number: u64) -> Leaves
        requires there { k < length self.now.levels }
        requires order { start ≤ last }
        requires at_most { last - start < most_covered }
        requires from { number_of (hss_key_of self.now) start k ≤ number }
        requires to { number ≤ number_of (hss_key_of self.now) last k }
        ensures { AreLeavesOf (hss_key_of self.now) k number start last result }
    {
        let (lms, _) = self.levels.as_slice()[k];
        let before = number << lms.height();
        let first = self.tree_number(start, k + 1).saturating_sub(before);
        let last = (self.tree_number(last, k + 1) - before).min((1 << lms.height()) - 1);
        Leaves {
            first: first as u32,
            last: last as u32,
        }
    }

    /// How many leaves there are in the trees of level k that the indices from `start` to `last` go
    /// through.
    pub(crate) fn leaves_of_trees(&self, start: u64, last: u64, k: usize) -> u64
        requires { k < length self.now.levels }
    {
        let (lms, _) = self.levels.as_slice()[k];
        let after_first = self
            .tree_number(last, k)
            .saturating_sub(self.tree_number(start, k));
        after_first
            .saturating_add(1)
            .saturating_mul(1 << lms.height())
    }

    /// For tree `number` of level k + 1: the number of the tree of level k above it, and the leaf
    /// there that signs its public key.
    pub(crate) fn parent(&self, number: u64, k: usize) -> (u64, u32)
        requires { k < length self.now.levels }
        ensures tree { result.0 ≡ number / 2 ^ (level (hss_key_of self.now) k).lms.h }
        ensures leaf { result.1 ≡ number % 2 ^ (level (hss_key_of self.now) k).lms.h }
    {
        let (lms, _) = self.levels.as_slice()[k];
        let height = lms.height();
        (number >> height, (number % (1 << height)) as u32)
    }

    /// The number of the tree of level k that index g goes through, counted in its level from 0.
    /// For k equal to the number of levels it is the index itself.
    pub fn tree_number(&self, g: u64, k: usize) -> u64
        requires { k ≤ length self.now.levels }
        ensures { result ≡ number_of (hss_key_of self.now) g k }
    {
        g >> self.levels.height_from(k)
    }
}

/// Whether two keys are the same: their levels, seeds and identifiers.
pub fn same_key(a: &HssKey, b: &HssKey) -> bool
    ensures { IsTrue result ↔ (a.now ≡ b.now) }
{
    a == b
}

/// The HSS public key of so many levels over the LMS public key `top` of the top tree (RFC 8554,
/// 6.1): the number of levels in four bytes, and that key.
pub fn public_key_bytes(levels: u32, top: &[u8; LMS_KEY_LEN]) -> [u8; HSS_KEY_LEN]
    ensures { result ≡ u32str levels ++ top.now }
{
    let mut text = [0; HSS_KEY_LEN];
    BigEndian::write_u32(&mut text, levels);
    text[4..].copy_from_slice(top);
    text
}
