//! A tree's private key, and the nodes that follow from it.
ghost use Rattle.std.specs.Prelude.{◌≡◌, ◌+◌, ◌*◌, ◌^◌, ◌<◌, ◌≤◌, length};
ghost use Rattle.lms_spec.specs.Tree.{node};
ghost use Rattle.lms_tree.specs.TreeKey.{tree_of};
ghost use Rattle.lms_tree.specs.Held.{AreNodesFrom};

use lms_ots::{LANES, OtsId, eight_public_hashes, public_hash};
use lms_params::{HASH_LEN, LmsType, OtsType};
use lms_verification::{inner_hash, leaf_count, leaf_hash};

/// A tree's private key (RFC 8554, 5.2): its two sets, its identifier I and the seed of its
/// one-time keys. There is no `Debug`, which would print the seed.
#[derive(Clone, Copy, PartialEq, Eq)]
pub struct TreeKey {
    pub lms: LmsType,
    pub ots: OtsType,
    pub i: [u8; 16],
    pub seed: [u8; HASH_LEN],
}

impl TreeKey {
    /// The value of leaf q, below 2^h, which is node 2^h + q (RFC 8554, 5.3).
    pub fn leaf(&self, q: u32) -> [u8; HASH_LEN]
        requires { q < 2 ^ (tree_of self.now).lms.h }
        ensures { result ≡ node (tree_of self.now) (2 ^ (tree_of self.now).lms.h + q) }
    {
        let ots_public = public_hash(self.ots, &self.seed, OtsId { i: self.i, q });
        leaf_hash(&self.i, leaf_count(self.lms) + q, &ots_public)
    }

    /// The values of eight neighbouring leaves from leaf q on, which is at most 2^h - 8 (5.3).
    pub(crate) fn neighbouring_leaves(&self, q: u32) -> [[u8; HASH_LEN]; LANES]
        requires { q + 8 ≤ 2 ^ (tree_of self.now).lms.h }
        ensures long { length result ≡ 8 }
        ensures values { AreNodesFrom self.now (2 ^ (tree_of self.now).lms.h + q) 8 result }
    {
        let first = leaf_count(self.lms) + q;
        let ots_publics = eight_public_hashes(self.ots, &self.seed, OtsId { i: self.i, q });
        let mut values = [[0; HASH_LEN]; LANES];
        'lanes: for k in 0..LANES {
            values[k] = leaf_hash(&self.i, first + k as u32, &ots_publics[k]);
        }
        values
    }

    /// The value of node r, below which there are eight leaves. It is a function of its own so that
    /// its nodes are not on the stack of the calls of `subtree_root` above it.
    #[inline(never)]
    fn root_of_eight(&self, r: u32) -> [u8; HASH_LEN]
        requires from { 2 ^ (tree_of self.now).lms.h ≤ 8 * r }
        requires to { 4 * r < 2 ^ (tree_of self.now).lms.h }
        ensures { result ≡ node (tree_of self.now) r }
    {
        let leaves = self.neighbouring_leaves(8 * r - leaf_count(self.lms));
        let first = inner_hash(&self.i, 4 * r, &leaves[0], &leaves[1]);
        let second = inner_hash(&self.i, 4 * r + 1, &leaves[2], &leaves[3]);
        let third = inner_hash(&self.i, 4 * r + 2, &leaves[4], &leaves[5]);
        let fourth = inner_hash(&self.i, 4 * r + 3, &leaves[6], &leaves[7]);
        let left = inner_hash(&self.i, 2 * r, &first, &second);
        let right = inner_hash(&self.i, 2 * r + 1, &third, &fourth);
        inner_hash(&self.i, r, &left, &right)
    }

    /// The value of node r, from 1 to 2^(h+1) - 1 (RFC 8554, 5.3). All leaves below it are
    /// computed. At any time only the nodes of one path and of eight leaves are in memory.
    pub fn subtree_root(&self, r: u32) -> [u8; HASH_LEN]
        requires some { 1 ≤ r }
        requires in_tree { r < 2 * 2 ^ (tree_of self.now).lms.h }
        ensures { result ≡ node (tree_of self.now) r }
    {
        let leaves = leaf_count(self.lms);
        if r >= leaves {
            return self.leaf(r - leaves);
        }
        if 8 * r >= leaves && 4 * r < leaves {
            return self.root_of_eight(r);
        }
        let left = self.subtree_root(2 * r);
        let right = self.subtree_root(2 * r + 1);
        inner_hash(&self.i, r, &left, &right)
    }
}
