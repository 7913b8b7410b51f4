//! The nodes of a tree (RFC 8554, 5.3). Node 1 is the root, nodes 2r and 2r + 1 are the children of
//! r, and leaf q is node 2^h + q.
ghost use Rattle.std.specs.Prelude.{◌≡◌, ◌+◌, ◌^◌, ◌<◌};
ghost use Rattle.lms_spec.specs.Parameters.{greatest_height};
ghost use Rattle.lms_spec.specs.Tree.{leaf_hash as leaf_hash_of, inner_hash as inner_hash_of};
ghost use Rattle.lms_params.specs.LmsType.{lms_set_of};

use lms_ots::hasher_at;
use lms_params::{HASH_LEN, LmsType};
use sha2::Digest;

/// D_LEAF: separates the hash of a leaf from other hashes (5.3).
const D_LEAF: u16 = 0x8282;
/// D_INTR: separates the hash of an inner node from other hashes (5.3).
const D_INTR: u16 = 0x8383;

/// The number of leaves of a tree, 2^h (RFC 8554, 5.3), which is also the number of its leftmost
/// leaf as a node.
pub fn leaf_count(lms: LmsType) -> u32
    ensures count { result ≡ 2 ^ (lms_set_of lms).h }
    ensures fits { result < 2 ^ (greatest_height + 1) }
{
    1 << lms.height()
}

/// The value of node r, a leaf of the tree with identifier I, over its one-time public hash
/// (RFC 8554, 5.3).
#[tactic(auto, unfolding(lms_spec::specs::Tree::leaf_hash))]
pub fn leaf_hash(id: &[u8; 16], r: u32, ots_public: &[u8; HASH_LEN]) -> [u8; HASH_LEN]
    ensures { result ≡ leaf_hash_of id.now r ots_public.now }
{
    let mut hasher = hasher_at(id, r);
    hasher.update(D_LEAF.to_be_bytes());
    hasher.update(ots_public);
    hasher.finalize()
}

/// The value of node r, an inner node of the tree with identifier I, over those of its two children
/// (RFC 8554, 5.3).
#[tactic(auto, unfolding(lms_spec::specs::Tree::inner_hash))]
pub fn inner_hash(
    id: &[u8; 16],
    r: u32,
    left: &[u8; HASH_LEN],
    right: &[u8; HASH_LEN],
) -> [u8; HASH_LEN]
    ensures { result ≡ inner_hash_of id.now r left.now right.now }
{
    let mut hasher = hasher_at(id, r);
    hasher.update(D_INTR.to_be_bytes());
    hasher.update(left);
    hasher.update(right);
    hasher.finalize()
}
