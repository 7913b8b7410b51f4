//! What is derived at a leaf for the tree below it: the key of that tree, and the randomizer of the
//! signature on its public key. Both follow from the leaf alone, so an upper one-time key signs
//! only one public key, whatever message is signed below it.
ghost use Rattle.std.specs.Prelude.{◌≡◌};
ghost use Rattle.lms_spec.specs.Profile.{child as child_of, derived as derived_of, for_nodes, for_randomizer};
ghost use Rattle.lms_tree.specs.TreeKey.{tree_of};
ghost use Rattle.lms_hss.specs.Levels.{level_of};

use lms_ots::{OtsId, secret};
use lms_params::{HASH_LEN, LmsType, OtsType};
use lms_tree::TreeKey;

// The numbers of what is derived. No chain of a one-time key has so high a number, so no secret of
// a chain is derived here.
const FOR_NODES: u16 = 0xfffc;

const FOR_RANDOMIZER: u16 = 0xfffd;

const FOR_CHILD_SEED: u16 = 0xfffe;

const FOR_CHILD_ID: u16 = 0xffff;

/// The key of the tree below leaf q of `parent`'s tree, with these sets.
pub(crate) fn child_key(parent: &TreeKey, q: u32, sets: (LmsType, OtsType)) -> TreeKey
    ensures { tree_of result ≡ child_of (tree_of parent.now) q (level_of sets) }
{
    let (lms, ots) = sets;
    let mut i = [0; 16];
    i.copy_from_slice(&derived(parent, q, FOR_CHILD_ID)[..16]);
    TreeKey {
        lms,
        ots,
        i,
        seed: derived(parent, q, FOR_CHILD_SEED),
    }
}

/// The randomizer of leaf q's signature on the public key of the tree below it.
pub fn randomizer(parent: &TreeKey, q: u32) -> [u8; HASH_LEN]
    ensures { result ≡ derived_of (tree_of parent.now) q for_randomizer }
{
    derived(parent, q, FOR_RANDOMIZER)
}

/// The secret of the check value of kept nodes, derived at leaf 0 of the key's top tree.
pub fn nodes_secret(top: &TreeKey) -> [u8; HASH_LEN]
    ensures { result ≡ derived_of (tree_of top.now) 0 for_nodes }
{
    derived(top, 0, FOR_NODES)
}

/// The value that is derived at leaf q under a number: the hash that gives the secret of a chain of
/// that number.
fn derived(parent: &TreeKey, q: u32, number: u16) -> [u8; HASH_LEN]
    ensures { result ≡ derived_of (tree_of parent.now) q number }
{
    secret(&parent.seed, OtsId { i: parent.i, q }, number)
}
