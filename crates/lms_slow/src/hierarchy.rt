//! Levels and child trees (RFC 8554, section 6).
use crate::tree::SlowTree;
use lms_params::{LmsType, OtsType};
use std::alloc::{AllocError, Global};

/// What is derived at a leaf for the tree below it and for the signature of that tree's public key.
/// No chain has so high a number.
const FOR_RANDOMIZER: u16 = 0xfffd;

const FOR_CHILD_SEED: u16 = 0xfffe;

const FOR_CHILD_ID: u16 = 0xffff;

/// What index `g` makes from this tree downwards (RFC 8554, 6.2): of each tree but the last its
/// signature of the next tree's public key and that key, and of the last its signature of the
/// message. `below` has the sets of the levels under this tree's.
pub(crate) fn signatures(
    alloc: Global,
    tree: &SlowTree,
    below: &[(LmsType, OtsType)],
    g: u64,
    c: &[u8; 32],
    msg: &[u8],
) -> Result<Vec<u8>, AllocError> {
    let q = (leaves_before(below, g) % u64::from(tree.leaves())) as u32;
    let path = tree.path(alloc, tree.leaf_number(q))?;
    match below {
        [] => tree.signature(alloc, q, c, msg, &path),
        [(lms, ots), rest @ ..] => {
            let child = child_tree(tree, q, *lms, *ots);
            let public = child.public_key(alloc, &child.node(1))?;
            let randomizer = tree.derived(q, FOR_RANDOMIZER);
            let mut text = tree.signature(alloc, q, &randomizer, &public, &path)?;
            text.extend_from_slice(&public)?;
            text.extend_from_slice(&signatures(alloc, &child, rest, g, c, msg)?)?;
            Ok(text)
        }
    }
}

/// How many leaves of the level over `below`, in all of its trees, lie before the one that index
/// `g` goes through.
fn leaves_before(below: &[(LmsType, OtsType)], g: u64) -> u64 {
    match below {
        [] => g,
        [rest @ .., (lms, _)] => leaves_before(rest, g >> lms.height()),
    }
}

/// The tree below leaf `q`.
fn child_tree(tree: &SlowTree, q: u32, lms: LmsType, ots: OtsType) -> SlowTree {
    let mut id = [0; 16];
    id.copy_from_slice(&tree.derived(q, FOR_CHILD_ID)[..16]);
    SlowTree {
        lms,
        ots,
        seed: tree.derived(q, FOR_CHILD_SEED),
        id,
    }
}
