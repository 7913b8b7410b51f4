//! A slow signer of HSS/LMS (RFC 8554 with SHA-256) for tests, written by recursion straight from
//! the standard's definitions. It shares no code with the product but the enums of `lms_params`: a
//! test that compares the two compares two programs.
#![tactic(auto)]

ghost use Rattle.std.specs.Prelude.{◌≤◌, length};

mod digits;
mod hierarchy;
mod one_time;
mod tree;
pub mod vectors;

pub use crate::digits::slow_digits;
use crate::hierarchy::signatures;
pub use crate::tree::SlowTree;
use lms_params::{LmsType, OtsType};
use std::alloc::{AllocError, Global};

/// A private key of HSS: the sets of its 1 to 8 levels, level 0 at the top, and the seed and the
/// identifier of the top tree.
#[derive(Clone, Copy)]
pub struct SlowKey<'a> {
    pub levels: &'a [(LmsType, OtsType)],
    pub seed: [u8; 32],
    pub id: [u8; 16],
}

/// A one-level HSS public key, 60 bytes, and a signature under it. From byte 4 on each is the LMS
/// public key and the LMS signature.
#[derive(Debug, Drop)]
pub struct PlantedTexts {
    pub public: Vec<u8>,
    pub signature: Vec<u8>,
}

/// The HSS public key (RFC 8554, 6.1), 60 bytes: the number of levels and the LMS public key of the
/// top tree, which is computed whole. Fails when out of memory.
pub fn slow_public(alloc: Global, key: &SlowKey) -> Result<Vec<u8>, AllocError>
    requires some { 1 ≤ length key.now.levels.now }
    requires eight_at_most { length key.now.levels.now ≤ 8 }
{
    let top = top_tree(key);
    let mut text = Vec::from_slice(alloc, &(key.levels.len() as u32).to_be_bytes())?;
    text.extend_from_slice(&top.public_key(alloc, &top.node(1))?)?;
    Ok(text)
}

/// The HSS signature (RFC 8554, 6.2) of a message by index `g`, which counts the one-time keys of
/// the bottom level, over all of its trees, from 0. `c` is the randomizer of the message's own
/// signature. Each tree on the way is computed whole. Fails when out of memory.
pub fn slow_sign(
    alloc: Global,
    key: &SlowKey,
    g: u64,
    c: &[u8; 32],
    msg: &[u8],
) -> Result<Vec<u8>, AllocError>
    requires some { 1 ≤ length key.now.levels.now }
    requires eight_at_most { length key.now.levels.now ≤ 8 }
{
    let below = &key.levels[1..];
    let mut text = Vec::from_slice(alloc, &(below.len() as u32).to_be_bytes())?;
    text.extend_from_slice(&signatures(alloc, &top_tree(key), below, g, c, msg)?)?;
    Ok(text)
}

/// The one-level HSS public key and signature that leaf `q` of a tree makes under path values
/// `path[i]` = 32 bytes of value i + 1, the key's root being where that climb ends. No other leaf
/// is computed, so height 25 is quick too. A `q` of 2^h or more is no leaf's number; nothing else
/// is wrong with the signature then. Fails when out of memory.
pub fn planted(
    alloc: Global,
    tree: &SlowTree,
    q: u32,
    c: &[u8; 32],
    msg: &[u8],
) -> Result<PlantedTexts, AllocError> {
    let path: Vec<[u8; 32]> = (0..tree.lms.height() as u8)
        .map(|i| [i + 1; 32])
        .collect(alloc)?;
    let root = tree.climb(tree.leaf_number(q), tree.leaf(q), &path);
    let mut public = Vec::from_slice(alloc, &1u32.to_be_bytes())?;
    public.extend_from_slice(&tree.public_key(alloc, &root)?)?;
    let mut signature = Vec::from_slice(alloc, &0u32.to_be_bytes())?;
    signature.extend_from_slice(&tree.signature(alloc, q, c, msg, &path)?)?;
    Ok(PlantedTexts { public, signature })
}

/// The tree of level 0.
fn top_tree(key: &SlowKey) -> SlowTree
    requires { 1 ≤ length key.now.levels.now }
{
    let (lms, ots) = key.levels[0];
    SlowTree {
        lms,
        ots,
        seed: key.seed,
        id: key.id,
    }
}
