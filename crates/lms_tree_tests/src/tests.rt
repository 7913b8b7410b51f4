//! What tests of this crate share, and that whole trees and bands sign as the slow signer does.
ghost use Rattle.std.specs.Prelude.{◌≡◌, IfOk};

mod kept;
mod meter;
mod moves;
mod nodes;
mod progress;
mod vectors;
mod verification;

use hex::FromHex;
use lms_params::{LmsType, OtsType, OutOfMemory, lms_sig_len};
use lms_slow::{SlowKey, SlowTree, slow_sign};
use lms_tree::{
    BandTree, NodeSource, PublicKey, TreeKey, WholeTree, public_bytes, sign_into, verify,
};
use sha2::{Digest, Sha256};
use std::alloc::{AllocError, Global};
use std::process::Abort;
use std::test::Fail;
use std::thread::Threads;

const RANDOMIZER: [u8; 32] = [0x33; 32];

/// A key of these sets.
fn key_of(lms: LmsType, ots: OtsType) -> TreeKey {
    TreeKey {
        lms,
        ots,
        i: [0x22; 16],
        seed: [0x11; 32],
    }
}

/// The signature of a message by a leaf that the tree serves.
fn signature<N: NodeSource>(
    rt: &(impl Abort + AllocGlobal),
    tree: &N,
    q: u32,
    c: &[u8; 32],
    msg: &[u8],
) -> Result<Vec<u8>, AllocError> {
    assert!(rt; tree.first() <= q && q <= tree.last());
    let key = tree.key();
    let mut text = vec![in rt.alloc(); 0; lms_sig_len(key.lms, key.ots)]?;
    sign_into(tree, q, c, msg, &mut text);
    Ok(text)
}

/// The slow signer's signature of `abc`, an LMS signature after the four bytes of an HSS signature
/// of one level.
fn slow_signature(alloc: Global, key: TreeKey, q: u32) -> Result<Vec<u8>, AllocError> {
    let TreeKey { lms, ots, i, seed } = key;
    let slow = SlowKey {
        levels: &[(lms, ots)],
        seed,
        id: i,
    };
    slow_sign(alloc, &slow, u64::from(q), &RANDOMIZER, b"abc")
}

/// Node r of the slow signer's tree of a key, from node 1 on.
fn slow_node(key: TreeKey, r: u32) -> [u8; 32] {
    let TreeKey { lms, ots, i, seed } = key;
    let slow = SlowTree {
        lms,
        ots,
        seed,
        id: i,
    };
    slow.node(r.max(1))
}

/// Whether a signature is one of `abc` alone.
fn is_accepted(public: &[u8; 56], text: &[u8]) -> bool {
    verify(public, b"abc", text) && !verify(public, b"abd", text)
}

/// Whether a leaf's signature equals the slow signer's and is accepted, for its message alone, and
/// its path ends with a child of the root. The tree has height 5.
fn signs_as_slow(
    rt: &(impl Abort + AllocGlobal),
    tree: &WholeTree,
    q: u32,
) -> Result<bool, AllocError> {
    let end = slow_node(tree.key(), if q < 16 { 3 } else { 2 });
    let text = signature(rt, tree, q, &RANDOMIZER, b"abc")?;
    let slow = slow_signature(rt.alloc(), tree.key(), q)?;
    Ok(
        slow.get(4..) == Some(text.as_slice())
            && text.ends_with(&end)
            && is_accepted(&public_bytes(tree), &text),
    )
}

/// Whether a tree of 5/8 serves 32 leaves, whose signatures have 1292 bytes.
fn is_served(tree: &WholeTree) -> bool {
    let public = public_bytes(tree);
    let length = PublicKey::parse(&public).map(|key| key.signature_len());
    tree.first() == 0
        && tree.last() == 31
        && length == Some(1292)
        && lms_sig_len(LmsType::H5, OtsType::W8) == 1292
        && PublicKey::parse(public.get(..55).unwrap_or(&[])).is_none()
}

#[test]
fn signs_with_every_leaf(rt: HostRuntime) -> Result<(), Fail> {
    let tree = WholeTree::build(&rt, rt.alloc(), key_of(LmsType::H5, OtsType::W8))?;
    assert!(rt; is_served(&tree));
    for q in 0..32 {
        assert!(rt; signs_as_slow(&rt, &tree, q)?, "{q}");
    }
    Ok(())
}

#[test]
fn signs_under_every_width(rt: HostRuntime) -> Result<(), Fail> {
    for ots in [OtsType::W1, OtsType::W2, OtsType::W4] {
        let tree = WholeTree::build(&rt, rt.alloc(), key_of(LmsType::H5, ots))?;
        assert!(rt;
            signs_as_slow(&rt, &tree, 0)? && signs_as_slow(&rt, &tree, 31)?,
            "{ots:?}"
        );
    }
    Ok(())
}

/// Nodes of a tree of height 5, each with a leaf and its place in that leaf's path.
const NODES: [(u32, u32, u16); 4] = [(2, 16, 4), (31, 28, 1), (32, 1, 0), (63, 30, 0)];

/// Node r of a key's tree, computed alone. There are such nodes in a tree of every height.
fn node_of(rt: &impl Abort, key: TreeKey, r: u32) -> [u8; 32] {
    assert!(rt; 1 <= r && r < 64);
    key.subtree_root(r)
}

/// Whether a public key ends with the root of a key's tree, computed alone.
fn has_root(rt: &impl Abort, public: &[u8; 56], key: TreeKey) -> bool {
    public.ends_with(&node_of(rt, key, 1))
}

#[test]
fn finds_single_nodes(rt: HostRuntime) -> Result<(), Fail> {
    let key = key_of(LmsType::H5, OtsType::W8);
    let tree = WholeTree::build(&rt, rt.alloc(), key)?;
    assert!(rt; has_root(&rt, &public_bytes(&tree), key) && key.leaf(31) == node_of(&rt, key, 63));
    for (r, q, place) in NODES {
        let value = node_of(&rt, key, r);
        let start = 1132 + 32 * usize::from(place);
        let text = signature(&rt, &tree, q, &RANDOMIZER, b"abc")?;
        assert!(rt;
            text.get(start..start + 32) == Some(value.as_slice()),
            "{r}"
        );
    }
    Ok(())
}

/// What serves these leaves of a key, which has them.
fn band(
    rt: &(impl Abort + AllocGlobal + Threads + Sync),
    key: TreeKey,
    first: u32,
    last: u32,
) -> Result<BandTree, OutOfMemory>
    ensures { IfOk result (λ tree. tree ≡ record { key = key; first = first; last = last }) }
{
    assert!(rt; first <= last && last < 1 << key.lms.height() && last - first < 1024);
    BandTree::build(rt, rt.alloc(), key, first, last)
}

/// Keys, ranges of their leaves, and how many nodes are held to serve these.
const BANDS: [(LmsType, OtsType, u32, u32, usize); 5] = [
    (LmsType::H5, OtsType::W8, 0, 31, 64),
    (LmsType::H10, OtsType::W4, 0, 1023, 2048),
    (LmsType::H15, OtsType::W2, 1000, 1023, 2110),
    (LmsType::H15, OtsType::W2, 1000, 1100, 4157),
    (LmsType::H15, OtsType::W2, 31744, 32767, 2110),
];

#[test]
fn keeps_few_nodes(rt: HostRuntime) -> Result<(), Fail> {
    for (lms, ots, first, last, kept) in BANDS {
        let tree = band(&rt, key_of(lms, ots), first, last)?;
        assert!(rt;
            tree.first() == first && tree.last() == last && tree.kept() == kept,
            "{first} {last}"
        );
    }
    Ok(())
}

/// Whether a band's signature by a leaf is that of the whole tree.
fn signs_alike(
    rt: &(impl Abort + AllocGlobal),
    whole: &WholeTree,
    tree: &BandTree,
    q: u32,
) -> Result<bool, AllocError> {
    let text = signature(rt, tree, q, &RANDOMIZER, b"abc")?;
    Ok(signature(rt, whole, q, &RANDOMIZER, b"abc")? == text)
}

/// A band signs by each of its leaves as the whole tree does.
fn check_leaves(
    rt: &(impl Abort + AllocGlobal),
    whole: &WholeTree,
    tree: &BandTree,
) -> Result<(), Fail> {
    assert!(rt; public_bytes(tree) == public_bytes(whole));
    for q in tree.first()..=tree.last() {
        assert!(rt; signs_alike(rt, whole, tree, q)?, "{q}");
    }
    Ok(())
}

#[test]
fn signs_from_a_band(rt: HostRuntime) -> Result<(), Fail> {
    let key = key_of(LmsType::H5, OtsType::W4);
    let whole = WholeTree::build(&rt, rt.alloc(), key)?;
    for (first, last) in [(0, 31), (7, 8), (31, 31)] {
        check_leaves(&rt, &whole, &band(&rt, key, first, last)?)?;
    }
    Ok(())
}

/// Whether this is the hash that these hexadecimal digits stand for.
fn is_hash(hash: &[u8], digits: &str) -> bool {
    let expected: Result<[u8; 32], _> = FromHex::from_hex(digits);
    match expected {
        Ok(expected) => hash == expected.as_slice(),
        Err(_) => false,
    }
}

/// The root of the tree of 15/2, which a program in Python computes with hashlib.
const ROOT: &str = "28e3dc7b80074fec49ce0b1ae3ee30d584559e28f04b471ad793d8b0c5b5809c";

/// Leaves on both sides of the edge between two bottom subtrees of 15/2, each with the node at
/// place 10 of its path and the SHA-256 of its signature of `abc`, which that program makes, too.
const AT_EDGE: [(u32, u32, &str); 4] = [
    (
        1000,
        33,
        "29e0da9c5d78edc4dd1e1f55146408c411f2c88e7697f4dfd5d09232ae7db5ec",
    ),
    (
        1023,
        33,
        "f0a3933cd13abd8a7ed5646effb9eea59b1b4575034594637331aa0876f6bb8e",
    ),
    (
        1024,
        32,
        "49236735571fb49148ea9801fceef84394f8635460953a948054993c523d371b",
    ),
    (
        1100,
        32,
        "dfb8f10ce89552d1327b6979a61be7581d121c74fd8259053fdf7591807cd4f9",
    ),
];

fn at_edge() -> [(u32, u32, &'static str); 4] {
    AT_EDGE
}

/// Whether a band of a tree of 15/2 signs as the whole tree does, an accepted signature with node r
/// at place 10 of the path and this SHA-256.
fn has_path(
    rt: &(impl Abort + AllocGlobal),
    whole: &WholeTree,
    tree: &BandTree,
    q: u32,
    r: u32,
    digest: &str,
) -> Result<bool, AllocError> {
    let value = node_of(rt, whole.key(), r);
    let is_alike = signs_alike(rt, whole, tree, q)?;
    let text = signature(rt, tree, q, &RANDOMIZER, b"abc")?;
    Ok(
        is_alike
            && text.get(4620..4652) == Some(value.as_slice())
            && is_hash(&Sha256::digest(text.as_slice()), digest)
            && verify(&public_bytes(tree), b"abc", &text),
    )
}

/// A band across that edge against the whole tree.
fn check_edge(
    rt: &(impl Abort + AllocGlobal + Threads + Sync),
    whole: &WholeTree,
    key: TreeKey,
) -> Result<(), Fail> {
    let tree = band(rt, key, 1000, 1100)?;
    assert!(rt; public_bytes(&tree) == public_bytes(whole));
    for (q, r, digest) in at_edge() {
        assert!(rt; has_path(rt, whole, &tree, q, r, digest)?, "{q}");
    }
    Ok(())
}

/// Whether a band that ends with the last leaf signs by it as the whole tree does, with a signature
/// of this SHA-256.
fn signs_by_the_last_leaf(
    rt: &(impl Abort + AllocGlobal + Threads + Sync),
    whole: &WholeTree,
    key: TreeKey,
) -> Result<bool, Fail> {
    let digest = "0fe4729f00b875e3713b0cd9988833e3d23f6afb7d2aa8236cac00e70dc33d32";
    Ok(has_path(rt, whole, &band(rt, key, 31744, 32767)?, 32767, 62, digest)?)
}

/// A tree of 15/2, whole and in bands.
fn check_tall_tree(
    rt: &(impl Abort + AllocGlobal + Threads + Sync),
    key: TreeKey,
) -> Result<(), Fail> {
    let whole = WholeTree::build(rt, rt.alloc(), key)?;
    check_edge(rt, &whole, key)?;
    assert!(rt;
        is_hash(public_bytes(&whole).get(24..).unwrap_or(&[]), ROOT)
            && signs_by_the_last_leaf(rt, &whole, key)?
    );
    Ok(())
}

#[test]
fn builds_a_tall_tree(rt: HostRuntime) -> Result<(), Fail> {
    check_tall_tree(&rt, key_of(LmsType::H15, OtsType::W2))
}

/// The merge check refuses each request for memory in turn: where a build is refused, a second one
/// works.
#[test]
fn builds_after_refused_memory(rt: HostRuntime) -> Result<(), Fail> {
    let key = key_of(LmsType::H5, OtsType::W1);
    let tree = match WholeTree::build(&rt, rt.alloc(), key) {
        Ok(tree) => tree,
        Err(OutOfMemory) => WholeTree::build(&rt, rt.alloc(), key)?,
    };
    assert!(rt; has_root(&rt, &public_bytes(&tree), key));
    Ok(())
}

/// The same for a band.
#[test]
fn builds_a_band_after_refused_memory(rt: HostRuntime) -> Result<(), Fail> {
    let key = key_of(LmsType::H5, OtsType::W1);
    let tree = match band(&rt, key, 3, 9) {
        Ok(tree) => tree,
        Err(OutOfMemory) => band(&rt, key, 3, 9)?,
    };
    assert!(rt; has_root(&rt, &public_bytes(&tree), key));
    Ok(())
}
