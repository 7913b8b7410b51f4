//! Public keys and signatures from a source of nodes (RFC 8554, 5.3 and 5.4.1).
ghost use Rattle.std.specs.Prelude.{◌≡◌, ◌+◌, ◌*◌, ◌^◌, ◌≤◌, ◌<◌, ◌++◌, length};
ghost use Rattle.lms_spec.specs.Parameters.{ots_signature_length, greatest_height};
ghost use Rattle.lms_spec.specs.Bytes.{u32str};
ghost use Rattle.lms_spec.specs.Ots.{ots_signature};
ghost use Rattle.lms_spec.specs.Tree.{sibling as sibling_of, lms_public_key, LmsAccepts};
ghost use Rattle.lms_params.specs.LmsType.{lms_set_of};
ghost use Rattle.lms_params.specs.OtsType.{ots_set_of};
ghost use Rattle.lms_tree.specs.Kept.{IsSignatureAlong};
ghost use Rattle.lms_tree.specs.TreeKey.{tree_of, path_length_under, path_text, public_text, signature_length_under, signature_text};

use crate::node_source::NodeSource;
use crate::tree_key::TreeKey;
use byteorder::{BigEndian, ByteOrder};
use lms_ots::OtsId;
use lms_params::HASH_LEN;
use lms_verification::leaf_count;

/// The bytes of an LMS public key (5.3).
pub const LMS_KEY_LEN: usize = 56;

/// The public key of a tree over the root that `source` has (RFC 8554, 5.3). It is the tree's where
/// the source's nodes are.
pub fn public_bytes<N: NodeSource>(source: &N) -> [u8; LMS_KEY_LEN]
    ensures { N.are_nodes source.now → result ≡ public_text (N.tree_key source.now) }
{
    let key = source.key();
    public_key_bytes(&key, &source.node(1))
}

/// Signs a message with leaf q under the randomizer `c` (RFC 8554, 5.4.1) and writes the signature
/// to `out`, which must have exactly `lms_sig_len` bytes. The source must serve leaf q. Where its
/// nodes are not the tree's a verifier may refuse it, but its one-time signature is the same.
pub fn sign_into<N: NodeSource>(source: &N, q: u32, c: &[u8; HASH_LEN], msg: &[u8], out: &mut [u8])
    requires first { N.first_leaf source.now ≤ q }
    requires last { q ≤ N.last_leaf source.now }
    requires long { length out.old ≡ signature_length_under (N.tree_key source.now) }
    ensures along { IsSignatureAlong (tree_of (N.tree_key source.now)) q c.now msg.now out.new }
    ensures signature { N.are_nodes source.now
        → out.new ≡ signature_text (N.tree_key source.now) q c.now msg.now }
    ensures accepted { N.are_nodes source.now
        → LmsAccepts (public_text (N.tree_key source.now)) msg.now out.new }
{
    let key = source.key();
    let path_start = 8 + key.ots.sig_len();
    write_head(&key, q, c, msg, &mut out[..path_start]);
    write_path(source, q, &mut out[path_start..]);
}

/// Writes what is before a signature's path: the leaf's number, the one-time signature and the
/// typecode (5.4).
fn write_head(key: &TreeKey, q: u32, c: &[u8; HASH_LEN], msg: &[u8], out: &mut [u8])
    requires { length out.old ≡ 8 + ots_signature_length (ots_set_of key.now.ots) }
    ensures { out.new
        ≡ u32str q ++ ots_signature (ots_set_of key.now.ots) key.now.i key.now.seed q c.now msg.now
        ++ u32str (lms_set_of key.now.lms).code }
{
    let ots_end = 4 + key.ots.sig_len();
    let id = OtsId { i: key.i, q };
    BigEndian::write_u32(out, q);
    lms_ots::sign_into(key.ots, &key.seed, id, c, msg, &mut out[4..ots_end]);
    BigEndian::write_u32(&mut out[ots_end..], key.lms.code());
}

/// Writes the path of leaf q: what `source` has of the siblings on its way up to the root (5.4).
fn write_path<N: NodeSource>(source: &N, q: u32, out: &mut [u8])
    requires first { N.first_leaf source.now ≤ q }
    requires last { q ≤ N.last_leaf source.now }
    requires long { length out.old ≡ path_length_under (N.tree_key source.now) }
    ensures long { length out.new ≡ path_length_under (N.tree_key source.now) }
    ensures path { N.are_nodes source.now → out.new ≡ path_text (N.tree_key source.now) q }
{
    let key = source.key();
    let leaf = leaf_count(key.lms) + q;
    for level in 0..key.lms.height() as usize {
        let value = source.node(sibling(leaf >> level));
        out[HASH_LEN * level..HASH_LEN * level + HASH_LEN].copy_from_slice(&value);
    }
}

/// The other child of a node's parent.
fn sibling(r: u32) -> u32
    requires { r < 2 ^ (greatest_height + 1) }
    ensures { result ≡ sibling_of r }
{
    if r % 2 == 0 { r + 1 } else { r - 1 }
}

/// The public key of a tree over this root (5.3).
pub(crate) fn public_key_bytes(key: &TreeKey, root: &[u8; HASH_LEN]) -> [u8; LMS_KEY_LEN]
    ensures { result ≡ lms_public_key (tree_of key.now).lms (tree_of key.now).ots key.now.i root.now }
{
    let mut text = [0; LMS_KEY_LEN];
    BigEndian::write_u32(&mut text, key.lms.code());
    BigEndian::write_u32(&mut text[4..], key.ots.code());
    text[8..24].copy_from_slice(&key.i);
    text[24..].copy_from_slice(root);
    text
}
