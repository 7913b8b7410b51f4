//! One-time signatures (RFC 8554, 4.5).
ghost use Rattle.std.specs.Prelude.{ℕ, ◌≡◌, ◌+◌, ◌<◌, ◌≤◌, ◌++◌, List, length, slice_index, take, IfSome, IfNone};
ghost use Rattle.sha2.specs.Hashers.{Holds256};
ghost use Rattle.lms_spec.specs.Bytes.{u16str, u32str};
ghost use Rattle.lms_spec.specs.Hashing.{hash_prefix, d_mesg};
ghost use Rattle.lms_spec.specs.Parameters.{most_chains, ots_signature_length};
ghost use Rattle.lms_spec.specs.Ots.{public_hash as public_hash_of, message_hash as message_hash_of, ots_signature, IsOtsSignature, LeadsTo};
ghost use Rattle.lms_params.specs.OtsType.{ots_set_of};

use crate::chain_hashes::chain_head;
use crate::hashing::hasher_at;
use crate::one_time_key::OtsId;
use crate::walk::walk_all;
use byteorder::{BigEndian, ByteOrder};
use lms_lanes::HEAD_LEN;
use lms_params::{HASH_LEN, MOST_CHAINS, OtsType, digits, split_u32};
use sha2::{Digest, Sha256};

/// The bytes before the message in the hash Q: I, q, D_MESG and C (4.5).
pub const MESSAGE_HEAD_LEN: usize = 54;

/// The bytes before a signature's values: its typecode and the randomizer C (4.5).
const SIGNATURE_HEAD_LEN: usize = 36;

/// D_MESG: the constant that keeps the hash of a message apart from other hashes (4.5).
const D_MESG: u16 = 0x8181;

/// Signs a message with a one-time key (RFC 8554, 4.5) under the randomizer `c`: the whole of
/// `out`, `t.sig_len()` bytes, becomes the signature.
pub fn sign_into(
    t: OtsType,
    seed: &[u8; HASH_LEN],
    id: OtsId,
    c: &[u8; HASH_LEN],
    msg: &[u8],
    out: &mut [u8],
)
    requires { length out.old ≡ ots_signature_length (ots_set_of t) }
    ensures signature { out.new ≡ ots_signature (ots_set_of t) id.i seed.now id.q c.now msg.now }
    ensures candidate { LeadsTo (ots_set_of t) id.i id.q out.new msg.now
        (public_hash_of (ots_set_of t) id.i seed.now id.q) }
{
    let digits = digits(&message_hash(id, c, msg), t);
    let mut values = [[0; HASH_LEN]; MOST_CHAINS];
    walk_all(
        t,
        id,
        &[0xff; MOST_CHAINS],
        &hashes_to(&digits),
        &[*seed],
        &mut values,
    );
    write_head(t, c, out);
    for i in 0..t.p() {
        let at = SIGNATURE_HEAD_LEN + HASH_LEN * i;
        out[at..at + HASH_LEN].copy_from_slice(&values[i]);
    }
}

/// How many hashes lead from the seed to each digit: one makes the secret.
fn hashes_to(digits: &[u8; MOST_CHAINS]) -> [u16; MOST_CHAINS]
    ensures { (i : ℕ) → i < most_chains → slice_index result i ≡ slice_index digits.now i + 1 }
{
    let mut hashes = [0; MOST_CHAINS];
    'chains: for i in 0..MOST_CHAINS {
        hashes[i] = u16::from(digits[i]) + 1;
    }
    hashes
}

/// Writes the bytes before a signature's values: the typecode and the randomizer (4.5).
fn write_head(t: OtsType, c: &[u8; HASH_LEN], out: &mut [u8])
    requires { 36 ≤ length out.old }
    ensures { take 36 out.new ≡ u32str (ots_set_of t).code ++ c.now }
{
    BigEndian::write_u32(out, t.code());
    out[4..SIGNATURE_HEAD_LEN].copy_from_slice(c);
}

/// The parts of a signature (4.5): its set, the randomizer C, and a value of each chain.
#[derive(Clone, Copy)]
pub(crate) struct Signature<'a> {
    pub(crate) t: OtsType,
    pub(crate) randomizer: &'a [u8; HASH_LEN],
    pub(crate) values: &'a [[u8; HASH_LEN]],
    ghost count: { length values.now ≡ (ots_set_of t).p },
}

impl<'a> Signature<'a> {
    /// The parts of a signature of set `t`. `None` exactly where the typecode of `sig` or its
    /// length, `t.sig_len()`, is not that of `t`.
    pub(crate) fn parse(t: OtsType, sig: &'a [u8]) -> Option<Self>
        ensures set { IfSome result (λ s. s.t ≡ t) }
        ensures some { IfSome result (λ s.
            IsOtsSignature (ots_set_of t) s.randomizer.now s.values.now sig.now) }
        ensures none { IfNone result
            ((c : List ℕ) (values : List (List ℕ))
            → ¬ IsOtsSignature (ots_set_of t) c values sig.now) }
    {
        if sig.len() != t.sig_len() {
            return None;
        }
        let (code, rest) = split_u32(sig)?;
        if code != t.code() {
            return None;
        }
        let (randomizer, rest) = rest.split_first_chunk::<HASH_LEN>()?;
        let (values, _) = rest.as_chunks::<HASH_LEN>();
        Some(Signature {
            t,
            randomizer,
            values,
        })
    }
}

/// The hash Q of a message under a randomizer (4.5).
#[tactic(auto, unfolding(lms_spec::specs::Ots::message_hash))]
fn message_hash(id: OtsId, randomizer: &[u8; HASH_LEN], msg: &[u8]) -> [u8; HASH_LEN]
    ensures { result ≡ message_hash_of id.i id.q randomizer.now msg.now }
{
    let mut hasher = message_hasher(id, randomizer);
    hasher.update(msg);
    hasher.finalize()
}

/// A hasher that has taken the bytes before the message in the hash Q (4.5).
pub(crate) fn message_hasher(id: OtsId, randomizer: &[u8; HASH_LEN]) -> Sha256
    ensures { Holds256 result (hash_prefix id.i id.q ++ u16str d_mesg ++ randomizer.now) }
{
    let mut hasher = hasher_at(&id.i, id.q);
    hasher.update(D_MESG.to_be_bytes());
    hasher.update(randomizer);
    hasher
}

/// The bytes before the message in the hash Q (4.5).
pub(crate) fn message_head(id: OtsId, randomizer: &[u8; HASH_LEN]) -> [u8; MESSAGE_HEAD_LEN]
    ensures { result ≡ hash_prefix id.i id.q ++ u16str d_mesg ++ randomizer.now }
{
    let mut head = [0; MESSAGE_HEAD_LEN];
    head[..HEAD_LEN].copy_from_slice(&chain_head(id, D_MESG));
    head[HEAD_LEN..].copy_from_slice(randomizer);
    head
}
