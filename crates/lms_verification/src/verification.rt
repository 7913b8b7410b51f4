//! Verification (RFC 8554, 5.4.2).
ghost use Rattle.std.specs.Prelude.{ℕ, ◌≡◌, ◌<◌, ◌↔◌, ◌++◌, List, [], IsTrue, IfSome, IfNone};
ghost use Rattle.lms_spec.specs.Parameters.{OtsSet, LmsSet};
ghost use Rattle.sha2.specs.Sha256.{sha256};
ghost use Rattle.lms_spec.specs.Tree.{climb as climb_of, leaf_hash as leaf_hash_of, LmsAccepts};
ghost use Rattle.lms_verification.specs.Heads.{lms_head};
ghost use Rattle.lms_params.specs.LmsType.{lms_set_of};
ghost use Rattle.lms_params.specs.OtsType.{ots_set_of};
ghost use Rattle.lms_verification.specs.Parts.{IsLmsPublicKey, IsLmsSignature, HasSignaturesOf, HasParts};
ghost use Rattle.lms_verification.specs.Verifying.{HasTaken};

use crate::nodes::{inner_hash, leaf_count, leaf_hash};
use lms_ots::{ByEights, ChainEnds, MESSAGE_HEAD_LEN, OtsId};
use lms_params::{HASH_LEN, LmsType, OtsType, lms_sig_len, split_u32};
use std::marker::Model;

/// Whether an LMS signature is accepted for a message under an LMS public key (RFC 8554, 5.4.2).
/// The three may have any length. The signature's chains are taken to their ends by eights.
pub fn verify(public: &[u8], msg: &[u8], sig: &[u8]) -> bool
    ensures { IsTrue result ↔ LmsAccepts public.now msg.now sig.now }
{
    let Some(key) = PublicKey::parse(public) else {
        return false;
    };
    key.accepts(msg, sig, ByEights)
}

/// A public key of known typecodes (5.3): the sets of its tree, the tree's identifier I and its
/// root T[1]. Contracts see its bytes.
#[derive(Drop)]
pub struct PublicKey {
    lms: LmsType,
    ots: OtsType,
    i: [u8; 16],
    root: [u8; HASH_LEN],
}

impl Model for PublicKey {
    ghost use Rattle.std.specs.Prelude.{ℕ, List};
    ghost use Rattle.lms_spec.specs.Tree.{lms_public_key};
    ghost use Rattle.lms_params.specs.LmsType.{lms_set_of};
    ghost use Rattle.lms_params.specs.OtsType.{ots_set_of};
    ghost use Rattle.lms_verification.specs.Parts.{IsLmsPublicKey};

    ghost Value = { List ℕ };

    ghost view = { λ a. lms_public_key (lms_set_of a.lms) (ots_set_of a.ots) a.i a.root };

    ghost invariant = { λ a. IsLmsPublicKey (lms_set_of a.lms) (ots_set_of a.ots) a.i a.root
        (lms_public_key (lms_set_of a.lms) (ots_set_of a.ots) a.i a.root) };
}

impl PublicKey {
    /// Cuts a public key into its parts. `None` exactly where it is no public key of known
    /// typecodes (56 bytes).
    #[tactic(auto, using(crate::proofs::LmsParts::key_lengths))]
    pub fn parse(public: &[u8]) -> Option<Self>
        ensures some { IfSome result (λ key. key ≡ public.now) }
        ensures none { IfNone result
            ((m : LmsSet) (t : OtsSet) (id root : List ℕ)
            → ¬ IsLmsPublicKey m t id root public.now) }
    {
        let (lms_code, rest) = split_u32(public)?;
        let (ots_code, rest) = split_u32(rest)?;
        let (i, rest) = rest.split_first_chunk::<16>()?;
        let root = rest.as_array::<HASH_LEN>()?;
        let lms = LmsType::from_code(lms_code)?;
        let ots = OtsType::from_code(ots_code)?;
        Some(PublicKey {
            lms,
            ots,
            i: *i,
            root: *root,
        })
    }

    /// How many bytes each signature under the key has (RFC 8554, 5.4).
    pub fn signature_len(&self) -> usize
        ensures { HasSignaturesOf result self.now }
    {
        lms_sig_len(self.lms, self.ots)
    }

    /// A verifier of this signature, before the first byte of the message. The signature may have
    /// any length. `None` exactly where its typecodes or its length are not the key's, or its leaf
    /// is not in the tree: no message is accepted then.
    pub fn verifier<'a>(&self, sig: &'a [u8]) -> Option<Verifier<'a>>
        ensures some { IfSome result (λ v. HasTaken v self.now sig.now []) }
        ensures none { IfNone result ((message : List ℕ) → ¬ LmsAccepts self.now message sig.now) }
        ensures no_parts { IfNone result (¬ HasParts self.now sig.now) }
    {
        let sig = Signature::parse(self.lms, self.ots, sig)?;
        let id = OtsId {
            i: self.i,
            q: sig.q,
        };
        let ots = lms_ots::Verifier::begin(self.ots, id, sig.ots_part)?;
        Some(Verifier {
            i: self.i,
            root: self.root,
            leaf: leaf_count(self.lms) + sig.q,
            ots,
            path: sig.path,
        })
    }

    /// Whether a signature is accepted for a message under the key (RFC 8554, 5.4.2), its chains
    /// taken to their ends by `ends`. The message and the signature may have any length.
    pub fn accepts<C: ChainEnds>(&self, msg: &[u8], sig: &[u8], ends: C) -> bool
        ensures { IsTrue result ↔ LmsAccepts self.now msg.now sig.now }
    {
        let Some(mut verifier) = self.verifier(sig) else {
            return false;
        };
        verifier.update(msg);
        verifier.finish(ends)
    }
}

/// Verifies a signature (RFC 8554, 5.4.2) of a message that comes in pieces of any lengths:
/// `PublicKey::verifier`, `update` with each piece in its order, `finish`. For a message that
/// another hasher hashes: `verifier`, `head`, `finish_by_hash`.
#[derive(Drop)]
pub struct Verifier<'a> {
    i: [u8; 16],
    root: [u8; HASH_LEN],
    leaf: u32,
    ots: lms_ots::Verifier<'a>,
    path: &'a [[u8; HASH_LEN]],
}

impl<'a> Verifier<'a> {
    /// Takes the next piece of the message.
    pub fn update(&mut self, piece: &[u8])
        ensures { (public signature message : List ℕ)
            → HasTaken self.old public signature message
            → HasTaken self.new public signature (message ++ piece.now) }
    {
        self.ots.update(piece);
    }

    /// Whether the signature is accepted for the message (5.4.2), its chains taken to their ends by
    /// `ends`.
    pub fn finish<C: ChainEnds>(self, ends: C) -> bool
        ensures { (public signature message : List ℕ)
            → HasTaken self.entry public signature message
            → (IsTrue result ↔ LmsAccepts public message signature) }
    {
        let ots_public = self.ots.finish(ends);
        is_root(&self.i, &self.root, self.leaf, &ots_public, self.path)
    }

    /// The bytes of the hash input before the message: I, q, D_MESG and C (4.5).
    pub fn head(&self) -> [u8; MESSAGE_HEAD_LEN]
        ensures { (public signature message : List ℕ) → HasTaken self.now public signature message
            → result ≡ lms_head public signature }
    {
        self.ots.head()
    }

    /// Whether the signature is accepted for a message that another hasher hashed: `hash` is the
    /// SHA-256 of `head` and the message (5.4.2). Its chains are taken to their ends by `ends`.
    /// What `update` took is ignored.
    pub fn finish_by_hash<C: ChainEnds>(self, hash: &[u8; HASH_LEN], ends: C) -> bool
        ensures { (public signature taken message : List ℕ)
            → HasTaken self.entry public signature taken
            → hash.now ≡ sha256 (lms_head public signature ++ message)
            → (IsTrue result ↔ LmsAccepts public message signature) }
    {
        let ots_public = self.ots.finish_by_hash(hash, ends);
        is_root(&self.i, &self.root, self.leaf, &ots_public, self.path)
    }
}

/// Whether the climb from a leaf, over its one-time public hash, ends at the root (5.4.2).
fn is_root(
    i: &[u8; 16],
    root: &[u8; HASH_LEN],
    leaf: u32,
    ots_public: &[u8; HASH_LEN],
    path: &[[u8; HASH_LEN]],
) -> bool
    ensures { IsTrue result
        ↔ climb_of i.now leaf (leaf_hash_of i.now leaf ots_public.now) path.now ≡ root.now }
{
    climb(i, leaf, leaf_hash(i, leaf, ots_public), path) == *root
}

/// The parts of a signature (5.4): the number of its leaf, the one-time signature and the path.
#[derive(Clone, Copy)]
struct Signature<'a> {
    q: u32,
    ots_part: &'a [u8],
    path: &'a [[u8; HASH_LEN]],
}

impl<'a> Signature<'a> {
    /// The parts of a signature under a key of these sets. `None` exactly where its leaf is not in
    /// the tree, or its LMS typecode or its length is not the key's. The typecode of the one-time
    /// signature may be any.
    fn parse(lms: LmsType, ots: OtsType, sig: &'a [u8]) -> Option<Self>
        ensures some { IfSome result (λ s.
            IsLmsSignature (lms_set_of lms)
            (ots_set_of ots) s.q s.ots_part.now s.path.now sig.now) }
        ensures none { IfNone result
            ((q : ℕ) (o : List ℕ) (path : List (List ℕ))
            → ¬ IsLmsSignature (lms_set_of lms) (ots_set_of ots) q o path sig.now) }
    {
        if sig.len() != lms_sig_len(lms, ots) {
            return None;
        }
        let (q, rest) = split_u32(sig)?;
        if q >= leaf_count(lms) {
            return None;
        }
        let (ots_part, rest) = rest.split_at(ots.sig_len());
        let (code, rest) = split_u32(rest)?;
        if code != lms.code() {
            return None;
        }
        let (path, _) = rest.as_chunks::<HASH_LEN>();
        Some(Signature { q, ots_part, path })
    }
}

/// Where a climb along a path ends, from a node with this value (5.4.2).
fn climb(id: &[u8; 16], node: u32, value: [u8; HASH_LEN], path: &[[u8; HASH_LEN]]) -> [u8; HASH_LEN]
    ensures { result ≡ climb_of id.now node value path.now }
{
    let mut node = node;
    let mut value = value;
    for sibling in path {
        let (left, right) = if node % 2 == 0 {
            (&value, sibling)
        } else {
            (sibling, &value)
        };
        node /= 2;
        value = inner_hash(id, node, left, right);
    }
    value
}
