//! The public hash that a one-time signature leads to (RFC 8554, 4.6).
ghost use Rattle.std.specs.Prelude.{ℕ, ◌≡◌, ◌++◌, List, [], IfSome, IfNone};
ghost use Rattle.sha2.specs.Sha256.{sha256};
ghost use Rattle.lms_spec.specs.Parameters.{OtsSet};
ghost use Rattle.lms_spec.specs.Ots.{message_hash as message_hash_of, IsOtsSignature, LeadsTo};
ghost use Rattle.lms_params.specs.OtsType.{ots_set_of};
ghost use Rattle.lms_ots.specs.Heads.{ots_head};
ghost use Rattle.lms_ots.specs.Verifying.{HasTaken};

use crate::chain_ends::{ByEights, ChainEnds};
use crate::one_time_key::OtsId;
use crate::signing::{MESSAGE_HEAD_LEN, Signature, message_hasher, message_head};
use lms_params::{HASH_LEN, OtsType, digits};
use sha2::{Digest, Sha256};

/// The public hash that a signature of a message leads to (RFC 8554, 4.6). `None` exactly where the
/// signature's typecode or its length is not that of `t`. Its chains are taken to their ends by
/// eights.
pub fn candidate(t: OtsType, id: OtsId, sig: &[u8], msg: &[u8]) -> Option<[u8; HASH_LEN]>
    ensures some { IfSome result (λ k. LeadsTo (ots_set_of t) id.i id.q sig.now msg.now k) }
    ensures none { IfNone result
        ((k : List ℕ) → ¬ LeadsTo (ots_set_of t) id.i id.q sig.now msg.now k) }
{
    let mut verifier = Verifier::begin(t, id, sig)?;
    verifier.update(msg);
    Some(verifier.finish(ByEights))
}

/// Finds the public hash that a signature leads to (RFC 8554, 4.6). For a message in pieces of any
/// lengths, call `begin`, `update` with each piece in order, and `finish`. For a message that
/// another hasher takes, call `begin`, `head` and `finish_by_hash`.
#[derive(Drop)]
pub struct Verifier<'a> {
    id: OtsId,
    signature: Signature<'a>,
    hasher: Sha256,
}

impl<'a> Verifier<'a> {
    /// A verifier of the signature `sig` by the one-time key `id`, before the first byte of the
    /// message. `None` exactly where the signature's typecode or its length, `t.sig_len()`, is not
    /// that of `t`: it leads to nothing then, whatever the message.
    pub fn begin(t: OtsType, id: OtsId, sig: &'a [u8]) -> Option<Self>
        ensures some { IfSome result (λ v. HasTaken v (ots_set_of t) id.i id.q sig.now []) }
        ensures none { IfNone result
            ((message k : List ℕ) → ¬ LeadsTo (ots_set_of t) id.i id.q sig.now message k) }
        ensures no_parts { IfNone result
            ((randomizer : List ℕ) (values : List (List ℕ))
            → ¬ IsOtsSignature (ots_set_of t) randomizer values sig.now) }
    {
        let signature = Signature::parse(t, sig)?;
        let hasher = message_hasher(id, signature.randomizer);
        Some(Verifier {
            id,
            signature,
            hasher,
        })
    }

    /// Takes the next piece of the message.
    pub fn update(&mut self, piece: &[u8])
        ensures { (t : OtsSet) (id : List ℕ) (q : ℕ) (signature message : List ℕ)
            → HasTaken self.old t id q signature message
            → HasTaken self.new t id q signature (message ++ piece.now) }
    {
        self.hasher.update(piece);
    }

    /// The public hash that the signature and the message lead to (4.6). `ends` takes the
    /// signature's chains to their ends.
    pub fn finish<C: ChainEnds>(self, ends: C) -> [u8; HASH_LEN]
        ensures { (t : OtsSet) (id : List ℕ) (q : ℕ) (signature message : List ℕ)
            → HasTaken self.entry t id q signature message
            → LeadsTo t id q signature message result }
    {
        let hash = self.hasher.finalize();
        candidate_by_hash(self.signature, self.id, &hash, ends)
    }

    /// The 54 bytes of the hash input before the message: I, q, D_MESG and C (4.5).
    pub fn head(&self) -> [u8; MESSAGE_HEAD_LEN]
        ensures { (t : OtsSet) (id : List ℕ) (q : ℕ) (signature message : List ℕ)
            → HasTaken self.now t id q signature message → result ≡ ots_head id q signature }
    {
        message_head(self.id, self.signature.randomizer)
    }

    /// The public hash that the signature leads to with a message that another hasher took: `hash`
    /// is the SHA-256 of `head` and the message (4.6). `ends` takes the signature's chains to their
    /// ends. What `update` took plays no part.
    pub fn finish_by_hash<C: ChainEnds>(self, hash: &[u8; HASH_LEN], ends: C) -> [u8; HASH_LEN]
        ensures { (t : OtsSet) (id : List ℕ) (q : ℕ) (signature taken message : List ℕ)
            → HasTaken self.entry t id q signature taken
            → hash.now ≡ sha256 (ots_head id q signature ++ message)
            → LeadsTo t id q signature message result }
    {
        candidate_by_hash(self.signature, self.id, hash, ends)
    }
}

/// The public hash that a signature leads to, from the hash of the message (4.6).
fn candidate_by_hash<C: ChainEnds>(
    signature: Signature,
    id: OtsId,
    hash: &[u8; HASH_LEN],
    ends: C,
) -> [u8; HASH_LEN]
    ensures { (text message : List ℕ)
        → IsOtsSignature
        (ots_set_of signature.entry.t) signature.entry.randomizer.now signature.entry.values.now
        text
        → hash.now ≡ message_hash_of id.i id.q signature.entry.randomizer.now message
        → LeadsTo (ots_set_of signature.entry.t) id.i id.q text message result }
{
    let Signature { t, values, .. } = signature;
    let digits = digits(hash, t);
    ends.ends_hash(t, id, &digits, values)
}
