//! A top key's signature of a signer's key, and what it is joined with.
ghost use Rattle.std.specs.Prelude.{ℕ, ◌≡◌, ◌↔◌, ◌-◌, ◌++◌, List, IfOk, IfErr, IfSome, IfNone};
ghost use Rattle.lms_spec.specs.Bytes.{u32str};
ghost use Rattle.lms_spec.specs.Hss.{HssAccepts};
ghost use Rattle.lms_join.specs.Joined.{count_of, joined_public, joined_signature};
ghost use Rattle.lms_join.specs.Endorsements.{HasMessageHead, IsEndorsed};
ghost use Rattle.lms_join.specs.Faults.{IsRefused};

use crate::fault::EndorsementFault;
use crate::keys::Keys;
use lms_hss::{ChainEnds, HSS_KEY_LEN, LMS_KEY_LEN, OutOfMemory, Verifier, verify_with};
use lms_params::split_u32;
use std::alloc::Global;
use std::marker::Model;

/// A top public key, its signature of a signer's LMS public key, which is accepted, and the
/// signer's public key. Signatures by the signer's key are joined with it as they come, and nothing
/// is verified again. Contracts see the two public keys and the top key's signature.
#[derive(Drop)]
pub struct Endorsement<'a> {
    keys: Keys<'a>,
    signatures: &'a [u8],
}

impl<'a> Model for Endorsement<'a> {
    ghost use Rattle.lms_join.specs.Endorsements.{EndorsementParts, HoldsEndorsement, endorsement_of};

    ghost Value = { EndorsementParts };

    ghost view = { λ a. endorsement_of
        a.keys.top.levels a.keys.signer.levels
        a.keys.top.lms_key.now a.signatures.now a.keys.signer.lms_key.now };

    ghost invariant = { λ a. HoldsEndorsement
        a.keys.top.levels a.keys.signer.levels
        a.keys.top.lms_key.now a.signatures.now a.keys.signer.lms_key.now };
}

impl<'a> Endorsement<'a> {
    /// Verifies the top key's signature of the signer's LMS public key, which is `signer_public`
    /// without its first four bytes (RFC 8554, 6.3). The three may have any length. Chains are
    /// taken to their ends by `ends`. `NotJoinable` exactly where the two keys can't be joined
    /// (`join_public`), `NotAccepted` exactly where they can be and the signature is not accepted.
    pub fn new<C: ChainEnds>(
        top_public: &'a [u8],
        endorsement: &'a [u8],
        signer_public: &'a [u8],
        ends: C,
    ) -> Result<Self, EndorsementFault>
        ensures value { IfOk result (λ it. it ≡ record {
          top_public = top_public.now;
          endorsement = endorsement.now;
          signer_public = signer_public.now;
        }) }
        ensures endorsed { IfOk result (λ _.
            IsEndorsed top_public.now endorsement.now signer_public.now) }
        ensures refused { IfErr result (λ fault.
            IsRefused top_public.now endorsement.now signer_public.now fault) }
    {
        let keys = Keys::parse(top_public, signer_public).ok_or(EndorsementFault::NotJoinable)?;
        let signer_key = keys.signer.lms_key;
        if !verify_with(top_public, signer_key, endorsement, ends) {
            return Err(EndorsementFault::NotAccepted);
        }
        let (_, signatures) = split_u32(endorsement).ok_or(EndorsementFault::NotAccepted)?;
        Ok(Endorsement { keys, signatures })
    }

    /// The public key of joined signatures: the top one with the levels of both (RFC 8554, 6.1).
    pub fn public(&self) -> [u8; HSS_KEY_LEN]
        ensures { result ≡ joined_public self.now.top_public self.now.signer_public }
    {
        self.keys.joined()
    }

    /// The joined signature of the endorsement and a signature by the signer's key, which may have
    /// any length (RFC 8554, 6.2): it is accepted for just the messages for which the signer's is.
    /// Chains are taken to their ends by `ends`. `None` exactly where the signer's key and the
    /// signature have no message head, since the signature is malformed or one of its signed keys is
    /// not accepted: it is accepted for no message then. `OutOfMemory` where they have one, and
    /// memory is refused. A signature by another key of the signer's typecodes has one, too, where the
    /// signer's has one level.
    pub fn join<C: ChainEnds>(
        &self,
        alloc: Global,
        signature: &[u8],
        ends: C,
    ) -> Result<Option<Vec<u8>>, OutOfMemory>
        ensures text { IfOk result (λ answer. IfSome answer (λ text. text.items
            ≡ joined_signature self.now.top_public self.now.endorsement
            self.now.signer_public signature.now)) }
        ensures accepted { IfOk result (λ answer. IfSome answer (λ text. (message : List ℕ)
            → (HssAccepts
            (joined_public self.now.top_public self.now.signer_public) message text.items
            ↔ HssAccepts self.now.signer_public message signature.now))) }
        ensures head { IfOk result (λ answer. IfSome answer (λ _.
            HasMessageHead self.now.signer_public signature.now)) }
        ensures none { IfOk result (λ answer. IfNone answer
            (¬ HasMessageHead self.now.signer_public signature.now)) }
        ensures never { IfOk result (λ answer. IfNone answer ((message : List ℕ)
            → ¬ HssAccepts self.now.signer_public message signature.now)) }
        ensures memory { IfErr result (λ _. HasMessageHead self.now.signer_public signature.now) }
    {
        let Some(signatures) = self.signatures_in(signature, ends) else {
            return Ok(None);
        };
        let Keys { top, signer } = self.keys;
        let signed_keys = top.levels + signer.levels - 1;
        let text = joined_text(
            alloc,
            signed_keys,
            self.signatures,
            signer.lms_key,
            signatures,
        )?;
        Ok(Some(text))
    }

    /// What is after the count of signed keys in a signature by the signer's key, which verifies them.
    /// `None` exactly where the signer's key and the signature have no message head.
    fn signatures_in<'s, C: ChainEnds>(&self, signature: &'s [u8], ends: C) -> Option<&'s [u8]>
        ensures some { IfSome result (λ rest. signature.now
            ≡ u32str (count_of self.now.signer_public - 1) ++ rest.now) }
        ensures head { IfSome result (λ _.
            HasMessageHead self.now.signer_public signature.now) }
        ensures none { IfNone result (¬ HasMessageHead self.now.signer_public signature.now) }
        ensures never { IfNone result ((message : List ℕ)
            → ¬ HssAccepts self.now.signer_public message signature.now) }
    {
        let public = self.keys.signer.public();
        let _verifier = Verifier::begin(&public, signature, ends)?;
        let (_, signatures) = split_u32(signature)?;
        Some(signatures)
    }
}

/// The bytes of a joined signature: `signed_keys` in four bytes, and then the three byte strings in
/// their order. `OutOfMemory` where memory for them is refused.
fn joined_text(
    alloc: Global,
    signed_keys: u32,
    endorsement: &[u8],
    key: &[u8; LMS_KEY_LEN],
    signature: &[u8],
) -> Result<Vec<u8>, OutOfMemory>
    ensures { IfOk result (λ text.
        text.items ≡ u32str signed_keys ++ endorsement.now ++ key.now ++ signature.now) }
{
    let length = (4 + LMS_KEY_LEN)
        .saturating_add(endorsement.len())
        .saturating_add(signature.len());
    let mut text = Vec::with_capacity(alloc, length)?;
    text.extend_from_slice(&signed_keys.to_be_bytes())?;
    text.extend_from_slice(endorsement)?;
    text.extend_from_slice(key)?;
    text.extend_from_slice(signature)?;
    Ok(text)
}
