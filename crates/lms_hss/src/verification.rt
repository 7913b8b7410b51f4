//! Verification (RFC 8554, 6.3).
ghost use Rattle.std.specs.Prelude.{ℕ, suc, ◌≡◌, ◌↔◌, ◌++◌, List, [], IsTrue, IfSome, IfNone};
ghost use Rattle.lms_spec.specs.Tree.{LmsAccepts};
ghost use Rattle.lms_spec.specs.Hss.{AcceptsThrough, HssAccepts};
ghost use Rattle.sha2.specs.Sha256.{sha256};
ghost use Rattle.lms_verification.specs.Parts.{HasParts};
ghost use Rattle.lms_hss.specs.SignedKeys.{IsFirstSignedKey};
ghost use Rattle.lms_hss.specs.Bottoms.{Reaches, IsMessageHead};
ghost use Rattle.lms_hss.specs.Verifying.{HasTaken};

use crate::levels::MOST_LEVELS;
use lms_params::{HASH_LEN, split_u32};
use lms_tree::LMS_KEY_LEN;
use lms_verification::{ByEights, ChainEnds, MESSAGE_HEAD_LEN, PublicKey};

/// Whether a signature is accepted for a message under a public key (RFC 8554, 6.3). The three may
/// have any length. The chains of all levels are taken to their ends by eights.
pub fn verify(public: &[u8], msg: &[u8], sig: &[u8]) -> bool
    ensures { IsTrue result ↔ HssAccepts public.now msg.now sig.now }
{
    verify_with(public, msg, sig, ByEights)
}

/// As `verify`, with the chains of all levels taken to their ends by `ends`.
pub fn verify_with<C: ChainEnds>(public: &[u8], msg: &[u8], sig: &[u8], ends: C) -> bool
    ensures { IsTrue result ↔ HssAccepts public.now msg.now sig.now }
{
    let Some(mut verifier) = Verifier::begin(public, sig, ends) else {
        return false;
    };
    verifier.update(msg);
    verifier.finish(ends)
}

/// Verifies a signature (RFC 8554, 6.3) of a message that comes in pieces of any lengths: `begin`,
/// `update` with each piece in its order, `finish`. For a message that another hasher hashes:
/// `begin`, `head`, `finish_by_hash`.
#[derive(Drop)]
pub struct Verifier<'a> {
    bottom: lms_verification::Verifier<'a>,
}

impl<'a> Verifier<'a> {
    /// Begins a verification, before the first byte of the message. The key and the signature may
    /// have any length. The signatures of all levels but the bottom one are verified here, since
    /// they sign keys and not the message. Their chains are taken to their ends by `ends`. `None`
    /// if the key or the signature is malformed or an upper level's signature is invalid. No
    /// message is accepted then, and there is no message head.
    pub fn begin<C: ChainEnds>(public: &[u8], sig: &'a [u8], ends: C) -> Option<Self>
        ensures some { IfSome result (λ v. HasTaken v public.now sig.now []) }
        ensures none { IfNone result
            ((message : List ℕ) → ¬ HssAccepts public.now message sig.now) }
        ensures no_head { IfNone result
            ((head : List ℕ) → ¬ IsMessageHead public.now sig.now head) }
    {
        let (levels, top_key) = split_u32(public)?;
        let (signed_keys, signatures) = split_u32(sig)?;
        if levels == 0 || levels > MOST_LEVELS as u32 || signed_keys != levels - 1 {
            return None;
        }
        let top = PublicKey::parse(top_key)?;
        let signed = Bottom::below(signed_keys, top, signatures, ends)?;
        let bottom = signed.key.verifier(signed.signature)?;
        Some(Verifier { bottom })
    }

    /// Takes the next piece of the message.
    pub fn update(&mut self, piece: &[u8])
        ensures { (public signature message : List ℕ)
            → HasTaken self.old public signature message
            → HasTaken self.new public signature (message ++ piece.now) }
    {
        self.bottom.update(piece);
    }

    /// The bytes of the hash input before the message: I, q, D_MESG and C of the bottom level
    /// (4.5).
    pub fn head(&self) -> [u8; MESSAGE_HEAD_LEN]
        ensures { (public signature message : List ℕ) → HasTaken self.now public signature message
            → IsMessageHead public signature result }
    {
        self.bottom.head()
    }

    /// Whether the signature is accepted for a message that another hasher hashed: `hash` is the
    /// SHA-256 of `head` and the message (6.3). The bottom level's chains are taken to their ends
    /// by `ends`. What `update` took is ignored.
    pub fn finish_by_hash<C: ChainEnds>(self, hash: &[u8; HASH_LEN], ends: C) -> bool
        ensures { (public signature taken head message : List ℕ)
            → HasTaken self.entry public signature taken → IsMessageHead public signature head
            → hash.now ≡ sha256 (head ++ message)
            → (IsTrue result ↔ HssAccepts public message signature) }
    {
        self.bottom.finish_by_hash(hash, ends)
    }

    /// Whether the signature is accepted for the message (6.3), the bottom level's chains taken to
    /// their ends by `ends`.
    pub fn finish<C: ChainEnds>(self, ends: C) -> bool
        ensures { (public signature message : List ℕ)
            → HasTaken self.entry public signature message
            → (IsTrue result ↔ HssAccepts public message signature) }
    {
        self.bottom.finish(ends)
    }
}

/// The bottom level's public key, reached by valid signatures of the levels above, and its
/// signature of the message (6.3).
#[derive(Drop)]
struct Bottom<'a> {
    key: PublicKey,
    signature: &'a [u8],
}

impl<'a> Bottom<'a> {
    /// Goes down so many signed keys, each accepted by the one above. `None` where there are not so
    /// many, where one is not accepted, or where one has no known typecodes: no message is accepted
    /// then.
    fn below<C: ChainEnds>(
        signed_keys: u32,
        key: PublicKey,
        signatures: &'a [u8],
        ends: C,
    ) -> Option<Self>
        ensures some { IfSome result (λ bottom. (message : List ℕ)
            → (AcceptsThrough signed_keys key message signatures.now
            ↔ LmsAccepts bottom.key message bottom.signature.now)) }
        ensures reached { IfSome result (λ bottom.
            Reaches signed_keys key signatures.now bottom.key bottom.signature.now) }
        ensures none { IfNone result
            ((message : List ℕ) → ¬ AcceptsThrough signed_keys key message signatures.now) }
        ensures not_reached { IfNone result ((bottom_key bottom_signature : List ℕ)
            → Reaches signed_keys key signatures.now bottom_key bottom_signature
            → ¬ HasParts bottom_key bottom_signature) }
    {
        let mut left = signed_keys;
        let mut bottom = Bottom {
            key,
            signature: signatures,
        };
        while left > 0 {
            let next = SignedKey::parse(&bottom.key, bottom.signature)?;
            if !bottom.key.accepts(next.key, next.signature, ends) {
                return None;
            }
            let lower = PublicKey::parse(next.key)?;
            bottom = Bottom {
                key: lower,
                signature: next.rest,
            };
            left -= 1;
        }
        Some(bottom)
    }
}

/// A public key with its signature by the level above, and what follows both (6.2).
#[derive(Clone, Copy)]
struct SignedKey<'a> {
    signature: &'a [u8],
    key: &'a [u8],
    rest: &'a [u8],
}

impl<'a> SignedKey<'a> {
    /// Cuts the first signed key off, with a signature as long as the signer's are. `None` exactly
    /// where the bytes are too few: nothing of them is accepted then.
    fn parse(signer: &PublicKey, text: &'a [u8]) -> Option<Self>
        ensures some { IfSome result (λ s.
            IsFirstSignedKey signer.now text.now s.signature.now s.key.now s.rest.now) }
        ensures none { IfNone result
            ((count : ℕ) (message : List ℕ)
            → ¬ AcceptsThrough (suc count) signer.now message text.now) }
        ensures not_cut { IfNone result
            ((signature key rest : List ℕ)
            → ¬ IsFirstSignedKey signer.now text.now signature key rest) }
    {
        let length = signer.signature_len();
        let (signature, rest) = text.split_at_checked(length)?;
        let (key, rest) = rest.split_at_checked(LMS_KEY_LEN)?;
        Some(SignedKey {
            signature,
            key,
            rest,
        })
    }
}
