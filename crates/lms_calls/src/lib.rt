//! The calls of the verifiers for C (RFC 8554, 6.3), with the chains of all levels taken to their ends
//! by `ends`. No call allocates, starts a thread, waits or keeps anything.
#![tactic(auto)]

ghost use Rattle.std.specs.Prelude.{ℕ, ◌≡◌, List, ◌++◌, false, ◌↔◌, IsTrue};
ghost use Rattle.sha2.specs.Sha256.{sha256};
ghost use Rattle.lms_spec.specs.Hss.{HssAccepts};
ghost use Rattle.lms_hss.specs.Bottoms.{IsMessageHead};
ghost use Rattle.lms_calls.specs.Pieces.{joined};

use lms_hss::Verifier;
pub use lms_hss::{ByEights, ChainEnds, HASH_LEN, MESSAGE_HEAD_LEN, OneByOne, verify_with};

/// A piece of a message: in C a pointer and a length.
#[repr(C)]
#[derive(Clone, Copy)]
pub struct Piece<'a> {
    pub bytes: &'a [u8],
}

/// Whether a signature is accepted for the message that these pieces make, one after another (RFC
/// 8554, 6.3). Key, pieces and signature may have any length.
pub fn verify_pieces<C: ChainEnds>(
    public: &[u8],
    pieces: &[Piece],
    signature: &[u8],
    ends: C,
) -> bool
    ensures { IsTrue result ↔ HssAccepts public.now (joined pieces.now) signature.now }
{
    let Some(mut verifier) = Verifier::begin(public, signature, ends) else {
        return false;
    };
    for piece in pieces {
        verifier.update(piece.bytes);
    }
    verifier.finish(ends)
}

/// Writes the bytes of the hash input before the message to `head`: I, q, D_MESG and C of the
/// bottom level (RFC 8554, 4.5), for a caller that hashes the message itself. True says nothing of
/// a message yet. False exactly where there is no head: no message is accepted then, and `head`
/// stays as it was.
pub fn message_head<C: ChainEnds>(
    public: &[u8],
    signature: &[u8],
    head: &mut [u8; MESSAGE_HEAD_LEN],
    ends: C,
) -> bool
    ensures head { IsTrue result → IsMessageHead public.now signature.now head.new }
    ensures never { result ≡ false → (message : List ℕ)
        → ¬ HssAccepts public.now message signature.now }
    ensures no_head { result ≡ false → (head : List ℕ)
        → ¬ IsMessageHead public.now signature.now head }
    ensures unwritten { result ≡ false → head.new ≡ head.old }
{
    let Some(verifier) = Verifier::begin(public, signature, ends) else {
        return false;
    };
    *head = verifier.head();
    true
}

/// Whether a signature is accepted for a message under a public key (RFC 8554, 6.3), where `hash`
/// is the SHA-256 of the head that `message_head` writes and the message. False, too, where there
/// is no head.
pub fn verify_hash<C: ChainEnds>(
    public: &[u8],
    signature: &[u8],
    hash: &[u8; HASH_LEN],
    ends: C,
) -> bool
    ensures verdict { (head message : List ℕ) → IsMessageHead public.now signature.now head
        → hash.now ≡ sha256 (head ++ message)
        → (IsTrue result ↔ HssAccepts public.now message signature.now) }
    ensures head { IsTrue result → (head : List ℕ) × IsMessageHead public.now signature.now head }
{
    let Some(verifier) = Verifier::begin(public, signature, ends) else {
        return false;
    };
    verifier.finish_by_hash(hash, ends)
}
