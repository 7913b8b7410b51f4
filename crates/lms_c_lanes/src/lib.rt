//! HSS/LMS verification for C (RFC 8554, 6.3), for servers and desktops: a static library with the
//! header include/lms.h.
//!
//! No call allocates, starts a thread, waits or keeps anything. A slice is a pointer and a length
//! in C. Chains are taken to their ends eight at a time.
#![tactic(auto)]

ghost use Rattle.std.specs.Prelude.{ℕ, ◌≡◌, List, ◌++◌, false, ◌↔◌, IsTrue};
ghost use Rattle.sha2.specs.Sha256.{sha256};
ghost use Rattle.lms_spec.specs.Hss.{HssAccepts};
ghost use Rattle.lms_hss.specs.Bottoms.{IsMessageHead};
ghost use Rattle.lms_calls.specs.Pieces.{joined};

use lms_calls::{ByEights, HASH_LEN, MESSAGE_HEAD_LEN, Piece};

/// Whether a signature is accepted for a message under a public key (RFC 8554, 6.3). The three may
/// have any length.
#[unsafe(no_mangle)]
pub extern "C" fn lms_verify(public: &[u8], message: &[u8], signature: &[u8]) -> bool
    ensures { IsTrue result ↔ HssAccepts public.now message.now signature.now }
{
    lms_calls::verify_with(public, message, signature, ByEights)
}

/// The same for the message that these pieces make, one after another: `lms_calls::verify_pieces`.
#[unsafe(no_mangle)]
pub extern "C" fn lms_verify_pieces(public: &[u8], pieces: &[Piece], signature: &[u8]) -> bool
    ensures { IsTrue result ↔ HssAccepts public.now (joined pieces.now) signature.now }
{
    lms_calls::verify_pieces(public, pieces, signature, ByEights)
}

/// Writes what the hash of a message has before it: `lms_calls::message_head`.
#[unsafe(no_mangle)]
pub extern "C" fn lms_message_head(
    public: &[u8],
    signature: &[u8],
    head: &mut [u8; MESSAGE_HEAD_LEN],
) -> bool
    ensures head { IsTrue result → IsMessageHead public.now signature.now head.new }
    ensures never { result ≡ false → (message : List ℕ)
        → ¬ HssAccepts public.now message signature.now }
    ensures no_head { result ≡ false → (head : List ℕ)
        → ¬ IsMessageHead public.now signature.now head }
    ensures unwritten { result ≡ false → head.new ≡ head.old }
{
    lms_calls::message_head(public, signature, head, ByEights)
}

/// Whether a signature is accepted for a message by the hash of head and message:
/// `lms_calls::verify_hash`.
#[unsafe(no_mangle)]
pub extern "C" fn lms_verify_hash(public: &[u8], signature: &[u8], hash: &[u8; HASH_LEN]) -> bool
    ensures verdict { (head message : List ℕ) → IsMessageHead public.now signature.now head
        → hash.now ≡ sha256 (head ++ message)
        → (IsTrue result ↔ HssAccepts public.now message signature.now) }
    ensures head { IsTrue result → (head : List ℕ) × IsMessageHead public.now signature.now head }
{
    lms_calls::verify_hash(public, signature, hash, ByEights)
}
