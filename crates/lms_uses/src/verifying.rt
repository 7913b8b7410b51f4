//! A signature verified.
ghost use Rattle.std.specs.Prelude.{◌↔◌, IsTrue, map};
ghost use Rattle.std.specs.List.{concat};
ghost use Rattle.lms_spec.specs.Hss.{HssAccepts};

use lms_hss::{ByEights, Verifier, verify};

/// Whether a signature of a message is valid under a public key. The three may have any length.
pub fn is_valid(public: &[u8], message: &[u8], signature: &[u8]) -> bool
    ensures { IsTrue result ↔ HssAccepts public.now message.now signature.now }
{
    verify(public, message, signature)
}

/// Whether a signature is valid under a public key for a message that comes in pieces, as a file
/// that is read block by block. All may have any length.
pub fn is_valid_in_pieces(public: &[u8], pieces: &[&[u8]], signature: &[u8]) -> bool
    ensures { IsTrue result ↔ HssAccepts
        public.now (concat (map (λ piece. piece.now) pieces.now)) signature.now }
{
    let Some(mut verifier) = Verifier::begin(public, signature, ByEights) else {
        return false;
    };
    for piece in pieces {
        verifier.update(piece);
    }
    verifier.finish(ByEights)
}
