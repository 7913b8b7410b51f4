//! What bytes are.
ghost use Rattle.std.specs.Prelude.{◌≡◌, IfOk};
ghost use Rattle.lms_inspect.specs.Found.{IsFound, IsNoPublic, IsNoState, status_for};

use crate::public_key::PublicParts;
use crate::signature::SignatureParts;
use lms_commands::Status;
use lms_image::{Image, decode_image};
use lms_params::OutOfMemory;
use std::alloc::Global;

/// What bytes are, and what they say.
#[derive(Drop)]
pub enum Found {
    /// A state image.
    State(Image),
    /// An HSS public key.
    Public(PublicParts),
    /// An HSS signature, under whichever key.
    Signature(SignatureParts),
    /// None of these.
    Nothing,
}

impl Found {
    /// The first in the order of the variants that the bytes are. `OutOfMemory` where memory for the
    /// levels of a signature is refused.
    pub(crate) fn of(alloc: Global, bytes: &[u8]) -> Result<Self, OutOfMemory>
        ensures { IfOk result (λ found. IsFound found bytes.now) }
    {
        match decode_image(bytes) {
            Ok(image) => Ok(Found::State(image)),
            Err(_) => Found::of_no_state(alloc, bytes),
        }
    }

    /// As `of`, where the bytes are no state image.
    fn of_no_state(alloc: Global, bytes: &[u8]) -> Result<Self, OutOfMemory>
        requires { IsNoState bytes.now }
        ensures { IfOk result (λ found. IsFound found bytes.now) }
    {
        match PublicParts::of(bytes) {
            Some(parts) => Ok(Found::Public(parts)),
            None => Found::of_no_key(alloc, bytes),
        }
    }

    /// As `of`, where the bytes are neither a state image nor a public key.
    fn of_no_key(alloc: Global, bytes: &[u8]) -> Result<Self, OutOfMemory>
        requires state { IsNoState bytes.now }
        requires public { IsNoPublic bytes.now }
        ensures { IfOk result (λ found. IsFound found bytes.now) }
    {
        match SignatureParts::of(alloc, bytes)? {
            Some(parts) => Ok(Found::Signature(parts)),
            None => Ok(Found::Nothing),
        }
    }

    /// How the program ends that found this.
    pub(crate) fn status(&self) -> Status
        ensures { result ≡ status_for self.now }
    {
        match self {
            Found::State(_) | Found::Public(_) | Found::Signature(_) => Status::Done,
            Found::Nothing => Status::Negative,
        }
    }
}
