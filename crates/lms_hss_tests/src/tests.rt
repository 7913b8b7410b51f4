//! What tests of this crate share.

mod damage;
mod forests;
mod keys;
mod moves;
mod pieces;
mod verification;

use lms_hss::verify;
use lms_params::{LmsType, OtsType};
use lms_slow::vectors::{VECTORS, Vector};
use lms_slow::{PlantedTexts, SlowKey, slow_public, slow_sign};
use std::alloc::AllocError;
use std::process::Abort;

const RANDOMIZER: [u8; 32] = [0x33; 32];

/// A level of 5/8.
const LEVEL: (LmsType, OtsType) = (LmsType::H5, OtsType::W8);

/// A level whose trees are computed quickly.
const QUICK: (LmsType, OtsType) = (LmsType::H5, OtsType::W2);

/// Three levels of different widths.
const THREE_LEVELS: [(LmsType, OtsType); 3] = [
    LEVEL,
    (LmsType::H5, OtsType::W4),
    (LmsType::H5, OtsType::W2),
];

/// What another implementation made.
fn vectors() -> [Vector; 7] {
    VECTORS
}

/// The slow signer's public key of these levels, 1 to 8, and its signature of a message by this
/// index.
fn signed(
    rt: &(impl Abort + AllocGlobal),
    levels: &[(LmsType, OtsType)],
    g: u64,
    message: &[u8],
) -> Result<PlantedTexts, AllocError> {
    assert!(rt; !levels.is_empty() && levels.len() <= 8);
    let key = SlowKey {
        levels,
        seed: [0x11; 32],
        id: [0x22; 16],
    };
    let public = slow_public(rt.alloc(), &key)?;
    let signature = slow_sign(rt.alloc(), &key, g, &RANDOMIZER, message)?;
    Ok(PlantedTexts { public, signature })
}

/// Whether these are a public key and a signature of `abc` under it.
fn verifies(texts: &PlantedTexts) -> bool {
    verify(&texts.public, b"abc", &texts.signature)
}

/// Whether a signature is one of `abc` alone.
fn is_accepted(public: &[u8], signature: &[u8]) -> bool {
    verify(public, b"abc", signature) && !verify(public, b"abd", signature)
}

/// Changes the lowest bit of one byte.
fn flip(text: &mut [u8], at: usize) {
    if let Some(byte) = text.get_mut(at) {
        *byte ^= 1;
    }
}

/// Replaces four bytes.
fn set_number(text: &mut [u8], at: usize, number: u32) {
    let mut place = at;
    for new in number.to_be_bytes() {
        if let Some(byte) = text.get_mut(place) {
            *byte = new;
        }
        place = place.saturating_add(1);
    }
}

/// Whether a signature of `abc` is refused with another number in it. The right one is put back.
fn refuses_number(public: &[u8], signature: &mut [u8], at: usize, number: u32, right: u32) -> bool {
    set_number(signature, at, number);
    let refuses = !verify(public, b"abc", signature);
    set_number(signature, at, right);
    refuses
}

/// The last length to which a signature of `abc` is cut and accepted.
fn accepted_cut(public: &[u8], signature: &[u8]) -> Option<usize> {
    let mut accepted = None;
    for length in 0..signature.len() {
        if verify(public, b"abc", signature.get(..length).unwrap_or(&[])) {
            accepted = Some(length);
        }
    }
    accepted
}

/// The last of every so many bytes, from one on, with whose lowest bit changed a signature of a
/// message is accepted.
fn accepted_change(
    public: &[u8],
    message: &[u8],
    signature: &mut [u8],
    first: usize,
    step: usize,
) -> Option<usize> {
    let mut accepted = None;
    for at in (first..signature.len()).step_by(step.max(1)) {
        flip(signature, at);
        if verify(public, message, signature) {
            accepted = Some(at);
        }
        flip(signature, at);
    }
    accepted
}
