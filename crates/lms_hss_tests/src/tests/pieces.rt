//! Messages that come in pieces, and messages that another hasher takes.
use crate::tests::{LEVEL, signed};
use lms_hss::{ByEights, ChainEnds, OneByOne, Verifier, verify, verify_with};
use lms_slow::PlantedTexts;
use sha2::{Digest, Sha256};
use std::test::Fail;

/// The verdict on a message that comes in pieces of this length, after an empty one.
fn by_pieces<C: ChainEnds>(
    public: &[u8],
    message: &[u8],
    signature: &[u8],
    length: usize,
    ends: C,
) -> bool {
    let Some(mut verifier) = Verifier::begin(public, signature, ends) else {
        return false;
    };
    verifier.update(&[]);
    for piece in message.chunks(length.max(1)) {
        verifier.update(piece);
    }
    verifier.finish(ends)
}

/// The verdict on a message that another hasher takes.
fn by_hash<C: ChainEnds>(public: &[u8], message: &[u8], signature: &[u8], ends: C) -> bool {
    let Some(verifier) = Verifier::begin(public, signature, ends) else {
        return false;
    };
    let mut hasher = Sha256::new();
    hasher.update(verifier.head());
    hasher.update(message);
    verifier.finish_by_hash(&hasher.finalize(), ends)
}

/// Whether this is the verdict on a message, however it is handed over, with chains taken to their
/// ends in this way.
fn is_verdict_with<C: ChainEnds>(
    public: &[u8],
    message: &[u8],
    signature: &[u8],
    valid: bool,
    ends: C,
) -> bool {
    verify_with(public, message, signature, ends) == valid
        && by_pieces(public, message, signature, 1, ends) == valid
        && by_pieces(public, message, signature, 55, ends) == valid
        && by_pieces(public, message, signature, 64, ends) == valid
        && by_pieces(public, message, signature, message.len(), ends) == valid
        && by_hash(public, message, signature, ends) == valid
}

/// Whether this is the verdict on a message in all ways.
pub(super) fn is_verdict(public: &[u8], message: &[u8], signature: &[u8], valid: bool) -> bool {
    verify(public, message, signature) == valid
        && is_verdict_with(public, message, signature, valid, OneByOne)
        && is_verdict_with(public, message, signature, valid, ByEights)
}

#[test]
fn takes_messages_longer_than_a_block(rt: HostRuntime) -> Result<(), Fail> {
    let PlantedTexts { public, signature } = signed(&rt, &[LEVEL], 5, &[0x5a; 200])?;
    assert!(rt;
        is_verdict(&public, &[0x5a; 200], &signature, true)
            && is_verdict(&public, &[0x5a; 199], &signature, false)
    );
    Ok(())
}
