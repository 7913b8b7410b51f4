//! Messages that come in pieces, and messages that another hasher takes.
use crate::tests::{RANDOMIZER, key_of, signature};
use lms_params::{LmsType, OtsType};
use lms_tree::{ByEights, ChainEnds, OneByOne, PublicKey, WholeTree, public_bytes};
use sha2::{Digest, Sha256};
use std::test::Fail;

/// The verdict on a message that comes in two pieces.
fn by_pieces<C: ChainEnds>(
    key: &PublicKey,
    first: &[u8],
    second: &[u8],
    signature: &[u8],
    ends: C,
) -> bool {
    let Some(mut verifier) = key.verifier(signature) else {
        return false;
    };
    verifier.update(first);
    verifier.update(second);
    verifier.finish(ends)
}

/// The verdict on a message that another hasher takes.
fn by_hash<C: ChainEnds>(key: &PublicKey, message: &[u8], signature: &[u8], ends: C) -> bool {
    let Some(verifier) = key.verifier(signature) else {
        return false;
    };
    let mut hasher = Sha256::new();
    hasher.update(verifier.head());
    hasher.update(message);
    verifier.finish_by_hash(&hasher.finalize(), ends)
}

/// Whether a signature of `abc` is valid in all ways, and with another message in none.
fn judges<C: ChainEnds>(key: &PublicKey, signature: &[u8], ends: C) -> bool {
    key.accepts(b"abc", signature, ends)
        && by_pieces(key, b"", b"abc", signature, ends)
        && by_pieces(key, b"ab", b"c", signature, ends)
        && by_hash(key, b"abc", signature, ends)
        && !key.accepts(b"abd", signature, ends)
        && !by_pieces(key, b"c", b"ab", signature, ends)
        && !by_hash(key, b"abd", signature, ends)
}

/// Whether a signature of `abc` is judged alike with its chains taken to their ends in both ways,
/// and at another length in none.
fn judges_alike(public: &[u8; 56], signature: &[u8]) -> bool {
    match PublicKey::parse(public) {
        Some(key) => {
            judges(&key, signature, OneByOne)
                && judges(&key, signature, ByEights)
                && key.verifier(signature.get(1..).unwrap_or(&[])).is_none()
        }
        None => false,
    }
}

#[test]
fn takes_a_message_in_pieces(rt: HostRuntime) -> Result<(), Fail> {
    let tree = WholeTree::build(&rt, rt.alloc(), key_of(LmsType::H5, OtsType::W8))?;
    let text = signature(&rt, &tree, 9, &RANDOMIZER, b"abc")?;
    assert!(rt; judges_alike(&public_bytes(&tree), &text));
    Ok(())
}
