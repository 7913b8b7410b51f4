//! One-time keys.
use hex::FromHex;
use lms_ots::{
    ByEights, ChainEnds, OneByOne, OtsId, Verifier, candidate, chain, eight_public_hashes,
    hasher_at, public_hash, secret, sign_into,
};
use lms_params::{LmsType, OtsType};
use lms_slow::SlowTree;
use lms_slow::vectors::{ONE_10_8, Vector};
use sha2::{Digest, Sha256};
use std::alloc::{AllocError, Global};
use std::process::Abort;
use std::test::Fail;

const SEED: [u8; 32] = [0x11; 32];

const ID: [u8; 16] = [0x22; 16];

const RANDOMIZER: [u8; 32] = [0x33; 32];

/// The signature of `abc` by leaf q.
fn signature(alloc: Global, ots: OtsType, q: u32) -> Result<Vec<u8>, AllocError> {
    let mut text = vec![in alloc; 0; ots.sig_len()]?;
    sign_into(
        ots,
        &SEED,
        OtsId { i: ID, q },
        &RANDOMIZER,
        b"abc",
        &mut text,
    );
    Ok(text)
}

/// The expected values are digests of Python's hashlib, of the 20 bytes with which each hash of
/// leaf 5 begins, and of the 55 bytes that the standard's Appendix A gives for its chain 264.
#[test]
fn hashes_the_standards_texts(rt: HostRuntime) -> Result<(), Fail> {
    let start: [u8; 32] = FromHex::from_hex(
        "c4d12adf0c23c1ed5281df83e3888ec09f2f36c7147d09b914a49dcf8f632630",
    )?;
    assert_eq!(rt; hasher_at(&ID, 5).finalize(), start);
    let expected: [u8; 32] = FromHex::from_hex(
        "b06cddb4d36063a9c5e45cc01b0ba0e3e3a8b0fa54e788d0090b2284d247f279",
    )?;
    assert_eq!(rt; secret(&SEED, OtsId { i: ID, q: 5 }, 264), expected);
    Ok(())
}

/// The expected value after one step is a digest of Python's hashlib.
#[test]
fn goes_along_chains(rt: HostRuntime) -> Result<(), Fail> {
    let id = OtsId { i: ID, q: 5 };
    let step: [u8; 32] = FromHex::from_hex(
        "39618d353c634a01210f0276467682e92f2942ac0cb7d6ad9ea9e8dcd266461a",
    )?;
    assert_eq!(rt; chain(id, 3, 7, 8, &SEED), step);
    assert_eq!(rt; chain(id, 3, 7, 7, &SEED), SEED);
    let middle = chain(id, 3, 0, 100, &SEED);
    assert_eq!(rt;
        chain(id, 3, 100, 255, &middle),
        chain(id, 3, 0, 255, &SEED)
    );
    Ok(())
}

/// A leaf's key and signature are the slow signer's, and the signature leads to that key for its
/// message alone.
fn check_leaf(rt: &(impl Abort + AllocGlobal), ots: OtsType, q: u32) -> Result<(), Fail> {
    let tree = SlowTree {
        lms: LmsType::H5,
        ots,
        seed: SEED,
        id: ID,
    };
    let id = OtsId { i: ID, q };
    let public = tree.public_hash(q);
    assert!(rt; public_hash(ots, &SEED, id) == public, "{ots:?} {q}");
    let text = signature(rt.alloc(), ots, q)?;
    let slow = tree.one_time_signature(rt.alloc(), q, &RANDOMIZER, b"abc")?;
    assert!(rt; text == slow, "{ots:?} {q}");
    assert!(rt;
        candidate(ots, id, &text, b"abc") == Some(public),
        "{ots:?} {q}"
    );
    assert!(rt;
        candidate(ots, id, &text, b"abd") != Some(public),
        "{ots:?} {q}"
    );
    Ok(())
}

#[test]
fn equals_the_slow_signer(rt: HostRuntime) -> Result<(), Fail> {
    for ots in [OtsType::W1, OtsType::W2, OtsType::W4, OtsType::W8] {
        check_leaf(&rt, ots, 0)?;
        check_leaf(&rt, ots, 31)?;
    }
    Ok(())
}

#[test]
fn hashes_eight_neighbours_as_the_slow_signer(rt: HostRuntime) -> Result<(), Fail> {
    for ots in [OtsType::W1, OtsType::W2, OtsType::W4, OtsType::W8] {
        let tree = SlowTree {
            lms: LmsType::H5,
            ots,
            seed: SEED,
            id: ID,
        };
        for q in [0, 7] {
            let publics = eight_public_hashes(ots, &SEED, OtsId { i: ID, q });
            for k in 0..8 {
                assert!(rt;
                    publics[k] == tree.public_hash(q + k as u32),
                    "{ots:?} {q} {k}"
                );
            }
        }
        let q = u32::MAX - 7;
        let publics = eight_public_hashes(ots, &SEED, OtsId { i: ID, q });
        let last = OtsId { i: ID, q: u32::MAX };
        assert!(rt; publics[7] == public_hash(ots, &SEED, last), "{ots:?}");
    }
    Ok(())
}

/// Whether these bytes are no signature of `abc` by leaf 0.
fn is_refused(ots: OtsType, text: &[u8]) -> bool {
    candidate(ots, OtsId { i: ID, q: 0 }, text, b"abc").is_none()
}

#[test]
fn refuses_other_sets_and_lengths(rt: HostRuntime) -> Result<(), Fail> {
    let mut text = signature(rt.alloc(), OtsType::W8, 0)?;
    let id = OtsId { i: ID, q: 0 };
    let public = public_hash(OtsType::W8, &SEED, id);
    assert!(rt; candidate(OtsType::W8, id, &text, b"abc") == Some(public));
    assert!(rt; is_refused(OtsType::W4, &text));
    assert!(rt; is_refused(OtsType::W8, text.get(..1123).unwrap_or(&[])));
    text.push(0)?;
    assert!(rt; is_refused(OtsType::W8, &text));
    let mut other_code = signature(rt.alloc(), OtsType::W8, 0)?;
    if let Some(code) = other_code.get_mut(3) {
        *code = 3;
    }
    assert!(rt; is_refused(OtsType::W8, &other_code));
    Ok(())
}

/// The candidate of a message, which comes in pieces.
fn by_pieces<C: ChainEnds>(
    ots: OtsType,
    id: OtsId,
    text: &[u8],
    msg: &[u8; 3],
    ends: C,
) -> Option<[u8; 32]> {
    let mut verifier = Verifier::begin(ots, id, text)?;
    verifier.update(&msg[..1]);
    verifier.update(b"");
    verifier.update(&msg[1..]);
    Some(verifier.finish(ends))
}

/// The candidate of a message, which another hasher takes.
fn by_hash<C: ChainEnds>(
    ots: OtsType,
    id: OtsId,
    text: &[u8],
    msg: &[u8; 3],
    ends: C,
) -> Option<[u8; 32]> {
    let verifier = Verifier::begin(ots, id, text)?;
    let mut hasher = Sha256::new();
    hasher.update(verifier.head());
    hasher.update(msg);
    Some(verifier.finish_by_hash(&hasher.finalize(), ends))
}

/// Whether this is the candidate of a message, however it is handed over and its chains are taken
/// to their ends.
fn is_candidate(ots: OtsType, id: OtsId, text: &[u8], msg: &[u8; 3], expected: [u8; 32]) -> bool {
    by_pieces(ots, id, text, msg, OneByOne) == Some(expected)
        && by_pieces(ots, id, text, msg, ByEights) == Some(expected)
        && by_hash(ots, id, text, msg, OneByOne) == Some(expected)
        && by_hash(ots, id, text, msg, ByEights) == Some(expected)
}

/// A signature leads to its key's public hash in all ways, and with another message in all ways to
/// one other hash.
fn check_ways(rt: &(impl Abort + AllocGlobal), ots: OtsType) -> Result<(), Fail> {
    let text = signature(rt.alloc(), ots, 5)?;
    let id = OtsId { i: ID, q: 5 };
    let public = public_hash(ots, &SEED, id);
    assert!(rt; is_candidate(ots, id, &text, b"abc", public), "{ots:?}");
    let other = candidate(ots, id, &text, b"abd").unwrap_or(public);
    assert!(rt; other != public, "{ots:?}");
    assert!(rt; is_candidate(ots, id, &text, b"abd", other), "{ots:?}");
    Ok(())
}

#[test]
fn finds_one_candidate_in_all_ways(rt: HostRuntime) -> Result<(), Fail> {
    for ots in [OtsType::W1, OtsType::W2, OtsType::W4, OtsType::W8] {
        check_ways(&rt, ots)?;
    }
    Ok(())
}

/// What another implementation signs by a tree of 10/8.
fn vector() -> Vector {
    ONE_10_8
}

#[test]
fn signs_as_another_implementation(rt: HostRuntime) -> Result<(), Fail> {
    let vector = vector();
    let id = OtsId {
        i: FromHex::from_hex(vector.id)?,
        q: 700,
    };
    let seed = FromHex::from_hex(vector.seed)?;
    let randomizer = FromHex::from_hex(vector.randomizer)?;
    let message = vector.message.as_bytes();
    let mut text = [0; 1124];
    sign_into(OtsType::W8, &seed, id, &randomizer, message, &mut text);
    let expected = hex::decode(rt.alloc(), vector.signature)?;
    assert_eq!(rt; Some(text.as_slice()), expected.get(8..1132));
    Ok(())
}

/// Whether leaf 5 has this public hash, and signs `abc` by a signature with this digest that leads
/// to it.
fn is_leaf_5(alloc: Global, ots: OtsType, public: &str, digest: &str) -> Result<bool, Fail> {
    let id = OtsId { i: ID, q: 5 };
    let public: [u8; 32] = FromHex::from_hex(public)?;
    let digest: [u8; 32] = FromHex::from_hex(digest)?;
    let text = signature(alloc, ots, 5)?;
    Ok(
        public_hash(ots, &SEED, id) == public
            && Sha256::digest(&text) == digest
            && candidate(ots, id, &text, b"abc") == Some(public),
    )
}

/// In each row, by a program in Python over hashlib: the public hash of leaf 5, and the digest of
/// its signature of `abc`.
#[test]
fn equals_another_program(rt: HostRuntime) -> Result<(), Fail> {
    for (ots, public, digest) in [
        (
            OtsType::W1,
            "c138acd3b79e27c9c8060a13a4178118f189faed4487f80d0976730df83a903a",
            "d9e6c8acbcfae9142189f15d063d14d19526ff5d9685c5d9f8c8ecbab22bab6d",
        ),
        (
            OtsType::W2,
            "4a8e578f77d9440668e57ba09058ba8250e91371ba9da0a90f54142029c15e4a",
            "eec1da211b26f08dc42ffa79be9bed3a1f016fdfe6eb262d6bcf7d0ba52e5f60",
        ),
        (
            OtsType::W4,
            "ae9fc59d34a6a1a9cf2a745d8b4df403eea6c9448bc26d2a5cec89c676c375aa",
            "92a72895eb96c42d71062aa9174ca09af19bb12af0483470af2669eb63630f05",
        ),
        (
            OtsType::W8,
            "e0bd3b3c47c9d84171edabca628f4ca124974cc21dac20ba357ff7a04488bb5c",
            "2566ac500ef00b21bf603288ab530e4cbfde70b9411987833f8b1e8f417d5922",
        ),
    ] {
        assert!(rt; is_leaf_5(rt.alloc(), ots, public, digest)?, "{ots:?}");
    }
    Ok(())
}
