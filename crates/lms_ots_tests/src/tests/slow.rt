//! The slow signer.
use hex::FromHex;
use lms_params::{LmsType, OtsType};
use lms_slow::vectors::{VECTORS, Vector};
use lms_slow::{PlantedTexts, SlowKey, SlowTree, planted, slow_digits, slow_public, slow_sign};
use sha2::{Digest, Sha256};
use std::alloc::{AllocError, Global};
use std::process::Abort;
use std::test::Fail;

/// The public key and the signature of a vector, made again byte for byte.
fn check_vector(rt: &(impl Abort + AllocGlobal), vector: Vector) -> Result<(), Fail> {
    let key = SlowKey {
        levels: vector.levels,
        seed: FromHex::from_hex(vector.seed)?,
        id: FromHex::from_hex(vector.id)?,
    };
    assert!(rt; !key.levels.is_empty() && key.levels.len() <= 8);
    let randomizer = FromHex::from_hex(vector.randomizer)?;
    let public = slow_public(rt.alloc(), &key)?;
    let message = vector.message.as_bytes();
    let signature = slow_sign(rt.alloc(), &key, vector.index, &randomizer, message)?;
    assert_eq!(rt; public, hex::decode(rt.alloc(), vector.public)?);
    assert_eq!(rt; signature, hex::decode(rt.alloc(), vector.signature)?);
    Ok(())
}

/// What another implementation made.
fn vectors() -> [Vector; 7] {
    VECTORS
}

#[test]
fn equals_another_implementation(rt: HostRuntime) -> Result<(), Fail> {
    for vector in vectors() {
        check_vector(&rt, vector)?;
    }
    Ok(())
}

/// Levels, an index, the bytes of its signature, and the digest of the public key and the signature
/// one after the other. The digests are those of a program in another language.
const SIGNED: [(&[(LmsType, OtsType)], u64, usize, &str); 5] = [
    (
        &[(LmsType::H5, OtsType::W8)],
        5,
        1296,
        "78b3e37c86044a47c59b546bbae49d48f9fbeb7eb46f05ecbfbf49f61d791b0c",
    ),
    (
        &[(LmsType::H5, OtsType::W8); 2],
        32,
        2644,
        "3ea45e8f60d13fd70186b7eae3006f217bdc10024bfd3366b47bb90ee38e1cf0",
    ),
    (
        &[
            (LmsType::H5, OtsType::W8),
            (LmsType::H10, OtsType::W4),
            (LmsType::H5, OtsType::W8),
        ],
        33000,
        5208,
        "43ce6d4aa0f8b37c8f461f7e2b6f05c55381eef9badb6c0f5b793085d6f3c60b",
    ),
    (
        &[
            (LmsType::H5, OtsType::W1),
            (LmsType::H5, OtsType::W2),
            (LmsType::H5, OtsType::W4),
            (LmsType::H5, OtsType::W8),
        ],
        74565,
        16956,
        "6bfcf755ef9a4f2fbab1ac3a7c41f14adcbb496d67ae4171e232e8ad94d0a81d",
    ),
    (
        &[(LmsType::H5, OtsType::W8); 8],
        34359738368,
        10732,
        "2f91e454c00517f67adb84a1143bda5a790c7e95ab11d12c05b9d97463ba3eba",
    ),
];

/// The digest of two byte strings, one after the other, in hexadecimal.
fn digest_of(alloc: Global, first: &[u8], second: &[u8]) -> Result<String, AllocError> {
    let mut hasher = Sha256::new();
    hasher.update(first);
    hasher.update(second);
    hex::encode(alloc, hasher.finalize())
}

/// The public key of these levels and their signature of `abc` by index `g` have these lengths and
/// this digest.
fn check_signed(
    rt: &(impl Abort + AllocGlobal),
    levels: &[(LmsType, OtsType)],
    g: u64,
    length: usize,
    digest: &str,
) -> Result<(), Fail> {
    let key = SlowKey {
        levels,
        seed: [0x11; 32],
        id: [0x22; 16],
    };
    assert!(rt; !levels.is_empty() && levels.len() <= 8);
    let public = slow_public(rt.alloc(), &key)?;
    let signature = slow_sign(rt.alloc(), &key, g, &[0x33; 32], b"abc")?;
    assert!(rt; public.len() == 60 && signature.len() == length, "{digest}");
    assert_eq!(rt;
        digest_of(rt.alloc(), &public, &signature)?.as_str(),
        digest
    );
    Ok(())
}

#[test]
fn signs_by_one_to_eight_levels(rt: HostRuntime) -> Result<(), Fail> {
    for (levels, g, length, digest) in SIGNED {
        check_signed(&rt, levels, g, length, digest)?;
    }
    Ok(())
}

const COUNTED: [u8; 32] = [
    0, 1, 2, 3, 4, 5, 6, 7, 8, 9, 10, 11, 12, 13, 14, 15, 16, 17, 18, 19, 20, 21, 22, 23, 24, 25,
    26, 27, 28, 29, 30, 31,
];

/// 0123456789abcdef four times in hexadecimal.
const NIBBLES: [u8; 32] = [
    0x01, 0x23, 0x45, 0x67, 0x89, 0xab, 0xcd, 0xef, 0x01, 0x23, 0x45, 0x67, 0x89, 0xab, 0xcd, 0xef,
    0x01, 0x23, 0x45, 0x67, 0x89, 0xab, 0xcd, 0xef, 0x01, 0x23, 0x45, 0x67, 0x89, 0xab, 0xcd, 0xef,
];

/// A hash, what its digits repeat, and the digits of its checksum.
const DIGITS: [(OtsType, [u8; 32], &[u8], &[u8]); 12] = [
    (OtsType::W8, [0x00; 32], &[0], &[31, 224]),
    (OtsType::W4, [0x00; 32], &[0], &[3, 12, 0]),
    (OtsType::W2, [0x00; 32], &[0], &[1, 2, 0, 0, 0]),
    (OtsType::W1, [0x00; 32], &[0], &[1, 0, 0, 0, 0, 0, 0, 0, 0]),
    (OtsType::W8, [0xff; 32], &[255], &[0; 2]),
    (OtsType::W4, [0xff; 32], &[15], &[0; 3]),
    (OtsType::W2, [0xff; 32], &[3], &[0; 5]),
    (OtsType::W1, [0xff; 32], &[1], &[0; 9]),
    (OtsType::W8, COUNTED, &COUNTED, &[29, 240]),
    (
        OtsType::W4,
        NIBBLES,
        &[0, 1, 2, 3, 4, 5, 6, 7, 8, 9, 10, 11, 12, 13, 14, 15],
        &[1, 14, 0],
    ),
    (OtsType::W2, [0x1b; 32], &[0, 1, 2, 3], &[0, 3, 0, 0, 0]),
    (
        OtsType::W1,
        [0xaa; 32],
        &[1, 0],
        &[0, 1, 0, 0, 0, 0, 0, 0, 0],
    ),
];

/// Whether the digits of a hash repeat these, and end with those of its checksum.
fn are_digits(digits: &[u8], ots: OtsType, repeated: &[u8], checksum: &[u8]) -> bool {
    let Some(message_digits) = digits.strip_suffix(checksum) else {
        return false;
    };
    message_digits.len() == 256 / ots.w() as usize
        && message_digits
            .chunks(repeated.len().max(1))
            .all(|part| part == repeated)
}

#[test]
fn digits_of_worked_rows(rt: HostRuntime) -> Result<(), Fail> {
    for (ots, hash, repeated, checksum) in DIGITS {
        let digits = slow_digits(rt.alloc(), &hash, ots)?;
        assert!(rt;
            are_digits(&digits, ots, repeated, checksum),
            "{ots:?} {hash:?}"
        );
    }
    Ok(())
}

/// The LMS sets, with their typecodes and heights, and their last leaves.
const TREES: [(LmsType, u8, u8, u32); 5] = [
    (LmsType::H5, 5, 5, 31),
    (LmsType::H10, 6, 10, 1023),
    (LmsType::H15, 7, 15, 32767),
    (LmsType::H20, 8, 20, 1048575),
    (LmsType::H25, 9, 25, 33554431),
];

/// A tree of these sets.
fn tree_of(lms: LmsType, ots: OtsType) -> SlowTree {
    SlowTree {
        lms,
        ots,
        seed: [0x11; 32],
        id: [0x22; 16],
    }
}

/// Whether a public key has the layout of RFC 8554, 5.3, with these typecodes.
fn is_public(public: &[u8], lms_code: u8, code: u8) -> bool {
    public.len() == 60 && public.starts_with(&[0, 0, 0, 1, 0, 0, 0, lms_code, 0, 0, 0, code])
}

/// Whether a signature by leaf q begins with its number and the typecode `code`.
fn has_head(signature: &[u8], q: u32, code: u8) -> bool {
    signature.starts_with(&[0; 4])
        && signature.get(4..8) == Some(q.to_be_bytes().as_slice())
        && signature.get(8..12) == Some([0, 0, 0, code].as_slice())
}

/// Whether after p chains a signature has the typecode `lms_code` and a planted path of `height`
/// values.
fn has_path(signature: &[u8], p: u16, lms_code: u8, height: u8) -> bool {
    let path_at = 16 + 32 * (usize::from(p) + 1);
    signature.len() == path_at + 32 * usize::from(height)
        && signature.get(path_at - 4..path_at + 1) == Some([0, 0, 0, lms_code, 1].as_slice())
        && signature.ends_with(&[height; 32])
}

/// A planted pair has the layout of RFC 8554, 5.3 and 5.4, for the typecode `code` and p chains.
fn check_layout(
    rt: &(impl Abort + AllocGlobal),
    ots: OtsType,
    code: u8,
    p: u16,
) -> Result<(), Fail> {
    for (lms, lms_code, height, q) in TREES {
        let tree = tree_of(lms, ots);
        let PlantedTexts { public, signature } = planted(
            rt.alloc(),
            &tree,
            q,
            &[0x33; 32],
            b"abc",
        )?;
        assert!(rt; is_public(&public, lms_code, code), "{lms:?} {ots:?}");
        assert!(rt; has_head(&signature, q, code), "{lms:?} {ots:?}");
        assert!(rt;
            has_path(&signature, p, lms_code, height),
            "{lms:?} {ots:?}"
        );
    }
    Ok(())
}

#[test]
fn plants_every_pair_of_sets(rt: HostRuntime) -> Result<(), Fail> {
    check_layout(&rt, OtsType::W1, 1, 265)?;
    check_layout(&rt, OtsType::W2, 2, 133)?;
    check_layout(&rt, OtsType::W4, 3, 67)?;
    check_layout(&rt, OtsType::W8, 4, 34)
}

/// Sets, a leaf, and the digest of the planted public key and signature, as above.
const PLANTED: [(LmsType, OtsType, u32, &str); 5] = [
    (
        LmsType::H5,
        OtsType::W8,
        31,
        "8be5cf76d4efbcf0d3f078f3a2f693f9a970d9743fa51428f231703e570a882b",
    ),
    (
        LmsType::H10,
        OtsType::W4,
        600,
        "2974b0553eb0e718e8fb099136a8402b7f644d8b69a3f69aa75b547d0ba47edf",
    ),
    (
        LmsType::H15,
        OtsType::W2,
        32767,
        "12917689b6424ab40ca0f858bb24204b5995dd1b09d53413793df51926ce78a0",
    ),
    (
        LmsType::H20,
        OtsType::W1,
        1048575,
        "a3c4f197d3ba37c9b6b5ceabece0dcbb7d3cf26deb79f193c60a89aaec73b191",
    ),
    (
        LmsType::H25,
        OtsType::W1,
        33554431,
        "385c7160ad96d903c328b835ac21d376d4e8b382087f5d6b914a4facfe18845f",
    ),
];

#[test]
fn plants_the_root_of_the_climb(rt: HostRuntime) -> Result<(), Fail> {
    for (lms, ots, q, digest) in PLANTED {
        let tree = tree_of(lms, ots);
        let made = planted(rt.alloc(), &tree, q, &[0x33; 32], b"abc")?;
        assert_eq!(rt;
            digest_of(rt.alloc(), &made.public, &made.signature)?.as_str(),
            digest
        );
    }
    Ok(())
}

/// The value over a node's value and its sibling's (RFC 8554, 5.3).
fn parent(id: [u8; 16], r: u32, value: [u8; 32], sibling: &[u8; 32]) -> [u8; 32] {
    let mut hasher = Sha256::new();
    hasher.update(id);
    hasher.update((r / 2).to_be_bytes());
    hasher.update([0x83, 0x83]);
    if r % 2 == 0 {
        hasher.update(value);
        hasher.update(sibling);
    } else {
        hasher.update(sibling);
        hasher.update(value);
    }
    hasher.finalize()
}

/// Where the path at the end of a signature by leaf q of this tree of 32 leaves leads.
fn climbed(tree: SlowTree, q: u32, signature: &[u8]) -> [u8; 32] {
    let path = signature.get(signature.len().saturating_sub(160)..);
    let mut r = 32 + q % 32;
    let mut value = tree.node(r);
    for sibling in path.unwrap_or(b"").as_chunks::<32>().0 {
        let above = parent(tree.id, r, value, sibling);
        value = above;
        r /= 2;
    }
    value
}

#[test]
fn climbs_from_leaves_to_the_root(rt: HostRuntime) -> Result<(), Fail> {
    let key = SlowKey {
        levels: &[(LmsType::H5, OtsType::W2)],
        seed: [0x11; 32],
        id: [0x22; 16],
    };
    let public = slow_public(rt.alloc(), &key)?;
    for q in [0, 21, 31] {
        let signature = slow_sign(rt.alloc(), &key, u64::from(q), &[0x33; 32], b"abc")?;
        let end = climbed(tree_of(LmsType::H5, OtsType::W2), q, &signature);
        assert!(rt; public.ends_with(&end), "from {q}");
    }
    Ok(())
}
