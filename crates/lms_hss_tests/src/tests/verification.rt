//! Which signatures are accepted.
use crate::tests::pieces::is_verdict;
use crate::tests::{
    LEVEL, RANDOMIZER, THREE_LEVELS, accepted_change, accepted_cut, flip, refuses_number,
    set_number, signed, vectors, verifies,
};
use lms_hss::verify;
use lms_params::{LmsType, OtsType};
use lms_slow::vectors::{THREE, TWO, Vector};
use lms_slow::{PlantedTexts, SlowTree, planted};
use std::alloc::{AllocError, Global};
use std::process::Abort;
use std::test::Fail;

/// The last of these bytes with whose lowest bit changed a signature of `abc` is accepted.
fn accepted_flip(public: &[u8], signature: &mut [u8], indices: &[usize]) -> Option<usize> {
    let mut accepted = None;
    for at in indices {
        flip(signature, *at);
        if verify(public, b"abc", signature) {
            accepted = Some(*at);
        }
        flip(signature, *at);
    }
    accepted
}

/// Whether a signature of `abc` is refused under the public key with another number of levels. The
/// right one is put back.
fn refuses_levels(public: &mut [u8], signature: &[u8], levels: u32, right: u32) -> bool {
    set_number(public, 0, levels);
    let refuses = !verify(public, b"abc", signature);
    set_number(public, 0, right);
    refuses
}

/// Whether these are a signature of `abc` and one byte more, and it is accepted neither with that
/// byte nor without its own last one.
fn wants_length(public: &[u8], longer: &[u8]) -> bool {
    let length = longer.len().saturating_sub(1);
    let shorter = longer.get(..length.saturating_sub(1)).unwrap_or(&[]);
    verify(public, b"abc", longer.get(..length).unwrap_or(&[]))
        && !verify(public, b"abc", longer)
        && !verify(public, b"abc", shorter)
}

/// Where bytes are changed: at the first one, in the middle and at the last one.
fn places(text: &[u8]) -> [usize; 3] {
    [0, text.len() / 2, text.len().saturating_sub(1)]
}

/// Whether the parts of a public key of 5/8 and of its signature by leaf 5 are in their places.
fn has_parts(public: &[u8], signature: &[u8]) -> bool {
    public.starts_with(&[0, 0, 0, 1, 0, 0, 0, 5, 0, 0, 0, 4])
        && public.len() == 60
        && public.get(12..28) == Some([0x22; 16].as_slice())
        && signature.starts_with(&[0, 0, 0, 0, 0, 0, 0, 5, 0, 0, 0, 4])
        && signature.get(1132..1136) == Some([0, 0, 0, 5].as_slice())
        && signature.len() == 1296
}

/// Whether a signature of `abc` by leaf 5 of one level is accepted for its message alone, and
/// refused with another number of its leaf, of signed keys or of the key's levels. The right
/// numbers are put back.
fn is_decided(public: &mut [u8], signature: &mut [u8]) -> bool {
    !verify(public, b"abd", signature)
        && refuses_number(public, signature, 4, 32, 5)
        && refuses_number(public, signature, 0, 1, 0)
        && refuses_levels(public, signature, 0, 1)
        && refuses_levels(public, signature, 2, 1)
        && refuses_levels(public, signature, 9, 1)
        && verify(public, b"abc", signature)
}

#[test]
fn decides_on_a_signature(rt: HostRuntime) -> Result<(), Fail> {
    let PlantedTexts {
        mut public,
        mut signature,
    } = signed(&rt, &[LEVEL], 5, b"abc")?;
    assert!(rt; has_parts(&public, &signature) && is_decided(&mut public, &mut signature));
    Ok(())
}

/// A signature of `abc` is refused at each shorter length, with one byte more, and under a key
/// without its last byte.
#[test]
fn wants_the_exact_lengths(rt: HostRuntime) -> Result<(), Fail> {
    let PlantedTexts {
        public,
        mut signature,
    } = signed(&rt, &[LEVEL], 5, b"abc")?;
    let cut = accepted_cut(&public, &signature);
    let of_key = verify(public.get(..59).unwrap_or(&[]), b"abc", &signature);
    signature.push(0)?;
    assert!(rt;
        cut.is_none() && !of_key && wants_length(&public, &signature),
        "{cut:?}"
    );
    Ok(())
}

/// The LMS sets, and the number of their leaves.
const TREES: [(LmsType, u32); 5] = [
    (LmsType::H5, 32),
    (LmsType::H10, 1024),
    (LmsType::H15, 32768),
    (LmsType::H20, 1048576),
    (LmsType::H25, 33554432),
];

/// Whether a planted signature by the last leaf is valid, and refused with the number past it, with
/// one byte more and with one less, and one past the last leaf is refused.
fn takes_leaves(alloc: Global, tree: &SlowTree, leaves: u32) -> Result<bool, AllocError> {
    let takes_past = verifies(&planted(alloc, tree, leaves, &RANDOMIZER, b"abc")?);
    let last = leaves.saturating_sub(1);
    let PlantedTexts {
        public,
        mut signature,
    } = planted(alloc, tree, last, &RANDOMIZER, b"abc")?;
    let refuses = refuses_number(&public, &mut signature, 4, leaves, last);
    signature.push(0)?;
    Ok(!takes_past && refuses && wants_length(&public, &signature))
}

/// The slow signer's tree of these sets.
fn slow_tree(lms: LmsType, ots: OtsType) -> SlowTree {
    SlowTree {
        lms,
        ots,
        seed: [0x11; 32],
        id: [0x22; 16],
    }
}

#[test]
fn knows_every_pair_of_sets(rt: HostRuntime) -> Result<(), Fail> {
    for ots in [OtsType::W1, OtsType::W2, OtsType::W4, OtsType::W8] {
        for (lms, leaves) in TREES {
            assert!(rt;
                takes_leaves(rt.alloc(), &slow_tree(lms, ots), leaves)?,
                "{lms:?} {ots:?}"
            );
        }
    }
    Ok(())
}

/// Sets, the bytes of a signature, and the place and the value of its LMS typecode.
const LAYOUTS: [(LmsType, OtsType, usize, u16, u8); 4] = [
    (LmsType::H10, OtsType::W8, 1456, 1132, 6),
    (LmsType::H15, OtsType::W4, 2672, 2188, 7),
    (LmsType::H20, OtsType::W2, 4944, 4300, 8),
    (LmsType::H25, OtsType::W1, 9328, 8524, 9),
];

/// Whether a signature has this length and this typecode at its place, and is valid, and refused
/// with another there.
fn has_typecode(public: &[u8], signature: &mut [u8], length: usize, at: usize, code: u8) -> bool {
    signature.len() == length
        && signature.get(at..at.saturating_add(4)) == Some([0, 0, 0, code].as_slice())
        && accepted_flip(public, signature, &[at.saturating_add(3)]).is_none()
        && verify(public, b"abc", signature)
}

#[test]
fn reads_the_typecode_in_its_place(rt: HostRuntime) -> Result<(), Fail> {
    for (lms, ots, length, at, code) in LAYOUTS {
        let tree = slow_tree(lms, ots);
        let PlantedTexts {
            public,
            mut signature,
        } = planted(rt.alloc(), &tree, 3, &RANDOMIZER, b"abc")?;
        assert!(rt;
            has_typecode(&public, &mut signature, length, usize::from(at), code),
            "{code}"
        );
    }
    Ok(())
}

/// Whether a signature is refused under the public key with a changed byte, for the message with
/// one, and with one itself.
fn refuses_changes(public: &mut [u8], message: &mut [u8], signature: &mut [u8]) -> bool {
    let mut refuses = true;
    for at in places(public) {
        flip(public, at);
        if verify(public, message, signature) {
            refuses = false;
        }
        flip(public, at);
    }
    for at in places(message) {
        flip(message, at);
        if verify(public, message, signature) {
            refuses = false;
        }
        flip(message, at);
    }
    for at in places(signature) {
        flip(signature, at);
        if verify(public, message, signature) {
            refuses = false;
        }
        flip(signature, at);
    }
    refuses
}

/// A signature of another implementation is accepted in all ways, and of its message without the
/// first byte in none; with a byte changed anywhere it is refused.
fn check_vector(rt: &(impl Abort + AllocGlobal), vector: Vector) -> Result<(), Fail> {
    let text = vector.message.as_bytes();
    let shorter = text.get(1..).unwrap_or(&[]);
    let mut public = hex::decode(rt.alloc(), vector.public)?;
    let mut signature = hex::decode(rt.alloc(), vector.signature)?;
    let mut message = Vec::from_slice(rt.alloc(), text)?;
    assert!(rt;
        is_verdict(&public, text, &signature, true)
            && is_verdict(&public, shorter, &signature, false)
            && refuses_changes(&mut public, &mut message, &mut signature),
        "{text:?}"
    );
    Ok(())
}

#[test]
fn agrees_with_another_implementation(rt: HostRuntime) -> Result<(), Fail> {
    for vector in vectors() {
        check_vector(&rt, vector)?;
    }
    Ok(())
}

/// The last bytes of numbers in a signature under `THREE_LEVELS`: the count; and for each level the
/// leaf, the two typecodes, and the typecodes of the key that it signs.
const NUMBERS: [usize; 14] = [
    3, 7, 11, 1135, 1299, 1303, 1355, 1359, 3539, 3703, 3707, 3759, 3763, 8055,
];

/// Whether a signature under `THREE_LEVELS` is accepted, and refused under the public key with
/// another number of levels. The right number is put back.
fn wants_three_levels(public: &mut [u8], signature: &[u8]) -> bool {
    refuses_levels(public, signature, 0, 3)
        && refuses_levels(public, signature, 1, 3)
        && refuses_levels(public, signature, 2, 3)
        && refuses_levels(public, signature, 4, 3)
        && refuses_levels(public, signature, 9, 3)
        && verify(public, b"abc", signature)
}

#[test]
fn verifies_every_level(rt: HostRuntime) -> Result<(), Fail> {
    let PlantedTexts {
        mut public,
        mut signature,
    } = signed(&rt, &THREE_LEVELS, 1025, b"abc")?;
    let change = accepted_flip(&public, &mut signature, &NUMBERS);
    assert!(rt;
        signature.len() == 8216 && change.is_none() && wants_three_levels(&mut public, &signature),
        "{change:?}"
    );
    Ok(())
}

#[test]
fn verifies_eight_levels(rt: HostRuntime) -> Result<(), Fail> {
    let PlantedTexts {
        public,
        mut signature,
    } = signed(&rt, &[(LmsType::H5, OtsType::W4); 8], 34359738367, b"abc")?;
    signature.push(0)?;
    assert!(rt; wants_length(&public, &signature));
    Ok(())
}

#[test]
fn verifies_levels_of_different_heights(rt: HostRuntime) -> Result<(), Fail> {
    let levels = [(LmsType::H10, OtsType::W4), LEVEL];
    let PlantedTexts {
        public,
        mut signature,
    } = signed(&rt, &levels, 32 * 700 + 9, b"abc")?;
    assert!(rt;
        signature.len() == 4 + 2508 + 56 + 1292
            && accepted_flip(&public, &mut signature, &[4 + 2508 + 3]).is_none()
            && verify(&public, b"abc", &signature)
    );
    Ok(())
}

/// Signatures of the other implementation's of more than one level.
fn of_levels() -> [Vector; 2] {
    [TWO, THREE]
}

/// No signature of the other implementation's is accepted with the lowest bit changed in one of
/// every four bytes: each number's last byte and eight bytes of each hash are among them.
#[test]
fn refuses_each_changed_field(rt: HostRuntime) -> Result<(), Fail> {
    for vector in of_levels() {
        let message = vector.message.as_bytes();
        let public = hex::decode(rt.alloc(), vector.public)?;
        let mut signature = hex::decode(rt.alloc(), vector.signature)?;
        let change = accepted_change(&public, message, &mut signature, 3, 4);
        assert!(rt;
            change.is_none() && verify(&public, message, &signature),
            "{message:?} {change:?}"
        );
    }
    Ok(())
}

/// The bytes after the number of levels or of signed keys.
fn after_number(text: &[u8]) -> &[u8] {
    text.get(4..).unwrap_or(&[])
}

/// A number and the bytes after it.
fn numbered(alloc: Global, number: u32, texts: &[&[u8]]) -> Result<Vec<u8>, AllocError> {
    let mut whole = Vec::from_slice(alloc, &number.to_be_bytes())?;
    for text in texts {
        whole.extend_from_slice(text)?;
    }
    Ok(whole)
}

/// A public key of two levels and a signature under it: leaf 7 of a top tree of 5/8 signs this
/// child's key, and the child signs the message. The public key and the signature of the child are
/// those of one level.
fn below_a_top(
    rt: &(impl Abort + AllocGlobal),
    child: &PlantedTexts,
) -> Result<PlantedTexts, AllocError> {
    let child_key = after_number(&child.public);
    let top = signed(rt, &[LEVEL], 7, child_key)?;
    let public = numbered(rt.alloc(), 2, &[after_number(&top.public)])?;
    let texts = [
        after_number(&top.signature),
        child_key,
        after_number(&child.signature),
    ];
    let signature = numbered(rt.alloc(), 1, &texts)?;
    Ok(PlantedTexts { public, signature })
}

/// A child's key and signature, in which then its typecode is replaced by 10.
#[test]
fn takes_the_sets_of_a_child_from_its_key(rt: HostRuntime) -> Result<(), Fail> {
    let tree = SlowTree {
        lms: LmsType::H25,
        ots: OtsType::W1,
        seed: [0x44; 32],
        id: [0x55; 16],
    };
    let mut child = planted(rt.alloc(), &tree, 33554431, &RANDOMIZER, b"abc")?;
    let whole = below_a_top(&rt, &child)?;
    set_number(&mut child.public, 4, 10);
    set_number(&mut child.signature, 8524, 10);
    let other = below_a_top(&rt, &child)?;
    assert!(rt;
        whole.signature.len() == 4 + 1292 + 56 + 9324 && verifies(&whole) && !verifies(&other)
    );
    Ok(())
}
