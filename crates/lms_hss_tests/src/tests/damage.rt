//! A signature of two levels and its public key, each cut to every shorter length, and changed in
//! every byte.
use crate::tests::{LEVEL, accepted_change, accepted_cut, flip, refuses_number, signed, verifies};
use lms_hss::verify;
use lms_slow::PlantedTexts;
use std::process::Abort;
use std::test::Fail;

/// The last length to which a public key is cut and a signature of `abc` accepted.
fn accepted_key_cut(public: &[u8], signature: &[u8]) -> Option<usize> {
    let mut accepted = None;
    for length in 0..public.len() {
        if verify(public.get(..length).unwrap_or(&[]), b"abc", signature) {
            accepted = Some(length);
        }
    }
    accepted
}

/// The last byte of a public key with whose lowest bit changed a signature of `abc` is accepted.
fn accepted_key_change(public: &mut [u8], signature: &[u8]) -> Option<usize> {
    let mut accepted = None;
    for at in 0..public.len() {
        flip(public, at);
        if verify(public, b"abc", signature) {
            accepted = Some(at);
        }
        flip(public, at);
    }
    accepted
}

/// The public key of 5/8,5/8 and its signature of `abc` by index 0, which is accepted.
fn two_levels(rt: &(impl Abort + AllocGlobal)) -> Result<PlantedTexts, Fail> {
    let made = signed(rt, &[LEVEL; 2], 0, b"abc")?;
    assert!(rt; made.public.len() == 60 && made.signature.len() == 2644 && verifies(&made));
    Ok(made)
}

#[test]
fn refuses_each_damaged_signature(rt: HostRuntime) -> Result<(), Fail> {
    let PlantedTexts {
        public,
        mut signature,
    } = two_levels(&rt)?;
    let cut = accepted_cut(&public, &signature);
    let change = accepted_change(&public, b"abc", &mut signature, 0, 1);
    assert!(rt; cut.is_none() && change.is_none(), "{cut:?} {change:?}");
    Ok(())
}

#[test]
fn refuses_each_damaged_key(rt: HostRuntime) -> Result<(), Fail> {
    let PlantedTexts {
        mut public,
        signature,
    } = two_levels(&rt)?;
    let cut = accepted_key_cut(&public, &signature);
    let change = accepted_key_change(&mut public, &signature);
    assert!(rt; cut.is_none() && change.is_none(), "{cut:?} {change:?}");
    Ok(())
}

/// Where the LMS typecode of the lower level's signature is.
const TYPECODE: usize = 2480;

/// Whether another number of signed keys is refused, and, where the right number is put back, the
/// signature is accepted.
fn refuses_other_counts(public: &[u8], signature: &mut [u8]) -> bool {
    refuses_number(public, signature, 0, 0, 1)
        && refuses_number(public, signature, 0, 2, 1)
        && refuses_number(public, signature, 0, 7, 1)
        && refuses_number(public, signature, 0, 4294967295, 1)
        && verify(public, b"abc", signature)
}

/// The lower level's signature says that its tree is one of height 10, as its key does not, and is
/// as short as before, or as long as such a signature.
#[test]
fn refuses_other_counts_and_another_typecode(rt: HostRuntime) -> Result<(), Fail> {
    let PlantedTexts {
        public,
        mut signature,
    } = two_levels(&rt)?;
    let typecode = signature.get(TYPECODE..TYPECODE + 4);
    let is_there = typecode == Some([0, 0, 0, 5].as_slice());
    let refuses = refuses_other_counts(&public, &mut signature)
        && refuses_number(&public, &mut signature, TYPECODE, 6, 5);
    signature.extend_from_slice(&[0; 160])?;
    assert!(rt; is_there && refuses && refuses_number(&public, &mut signature, TYPECODE, 6, 5));
    Ok(())
}
