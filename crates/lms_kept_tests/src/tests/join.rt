//! Signatures by two keys, joined: verified as one, and refused where they are changed.

use crate::tests::{LEVEL, QUICK, RANDOMIZER, flip};
use lms_fixtures::{forest_of, key_of, signature_of};
use lms_hss::{ByEights, verify};
use lms_join::{Endorsement, EndorsementFault, join_public};
use lms_params::{LmsType, OtsType};
use lms_slow::vectors::{THREE, TWO, Vector};
use std::alloc::Global;
use std::process::Abort;
use std::test::Fail;
use std::thread::Threads;

/// A public key, and a signature that is accepted under it or may be.
#[derive(Drop)]
struct Texts {
    public: [u8; 60],
    signature: Vec<u8>,
}

/// The public key of these levels and this seed, and its signature of a message by an index.
fn signed(
    rt: &(impl AllocGlobal + Threads + Sync),
    levels: &[(LmsType, OtsType)],
    seed: u8,
    g: u64,
    message: &[u8],
) -> Result<Texts, Fail> {
    let key = key_of(levels, seed)?;
    let public = key.public_key(rt, rt.alloc())?;
    let signature = signature_of(&forest_of(rt, key, g, 1)?, g, &RANDOMIZER, message)?;
    Ok(Texts { public, signature })
}

/// A top key of these levels, and its endorsement of a signer's public key.
fn endorsed(
    rt: &(impl AllocGlobal + Threads + Sync),
    levels: &[(LmsType, OtsType)],
    signer: &[u8],
) -> Result<Texts, Fail> {
    signed(rt, levels, 0x55, 7, signer.get(4..).unwrap_or(&[]))
}

/// What is joined of a top key's endorsement of a signer's key and a signature by that key.
fn joined(
    rt: &impl AllocGlobal,
    top: &Texts,
    signer: &[u8],
    signature: &[u8],
) -> Result<Texts, Fail> {
    let endorsement = Endorsement::new(&top.public, &top.signature, signer, ByEights)?;
    match endorsement.join(rt.alloc(), signature, ByEights)? {
        Some(signature) => Ok(Texts {
            public: endorsement.public(),
            signature,
        }),
        None => Err(Fail::from("a signature by the signer's key")),
    }
}

/// The last of every 97 bytes with whose lowest bit changed a signature of a message is accepted.
fn accepted_change(public: &[u8], message: &[u8], signature: &mut [u8]) -> Option<usize> {
    let mut accepted = None;
    for at in (0..signature.len()).step_by(97) {
        flip(signature, at, 1);
        if verify(public, message, signature) {
            accepted = Some(at);
        }
        flip(signature, at, 1);
    }
    accepted
}

/// Whether this is what two keys' signatures of `abc` are joined to: a signature of their lengths
/// under a key of this many levels, which is accepted for its message alone.
fn is_whole(whole: &Texts, top: &Texts, signer: &Texts, levels: usize) -> bool {
    let others = top.signature.len().saturating_add(signer.signature.len());
    whole.signature.len() == others.saturating_add(52)
        && usize::from(whole.public[3]) == levels
        && join_public(&top.public, &signer.public) == Some(whole.public)
        && verify(&whole.public, b"abc", &whole.signature)
        && !verify(&whole.public, b"abd", &whole.signature)
        && !verify(&top.public, b"abc", &whole.signature)
}

/// Signatures by keys of so many levels are joined to one of this length, which is accepted for its
/// message alone.
fn check_joined(
    rt: &(impl Abort + AllocGlobal + Threads + Sync),
    top_levels: &[(LmsType, OtsType)],
    signer_levels: &[(LmsType, OtsType)],
) -> Result<Texts, Fail> {
    let levels = top_levels.len().saturating_add(signer_levels.len());
    let signer = signed(rt, signer_levels, 0x44, 3, b"abc")?;
    let top = endorsed(rt, top_levels, &signer.public)?;
    let whole = joined(rt, &top, &signer.public, &signer.signature)?;
    assert!(rt; is_whole(&whole, &top, &signer, levels), "{levels}");
    Ok(whole)
}

#[test]
fn joins_two_keys(rt: HostRuntime) -> Result<(), Fail> {
    let mut whole = check_joined(&rt, &[QUICK], &[QUICK])?;
    let change = accepted_change(&whole.public, b"abc", &mut whole.signature);
    assert!(rt; change.is_none(), "{change:?}");
    Ok(())
}

/// The levels of a top key and those of a signer's key.
const LEVELS: [(&[(LmsType, OtsType)], &[(LmsType, OtsType)]); 5] = [
    (&[LEVEL, QUICK], &[QUICK]),
    (&[QUICK], &[QUICK, LEVEL]),
    (&[QUICK; 4], &[QUICK; 4]),
    (&[QUICK; 7], &[QUICK]),
    (&[QUICK], &[QUICK; 7]),
];

#[test]
fn joins_up_to_eight_levels(rt: HostRuntime) -> Result<(), Fail> {
    for (top, signer) in LEVELS {
        drop(check_joined(&rt, top, signer)?);
    }
    Ok(())
}

/// A number of levels and an LMS public key.
fn public_key(levels: u8, lms_key: &[u8]) -> [u8; 60] {
    let mut public = [0; 60];
    public[3] = levels;
    if let Some(part) = public.get_mut(4..)
        && part.len() == lms_key.len()
    {
        part.copy_from_slice(lms_key);
    }
    public
}

/// A key of so many levels and its signature, by its LMS public key and what follows the number of
/// signed keys.
fn part(rt: &impl AllocGlobal, levels: u8, lms_key: &[u8], rest: &[u8]) -> Result<Texts, Fail> {
    let signed_keys = levels.saturating_sub(1);
    let mut signature = Vec::from_slice(rt.alloc(), &[0, 0, 0, signed_keys])?;
    signature.extend_from_slice(rest)?;
    Ok(Texts {
        public: public_key(levels, lms_key),
        signature,
    })
}

/// Whether a public key and a signature are what their upper and their lower part are joined to,
/// and the lower part is a signature of this message.
fn is_joined_anew(
    rt: &impl AllocGlobal,
    public: &[u8],
    whole: &[u8],
    message: &str,
    levels_below: u8,
) -> Result<bool, Fail> {
    let (lms_key, lms_signature) = (public.get(4..), whole.get(4..1296));
    let top = part(rt, 1, lms_key.unwrap_or(&[]), lms_signature.unwrap_or(&[]))?;
    let (lms_key, rest) = (whole.get(1296..1352), whole.get(1352..));
    let lower = part(
        rt,
        levels_below,
        lms_key.unwrap_or(&[]),
        rest.unwrap_or(&[]),
    )?;
    let again = joined(rt, &top, &lower.public, &lower.signature)?;
    Ok(
        verify(&lower.public, message.as_bytes(), &lower.signature)
            && public == again.public.as_slice()
            && whole == again.signature.as_slice(),
    )
}

/// Another implementation's key of so many levels below its top one is taken apart below that, by
/// an LMS signature of 1292 bytes: its upper part endorses the lower one, and both join to what it
/// made.
fn check_vector(
    rt: &(impl Abort + AllocGlobal),
    vector: &Vector,
    levels_below: u8,
) -> Result<(), Fail> {
    let public = hex::decode(rt.alloc(), vector.public)?;
    let whole = hex::decode(rt.alloc(), vector.signature)?;
    assert!(rt; is_joined_anew(rt, &public, &whole, vector.message, levels_below)?);
    Ok(())
}

#[test]
fn joins_keys_of_another_implementation(rt: HostRuntime) -> Result<(), Fail> {
    check_vector(&rt, &TWO, 1)?;
    check_vector(&rt, &THREE, 2)
}

/// Whether no endorsement is made of these, for this reason.
fn is_refused(
    top_public: &[u8],
    endorsement: &[u8],
    signer_public: &[u8],
    fault: EndorsementFault,
) -> bool {
    Endorsement::new(top_public, endorsement, signer_public, ByEights).err() == Some(fault)
}

/// Whether the keys can be joined, and this endorsement is not accepted.
fn is_not_accepted(top_public: &[u8], endorsement: &[u8], signer_public: &[u8]) -> bool {
    let fault = EndorsementFault::NotAccepted;
    is_refused(top_public, endorsement, signer_public, fault)
}

/// Whether an endorsement is accepted without the byte after it, and neither with that byte nor
/// without its own last one.
fn wants_length(top_public: &[u8], longer: &[u8], signer_public: &[u8]) -> bool {
    let length = longer.len().saturating_sub(1);
    let endorsement = longer.get(..length).unwrap_or(&[]);
    let shorter = longer.get(..length.saturating_sub(1)).unwrap_or(&[]);
    Endorsement::new(top_public, endorsement, signer_public, ByEights).is_ok()
        && is_not_accepted(top_public, longer, signer_public)
        && is_not_accepted(top_public, shorter, signer_public)
        && is_not_accepted(top_public, &[0, 0, 0], signer_public)
}

/// Whether a key without its last byte is joined with no other, whatever endorses it.
fn is_not_joinable(top: &Texts, cut: &[u8]) -> bool {
    let fault = EndorsementFault::NotJoinable;
    is_refused(&top.public, &top.signature, cut, fault)
        && is_refused(&top.public, &[], cut, fault)
        && join_public(&top.public, cut).is_none()
        && join_public(cut, &top.public).is_none()
}

/// A key's signatures of another key, of a signer's key with the four bytes before it, and of
/// `abc`; another key's; and those of another length.
#[test]
fn refuses_what_is_not_endorsed(rt: HostRuntime) -> Result<(), Fail> {
    let signer = signed(&rt, &[QUICK], 0x44, 3, b"abc")?;
    let other = signed(&rt, &[QUICK], 0x45, 3, b"abc")?.public;
    let counted = signed(&rt, &[QUICK], 0x55, 7, &signer.public)?;
    let mut top = endorsed(&rt, &[QUICK], &signer.public)?;
    let refuses = is_not_accepted(&top.public, &top.signature, &other)
        && is_not_accepted(&other, &top.signature, &signer.public)
        && is_not_accepted(&top.public, &signer.signature, &signer.public)
        && is_not_accepted(&top.public, &counted.signature, &signer.public)
        && is_not_joinable(&top, signer.public.get(..59).unwrap_or(&[]));
    top.signature.push(0)?;
    assert!(rt; refuses && wants_length(&top.public, &top.signature, &signer.public));
    Ok(())
}

#[test]
fn refuses_signatures_of_other_keys(rt: HostRuntime) -> Result<(), Fail> {
    let signer = signed(&rt, &[QUICK], 0x44, 3, b"abc")?.public;
    let top = endorsed(&rt, &[QUICK], &signer)?;
    let two_levels = signed(&rt, &[QUICK; 2], 0x44, 3, b"abc")?;
    let other = signed(&rt, &[QUICK], 0x45, 3, b"abc")?;
    let text = joined(&rt, &top, &signer, &other.signature)?;
    assert!(rt;
        !verify(&text.public, b"abc", &text.signature)
            && joins(rt.alloc(), &top, &signer, &two_levels.signature, false)
            && joins(rt.alloc(), &top, &signer, &[0, 0, 0], false)
    );
    Ok(())
}

/// Whether a signature is joined with a top key's endorsement of a signer's key or, where it is not
/// begun, is not.
fn joins(alloc: Global, top: &Texts, signer: &[u8], signature: &[u8], is_begun: bool) -> bool {
    match Endorsement::new(&top.public, &top.signature, signer, ByEights) {
        Ok(endorsement) => match endorsement.join(alloc, signature, ByEights) {
            Ok(text) => text.is_some() == is_begun,
            Err(_) => false,
        },
        Err(_) => false,
    }
}

/// Whether a signature is joined, and is not where it is cut or byte 100 is changed; where its last
/// byte is, it is.
fn joins_begun(alloc: Global, top: &Texts, signer: &[u8], signature: &mut [u8]) -> bool {
    let shorter = signature.len().saturating_sub(1);
    let mut is_right = joins(alloc, top, signer, signature, true)
        && joins(
            alloc,
            top,
            signer,
            signature.get(..shorter).unwrap_or(&[]),
            false,
        );
    for (at, is_begun) in [(100, false), (shorter, true)] {
        flip(signature, at, 1);
        is_right = is_right && joins(alloc, top, signer, signature, is_begun);
        flip(signature, at, 1);
    }
    is_right
}

/// A signature of two levels is not joined where it is cut, where its key is another's and where a
/// byte of the signature of its lower key is changed; one whose message is another is.
#[test]
fn refuses_signatures_that_are_not_begun(rt: HostRuntime) -> Result<(), Fail> {
    let mut signer = signed(&rt, &[QUICK; 2], 0x44, 3, b"abc")?;
    let other = signed(&rt, &[QUICK; 2], 0x45, 3, b"abc")?;
    let top = endorsed(&rt, &[QUICK], &signer.public)?;
    assert!(rt;
        joins(rt.alloc(), &top, &signer.public, &other.signature, false)
            && joins_begun(rt.alloc(), &top, &signer.public, &mut signer.signature)
    );
    Ok(())
}

#[test]
fn faults_have_texts(rt: HostRuntime) -> Result<(), Fail> {
    for (fault, text) in [
        (EndorsementFault::NotJoinable, "the keys can't be joined"),
        (
            EndorsementFault::NotAccepted,
            "the endorsement is not accepted",
        ),
    ] {
        assert!(rt; fault.to_string(rt.alloc())?.as_str() == text, "{text}");
    }
    Ok(())
}
