//! Each function of `lms_uses` is run once.
mod files;

use crate::tests::QUICK;
use lms_batch::{Batch, Job};
use lms_book::{Book, Image, MemoryStore, encode_image};
use lms_hss::{HSS_KEY_LEN, HssKey, Levels};
use lms_uses::{Signed, endorse, is_valid, is_valid_in_pieces, join, sign_all, sign_reserved};
use std::alloc::Global;
use std::sync::Wait;
use std::test::Fail;
use std::thread::Threads;

/// A key of one level whose seed is 32 times this byte.
fn key_of(seed: u8) -> Result<HssKey, Fail> {
    Ok(HssKey::new(Levels::new(&[QUICK])?, [seed; 32], [8; 16]))
}

/// A book of such a key, over a store in memory.
fn book_of(alloc: Global, seed: u8) -> Result<Book<MemoryStore>, Fail> {
    let image = encode_image(&Image::unused(key_of(seed)?));
    let store = MemoryStore::new(alloc, Some(image.as_slice()), 8)?;
    match Book::open(alloc, store) {
        Ok(book) => Ok(book),
        Err(_) => Err(Fail::from("the store opens")),
    }
}

/// What index 0 of such a key signs.
fn signed(
    rt: &(impl AllocGlobal + Threads + Sync),
    seed: u8,
    message: &[u8],
) -> Result<Signed, Fail> {
    let mut book = book_of(rt.alloc(), seed)?;
    Ok(sign_reserved(rt, rt.alloc(), &mut book, &[1; 32], message)?)
}

/// Whether a signature of `abc` is valid for that message alone, whole and in pieces.
fn is_of_abc(signed: &Signed) -> bool {
    let (public, signature) = (&signed.public, &signed.signature);
    is_valid(public, b"abc", signature)
        && !is_valid(public, b"abd", signature)
        && is_valid_in_pieces(public, &[b"a", b"bc"], signature)
        && !is_valid_in_pieces(public, &[b"bc", b"a"], signature)
}

#[test]
fn a_signature_is_verified(rt: HostRuntime) -> Result<(), Fail> {
    assert!(rt; is_of_abc(&signed(&rt, 7, b"abc")?));
    Ok(())
}

/// Two jobs.
fn two_jobs(alloc: Global) -> Result<Vec<Job>, Fail> {
    let mut jobs = Vec::new(alloc);
    for (randomizer, message) in [(1, b"a"), (2, b"b")] {
        let message = Vec::from_slice(alloc, message)?;
        let c = [randomizer; 32];
        jobs.push(Job { c, message })?;
    }
    Ok(jobs)
}

/// Whether a batch is complete from index 0 on, with valid signatures of two jobs.
fn is_complete(public: &[u8], batch: &Batch, jobs: &[Job]) -> bool {
    let Batch::Complete {
        start: 0,
        signatures,
    } = batch
    else {
        return false;
    };
    match (signatures.as_slice(), jobs) {
        ([first, second], [job, next]) => {
            is_valid(public, &job.message, first) && is_valid(public, &next.message, second)
        }
        _ => false,
    }
}

/// Whether two workers sign these two jobs by indices 0 and 1.
fn are_signed(
    rt: &(impl AllocGlobal + Threads + Wait + Sync),
    public: &[u8],
    jobs: &[Job],
) -> Result<bool, Fail> {
    let (answer, book) = sign_all(rt, rt.alloc(), book_of(rt.alloc(), 7)?, jobs, 2);
    let is_counted = book.counter() == 2;
    match answer {
        Ok(batch) => Ok(is_counted && is_complete(public, &batch, jobs)),
        Err(_) => Ok(false),
    }
}

#[test]
fn jobs_are_signed_by_two_workers(rt: HostRuntime) -> Result<(), Fail> {
    let public = key_of(7)?.public_key(&rt, rt.alloc())?;
    assert!(rt; are_signed(&rt, &public, &two_jobs(rt.alloc())?)?);
    Ok(())
}

/// The endorsement of a signer's key by index 0 of a top key.
fn endorsed(
    rt: &(impl AllocGlobal + Threads + Sync),
    signer: &[u8; HSS_KEY_LEN],
) -> Result<Signed, Fail> {
    let mut top = book_of(rt.alloc(), 9)?;
    Ok(endorse(rt, rt.alloc(), &mut top, &[2; 32], signer)?)
}

/// Whether a signature of `abc` is joined with an endorsement, and one of no message is not.
fn is_joined(alloc: Global, endorsement: &Signed, signed: &Signed) -> Result<bool, Fail> {
    let Some(joined) = join(alloc, endorsement, &signed.public, &signed.signature)? else {
        return Ok(false);
    };
    let is_joined = is_valid(&joined.public, b"abc", &joined.signature);
    Ok(is_joined && join(alloc, endorsement, &signed.public, b"")?.is_none())
}

#[test]
fn an_endorsed_key_signs_under_the_top_key(rt: HostRuntime) -> Result<(), Fail> {
    let signed = signed(&rt, 7, b"abc")?;
    let endorsement = endorsed(&rt, &signed.public)?;
    assert!(rt; is_joined(rt.alloc(), &endorsement, &signed)?);
    Ok(())
}
