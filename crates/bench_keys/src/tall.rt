//! A tall tree, computed once, and a signature by its last leaf.
use bench_base::{Fault, Hierarchy, MESSAGE, RANDOMIZER};
use lms_hss::{Forest, verify};
use lms_params::{LmsType, OtsType};
use std::thread::Threads;

/// The key of the tall tree that is computed the soonest.
const TALL: Hierarchy = Hierarchy(&[(LmsType::H20, OtsType::W2)]);

/// The index before the first one that is covered.
const BEFORE: u64 = 1048569;

/// The last index of the key.
const LAST: u64 = 1048575;

/// Covers the last six indices of the key and no other, signs by the last, and verifies that under
/// the public key that the forest has: 631,000,000 compressions of SHA-256.
pub fn sign_tall(rt: &(impl Print + AllocGlobal + Threads + Sync)) -> Result<(), Fault> {
    let key = TALL.key()?;
    if key.capacity() != LAST + 1 {
        return Err(Fault::Key);
    }
    let forest = Forest::cover(rt, rt.alloc(), key, BEFORE + 1, LAST - BEFORE)?;
    sign_last(rt, &forest)
}

/// Signs by the last index of the key, verifies the signature and prints that.
fn sign_last(rt: &impl Print, forest: &Forest) -> Result<(), Fault> {
    if forest.covers(BEFORE) || forest.covers(LAST + 1) || !forest.covers(LAST) {
        return Err(Fault::Result);
    }
    let signature = forest.sign(LAST, &RANDOMIZER, &MESSAGE)?;
    let public = forest.public();
    if !verify(&public, &MESSAGE, &signature) || verify(&public, b"another", &signature) {
        return Err(Fault::Verdict);
    }
    let length = signature.len();
    println!(rt; "20/2: index {LAST} signed, {length} bytes, valid")?;
    Ok(())
}
