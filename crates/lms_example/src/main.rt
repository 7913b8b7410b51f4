//! Makes a key, stores its state in a store of the program's own, signs two messages and verifies
//! them.
#![tactic(auto)]

ghost use Rattle.std.specs.Prelude.{◌≡◌};

mod one_text;

use crate::one_text::OneText;
use anyhow::Result;
use lms_book::{Book, Lease, StateStore};
use lms_hss::{Forest, HssKey, Levels, verify};
use lms_image::{Image, encode_image};
use lms_params::{LmsType, OtsType, OutOfMemory};
use std::alloc::Global;
use std::thread::Threads;

// A real program takes the seed, the identifier and each randomizer from a true random source.
// Whoever knows the seed signs.
const SEED: [u8; 32] = [7; 32];

const IDENTIFIER: [u8; 16] = [8; 16];

const RANDOMIZERS: [[u8; 32]; 2] = [[1; 32], [2; 32]];

const MESSAGES: [&[u8]; 2] = [b"first firmware", b"second firmware"];

fn main(rt: HostRuntime) -> Result<()> {
    let levels = Levels::new(&[(LmsType::H5, OtsType::W8)])?;
    let key = HssKey::new(levels, SEED, IDENTIFIER);
    let public = key.public_key(&rt, rt.alloc())?;
    let mut book = new_book(rt.alloc(), key)?;
    let lease = book.reserve(2)?;
    // A lease can't be dropped, so the `?` of what it is used for comes after `give_back`.
    let signed = sign_messages(&rt, rt.alloc(), &lease);
    book.give_back(lease);
    let signed = signed?;
    print_verdict(&rt, &public, MESSAGES[0], &signed[0])?;
    print_verdict(&rt, &public, MESSAGES[1], &signed[1])?;
    println!(rt; "{} of {} indices used", book.counter(), key.capacity())?;
    Ok(())
}

/// Verifies a message by its signature, and prints the verdict with the index that signed.
fn print_verdict(
    rt: &impl Print,
    public: &[u8],
    message: &[u8],
    signed: &(u64, Vec<u8>),
) -> Result<()> {
    let (index, signature) = signed;
    let is_valid = verify(public, message, signature);
    println!(rt;
        "index {index}: {}",
        if is_valid { "valid" } else { "invalid" }
    )?;
    Ok(())
}

/// Stores that no index of a new key is used, and opens the book on it. A key's first image is
/// stored once in its life.
fn new_book(alloc: Global, key: HssKey) -> Result<Book<OneText>> {
    let mut store = OneText::new(alloc);
    let unused = Image::unused(key);
    store.replace(encode_image(&unused).as_slice())?;
    Ok(Book::open(alloc, store).map_err(|(fault, _)| fault)?)
}

/// Signs the messages with the two indices of a lease, each with one of its own, and answers each
/// index and its signature.
fn sign_messages(
    rt: &(impl Threads + Sync),
    alloc: Global,
    lease: &Lease,
) -> Result<[(u64, Vec<u8>); 2], OutOfMemory>
    requires { lease.now.len ≡ 2 }
{
    let start = lease.start();
    let forest = Forest::cover(rt, alloc, lease.key(), start, lease.len())?;
    let first = forest.sign(start, &RANDOMIZERS[0], MESSAGES[0])?;
    let second = forest.sign(start + 1, &RANDOMIZERS[1], MESSAGES[1])?;
    Ok([(start, first), (start + 1, second)])
}
