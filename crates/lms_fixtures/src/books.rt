//! Stores, books over them, and leases.
ghost use Rattle.std.specs.Prelude.{◌≡◌, ◌≤◌, [], Some, IfOk};
ghost use Rattle.lms_hss.specs.Covered.{most_covered};
ghost use Rattle.lms_image.specs.Image.{image_of as image_text};

use crate::keys::image_of;
use lms_book::{Book, BookFault, Lease, MemoryStore, OpenFault, OutOfMemory};
use lms_hss::HssKey;
use std::alloc::Global;

/// How many writes a store records.
const WRITES: usize = 1024;

/// The most bytes that a store holds.
const MOST_BYTES: usize = 256;

/// A store that holds these bytes, at most 256.
pub fn store_of(alloc: Global, bytes: &[u8]) -> Result<MemoryStore, &'static str>
    ensures { IfOk result (λ store. store.text ≡ Some bytes.now) }
{
    if bytes.len() > MOST_BYTES {
        return Err("at most 256 bytes are stored");
    }
    match MemoryStore::new(alloc, Some(bytes), WRITES) {
        Ok(store) => Ok(store),
        Err(OutOfMemory) => match MemoryStore::new(alloc, Some(bytes), WRITES) {
            Ok(store) => Ok(store),
            Err(OutOfMemory) => Err("a second try makes a store"),
        },
    }
}

/// A store that holds the image of this key and this counter, with no opening counted and no index
/// burnt.
pub fn store_at(alloc: Global, key: HssKey, counter: u64) -> Result<MemoryStore, &'static str>
    ensures { IfOk result (λ store. store.text ≡ Some (image_text key counter 0 0)) }
{
    store_of(alloc, image_of(key, counter)?.as_slice())
}

/// The book of a store that opens.
pub fn book_of(alloc: Global, store: MemoryStore) -> Result<Book<MemoryStore>, &'static str>
    ensures { IfOk result (λ book. book.history ≡ []) }
{
    match Book::open(alloc, store) {
        Ok(book) => Ok(book),
        Err((OpenFault::OutOfMemory, store)) => match Book::open(alloc, store) {
            Ok(book) => Ok(book),
            Err(_) => Err("a second try opens the store"),
        },
        Err(_) => Err("the store opens"),
    }
}

/// The book of this key whose next index is this one.
pub fn book_at(alloc: Global, key: HssKey, counter: u64) -> Result<Book<MemoryStore>, &'static str>
    ensures { IfOk result (λ book. book.history ≡ []) }
{
    book_of(alloc, store_at(alloc, key, counter)?)
}

/// A lease of the next indices of a book.
pub fn lease_from(book: &mut Book<MemoryStore>, len: u64) -> Result<Lease, BookFault>
    requires some { 1 ≤ len }
    requires at_most { len ≤ most_covered }
    ensures { IfOk result (λ lease. lease.len ≡ len) }
{
    match book.reserve(len) {
        Err(BookFault::OutOfMemory) => book.reserve(len),
        answer => answer,
    }
}

/// Reserves, and gives the lease back: the first index and the number of indices.
pub fn reserved(book: &mut Book<MemoryStore>, len: u64) -> Result<(u64, u64), BookFault>
    requires some { 1 ≤ len }
    requires at_most { len ≤ most_covered }
{
    let lease = lease_from(book, len)?;
    let range = (lease.start(), lease.len());
    book.give_back(lease);
    Ok(range)
}

/// A lease of `len` indices of a key from `start` on.
pub fn lease_of(alloc: Global, key: HssKey, start: u64, len: u64) -> Result<Lease, &'static str>
    requires some { 1 ≤ len }
    requires at_most { len ≤ most_covered }
    ensures { IfOk result (λ lease. lease.len ≡ len) }
{
    let mut book = book_at(alloc, key, start)?;
    match lease_from(&mut book, len) {
        Ok(lease) => Ok(lease),
        Err(_) => Err("the indices are left"),
    }
}
