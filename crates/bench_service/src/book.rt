//! The books that lease the indices of the keys.
use bench_base::{Fault, Hierarchy};
use lms_book::{Book, MemoryStore};
use lms_fixtures::book_at;
use std::alloc::Global;

/// A book in memory over the key of these levels, with no index used. It takes up to 1024 writes.
pub fn book(alloc: Global, hierarchy: Hierarchy) -> Result<Book<MemoryStore>, Fault> {
    match book_at(alloc, hierarchy.key()?, 0) {
        Ok(book) => Ok(book),
        Err(_) => Err(Fault::Service),
    }
}
