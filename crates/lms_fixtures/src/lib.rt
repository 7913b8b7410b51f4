//! What crates of tests share: keys, stores, books, leases, what signs their indices, and counts of
//! what is reported. The merge check runs tests with each request for memory refused in turn
//! (`tests/run refused_memory`), so each call here asks a second time. An error says what was
//! expected.
#![tactic(auto)]

mod books;
mod forests;
mod keys;
mod sums;

pub use crate::books::{book_at, book_of, lease_from, lease_of, reserved, store_at, store_of};
pub use crate::forests::{forest_of, signature_of};
pub use crate::keys::{image_of, image_with, key_of};
pub use crate::sums::Sums;
