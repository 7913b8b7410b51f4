//! The signer's book: it stores that indices of a key are used before it gives them.
//!
//! An index that signs twice lets others forge signatures. Never put an older image back into a
//! store, and never use one image in two places: nothing here can see either.
#![tactic(auto)]

mod book;
mod fault;
mod history;
mod last_read;
pub mod laws;
mod memory;
mod plans;
mod reservations;
mod store;
mod stored_bytes;

pub use crate::book::{Book, Lease};
pub use crate::fault::{BookFault, OpenFault, ReadFault, StoreFault};
pub use crate::history::Entry;
pub use crate::last_read::LastRead;
pub use crate::memory::MemoryStore;
pub use crate::plans::Left;
pub use crate::reservations::Reservations;
pub use crate::store::StateStore;
pub use crate::stored_bytes::StoredBytes;
pub use lms_image::{Image, ImageBytes, ImageFault, decode_image, encode_image};
pub use lms_params::OutOfMemory;
