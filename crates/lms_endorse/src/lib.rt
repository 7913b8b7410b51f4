//! Signers' keys that a top key endorses, and what `endorse` does: it signs such a key with the next
//! index of the top key's state, and nothing else.
#![tactic(auto)]

mod endorse;
pub mod laws;
mod lines;
mod order;

pub use crate::endorse::{EndorseRequest, endorse_key};
