//! What the commands do that join what several machines sign: they read files and write one. They
//! lock and read no state, hold no secret and print nothing.
#![tactic(auto)]

mod files;
mod join;
mod join_public;
pub mod laws;
mod why;

pub use crate::join::{JoinRequest, join_signature};
pub use crate::join_public::join_public_keys;
