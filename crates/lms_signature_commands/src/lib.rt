//! What `sign` and `verify` do, from their options' texts to the bytes on their output.
//!
//! Files and states are reached through a [`World`](lms_world::World).
#![tactic(auto)]

pub mod laws;
mod sign;
mod verdict;
mod verify;
mod why;

pub use crate::sign::{SignRequest, randomizer_from, sign_file, sign_opened};
pub use crate::verdict::Verdict;
pub use crate::verify::verify_files;
