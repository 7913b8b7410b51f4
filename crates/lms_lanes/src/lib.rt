//! SHA-256 (FIPS 180-4) of eight inputs at once, one in each lane of a vector: steps of chains, and
//! hashes over the ends of chains.
//!
//! Loops have labels, here and in `lms_ots`, so that their proofs can name them.
#![tactic(auto)]

mod blocks;
mod bytes;
mod chains;
mod ends;
mod halves;
mod lengths;
mod rounds;
mod words;

pub use crate::chains::hash_chains;
pub use crate::ends::hash_ends;
pub use crate::lengths::{FRONT_LEN, HEAD_LEN, LANES};
