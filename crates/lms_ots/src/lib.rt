//! LM-OTS, the one-time signature (RFC 8554, section 4).
//!
//! A one-time key signs one message. With the signatures of two messages by one key, anyone can
//! forge others: a caller of `sign_into` must use each leaf once.
#![tactic(auto)]

mod chain_ends;
mod chain_hashes;
mod hashing;
mod lanes;
mod neighbours;
mod one_time_key;
mod signing;
mod verification;
mod walk;

pub use crate::chain_ends::{ByEights, ChainEnds, OneByOne};
pub use crate::hashing::hasher_at;
pub use crate::neighbours::eight_public_hashes;
pub use crate::one_time_key::{OtsId, chain, public_hash, secret};
pub use crate::signing::{MESSAGE_HEAD_LEN, sign_into};
pub use crate::verification::{Verifier, candidate};
pub use lms_lanes::LANES;
