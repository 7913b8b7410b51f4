//! Verification under the key of one tree (RFC 8554, 5.4.2), and the hashes of a tree's nodes.
#![tactic(auto)]

mod nodes;
mod verification;

pub use crate::nodes::{inner_hash, leaf_count, leaf_hash};
pub use crate::verification::{PublicKey, Verifier, verify};
pub use lms_ots::{ByEights, ChainEnds, MESSAGE_HEAD_LEN, OneByOne};
