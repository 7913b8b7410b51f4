//! LMS, the Merkle tree of one-time keys (RFC 8554, section 5).
//!
//! A leaf signs one message. Two messages under one leaf let a forger sign others: a caller of
//! `sign_into` must never use a leaf twice. What verifies is in `lms_verification`, and is here by
//! its names, too.
#![tactic(auto)]

mod band;
mod band_tree;
mod kept_tree;
mod node_source;
mod planned_tree;
mod progress;
mod row;
mod signing;
mod tree_key;
mod whole_tree;
mod workers;

pub use crate::band_tree::{BandTree, bottom_height};
pub use crate::kept_tree::KeptTree;
pub use crate::node_source::NodeSource;
pub use crate::planned_tree::PlannedTree;
pub use crate::progress::{Begun, Progress, Unwatched};
pub use crate::signing::{LMS_KEY_LEN, public_bytes, sign_into};
pub use crate::tree_key::TreeKey;
pub use crate::whole_tree::WholeTree;
pub use lms_params::OutOfMemory;
pub use lms_verification::{
    ByEights, ChainEnds, MESSAGE_HEAD_LEN, OneByOne, PublicKey, Verifier, verify,
};
