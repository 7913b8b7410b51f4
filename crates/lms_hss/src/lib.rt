//! HSS, the hierarchy of LMS trees (RFC 8554, section 6).
//!
//! An index signs one message. Two messages under one index let a forger sign others: a caller of
//! `Forest::sign` must never use an index twice.
//!
//! What a caller needs of the lower crates is exported here, too: the sets of a level (`LmsType`,
//! `OtsType`), `HASH_LEN`, `OutOfMemory`, `Progress`, and how chains are taken to their ends
//! (`ChainEnds`).
#![tactic(auto)]

mod child_key;
mod fault;
mod forest;
mod key;
mod level_trees;
mod levels;
mod signed_tree;
mod text;
mod verification;

pub use crate::child_key::{nodes_secret, randomizer};
pub use crate::fault::KeyFault;
pub use crate::forest::Forest;
pub use crate::key::{HSS_KEY_LEN, HssKey, public_key_bytes, same_key};
pub use crate::levels::{Levels, MOST_LEVELS};
pub use crate::text::LevelsText;
pub use crate::verification::{Verifier, verify, verify_with};
pub use lms_params::{HASH_LEN, LmsType, OtsType, OutOfMemory};
pub use lms_tree::{LMS_KEY_LEN, Progress, Unwatched};
pub use lms_verification::{ByEights, ChainEnds, MESSAGE_HEAD_LEN, OneByOne};
