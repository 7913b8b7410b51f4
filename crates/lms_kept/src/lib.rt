//! The trees that an index goes through, with the nodes that sign by it. They are kept as bytes, so
//! that they need not be computed again.
//!
//! Nodes of a tree never change. Kept bytes may be wrong where someone else wrote them: at worst,
//! signatures by them are refused. No one-time key of an upper level signs what came from such
//! bytes.
#![tactic(auto)]

mod kept_level;
mod kept_text;
mod kept_trees;
pub mod laws;
mod levels;
mod planned_level;
mod planned_trees;
mod signing;

pub use crate::kept_text::MOST_TEXT_LEN;
pub use crate::kept_trees::KeptTrees;
pub use crate::signing::{KeptSignature, sign_lease};
pub use lms_params::OutOfMemory;
