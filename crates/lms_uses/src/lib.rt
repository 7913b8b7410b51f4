//! Short uses of the signer's crates, each proved, and run by tests. They are to be copied into
//! programs: no crate but that of their tests uses them.
#![tactic(auto)]

mod joining;
mod kept_nodes;
mod state_file;
mod verifying;
mod workers;

pub use crate::joining::{Joined, endorse, join};
pub use crate::kept_nodes::sign_by_kept_nodes;
pub use crate::state_file::{Signed, make_state, sign_from_file, sign_reserved};
pub use crate::verifying::{is_valid, is_valid_in_pieces};
pub use crate::workers::sign_all;
