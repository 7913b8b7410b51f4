//! What all commands of the program share: their faults and statuses, and what they do with files,
//! states and witnesses.
//!
//! Files and states are reached through a [`World`](lms_world::World).
#![tactic(auto)]

mod fault;
mod files;
mod keeping;
mod resources;
mod status;
mod witness;

pub use crate::fault::{Fault, print_fault};
pub use crate::files::{
    hand_over, image_read, lock_state, open_file, open_state, read_file, write_file, write_flushed,
};
pub use crate::keeping::{keep_trees, kept_text};
pub use crate::resources::Resources;
pub use crate::status::Status;
pub use crate::witness::{Witness, discard, note, open_watched, see_witness};
