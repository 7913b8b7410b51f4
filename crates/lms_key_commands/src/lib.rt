//! What the commands on keys do, from their options' texts to the bytes on their output.
//!
//! Files and states are reached through a [`World`](lms_world::World).
#![tactic(auto)]

mod info;
mod keygen;
pub mod laws;
mod public;
mod resume;
mod watch;

pub use crate::info::describe;
pub use crate::keygen::{key_from, make_key};
pub use crate::public::publish_key;
pub use crate::resume::resume_state;
pub use crate::watch::watch_state;
