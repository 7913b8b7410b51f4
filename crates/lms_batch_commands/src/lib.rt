//! What `batch` and `serve` do, from their options' texts to the bytes on their output.
//!
//! States are reached through a [`World`](lms_world::World).
#![tactic(auto)]

mod batch;
mod due;
pub mod laws;
mod serve;

pub use crate::batch::sign_jobs;
pub use crate::serve::serve_jobs;
