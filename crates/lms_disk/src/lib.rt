//! The disk as a world of files and keys' states, named by their paths.
#![tactic(auto)]

mod contents;
mod fault;
mod world;

pub use crate::contents::DiskContents;
pub use crate::world::DiskWorld;
