//! The files and the keys' states that a program reaches by their names, and what is kept beside
//! states: nodes of keys' trees, and witnesses.
//!
//! A [`World`] has them: the disk is one, and [`MemoryWorld`] stands in for it in tests.
#![tactic(auto)]

mod contents;
mod fault;
pub mod laws;
pub mod log;
mod memory;
mod note;
mod printer;
mod world;

pub use crate::contents::{Contents, Taker};
pub use crate::fault::WorldFault;
pub use crate::memory::{MemoryContents, MemoryDraft, MemoryLock, MemoryWorld};
pub use crate::note::{Note, Quoted};
pub use crate::printer::Printer;
pub use crate::world::World;
pub use lms_file_store::LockFault;
pub use lms_files::{MOST_WITNESS, Output};
pub use lms_params::OutOfMemory;
