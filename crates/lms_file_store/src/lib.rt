//! A key's state in a file, the lock on it, and the nodes of its trees and the witness that are kept
//! beside it.
//!
//! A store is made from the lock on its file. Hold the lock as long as the store is used: two
//! stores in one file give an index twice. So does an older copy of the file that is put back, or a
//! second name of it by a hard link; no store can see these, and only who compares the state with
//! its witness sees the former.
//!
//! No contract knows a disk. What is proved is about the bytes written through a store, under two
//! assumptions: a rename replaces the file whole, so that a crash within it leaves the old file or
//! the new one; and after `sync_all` answered `Ok`, a crash loses neither the bytes of that file
//! nor the names in that folder.
#![tactic(auto)]

mod fault;
mod file_store;
mod locking;
mod nodes;
mod record;
mod witness;

pub use crate::fault::LockFault;
pub use crate::file_store::FileStore;
pub use crate::locking::{StateLock, TryLock, lock};
pub use crate::witness::{WitnessDraft, look_at_witness, make_witness};
pub use lms_params::OutOfMemory;
