//! Jobs signed by the indices of a lease. Threads claim the indices without waiting, and their
//! receipts make a batch. `SigningService` signs a list of jobs this way, over a shared book.
#![tactic(auto)]

mod collector;
mod crew;
mod fault;
mod gate;
mod job;
mod open_lease;
mod receipt;
mod service;
mod trees;
mod worker;

pub use crate::collector::{Batch, Collector};
pub use crate::fault::{BatchFault, SignFault, TakeFault};
pub use crate::gate::{Gate, OpenGate};
pub use crate::job::{Job, MOST_JOBS};
pub use crate::open_lease::OpenLease;
pub use crate::receipt::Receipt;
pub use crate::service::{MOST_WORKERS, SigningService};
pub use crate::trees::Trees;
pub use lms_params::OutOfMemory;
