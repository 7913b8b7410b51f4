//! The index pool of a lease: up to 64 seats claim its places, 0 to length - 1, from one atomic
//! word. No call waits.
//!
//! Each call of a seat is once in one legal call log, after all that the seat had seen: the log is
//! that of a pool which one thread uses alone.
#![tactic(auto)]

mod call_log;
mod claim;
mod fault;
mod finish;
pub mod laws;
mod look;
mod over;
mod pass;
mod pool;
mod rule;
mod seat;
mod stop;

pub use crate::call_log::Hand;
pub use crate::fault::{Ended, MissingSeats};
pub use crate::finish::Tally;
pub use crate::pass::IndexPass;
pub use crate::pool::IndexPool;
pub use crate::seat::DrawSeat;
pub use lms_params::OutOfMemory;
