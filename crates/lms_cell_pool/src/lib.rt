//! An index pool over one ruled cell, with the contracts of `lms_pool`. Its calls wait for each
//! other. Tests and timings compare `lms_pool` with it; no product crate uses it.
#![tactic(auto)]

mod claim;
mod finish;
mod look;
mod over;
mod pass;
mod pool;
mod rule;
mod seat;
mod stop;

pub use crate::pass::CellPass;
pub use crate::pool::CellPool;
pub use crate::seat::CellSeat;
pub use lms_pool::{Ended, MissingSeats, OutOfMemory, Tally};
