//! A book that threads share, behind one lock, with a desk for each caller.
#![tactic(auto)]

mod book_ledger;
mod counted;
mod desk;
mod fault;
mod shared;
mod sums;

pub use crate::book_ledger::{Blanks, BookLedger};
pub use crate::desk::Desk;
pub use crate::fault::MissingDesks;
pub use crate::shared::SharedBook;
pub use lms_params::OutOfMemory;
