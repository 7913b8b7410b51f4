//! Why a pool gives no place, and why it is not finished.

use thiserror::Error;

/// Not all seats of a pool came to its end.
#[derive(Clone, Copy, Debug, PartialEq, Eq, Error)]
#[error("seats are missing: {present} came")]
pub struct MissingSeats {
    /// How many came.
    pub present: usize,
}

/// No place is left.
#[derive(Clone, Copy, Debug, PartialEq, Eq, Error)]
#[error("the pool has ended")]
pub struct Ended;
