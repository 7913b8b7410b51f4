//! Why a shared book was not settled.

use thiserror::Error;

/// Fewer desks were handed to `settle` than `share` gave out.
#[derive(Clone, Copy, Debug, PartialEq, Eq, Error)]
#[error("desks are missing: {present} came")]
pub struct MissingDesks {
    /// How many came.
    pub present: usize,
}
