//! The parameter sets of RFC 8554 with SHA-256, by their typecodes, and the digits that a one-time
//! signature signs.
#![tactic(auto)]

mod fault;
mod lengths;
mod lms_type;
mod message_digits;
mod ots_type;
mod reading;

pub use crate::fault::OutOfMemory;
pub use crate::lengths::{HASH_LEN, MOST_CHAINS};
pub use crate::lms_type::{LmsType, lms_sig_len};
pub use crate::message_digits::digits;
pub use crate::ots_type::OtsType;
pub use crate::reading::{split_u32, split_u64};
