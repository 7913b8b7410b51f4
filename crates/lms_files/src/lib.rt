//! Files, written whole by a draft beside their place: which names lead where, what may be written
//! over and what must stay, and what is left in a file, read.
//!
//! No contract knows a disk. What is proved is about the bytes that are written and read.
#![tactic(auto)]

pub mod drafts;
mod file_id;
mod outputs;
pub mod paths;
mod places;
mod reading;

pub use crate::file_id::FileId;
pub use crate::outputs::{MOST_WITNESS, leads_to_image, refusal, write_flushed, write_output};
pub use crate::places::{Output, Place, plan_output};
pub use crate::reading::{read_at_most, read_rest};
pub use lms_params::OutOfMemory;
