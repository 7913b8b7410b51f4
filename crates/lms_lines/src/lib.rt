//! Job lines read from any reader, signed, and answered by lines written to any writer.
#![tactic(auto)]

mod answers;
mod fault;
mod gathering;
mod job_line;
mod jobs;
pub mod laws;
mod pieces;
mod signing;

pub use crate::answers::write_batch;
pub use crate::fault::{JobsFault, LinesFault};
pub use crate::jobs::read_jobs;
pub use crate::pieces::{Piece, Pieces, end_of_lines};
pub use crate::signing::{Done, SignedJobs, count_signatures, read_and_sign, sign_lines};
pub use lms_blocks::WriteFault;
