//! Bytes that are read block by block, and bytes that are written whole.
#![tactic(auto)]

mod fault;
mod line;
mod reading;
#[cfg(test)]
mod tests;
mod writing;

pub use crate::fault::WriteFault;
pub use crate::line::print_line;
pub use crate::reading::read_block;
pub use crate::writing::write_bytes;
