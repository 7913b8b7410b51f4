//! The texts of the program's commands: what their options say, and what is printed of a key.
#![tactic(auto)]

mod description;
mod fault;
mod options;
mod seed;
mod witness;

pub use crate::description::{print_capacity, print_index, print_info};
pub use crate::fault::{LevelsTextFault, SeedFault};
pub use crate::options::{read_bytes, read_levels, workers_from};
pub use crate::seed::read_seed;
pub use crate::witness::{decimal_number, print_witness, witness_counter};
