//! The program as one function of its arguments, its files and its streams.
//!
//! [`run::run`] reads the arguments as a command of `lms_command_line` and does what it asks.
#![tactic(auto)]

pub mod laws;
mod notes;
pub mod run;
