//! The program's command line: what its arguments ask for.
//!
//! [`command::command`] reads them as a [`command::Command`].
#![tactic(auto)]

pub mod command;
mod fault;
mod version;
