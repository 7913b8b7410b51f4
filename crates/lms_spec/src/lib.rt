//! The definitions of RFC 8554 that the contracts of this workspace cite, and the laws over them.
#![tactic(auto)]

pub mod laws;
