//! The version of what is handed out: the program, the verifier for C and their packages.

/// The version, which `release` reads here.
pub(crate) const VERSION: &str = "2.0.0";
