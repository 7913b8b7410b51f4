//! Tests of open leases and collectors of `lms_batch`.
#![tactic(auto)]

#[cfg(test)]
mod tests;
