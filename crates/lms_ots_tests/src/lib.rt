//! Tests of `lms_ots`, of `lms_lanes` and `lms_params` below it, and of the slow signer.
#![tactic(auto)]

#[cfg(test)]
mod tests;
