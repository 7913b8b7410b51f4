//! Tests of `lms_batch`.
#![tactic(auto)]

#[cfg(test)]
mod tests;
