//! Tests of `lms_world`.
#![tactic(auto)]

#[cfg(test)]
mod tests;
