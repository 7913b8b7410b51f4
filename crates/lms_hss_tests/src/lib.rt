//! Tests of `lms_hss`.
#![tactic(auto)]

#[cfg(test)]
mod tests;
