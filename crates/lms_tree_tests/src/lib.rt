//! Tests of `lms_tree`, `lms_verification` and `lms_meter`.
#![tactic(auto)]

#[cfg(test)]
mod tests;
