//! Tests of `lms_kept`, `lms_join` and `lms_uses`.
#![tactic(auto)]

#[cfg(test)]
mod tests;
