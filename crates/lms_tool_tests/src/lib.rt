//! Tests of `lms_tool`.
#![tactic(auto)]

#[cfg(test)]
mod tests;
