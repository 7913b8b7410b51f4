//! Tests of `lms_lines`, and of witnesses in `lms_texts`.
#![tactic(auto)]

#[cfg(test)]
mod tests;
