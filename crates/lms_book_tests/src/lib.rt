//! Tests of `lms_book`, and of `lms_image` below it.
#![tactic(auto)]

#[cfg(test)]
mod tests;
