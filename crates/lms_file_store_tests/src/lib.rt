//! Tests of `lms_file_store`.
#![tactic(auto)]

#[cfg(test)]
mod tests;
