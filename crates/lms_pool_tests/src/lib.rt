//! Tests of `lms_pool` and `lms_cell_pool`, written once for both, and of `lms_shared_book`.
#![tactic(auto)]

#[cfg(test)]
mod tests;
