//! What a worker reports while it signs.
use std::marker::Sync;

/// Called before and after each signature that a worker of `sign_batch` makes. Workers call it at
/// the same time. A worker goes on when the call returns, so a gate can hold it back, and a gate
/// that does so holds `sign_batch` too.
pub trait Gate: Sync {
    /// Comes after a worker has claimed the place, before it signs the job there.
    fn before_sign(&self, place: u64);

    /// Comes after the job of the place was signed. Where memory was refused, it doesn't come.
    fn after_sign(&self, place: u64);
}

/// The gate that does nothing.
#[derive(Clone, Copy)]
pub struct OpenGate;

impl Gate for OpenGate {
    fn before_sign(&self, _place: u64) {}

    fn after_sign(&self, _place: u64) {}
}
