//! What a call log is made of. Only proofs make these values.
use std::alloc::Global;
use std::collections::LinkedList;

/// A call of a pool.
#[derive(Clone, Copy)]
pub enum Call {
    Claim,
    Look,
    Stop,
}

/// What a call answers: a claim answers a place or that none is left, a look or a stop a number of
/// places.
#[derive(Clone, Copy)]
pub enum Reply {
    Place(u64),
    Ended,
    Count(u64),
}

/// One call of the seat of this number, with its reply.
#[derive(Clone, Copy)]
pub struct LoggedCall {
    pub seat: usize,
    pub call: Call,
    pub reply: Reply,
}

/// What is known of one seat of a pool of `len` places: its number, and the call log up to its last
/// call. Only proofs make it; the rule of `lms_cell_pool` uses it, too.
pub struct Hand {
    pub number: usize,
    pub len: u64,
    pub log: LinkedList<LoggedCall, Global>,
}
