//! What `bench_keys` and `bench_service` share: what times are compared with, which are the
//! compressions of SHA-256 that the definitions need, bare digests, and a public hash whose chains
//! are hashed one after another; the keys that are timed; the clocks; the argument; and the faults.
#![tactic(auto)]

mod arguments;
mod chain_by_chain;
mod clocks;
mod compressions;
mod digests;
mod fault;
mod key;

pub use crate::arguments::argument;
pub use crate::chain_by_chain::public_hash_chain_by_chain;
pub use crate::clocks::{clock, process_clock, thread_clock};
pub use crate::compressions::{
    Hss, OneTime, public_hash_compressions, reading_compressions, real, tree_compressions,
};
pub use crate::digests::{time_digests, time_digests_at_once};
pub use crate::fault::Fault;
pub use crate::key::{Hierarchy, ID, MESSAGE, RANDOMIZER, SEED};
