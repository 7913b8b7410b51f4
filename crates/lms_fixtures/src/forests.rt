//! What signs the indices of a key.
ghost use Rattle.std.specs.Prelude.{◌≡◌, IfOk};

use lms_hss::{Forest, HssKey};
use lms_params::OutOfMemory;
use std::thread::Threads;

/// What signs `len` indices of a key from `start` on, 1 to 1024.
pub fn forest_of(
    rt: &(impl AllocGlobal + Threads + Sync),
    key: HssKey,
    start: u64,
    len: u64,
) -> Result<Forest, &'static str>
    ensures { IfOk result (λ forest. forest ≡ record { key = key; start = start; len = len }) }
{
    if len < 1 || len > 1024 {
        return Err("as many indices as a forest covers");
    }
    if key.capacity() < len || key.capacity() - len < start {
        return Err("the key has these indices");
    }
    match Forest::cover(rt, rt.alloc(), key, start, len) {
        Ok(forest) => Ok(forest),
        Err(OutOfMemory) => match Forest::cover(rt, rt.alloc(), key, start, len) {
            Ok(forest) => Ok(forest),
            Err(OutOfMemory) => Err("a second try covers the indices"),
        },
    }
}

/// The signature of a message by an index that is covered, under a randomizer.
pub fn signature_of(
    forest: &Forest,
    g: u64,
    randomizer: &[u8; 32],
    message: &[u8],
) -> Result<Vec<u8>, &'static str> {
    if !forest.covers(g) {
        return Err("the index is covered");
    }
    match forest.sign(g, randomizer, message) {
        Ok(signature) => Ok(signature),
        Err(OutOfMemory) => match forest.sign(g, randomizer, message) {
            Ok(signature) => Ok(signature),
            Err(OutOfMemory) => Err("a second try signs"),
        },
    }
}
