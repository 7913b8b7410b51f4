//! `batch`: job lines signed by the whole program.
use crate::tests::runs::{ProgramEnd, end_with};
use lms_world::MemoryWorld;
use std::sync::Wait;
use std::thread::Threads;

/// Two job lines, by randomizers that differ and of messages that differ.
pub(super) const TWO_LINES: &str =
    "0033333333333333333333333333333333333333333333333333333333333333 006263
0133333333333333333333333333333333333333333333333333333333333333 016263
";

/// Four job lines, by randomizers that differ and of messages that differ.
pub(super) const FOUR_LINES: &str =
    "0033333333333333333333333333333333333333333333333333333333333333 006263
0133333333333333333333333333333333333333333333333333333333333333 016263
0233333333333333333333333333333333333333333333333333333333333333 026263
0333333333333333333333333333333333333333333333333333333333333333 036263
";

pub(super) fn batch(workers: &str) -> [&str; 6] {
    [
        "lms_tool",
        "batch",
        "--state",
        "key.state",
        "--workers",
        workers,
    ]
}

/// What a batch leaves.
pub(super) fn end_of_batch(
    rt: &(impl Threads + Wait + AllocGlobal + Sync),
    world: &mut MemoryWorld,
    workers: &str,
    input: &str,
) -> ProgramEnd {
    let output = Vec::new(rt.alloc());
    end_of_batch_to(rt, world, workers, input, output)
}

/// The same, where the output goes into this list.
pub(super) fn end_of_batch_to(
    rt: &(impl Threads + Wait + AllocGlobal + Sync),
    world: &mut MemoryWorld,
    workers: &str,
    input: &str,
    output: Vec<u8>,
) -> ProgramEnd {
    let mut rest = input.as_bytes();
    end_with(rt, &batch(workers), world, &mut rest, output)
}
