mod endorsements;
mod faults;
mod kept;
mod lines;
mod replays;
mod runs;
mod seeds;

use crate::tests::runs::arguments::VERIFY;
use crate::tests::runs::fails_with;
use crate::tests::runs::states::signed;
use lms_world::{MemoryWorld, WorldFault};
use std::alloc::Global;
use std::sync::Wait;
use std::test::Fail;
use std::thread::Threads;

const NAMES: [&str; 3] = ["key.pub", "text", "text.sig"];

/// The files of `signed`, of which the one at a place fails, and those after it fail in another way.
fn failing(
    alloc: Global,
    place: usize,
    fault: WorldFault,
    later_fault: WorldFault,
) -> Result<MemoryWorld, Fail> {
    let mut world = signed(alloc)?;
    for (at, name) in NAMES.iter().enumerate() {
        if at >= place {
            world.fail(name, if at == place { fault } else { later_fault })?;
        }
    }
    Ok(world)
}

/// How a file fails, how those after it do, and what `verify` ends with then: its status and line.
type Row = (WorldFault, WorldFault, u8, &'static str);

/// Whether `verify` ends so where the file at a place fails, and those after it.
fn fails_at(
    rt: &(impl Threads + Wait + AllocGlobal + Sync),
    place: usize,
    row: Row,
) -> Result<bool, Fail> {
    let (fault, later_fault, status, line) = row;
    let mut world = failing(rt.alloc(), place, fault, later_fault)?;
    Ok(fails_with(rt, &VERIFY, &mut world, status, line))
}

/// Of two files that fail, the one that is read first is the one that counts.
#[test]
fn reads_the_files_in_order(rt: HostRuntime) -> Result<(), Fail> {
    let rows: [Row; 2] = [
        (
            WorldFault::Device,
            WorldFault::OutOfMemory,
            6,
            "error: cannot read input\n",
        ),
        (
            WorldFault::OutOfMemory,
            WorldFault::Device,
            5,
            "error: out of memory\n",
        ),
    ];
    for row in rows {
        for place in 0..NAMES.len() {
            assert!(rt; fails_at(&rt, place, row)?, "{place} fails");
        }
    }
    Ok(())
}
