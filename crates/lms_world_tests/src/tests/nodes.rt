//! What is kept of nodes beside a state, on a disk and in memory.
use super::trials::{Trial, on_disk, on_poor_files};
use super::{begins, clears, holds, lends_a_store, makes_folder, puts, writes};
use lms_world::{MemoryWorld, World, WorldFault};
use std::alloc::Global;
use std::test::Fail;

/// Whether the nodes of a lock are these bytes, where at most so many are asked for.
fn gives<W: World>(alloc: Global, world: &mut W, lock: &W::Lock, most: usize, text: &[u8]) -> bool {
    match world.read_nodes(alloc, lock, most) {
        Some(found) => found.as_slice() == text,
        None => false,
    }
}

/// Whether there are none, where at most so many bytes are asked for.
fn gives_none<W: World>(alloc: Global, world: &mut W, lock: &W::Lock, most: usize) -> bool {
    world.read_nodes(alloc, lock, most).is_none()
}

/// Whether these bytes are written, and read where no more are asked for, and nothing where one
/// less is.
fn keeps<W: World>(alloc: Global, world: &mut W, lock: &W::Lock, text: &[u8]) -> bool {
    let written = world.write_nodes(alloc, lock, text).is_ok();
    let read = gives(alloc, world, lock, text.len(), text);
    written && read && (text.is_empty() || gives_none(alloc, world, lock, text.len() - 1))
}

/// Whether the nodes of the state of a name are kept, one write after another, and nothing is read
/// before; the last are `left`.
pub(super) fn keeps_each<W: World>(alloc: Global, world: &mut W, name: &str, left: &[u8]) -> bool {
    match world.lock(alloc, name) {
        Ok(lock) => {
            let none = gives_none(alloc, world, &lock, usize::MAX);
            let texts = keeps(alloc, world, &lock, b"a")
                && keeps(alloc, world, &lock, b"")
                && keeps(alloc, world, &lock, left);
            let last = gives(alloc, world, &lock, usize::MAX, left);
            world.unlock(lock);
            none && texts && last
        }
        Err(_) => false,
    }
}

/// Whether a write of nodes beside the state of a name fails so, and these are kept then.
pub(super) fn fails<W: World>(
    alloc: Global,
    world: &mut W,
    name: &str,
    fault: WorldFault,
    left: &[u8],
) -> bool {
    match world.lock(alloc, name) {
        Ok(lock) => {
            let failed = world.write_nodes(alloc, &lock, b"new") == Err(fault);
            let stays = gives(alloc, world, &lock, left.len(), left);
            world.unlock(lock);
            failed && stays
        }
        Err(_) => false,
    }
}

const STATE: &str = "disk_world_nodes/state";

const NODES: &str = "disk_world_nodes/state.nodes";

/// How often seven bytes are about 4.5 MB, as many bytes as nodes take at most.
const TIMES: usize = 642_857;

/// Whether a world on the disk keeps nodes, these at last.
fn keeps_on_a_disk(rt: &HostRuntime, left: &[u8]) -> bool {
    begins(rt, "disk_world_nodes")
        && on_disk(rt, Trial::KeepsNodes(STATE, left))
        && holds(rt, NODES, left)
        && clears(rt, "disk_world_nodes")
}

#[test]
fn nodes_are_kept_on_a_disk(rt: HostRuntime) -> Result<(), Fail> {
    let text = "pattern".repeat(rt.alloc(), TIMES)?;
    assert!(rt; keeps_on_a_disk(&rt, text.as_bytes()));
    Ok(())
}

/// A folder is in the way of the draft, so what was kept stays.
#[test]
fn a_write_of_nodes_fails_on_a_disk(rt: HostRuntime) {
    let name = "disk_world_draft/state";
    assert!(rt;
        begins(&rt, "disk_world_draft")
            && puts(&rt, "disk_world_draft/state.nodes", b"old")
            && makes_folder(&rt, "disk_world_draft/state.nodes.new")
            && on_disk(&rt, Trial::FailsNodes(name, WorldFault::Device, b"old"))
            && clears(&rt, "disk_world_draft")
    );
}

/// Whether nodes are written beside the state of a name, and none are read.
pub(super) fn reads_none_of_what_is_written<W: World>(
    alloc: Global,
    world: &mut W,
    name: &str,
) -> bool {
    match world.lock(alloc, name) {
        Ok(lock) => {
            let written = world.write_nodes(alloc, &lock, b"nodes").is_ok();
            let none = gives_none(alloc, world, &lock, usize::MAX);
            world.unlock(lock);
            written && none
        }
        Err(_) => false,
    }
}

/// Where it can't be known what is in their place, none are read.
#[test]
fn unknown_nodes_are_not_read(rt: HostRuntime) {
    let name = "disk_world_unknown/state";
    assert!(rt;
        begins(&rt, "disk_world_unknown")
            && puts(&rt, name, b"")
            && on_poor_files(&rt, true, Trial::ReadsNoNodes(name))
            && holds(&rt, "disk_world_unknown/state.nodes", b"nodes")
            && clears(&rt, "disk_world_unknown")
    );
}

/// Whether a store is taken and put back, and the nodes of a lock that were set are given then.
fn gives_what_was_set<W: World>(alloc: Global, world: &mut W, lock: &W::Lock) -> bool {
    lends_a_store(alloc, world, lock)
        && gives(alloc, world, lock, 3, b"set")
        && gives_none(alloc, world, lock, 2)
}

/// Whether a world in memory gives what is set, also once a file was written and a store taken and
/// put back.
fn gives_once_set(alloc: Global, set: Vec<u8>) -> bool {
    let mut world = MemoryWorld::new(alloc);
    let none = world.nodes().is_none();
    world.set_nodes(set);
    let written = writes(alloc, &mut world, "file", b"bytes");
    let given = match world.lock(alloc, "state") {
        Ok(lock) => gives_what_was_set(alloc, &mut world, &lock),
        Err(_) => false,
    };
    none && written && given && world.nodes() == Some(b"set".as_slice())
}

/// Whether a world in memory keeps nodes, these at last.
fn keeps_in_memory(alloc: Global, left: &[u8]) -> bool {
    let mut world = MemoryWorld::new(alloc);
    keeps_each(alloc, &mut world, "state", left) && world.nodes() == Some(left)
}

#[test]
fn nodes_are_kept_in_memory(rt: HostRuntime) -> Result<(), Fail> {
    let is_given = gives_once_set(rt.alloc(), Vec::from_slice(rt.alloc(), b"set")?);
    let text = "pattern".repeat(rt.alloc(), TIMES)?;
    assert!(rt; is_given && keeps_in_memory(rt.alloc(), text.as_bytes()));
    Ok(())
}

/// Whether each write of nodes fails so where that was planned, and what was set is given on.
fn fails_as_planned(alloc: Global, fault: WorldFault) -> Result<bool, Fail> {
    let mut world = MemoryWorld::new(alloc);
    world.set_nodes(Vec::from_slice(alloc, b"old")?);
    world.fail_nodes(fault);
    let first = fails(alloc, &mut world, "state", fault, b"old");
    let again = fails(alloc, &mut world, "state", fault, b"old");
    Ok(first && again && world.nodes() == Some(b"old".as_slice()))
}

#[test]
fn a_write_of_nodes_fails_in_memory(rt: HostRuntime) -> Result<(), Fail> {
    for fault in [WorldFault::Device, WorldFault::OutOfMemory] {
        assert!(rt; fails_as_planned(rt.alloc(), fault)?, "{fault:?}");
    }
    Ok(())
}
