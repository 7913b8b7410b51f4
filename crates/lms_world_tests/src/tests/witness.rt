//! The witness of a state, on a disk and in memory.
use super::trials::{Trial, on_disk, on_poor_files};
use super::{begins, clears, holds, is_missing, lends_a_store, links, puts, writes};
use lms_world::{MemoryWorld, World, WorldFault};
use std::alloc::Global;
use std::test::Fail;

/// Whether what was found is these bytes, or nothing where there are none.
fn is_text(found: &Option<Vec<u8>>, text: Option<&[u8]>) -> bool {
    match (found, text) {
        (Some(found), Some(text)) => found.as_slice() == text,
        (None, None) => true,
        _ => false,
    }
}

/// Whether the witness of a lock's state is these bytes, or there is none.
fn gives<W: World>(alloc: Global, world: &mut W, lock: &W::Lock, text: Option<&[u8]>) -> bool {
    match world.read_witness(alloc, lock) {
        Ok(found) => is_text(&found, text),
        Err(_) => false,
    }
}

/// Whether the witness of the state of this name is these bytes, its lock being another's or not.
fn shows<W: World>(alloc: Global, world: &mut W, name: &str, text: &[u8]) -> bool {
    match world.look_at_witness(alloc, name) {
        Ok(found) => is_text(&found, Some(text)),
        Err(_) => false,
    }
}

/// Whether these bytes become the witness by a draft, and are read.
fn takes<W: World>(alloc: Global, world: &mut W, lock: &W::Lock, text: &[u8]) -> bool {
    match world.draft_witness(alloc, lock) {
        Ok(draft) => {
            world.place_witness(draft, text).is_ok() && gives(alloc, world, lock, Some(text))
        }
        Err(_) => false,
    }
}

/// Whether the witness is these bytes still once a draft is let go.
fn lets_go<W: World>(alloc: Global, world: &mut W, lock: &W::Lock, text: &[u8]) -> bool {
    match world.draft_witness(alloc, lock) {
        Ok(draft) => {
            world.discard_witness(draft);
            gives(alloc, world, lock, Some(text))
        }
        Err(_) => false,
    }
}

/// Why no witness is made in a file of this name. `None` where one is.
fn making_fault<W: World>(
    alloc: Global,
    world: &mut W,
    lock: &W::Lock,
    name: &str,
    text: &[u8],
) -> Option<WorldFault> {
    match world.make_witness(alloc, lock, name, text) {
        Ok(_) => None,
        Err(fault) => Some(fault),
    }
}

const FOLDER: &str = "disk_world_witness";

const STATE: &str = "disk_world_witness/state";

const WITNESS: &str = "disk_world_witness/state.witness";

const FILE: &str = "disk_world_witness/file";

const OTHER: &str = "disk_world_witness/other";

/// Whether the state of a name has no witness until one is made, once, which is replaced after that.
pub(super) fn has_one<W: World>(alloc: Global, world: &mut W, name: &str, left: &[u8]) -> bool {
    match world.lock(alloc, name) {
        Ok(lock) => {
            let none = gives(alloc, world, &lock, None);
            let made = making_fault(alloc, world, &lock, FILE, b"made").is_none();
            let once = making_fault(alloc, world, &lock, OTHER, b"other")
                == Some(WorldFault::Device);
            let stays = lets_go(alloc, world, &lock, b"made");
            let replaced = takes(alloc, world, &lock, b"") && takes(alloc, world, &lock, left);
            let seen = shows(alloc, world, name, left);
            world.unlock(lock);
            none && made && once && stays && replaced && seen
        }
        Err(_) => false,
    }
}

#[test]
fn a_witness_is_kept_on_a_disk(rt: HostRuntime) {
    assert!(rt;
        begins(&rt, FOLDER)
            && on_disk(&rt, Trial::HasOneWitness(STATE, b"a line"))
            && holds(&rt, FILE, b"a line")
            && holds(&rt, WITNESS, b"a line")
            && is_missing(&rt, OTHER)
            && clears(&rt, FOLDER)
    );
}

/// Whether nodes and the state are written, and the witness of a lock that was set is given then.
fn gives_what_was_set<W: World>(alloc: Global, world: &mut W, lock: &W::Lock) -> bool {
    let kept = world.write_nodes(alloc, lock, b"nodes").is_ok();
    kept && lends_a_store(alloc, world, lock) && gives(alloc, world, lock, Some(b"set"))
}

/// Whether a world in memory gives what is set, also once a file, nodes and the state were written.
fn gives_once_set(alloc: Global, set: Vec<u8>) -> bool {
    let mut world = MemoryWorld::new(alloc);
    let none = world.witness().is_none();
    world.set_witness(set);
    let written = writes(alloc, &mut world, "file", b"bytes");
    let given = match world.lock(alloc, "state") {
        Ok(lock) => gives_what_was_set(alloc, &mut world, &lock),
        Err(_) => false,
    };
    none && written && given && world.witness() == Some(b"set".as_slice())
}

#[test]
fn a_witness_is_kept_in_memory(rt: HostRuntime) -> Result<(), Fail> {
    let is_given = gives_once_set(rt.alloc(), Vec::from_slice(rt.alloc(), b"set")?);
    let mut world = MemoryWorld::new(rt.alloc());
    let is_kept = has_one(rt.alloc(), &mut world, "state", b"a line");
    assert!(rt; is_given && is_kept && world.witness() == Some(b"a line".as_slice()));
    Ok(())
}

/// Whether the witness of the state of a name can't be read, drafted or made, by this fault.
pub(super) fn fails<W: World>(alloc: Global, world: &mut W, name: &str, fault: WorldFault) -> bool {
    match world.lock(alloc, name) {
        Ok(lock) => {
            let unread = world.read_witness(alloc, &lock).err() == Some(fault)
                && world.look_at_witness(alloc, name).err() == Some(fault);
            let undrafted = world.draft_witness(alloc, &lock).err() == Some(fault);
            let unmade = making_fault(alloc, world, &lock, FILE, b"made") == Some(fault);
            world.unlock(lock);
            unread && undrafted && unmade
        }
        Err(_) => false,
    }
}

/// Whether each call on a witness that was set fails so where that was planned, also the one by a draft
/// that was made before.
fn fails_as_planned(alloc: Global, fault: WorldFault) -> Result<bool, Fail> {
    let mut world = MemoryWorld::new(alloc);
    world.set_witness(Vec::from_slice(alloc, b"set")?);
    let lock = world.lock(alloc, "state")?;
    let draft = world.draft_witness(alloc, &lock)?;
    world.fail_witness(fault);
    let unplaced = world.place_witness(draft, b"new") == Err(fault);
    Ok(unplaced && world.witness().is_none() && fails(alloc, &mut world, "state", fault))
}

#[test]
fn a_witness_fails_in_memory(rt: HostRuntime) -> Result<(), Fail> {
    for fault in [WorldFault::Device, WorldFault::OutOfMemory] {
        assert!(rt; fails_as_planned(rt.alloc(), fault)?, "{fault:?}");
    }
    Ok(())
}

/// A link leads nowhere, so that the witness is out of reach, and no other is made.
#[test]
fn a_witness_fails_on_a_disk(rt: HostRuntime) {
    assert!(rt;
        begins(&rt, FOLDER)
            && links(&rt, "nowhere", WITNESS)
            && on_disk(&rt, Trial::FailsWitness(STATE, WorldFault::Device))
            && is_missing(&rt, FILE)
            && clears(&rt, FOLDER)
    );
}

/// Whether the witness of the state of a name is these bytes, and is replaced.
fn is_replaced<W: World>(alloc: Global, world: &mut W, name: &str, text: &[u8]) -> bool {
    match world.lock(alloc, name) {
        Ok(lock) => {
            let replaced = gives(alloc, world, &lock, Some(text))
                && takes(alloc, world, &lock, b"new");
            world.unlock(lock);
            replaced
        }
        Err(_) => false,
    }
}

/// Whether the witness of a state is a fault to a world, and is read and replaced once it is there.
pub(super) fn knows_one<W: World>(rt: &HostRuntime, world: &mut W) -> bool {
    fails(rt.alloc(), world, STATE, WorldFault::Device)
        && puts(rt, WITNESS, b"older")
        && is_replaced(rt.alloc(), world, STATE, b"older")
}

/// Where it can't be known whether there is a witness, that is a fault. One that is there is read and
/// replaced.
#[test]
fn an_unknown_witness_is_a_fault(rt: HostRuntime) {
    assert!(rt;
        begins(&rt, FOLDER)
            && puts(&rt, STATE, b"")
            && on_poor_files(&rt, true, Trial::KnowsAWitness)
            && holds(&rt, WITNESS, b"new")
            && clears(&rt, FOLDER)
    );
}
