//! What a world in memory holds after calls, against a model that replays them.
use super::{flushes, writes};
use lms_book::StateStore;
use lms_world::{LockFault, MemoryWorld, World, WorldFault};
use std::alloc::Global;
use std::test::Fail;

/// A round of calls: a file is written, the state replaced, and nodes are kept.
struct Round {
    name: &'static str,
    file: &'static [u8],
    state: &'static [u8],
    nodes: &'static [u8],
}

/// Rounds in which names come again, and bytes are none.
const ROUNDS: [Round; 4] = [
    Round {
        name: "first",
        file: b"one",
        state: b"a state",
        nodes: b"nodes",
    },
    Round {
        name: "second",
        file: b"two",
        state: b"",
        nodes: b"",
    },
    Round {
        name: "first",
        file: b"",
        state: b"another state",
        nodes: b"other nodes",
    },
    Round {
        name: "second",
        file: b"three",
        state: b"the last state",
        nodes: b"the last nodes",
    },
];

/// What the file of a name holds after so many rounds.
fn file_after(rounds: &[Round], name: &str) -> Option<&'static [u8]> {
    let mut found = None;
    for round in rounds {
        if round.name == name {
            found = Some(round.file);
        }
    }
    found
}

/// Makes the calls that change nothing, and hence let those after them be done.
fn look<W: World>(alloc: Global, world: &mut W, lock: &W::Lock, round: &Round) {
    let _ = world.read(alloc, round.name);
    let _ = world.open(alloc, round.name);
    let _ = world.exists(lock);
    let _ = world.read_nodes(alloc, lock, usize::MAX);
}

/// Replaces the state of a lock.
fn replaces<W: World>(alloc: Global, world: &mut W, lock: &W::Lock, state: &[u8]) -> bool {
    match world.take_store(alloc, lock) {
        Ok(mut store) => {
            let replaced = store.replace(state).is_ok();
            world.put_back(lock, store);
            replaced
        }
        Err(_) => false,
    }
}

/// Makes the calls of a round. The file of the name `broken` can't be written meanwhile.
fn play<W: World>(alloc: Global, world: &mut W, round: &Round) -> bool {
    let written = flushes(alloc, world, round.name, b"older")
        && writes(alloc, world, round.name, round.file);
    let refused = !writes(alloc, world, "broken", round.file)
        && !flushes(alloc, world, "broken", round.file);
    match world.lock(alloc, "state") {
        Ok(lock) => {
            look(alloc, world, &lock, round);
            let replaced = replaces(alloc, world, &lock, round.state);
            let kept = world.write_nodes(alloc, &lock, round.nodes).is_ok();
            world.unlock(lock);
            written && refused && replaced && kept
        }
        Err(_) => false,
    }
}

/// Whether the file of a name can be read, and holds these bytes, or can't where there are none.
fn has_file<W: World>(alloc: Global, world: &mut W, name: &str, bytes: Option<&[u8]>) -> bool {
    match (world.read(alloc, name), bytes) {
        (Ok(found), Some(bytes)) => found.as_slice() == bytes,
        (Err(_), None) => true,
        _ => false,
    }
}

/// Whether the state and the nodes are those of a round.
fn has_state(world: &MemoryWorld, round: &Round) -> bool {
    let state = match world.state() {
        Some(store) => store.text(),
        None => None,
    };
    state == Some(round.state) && world.nodes() == Some(round.nodes)
}

/// Whether a world makes the calls of the last of these rounds, and holds then what they left.
fn ends<W: World>(alloc: Global, world: &mut W, rounds: &[Round], last: &Round) -> bool {
    play(alloc, world, last)
        && has_file(alloc, world, "first", file_after(rounds, "first"))
        && has_file(alloc, world, "second", file_after(rounds, "second"))
        && has_file(alloc, world, "broken", None)
}

#[test]
fn a_world_ends_as_its_calls_say(rt: HostRuntime) -> Result<(), Fail> {
    let mut world = MemoryWorld::new(rt.alloc());
    world.fail("broken", WorldFault::Device)?;
    for (at, round) in ROUNDS.iter().enumerate() {
        let ended = ends(rt.alloc(), &mut world, &ROUNDS[..=at], round);
        assert!(rt; ended && has_state(&world, round), "{at}");
    }
    Ok(())
}

/// Why the state of a world is not locked. `None` where it can be.
fn lock_fault(alloc: Global, world: &mut MemoryWorld) -> Option<LockFault> {
    match world.lock(alloc, "key.state") {
        Ok(lock) => {
            world.unlock(lock);
            None
        }
        Err(fault) => Some(fault),
    }
}

#[test]
fn a_state_in_use_is_not_locked(rt: HostRuntime) {
    let mut world = MemoryWorld::new(rt.alloc());
    let is_locked = lock_fault(rt.alloc(), &mut world).is_none();
    world.use_elsewhere();
    assert!(rt; is_locked && lock_fault(rt.alloc(), &mut world) == Some(LockFault::InUse));
}
