//! Commands to which memory is refused once, where it is.
use crate::tests::runs::arguments::{CHEAP_TWICE, INFO, PUBLIC, SIGN, VERIFY, keygen};
use crate::tests::runs::states::is_with;
use crate::tests::runs::{ProgramEnd, end_of, write};
use lms_world::{MemoryWorld, World};
use std::alloc::Global;
use std::sync::Wait;
use std::thread::Threads;

/// How many indices of the key are used, each by an opening of its own. `None` where it is no such
/// state of the key.
fn used(world: &MemoryWorld) -> Option<u64> {
    let mut found = None;
    for counter in 0..4 {
        if is_with(world, &CHEAP_TWICE, counter, counter, 0) {
            found = Some(counter);
        }
    }
    found
}

/// How many indices a `sign` that ended so may have used.
fn uses(end: &ProgramEnd) -> Option<u64> {
    match (end.status, end.errors()) {
        (0, "") => Some(1),
        (5, "error: out of memory\n") => Some(0),
        (5, "error: out of memory: 1 burnt\n") => Some(1),
        (6, "error: cannot write output\n") => Some(1),
        _ => None,
    }
}

/// Signs twice, and says whether each used what it said, and one of them was done.
fn signs(rt: &(impl Threads + Wait + AllocGlobal + Sync), world: &mut MemoryWorld) -> bool {
    let before = used(world);
    let first = end_of(rt, &SIGN, world);
    let between = used(world);
    let second = end_of(rt, &SIGN, world);
    match (before, between, used(world)) {
        (Some(before), Some(between), Some(after)) => {
            uses(&first) == between.checked_sub(before)
                && uses(&second) == after.checked_sub(between)
                && (first.status == 0 || second.status == 0)
        }
        _ => false,
    }
}

/// Whether a `keygen` that ended so made a key, or none, or `None` where it says neither.
fn made(end: &ProgramEnd) -> Option<bool> {
    match (end.status, end.errors()) {
        (0, "") | (6, "error: cannot write output\n") => Some(true),
        (5, "error: out of memory\n") => Some(false),
        _ => None,
    }
}

/// Makes a key, at the second try where memory was refused at the first, unless the first try made
/// its state.
fn makes_a_key(rt: &(impl Threads + Wait + AllocGlobal + Sync), world: &mut MemoryWorld) -> bool {
    let arguments = keygen("5/2,5/2");
    match made(&end_of(rt, &arguments, world)) {
        Some(true) => true,
        Some(false) => {
            let made = is_with(world, &CHEAP_TWICE, 0, 0, 0);
            end_of(rt, &arguments, world).status == if made { 3 } else { 0 }
        }
        None => false,
    }
}

/// Whether a command that changes nothing ended with this status, or as one that was refused
/// memory.
fn ends_or_is_refused(end: &ProgramEnd, status: u8) -> bool {
    match (end.status, end.errors()) {
        (5, "error: out of memory\n") | (6, "error: cannot write output\n") => true,
        (ended, _) => ended == status,
    }
}

/// Asks twice for what changes nothing, and says whether it ended so at least once, and else as one
/// that was refused memory.
fn ends_once(
    rt: &(impl Threads + Wait + AllocGlobal + Sync),
    arguments: &[&str],
    world: &mut MemoryWorld,
    status: u8,
) -> bool {
    let first = end_of(rt, arguments, world);
    let second = end_of(rt, arguments, world);
    ends_or_is_refused(&first, status)
        && ends_or_is_refused(&second, status)
        && (first.status == status || second.status == status)
}

/// Whether the public key was written.
fn is_published(alloc: Global, world: &mut MemoryWorld) -> bool {
    world.read(alloc, "key.pub").is_ok() || world.read(alloc, "key.pub").is_ok()
}

/// Whether the message is written, at the first or at the second try.
fn writes_text(alloc: Global, world: &mut MemoryWorld) -> bool {
    write(alloc, world, "text", b"abc").is_ok() || write(alloc, world, "text", b"abc").is_ok()
}

/// The status of a `verify`, by whether there is a public key.
fn verified(alloc: Global, world: &mut MemoryWorld) -> u8 {
    if is_published(alloc, world) { 0 } else { 6 }
}

/// The merge check refuses each request for memory in turn.
#[test]
fn refused_memory_is_said(rt: HostRuntime) {
    let mut world = MemoryWorld::new(rt.alloc());
    let is_signed = writes_text(rt.alloc(), &mut world)
        && makes_a_key(&rt, &mut world)
        && signs(&rt, &mut world);
    let before = used(&world);
    let is_told = ends_once(&rt, &INFO, &mut world, 0) && ends_once(&rt, &PUBLIC, &mut world, 0);
    let status = verified(rt.alloc(), &mut world);
    let is_verified = ends_once(&rt, &VERIFY, &mut world, status);
    assert!(rt; is_signed && is_told && is_verified && before.is_some() && used(&world) == before);
}
