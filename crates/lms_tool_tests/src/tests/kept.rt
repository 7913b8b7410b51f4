//! What `keygen` and `sign` keep of a key's trees beside its state.
use crate::tests::runs::arguments::{CHEAP_TWICE, SIGN, VERIFY, keygen};
use crate::tests::runs::states::sets_state;
use crate::tests::runs::{says, status_of, write};
use lms_fixtures::Sums;
use lms_world::{MemoryWorld, World, WorldFault};
use std::alloc::{AllocError, Global};
use std::sync::Wait;
use std::test::Fail;
use std::thread::Threads;

/// Whether a run with no input is done, announces so many leaves, and reports each.
fn reports(
    rt: &(impl Threads + Wait + AllocGlobal + Sync),
    arguments: &[&str],
    world: &mut MemoryWorld,
    leaves: u64,
) -> bool {
    let sums = Sums::new();
    let mut input: &[u8] = &[];
    let mut output = Vec::new(rt.alloc());
    let mut errors = Vec::new(rt.alloc());
    let status = status_of(
        rt,
        &sums,
        arguments,
        world,
        &mut input,
        &mut output,
        &mut errors,
    );
    status == 0 && sums.leaves_are(leaves, leaves)
}

/// A copy of what is kept. Nothing where nothing is.
fn copy_of_kept(alloc: Global, world: &MemoryWorld) -> Result<Vec<u8>, AllocError> {
    Vec::from_slice(alloc, world.nodes().unwrap_or(b""))
}

/// Whether something is kept, and not this.
fn keeps_other(world: &MemoryWorld, kept: &[u8]) -> bool {
    match world.nodes() {
        Some(nodes) => !nodes.is_empty() && nodes != kept,
        None => false,
    }
}

/// Whether a new key keeps its top tree, and its first signature the tree below it, too.
fn keeps_its_trees(
    rt: &(impl Threads + Wait + AllocGlobal + Sync),
    world: &mut MemoryWorld,
) -> bool {
    let is_made = reports(rt, &keygen("5/2,5/2"), world, 32);
    match copy_of_kept(rt.alloc(), world) {
        Ok(top) => {
            is_made && !top.is_empty() && reports(rt, &SIGN, world, 32) && keeps_other(world, &top)
        }
        Err(_) => false,
    }
}

/// Whether a key signs by the tree that is kept up to its last index, and keeps another one then.
fn signs_by_what_is_kept(
    rt: &(impl Threads + Wait + AllocGlobal + Sync),
    world: &mut MemoryWorld,
) -> bool {
    let Ok(first) = copy_of_kept(rt.alloc(), world) else {
        return false;
    };
    reports(rt, &SIGN, world, 0)
        && sets_state(rt.alloc(), world, &CHEAP_TWICE, 31)
        && reports(rt, &SIGN, world, 0)
        && world.nodes() == Some(first.as_slice())
        && reports(rt, &SIGN, world, 32)
        && keeps_other(world, &first)
}

/// `keygen` keeps the top tree, `sign` those below it, and what is kept is not computed again.
#[test]
fn what_is_kept_is_not_computed_again(rt: HostRuntime) -> Result<(), Fail> {
    let mut world = MemoryWorld::new(rt.alloc());
    write(rt.alloc(), &mut world, "text", b"abc")?;
    assert!(rt;
        keeps_its_trees(&rt, &mut world)
            && signs_by_what_is_kept(&rt, &mut world)
            && says(&rt, &VERIFY, &mut world, 0, "valid\n")
    );
    Ok(())
}

/// Whether the next signature prints this, and is valid.
fn signs(
    rt: &(impl Threads + Wait + AllocGlobal + Sync),
    world: &mut MemoryWorld,
    index: &str,
) -> bool {
    says(rt, &SIGN, world, 0, index) && says(rt, &VERIFY, world, 0, "valid\n")
}

/// Whether a new key is made and signs twice, where nothing can be kept.
fn goes_without(rt: &(impl Threads + Wait + AllocGlobal + Sync), fault: WorldFault) -> bool {
    let mut world = MemoryWorld::new(rt.alloc());
    world.fail_nodes(fault);
    let arguments = keygen("5/2");
    write(rt.alloc(), &mut world, "text", b"abc").is_ok()
        && says(rt, &arguments, &mut world, 0, "capacity 32\n")
        && signs(rt, &mut world, "index 0\n")
        && signs(rt, &mut world, "index 1\n")
        && world.nodes().is_none()
}

#[test]
fn goes_on_where_nothing_can_be_kept(rt: HostRuntime) {
    for fault in [WorldFault::Device, WorldFault::OutOfMemory] {
        assert!(rt; goes_without(&rt, fault), "{fault:?}");
    }
}
