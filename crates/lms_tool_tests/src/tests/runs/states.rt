//! States of keys, and worlds that have them.
use super::write;
use lms_book::MemoryStore;
use lms_fixtures::{image_with, key_of};
use lms_params::{LmsType, OtsType};
use lms_slow::vectors::ONE_5_8;
use lms_world::{MemoryWorld, World};
use std::alloc::Global;
use std::test::Fail;

/// A store with the state of these levels and this counter.
pub fn store_at(
    alloc: Global,
    levels: &[(LmsType, OtsType)],
    counter: u64,
) -> Result<MemoryStore, &'static str> {
    lms_fixtures::store_at(alloc, key_of(levels, 0x11)?, counter)
}

/// Whether the state with these levels and this counter is set.
pub fn sets_state(
    alloc: Global,
    world: &mut MemoryWorld,
    levels: &[(LmsType, OtsType)],
    counter: u64,
) -> bool {
    match store_at(alloc, levels, counter) {
        Ok(store) => {
            world.set_state(store);
            true
        }
        Err(_) => false,
    }
}

/// A message, and the state with these levels and this counter.
pub fn keyed(
    alloc: Global,
    levels: &[(LmsType, OtsType)],
    counter: u64,
) -> Result<MemoryWorld, Fail> {
    let mut world = MemoryWorld::new(alloc);
    if sets_state(alloc, &mut world, levels, counter)
        && write(alloc, &mut world, "text", b"abc").is_ok()
    {
        Ok(world)
    } else {
        Err(Fail::from("a message and a state"))
    }
}

/// Whether the state has these bytes.
fn has_bytes(world: &MemoryWorld, bytes: &[u8]) -> bool {
    match world.state() {
        Some(store) => store.text() == Some(bytes),
        None => false,
    }
}

/// Whether the state is that with these levels and these numbers.
pub fn is_with(
    world: &MemoryWorld,
    levels: &[(LmsType, OtsType)],
    counter: u64,
    openings: u64,
    burnt: u64,
) -> bool {
    let Ok(key) = key_of(levels, 0x11) else {
        return false;
    };
    match image_with(key, counter, openings, burnt) {
        Ok(image) => has_bytes(world, image.as_slice()),
        Err(_) => false,
    }
}

/// Whether the bytes of a text of hexadecimal digits are written.
fn writes_hex(alloc: Global, world: &mut MemoryWorld, name: &str, digits: &str) -> bool {
    match hex::decode(alloc, digits) {
        Ok(bytes) => write(alloc, world, name, &bytes).is_ok(),
        Err(_) => false,
    }
}

/// A public key, a message, and its signature, which is valid.
pub fn signed(alloc: Global) -> Result<MemoryWorld, Fail> {
    let mut world = MemoryWorld::new(alloc);
    let message = ONE_5_8.message.as_bytes();
    if writes_hex(alloc, &mut world, "key.pub", ONE_5_8.public)
        && write(alloc, &mut world, "text", message).is_ok()
        && writes_hex(alloc, &mut world, "text.sig", ONE_5_8.signature)
    {
        Ok(world)
    } else {
        Err(Fail::from("a key, a message and a signature"))
    }
}
