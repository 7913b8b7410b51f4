//! `endorse` and `inspect`, over files in memory.
use crate::tests::runs::arguments::keygen;
use crate::tests::runs::{fails_with, says, write};
use lms_slow::vectors::ONE_5_8;
use lms_world::{MemoryWorld, World, WorldFault};
use std::alloc::Global;
use std::test::Fail;

pub(super) const ENDORSE: [&str; 12] = [
    "lms_tool",
    "endorse",
    "--state",
    "key.state",
    "--random",
    "3333333333333333333333333333333333333333333333333333333333333333",
    "--signer",
    "signer.pub",
    "--joined",
    "2",
    "--out",
    "signer.end",
];

/// What is printed of the signer's key.
pub(super) const ENDORSED: &str =
    "index 0\nsigner 4c4f3f5abf46ef7fcf34c8667ea0ad357c9ab6e7b9aecc1f4beb5f0acdab8f41\n";

const JOIN: [&str; 12] = [
    "lms_tool",
    "join",
    "--public",
    "key.pub",
    "--endorsement",
    "signer.end",
    "--signer",
    "signer.pub",
    "--signature",
    "signer.sig",
    "--out",
    "text.sig",
];

const JOIN_PUBLIC: [&str; 8] = [
    "lms_tool",
    "join-public",
    "--public",
    "key.pub",
    "--signer",
    "signer.pub",
    "--out",
    "joined.pub",
];

const VERIFY_JOINED: [&str; 8] = [
    "lms_tool",
    "verify",
    "--public",
    "joined.pub",
    "--message",
    "text",
    "--signature",
    "text.sig",
];

pub(super) fn inspect(name: &str) -> [&str; 4] {
    ["lms_tool", "inspect", "--file", name]
}

/// The arguments that make a top key, whose identifier is not the signer's.
pub(super) fn make_top() -> [&'static str; 12] {
    let mut arguments = keygen("5/2");
    arguments[7] = "99999999999999999999999999999999";
    arguments
}

/// Writes a signer's key, its signature and the message.
pub(super) fn write_signer<W: World>(alloc: Global, world: &mut W) -> Result<(), Fail> {
    for (name, digits) in [
        ("signer.pub", ONE_5_8.public),
        ("signer.sig", ONE_5_8.signature),
    ] {
        let bytes = hex::decode(alloc, digits)?;
        write(alloc, world, name, &bytes)?;
    }
    write(alloc, world, "text", ONE_5_8.message.as_bytes())?;
    Ok(())
}

/// An endorsement has the signer's signature joined.
#[test]
fn an_endorsed_signer_is_joined(rt: HostRuntime) -> Result<(), Fail> {
    let mut world = MemoryWorld::new(rt.alloc());
    write_signer(rt.alloc(), &mut world)?;
    let top = make_top();
    assert!(rt;
        says(&rt, &top, &mut world, 0, "capacity 32\n")
            && says(&rt, &ENDORSE, &mut world, 0, ENDORSED)
            && says(&rt, &JOIN, &mut world, 0, "")
            && says(&rt, &JOIN_PUBLIC, &mut world, 0, "")
            && says(&rt, &VERIFY_JOINED, &mut world, 0, "valid\n")
    );
    Ok(())
}

/// A file that can't be read, and one that memory is refused for.
#[test]
fn a_file_that_is_not_read_is_a_fault(rt: HostRuntime) -> Result<(), Fail> {
    let mut world = MemoryWorld::new(rt.alloc());
    let arguments = inspect("text");
    let missing = "error: cannot read input\n";
    let is_missing = fails_with(&rt, &arguments, &mut world, 6, missing);
    world.fail("text", WorldFault::OutOfMemory)?;
    let refused = "error: out of memory\n";
    assert!(rt; is_missing && fails_with(&rt, &arguments, &mut world, 5, refused));
    Ok(())
}
