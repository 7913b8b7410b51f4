//! Files that a disk gives away.
use super::trials::{Trial, on_disk};
use super::{begins, clears, holds, links, reads, writes};
use lms_world::World;
use std::alloc::Global;

const FOLDER: &str = "disk_world_read";

const NAME: &str = "disk_world_read/file";

const LINK: &str = "disk_world_read/link";

const OTHER: &str = "disk_world_read/other";

/// Whether a world writes a file and reads it, and then writes it by neither of two names, but another.
pub(super) fn keeps_what_it_read<W: World>(alloc: Global, world: &mut W) -> bool {
    let there = writes(alloc, world, NAME, b"older") && writes(alloc, world, NAME, b"a message");
    let read = there && reads(alloc, world, NAME, b"a message");
    let kept = !writes(alloc, world, NAME, b"") && !writes(alloc, world, LINK, b"");
    read && kept && !world.note().is_empty() && writes(alloc, world, OTHER, b"a signature")
}

#[test]
fn what_was_read_stays(rt: HostRuntime) {
    assert!(rt;
        begins(&rt, FOLDER)
            && links(&rt, "file", LINK)
            && on_disk(&rt, Trial::KeepsWhatItRead)
            && holds(&rt, NAME, b"a message")
            && holds(&rt, OTHER, b"a signature")
            && clears(&rt, FOLDER)
    );
}
