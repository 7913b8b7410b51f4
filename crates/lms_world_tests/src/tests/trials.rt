//! What is tried of a world on the disk.
use super::poor::PoorFiles;
use super::{
    breaks_off, finds_whole, flushes, hands_over, is_there, is_there_when_removed, nodes, outputs,
    reads_some, witness, writes,
};
use lms_disk::DiskWorld;
use lms_world::{World, WorldFault};

/// What is tried of a world.
pub(super) enum Trial<'a> {
    Writes(&'a str, &'a [u8]),
    Flushes(&'a str, &'a [u8]),
    FindsWhole(&'a str, &'a [u8]),
    ReadsSome(&'a str),
    HandsOver(&'a str, &'a [u8]),
    BreaksOff(&'a str),
    IsThere(&'a str, Option<bool>),
    IsThereWhenRemoved(&'a str),
    KeepsWhatItRead,
    KeepsNodes(&'a str, &'a [u8]),
    FailsNodes(&'a str, WorldFault, &'a [u8]),
    ReadsNoNodes(&'a str),
    HasOneWitness(&'a str, &'a [u8]),
    FailsWitness(&'a str, WorldFault),
    KnowsAWitness,
}

/// Whether a world stands a trial.
fn stands<W: World>(rt: &HostRuntime, world: &mut W, trial: Trial<'_>) -> bool {
    let alloc = rt.alloc();
    match trial {
        Trial::Writes(name, bytes) => writes(alloc, world, name, bytes),
        Trial::Flushes(name, bytes) => flushes(alloc, world, name, bytes),
        Trial::FindsWhole(name, bytes) => finds_whole(alloc, world, name, bytes),
        Trial::ReadsSome(name) => reads_some(alloc, world, name),
        Trial::HandsOver(name, bytes) => hands_over(alloc, world, name, bytes),
        Trial::BreaksOff(name) => breaks_off(alloc, world, name),
        Trial::IsThere(name, there) => is_there(alloc, world, name) == there,
        Trial::IsThereWhenRemoved(name) => is_there_when_removed(rt, world, name),
        Trial::KeepsWhatItRead => outputs::keeps_what_it_read(alloc, world),
        Trial::KeepsNodes(name, left) => nodes::keeps_each(alloc, world, name, left),
        Trial::FailsNodes(name, fault, left) => nodes::fails(alloc, world, name, fault, left),
        Trial::ReadsNoNodes(name) => nodes::reads_none_of_what_is_written(alloc, world, name),
        Trial::HasOneWitness(name, left) => witness::has_one(alloc, world, name, left),
        Trial::FailsWitness(name, fault) => witness::fails(alloc, world, name, fault),
        Trial::KnowsAWitness => witness::knows_one(rt, world),
    }
}

/// Whether a world on the disk stands a trial.
pub(super) fn on_disk(rt: &HostRuntime, trial: Trial<'_>) -> bool {
    let mut world = DiskWorld::new(rt.alloc(), rt);
    stands(rt, &mut world, trial)
}

/// The same over poor files, which say something of a name itself or not.
pub(super) fn on_poor_files(rt: &HostRuntime, hides_names: bool, trial: Trial<'_>) -> bool {
    let poor = PoorFiles {
        files: rt,
        hides_names,
    };
    let mut world = DiskWorld::new(rt.alloc(), &poor);
    stands(rt, &mut world, trial)
}
