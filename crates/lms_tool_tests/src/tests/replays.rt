//! What a world in memory holds after runs of the program, against a replay of its calls.
use super::endorsements::{ENDORSE, ENDORSED, inspect, make_top, write_signer};
use crate::tests::runs::arguments::{SIGN, VERIFY, keygen};
use crate::tests::runs::{ends, write};
use lms_fixtures::store_of;
use lms_recorded::{Change, Recorded};
use lms_world::{MemoryWorld, World, WorldFault};
use std::alloc::{AllocError, Global};
use std::sync::Wait;
use std::test::Fail;
use std::thread::Threads;

/// The files that the program is asked for. The last one can't be written.
const FILES: [&str; 7] = [
    "text",
    "key.pub",
    "text.sig",
    "signer.pub",
    "signer.sig",
    "signer.end",
    "other.sig",
];

/// The bytes that were written last to the file of a name.
fn file_after<'a>(changes: &'a [Change], name: &str) -> Option<&'a [u8]> {
    changes.iter().rev().find_map(|change| match change {
        Change::File { name: other, bytes } if other.as_str() == name => Some(bytes.as_slice()),
        _ => None,
    })
}

/// The state that was put back last.
fn state_after(changes: &[Change]) -> Option<&[u8]> {
    changes.iter().rev().find_map(|change| match change {
        Change::State { text } => Some(text.as_slice()),
        _ => None,
    })
}

/// The nodes that were kept last.
fn nodes_after(changes: &[Change]) -> Option<&[u8]> {
    changes.iter().rev().find_map(|change| match change {
        Change::Nodes { text } => Some(text.as_slice()),
        _ => None,
    })
}

/// The witness that was made or written last.
fn witness_after(changes: &[Change]) -> Option<&[u8]> {
    changes.iter().rev().find_map(|change| match change {
        Change::Witness { text } => Some(text.as_slice()),
        _ => None,
    })
}

/// Whether no call wrote another file than these.
fn writes_these_alone(changes: &[Change]) -> bool {
    changes.iter().all(|change| match change {
        Change::File { name, .. } => FILES.iter().any(|file| name.as_str() == *file),
        _ => true,
    })
}

/// Whether the file of a name has the bytes that were written last, or can't be read where none
/// were.
fn has_file(alloc: Global, recorded: &mut Recorded<MemoryWorld>, name: &str) -> bool {
    let found = recorded.world.read(alloc, name);
    match (found, file_after(&recorded.changes, name)) {
        (Ok(found), Some(bytes)) => found.as_slice() == bytes,
        (Err(WorldFault::Device), None) => true,
        _ => false,
    }
}

/// Whether the world holds what its calls say, and nothing else.
fn is_as_called(alloc: Global, recorded: &mut Recorded<MemoryWorld>) -> bool {
    let state = recorded.world.state().and_then(|store| store.text());
    state == state_after(&recorded.changes)
        && recorded.world.nodes() == nodes_after(&recorded.changes)
        && recorded.world.witness() == witness_after(&recorded.changes)
        && writes_these_alone(&recorded.changes)
        && FILES.iter().all(|name| has_file(alloc, recorded, name))
}

/// Whether a run ends with this status, and prints this output and these errors, and the world holds
/// what its calls say then.
fn runs_as_called(
    rt: &(impl Threads + Wait + AllocGlobal + Sync),
    world: &mut Recorded<MemoryWorld>,
    arguments: &[&str],
    status: u8,
    output: &str,
    errors: &str,
) -> bool {
    ends(rt, arguments, world, status, output, errors) && is_as_called(rt.alloc(), world)
}

/// A key is made, signs, signs in vain, since its signature can't be written, and signs again.
#[test]
fn a_memory_ends_as_its_calls_say(rt: HostRuntime) -> Result<(), Fail> {
    let mut world = Recorded::new(rt.alloc(), MemoryWorld::new(rt.alloc()));
    world.world.fail("other.sig", WorldFault::Device)?;
    write(rt.alloc(), &mut world, "text", b"abc")?;
    let (make, sign, verify) = (keygen("5/2,5/2"), SIGN, VERIFY);
    let mut elsewhere = SIGN;
    elsewhere[9] = "other.sig";
    let unwritten = "error: cannot write output\n";
    for (arguments, status, output, errors) in [
        (make.as_slice(), 0_u8, "capacity 1024\n", ""),
        (sign.as_slice(), 0, "index 0\n", ""),
        (elsewhere.as_slice(), 6, "", unwritten),
        (sign.as_slice(), 0, "index 2\n", ""),
        (verify.as_slice(), 0, "valid\n", ""),
    ] {
        assert!(rt;
            runs_as_called(&rt, &mut world, arguments, status, output, errors),
            "{output}{errors}"
        );
    }
    Ok(())
}

/// Whether a key is made, and endorses a signer's key.
fn endorses(
    rt: &(impl Threads + Wait + AllocGlobal + Sync),
    world: &mut Recorded<MemoryWorld>,
) -> bool {
    let top = make_top();
    runs_as_called(rt, world, &top, 0, "capacity 32\n", "")
        && runs_as_called(rt, world, &ENDORSE, 0, ENDORSED, "")
}

/// A key endorses a signer's key, and its endorsement is looked at, which changes nothing.
#[test]
fn an_endorsement_is_as_its_calls_say(rt: HostRuntime) -> Result<(), Fail> {
    let mut world = Recorded::new(rt.alloc(), MemoryWorld::new(rt.alloc()));
    write_signer(rt.alloc(), &mut world)?;
    let look = inspect("signer.end");
    let is_endorsed = endorses(&rt, &mut world);
    let changes = world.changes.len();
    let made = "signature\nlevels 1\nlength 4464\nlevel 5/2 leaf 0\n\
        index 0 if all levels are one key's\n";
    let is_inspected = runs_as_called(&rt, &mut world, &look, 0, made, "");
    assert!(rt; is_endorsed && is_inspected && world.changes.len() == changes);
    Ok(())
}

/// A state of which a witness is made, and the witness's file.
const WITNESS: [&str; 8] = [
    "lms_tool",
    "witness",
    "--state",
    "key.state",
    "--on",
    "far.witness",
    "--counter",
    "0",
];

const RESUME: [&str; 6] = [
    "lms_tool",
    "resume",
    "--state",
    "key.state",
    "--counter",
    "2",
];

/// The bytes of the state.
fn state_text(alloc: Global, recorded: &Recorded<MemoryWorld>) -> Result<Vec<u8>, AllocError> {
    let state = recorded.world.state().and_then(|store| store.text());
    Vec::from_slice(alloc, state.unwrap_or(b""))
}

/// Whether a state is made of this text, and put back.
fn puts_back(alloc: Global, recorded: &mut Recorded<MemoryWorld>, text: &[u8]) -> bool {
    match store_of(alloc, text) {
        Ok(store) => {
            recorded.world.set_state(store);
            true
        }
        Err(_) => false,
    }
}

/// Whether a key signs twice, and its state from before is put back then.
fn goes_back(
    rt: &(impl Threads + Wait + AllocGlobal + Sync),
    world: &mut Recorded<MemoryWorld>,
) -> bool {
    match state_text(rt.alloc(), world) {
        Ok(older) => {
            runs_as_called(rt, world, &SIGN, 0, "index 0\n", "")
                && runs_as_called(rt, world, &SIGN, 0, "index 1\n", "")
                && puts_back(rt.alloc(), world, &older)
        }
        Err(_) => false,
    }
}

/// An older state is put back beside a witness, refused, and resumed.
#[test]
fn an_older_state_goes_on_from_its_witness(rt: HostRuntime) -> Result<(), Fail> {
    let mut world = Recorded::new(rt.alloc(), MemoryWorld::new(rt.alloc()));
    write(rt.alloc(), &mut world, "text", b"abc")?;
    let make = keygen("5/2");
    let made =
        "HSS key 22222222222222222222222222222222 has used all indices below 0\nfar.witness\n";
    let fault = "error: state is older than its witness\n";
    let burnt = "indices 0 to 1 burnt; right only if the witness is the newest\n";
    assert!(rt;
        runs_as_called(&rt, &mut world, &make, 0, "capacity 32\n", "")
            && runs_as_called(&rt, &mut world, &WITNESS, 0, made, "")
            && goes_back(&rt, &mut world)
            && runs_as_called(&rt, &mut world, &SIGN, 3, "", fault)
            && runs_as_called(&rt, &mut world, &RESUME, 0, burnt, "")
            && runs_as_called(&rt, &mut world, &SIGN, 0, "index 2\n", "")
    );
    Ok(())
}
