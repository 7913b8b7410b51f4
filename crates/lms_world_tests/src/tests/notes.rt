//! Notes for who looks on.
use lms_world::{MemoryWorld, Note, World};
use std::alloc::Global;
use std::io;
use std::io::ErrorKind;
use std::test::Fail;

/// Whether a note prints this, and nothing else.
fn prints(alloc: Global, note: &Note, line: &[u8]) -> bool {
    let mut printed = Vec::new(alloc);
    note.print(&mut printed).is_ok() && printed.as_slice() == line
}

/// Whether a note of these bytes prints this.
fn shows(alloc: Global, bytes: &[u8], line: &[u8]) -> bool {
    let mut note = Note::new();
    note.push(bytes);
    note.is_empty() == bytes.is_empty() && prints(alloc, &note, line)
}

#[test]
fn a_note_is_a_line(rt: HostRuntime) -> Result<(), Fail> {
    let alloc = rt.alloc();
    let long = "n".repeat(alloc, 193)?;
    let text = long.as_str();
    let line = format!(in alloc; "note: {text}\n")?;
    assert!(rt;
        shows(alloc, b"", b"")
            && shows(alloc, b"a ~\n\x1f\x7f\xc3", b"note: a ~????\n")
            && shows(alloc, text.as_bytes(), line.as_str().as_bytes())
            && shows(alloc, &[b'n'; 194], line.as_str().as_bytes())
    );
    Ok(())
}

/// Whether the note of a file that was refused for this reason, and that of a state's lock, are these.
fn refuses(alloc: Global, reason: &io::Error, file: &[u8], lock: &[u8]) -> bool {
    let (mut of_file, mut of_lock) = (Note::new(), Note::new());
    of_file.push(b"older");
    of_file.refuse("file", reason);
    of_lock.refuse_lock("state", reason);
    prints(alloc, &of_file, file) && prints(alloc, &of_lock, lock)
}

#[test]
fn a_refusal_is_told(rt: HostRuntime) {
    let missing = refuses(
        rt.alloc(),
        &io::Error::from_raw_os_error(2),
        b"note: file: No such file or directory\n",
        b"note: state.lock can't be made: No such file or directory\n",
    );
    let forbidden = refuses(
        rt.alloc(),
        &io::Error::from_raw_os_error(13),
        b"note: file: Permission denied\n",
        b"note: state.lock can't be made: Permission denied; sign as the state's owner\n",
    );
    let held = refuses(
        rt.alloc(),
        &io::Error::new(ErrorKind::WouldBlock, "held"),
        b"note: file: held\n",
        b"note: another run holds state.lock; wait for it, and never remove it\n",
    );
    assert!(rt; missing && forbidden && held);
}

/// Whether the note of a file of this name that was refused is this.
fn names(alloc: Global, name: &str, line: &str) -> bool {
    let mut note = Note::new();
    note.refuse(name, &io::Error::new(ErrorKind::Other, "why"));
    prints(alloc, &note, line.as_bytes())
}

#[test]
fn long_names_are_cut(rt: HostRuntime) -> Result<(), Fail> {
    let name = "\u{e4}".repeat(rt.alloc(), 60)?;
    let marks = "?".repeat(rt.alloc(), 80)?;
    let cut = marks.as_str();
    let line = format!(in rt.alloc(); "note: ...{cut}: why\n")?;
    assert!(rt; names(rt.alloc(), name.as_str(), line.as_str()));
    Ok(())
}

/// Whether a world has no note, and what it is explained by becomes one.
fn is_explained<W: World>(alloc: Global, world: &mut W) -> bool {
    let is_empty = world.note().is_empty();
    world.explain("index ");
    world.explain(format_args!("{} is used", 3));
    is_empty && prints(alloc, world.note(), b"note: index 3 is used\n")
}

#[test]
fn a_world_is_explained(rt: HostRuntime) {
    let mut world = MemoryWorld::new(rt.alloc());
    assert!(rt; is_explained(rt.alloc(), &mut world));
}
