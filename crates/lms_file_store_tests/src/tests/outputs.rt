//! Files that are no state. What is never written over, and what a fault leaves, is tested of the
//! program.
use super::disk::{begins, clears, holds, is_link, is_missing, links, puts};
use lms_files::{FileId, Output, plan_output, write_flushed, write_output};
use std::fs;

/// Whether these become the bytes of a file, over which none may be written that was `read`.
fn writes(rt: &HostRuntime, name: &str, bytes: &[u8], read: &[FileId]) -> bool {
    match plan_output(rt, rt.alloc(), name) {
        Ok(Output { name, place }) => write_output(rt, name.as_str(), place, bytes, read).is_ok(),
        Err(_) => false,
    }
}

/// The same, with a flush of its folder.
fn flushes(rt: &HostRuntime, name: &str, bytes: &[u8]) -> bool {
    match plan_output(rt, rt.alloc(), name) {
        Ok(Output { name, place }) => write_flushed(rt, name.as_str(), place, bytes, &[]).is_ok(),
        Err(_) => false,
    }
}

/// Whether these become the bytes of a file, with a flush and without.
fn is_written(rt: &HostRuntime, name: &str, bytes: &[u8]) -> bool {
    let written = writes(rt, name, bytes, &[]) && holds(rt, name, bytes);
    let older = written && puts(rt, name, b"older");
    older && flushes(rt, name, bytes) && holds(rt, name, bytes)
}

/// Which file has this name.
fn id_of(rt: &HostRuntime, name: &str) -> Option<FileId> {
    match fs::metadata(rt, name) {
        Ok(found) => FileId::of(&found),
        Err(_) => None,
    }
}

#[test]
fn what_is_written_is_there(rt: HostRuntime) {
    let name = "outputs_there/file";
    assert!(rt;
        begins(&rt, "outputs_there")
            && is_written(&rt, name, b"a signature")
            && is_written(&rt, name, b"")
            && links(&rt, "none", "outputs_there/link")
            && is_written(&rt, "outputs_there/link", &[7; 5000])
            && holds(&rt, "outputs_there/none", &[7; 5000])
            && is_link(&rt, "outputs_there/link")
            && clears(&rt, "outputs_there")
    );
}

/// A draft that was left is neither used nor removed.
#[test]
fn drafts_of_others_stay(rt: HostRuntime) {
    let (first, second) = ("outputs_drafts/file.draft0", "outputs_drafts/file.draft1");
    assert!(rt;
        begins(&rt, "outputs_drafts")
            && puts(&rt, first, b"left")
            && puts(&rt, second, b"left")
            && is_written(&rt, "outputs_drafts/file", b"a signature")
            && holds(&rt, first, b"left")
            && holds(&rt, second, b"left")
            && is_missing(&rt, "outputs_drafts/file.draft2")
            && clears(&rt, "outputs_drafts")
    );
}

/// Whether a name leads to this file, and nothing is written over it where that was read.
fn is_unwritten(rt: &HostRuntime, way: &str, id: FileId) -> bool {
    let read = [id];
    id_of(rt, way) == Some(id) && !writes(rt, way, b"a signature", &read)
}

const READ: &str = "outputs_read/file";

const OTHER: &str = "outputs_read/other";

/// Whether nothing is written over the file that was read, by any of its names, but over another.
fn is_kept(rt: &HostRuntime, id: FileId) -> bool {
    let read = [id];
    is_unwritten(rt, READ, id)
        && is_unwritten(rt, "outputs_read/link", id)
        && is_unwritten(rt, "outputs_read/../outputs_read/file", id)
        && holds(rt, READ, b"a message")
        && writes(rt, OTHER, b"a signature", &read)
}

#[test]
fn what_was_read_is_not_written(rt: HostRuntime) {
    let is_begun = begins(&rt, "outputs_read")
        && puts(&rt, READ, b"a message")
        && puts(&rt, OTHER, b"another")
        && links(&rt, "file", "outputs_read/link")
        && id_of(&rt, "outputs_read").is_none();
    let is_kept = match id_of(&rt, READ) {
        Some(id) => is_kept(&rt, id),
        None => false,
    };
    assert!(rt;
        is_begun && is_kept && writes(&rt, READ, b"a signature", &[]) && clears(&rt, "outputs_read")
    );
}
