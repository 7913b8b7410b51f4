//! What is kept of nodes beside a state on the disk. What else may be in their place, longer files
//! and failing steps are tested of the program.
use super::disk::{begins, clears, holds, is_missing, makes_folder};
use lms_file_store::{StateLock, lock};
use std::fs::File;

/// What is kept beside a state, whose lock is held.
#[derive(Drop)]
struct Kept<'a> {
    rt: &'a HostRuntime,
    held: StateLock<File>,
}

impl Kept<'_> {
    /// Whether these bytes are read, where at most so many are asked for.
    fn gives(&self, most: usize, text: &[u8]) -> bool {
        match self.held.read_nodes(self.rt, self.rt.alloc(), most) {
            Some(found) => found.as_slice() == text,
            None => false,
        }
    }

    /// Whether nothing is read, where at most so many bytes are asked for.
    fn gives_none(&self, most: usize) -> bool {
        self.held
            .read_nodes(self.rt, self.rt.alloc(), most)
            .is_none()
    }

    /// Whether these bytes are written.
    fn takes(&self, text: &[u8]) -> bool {
        self.held
            .write_nodes(self.rt, self.rt.alloc(), text)
            .is_ok()
    }

    /// Whether these bytes are written, and read where no more are asked for, and nothing where one
    /// less is.
    fn keeps(&self, text: &[u8]) -> bool {
        let kept = self.takes(text) && self.gives(text.len(), text);
        kept && (text.is_empty() || self.gives_none(text.len() - 1))
    }
}

/// What is kept beside the state of this name. `None` where it can't be locked.
fn kept_beside<'a>(rt: &'a HostRuntime, name: &str) -> Option<Kept<'a>> {
    match lock(rt, rt.alloc(), name) {
        Ok(held) => Some(Kept { rt, held }),
        Err(_) => None,
    }
}

impl Kept<'_> {
    /// Whether texts are kept one after another, before which there is none.
    fn keeps_each(&self) -> bool {
        self.gives_none(usize::MAX)
            && self.keeps(b"a")
            && self.keeps(b"")
            && self.keeps(&[7; 5000])
            && self.gives(usize::MAX, &[7; 5000])
    }

    /// Whether nothing is read or written once the folder is removed, where the last text was.
    fn is_cleared(&self) -> bool {
        holds(self.rt, "kept_nodes_reads/state.nodes", &[7; 5000])
            && is_missing(self.rt, "kept_nodes_reads/state.nodes.new")
            && is_missing(self.rt, "kept_nodes_reads/state")
            && clears(self.rt, "kept_nodes_reads")
            && self.gives_none(usize::MAX)
            && !self.takes(b"new")
    }

    /// Whether a text is written and read, each at the second try at the latest.
    fn keeps_in_two_tries(&self) -> bool {
        (self.takes(b"new") || self.takes(b"new"))
            && (self.gives(3, b"new") || self.gives(3, b"new"))
    }
}

#[test]
fn what_is_kept_is_read(rt: HostRuntime) {
    let is_begun = begins(&rt, "kept_nodes_reads");
    let is_right = match kept_beside(&rt, "kept_nodes_reads/state") {
        Some(kept) => kept.keeps_each() && kept.is_cleared(),
        None => false,
    };
    assert!(rt; is_begun && is_right);
}

/// What is kept beside a state, whose lock is had at the first or at the second try.
fn second_try<'a>(rt: &'a HostRuntime, name: &str) -> Option<Kept<'a>> {
    match kept_beside(rt, name) {
        Some(kept) => Some(kept),
        None => kept_beside(rt, name),
    }
}

/// The merge check refuses each request for memory in turn: what is kept is written and read at the
/// second try at the latest.
#[test]
fn nodes_are_kept_after_refused_memory(rt: HostRuntime) {
    let _ = makes_folder(&rt, "kept_nodes_memory");
    let is_right = match second_try(&rt, "kept_nodes_memory/state") {
        Some(kept) => kept.keeps_in_two_tries(),
        None => false,
    };
    assert!(rt; is_right);
    let _ = clears(&rt, "kept_nodes_memory");
}
