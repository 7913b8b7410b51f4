//! The witness beside a state on the disk. What else may be in its place, in that of its draft or of
//! a new one, and failing steps are tested of the program.
use super::disk::{
    begins, begins_with_a_link, clears, holds, is_missing, links, makes_folder, puts,
};
use lms_file_store::{StateLock, lock, look_at_witness, make_witness};
use std::fs;
use std::fs::File;
use std::io::ErrorKind;

/// A state whose lock is held, and its witness.
#[derive(Drop)]
struct Watched<'a> {
    rt: &'a HostRuntime,
    held: StateLock<File>,
}

impl Watched<'_> {
    /// Whether these bytes are read.
    fn gives(&self, text: &[u8]) -> bool {
        match self.held.read_witness(self.rt, self.rt.alloc()) {
            Ok(Some(found)) => found.as_slice() == text,
            _ => false,
        }
    }

    /// Whether there is none.
    fn gives_none(&self) -> bool {
        match self.held.read_witness(self.rt, self.rt.alloc()) {
            Ok(None) => true,
            _ => false,
        }
    }

    /// Whether what is there is no witness.
    fn is_unread(&self) -> bool {
        match self.held.read_witness(self.rt, self.rt.alloc()) {
            Ok(_) => false,
            Err(error) => error.kind() == ErrorKind::InvalidData,
        }
    }

    /// Whether a draft is made, and these bytes become the witness by it and are read.
    fn takes(&self, text: &[u8]) -> bool {
        match self.held.draft_witness(self.rt, self.rt.alloc()) {
            Ok(draft) => draft.place(self.rt, text).is_ok() && self.gives(text),
            Err(_) => false,
        }
    }

    /// Whether a draft is made, and is gone once it is let go.
    fn lets_go(&self, draft: &str) -> bool {
        match self.held.draft_witness(self.rt, self.rt.alloc()) {
            Ok(made) => {
                let blank = holds(self.rt, draft, &[b' '; 128]);
                made.discard(self.rt);
                blank && is_missing(self.rt, draft)
            }
            Err(_) => false,
        }
    }

    /// Whether one is made in a file of this name, whose path is answered, and is read.
    fn is_made(&self, path: &str) -> bool {
        match make_witness(self.rt, self.rt.alloc(), &self.held, path, b"made") {
            Ok(place) => leads_to(self.rt, path, place.as_str()) && self.gives(b"made"),
            Err(_) => false,
        }
    }

    /// Whether none is made in a file of this name, and why.
    fn is_unmade(&self, path: &str, kind: ErrorKind) -> bool {
        match make_witness(self.rt, self.rt.alloc(), &self.held, path, b"made") {
            Ok(_) => false,
            Err(error) => error.kind() == kind,
        }
    }
}

/// Whether a name leads to the file of this path.
fn leads_to(rt: &HostRuntime, name: &str, path: &str) -> bool {
    match fs::canonicalize(rt, name) {
        Ok(found) => found.as_str() == path,
        Err(_) => false,
    }
}

/// The state of this name. `None` where it can't be locked.
fn watched_at<'a>(rt: &'a HostRuntime, name: &str) -> Option<Watched<'a>> {
    match lock(rt, rt.alloc(), name) {
        Ok(held) => Some(Watched { rt, held }),
        Err(_) => None,
    }
}

/// Whether what was found is these bytes, or nothing where there are none.
fn is_text(found: &Option<Vec<u8>>, text: Option<&[u8]>) -> bool {
    match (found, text) {
        (Some(found), Some(text)) => found.as_slice() == text,
        (None, None) => true,
        _ => false,
    }
}

/// Whether these bytes are the witness of the state of this name, `None` where there is none.
fn shows(rt: &HostRuntime, name: &str, text: Option<&[u8]>) -> bool {
    match look_at_witness(rt, rt.alloc(), name) {
        Ok(found) => is_text(&found, text),
        Err(_) => false,
    }
}

/// Whether a look at the witness of the state of this name fails.
fn is_unseen(rt: &HostRuntime, name: &str) -> bool {
    match look_at_witness(rt, rt.alloc(), name) {
        Ok(_) => false,
        Err(_) => true,
    }
}

impl Watched<'_> {
    /// Whether these bytes are read where they are put in the place of the witness.
    fn reads(&self, name: &str, text: &[u8]) -> bool {
        puts(self.rt, name, text) && self.gives(text)
    }

    /// Whether there is none at first, and then those of up to 128 bytes are read.
    fn reads_each(&self, name: &str) -> bool {
        self.gives_none()
            && self.reads(name, b"a line\n")
            && self.reads(name, b"")
            && self.reads(name, &[7; 128])
            && shows(self.rt, "witness_read/state", Some(&[7; 128]))
    }

    /// Whether a longer one is not read, nor one whose size the system doesn't say.
    fn refuses_each(&self, name: &str) -> bool {
        let is_longer_refused = puts(self.rt, name, &[7; 129])
            && self.is_unread()
            && is_unseen(self.rt, "witness_read/state")
            && clears(self.rt, "witness_read");
        is_longer_refused
            && begins(self.rt, "witness_read")
            && links(self.rt, "/proc/self/status", name)
            && self.is_unread()
    }

    /// Whether each is replaced by the next, and the last stays where a draft is let go.
    fn is_replaced(&self, draft: &str) -> bool {
        self.takes(b"new")
            && self.takes(&[7; 128])
            && self.takes(b"")
            && is_missing(self.rt, draft)
            && self.lets_go(draft)
            && self.gives(b"")
    }

    /// Whether one is made beside the state that this link leads to, and once only, and replaced.
    fn is_made_once(&self, name: &str) -> bool {
        shows(self.rt, name, None)
            && self.is_made("file_store_links/file")
            && shows(self.rt, name, Some(b"made"))
            && is_missing(self.rt, "file_store_links/link.witness")
            && self.is_unmade("file_store_links/second", ErrorKind::AlreadyExists)
            && is_missing(self.rt, "file_store_links/second")
            && self.takes(b"next")
    }

    /// Whether none is made where a link that leads nowhere has its place.
    fn replaces_no_link(&self) -> bool {
        links(self.rt, "nowhere", "witness_new/state.witness")
            && self.is_unmade("witness_new/other", ErrorKind::AlreadyExists)
            && is_missing(self.rt, "witness_new/other")
            && is_missing(self.rt, "witness_new/nowhere")
    }
}

/// Of at most 128 bytes, whatever the system says that it has.
#[test]
fn a_witness_is_read(rt: HostRuntime) {
    let name = "witness_read/state.witness";
    let is_begun = begins(&rt, "witness_read");
    let is_right = match watched_at(&rt, "witness_read/state") {
        Some(watched) => watched.reads_each(name) && watched.refuses_each(name),
        None => false,
    };
    assert!(rt; is_begun && is_right && clears(&rt, "witness_read"));
}

#[test]
fn a_witness_is_replaced(rt: HostRuntime) {
    let is_begun = begins(&rt, "witness_next");
    let is_right = match watched_at(&rt, "witness_next/state") {
        Some(watched) => watched.is_replaced("witness_next/state.witness.new"),
        None => false,
    };
    assert!(rt; is_begun && is_right && clears(&rt, "witness_next"));
}

/// The link is beside the state that a link leads to, and not beside that link.
#[test]
fn a_witness_is_made(rt: HostRuntime) {
    let name = "file_store_links/link";
    let is_begun = begins_with_a_link(&rt);
    let is_right = match watched_at(&rt, name) {
        Some(watched) => watched.is_made_once(name),
        None => false,
    };
    assert!(rt;
        is_begun
            && is_right
            && holds(&rt, "file_store_links/file", b"next")
            && clears(&rt, "file_store_links")
    );
}

/// Nor is a witness made beside a link that leads nowhere, which may be one.
#[test]
fn a_new_witness_replaces_no_link(rt: HostRuntime) {
    let is_begun = begins(&rt, "witness_new");
    let is_right = match watched_at(&rt, "witness_new/state") {
        Some(watched) => watched.replaces_no_link(),
        None => false,
    };
    assert!(rt; is_begun && is_right && clears(&rt, "witness_new"));
}

/// A state, locked at the first or at the second try.
fn second_try<'a>(rt: &'a HostRuntime, name: &str) -> Option<Watched<'a>> {
    match watched_at(rt, name) {
        Some(watched) => Some(watched),
        None => watched_at(rt, name),
    }
}

impl Watched<'_> {
    /// Whether a witness is made in a file of this name, which a refusal leaves unmade.
    fn makes_in_two_tries(&self, path: &str) -> bool {
        let made = !self.is_unmade(path, ErrorKind::OutOfMemory);
        made || (is_missing(self.rt, path) && !self.is_unmade(path, ErrorKind::OutOfMemory))
    }

    /// Whether these bytes are read.
    fn gives_in_two_tries(&self, text: &[u8]) -> bool {
        self.gives(text) || self.gives(text)
    }

    /// Whether these bytes become the witness by a draft, whose placing takes no memory. A refusal
    /// leaves the witness as it was.
    fn takes_in_two_tries(&self, text: &[u8], older: &[u8]) -> bool {
        match self.held.draft_witness(self.rt, self.rt.alloc()) {
            Ok(draft) => draft.place(self.rt, text).is_ok(),
            Err(_) => self.gives(older) && self.takes(text),
        }
    }

    /// Whether a witness is made in a file of this name, read and replaced so.
    fn is_kept_in_two_tries(&self, path: &str) -> bool {
        self.makes_in_two_tries(path)
            && self.gives_in_two_tries(b"made")
            && self.takes_in_two_tries(b"next", b"made")
            && self.gives_in_two_tries(b"next")
    }
}

/// The merge check refuses each request for memory in turn: a witness is made, read and replaced at
/// the second try at the latest.
#[test]
fn a_witness_is_kept_after_refused_memory(rt: HostRuntime) {
    let _ = clears(&rt, "witness_memory");
    let _ = makes_folder(&rt, "witness_memory");
    let is_right = match second_try(&rt, "witness_memory/state") {
        Some(watched) => watched.is_kept_in_two_tries("witness_memory/file"),
        None => false,
    };
    assert!(rt; is_right);
    let _ = clears(&rt, "witness_memory");
}
