mod disk;
mod locks;
mod nodes;
mod outputs;
mod witness;

use self::disk::{
    begins, begins_with_a_link, clears, holds, is_link, is_missing, links, makes_folder, puts,
    removes,
};
use lms_book::{ReadFault, StateStore, StoreFault};
use lms_file_store::{FileStore, StateLock, lock};
use std::fs::File;
use std::io::ErrorKind;

/// A store in a file, for tests.
#[derive(Drop)]
struct Tried<'a> {
    rt: &'a HostRuntime,
    store: FileStore<'a, HostRuntime>,
}

impl Tried<'_> {
    /// Whether it reads these bytes.
    fn reads(&mut self, text: &[u8]) -> bool {
        match self.store.read(self.rt.alloc()) {
            Ok(found) => found.as_slice() == text,
            Err(_) => false,
        }
    }

    /// Whether a read of it fails, and not for memory.
    fn reads_none(&mut self) -> bool {
        match self.store.read(self.rt.alloc()) {
            Ok(_) => false,
            Err(fault) => fault == ReadFault::Device,
        }
    }

    /// Whether the system refused to read this file, the last time with this kind of error.
    fn was_refused(&self, name: &str, kind: ErrorKind) -> bool {
        match self.store.refusal() {
            Some((path, reason)) => path.ends_with(name) && reason.kind() == kind,
            None => false,
        }
    }

    /// Whether it takes these bytes.
    fn takes(&mut self, text: &[u8]) -> bool {
        self.store.replace(text).is_ok()
    }

    /// Whether it fails to take these bytes.
    fn refuses(&mut self, text: &[u8]) -> bool {
        self.store.replace(text) == Err(StoreFault)
    }

    /// Whether it takes these bytes and reads them, and they are in the file.
    fn keeps(&mut self, name: &str, text: &[u8]) -> bool {
        self.takes(text) && self.reads(text) && holds(self.rt, name, text)
    }

    /// Whether it reads these bytes where somebody else puts them into its file.
    fn knows(&mut self, text: &[u8]) -> bool {
        puts(self.rt, TRIED, text) && self.reads(text)
    }

    /// Whether such bytes are a fault of the device to it.
    fn knows_not(&mut self, text: &[u8]) -> bool {
        puts(self.rt, TRIED, text) && self.reads_none()
    }

    /// Whether it fails to take these bytes while a folder is in the place of its draft.
    fn fails_to_take(&mut self, text: &[u8]) -> bool {
        let is_in_the_way = makes_folder(self.rt, TRIED_DRAFT);
        is_in_the_way && self.refuses(text) && clears(self.rt, TRIED_DRAFT)
    }
}

/// The store in a file, whose lock is dropped at once. `None` where the lock can't be had, or memory
/// is refused.
fn store_over<'a>(rt: &'a HostRuntime, name: &str) -> Option<Tried<'a>> {
    match lock(rt, rt.alloc(), name) {
        Ok(held) => store_of(rt, &held),
        Err(_) => None,
    }
}

/// The store of a lock. `None` where memory is refused.
fn store_of<'a>(rt: &'a HostRuntime, held: &StateLock<File>) -> Option<Tried<'a>> {
    match FileStore::locked(rt.alloc(), rt, held) {
        Ok(store) => Some(Tried { rt, store }),
        Err(_) => None,
    }
}

/// Whether a store in a file reads these bytes.
fn is_read(rt: &HostRuntime, name: &str, text: &[u8]) -> bool {
    match store_over(rt, name) {
        Some(mut store) => store.reads(text),
        None => false,
    }
}

impl Tried<'_> {
    /// Whether it reads nothing at first, then each text that it keeps, and not one of somebody else,
    /// which another store reads.
    fn reads_what_is_stored(&mut self, name: &str) -> bool {
        self.store.refusal().is_none()
            && self.reads_none()
            && self.was_refused(name, ErrorKind::NotFound)
            && self.keeps(name, b"a")
            && self.keeps(name, b"")
            && self.keeps(name, &[7; 180])
            && self.keeps(name, &[7; 256])
            && puts(self.rt, name, b"b")
            && self.reads_none()
            && is_read(self.rt, name, b"b")
    }

    /// Whether it refuses a long text, and touches neither its file nor its draft.
    fn touches_no_file(&mut self, name: &str, draft: &str) -> bool {
        self.refuses(&[7; 257]) && is_missing(self.rt, name) && is_missing(self.rt, draft)
    }

    /// Whether it takes and reads nothing.
    fn takes_and_reads_nothing(&mut self) -> bool {
        self.refuses(b"b") && self.reads_none()
    }

    /// Whether it takes and reads nothing where a folder has its name, and once the folder is removed.
    fn is_useless_over_a_folder(&mut self, name: &str, draft: &str) -> bool {
        self.takes_and_reads_nothing()
            && self.was_refused(name, ErrorKind::IsADirectory)
            && is_missing(self.rt, draft)
            && clears(self.rt, "file_store_folder")
            && self.takes_and_reads_nothing()
    }
}

#[test]
fn what_is_stored_is_read(rt: HostRuntime) {
    let name = "file_store_reads/state";
    let is_begun = begins(&rt, "file_store_reads");
    let is_right = match store_over(&rt, name) {
        Some(mut store) => store.reads_what_is_stored(name),
        None => false,
    };
    assert!(rt; is_begun && is_right && clears(&rt, "file_store_reads"));
}

#[test]
fn a_long_text_touches_no_file(rt: HostRuntime) {
    let name = "file_store_long/state";
    let is_begun = begins(&rt, "file_store_long");
    let is_right = match store_over(&rt, name) {
        Some(mut store) => store.touches_no_file(name, "file_store_long/state.new"),
        None => false,
    };
    assert!(rt; is_begun && is_right && clears(&rt, "file_store_long"));
}

/// The draft is written, and can't replace a folder.
#[test]
fn a_folder_is_no_state(rt: HostRuntime) {
    let name = "file_store_folder/state";
    let is_begun = begins(&rt, "file_store_folder") && makes_folder(&rt, name);
    let is_right = match store_over(&rt, name) {
        Some(mut store) => store.is_useless_over_a_folder(name, "file_store_folder/state.new"),
        None => false,
    };
    assert!(rt; is_begun && is_right);
}

const TRIED: &str = "file_store_tried/state";

const TRIED_DRAFT: &str = "file_store_tried/state.new";

impl Tried<'_> {
    /// Whether it knows any bytes before it stored some for certain, and then these and three that it
    /// failed to take.
    fn knows_four(&mut self) -> bool {
        self.fails_to_take(b"a")
            && self.knows(b"older")
            && self.takes(b"old")
            && self.fails_to_take(b"put")
            && self.fails_to_take(b"a")
            && self.fails_to_take(b"b")
            && self.knows(b"put")
    }

    /// Whether it knows no more after a fourth, and begins anew with a certain write.
    fn forgets_one(&mut self) -> bool {
        self.fails_to_take(b"c")
            && self.knows_not(b"put")
            && self.knows(b"a")
            && self.knows(b"c")
            && self.knows(b"old")
            && self.takes(b"new")
            && self.reads(b"new")
            && self.knows_not(b"old")
    }

    /// Whether it takes many writes, each at the first try, and reads the last at the second try at
    /// the latest.
    fn takes_many(&mut self) -> bool {
        let mut are_taken = true;
        for n in 0..20_u8 {
            let text = [n];
            are_taken = are_taken && self.takes(&text);
        }
        are_taken && (self.reads(&[19]) || self.reads(&[19]))
    }
}

/// A store knows any bytes before it stored some for certain, then these and the three that it
/// tried last since. A certain write begins anew, and is taken after failed ones.
#[test]
fn a_store_knows_what_it_tried(rt: HostRuntime) {
    let is_begun = begins(&rt, "file_store_tried");
    let is_right = match store_over(&rt, TRIED) {
        Some(mut store) => store.knows_four() && store.forgets_one(),
        None => false,
    };
    assert!(rt; is_begun && is_right && clears(&rt, "file_store_tried"));
}

/// A store, made at the first or at the second try. `None` where both fail.
fn second_try<'a>(rt: &'a HostRuntime, name: &str) -> Option<Tried<'a>> {
    match store_over(rt, name) {
        Some(store) => Some(store),
        None => store_over(rt, name),
    }
}

/// The merge check refuses each request for memory in turn: a store is made and read at the second
/// try at the latest, and takes each of many writes at the first, since a write takes no memory.
#[test]
fn a_store_works_after_refused_memory(rt: HostRuntime) {
    let _ = makes_folder(&rt, "file_store_memory");
    let is_right = match second_try(&rt, "file_store_memory/state") {
        Some(mut store) => store.takes_many(),
        None => false,
    };
    assert!(rt; is_right);
    let _ = clears(&rt, "file_store_memory");
}

#[test]
fn a_link_is_followed(rt: HostRuntime) {
    let is_begun = begins_with_a_link(&rt);
    let is_right = match store_over(&rt, "file_store_links/link") {
        Some(mut store) => store.reads(b"a") && store.takes(b"b"),
        None => false,
    };
    assert!(rt;
        is_begun
            && is_right
            && holds(&rt, "file_store_links/real/state", b"b")
            && is_link(&rt, "file_store_links/link")
            && clears(&rt, "file_store_links")
    );
}

/// Whether the lock on a state is had by this name, and still leads to it once the name is removed:
/// the state is there, and its store takes a write.
fn leads_past(rt: &HostRuntime, name: &str, text: &[u8]) -> bool {
    match lock(rt, rt.alloc(), name) {
        Ok(held) => {
            let has_state = removes(rt, name) && held.is_of_a_state(rt);
            has_state && takes_in(rt, &held, text)
        }
        Err(_) => false,
    }
}

/// Whether the store of a lock takes these bytes.
fn takes_in(rt: &HostRuntime, held: &StateLock<File>, text: &[u8]) -> bool {
    match store_of(rt, held) {
        Some(mut store) => store.takes(text),
        None => false,
    }
}

/// The store of a lock is where the name led to when it was locked, whatever becomes of the name.
#[test]
fn a_lock_leads_to_its_store(rt: HostRuntime) {
    assert!(rt;
        begins_with_a_link(&rt)
            && leads_past(&rt, "file_store_links/link", b"b")
            && holds(&rt, "file_store_links/real/state", b"b")
            && is_missing(&rt, "file_store_links/link")
            && clears(&rt, "file_store_links")
    );
}

/// Whether a lock takes for a state of its name each thing that is put there, one after another: a
/// link that leads nowhere, a folder and a file.
fn takes_each_thing(rt: &HostRuntime, held: &StateLock<File>, name: &str) -> bool {
    let link = links(rt, "nowhere", name) && held.is_of_a_state(rt) && removes(rt, name);
    let folder = makes_folder(rt, name) && held.is_of_a_state(rt) && clears(rt, name);
    let file = puts(rt, name, b"") && held.is_of_a_state(rt) && removes(rt, name);
    link && folder && file && !held.is_of_a_state(rt)
}

/// Whether a lock finds no state once its folder is removed, and takes it for one that is there
/// where a file has the folder's place, so that it can't be known.
fn exists_where_not_looked_up(rt: &HostRuntime, held: &StateLock<File>, folder: &str) -> bool {
    let none = clears(rt, folder) && !held.is_of_a_state(rt);
    none && puts(rt, folder, b"") && held.is_of_a_state(rt)
}

#[test]
fn what_can_not_be_looked_up_exists(rt: HostRuntime) {
    let (folder, name) = ("file_store_names/folder", "file_store_names/folder/state");
    let is_begun = begins(&rt, "file_store_names") && makes_folder(&rt, folder);
    let is_right = match lock(&rt, rt.alloc(), name) {
        Ok(held) => {
            !held.is_of_a_state(&rt)
                && takes_each_thing(&rt, &held, name)
                && exists_where_not_looked_up(&rt, &held, folder)
        }
        Err(_) => false,
    };
    assert!(rt; is_begun && is_right && clears(&rt, "file_store_names"));
}
