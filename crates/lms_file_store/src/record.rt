//! What a file store has to know of its writes to judge a read.
ghost use Rattle.std.specs.Prelude.{◌≡◌, ◌↔◌, List, [], ◌∷◌, IsTrue, false, true};
ghost use Rattle.lms_file_store.specs.FileStores.{Knows};

use arrayvec::ArrayVec;
use lms_book::StoredBytes;
use lms_ghost_log::GhostLog;
use std::marker::Model;

/// How many images a store keeps at most: the one that was stored for certain last, and three that
/// were tried since.
const MOST_TEXTS: usize = 4;

/// The place of the oldest tried image, after the certain one.
const OLDEST_TRIED: usize = 1;

/// A write: its bytes, and whether they were stored for certain.
#[derive(Drop)]
pub(crate) struct FileWrite {
    text: StoredBytes,
    stored: bool,
}

/// The writes of a store. It keeps, without taking memory, what was stored for certain last and
/// what was tried since. Contracts see all writes, the newest first.
#[derive(Drop)]
pub(crate) struct Record {
    writes: GhostLog<FileWrite>,
    // The certain one first, then the tried ones, the oldest first. None before a first certain
    // one, when any bytes may be left.
    kept: ArrayVec<StoredBytes, MOST_TEXTS>,
}

impl Model for Record {
    ghost use Rattle.std.specs.Prelude.{◌≡◌, List};
    ghost use Rattle.lms_file_store.specs.declared.record.FileWrite.{FileWrite};
    ghost use Rattle.lms_file_store.specs.FileStores.{kept_after};

    ghost Value = { List FileWrite };

    ghost view = { λ entry. entry.writes };

    ghost invariant = { λ entry. entry.kept.items ≡ kept_after entry.writes };
}

impl Record {
    /// A record of no writes.
    pub(crate) fn new() -> Self
        ensures { result ≡ [] }
    {
        Record {
            writes: GhostLog::new(),
            kept: ArrayVec::new(),
        }
    }

    /// Adds a write that was stored for certain, so that a crash can leave nothing else.
    pub(crate) fn stored(&mut self, text: StoredBytes)
        ensures { self.new ≡ record { text = text; stored = true } ∷ self.old }
    {
        let write = FileWrite { text, stored: true };
        self.writes = self.writes.and(&write);
        self.kept.clear();
        self.kept.push(write.text);
    }

    /// Adds a write that was tried and is not certain. Its bytes are kept only after a certain
    /// write; where four are kept, the oldest tried one is forgotten.
    pub(crate) fn failed(&mut self, text: StoredBytes)
        ensures { self.new ≡ record { text = text; stored = false } ∷ self.old }
    {
        let write = FileWrite {
            text,
            stored: false,
        };
        self.writes = self.writes.and(&write);
        if self.kept.is_empty() {
            return;
        }
        if self.kept.is_full() {
            let _ = self.kept.remove(OLDEST_TRIED);
        }
        self.kept.push(write.text);
    }

    /// Whether these bytes are one of those kept, each of which a crash could leave; where none is
    /// kept, any bytes are known. What was forgotten is not known, though a crash could leave it,
    /// too.
    pub(crate) fn knows(&self, text: &[u8]) -> bool
        ensures { IsTrue result ↔ Knows self.now text.now }
    {
        self.kept.is_empty() || self.kept.iter().any(|kept| kept.as_slice() == text)
    }
}
