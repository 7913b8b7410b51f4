//! A store in a file.
ghost use Rattle.std.specs.Prelude.{◌≡◌, IfOk, OnOk};
ghost use Rattle.lms_file_store.specs.FileStores.{fresh, giving, failed};
ghost use Rattle.lms_files.specs.Files.{AreLeft, AreWritten};

use crate::locking::StateLock;
use crate::record::Record;
use lms_book::{LastRead, ReadFault, StateStore, StoreFault, StoredBytes};
use lms_files::drafts::{make_draft, place_draft};
use lms_files::paths::{DRAFT, folder_of, sibling};
use lms_files::read_rest;
use lms_params::OutOfMemory;
use std::alloc::Global;
use std::fs::OpenFile;
use std::marker::Model;
use std::rt::Files;
use std::{fs, io};

/// A store in a file. It keeps in memory what it stored for certain last and up to three images
/// that it tried to store since. Each has the seed in it, and none is wiped. Contracts see all
/// writes since the store was made, the bytes that the last read gave, and the count of failures.
#[derive(Drop)]
pub struct FileStore<'a, R: Files> {
    files: &'a R,
    state: String,
    draft: String,
    folder: String,
    writes: Record,
    given: LastRead,
    failures: u64,
    refusal: Option<i32>,
}

impl<'a, R: Files> Model for FileStore<'a, R> {
    ghost use Rattle.std.specs.Prelude.{string_bytes};
    ghost use Rattle.lms_file_store.specs.FileStores.{AreBeside, FileState};

    ghost Value = { FileState };

    ghost view = { λ store.
        record { writes = store.writes; given = store.given; failures = store.failures } };

    ghost invariant = { λ store.
        AreBeside (string_bytes store.state) (string_bytes store.draft)
        (string_bytes store.folder) };
}

impl<'a, R: Files> FileStore<'a, R> {
    /// The store in the file of this lock, which need not exist yet. Hold the lock as long as the
    /// store is used. `OutOfMemory` where memory for the paths is refused.
    pub fn locked(
        alloc: Global,
        files: &'a R,
        lock: &StateLock<R::File>,
    ) -> Result<Self, OutOfMemory>
        ensures { IfOk result (λ store. store ≡ fresh) }
    {
        let state = String::from_str(alloc, lock.path())?;
        let draft = sibling(alloc, state.as_str(), DRAFT)?;
        let folder = String::from_str(alloc, folder_of(state.as_str()))?;
        Ok(FileStore {
            files,
            state,
            draft,
            folder,
            writes: Record::new(),
            given: LastRead::none(),
            failures: 0,
            refusal: None,
        })
    }

    /// The path of the state's file, and why the system refused the last read that failed, if it did.
    pub fn refusal(&self) -> Option<(&str, io::Error)> {
        let reason = io::Error::from_raw_os_error(self.refusal?);
        Some((self.state.as_str(), reason))
    }

    /// All bytes of the state's file. An error where they, or memory for them, can't be had.
    fn fetch(&self, alloc: Global) -> io::Result<Vec<u8>>
        ensures { IfOk result (λ text. AreLeft R.File R.File.remaining text.items) }
    {
        read_rest(alloc, fs::open(self.files, self.state.as_str())?)
    }

    /// Writes the bytes beside the state, flushes them, renames them over the state, and flushes
    /// the folder. An error where a step fails. A crash before the rename leaves the old state, and
    /// the draft; between the rename and the flush of the folder it leaves the old or the new one.
    /// Where a step up to the rename fails no draft is left if possible. The folder is opened
    /// first, so that nothing changes where it can't be opened.
    fn put(&self, text: &[u8]) -> io::Result<()>
        ensures { OnOk result (AreWritten R.File R.File.contents text.now) }
    {
        let folder = fs::open(self.files, self.folder.as_str())?;
        let (draft, state) = (self.draft.as_str(), self.state.as_str());
        let file = make_draft(self.files, draft)?;
        place_draft(self.files, file, text, draft, state)?;
        folder.sync_all()
    }

    /// From now on these are the bytes that the last read gave.
    fn give(&mut self, text: &Vec<u8>)
        ensures { self.new ≡ giving self.old text.now.items }
    {
        self.given = LastRead::of(text);
    }

    /// Counts a failure.
    fn fail(&mut self)
        ensures { self.new ≡ failed self.old }
    {
        self.failures = self.failures.saturating_add(1);
    }
}

impl<R: Files + Sync> StateStore for FileStore<'_, R> {
    ghost use Rattle.std.specs.Prelude.{true};
    ghost use Rattle.lms_file_store.specs.FileStores.{view_of, ReadsKnown, RecordsWrite};
    ghost use Rattle.lms_book.specs.Stops.{ReadsStore, WritesStore};

    ghost seen = { view_of };

    ghost may_fail = { λ _. true };

    /// All bytes of the file. `Device` where they can't be read, and where they are none of the
    /// kept images: then somebody else wrote them, or a failed write that three others followed.
    /// `OutOfMemory` where memory for them is refused. Before a first certain write any bytes may
    /// be there.
    #[tactic(auto, using(crate::proofs::Keeping::knows_leaves))]
    fn read(&mut self, alloc: Global) -> Result<Vec<u8>, ReadFault>
        ensures seen { ReadsStore true (view_of self.old) result (view_of self.new) }
        ensures known { ReadsKnown self.old result self.new }
        ensures left { IfOk result (λ text. AreLeft R.File R.File.remaining text.items) }
    {
        match self.fetch(alloc) {
            Ok(text) if self.writes.knows(&text) => {
                self.give(&text);
                self.refusal = None;
                Ok(text)
            }
            Err(error) if error.kind() == io::ErrorKind::OutOfMemory => Err(ReadFault::OutOfMemory),
            other => {
                self.refusal = other.err().and_then(|error| error.raw_os_error());
                self.fail();
                Err(ReadFault::Device)
            }
        }
    }

    /// Writes the bytes to `NAME.new`, which only the owner may read, flushes it, renames it over
    /// the file and flushes the folder. `Err` where a step fails; `NAME.new`, which may have a seed
    /// in it, is then removed where possible. More than 256 bytes are refused before any file is
    /// touched; a book burns the range all the same. A crash at any point leaves the file with the
    /// old bytes or with these. It takes no memory.
    fn replace(&mut self, text: &[u8]) -> Result<(), StoreFault>
        ensures writes { WritesStore text.now (view_of self.old) result (view_of self.new) }
        ensures recorded { RecordsWrite self.old text.now result self.new }
        ensures written { OnOk result (AreWritten R.File R.File.contents text.now) }
    {
        let Some(kept) = StoredBytes::new(text) else {
            self.fail();
            return Err(StoreFault);
        };
        match self.put(text) {
            Ok(()) => {
                self.writes.stored(kept);
                Ok(())
            }
            Err(_) => {
                self.writes.failed(kept);
                self.fail();
                Err(StoreFault)
            }
        }
    }
}
