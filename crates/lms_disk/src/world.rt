//! The files of the disk, as a world.
ghost use Rattle.std.specs.Prelude.{[], ◌∷◌, ◌≡◌, ◌≢◌, None, IfOk, IsOk, OnOk};
ghost use Rattle.std.specs.IoError.{error_kind};
ghost use Rattle.lms_files.specs.Files.{AreLeft, AreWritten};
ghost use Rattle.lms_world.specs.Events.{Written};

use crate::contents::{DiskContents, Opened, read_sized};
use crate::fault::fault_of;
use lms_file_store::{
    FileStore, StateLock, TryLock, WitnessDraft, lock, look_at_witness, make_witness,
};
use lms_files::{FileId, plan_output, write_flushed, write_output};
use lms_world::log::{Beginning, Call, Drafted, Log, OpenedAs, PutIn, TakenOut};
use lms_world::{LockFault, Note, OutOfMemory, Output, Printer, World, WorldFault};
use std::alloc::Global;
use std::fmt::{Display, Write as _};
use std::fs::OpenFile;
use std::io::{ErrorKind, Write};
use std::rc::Rc;
use std::rt::Files;
use std::{fs, io};

/// What a note calls a state's witness.
const WITNESS: &str = "the witness";

/// The files and the states of the disk, named by their paths. Nothing is claimed of what they
/// hold.
#[derive(Drop)]
pub struct DiskWorld<'a, R: Files> {
    files: &'a R,
    // The plain files that were read, which no output replaces.
    read: Vec<FileId>,
    // The file that was opened last, to tell why a read of it fails.
    opened: Option<Rc<Opened>>,
    // What stands behind the last refusal.
    note: Note,
    // The calls that were made on it.
    log: Log,
}

impl<'a, R: Files> DiskWorld<'a, R> {
    /// The files that the runtime reaches.
    pub fn new(alloc: Global, files: &'a R) -> Self
        ensures files { result.files ≡ files.entry }
        ensures unread { result.read.items ≡ [] }
        ensures uncalled { result.log ≡ [] }
    {
        DiskWorld {
            files,
            read: Vec::new(alloc),
            opened: None,
            note: Note::new(),
            log: Log::new(),
        }
    }

    /// Opens a file to be read, and remembers it. Returns it with its length. An error where it can't
    /// be opened, or memory to remember it is refused.
    fn open_to_read(&mut self, name: &str) -> io::Result<(R::File, u64)>
        ensures { self.new ≡ record self.old { read = self.new.read } }
    {
        let file = fs::open(self.files, name)?;
        let found = file.metadata()?;
        if let Some(id) = FileId::of(&found) {
            self.read.push(id)?;
        }
        Ok((file, found.len()))
    }

    /// The bytes of a file, whole, which is remembered. An error where it can't be read, or memory is
    /// refused.
    fn read_whole(&mut self, alloc: Global, name: &str) -> io::Result<Vec<u8>>
        ensures left { IfOk result (λ bytes. AreLeft R.File R.File.remaining bytes.items) }
        ensures same { self.new ≡ record self.old { read = self.new.read } }
    {
        let (file, size) = self.open_to_read(name)?;
        read_sized(alloc, file, size as usize)
    }

    /// Notes why a file was refused, and answers the world's fault for that.
    fn refused(&mut self, name: &str, reason: &io::Error) -> WorldFault
        ensures same { self.new ≡ record self.old { note = self.new.note } }
        ensures memory { error_kind reason.now ≡ ErrorKind.OutOfMemory
            → result ≡ WorldFault.OutOfMemory }
        ensures device { error_kind reason.now ≢ ErrorKind.OutOfMemory → result ≡ WorldFault.Device }
    {
        self.note.refuse(name, reason);
        fault_of(reason)
    }

    /// Notes why a state's lock was refused: by the name of the lock, which stands beside the file that
    /// a link leads to; and of a link that leads nowhere by its own.
    fn refused_lock(&mut self, alloc: Global, name: &str, reason: &io::Error)
        ensures { self.new ≡ record self.old { note = self.new.note } }
    {
        if !is_link(self.files, name) {
            self.note.refuse_lock(name, reason);
            return;
        }
        match self.files.canonicalize(alloc, name) {
            Ok(path) => self.note.refuse_lock(path.as_str(), reason),
            Err(_) => self.note.refuse(name, reason),
        }
    }

    /// Notes why a read of the file that was opened last failed, if one did.
    fn refused_contents(&mut self)
        ensures { self.new ≡ record self.old { note = self.new.note; opened = self.new.opened } }
    {
        let Some(opened) = self.opened.take() else {
            return;
        };
        if let Some(reason) = opened.as_ref().reason() {
            self.note.refuse(opened.as_ref().name.as_str(), &reason);
        }
    }

    /// Logs a write of a file, which came to `answer`, and returns that, with the world's fault for
    /// an error.
    fn written(
        &mut self,
        name: &str,
        bytes: &[u8],
        answer: io::Result<()>,
    ) -> Result<(), WorldFault>
        ensures logged { self.new.log ≡ Written name.now bytes.now result ∷ self.old.log }
        ensures same { OnOk result (IsOk answer) }
    {
        let answer = match answer {
            Ok(()) => Ok(()),
            Err(reason) => Err(self.refused(name, &reason)),
        };
        self.log = self.log.and(&Call::Written {
            name,
            bytes,
            answer,
        });
        answer
    }
}

impl<'a, R: Files + Sync> World for DiskWorld<'a, R>
where
    R::File: TryLock,
{
    type Lock = StateLock<R::File>;

    type Store = FileStore<'a, R>;

    type Contents = DiskContents<R::File>;

    type Draft = WitnessDraft<R::File>;

    ghost events = { λ world. world.log };

    ghost memory = { λ _. None };

    // All that was left in a file from where it stood, where that is known.
    ghost may_read = { AreLeft R.File R.File.remaining };

    // A file got all of them, where that is known.
    ghost are_written = { AreWritten R.File R.File.contents };

    fn read(&mut self, alloc: Global, name: &str) -> Result<Vec<u8>, WorldFault> {
        let answer = match self.read_whole(alloc, name) {
            Ok(bytes) => Ok(bytes),
            Err(reason) => Err(self.refused(name, &reason)),
        };
        self.log = self.log.and(&Call::Read {
            name,
            answer: &answer,
        });
        answer
    }

    fn open(&mut self, alloc: Global, name: &str) -> Result<DiskContents<R::File>, WorldFault> {
        match self.open_to_read(name) {
            Ok((file, _)) => {
                let opened = Opened::new(alloc, name);
                self.opened = shared(&opened);
                let contents = DiskContents::of(file, opened);
                self.log = self.log.and(&OpenedAs {
                    name,
                    contents: &contents,
                });
                Ok(contents)
            }
            Err(reason) => {
                let fault = self.refused(name, &reason);
                self.log = self.log.and(&Call::NotOpened { name, fault });
                Err(fault)
            }
        }
    }

    fn plan_output(&self, alloc: Global, name: &str) -> Result<Output, OutOfMemory> {
        plan_output(self.files, alloc, name)
    }

    fn write(&mut self, output: Output, bytes: &[u8]) -> Result<(), WorldFault> {
        let Output { name, place } = output;
        let answer = write_output(self.files, name.as_str(), place, bytes, &self.read);
        self.written(name.as_str(), bytes, answer)
    }

    fn write_flushed(&mut self, output: Output, bytes: &[u8]) -> Result<(), WorldFault> {
        let Output { name, place } = output;
        let answer = write_flushed(self.files, name.as_str(), place, bytes, &self.read);
        self.written(name.as_str(), bytes, answer)
    }

    fn lock(&mut self, alloc: Global, name: &str) -> Result<StateLock<R::File>, LockFault> {
        let answer = match lock(self.files, alloc, name) {
            Ok(lock) => Ok(lock),
            Err(reason) => {
                self.refused_lock(alloc, name, &reason);
                Err(LockFault::of(&reason))
            }
        };
        let call = match &answer {
            Ok(_) => Call::Acquired { name },
            Err(LockFault::InUse | LockFault::Unreachable) => Call::NotAvailable { name },
            Err(LockFault::OutOfMemory) => Call::NoMemory { name },
        };
        self.log = self.log.and(&call);
        answer
    }

    /// The file is closed here, which frees the lock.
    fn unlock(&mut self, _lock: StateLock<R::File>) {
        self.log = self.log.and(&Call::Unlocked);
    }

    fn exists(&mut self, lock: &StateLock<R::File>) -> bool {
        let there = lock.is_of_a_state(self.files);
        self.log = self.log.and(&Call::Asked { there });
        there
    }

    fn take_store(
        &mut self,
        alloc: Global,
        lock: &StateLock<R::File>,
    ) -> Result<FileStore<'a, R>, OutOfMemory> {
        match FileStore::locked(alloc, self.files, lock) {
            Ok(store) => {
                self.log = self.log.and(&TakenOut { store: &store });
                Ok(store)
            }
            Err(fault) => {
                self.log = self.log.and(&Call::NotTaken);
                Err(fault)
            }
        }
    }

    /// The state is in its file already. Why it couldn't be read, if so, is noted.
    fn put_back(&mut self, _lock: &StateLock<R::File>, store: FileStore<'a, R>) {
        if let Some((path, reason)) = store.refusal() {
            self.note.refuse(path, &reason);
        }
        self.log = self.log.and(&PutIn { store: &store });
    }

    fn read_nodes(
        &mut self,
        alloc: Global,
        lock: &StateLock<R::File>,
        most: usize,
    ) -> Option<Vec<u8>> {
        let found = lock.read_nodes(self.files, alloc, most);
        self.log = self.log.and(&Call::NodesRead { found: &found });
        found
    }

    fn write_nodes(
        &mut self,
        alloc: Global,
        lock: &StateLock<R::File>,
        text: &[u8],
    ) -> Result<(), WorldFault> {
        let answer = lock
            .write_nodes(self.files, alloc, text)
            .map_err(|error| fault_of(&error));
        self.log = self.log.and(&Call::NodesWritten { text, answer });
        answer
    }

    fn read_witness(
        &mut self,
        alloc: Global,
        lock: &StateLock<R::File>,
    ) -> Result<Option<Vec<u8>>, WorldFault> {
        let answer = match lock.read_witness(self.files, alloc) {
            Ok(found) => Ok(found),
            Err(reason) => Err(self.refused(WITNESS, &reason)),
        };
        self.log = self.log.and(&Call::WitnessRead { answer: &answer });
        answer
    }

    fn look_at_witness(
        &mut self,
        alloc: Global,
        name: &str,
    ) -> Result<Option<Vec<u8>>, WorldFault> {
        let seen = match look_at_witness(self.files, alloc, name) {
            Ok(found) => Ok(found),
            Err(reason) => Err(self.refused(WITNESS, &reason)),
        };
        self.log = self.log.and(&Call::WitnessRead { answer: &seen });
        seen
    }

    fn draft_witness(
        &mut self,
        alloc: Global,
        lock: &StateLock<R::File>,
    ) -> Result<WitnessDraft<R::File>, WorldFault> {
        let answer = match lock.draft_witness(self.files, alloc) {
            Ok(draft) => Ok(draft),
            Err(reason) => Err(self.refused(WITNESS, &reason)),
        };
        self.log = self.log.and(&Drafted { answer: &answer });
        answer
    }

    fn place_witness(
        &mut self,
        draft: WitnessDraft<R::File>,
        text: &[u8],
    ) -> Result<(), WorldFault> {
        let answer = match draft.place(self.files, text) {
            Ok(()) => Ok(()),
            Err(reason) => Err(self.refused(WITNESS, &reason)),
        };
        self.log = self.log.and(&Call::WitnessWritten { text, answer });
        answer
    }

    fn discard_witness(&mut self, draft: WitnessDraft<R::File>) {
        draft.discard(self.files);
    }

    fn make_witness(
        &mut self,
        alloc: Global,
        lock: &StateLock<R::File>,
        name: &str,
        text: &[u8],
    ) -> Result<String, WorldFault> {
        let made = match make_witness(self.files, alloc, lock, name, text) {
            Ok(place) => Ok(place),
            Err(reason) => Err(self.refused(name, &reason)),
        };
        let answer = &made;
        self.log = self.log.and(&Call::WitnessMade { name, text, answer });
        made
    }

    fn note(&self) -> &Note {
        &self.note
    }

    fn explain<D: Display + Drop>(&mut self, text: D) {
        self.refused_contents();
        let _ = write!(self.note, "{text}");
    }

    fn begin_printing<O: Write>(&mut self, output: &Printer<O>) {
        self.log = self.log.and(&Beginning { output });
    }
}

/// Whether a link has this name.
fn is_link<R: Files>(files: &R, name: &str) -> bool {
    match fs::symlink_metadata(files, name) {
        Ok(found) => found.is_symlink(),
        Err(_) => false,
    }
}

/// Another owner of what was opened, if there may be one.
fn shared(opened: &Option<Rc<Opened>>) -> Option<Rc<Opened>> {
    opened.as_ref()?.clone().ok()
}
