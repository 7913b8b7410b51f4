//! The file of a key's witness beside its state. Its name may be a link to a file on another
//! medium.
ghost use Rattle.std.specs.Prelude.{◌≤◌, length, IfOk, IfSome, IsOk, OnOk};
ghost use Rattle.std.specs.Io.KnownBytes.{Appends};
ghost use Rattle.lms_file_store.specs.FileStores.{blanks};
ghost use Rattle.lms_files.specs.Files.{AreLeft, AreWritten, AreWrittenTo};

use crate::locking::StateLock;
use lms_files::drafts::{fill_and_close, make_draft};
use lms_files::paths::{
    DRAFT, NODES, NODES_DRAFT, OWNER_ONLY, WITNESS, exists, folder_of, resolve, sibling,
};
use lms_files::{MOST_WITNESS, leads_to_image, read_at_most, refusal};
use std::alloc::Global;
use std::fs::{OpenFile, OpenOptions};
use std::io::{ErrorKind, Seek, Write};
use std::os::unix::fs::OpenOptionsExt;
use std::rt::Files;
use std::{fs, io};

/// Why a file is no witness.
const NO_WITNESS: &str = "no plain file of at most 128 bytes";

/// What a draft has before it is written.
const BLANK: [u8; MOST_WITNESS] = [b' '; MOST_WITNESS];

/// A witness that is to be replaced, and the draft beside it, which has room for any.
#[derive(Drop)]
pub struct WitnessDraft<F> {
    path: String,
    draft: String,
    folder: F,
    file: F,
}

impl<F> StateLock<F> {
    /// The bytes of the file `NAME.witness` beside the state, where NAME is that of the state's
    /// file after symbolic links. `None` where nothing has that name.
    ///
    /// An error where it is a link that leads nowhere, where it leads to anything but a plain file
    /// of at most `MOST_WITNESS` bytes, where it can't be read or nobody knows whether it is there,
    /// and where memory for its path or its bytes is refused.
    pub fn read_witness<R: Files>(&self, files: &R, alloc: Global) -> io::Result<Option<Vec<u8>>>
        ensures at_most { IfOk result (λ found. IfSome found (λ text. length text.items ≤ 128)) }
        ensures left { IfOk result (λ found.
            IfSome found (λ text. AreLeft R.File R.File.remaining text.items)) }
    {
        witness_beside(files, alloc, self.path())
    }

    /// Makes a new file `NAME.new`, NAME being what the witness's name leads to, which only the
    /// owner may read and which replaces one that an earlier crash left. It gets `MOST_WITNESS`
    /// blanks, and is flushed, as its folder is. So all memory is there that `place` needs for as
    /// many, and, where the file system writes a file over in place, all room.
    ///
    /// An error where a step fails, where `NAME.new` is a state image, which stays, and where
    /// memory for the paths is refused. The witness is as it was in any case.
    pub fn draft_witness<R: Files>(
        &self,
        files: &R,
        alloc: Global,
    ) -> io::Result<WitnessDraft<R::File>>
        ensures { OnOk result (AreWritten R.File R.File.contents blanks) }
    {
        let name = sibling(alloc, self.path(), WITNESS)?;
        let path = resolve(files, alloc, name.as_str())?;
        let draft = sibling(alloc, path.as_str(), DRAFT)?;
        if leads_to_image(files, draft.as_str())? {
            return Err(refusal("a state has the name of its draft"));
        }
        let folder = fs::open(files, folder_of(path.as_str()))?;
        let file = make_draft(files, draft.as_str())?;
        let mut drafted = WitnessDraft {
            path,
            draft,
            folder,
            file,
        };
        let has_room = drafted.make_room();
        drafted.or_removed(files, has_room)
    }
}

/// The bytes of the witness of the state of this name, as `StateLock::read_witness`, without its lock:
/// another program may have that, and replace both. An error also where nobody knows where the name
/// leads.
pub fn look_at_witness<R: Files>(
    files: &R,
    alloc: Global,
    name: &str,
) -> io::Result<Option<Vec<u8>>>
    ensures at_most { IfOk result (λ found. IfSome found (λ text. length text.items ≤ 128)) }
    ensures left { IfOk result (λ found.
        IfSome found (λ text. AreLeft R.File R.File.remaining text.items)) }
{
    let state = resolve(files, alloc, name)?;
    witness_beside(files, alloc, state.as_str())
}

/// As `StateLock::read_witness`, beside the state of this path.
fn witness_beside<R: Files>(files: &R, alloc: Global, state: &str) -> io::Result<Option<Vec<u8>>>
    ensures at_most { IfOk result (λ found. IfSome found (λ text. length text.items ≤ 128)) }
    ensures left { IfOk result (λ found.
        IfSome found (λ text. AreLeft R.File R.File.remaining text.items)) }
{
    let name = sibling(alloc, state, WITNESS)?;
    if !exists(files, name.as_str()) {
        return Ok(None);
    }
    let found = fs::metadata(files, name.as_str())?;
    if !found.is_file() || found.len() > MOST_WITNESS as u64 {
        return Err(io::Error::new(ErrorKind::InvalidData, NO_WITNESS));
    }
    let file = fs::open(files, name.as_str())?;
    match read_at_most(alloc, file, MOST_WITNESS)? {
        Some(text) => Ok(Some(text)),
        None => Err(io::Error::new(ErrorKind::InvalidData, NO_WITNESS)),
    }
}

/// Makes a state's first witness: a new file of the name `path` with these bytes, which only its
/// owner may read, and `NAME.witness` beside the state as a link to it, unless that is this file.
/// Both are flushed, and their folders. Returns the path of the file, after symbolic links.
///
/// An error where a step fails; where something has one of both names, be it a link that leads
/// nowhere, or the name of the file's draft; where `path` is one of the names beside the state that
/// the program writes; and where memory for the paths is refused. Then no link is made, and the
/// file is removed if possible, unless the state's folder alone could not be flushed. Nothing is
/// written over.
pub fn make_witness<R: Files>(
    files: &R,
    alloc: Global,
    lock: &StateLock<R::File>,
    path: &str,
    text: &[u8],
) -> io::Result<String>
    ensures { OnOk result (AreWritten R.File R.File.contents text.now) }
{
    let name = sibling(alloc, lock.path(), WITNESS)?;
    if exists(files, name.as_str()) {
        return Err(refusal("the state has a witness"));
    }
    let beside = fs::open(files, folder_of(name.as_str()))?;
    let file = OpenOptions::new()
        .write(true)
        .create_new(true)
        .mode(OWNER_ONLY)
        .open(files, path)?;
    let placed = linked::<R>(files, alloc, file, lock.path(), text, path, name.as_str());
    match placed {
        Ok(place) => {
            beside.sync_all()?;
            Ok(place)
        }
        Err(error) => {
            let _ = fs::remove_file(files, path);
            Err(error)
        }
    }
}

/// Fills a new file of the name `path`, flushes it and its folder, and makes `name` a link to it,
/// unless `name` leads to it already. Returns the file's path after symbolic links. An error where
/// a step fails, where `name` leads elsewhere, where the program writes a file of that path
/// (`is_written_over`), and where memory for the paths is refused.
fn linked<R: Files>(
    files: &R,
    alloc: Global,
    file: R::File,
    state: &str,
    text: &[u8],
    path: &str,
    name: &str,
) -> io::Result<String>
    ensures { OnOk result (AreWrittenTo R.File R.File.contents file text.now) }
{
    fill_and_close(file, text)?;
    let place = resolve(files, alloc, path)?;
    if is_written_over(files, alloc, state, place.as_str())? {
        return Err(refusal("the program writes it, or something has the name of its draft"));
    }
    fs::open(files, folder_of(place.as_str()))?.sync_all()?;
    if !exists(files, name) {
        files.symlink(place.as_str(), name)?;
    } else if resolve(files, alloc, name)?.as_str() != place.as_str() {
        return Err(refusal("the name beside the state leads elsewhere"));
    }
    Ok(place)
}

/// Whether the program writes a file of this name beside the state, or something has the name of
/// its draft.
fn is_written_over<R: Files>(
    files: &R,
    alloc: Global,
    state: &str,
    place: &str,
) -> io::Result<bool> {
    for ending in [DRAFT, NODES, NODES_DRAFT] {
        if sibling(alloc, state, ending)?.as_str() == place {
            return Ok(true);
        }
    }
    Ok(exists(files, sibling(alloc, place, DRAFT)?.as_str()))
}

impl<F: OpenFile + Write + Seek + Drop> WitnessDraft<F> {
    /// Writes `MOST_WITNESS` blanks to the draft, so that it has room for any witness, and flushes
    /// it and its folder. An error where a step fails.
    fn make_room(&mut self) -> io::Result<()>
        ensures { OnOk result (AreWritten F F.contents blanks) }
    {
        self.overwrite(&BLANK)?;
        self.folder.sync_all()
    }

    /// Makes these the bytes of the draft, from the beginning, and flushes it. An error where a
    /// step fails.
    fn overwrite(&mut self, text: &[u8]) -> io::Result<()>
        ensures { OnOk result ((rewound : F)
            × Appends (F.contents rewound) (F.contents self.new.file) text.now) }
    {
        self.file.rewind()?;
        self.file.write_all(text)?;
        self.file.set_len(text.len() as u64)?;
        self.file.sync_all()
    }

    /// The draft itself where the step succeeded. Where it failed, its error, and the draft is
    /// removed if possible.
    fn or_removed<R: Files>(self, files: &R, step: io::Result<()>) -> io::Result<Self>
        ensures { OnOk result (IsOk step) }
    {
        match step {
            Ok(()) => Ok(self),
            Err(error) => {
                self.discard(files);
                Err(error)
            }
        }
    }

    /// Makes these the bytes of the draft in place of its blanks, flushes it, renames it over the
    /// witness, and flushes the folder.
    ///
    /// An error where a step fails: then the witness is as it was, and the draft is removed if
    /// possible, unless the folder alone could not be flushed after that.
    pub fn place<R: Files>(self, files: &R, text: &[u8]) -> io::Result<()>
        ensures { OnOk result (AreWritten F F.contents text.now) }
    {
        let mut drafted = self;
        let written = drafted.overwrite(text);
        let drafted = drafted.or_removed(files, written)?;
        let renamed = fs::rename(files, drafted.draft.as_str(), drafted.path.as_str());
        let drafted = drafted.or_removed(files, renamed)?;
        drafted.folder.sync_all()
    }

    /// Removes it, if that can be done. The witness stays.
    pub fn discard<R: Files>(self, files: &R) {
        let _ = fs::remove_file(files, self.draft.as_str());
    }
}
