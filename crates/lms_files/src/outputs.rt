//! Files that are no state, as those of public keys and signatures.
//!
//! None is written over a state image or a witness, whatever its name, nor over what the program
//! writes beside one. That guards against a slip, and not against who puts one there between the look
//! and the write, which follows at once.
ghost use Rattle.std.specs.Prelude.{◌≡◌, ◌↔◌, ◌≤◌, IfOk, IsTrue, OnOk};
ghost use Rattle.lms_files.specs.Files.{AreWritten, AreWrittenTo};
ghost use Rattle.lms_image.specs.Image.{longest_image, magic, magic_size};

use crate::file_id::FileId;
use crate::paths::{DRAFT, LOCK, NODES, NODES_DRAFT, WITNESS, folder_of};
use crate::places::Place;
use std::fs::{Metadata, OpenFile};
use std::io::{ErrorKind, Read, Write};
use std::os::unix::fs::MetadataExt;
use std::rt::Files;
use std::{fs, io};

/// The most bytes of a witness.
pub const MOST_WITNESS: usize = 128;

/// How a state image begins.
const MAGIC: [u8; MAGIC_LEN] = *b"HSSK";

const MAGIC_LEN: usize = 4;

/// The most bytes of a state image.
const MOST_IMAGE: u64 = 180;

/// How a witness begins, in two parts of that length.
const WITNESS_MAGIC: ([u8; MAGIC_LEN], [u8; MAGIC_LEN]) = (*b"HSS ", *b"key ");

/// Why a file is not written whose name was that of another when it was planned.
pub(crate) const LEADS_ELSEWHERE: &str = "its name leads elsewhere by now";

/// What else a file may be that is kept of a key.
#[derive(Clone, Copy, PartialEq, Eq)]
enum Kept {
    Image,
    Witness,
}

/// Makes these the bytes of a file, which need not be there yet, by a draft beside it: at any moment
/// the file is as it was, or has these bytes, whole. Contracts see that some file got the bytes, and
/// neither its name nor a flush.
///
/// An error where it can't be written, where its name leads elsewhere than when it was planned, and
/// where it is one that must stay: one of the files that were `read`; a plain file that begins as a
/// state image or a witness and is no longer than one, or can't be read to see that; or what has, as
/// given or after links, a name that the program writes beside such a file. That is looked at right
/// before the file is renamed or written. After an error it is as it was or, where its name leads
/// elsewhere by then, perhaps whole with these bytes.
///
/// Written in place is what is no plain file; what has several names, or another owner or group than
/// a new file; what something is mounted on; what is below `/dev` or `/proc`; what has the name of a
/// lock; and what is in a folder that takes no new file, or lets none replace another. Where that breaks off, the file may be missing
/// or cut short. It is flushed, too, and where it can't be, as a pipe, only written.
pub fn write_output<R: Files>(
    files: &R,
    name: &str,
    place: Place,
    bytes: &[u8],
    read: &[FileId],
) -> io::Result<()>
    ensures { OnOk result (AreWritten R.File R.File.contents bytes.now) }
{
    let mut place = place;
    if !replaced(files, name, &mut place, bytes, read)? {
        stays(files, name, place.path(), read)?;
        fill(fs::create(files, place.path())?, bytes)?;
    }
    leads_there(files, name, place.path())
}

/// As `write_output`, and flushes the file's folder, so that a loss of power leaves the file as it is,
/// unless nobody knows where that is, or it is below `/dev` or `/proc`. An error, with nothing written,
/// where the folder can't be opened, and with the file whole where it can't be flushed.
pub fn write_flushed<R: Files>(
    files: &R,
    name: &str,
    place: Place,
    bytes: &[u8],
    read: &[FileId],
) -> io::Result<()>
    ensures { OnOk result (AreWritten R.File R.File.contents bytes.now) }
{
    if place.draft().is_empty() {
        return write_output(files, name, place, bytes, read);
    }
    let folder = fs::open(files, folder_of(place.path()))?;
    write_output(files, name, place, bytes, read)?;
    folder.sync_all()
}

/// Writes the bytes to a draft, flushes it, and renames it over the file: true. False, with nothing
/// changed, where the file has to be written in place. An error where a step fails, and where the file
/// must stay: it is as it was, and the draft is removed if possible.
fn replaced<R: Files>(
    files: &R,
    name: &str,
    place: &mut Place,
    bytes: &[u8],
    read: &[FileId],
) -> io::Result<bool>
    ensures { IfOk result (λ done. IsTrue done → AreWritten R.File R.File.contents bytes.now) }
{
    let Some(file) = place.make_draft(files)? else {
        return Ok(false);
    };
    let placed = match fill(file, bytes) {
        Ok(()) => renamed(files, name, place, read),
        Err(error) => Err(error),
    };
    match placed {
        Ok(true) => Ok(true),
        unplaced => {
            let _ = fs::remove_file(files, place.draft());
            unplaced
        }
    }
}

/// Renames a draft over its file: true. False where something is mounted on that, or this may not be
/// done. An error where it can't be done, and where the file must stay.
fn renamed<R: Files>(files: &R, name: &str, place: &Place, read: &[FileId]) -> io::Result<bool> {
    stays(files, name, place.path(), read)?;
    match fs::rename(files, place.draft(), place.path()) {
        Ok(()) => Ok(true),
        Err(error) => match error.kind() {
            ErrorKind::ResourceBusy | ErrorKind::PermissionDenied => Ok(false),
            _ => Err(error),
        },
    }
}

/// Writes the bytes to a file, flushes it where that can be done, and closes it.
fn fill<F: OpenFile + Write + Drop>(file: F, text: &[u8]) -> io::Result<()>
    ensures { OnOk result (AreWrittenTo F F.contents file text.now) }
{
    let mut file = file;
    file.write_all(text)?;
    flush(&file)
}

/// Flushes a file, where it can be.
fn flush<F: OpenFile>(file: &F) -> io::Result<()> {
    match file.sync_all() {
        Err(error) if error.kind() == ErrorKind::InvalidInput => Ok(()),
        flushed => flushed,
    }
}

/// An error where a file must stay as it is: it is one of those that were `read`, or is kept of a
/// key, or has the name of what is kept beside such a file, or its own name leads elsewhere by now.
fn stays<R: Files>(files: &R, name: &str, path: &str, read: &[FileId]) -> io::Result<()> {
    if let Some(found) = plain_at(files, path)? {
        if FileId::of(&found).is_some_and(|id| read.contains(&id)) {
            return Err(refusal("this run has read it"));
        }
        if begins_as(files, path, found.len())?.is_some() {
            return Err(refusal("it is a state or a witness"));
        }
    }
    if is_beside_kept(files, path)? || is_beside_kept(files, name)? {
        return Err(refusal("the program writes it beside a state or a witness"));
    }
    leads_there(files, name, path)
}

/// An error where a file's name leads elsewhere than to its path. None where both lead nowhere, and
/// where another run replaces the file meanwhile.
fn leads_there<R: Files>(files: &R, name: &str, path: &str) -> io::Result<()> {
    let before = state_of(files, path)?;
    if state_of(files, name)? == before || state_of(files, path)? != before {
        return Ok(());
    }
    Err(refusal(LEADS_ELSEWHERE))
}

/// Which plain file the name leads to, and the nanoseconds of its last change, since a number may be
/// that of another file by then.
fn state_of<R: Files>(files: &R, name: &str) -> io::Result<Option<(FileId, i64)>> {
    let found = plain_at(files, name)?;
    Ok(found.and_then(|found| Some((FileId::of(&found)?, found.ctime_nsec()))))
}

/// The error for a file that is not written, with the reason in words for who looks on.
pub fn refusal(why: &'static str) -> io::Error {
    io::Error::new(ErrorKind::AlreadyExists, why)
}

/// Whether the program writes a file of this path beside a state or a witness.
fn is_beside_kept<R: Files>(files: &R, path: &str) -> io::Result<bool> {
    for ending in [LOCK, NODES_DRAFT, NODES, DRAFT, WITNESS] {
        if let Some(kept) = path.strip_suffix(ending) {
            if kept_at(files, kept)?.is_some() {
                return Ok(true);
            }
        }
    }
    Ok(false)
}

/// Whether the name leads to a plain file that begins as a state image and is no longer than one.
pub fn leads_to_image<R: Files>(files: &R, name: &str) -> io::Result<bool> {
    Ok(kept_at(files, name)? == Some(Kept::Image))
}

/// What the plain file is to which the name leads, by its length and its beginning.
fn kept_at<R: Files>(files: &R, name: &str) -> io::Result<Option<Kept>> {
    match plain_at(files, name)? {
        Some(found) => begins_as(files, name, found.len()),
        None => Ok(None),
    }
}

/// The plain file to which the name leads. `None` where it leads to something else, or nowhere.
fn plain_at<R: Files>(files: &R, name: &str) -> io::Result<Option<Metadata>> {
    match fs::metadata(files, name) {
        Ok(found) if found.is_file() => Ok(Some(found)),
        Err(error) if error.kind() != ErrorKind::NotFound => Err(error),
        _ => Ok(None),
    }
}

/// Whether a file of this length may begin as a state image and is no longer than one: 4 to 180
/// bytes.
fn has_image_length(length: u64) -> bool
    ensures { IsTrue result ↔ ((magic_size ≤ length) × (length ≤ longest_image)) }
{
    MAGIC_LEN as u64 <= length && length <= MOST_IMAGE
}

/// Whether a file of this length may begin as a witness and is no longer than one: 8 to 128 bytes.
fn has_witness_length(length: u64) -> bool {
    2 * MAGIC_LEN as u64 <= length && length <= MOST_WITNESS as u64
}

/// What a file of this length is, by its beginning: a state image, a witness or neither.
fn begins_as<R: Files>(files: &R, name: &str, length: u64) -> io::Result<Option<Kept>> {
    if !has_image_length(length) {
        return Ok(None);
    }
    let mut head = [0; MAGIC_LEN];
    let mut file = fs::open(files, name)?;
    file.read_exact(&mut head)?;
    if is_magic(head) {
        return Ok(Some(Kept::Image));
    }
    if head != WITNESS_MAGIC.0 || !has_witness_length(length) {
        return Ok(None);
    }
    file.read_exact(&mut head)?;
    Ok((head == WITNESS_MAGIC.1).then_some(Kept::Witness))
}

/// Whether these are the bytes that a state image begins with.
fn is_magic(head: [u8; MAGIC_LEN]) -> bool
    ensures { IsTrue result ↔ (head ≡ magic) }
{
    head == MAGIC
}
