//! Where a file that is no state is to be written, and the draft beside it.
ghost use Rattle.std.specs.Prelude.{◌≡◌, IfOk, string_bytes};

use crate::outputs::{LEADS_ELSEWHERE, refusal};
use crate::paths::{LOCK, OWNER_ONLY, folder_of, sibling};
use lms_params::OutOfMemory;
use std::alloc::Global;
use std::fs::{Metadata, OpenFile, OpenOptions};
use std::io::ErrorKind;
use std::os::unix::fs::{MetadataExt, OpenOptionsExt};
use std::path::Path;
use std::rt::Files;
use std::{fs, io};

/// How the name of a draft of an output ends, but for its last byte.
const OUTPUT_DRAFT: &str = ".draft0";

/// The last bytes of such names, in the order in which they are tried.
const TRIES: [char; 10] = ['0', '1', '2', '3', '4', '5', '6', '7', '8', '9'];

/// Who may read and write a new file, but for what the user's mask takes away.
const EVERYBODY: u32 = 0o666;

/// The most links that are followed one after another, as by Linux.
const MOST_LINKS: usize = 40;

/// A file that is to be written: its name, and all memory that a write of it needs.
#[derive(Drop)]
pub struct Output {
    pub name: String,
    /// Where the name leads, so that a draft can replace the file.
    pub place: Place,
}

/// Where a file is, after links, and the path of a draft beside it.
#[derive(Drop)]
pub struct Place {
    path: String,
    // Empty where the file is written in place.
    draft: String,
}

impl Output {
    /// The file of this name, which is written in place. `OutOfMemory` where memory for the name is
    /// refused.
    pub fn in_place(alloc: Global, name: &str) -> Result<Output, OutOfMemory>
        ensures { IfOk result (λ output. string_bytes output.name ≡ name.now) }
    {
        let path = String::from_str(alloc, name)?;
        let name = String::from_str(alloc, name)?;
        let draft = String::new(alloc);
        let place = Place { path, draft };
        Ok(Output { name, place })
    }
}

/// Plans to write the file of this name: finds where it is, after links, and takes all memory that a
/// write of it needs. `OutOfMemory` where that is refused. Where it is not known where the name
/// leads, or that is below `/dev` or `/proc`, whose names may be of open files, the file is written
/// in place.
pub fn plan_output<R: Files>(files: &R, alloc: Global, name: &str) -> Result<Output, OutOfMemory>
    ensures { IfOk result (λ output. string_bytes output.name ≡ name.now) }
{
    let mut output = Output::in_place(alloc, name)?;
    match after_links(files, alloc, name) {
        Ok(path) => {
            if !is_of_the_system(path.as_str()) {
                output.place.draft = sibling(alloc, path.as_str(), OUTPUT_DRAFT)?;
            }
            output.place.path = path;
        }
        Err(error) if error.kind() == ErrorKind::OutOfMemory => return Err(OutOfMemory),
        Err(_) => {}
    }
    Ok(output)
}

/// Where the file of this name is. Links below `/proc`, as those of open files, are not followed. An
/// error where it isn't known, may not be gone to by its whole path, or memory is refused.
fn after_links<R: Files>(files: &R, alloc: Global, name: &str) -> io::Result<String> {
    let mut path = located(files, alloc, name)?;
    for _ in 0..MOST_LINKS {
        if Path::new(path.as_str()).starts_with("/proc") {
            return Ok(path);
        }
        match files.read_link(alloc, path.as_str()) {
            Ok(target) => path = beside(files, alloc, path.as_str(), target.as_str())?,
            Err(error) => match error.kind() {
                // Where the whole path may not be gone along, the name may.
                ErrorKind::OutOfMemory | ErrorKind::PermissionDenied => return Err(error),
                _ => return Ok(path),
            },
        }
    }
    Err(io::Error::from(ErrorKind::FilesystemLoop))
}

/// Whether a file of this path may be an open file's name, or a device.
fn is_of_the_system(path: &str) -> bool {
    let path = Path::new(path);
    path.starts_with("/dev") || path.starts_with("/proc")
}

/// The path of a file in its folder, after the folder's links. An error where there is no such
/// folder, where the name is that of a folder, as `..` or `file/.`, and where memory is refused.
fn located<R: Files>(files: &R, alloc: Global, name: &str) -> io::Result<String> {
    let Some(file) = Path::new(name).file_name() else {
        return Err(io::Error::from(ErrorKind::IsADirectory));
    };
    if !name.ends_with(file) {
        return Err(io::Error::from(ErrorKind::IsADirectory));
    }
    let folder = files.canonicalize(alloc, folder_of(name))?;
    let path = folder.as_path().join(alloc, file)?;
    Ok(path.into_string())
}

/// The path of the file to which a link at `path` leads, by the link's text.
fn beside<R: Files>(files: &R, alloc: Global, path: &str, link: &str) -> io::Result<String> {
    let target = Path::new(folder_of(path)).join(alloc, link)?;
    located(files, alloc, target.as_str())
}

impl Place {
    /// Where the file is written.
    pub(crate) fn path(&self) -> &str {
        self.path.as_str()
    }

    /// Where the draft is that was made last. Empty where the file is written in place since nobody
    /// knows where it is, or that is below `/dev` or `/proc`.
    pub(crate) fn draft(&self) -> &str {
        self.draft.as_str()
    }

    /// A new file beside it, which may be renamed over what is there. `None`, with nothing left,
    /// where nothing may be: what is there is no plain file, or has several names, or another owner or
    /// group than a new file; the folder takes no new file; or the name is that of a lock, perhaps of
    /// a state that is about to be made. Then the file is written in place. An error where what is
    /// there may not be written, or is a link by now, and where there is no room for a file.
    pub(crate) fn make_draft<R: Files>(&mut self, files: &R) -> io::Result<Option<R::File>> {
        if self.draft.is_empty() || self.path().ends_with(LOCK) {
            return Ok(None);
        }
        match fs::symlink_metadata(files, self.path()) {
            Ok(older) if older.is_file() && older.nlink() <= 1 => self.make_like(files, &older),
            Ok(older) if older.is_symlink() => Err(refusal(LEADS_ELSEWHERE)),
            Ok(_) => Ok(None),
            Err(error) if error.kind() == ErrorKind::NotFound => self.make_new(files, EVERYBODY),
            Err(error) => Err(error),
        }
    }

    /// A new file beside it, of the owner, the group and the mode of the older one that is there.
    /// `None`, with nothing left, where none can be made. An error where the older one may not be
    /// written, and where there is no room for a file.
    fn make_like<R: Files>(&mut self, files: &R, older: &Metadata) -> io::Result<Option<R::File>> {
        let _writable = OpenOptions::new().write(true).open(files, self.path())?;
        let Some(file) = self.make_new(files, OWNER_ONLY)? else {
            return Ok(None);
        };
        if has_rights_of(&file, older) {
            return Ok(Some(file));
        }
        drop(file);
        let _ = fs::remove_file(files, self.draft());
        Ok(None)
    }

    /// A new file beside it, of the first name that no file has. `None` where all are taken, and
    /// where the folder takes no file of that name, or none of this user's.
    fn make_new<R: Files>(&mut self, files: &R, mode: u32) -> io::Result<Option<R::File>> {
        for last in TRIES {
            self.draft.pop();
            self.draft.push(last)?;
            let made = OpenOptions::new()
                .write(true)
                .create_new(true)
                .mode(mode)
                .open(files, self.draft());
            match made {
                Ok(file) => return Ok(Some(file)),
                Err(error) => match error.kind() {
                    ErrorKind::AlreadyExists => {}
                    ErrorKind::PermissionDenied
                    | ErrorKind::ReadOnlyFilesystem
                    | ErrorKind::InvalidFilename => return Ok(None),
                    _ => return Err(error),
                },
            }
        }
        Ok(None)
    }
}

/// Whether a file has the owner and the group of an older one, whose mode it then gets.
fn has_rights_of<F: OpenFile>(file: &F, older: &Metadata) -> bool {
    match file.metadata() {
        Ok(made) => {
            let same = made.uid() == older.uid() && made.gid() == older.gid();
            same && file.set_permissions(older.permissions()).is_ok()
        }
        Err(_) => false,
    }
}
