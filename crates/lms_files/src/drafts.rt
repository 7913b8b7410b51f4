//! A draft beside a file, and how it replaces the file.
ghost use Rattle.std.specs.Prelude.{OnOk};
ghost use Rattle.std.specs.Io.KnownBytes.{Appends};
ghost use Rattle.lms_files.specs.Files.{AreWrittenTo};

use crate::paths::OWNER_ONLY;
use std::fs::{OpenFile, OpenOptions};
use std::io::{ErrorKind, Write};
use std::os::unix::fs::OpenOptionsExt;
use std::rt::Files;
use std::{fs, io};

/// A new empty file of this name, which only the owner may read. A draft that an earlier crash left
/// is removed first.
pub fn make_draft<R: Files>(files: &R, draft: &str) -> io::Result<R::File> {
    match fs::remove_file(files, draft) {
        Err(error) if error.kind() != ErrorKind::NotFound => return Err(error),
        _ => {}
    }
    OpenOptions::new()
        .write(true)
        .create_new(true)
        .mode(OWNER_ONLY)
        .open(files, draft)
}

/// Writes the bytes to a draft, flushes and closes it, and renames it over the file of the other
/// name. A crash before the rename leaves that file as it was, and the draft. Where a step fails
/// the draft is removed if possible.
pub fn place_draft<R: Files>(
    files: &R,
    file: R::File,
    text: &[u8],
    draft: &str,
    name: &str,
) -> io::Result<()>
    ensures { OnOk result (AreWrittenTo R.File R.File.contents file text.now) }
{
    let placed = fill_and_close(file, text).and_then(|()| fs::rename(files, draft, name));
    if placed.is_err() {
        let _ = fs::remove_file(files, draft);
    }
    placed
}

/// Writes the bytes to a file, flushes it and closes it. An error where a step fails.
pub fn fill_and_close<F: OpenFile + Write + Drop>(file: F, text: &[u8]) -> io::Result<()>
    ensures { OnOk result (AreWrittenTo F F.contents file text.now) }
{
    let mut file = file;
    fill(&mut file, text)
}

/// Writes the bytes to a file and flushes it. An error where a step fails.
fn fill<F: OpenFile + Write>(file: &mut F, text: &[u8]) -> io::Result<()>
    ensures { OnOk result (Appends (F.contents file.old) (F.contents file.new) text.now) }
{
    file.write_all(text)?;
    file.sync_all()
}
