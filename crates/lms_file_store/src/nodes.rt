//! The file of kept tree nodes beside a key's state.
//!
//! A reader does not depend on it: it may be missing, and a check value in it has to show whether
//! it is what was written.
ghost use Rattle.std.specs.Prelude.{◌≤◌, length, IfSome, OnOk};
ghost use Rattle.lms_files.specs.Files.{AreLeft, AreWritten};

use crate::locking::StateLock;
use lms_files::drafts::{make_draft, place_draft};
use lms_files::paths::{NODES, NODES_DRAFT, sibling};
use lms_files::read_at_most;
use std::alloc::Global;
use std::rt::Files;
use std::{fs, io};

impl<F> StateLock<F> {
    /// The bytes of the file `NAME.nodes` beside the state, where NAME is that of the state's file
    /// after symbolic links.
    ///
    /// `None` where there is no such file; where something else has its name, as a folder, a device
    /// or a symbolic link, which is not opened; where it has more than `most` bytes, or grows while
    /// it is read; where it can't be read; and where memory for its path or its bytes is refused.
    /// It takes memory for one byte more than the file has, and none where the file has more than
    /// `most`.
    pub fn read_nodes<R: Files>(&self, files: &R, alloc: Global, most: usize) -> Option<Vec<u8>>
        ensures at_most { IfSome result (λ text. length text.items ≤ most) }
        ensures left { IfSome result (λ text. AreLeft R.File R.File.remaining text.items) }
    {
        let name = sibling(alloc, self.path(), NODES).ok()?;
        let size = plain_size(files, name.as_str(), most)?;
        let file = fs::open(files, name.as_str()).ok()?;
        read_at_most(alloc, file, size).ok()?
    }

    /// Makes these the bytes of that file. They are written to a new file `NAME.nodes.new`, which
    /// only the owner may read and which replaces one that an earlier crash left; it is flushed and
    /// renamed over `NAME.nodes`. A crash of the program leaves `NAME.nodes` as it was, or with
    /// these bytes. The folder is not flushed, so a loss of power may still leave the old file, or
    /// none.
    ///
    /// An error where a step fails, and where memory for the paths is refused. Then the file is as
    /// it was, and the new one is removed where possible.
    pub fn write_nodes<R: Files>(&self, files: &R, alloc: Global, text: &[u8]) -> io::Result<()>
        ensures { OnOk result (AreWritten R.File R.File.contents text.now) }
    {
        let name = sibling(alloc, self.path(), NODES)?;
        let draft = sibling(alloc, self.path(), NODES_DRAFT)?;
        let file = make_draft(files, draft.as_str())?;
        place_draft(files, file, text, draft.as_str(), name.as_str())
    }
}

/// The length of a plain file, at most `most`. `None` where it is longer, where there is no such
/// file, where something else has its name, as a symbolic link, and where that can't be known.
fn plain_size<R: Files>(files: &R, name: &str, most: usize) -> Option<usize>
    ensures { IfSome result (λ size. size ≤ most) }
{
    let found = fs::symlink_metadata(files, name).ok()?;
    let size = usize::try_from(found.len()).ok()?;
    if found.is_file() && size <= most {
        Some(size)
    } else {
        None
    }
}
