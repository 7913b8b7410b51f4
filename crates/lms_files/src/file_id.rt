//! Which file one is, whatever its name.
use std::fs::Metadata;
use std::os::unix::fs::MetadataExt;

/// A plain file, by its device and its number there: two names lead to one file exactly where they
/// lead to one of these.
#[derive(Clone, Copy, Debug, PartialEq, Eq)]
pub struct FileId {
    device: u64,
    inode: u64,
}

impl FileId {
    /// Which plain file this is. `None` of a folder, a device or a pipe, and where the system numbers
    /// no files.
    pub fn of(found: &Metadata) -> Option<FileId> {
        if found.is_file() && found.ino() != 0 {
            Some(FileId {
                device: found.dev(),
                inode: found.ino(),
            })
        } else {
            None
        }
    }
}
