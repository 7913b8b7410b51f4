//! What the tests do to files, each call answering whether it was done.
use std::fs;
use std::io::ErrorKind;
use std::os::unix::fs::symlink;

/// Makes an empty folder, in place of one that an earlier run left.
pub(super) fn begins(rt: &HostRuntime, folder: &str) -> bool {
    let _ = fs::remove_dir_all(rt, folder);
    makes_folder(rt, folder)
}

/// Makes a folder.
pub(super) fn makes_folder(rt: &HostRuntime, name: &str) -> bool {
    fs::create_dir(rt, name).is_ok()
}

/// Makes these the bytes of a file.
pub(super) fn puts(rt: &HostRuntime, name: &str, text: &[u8]) -> bool {
    fs::write(rt, name, text).is_ok()
}

/// Makes a link.
pub(super) fn links(rt: &HostRuntime, original: &str, name: &str) -> bool {
    symlink(rt, original, name).is_ok()
}

/// Removes a file or a link.
pub(super) fn removes(rt: &HostRuntime, name: &str) -> bool {
    fs::remove_file(rt, name).is_ok()
}

/// Removes a folder with all that is in it.
pub(super) fn clears(rt: &HostRuntime, folder: &str) -> bool {
    fs::remove_dir_all(rt, folder).is_ok()
}

/// Whether the file of a name holds these bytes.
pub(super) fn holds(rt: &HostRuntime, name: &str, text: &[u8]) -> bool {
    match fs::read(rt, name) {
        Ok(found) => found.as_slice() == text,
        Err(_) => false,
    }
}

/// Whether there is nothing of this name.
pub(super) fn is_missing(rt: &HostRuntime, name: &str) -> bool {
    match fs::symlink_metadata(rt, name) {
        Ok(_) => false,
        Err(error) => error.kind() == ErrorKind::NotFound,
    }
}

/// Whether there is a link of this name.
pub(super) fn is_link(rt: &HostRuntime, name: &str) -> bool {
    fs::read_link(rt, name).is_ok()
}

/// Makes a folder with a state, and a link beside that folder that leads to it.
pub(super) fn begins_with_a_link(rt: &HostRuntime) -> bool {
    begins(rt, "file_store_links")
        && makes_folder(rt, "file_store_links/real")
        && puts(rt, "file_store_links/real/state", b"a")
        && links(rt, "real/state", "file_store_links/link")
}
