//! The paths of a store's files.
ghost use Rattle.std.specs.Prelude.{◌≡◌, ◌++◌, IfOk, string_bytes};
ghost use Rattle.lms_files.specs.Files.{folder_of};

use std::alloc::{AllocError, Global};
use std::io::ErrorKind;
use std::path::Path;
use std::rt::Files;
use std::{fs, io};

/// How the name of a draft ends, after that of the file that it is to replace.
pub const DRAFT: &str = ".new";

/// How the name of the file of kept nodes ends, after that of the state.
pub const NODES: &str = ".nodes";

/// How the name of the draft of kept nodes ends, after that of the state.
pub const NODES_DRAFT: &str = ".nodes.new";

/// How the name of a state's lock ends, after that of the state.
pub const LOCK: &str = ".lock";

/// How the name of a witness ends, after that of the state.
pub const WITNESS: &str = ".witness";

/// Reading and writing for the owner alone, since the state holds the secret seed.
pub const OWNER_ONLY: u32 = 0o600;

/// The path of a file after symbolic links. The name itself where nothing has that name; an error
/// where it isn't known where the name leads, as with a link to a file that doesn't exist.
pub fn resolve<R: Files>(files: &R, alloc: Global, name: &str) -> io::Result<String> {
    match files.canonicalize(alloc, name) {
        Ok(path) => Ok(path.into_string()),
        Err(error) if error.kind() == ErrorKind::NotFound && !exists(files, name) => {
            Ok(String::from_str(alloc, name)?)
        }
        Err(error) => Err(error),
    }
}

/// The path with this ending after it: that of another file in the same folder. An error where
/// memory is refused.
pub fn sibling(alloc: Global, path: &str, ending: &str) -> Result<String, AllocError>
    ensures { IfOk result (λ sibling. string_bytes sibling ≡ path.now ++ ending.now) }
{
    let mut sibling = String::from_str(alloc, path)?;
    sibling.push_str(ending)?;
    Ok(sibling)
}

/// The folder of a file: `.` where the path has no folder part.
pub fn folder_of(path: &str) -> &str
    ensures { result.now ≡ folder_of path.now }
{
    match Path::new(path).parent() {
        Some(folder) if !folder.as_str().is_empty() => folder.as_str(),
        _ => ".",
    }
}

/// Whether there is a file, a folder or a link of this name; true also where that can't be known.
pub fn exists<R: Files>(files: &R, name: &str) -> bool {
    match fs::symlink_metadata(files, name) {
        Ok(_) => true,
        Err(error) => error.kind() != ErrorKind::NotFound,
    }
}
