//! The lock on a store's file.
ghost use Rattle.std.specs.Prelude.{◌≡◌, IfOk, OnOk, string_bytes};

use lms_files::paths::{LOCK, OWNER_ONLY, exists, resolve, sibling};
use std::alloc::Global;
use std::fs::{File, OpenOptions};
use std::io;
use std::os::unix::fs::OpenOptionsExt;
use std::rt::Files;

/// An open file that can be locked.
pub trait TryLock {
    /// The lock is acquired.
    ghost is_locked: { Self → Type 0 };

    /// Tries to lock the whole file, without waiting. `Ok` only where it is locked now, which it stays
    /// until it is dropped; an error of the kind `WouldBlock` where another has the lock.
    fn try_lock(&self) -> io::Result<()>
        ensures { OnOk result (is_locked self.now) };
}

impl TryLock for File {
    ghost is_locked = { λ _. Unit {0} };

    fn try_lock(&self) -> io::Result<()> {
        Ok(File::try_lock(self)?)
    }
}

/// The lock on a state's file, held until it is dropped.
#[derive(Drop)]
pub struct StateLock<F> {
    // Where the state's name led to when it was locked.
    path: String,
    file: F,
}

impl<F> StateLock<F> {
    /// The path of the state's file.
    pub(crate) fn path(&self) -> &str
        ensures { result.now ≡ string_bytes self.now.path }
    {
        self.path.as_str()
    }

    /// Whether the state's file exists, or anything else of its name; true also where that can't be
    /// known. A new state that is written only where this is false replaces nothing.
    pub fn is_of_a_state<R: Files>(&self, files: &R) -> bool {
        exists(files, self.path())
    }
}

/// Locks the state of this name, without waiting, against other programs that call this, until the
/// lock is dropped.
///
/// An error where the state's name can't be resolved, where the lock's file can't be opened or
/// locked, and where memory for its path is refused: of the kind `WouldBlock` where another holds the
/// lock. What each means says `LockFault::of`.
///
/// The locked file is `NAME.lock` beside the state, where NAME is that of the state's file after
/// symbolic links. It stays there and must not be removed: two programs could then hold a lock
/// each, one on the old file and one on a new one.
pub fn lock<R: Files>(files: &R, alloc: Global, name: &str) -> io::Result<StateLock<R::File>>
where
    R::File: TryLock,
    ensures { IfOk result (λ lock. R.File.is_locked lock.file) }
{
    let path = resolve(files, alloc, name)?;
    let beside = sibling(alloc, path.as_str(), LOCK)?;
    let file = OpenOptions::new()
        .write(true)
        .create(true)
        .mode(OWNER_ONLY)
        .open(files, beside.as_str())?;
    file.try_lock()?;
    Ok(StateLock { path, file })
}
