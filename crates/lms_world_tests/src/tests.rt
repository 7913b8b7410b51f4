mod nodes;
mod notes;
mod outputs;
mod poor;
mod replays;
mod trials;
mod witness;

use self::trials::{Trial, on_disk, on_poor_files};
use lms_world::{Contents, Taker, World, WorldFault};
use std::alloc::Global;
use std::fs;
use std::os::unix::fs::symlink;
use std::test::Fail;

/// Makes an empty folder, in place of one that an earlier run left.
fn begins(rt: &HostRuntime, folder: &str) -> bool {
    let _ = fs::remove_dir_all(rt, folder);
    makes_folder(rt, folder)
}

/// Makes a folder.
fn makes_folder(rt: &HostRuntime, name: &str) -> bool {
    fs::create_dir(rt, name).is_ok()
}

/// Makes these the bytes of a file.
fn puts(rt: &HostRuntime, name: &str, bytes: &[u8]) -> bool {
    fs::write(rt, name, bytes).is_ok()
}

/// Makes a link.
fn links(rt: &HostRuntime, original: &str, name: &str) -> bool {
    symlink(rt, original, name).is_ok()
}

/// Removes a file.
fn removes(rt: &HostRuntime, name: &str) -> bool {
    fs::remove_file(rt, name).is_ok()
}

/// Whether nothing is found by a name.
fn is_missing(rt: &HostRuntime, name: &str) -> bool {
    fs::metadata(rt, name).is_err()
}

/// Removes a folder with all that is in it.
fn clears(rt: &HostRuntime, folder: &str) -> bool {
    fs::remove_dir_all(rt, folder).is_ok()
}

/// Whether a world reads these bytes from the file of a name.
fn reads<W: World>(alloc: Global, world: &mut W, name: &str, bytes: &[u8]) -> bool {
    match world.read(alloc, name) {
        Ok(found) => found.as_slice() == bytes,
        Err(_) => false,
    }
}

/// Compares what it takes with other bytes.
#[derive(Drop)]
struct Comparing<'a> {
    left: &'a [u8],
    is_same: bool,
    longest: usize,
}

impl Taker for Comparing<'_> {
    ghost after = { λ _ _ _. Unit {0} };

    fn take(&mut self, piece: &[u8]) {
        self.longest = self.longest.max(piece.len());
        match self.left.strip_prefix(piece) {
            Some(left) => self.left = left,
            None => self.is_same = false,
        }
    }

    ghost none = { λ _. tt };

    ghost more = { λ _ _ _ _ _ _ _. tt };
}

/// Whether a world hands these bytes over from the file of a name, none of the pieces over 4 KiB.
fn hands_over<W: World>(alloc: Global, world: &mut W, name: &str, bytes: &[u8]) -> bool {
    let mut comparing = Comparing {
        left: bytes,
        is_same: true,
        longest: 0,
    };
    match world.open(alloc, name) {
        Ok(contents) => {
            contents.hand_over(&mut comparing).is_ok()
                && comparing.is_same
                && comparing.left.is_empty()
                && comparing.longest <= 4096
        }
        Err(_) => false,
    }
}

/// Whether a file is opened, and then can't be read.
fn breaks_off<W: World>(alloc: Global, world: &mut W, name: &str) -> bool {
    let mut comparing = Comparing {
        left: b"",
        is_same: true,
        longest: 0,
    };
    match world.open(alloc, name) {
        Ok(contents) => contents.hand_over(&mut comparing) == Err(WorldFault::Device),
        Err(_) => false,
    }
}

/// Whether a world writes these bytes to the file of a name.
fn writes<W: World>(alloc: Global, world: &mut W, name: &str, bytes: &[u8]) -> bool {
    match world.plan_output(alloc, name) {
        Ok(output) => world.write(output, bytes).is_ok(),
        Err(_) => false,
    }
}

/// The same, where the file is to be flushed.
fn flushes<W: World>(alloc: Global, world: &mut W, name: &str, bytes: &[u8]) -> bool {
    match world.plan_output(alloc, name) {
        Ok(output) => world.write_flushed(output, bytes).is_ok(),
        Err(_) => false,
    }
}

/// Whether the file of a name holds these bytes.
fn holds(rt: &HostRuntime, name: &str, bytes: &[u8]) -> bool {
    match fs::read(rt, name) {
        Ok(found) => found.as_slice() == bytes,
        Err(_) => false,
    }
}

/// Whether the store of a lock is taken and put back.
fn lends_a_store<W: World>(alloc: Global, world: &mut W, lock: &W::Lock) -> bool {
    match world.take_store(alloc, lock) {
        Ok(store) => {
            world.put_back(lock, store);
            true
        }
        Err(_) => false,
    }
}

const LARGE: &str = "disk_world_large/text";

/// Whether a world reads these bytes of the file of a name, and hands them over.
fn finds_whole<W: World>(alloc: Global, world: &mut W, name: &str, bytes: &[u8]) -> bool {
    reads(alloc, world, name, bytes) && hands_over(alloc, world, name, bytes)
}

/// Whether these bytes are written and read whole, also by poor files, which then replace them.
fn is_whole(rt: &HostRuntime, bytes: &[u8]) -> bool {
    on_disk(rt, Trial::Writes(LARGE, bytes))
        && on_disk(rt, Trial::FindsWhole(LARGE, bytes))
        && on_poor_files(rt, false, Trial::FindsWhole(LARGE, bytes))
        && holds(rt, LARGE, bytes)
        && removes(rt, LARGE)
        && on_poor_files(rt, false, Trial::Writes(LARGE, bytes))
        && holds(rt, LARGE, bytes)
        && on_poor_files(rt, false, Trial::Flushes(LARGE, b"a public key"))
        && holds(rt, LARGE, b"a public key")
}

/// Many bytes are read and written whole: three times 1 MiB and some more.
#[test]
fn a_large_file_is_whole(rt: HostRuntime) -> Result<(), Fail> {
    let text = "pattern".repeat(rt.alloc(), 449_391)?;
    assert!(rt;
        begins(&rt, "disk_world_large")
            && is_whole(&rt, text.as_bytes())
            && clears(&rt, "disk_world_large")
    );
    Ok(())
}

/// Whether a world reads a file that has any bytes.
fn reads_some<W: World>(alloc: Global, world: &mut W, name: &str) -> bool {
    match world.read(alloc, name) {
        Ok(text) => !text.is_empty(),
        Err(_) => false,
    }
}

/// A file that reports a size of 0 and holds more is read whole.
#[test]
fn a_file_that_tells_no_size_is_whole(rt: HostRuntime) {
    let name = "/proc/self/stat";
    let tells_none = match fs::metadata(&rt, name) {
        Ok(found) => found.len() == 0,
        Err(_) => false,
    };
    assert!(rt; tells_none && on_disk(&rt, Trial::ReadsSome(name)));
}

/// A folder can be opened, and not be read.
#[test]
fn a_folder_breaks_off(rt: HostRuntime) {
    assert!(rt;
        begins(&rt, "disk_world_folder")
            && on_disk(&rt, Trial::BreaksOff("disk_world_folder"))
            && !on_disk(&rt, Trial::HandsOver("disk_world_folder/none", b""))
            && clears(&rt, "disk_world_folder")
    );
}

/// Whether the state of a name exists, once it is locked. `None` where it is not.
fn is_there<W: World>(alloc: Global, world: &mut W, name: &str) -> Option<bool> {
    match world.lock(alloc, name) {
        Ok(lock) => {
            let exists = world.exists(&lock);
            world.unlock(lock);
            Some(exists)
        }
        Err(_) => None,
    }
}

/// Whether the state of a name is removed once it is locked, and exists then to a world.
fn is_there_when_removed<W: World>(rt: &HostRuntime, world: &mut W, name: &str) -> bool {
    match world.lock(rt.alloc(), name) {
        Ok(lock) => {
            let exists = removes(rt, name) && world.exists(&lock);
            world.unlock(lock);
            exists
        }
        Err(_) => false,
    }
}

/// Whether states are looked up, which are there, are not, or can't be locked, as that of a long name.
fn are_looked_up(rt: &HostRuntime, long: &str) -> bool {
    let name = "disk_world_names/file";
    puts(rt, name, b"")
        && on_disk(rt, Trial::IsThere("disk_world_names/state", Some(false)))
        && on_disk(rt, Trial::IsThere(name, Some(true)))
        && on_disk(rt, Trial::IsThere("disk_world_names/file/state", None))
        && on_disk(rt, Trial::IsThere(long, None))
        && on_poor_files(rt, true, Trial::IsThereWhenRemoved(name))
}

#[test]
fn what_can_not_be_looked_up_exists(rt: HostRuntime) -> Result<(), Fail> {
    let long = "n".repeat(rt.alloc(), 5000)?;
    let is_begun = begins(&rt, "disk_world_names");
    let is_right = are_looked_up(&rt, long.as_str());
    assert!(rt; is_begun && is_right && clears(&rt, "disk_world_names"));
    Ok(())
}
