//! A message signed by tree nodes that are kept in a file beside the key's state.
ghost use Rattle.std.specs.Prelude.{ℕ, List, IfOk, Option};
ghost use Rattle.lms_hss.specs.declared.key.HssKey.{HssKey as KeyOfCode};
ghost use Rattle.lms_kept.specs.Signed.{IsSignedByText};

use anyhow::Result;
use lms_book::Book;
use lms_file_store::{FileStore, lock};
use lms_hss::{HASH_LEN, Unwatched};
use lms_kept::{KeptSignature, MOST_TEXT_LEN, sign_lease};
use std::alloc::Global;
use std::thread::Threads;

/// Signs a message by the next index of the key whose state is in a file, by the nodes that are
/// kept beside it, and keeps those that were computed in their place. Where nodes can't be read
/// this signature takes longer, and where they can't be written the next one does; the signatures
/// are the same. No contract says that the file has this key's state. An error where the state
/// can't be locked, read or written, or is no image, where the key is exhausted, and where memory
/// is refused.
pub fn sign_by_kept_nodes(
    rt: &(impl Threads + Sync),
    files: &HostRuntime,
    alloc: Global,
    name: &str,
    randomizer: &[u8; HASH_LEN],
    message: &[u8],
) -> Result<KeptSignature>
    ensures { IfOk result (λ signed. (key : KeyOfCode) × (text : Option (List ℕ)) × IsSignedByText
        text key signed.index randomizer.now message.now signed.signature.items signed.trees) }
{
    let held = lock(files, alloc, name)?;
    let kept = held.read_nodes(files, alloc, MOST_TEXT_LEN);
    let store = FileStore::locked(alloc, files, &held)?;
    let mut book = Book::open(alloc, store).map_err(|(fault, _)| fault)?;
    let lease = book.reserve(1)?;
    let signed = sign_lease(
        rt,
        alloc,
        lease,
        randomizer,
        message,
        kept.as_deref(),
        &Unwatched,
    )?;
    if let Some(trees) = &signed.trees {
        if let Ok(text) = trees.text(alloc) {
            let _ = held.write_nodes(files, alloc, &text);
        }
    }
    Ok(signed)
}
