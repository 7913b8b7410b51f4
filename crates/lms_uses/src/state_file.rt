//! A message signed by a key whose state is in a file.
ghost use Rattle.std.specs.Prelude.{◌≡◌, IfOk, OnOk};
ghost use Rattle.lms_spec.specs.Hss.{HssAccepts};
ghost use Rattle.lms_spec.specs.Profile.{hss_public_key};
ghost use Rattle.lms_hss.specs.Keys.{hss_key_of};
ghost use Rattle.lms_image.specs.Image.{image_of};
ghost use Rattle.lms_book.specs.States.{LeaseState};
ghost use Rattle.lms_book.specs.Books.{Reserves};
ghost use Rattle.lms_files.specs.Files.{AreWritten};

use anyhow::{Result, bail};
use lms_book::{Book, Image, Lease, StateStore, encode_image};
use lms_file_store::{FileStore, TryLock, lock};
use lms_hss::{Forest, HASH_LEN, HSS_KEY_LEN, HssKey, OutOfMemory};
use std::alloc::Global;
use std::rt::Files;
use std::thread::Threads;

/// A signature, its index, and the public key that it is valid under.
#[derive(Drop)]
pub struct Signed {
    pub public: [u8; HSS_KEY_LEN],
    pub index: u64,
    pub signature: Vec<u8>,
}

/// Writes the state of a new key, of which no index is used, to a file. This is done once in a
/// key's life, so a file that is there is an error.
pub fn make_state<R: Files + Sync>(files: &R, alloc: Global, name: &str, key: HssKey) -> Result<()>
where
    R::File: TryLock,
    ensures { OnOk result (AreWritten R.File R.File.contents (image_of key 0 0 0)) }
{
    let held = lock(files, alloc, name)?;
    if held.is_of_a_state(files) {
        bail!("there is a state");
    }
    let mut store = FileStore::locked(alloc, files, &held)?;
    store.replace(encode_image(&Image::unused(key)).as_slice())?;
    Ok(())
}

/// Signs a message by the next index of the key whose state is in a file, under a randomizer, which
/// no other signature may have. The use of the index is in the file before the signature is made.
/// Nobody else signs by the key meanwhile: its state is locked. A program hands its runtime in
/// twice, for threads and for files. No contract says which key the file has. An error where the
/// state can't be locked, read or written, or is no image, where the key is exhausted, and where
/// memory is refused.
pub fn sign_from_file(
    rt: &(impl Threads + Sync),
    files: &HostRuntime,
    alloc: Global,
    name: &str,
    randomizer: &[u8; HASH_LEN],
    message: &[u8],
) -> Result<Signed>
    ensures { IfOk result (λ signed.
        HssAccepts signed.public message.now signed.signature.items) }
{
    let held = lock(files, alloc, name)?;
    let store = FileStore::locked(alloc, files, &held)?;
    let mut book = Book::open(alloc, store).map_err(|(fault, _)| fault)?;
    sign_reserved(rt, alloc, &mut book, randomizer, message)
}

/// Signs a message by the next index of a book, over a store of any kind. An error where the book
/// refuses the index, and where memory to sign is refused, which leaves the index used.
pub fn sign_reserved<S: StateStore>(
    rt: &(impl Threads + Sync),
    alloc: Global,
    book: &mut Book<S>,
    randomizer: &[u8; HASH_LEN],
    message: &[u8],
) -> Result<Signed>
    ensures reserved { IfOk result (λ signed. (lease : LeaseState)
        × Reserves 1 book.old (Ok lease) book.new × (signed.index ≡ lease.start)) }
    ensures key { IfOk result (λ signed.
        signed.public ≡ hss_public_key (hss_key_of book.old.key)) }
    ensures accepted { IfOk result (λ signed.
        HssAccepts signed.public message.now signed.signature.items) }
{
    let lease = book.reserve(1)?;
    // A lease can't be dropped, so the `?` of what it is used for comes after `give_back`.
    let signed = sign_first(rt, alloc, &lease, randomizer, message);
    book.give_back(lease);
    Ok(signed?)
}

/// Signs a message by the first index of a lease, whose trees are computed for that. `OutOfMemory`
/// where memory is refused.
fn sign_first(
    rt: &(impl Threads + Sync),
    alloc: Global,
    lease: &Lease,
    randomizer: &[u8; HASH_LEN],
    message: &[u8],
) -> Result<Signed, OutOfMemory>
    ensures index { IfOk result (λ signed. signed.index ≡ lease.now.start) }
    ensures key { IfOk result (λ signed.
        signed.public ≡ hss_public_key (hss_key_of lease.now.key)) }
    ensures accepted { IfOk result (λ signed.
        HssAccepts signed.public message.now signed.signature.items) }
{
    let index = lease.start();
    let forest = Forest::cover(rt, alloc, lease.key(), index, lease.len())?;
    let signature = forest.sign(index, randomizer, message)?;
    Ok(Signed {
        public: forest.public(),
        index,
        signature,
    })
}
