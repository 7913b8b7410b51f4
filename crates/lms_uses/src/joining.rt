//! A top key endorses a signer's key, whose signatures are then joined with the endorsement.
ghost use Rattle.std.specs.Prelude.{ℕ, List, ◌≡◌, ◌↔◌, drop, IfOk, IfSome};
ghost use Rattle.lms_spec.specs.Hss.{HssAccepts};
ghost use Rattle.lms_spec.specs.Profile.{hss_public_key};
ghost use Rattle.lms_hss.specs.Keys.{hss_key_of};
ghost use Rattle.lms_book.specs.States.{LeaseState};
ghost use Rattle.lms_book.specs.Books.{Reserves};

use crate::state_file::{Signed, sign_reserved};
use anyhow::Result;
use lms_book::{Book, StateStore};
use lms_hss::{ByEights, HASH_LEN, HSS_KEY_LEN};
use lms_join::Endorsement;
use std::alloc::Global;
use std::thread::Threads;

/// A signature by a signer's key that was joined with an endorsement, and the public key that it is
/// valid under.
#[derive(Drop)]
pub struct Joined {
    pub public: [u8; HSS_KEY_LEN],
    pub signature: Vec<u8>,
}

/// Endorses a signer's public key by the next index of a top key's book: the message that is signed
/// is the signer's key without its first four bytes, which count its levels. An error where the
/// book refuses the index, and where memory to sign is refused, which leaves the index used.
pub fn endorse<S: StateStore>(
    rt: &(impl Threads + Sync),
    alloc: Global,
    top: &mut Book<S>,
    randomizer: &[u8; HASH_LEN],
    signer: &[u8; HSS_KEY_LEN],
) -> Result<Signed>
    ensures reserved { IfOk result (λ endorsement. (lease : LeaseState)
        × Reserves 1 top.old (Ok lease) top.new × (endorsement.index ≡ lease.start)) }
    ensures key { IfOk result (λ endorsement.
        endorsement.public ≡ hss_public_key (hss_key_of top.old.key)) }
    ensures accepted { IfOk result (λ endorsement.
        HssAccepts endorsement.public (drop 4 signer.now) endorsement.signature.items) }
{
    sign_reserved(rt, alloc, top, randomizer, &signer[4..])
}

/// Joins a signature by a signer's key with a top key's endorsement of that key. `None` where it is
/// malformed, or one of its signed keys is not accepted: it is valid for no message then. An error where the keys can't be joined, where the endorsement
/// is not valid, and where memory is refused.
pub fn join(
    alloc: Global,
    endorsement: &Signed,
    signer: &[u8; HSS_KEY_LEN],
    signature: &[u8],
) -> Result<Option<Joined>>
    ensures { IfOk result (λ found. IfSome found (λ joined. (message : List ℕ)
        → (HssAccepts joined.public message joined.signature.items
        ↔ HssAccepts signer.now message signature.now))) }
{
    let endorsement = Endorsement::new(
        &endorsement.public,
        &endorsement.signature,
        signer,
        ByEights,
    )?;
    match endorsement.join(alloc, signature, ByEights)? {
        Some(signature) => Ok(Some(Joined {
            public: endorsement.public(),
            signature,
        })),
        None => Ok(None),
    }
}
