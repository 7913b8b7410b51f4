//! A signer's key that is to be endorsed.
ghost use Rattle.std.specs.Prelude.{ℕ, ◌≡◌, IfErr, IfOk, IsFalse, IsTrue};
ghost use Rattle.std.specs.Bool.{Decides};
ghost use Rattle.lms_commands.specs.declared.fault.Fault.TheVariants.{BadLevels};
ghost use Rattle.lms_endorse.specs.EndorseLogs.{IsNoOrder};
ghost use Rattle.lms_endorse.specs.Endorsing.{IsJoinedText, MayEndorse};
ghost use Rattle.lms_endorse.specs.Orders.{IsOrder, IsOrderOf};

use lms_batch::Job;
use lms_commands::Fault;
use lms_hss::{HssKey, MOST_LEVELS};
use lms_join::Key;
use lms_params::HASH_LEN;
use lms_texts::decimal_number;
use std::alloc::Global;

/// A signer's public key that is to be endorsed.
#[derive(Drop)]
pub(crate) struct Order<'a> {
    /// The public key, whole.
    pub(crate) signer: &'a [u8],
    /// Its parts.
    pub(crate) key: Key<'a>,
    /// What is signed: its LMS public key, under a randomizer.
    pub(crate) job: Job,
    /// How many levels the top key and the signer's have together.
    pub(crate) joined: u32,
}

impl<'a> Order<'a> {
    /// What is asked for of these bytes. `BadPublicKey` where they are no HSS public key of known
    /// typecodes, and else `OutOfMemory` where memory for what is signed is refused.
    pub(crate) fn new(
        alloc: Global,
        c: [u8; HASH_LEN],
        signer: &'a [u8],
        joined: u32,
    ) -> Result<Self, Fault>
        ensures order { IfOk result (λ order. IsOrderOf order c signer.now joined) }
        ensures none { IfErr result (λ fault. IsNoOrder signer.now fault) }
    {
        let Some(key) = Key::parse(signer) else {
            return Err(Fault::BadPublicKey);
        };
        let lms_key = key.lms_key;
        let Ok(message) = Vec::from_slice(alloc, lms_key) else {
            return Err(Fault::OutOfMemory);
        };
        Ok(Order {
            signer,
            key,
            job: Job { c, message },
            joined,
        })
    }

    /// Whether this key may endorse it: both have together as many levels as joined keys, and other
    /// identifiers.
    pub(crate) fn is_for(&self, key: &HssKey) -> bool
        requires { IsOrder self.now }
        ensures may { IsTrue result → MayEndorse key.now self.now.signer.now self.now.joined }
        ensures never { IsFalse result → ¬ MayEndorse key.now self.now.signer.now self.now.joined }
    {
        let levels = key.levels.as_slice().len();
        if levels + self.key.levels as usize != self.joined as usize {
            return false;
        }
        !same_id(&key.i, &self.key.id())
    }
}

/// Whether two identifiers are the same.
fn same_id(a: &[u8; 16], b: &[u8; 16]) -> bool
    ensures { Decides result (a.now ≡ b.now) }
{
    a == b
}

/// How many levels joined keys have: a number from 2 to 8 in decimal, else `BadLevels`.
pub(crate) fn joined_from(text: &str) -> Result<u32, Fault>
    ensures some { IfOk result (λ joined. IsJoinedText text.now joined) }
    ensures bad { IfErr result (λ fault. fault ≡ BadLevels) }
    ensures none { IfErr result (λ _. (joined : ℕ) → ¬ IsJoinedText text.now joined) }
{
    match decimal_number(text) {
        Some(joined) if 2 <= joined && joined <= MOST_LEVELS as u64 => Ok(joined as u32),
        _ => Err(Fault::BadLevels),
    }
}
