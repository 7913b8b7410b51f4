//! Receipts are gathered into a batch.
ghost use Rattle.std.specs.Prelude.{◌≡◌, ◌↔◌, Some, None, IfOk, OnOk, IfErr, IsTrue, IsSome, MatchBool, Contains, All};
ghost use Rattle.lms_batch.specs.Jobs.{texts_of};
ghost use Rattle.lms_batch.specs.Batches.{IsSameBatch, none_of, with_signature};
ghost use Rattle.lms_batch.specs.Takes.{Belongs, IsEmpty, IsFault, IsBatchOf};

use crate::fault::TakeFault;
use crate::job::Job;
use crate::receipt::Receipt;
use lms_hss::{HssKey, same_key};
use lms_params::OutOfMemory;
use std::alloc::Global;
use std::marker::Model;

/// The signatures of a list of jobs, by indices from `start` on.
#[derive(Drop)]
pub enum Batch {
    /// Of all jobs, in their order.
    Complete {
        start: u64,
        signatures: Vec<Vec<u8>>,
    },
    /// Of some of them or none: a slot for each job, in their order, of which at least one is
    /// empty.
    Partial {
        start: u64,
        slots: Vec<Option<Vec<u8>>>,
    },
}

/// Puts the receipts of a list of jobs in order. Contracts see the key, the first index, the jobs,
/// and a slot for each.
#[derive(Drop)]
pub struct Collector<'j> {
    key: HssKey,
    start: u64,
    jobs: &'j [Job],
    slots: Vec<Option<Vec<u8>>>,
    // Capacity for the list of a complete batch.
    signatures: Vec<Vec<u8>>,
}

impl<'j> Model for Collector<'j> {
    ghost use Rattle.std.specs.Prelude.{vec_len, vec_capacity};
    ghost use Rattle.lms_batch.specs.Jobs.{texts_of};
    ghost use Rattle.lms_batch.specs.Batches.{Collected, IsCollecting, contents};

    ghost Value = { Collected };

    ghost view = { λ c. record {
      key = c.key;
      start = c.start;
      jobs = texts_of c.jobs.now;
      slots = contents c.slots.items;
    } };

    ghost invariant = { λ c. IsCollecting
        (record {
          key = c.key;
          start = c.start;
          jobs = texts_of c.jobs.now;
          slots = contents
              c.slots.items;
        })
        (vec_len c.slots) c.signatures.items (vec_capacity c.signatures) };
}

impl<'j> Collector<'j> {
    /// A collector for these jobs, of which the one at place k is to be signed by index `start` + k
    /// of the key. All memory that it and its batch need is taken here: `OutOfMemory` where it is
    /// refused.
    pub fn new(alloc: Global, key: HssKey, start: u64, jobs: &'j [Job]) -> Result<Self, OutOfMemory>
        ensures { IfOk result (λ c. c ≡ none_of key start (texts_of jobs.now)) }
    {
        let mut slots = Vec::with_capacity(alloc, jobs.len())?;
        let signatures = Vec::with_capacity(alloc, jobs.len())?;
        for _ in jobs {
            slots.push(None)?;
        }
        Ok(Collector {
            key,
            start,
            jobs,
            slots,
            signatures,
        })
    }

    /// Puts the signature of a receipt into the slot of its place.
    ///
    /// `Stranger` where the receipt is of another key, where its index is not the first one plus
    /// its place, where its place is past the jobs, or where its job is not the one of that place;
    /// else `Twice` where the slot is filled. Both hand the receipt back and change nothing.
    pub fn take(&mut self, receipt: Receipt<'j>) -> Result<(), (TakeFault, Receipt<'j>)>
        ensures taken { OnOk result (Belongs self.old receipt.entry
            × IsEmpty self.old receipt.entry.place
            × (self.new ≡ with_signature self.old receipt.entry)) }
        ensures refused { IfErr result (λ e. IsFault e.0 self.old receipt.entry
            × (self.new ≡ self.old) × (e.1 ≡ receipt.entry)) }
        ensures batch { IsSameBatch self.old self.new }
    {
        if !self.is_of_batch(&receipt) {
            return Err((TakeFault::Stranger, receipt));
        }
        let place = receipt.place() as usize;
        if self.slots[place].is_some() {
            return Err((TakeFault::Twice, receipt));
        }
        self.slots[place] = Some(receipt.into_signature());
        Ok(())
    }

    /// Whether the receipt is of the key, with the index and the job of its place.
    fn is_of_batch(&self, receipt: &Receipt<'j>) -> bool
        ensures { IsTrue result ↔ Belongs self.now receipt.now }
    {
        let place = receipt.place();
        if place >= self.jobs.len() as u64 {
            return false;
        }
        same_key(&receipt.key(), &self.key)
            && receipt.index().checked_sub(self.start) == Some(place)
            && receipt.job().is_same(&self.jobs[place as usize])
    }

    /// The batch: complete exactly where every slot is filled.
    pub fn finish(self) -> Batch
        ensures { IsBatchOf self.entry result }
    {
        let Collector {
            key: _,
            start,
            jobs: _,
            slots,
            mut signatures,
        } = self;
        if has_gap(slots.as_slice()) {
            return Batch::Partial { start, slots };
        }
        for slot in slots {
            if let Some(signature) = slot {
                signatures.push_reserved(signature);
            }
        }
        Batch::Complete { start, signatures }
    }
}

/// Whether a slot is empty.
fn has_gap(slots: &[Option<Vec<u8>>]) -> bool
    ensures { MatchBool result (Contains slots.now None) (All IsSome slots.now) }
{
    slots.iter().any(|slot| slot.is_none())
}
