//! What a signed job gives.
ghost use Rattle.std.specs.Prelude.{◌≡◌, ◌<◌};
ghost use Rattle.lms_spec.specs.Hss.{capacity_of, HssAccepts};
ghost use Rattle.lms_spec.specs.Profile.{hss_public_key};
ghost use Rattle.lms_hss.specs.Keys.{hss_key_of};
ghost use Rattle.lms_batch.specs.Jobs.{text_of, signature_of, IsSigned};

use crate::job::Job;
use lms_hss::HssKey;
use std::marker::Model;

/// The signature of a job, with its place and its index. `OpenLease::sign_with` alone makes one. It
/// contains the private key.
#[derive(Drop)]
pub struct Receipt<'j> {
    pub(crate) key: HssKey,
    pub(crate) place: u64,
    pub(crate) index: u64,
    pub(crate) job: &'j Job,
    pub(crate) signature: Vec<u8>,
}

impl<'j> Model for Receipt<'j> {
    ghost use Rattle.lms_batch.specs.Jobs.{SignedJob, IsSigned, text_of};

    ghost Value = { SignedJob };

    ghost view = { λ r. record {
      key = r.key;
      place = r.place;
      index = r.index;
      job = text_of r.job.now;
      signature = r.signature.items;
    } };

    ghost invariant = { λ r. IsSigned (record {
      key = r.key;
      place = r.place;
      index = r.index;
      job = text_of r.job.now;
      signature = r.signature.items;
    }) };
}

impl<'j> Receipt<'j> {
    /// The private key that signed.
    pub fn key(&self) -> HssKey
        ensures { result ≡ self.now.key }
    {
        self.key
    }

    /// The place of the lease at which it was signed.
    pub fn place(&self) -> u64
        ensures { result ≡ self.now.place }
    {
        self.place
    }

    /// The index by which it was signed.
    pub fn index(&self) -> u64
        ensures index { result ≡ self.now.index }
        ensures within { result < capacity_of (hss_key_of self.now.key) }
    {
        self.index
    }

    /// The job that was signed.
    pub fn job(&self) -> &'j Job
        ensures { text_of result.now ≡ self.now.job }
    {
        self.job
    }

    /// The signature.
    pub fn signature(&self) -> &[u8]
        ensures value { result.now ≡ self.now.signature }
        ensures signed { result.now ≡ signature_of self.now.key self.now.index self.now.job }
        ensures accepted { HssAccepts
            (hss_public_key (hss_key_of self.now.key)) self.now.job.message result.now }
    {
        self.signature.as_slice()
    }

    /// The signature, for keeping.
    pub fn into_signature(self) -> Vec<u8>
        ensures value { result.items ≡ self.entry.signature }
        ensures signed { IsSigned self.entry }
    {
        let Receipt {
            key: _,
            place: _,
            index: _,
            job: _,
            signature,
        } = self;
        signature
    }
}
