//! What is to be computed for an index, with all memory for it: no step that computes takes an
//! allocator.
ghost use Rattle.std.specs.Prelude.{ℕ, ◌≡◌, ◌<◌, List, IfOk, Option};
ghost use Rattle.lms_spec.specs.Hss.{capacity_of};
ghost use Rattle.lms_hss.specs.Keys.{hss_key_of};
ghost use Rattle.lms_kept.specs.Planned.{PlansSignature, PlansTrees};
ghost use Rattle.lms_kept.specs.Signed.{IsNotRight, IsSignedByText};
ghost use Rattle.lms_kept.specs.Ways.{AreGenuine, IsWay, Serves};

use crate::kept_level::KeptLevel;
use crate::kept_trees::KeptTrees;
use crate::levels::leaves_from;
use crate::planned_level::{PlannedLevel, planned_levels};
use crate::signing::KeptSignature;
use lms_hss::{HssKey, Progress};
use lms_params::{HASH_LEN, OutOfMemory};
use lms_tree::Begun;
use std::alloc::Global;
use std::thread::Threads;

/// The trees that an index goes through, before any of them is computed.
#[derive(Drop)]
pub(crate) struct PlannedTrees {
    key: HssKey,
    at: u64,
    levels: Vec<KeptLevel>,
    top: PlannedLevel,
    below: Vec<PlannedLevel>,
}

impl PlannedTrees {
    /// Plans the trees that index `at` goes through, with all memory for them. `OutOfMemory` where
    /// that is refused.
    pub(crate) fn new(alloc: Global, key: HssKey, at: u64) -> Result<Self, OutOfMemory>
        requires { at < capacity_of (hss_key_of key) }
        ensures { IfOk result (PlansTrees key at) }
    {
        let levels = Vec::with_capacity(alloc, key.levels.as_slice().len())?;
        let top = PlannedLevel::new(alloc, &key, at, 0)?;
        let below = planned_levels(alloc, &key, at, 1)?;
        Ok(PlannedTrees {
            key,
            at,
            levels,
            top,
            below,
        })
    }

    /// Computes the planned trees, level by level from the top. The leaves of all these trees are
    /// reported to `progress`.
    pub(crate) fn compute(self, rt: &(impl Threads + Sync), progress: &impl Progress) -> KeptTrees
        requires { PlansTrees self.key self.at self }
        ensures key { result.key ≡ self.key }
        ensures at { result.at ≡ self.at }
        ensures serves { Serves result self.at }
        ensures way { IsWay result }
        ensures genuine { AreGenuine result }
    {
        let PlannedTrees {
            key,
            at,
            mut levels,
            top,
            below,
        } = self;
        let begun = Begun::new(progress, leaves_from(&key, 0));
        levels.push_reserved(KeptLevel::top(rt, top, &begun));
        KeptTrees::completed(rt, key, at, levels, below, &begun)
    }
}

/// A signature by the trees that an index goes through, before any of them is computed.
#[derive(Drop)]
pub(crate) struct PlannedSignature {
    memory: Vec<u8>,
    trees: PlannedTrees,
}

impl PlannedSignature {
    /// Plans the signature by an index: all memory for it and for the trees that the index goes
    /// through. `OutOfMemory` where that is refused.
    pub(crate) fn new(alloc: Global, key: HssKey, index: u64) -> Result<Self, OutOfMemory>
        requires { index < capacity_of (hss_key_of key) }
        ensures { IfOk result (PlansSignature key index) }
    {
        let memory = Vec::with_capacity(alloc, key.sig_len())?;
        let trees = PlannedTrees::new(alloc, key, index)?;
        Ok(PlannedSignature { memory, trees })
    }

    /// Computes the trees, and signs a message by them under the randomizer `c`. The trees are
    /// answered with the signature, to be kept. The leaves that are computed are reported to
    /// `progress`.
    pub(crate) fn sign(
        self,
        rt: &(impl Threads + Sync),
        c: &[u8; HASH_LEN],
        msg: &[u8],
        progress: &impl Progress,
    ) -> KeptSignature
        requires { PlansSignature self.trees.key self.trees.at self }
        ensures index { result.index ≡ self.trees.at }
        ensures signature { (text : Option (List ℕ)) → IsNotRight text self.trees.key
            → IsSignedByText text self.trees.key self.trees.at c.now msg.now
            result.signature.items result.trees }
    {
        let PlannedSignature { memory, trees } = self;
        let index = trees.at;
        let trees = trees.compute(rt, progress);
        let Some(signature) = trees.sign(memory, index, c, msg) else {
            // Signatures by computed trees are accepted.
            unreachable!()
        };
        KeptSignature {
            index,
            signature,
            trees: Some(trees),
        }
    }
}
