//! Levels of a hierarchy that are to be computed, with all memory for them.
ghost use Rattle.std.specs.Prelude.{◌≤◌, ◌<◌, length, IfOk};
ghost use Rattle.lms_hss.specs.Keys.{hss_key_of};
ghost use Rattle.lms_kept.specs.Ways.{ArePlanned, IsPlanned};

use crate::levels::signed_len;
use lms_hss::HssKey;
use lms_params::OutOfMemory;
use lms_tree::PlannedTree;
use std::alloc::Global;

/// A tree that is to serve one leaf, and memory for what is signed of it.
#[derive(Drop)]
pub(crate) struct PlannedLevel {
    pub(crate) tree: PlannedTree,
    pub(crate) signed: Vec<u8>,
}

impl PlannedLevel {
    /// Plans the tree of level k that index `at` goes through, to serve the leaf there, with memory
    /// for what is signed of it. `OutOfMemory` where memory is refused.
    pub(crate) fn new(alloc: Global, key: &HssKey, at: u64, k: usize) -> Result<Self, OutOfMemory>
        requires { k < length key.now.levels }
        ensures { IfOk result (IsPlanned (hss_key_of key.now) at k) }
    {
        let leaf = key.leaf_of(at, k);
        let tree = PlannedTree::new(alloc, key.tree_key(at, k), leaf, leaf)?;
        let signed = vec![in alloc; 0; signed_len(key, k)]?;
        Ok(PlannedLevel { tree, signed })
    }
}

/// Plans the trees of all levels from level `from` on that index `at` goes through. The lowest
/// level is first in the list, and level `from` last. `OutOfMemory` where memory is refused.
pub(crate) fn planned_levels(
    alloc: Global,
    key: &HssKey,
    at: u64,
    from: usize,
) -> Result<Vec<PlannedLevel>, OutOfMemory>
    requires { from ≤ length key.now.levels }
    ensures { IfOk result (λ plans. ArePlanned (hss_key_of key.now) at from plans.items) }
{
    let mut k = key.levels.as_slice().len();
    let mut plans = Vec::with_capacity(alloc, k - from)?;
    while k > from {
        k -= 1;
        let planned = PlannedLevel::new(alloc, key, at, k)?;
        plans.push_reserved(planned);
    }
    Ok(plans)
}
