//! A tree that is to be computed, with all memory for it.
ghost use Rattle.std.specs.Prelude.{◌≡◌, IfOk};
ghost use Rattle.lms_tree.specs.Bands.{CanServe};

use crate::band::Band;
use crate::band_tree::{BandTree, lower_rows, upper_rows};
use crate::progress::{Begun, Progress};
use crate::tree_key::TreeKey;
use lms_params::{HASH_LEN, OutOfMemory};
use std::alloc::Global;
use std::marker::Model;
use std::thread::Threads;

/// What a `BandTree` is to serve, and all memory that it takes. Who needs several trees plans all
/// of them first: then no leaf is computed where memory for one of them is refused. Contracts see
/// the key and the range of leaves.
#[derive(Drop)]
pub struct PlannedTree {
    key: TreeKey,
    first: u32,
    last: u32,
    upper: Vec<[u8; HASH_LEN]>,
    lower: Vec<[u8; HASH_LEN]>,
}

impl Model for PlannedTree {
    ghost use Rattle.lms_tree.specs.Bands.{HasRoom, ServedLeaves};

    ghost Value = { ServedLeaves };

    ghost view = { λ a. record { key = a.key; first = a.first; last = a.last } };

    ghost invariant = { λ a. HasRoom a.key a.first a.last a.upper.items a.lower.items };
}

impl PlannedTree {
    /// Plans what serves the leaves from `first` to `last`, at most 1024 leaves of the tree.
    /// `OutOfMemory` where one of the two requests for memory is refused.
    pub fn new(alloc: Global, key: TreeKey, first: u32, last: u32) -> Result<Self, OutOfMemory>
        requires { CanServe key first last }
        ensures { IfOk result (λ planned.
            planned ≡ record { key = key; first = first; last = last }) }
    {
        let lower_rows = lower_rows(key.lms, first, last);
        let upper_rows = upper_rows(key.lms);
        let lower = lower_rows.allocate(alloc)?;
        let upper = upper_rows.allocate(alloc)?;
        Ok(PlannedTree {
            key,
            first,
            last,
            upper,
            lower,
        })
    }

    /// Computes the tree: first the bottom subtrees that have the leaves served, then the roots of
    /// the others and the nodes above. Leaves and roots are computed by as many threads as there
    /// are processors, at most 32. The leaves that are computed, 2^h in all, are reported to the
    /// `Progress` of `begun`.
    pub fn build(self, rt: &(impl Threads + Sync), begun: &Begun<impl Progress>) -> BandTree
        ensures { result ≡ self }
    {
        let PlannedTree {
            key,
            first,
            last,
            upper,
            lower,
        } = self;
        let rows = lower_rows(key.lms, first, last);
        let lower = Band::build(rt, key, rows, lower, None, begun);
        let upper = Band::build(rt, key, upper_rows(key.lms), upper, Some(&lower), begun);
        BandTree {
            first,
            last,
            upper,
            lower,
        }
    }
}
