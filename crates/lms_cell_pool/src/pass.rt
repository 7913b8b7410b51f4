//! What a claim answers.
use crate::pool::CellPool;
use std::marker::Model;
use std::snapshot::Snapshot;

/// The right to sign with one index, as an `IndexPass` is. It can't be copied or dropped: `burn`
/// spends it. Contracts see its pool and its place.
pub struct CellPass {
    pub(crate) pool: Snapshot<CellPool>,
    pub(crate) place: u64,
    pub(crate) index: u64,
}

impl Model for CellPass {
    ghost use Rattle.lms_pool.specs.States.{PassState, IsPass};

    ghost Value = { PassState };

    ghost view = { λ pass. record { pool = pass.pool.value; place = pass.place } };

    ghost invariant = { λ pass. IsPass pass.pool.value pass.place pass.index };
}

impl CellPass {
    ghost use Rattle.lms_pool.specs.States.{IsIndexOf, IsPlaceOf};

    /// Its place in the pool.
    pub fn place(&self) -> u64
        ensures { IsPlaceOf self.now result }
    {
        self.place
    }

    /// The index: the lease's start plus the place.
    pub fn index(&self) -> u64
        ensures { IsIndexOf self.now result }
    {
        self.index
    }

    /// Spends the pass. Its index stays used.
    pub fn burn(self) {
        let CellPass {
            pool: _,
            place: _,
            index: _,
        } = self;
    }
}
