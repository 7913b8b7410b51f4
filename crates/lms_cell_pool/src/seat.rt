//! A seat of a pool.
use crate::pool::CellPool;
use crate::rule::Token;
use std::marker::Model;
use std::snapshot::Snapshot;

/// The right to call a pool as one seat. Contracts see the same of it as of a `DrawSeat`.
#[derive(Drop)]
pub struct CellSeat {
    pub(crate) pool: Snapshot<CellPool>,
    pub(crate) token: Token,
    pub(crate) number: usize,
    // The sum of what its stops answered: the cell doesn't distinguish stopped places from claimed
    // ones.
    pub(crate) stopped: u64,
}

impl Model for CellSeat {
    ghost use Rattle.crossbeam_utils.specs.Seq.{cell_view};
    ghost use Rattle.lms_pool.specs.States.{SeatState};
    ghost use Rattle.lms_cell_pool.specs.Rule.{hand_in};
    ghost use Rattle.lms_cell_pool.specs.States.{IsCellSeat};

    ghost Value = { SeatState };

    ghost view = { λ s.
        record {
          pool = s.pool.value;
          number = s.number;
          log = (hand_in (cell_view s.token)).log;
        } };

    ghost invariant = { λ s.
        IsCellSeat s.pool.value s.number s.stopped s.token.table_id (cell_view s.token) };
}
