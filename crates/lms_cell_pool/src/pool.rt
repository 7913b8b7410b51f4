//! The pool.
use crate::rule::Cell;
use lms_hss::HssKey;
use std::marker::Model;

/// The places of a lease, numbered from 0, which seats claim one after another. Contracts see the
/// same of it as of an `IndexPool`.
#[derive(Drop)]
pub struct CellPool {
    pub(crate) cell: Cell,
    pub(crate) key: HssKey,
    pub(crate) start: u64,
    pub(crate) len: u64,
    pub(crate) seats: usize,
}

impl Model for CellPool {
    ghost use Rattle.lms_pool.specs.States.{PoolState, IsOfLease};

    ghost Value = { PoolState };

    ghost view = { λ pool. record {
      table = pool.cell.table.shared.table_id;
      key = pool.key;
      start = pool.start;
      len = pool.len;
      seats = pool.seats;
    } };

    ghost invariant = { λ pool. IsOfLease pool.key pool.start pool.len pool.seats };
}
