//! Makes a pool over a lease.
ghost use Rattle.std.specs.Prelude.{◌≡◌, ◌+◌, ◌<◌, ◌≤◌, None};
ghost use Rattle.crossbeam_utils.specs.Seq.{cell_view};
ghost use Rattle.lms_pool.specs.Rule.{most_seats};
ghost use Rattle.lms_pool.specs.States.{OpensLease, new_seat};
ghost use Rattle.lms_cell_pool.specs.States.{IsRest};

use crate::pool::CellPool;
use crate::rule::{Apart, Cell, Fill, Places, Token};
use crate::seat::CellSeat;
use lms_book::Lease;
use lms_params::OutOfMemory;
use std::alloc::Global;
use std::snapshot::Snapshot;
use std::sync::Wait;

impl CellPool {
    /// Makes the pool of the lease's indices, and `seats` seats for it, 1 to 64, whose numbers
    /// begin at 0. It takes the runtime to fill the cell, which no other call can use yet.
    ///
    /// `OutOfMemory` where memory is refused, with the lease handed back as it was.
    pub fn over<R: Wait>(
        rt: &R,
        alloc: Global,
        lease: Lease,
        seats: usize,
    ) -> Result<(Self, Vec<CellSeat>), (OutOfMemory, Lease)>
        requires some { 1 ≤ seats }
        requires at_most { seats ≤ most_seats }
        ensures { OpensLease lease seats result }
    {
        let Ok(mut all_seats) = Vec::with_capacity(alloc, seats) else {
            return Err((OutOfMemory, lease));
        };
        let (key, start, len) = (lease.key(), lease.start(), lease.len());
        // for the proof: the capacity is at most 2^60, so a start plus a place is a `u64`
        let _capacity = key.capacity();
        let empty = Places {
            taken: 0,
            len: 0,
            seats: 0,
        };
        let Ok((cell, mut rest)) = Cell::ruled(alloc, empty) else {
            return Err((OutOfMemory, lease));
        };
        lease.end();
        let pool = CellPool {
            cell,
            key,
            start,
            len,
            seats,
        };
        pool.fill(rt, &mut rest);
        for number in 0..seats {
            let seat = pool.part(&mut rest, number);
            all_seats.push_reserved(seat);
        }
        Ok((pool, all_seats))
    }

    /// Writes the numbers of places and seats into the cell, by its first token, which then stands
    /// for all seats.
    fn fill<R: Wait>(&self, rt: &R, first: &mut Token)
        requires table { first.old.table_id ≡ self.now.table }
        requires empty { cell_view first.old ≡ None }
        ensures { IsRest self.now 0 first.new.table_id (cell_view first.new) }
    {
        let all = Places {
            taken: 0,
            len: self.len,
            seats: self.seats as u64,
        };
        self.cell.swap_as::<Fill, R>(rt, first, all);
    }

    /// Splits the seat of this number off from those that are left.
    fn part(&self, rest: &mut Token, number: usize) -> CellSeat
        requires below { number < self.now.seats }
        requires rest { IsRest self.now number rest.old.table_id (cell_view rest.old) }
        ensures seat { result ≡ new_seat self.now number }
        ensures rest { IsRest self.now (number + 1) rest.new.table_id (cell_view rest.new) }
    {
        CellSeat {
            pool: Snapshot::of(self),
            token: self.cell.split_pass::<Apart>(rest),
            number,
            stopped: 0,
        }
    }
}
