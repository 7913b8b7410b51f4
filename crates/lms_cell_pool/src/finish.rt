//! The end of a pool.
ghost use Rattle.std.specs.Prelude.{◌≡◌, All};
ghost use Rattle.lms_pool.specs.Ends.{EndsPool};

use crate::pool::CellPool;
use crate::rule::{Find, HandOver, Together};
use crate::seat::CellSeat;
use lms_pool::{MissingSeats, Tally};
use std::sync::Wait;

impl CellPool {
    /// Ends the pool where all its seats are given, and answers how many places were claimed,
    /// stopped and left. The call log of one of these seats is then the whole pool's: it begins
    /// with the log of each seat, has of each just the calls in its own log, and has no other call.
    /// Places that are left are never claimed. It takes the runtime to read the cell once more.
    ///
    /// `MissingSeats` where a seat is missing, with the pool and the seats handed back as they
    /// were.
    pub fn finish<R: Wait>(
        self,
        rt: &R,
        mut seats: Vec<CellSeat>,
    ) -> Result<Tally, (MissingSeats, CellPool, Vec<CellSeat>)>
        requires { All (λ seat. seat.pool ≡ self) seats.items }
        ensures { EndsPool self seats result }
    {
        let present = seats.len();
        if present < self.seats {
            return Err((MissingSeats { present }, self, seats));
        }
        let CellPool { cell, len, .. } = self;
        let Some(last) = seats.pop() else {
            unreachable!()
        };
        let CellSeat {
            token: mut all,
            mut stopped,
            ..
        } = last;
        while let Some(next) = seats.pop() {
            let CellSeat {
                mut token,
                stopped: more,
                ..
            } = next;
            let whole = cell.split_pass::<HandOver>(&mut token);
            cell.join_pass::<Together>(&mut all, whole);
            stopped = stopped.saturating_add(more);
        }
        let found = cell.load_as::<Find, R>(rt, &mut all);
        let left = len.saturating_sub(found.taken);
        Ok(Tally {
            claimed: len - left - stopped,
            stopped,
            left,
        })
    }
}
