//! A seat stops the pool.
ghost use Rattle.std.specs.Prelude.{◌≡◌, IfSome, IfNone};
ghost use Rattle.lms_pool.specs.declared.call_log.Call.TheVariants.{Stop};
ghost use Rattle.lms_pool.specs.declared.call_log.Reply.TheVariants.{Count};
ghost use Rattle.lms_pool.specs.States.{Calls};

use crate::pool::CellPool;
use crate::rule::{Halt, PeekStop, Places};
use crate::seat::CellSeat;
use std::sync::Wait;

impl CellPool {
    /// Takes all places that are left, and answers how many these are. It may wait for other calls.
    pub fn stop<R: Wait>(&self, rt: &R, me: &mut CellSeat) -> u64
        requires { me.old.pool ≡ self.now }
        ensures seat { me.new.pool ≡ self.now }
        ensures call { Calls me.old Stop (Count result) me.new }
    {
        for _ in rt.forever() {
            if let Some(burnt) = self.try_stop(rt, me) {
                return burnt;
            }
        }
        unreachable!()
    }

    /// Takes all places that are left, and answers how many these are. `None` where another step
    /// came between; then no call was made.
    fn try_stop<R: Wait>(&self, rt: &R, me: &mut CellSeat) -> Option<u64>
        requires { me.old.pool ≡ self.now }
        ensures call { IfSome result (λ burnt. Calls me.old Stop (Count burnt) me.new) }
        ensures none { IfNone result (me.new ≡ me.old) }
    {
        let found = self.cell.load_as::<PeekStop, R>(rt, &mut me.token);
        if found.taken >= self.len {
            return Some(0);
        }
        let next = Places {
            taken: self.len,
            len: found.len,
            seats: found.seats,
        };
        match self
            .cell
            .compare_exchange_as::<Halt, R>(rt, &mut me.token, found, next)
        {
            Ok(_) => {
                let burnt = self.len - found.taken;
                me.stopped += burnt;
                Some(burnt)
            }
            Err(_) => None,
        }
    }
}
