//! A seat looks how many places are taken.
ghost use Rattle.std.specs.Prelude.{◌≡◌};
ghost use Rattle.lms_pool.specs.declared.call_log.Call.TheVariants as calls;
ghost use Rattle.lms_pool.specs.declared.call_log.Reply.TheVariants.{Count};
ghost use Rattle.lms_pool.specs.States.{Calls};

use crate::pool::CellPool;
use crate::rule::Look;
use crate::seat::CellSeat;
use std::sync::Wait;

impl CellPool {
    /// How many places are taken, at most the length. It may wait for other calls. The call stands in
    /// one legal call log, after all that the seat had seen.
    pub fn look<R: Wait>(&self, rt: &R, me: &mut CellSeat) -> u64
        requires { me.old.pool ≡ self.now }
        ensures seat { me.new.pool ≡ self.now }
        ensures call { Calls me.old calls.Look (Count result) me.new }
    {
        let found = self.cell.load_as::<Look, R>(rt, &mut me.token);
        found.taken.min(self.len)
    }
}
