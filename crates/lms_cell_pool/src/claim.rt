//! A seat claims a place.
ghost use Rattle.std.specs.Prelude.{◌≡◌, ◌<◌, ◌≤◌, IfOk, IfSome, IfNone, OnErr};
ghost use Rattle.lms_pool.specs.declared.call_log.Call.TheVariants.{Claim};
ghost use Rattle.lms_pool.specs.States.{Calls, claim_reply, seen};
ghost use Rattle.lms_cell_pool.specs.States.{place_reply};

use crate::pass::CellPass;
use crate::pool::CellPool;
use crate::rule::{ClaimStep, PeekClaim, Places};
use crate::seat::CellSeat;
use lms_pool::Ended;
use std::snapshot::Snapshot;
use std::sync::Wait;

impl CellPool {
    /// Claims the next place, or answers `Ended` where none is left. It may wait for other calls.
    pub fn claim<R: Wait>(&self, rt: &R, me: &mut CellSeat) -> Result<CellPass, Ended>
        requires { me.old.pool ≡ self.now }
        ensures seat { me.new.pool ≡ self.now }
        ensures call { Calls me.old Claim (claim_reply result) me.new }
        ensures pass { IfOk result (λ pass.
            (pass.pool ≡ self.now) × (seen me.old ≤ pass.place) × (pass.place < self.now.len)) }
        ensures ended { OnErr result (seen me.new ≡ self.now.len) }
    {
        let place = self.claim_place(rt, me)?;
        Ok(CellPass {
            pool: Snapshot::of(self),
            place,
            index: self.start + place,
        })
    }

    /// Claims the next place, or answers `Ended` where none is left.
    fn claim_place<R: Wait>(&self, rt: &R, me: &mut CellSeat) -> Result<u64, Ended>
        requires { me.old.pool ≡ self.now }
        ensures call { Calls me.old Claim (place_reply result) me.new }
        ensures below { IfOk result (λ place. place < self.now.len) }
    {
        for _ in rt.forever() {
            if let Some(answer) = self.try_claim(rt, me) {
                return answer;
            }
        }
        unreachable!()
    }

    /// Claims the next place, or answers `Ended` where none is left. `None` where another step came
    /// between; then no call was made.
    fn try_claim<R: Wait>(&self, rt: &R, me: &mut CellSeat) -> Option<Result<u64, Ended>>
        requires { me.old.pool ≡ self.now }
        ensures call { IfSome result (λ answer. Calls me.old Claim (place_reply answer) me.new) }
        ensures below { IfSome result (λ answer. IfOk answer (λ place. place < self.now.len)) }
        ensures none { IfNone result (me.new ≡ me.old) }
    {
        let found = self.cell.load_as::<PeekClaim, R>(rt, &mut me.token);
        if found.taken >= self.len {
            return Some(Err(Ended));
        }
        let next = Places {
            taken: found.taken + 1,
            len: found.len,
            seats: found.seats,
        };
        match self
            .cell
            .compare_exchange_as::<ClaimStep, R>(rt, &mut me.token, found, next)
        {
            Ok(_) => Some(Ok(found.taken)),
            Err(_) => None,
        }
    }
}
