//! Workers, each of which signs the jobs of the places that it claims.
ghost use Rattle.std.specs.Prelude.{◌≡◌, ◌+◌, ◌≤◌, Some, IfSome, IfNone, length, slice_get, vec_len, vec_capacity};
ghost use Rattle.lms_pool.specs.declared.call_log.Call.TheVariants.{Claim};
ghost use Rattle.lms_pool.specs.declared.call_log.Reply.TheVariants.{Place};
ghost use Rattle.lms_pool.specs.States.{Calls, seen};
ghost use Rattle.lms_batch.specs.Jobs.{texts_of};

use crate::gate::Gate;
use crate::job::Job;
use crate::open_lease::OpenLease;
use crate::receipt::Receipt;
use lms_pool::{DrawSeat, IndexPass};

/// A worker at a seat of an open lease. It has capacity for a receipt of each job that it may still
/// sign.
#[derive(Drop)]
pub(crate) struct Worker<'a> {
    lease: &'a OpenLease,
    jobs: &'a [Job],
    seat: DrawSeat,
    to_sign: usize,
    receipts: Vec<Receipt<'a>>,
    ghost own: { seat.pool ≡ lease.now },
    ghost places: { lease.now.len ≡ length jobs.now },
    ghost ahead: { lease.now.len ≤ seen seat + to_sign },
    ghost capacity: { vec_len receipts + to_sign ≤ vec_capacity receipts },
}

impl<'a> Worker<'a> {
    /// A worker at this seat, for these jobs, of which each place of the lease has one. The list
    /// has capacity for the receipts of all of them.
    pub(crate) fn new(
        lease: &'a OpenLease,
        jobs: &'a [Job],
        seat: DrawSeat,
        list: Vec<Receipt<'a>>,
    ) -> Worker<'a>
        requires own { seat.pool ≡ lease.now }
        requires places { lease.now.len ≡ length jobs.now }
        requires empty { vec_len list ≡ 0 }
        requires capacity { length jobs.now ≤ vec_capacity list }
    {
        Worker {
            lease,
            jobs,
            seat,
            to_sign: jobs.len(),
            receipts: list,
        }
    }

    /// Signs the jobs of the places that it claims, until no place is left. Where memory is
    /// refused, it stops the pool, so that none is left.
    pub(crate) fn work<G: Gate>(&mut self, gate: &G)
        ensures { seen self.new.seat ≡ self.new.lease.now.len }
    {
        while self.to_sign > 0 {
            let Some(receipt) = self.sign_next(gate) else {
                break;
            };
            self.to_sign -= 1;
            self.receipts.push_reserved(receipt);
        }
    }

    /// Claims a place and signs its job. `None` where no place is left, and where memory is
    /// refused: then the pass is burnt and the pool stopped.
    fn sign_next<G: Gate>(&mut self, gate: &G) -> Option<Receipt<'a>>
        ensures one_claim { IfSome result (λ signed.
            Calls self.old.seat Claim (Place signed.place) self.new.seat) }
        ensures job { IfSome result (λ signed.
            slice_get (texts_of self.old.jobs.now) signed.place ≡ Some signed.job) }
        ensures none { IfNone result (seen self.new.seat ≡ self.new.lease.now.len) }
        ensures to_sign { self.new.to_sign ≡ self.old.to_sign }
    {
        let pass = self.lease.claim(&mut self.seat).ok()?;
        let place = pass.place();
        gate.before_sign(place);
        match self.lease.sign_with(pass, &self.jobs[place as usize]) {
            Ok(receipt) => {
                gate.after_sign(place);
                Some(receipt)
            }
            Err((_, pass)) => {
                self.give_up(pass);
                None
            }
        }
    }

    /// Burns the pass, and stops the pool.
    fn give_up(&mut self, pass: IndexPass)
        ensures none { seen self.new.seat ≡ self.new.lease.now.len }
        ensures to_sign { self.new.to_sign ≡ self.old.to_sign }
    {
        pass.burn();
        self.lease.stop(&mut self.seat);
    }

    /// The receipts of the jobs that it signed.
    pub(crate) fn into_receipts(self) -> Vec<Receipt<'a>>
        ensures { result ≡ self.entry.receipts }
    {
        self.receipts
    }
}
