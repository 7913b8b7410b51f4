//! One trait over both pools, for tests and timings: each is written once and runs over both.
#![tactic(auto)]

ghost use Rattle.std.specs.Prelude.{◌≡◌, ◌≤◌, All, IfErr, IfOk};
ghost use Rattle.lms_pool.specs.Rule.{most_seats};
ghost use Rattle.lms_pool.specs.States.{PoolState};

use lms_book::Lease;
use lms_cell_pool::{CellPool, CellSeat};
use lms_params::OutOfMemory;
use lms_pool::{DrawSeat, IndexPool, MissingSeats, Tally};
use std::alloc::Global;
use std::marker::Sync;
use std::sync::Wait;

/// What a claim got, whose pass was burnt.
#[derive(Clone, Copy, Debug, PartialEq, Eq)]
pub struct Claimed {
    pub place: u64,
    pub index: u64,
}

/// A pool of a lease's indices.
pub trait Pool: Sync {
    type Seat: Drop;

    // What contracts see of it.
    ghost state: { Self → PoolState };

    // The pool of a seat.
    ghost pool_of: { Self.Seat → PoolState };

    fn over<R: Wait>(
        rt: &R,
        alloc: Global,
        lease: Lease,
        seats: usize,
    ) -> Result<(Self, Vec<Self::Seat>), (OutOfMemory, Lease)>
        requires some { 1 ≤ seats }
        requires at_most { seats ≤ most_seats }
        ensures own { IfOk result (λ r. All (λ seat. pool_of seat ≡ state r.0) r.1.items) };

    fn claim<R: Wait>(&self, rt: &R, me: &mut Self::Seat) -> Option<Claimed>
        requires { pool_of me.old ≡ state self.now }
        ensures { pool_of me.new ≡ state self.now };

    fn look<R: Wait>(&self, rt: &R, me: &mut Self::Seat) -> u64
        requires { pool_of me.old ≡ state self.now }
        ensures { pool_of me.new ≡ state self.now };

    fn stop<R: Wait>(&self, rt: &R, me: &mut Self::Seat) -> u64
        requires { pool_of me.old ≡ state self.now }
        ensures { pool_of me.new ≡ state self.now };

    fn finish<R: Wait>(
        self,
        rt: &R,
        seats: Vec<Self::Seat>,
    ) -> Result<Tally, (MissingSeats, Self, Vec<Self::Seat>)>
        requires { All (λ seat. pool_of seat ≡ state self) seats.items }
        ensures pool { IfErr result (λ e. state e.1 ≡ state self) }
        ensures seats { IfErr result (λ e. All (λ seat. pool_of seat ≡ state self) e.2.items) };
}

impl Pool for IndexPool {
    type Seat = DrawSeat;

    ghost state = { λ pool. pool };

    ghost pool_of = { λ seat. seat.pool };

    fn over<R: Wait>(
        _rt: &R,
        alloc: Global,
        lease: Lease,
        seats: usize,
    ) -> Result<(Self, Vec<DrawSeat>), (OutOfMemory, Lease)> {
        IndexPool::over(alloc, lease, seats)
    }

    fn claim<R: Wait>(&self, _rt: &R, me: &mut DrawSeat) -> Option<Claimed> {
        let pass = self.claim(me).ok()?;
        let claimed = Claimed {
            place: pass.place(),
            index: pass.index(),
        };
        pass.burn();
        Some(claimed)
    }

    fn look<R: Wait>(&self, _rt: &R, me: &mut DrawSeat) -> u64 {
        self.look(me)
    }

    fn stop<R: Wait>(&self, _rt: &R, me: &mut DrawSeat) -> u64 {
        self.stop(me)
    }

    fn finish<R: Wait>(
        self,
        _rt: &R,
        seats: Vec<DrawSeat>,
    ) -> Result<Tally, (MissingSeats, Self, Vec<DrawSeat>)>
        requires { All (λ seat. seat.pool ≡ self) seats.items }
        ensures pool { IfErr result (λ e. e.1 ≡ self) }
        ensures seats { IfErr result (λ e. All (λ seat. seat.pool ≡ self) e.2.items) }
    {
        self.finish(seats)
    }
}

impl Pool for CellPool {
    type Seat = CellSeat;

    ghost state = { λ pool. pool };

    ghost pool_of = { λ seat. seat.pool };

    fn over<R: Wait>(
        rt: &R,
        alloc: Global,
        lease: Lease,
        seats: usize,
    ) -> Result<(Self, Vec<CellSeat>), (OutOfMemory, Lease)> {
        CellPool::over(rt, alloc, lease, seats)
    }

    fn claim<R: Wait>(&self, rt: &R, me: &mut CellSeat) -> Option<Claimed> {
        let pass = self.claim(rt, me).ok()?;
        let claimed = Claimed {
            place: pass.place(),
            index: pass.index(),
        };
        pass.burn();
        Some(claimed)
    }

    fn look<R: Wait>(&self, rt: &R, me: &mut CellSeat) -> u64 {
        self.look(rt, me)
    }

    fn stop<R: Wait>(&self, rt: &R, me: &mut CellSeat) -> u64 {
        self.stop(rt, me)
    }

    fn finish<R: Wait>(
        self,
        rt: &R,
        seats: Vec<CellSeat>,
    ) -> Result<Tally, (MissingSeats, Self, Vec<CellSeat>)>
        requires { All (λ seat. seat.pool ≡ self) seats.items }
        ensures pool { IfErr result (λ e. e.1 ≡ self) }
        ensures seats { IfErr result (λ e. All (λ seat. seat.pool ≡ self) e.2.items) }
    {
        self.finish(rt, seats)
    }
}
