//! Leases of the tests, and pools over them.
ghost use Rattle.std.specs.Prelude.{◌≡◌, All, IfOk};

use lms_book::Lease;
use lms_fixtures::{key_of, lease_of};
use lms_params::{LmsType, OtsType};
use lms_pool_fixtures::Pool;
use std::alloc::{AllocGlobal, Global};
use std::sync::Wait;
use std::test::Fail;

/// The levels 5/8,5/8, with 1024 indices.
const LEVELS: [(LmsType, OtsType); 2] = [(LmsType::H5, OtsType::W8), (LmsType::H5, OtsType::W8)];

/// A lease of `len` indices from `start` on, 1 to 1024.
pub(crate) fn lease(alloc: Global, start: u64, len: u64) -> Result<Lease, &'static str> {
    lease_of(alloc, key_of(&LEVELS, 0x11)?, start, len.clamp(1, 1024))
}

/// A pool over such a lease, and its seats, 1 to 64.
pub(crate) fn pool<P: Pool, R: AllocGlobal + Wait>(
    rt: &R,
    start: u64,
    len: u64,
    seats: usize,
) -> Result<(P, Vec<P::Seat>), Fail>
    ensures { IfOk result (λ r. All (λ seat. P.pool_of seat ≡ P.state r.0) r.1.items) }
{
    let lease = lease(rt.alloc(), start, len)?;
    match P::over(rt, rt.alloc(), lease, seats.clamp(1, 64)) {
        Ok(made) => Ok(made),
        Err((_, lease)) => {
            lease.end();
            Err(Fail::from("memory for a pool"))
        }
    }
}
