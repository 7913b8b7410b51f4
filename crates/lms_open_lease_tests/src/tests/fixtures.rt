//! Levels, open leases and jobs of the tests. Memory that is refused once is asked for again.
ghost use Rattle.std.specs.Prelude.{◌≡◌, IfOk};

use lms_batch::{Job, OpenLease};
use lms_fixtures::{key_of, lease_of};
use lms_hss::HssKey;
use lms_params::{LmsType, OtsType, OutOfMemory};
use lms_pool::DrawSeat;
use std::alloc::Global;
use std::test::Fail;
use std::thread::Threads;

/// The levels 5/8,5/8, with 1024 indices.
pub(crate) const LEVELS: [(LmsType, OtsType); 2] = [(LmsType::H5, OtsType::W8); 2];

/// The levels 5/2,5/2, with as many indices, whose trees take a twentieth of the work.
pub(crate) const CHEAP: [(LmsType, OtsType); 2] = [(LmsType::H5, OtsType::W2); 2];

/// The public key of a key.
pub(crate) fn public_key(
    rt: &(impl AllocGlobal + Threads + Sync),
    key: HssKey,
) -> Result<[u8; 60], OutOfMemory> {
    match key.public_key(rt, rt.alloc()) {
        Ok(public) => Ok(public),
        Err(_) => key.public_key(rt, rt.alloc()),
    }
}

/// An open lease of `len` indices, 1 to 1024, of the key of these levels and this seed from `start`
/// on, with one seat.
pub(crate) fn opened(
    rt: &(impl AllocGlobal + Threads + Sync),
    levels: &[(LmsType, OtsType)],
    seed: u8,
    start: u64,
    len: u64,
) -> Result<(OpenLease, DrawSeat), Fail>
    ensures { IfOk result (λ r. r.1.pool ≡ r.0) }
{
    let key = key_of(levels, seed)?;
    let lease = lease_of(rt.alloc(), key, start, len.clamp(1, 1024))?;
    let made = match OpenLease::new(rt, rt.alloc(), lease, 1) {
        Ok(made) => Ok(made),
        Err((_, lease)) => OpenLease::new(rt, rt.alloc(), lease, 1),
    };
    let (lease, mut seats) = match made {
        Ok(made) => made,
        Err((_, lease)) => {
            lease.end();
            return Err(Fail::from("memory for an open lease"));
        }
    };
    let seat = seats.pop().ok_or("one seat")?;
    Ok((lease, seat))
}

/// A job of this message, whose first byte fills its randomizer.
pub(crate) fn job(alloc: Global, message: &[u8]) -> Result<Job, Fail> {
    let first = message.first().copied().unwrap_or(0x33);
    let message = match Vec::from_slice(alloc, message) {
        Ok(message) => message,
        Err(_) => Vec::from_slice(alloc, message)?,
    };
    Ok(Job {
        c: [first; 32],
        message,
    })
}
