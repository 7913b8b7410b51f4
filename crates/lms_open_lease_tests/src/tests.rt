//! Leases that are signed by, and their collectors.
ghost use Rattle.std.specs.Prelude.{◌≡◌, []};

mod fixtures;

use crate::tests::fixtures::{CHEAP, LEVELS, job, opened, public_key};
use lms_batch::{Batch, Collector, Job, OpenLease, Receipt, SignFault, TakeFault};
use lms_fixtures::key_of;
use lms_hss::{HssKey, verify};
use lms_params::{LmsType, OtsType, OutOfMemory};
use lms_pool::{DrawSeat, IndexPass, MissingSeats};
use lms_slow::{SlowKey, slow_sign};
use std::alloc::{AllocError, Global};
use std::test::Fail;
use std::thread::Threads;

/// The slow signer's signature of a job by an index of the key of 5/8,5/8.
fn slow(alloc: Global, g: u64, job: &Job) -> Result<Vec<u8>, AllocError> {
    let key = SlowKey {
        levels: &LEVELS,
        seed: [0x11; 32],
        id: [0x22; 16],
    };
    slow_sign(alloc, &key, g, &job.c, &job.message)
}

/// Claims the next place, and signs a job there. Takes no runtime.
fn signed_after_claim<'j>(
    lease: &OpenLease,
    seat: &mut DrawSeat,
    job: &'j Job,
) -> Result<Receipt<'j>, Fail>
    requires { seat.old.pool ≡ lease.now }
    ensures { seat.new.pool ≡ lease.now }
{
    match lease.claim(seat) {
        Ok(pass) => signed_with(lease, pass, job),
        Err(_) => Err(Fail::from("no place is left")),
    }
}

/// Signs a job at the next place, with the pass that is handed back where memory was refused. Takes
/// no runtime, so it waits for nobody.
fn signed<'j>(lease: &OpenLease, seat: &mut DrawSeat, job: &'j Job) -> Result<Receipt<'j>, Fail>
    requires { seat.old.pool ≡ lease.now }
    ensures { seat.new.pool ≡ lease.now }
{
    match lease.sign(seat, job) {
        Ok(receipt) => Ok(receipt),
        Err(SignFault::Ended) => Err(Fail::from("no place is left")),
        Err(SignFault::OutOfMemory(pass)) => signed_with(lease, pass, job),
    }
}

/// Signs a job with a pass, and again with the pass that is handed back where memory was refused.
fn signed_with<'j>(lease: &OpenLease, pass: IndexPass, job: &'j Job) -> Result<Receipt<'j>, Fail>
    requires { pass.pool ≡ lease.now }
{
    match lease.sign_with(pass, job) {
        Ok(receipt) => Ok(receipt),
        Err((_, pass)) => match lease.sign_with(pass, job) {
            Ok(receipt) => Ok(receipt),
            Err((_, pass)) => {
                pass.burn();
                Err(Fail::from("memory for a signature"))
            }
        },
    }
}

/// Whether no place is left to sign a job at.
fn has_ended(lease: &OpenLease, seat: &mut DrawSeat, job: &Job) -> bool
    requires { seat.old.pool ≡ lease.now }
    ensures { seat.new.pool ≡ lease.now }
{
    match lease.sign(seat, job) {
        Ok(_) => false,
        Err(SignFault::Ended) => true,
        Err(SignFault::OutOfMemory(pass)) => {
            pass.burn();
            false
        }
    }
}

/// Whether a receipt is of this place and index.
fn is_of(receipt: &Receipt, place: u64, index: u64) -> bool {
    receipt.place() == place && receipt.index() == index
}

/// Whether a signature is the slow signer's of a job by an index.
fn is_slow(alloc: Global, g: u64, job: &Job, signature: &[u8]) -> bool {
    match slow(alloc, g, job) {
        Ok(slow) => signature == slow.as_slice(),
        Err(_) => false,
    }
}

/// Whether the next receipt is right, and the one after it, made by a claim and a signature.
fn signs_twice(
    alloc: Global,
    lease: &OpenLease,
    seat: &mut DrawSeat,
    job: &Job,
    start: u64,
) -> Result<bool, Fail>
    requires { seat.old.pool ≡ lease.now }
    ensures { seat.new.pool ≡ lease.now }
{
    let first = signed(lease, seat, job)?;
    let second = signed_after_claim(lease, seat, job)?;
    let next = start.saturating_add(1);
    let are_there = is_of(&first, 0, start) && is_of(&second, 1, next);
    Ok(
        are_there
            && is_slow(alloc, start, job, first.signature())
            && is_slow(alloc, next, job, second.signature()),
    )
}

/// Ends a lease whose one seat is there: how many places were claimed, stopped and left.
fn finished(alloc: Global, lease: OpenLease, seat: DrawSeat) -> Result<(u64, u64, u64), Fail>
    requires { seat.pool ≡ lease }
{
    match lease.finish(Vec::new(alloc)) {
        Ok(_) => Err(Fail::from("the seat is missing")),
        Err((MissingSeats { present: 0 }, lease, seats)) => finished_with(lease, seats, seat),
        Err(_) => Err(Fail::from("no seat is there")),
    }
}

/// Ends a lease with its one seat.
fn finished_with(
    lease: OpenLease,
    seats: Vec<DrawSeat>,
    seat: DrawSeat,
) -> Result<(u64, u64, u64), Fail>
    requires none { seats.items ≡ [] }
    requires own { seat.pool ≡ lease }
{
    let mut seats = seats;
    seats.push(seat)?;
    match lease.finish(seats) {
        Ok(tally) => Ok((tally.claimed, tally.stopped, tally.left)),
        Err(_) => Err(Fail::from("the seat is there")),
    }
}

/// How many places are taken, how many a stop burns, and whether no place is left then.
fn stopped(lease: &OpenLease, seat: &mut DrawSeat, job: &Job) -> (u64, u64, bool)
    requires { seat.old.pool ≡ lease.now }
    ensures { seat.new.pool ≡ lease.now }
{
    let taken = lease.look(seat);
    let burnt = lease.stop(seat);
    (taken, burnt, has_ended(lease, seat, job))
}

#[test]
fn signs_without_a_wait(rt: HostRuntime) -> Result<(), Fail> {
    let job = job(rt.alloc(), b"abc")?;
    let (lease, mut seat) = opened(&rt, &LEVELS, 0x11, 31, 4)?;
    let is_right = signs_twice(rt.alloc(), &lease, &mut seat, &job, 31)?;
    let counts = stopped(&lease, &mut seat, &job);
    let ended = finished(rt.alloc(), lease, seat)?;
    assert!(rt; is_right && counts == (2, 2, true) && ended == (2, 2, 0));
    Ok(())
}

/// A collector for jobs of a key from an index on. Memory that is refused once is asked for again.
fn collector_of<'j>(
    alloc: Global,
    key: &HssKey,
    start: u64,
    jobs: &'j [Job],
) -> Result<Collector<'j>, OutOfMemory> {
    match Collector::new(alloc, *key, start, jobs) {
        Ok(collector) => Ok(collector),
        Err(OutOfMemory) => Collector::new(alloc, *key, start, jobs),
    }
}

/// Why a receipt is not taken, `None` where it is.
fn refusal<'j>(collector: &mut Collector<'j>, receipt: Receipt<'j>) -> Option<TakeFault> {
    match collector.take(receipt) {
        Ok(()) => None,
        Err((fault, _)) => Some(fault),
    }
}

/// The seat after so many claims, whose passes are burnt.
fn after_claims(lease: &OpenLease, seat: DrawSeat, claims: u64) -> DrawSeat
    requires { seat.pool ≡ lease.now }
    ensures { result.pool ≡ lease.now }
{
    let mut seat = seat;
    for _ in 0..claims {
        if let Ok(pass) = lease.claim(&mut seat) {
            pass.burn();
        }
    }
    seat
}

/// The receipt of a job of another book of this seed, at a place of a lease from `start` on.
fn receipt_of_another<'j>(
    rt: &(impl AllocGlobal + Threads + Sync),
    seed: u8,
    start: u64,
    place: u64,
    job: &'j Job,
) -> Result<Receipt<'j>, Fail> {
    let (lease, seat) = opened(rt, &LEVELS, seed, start, place.saturating_add(1))?;
    let mut seat = after_claims(&lease, seat, place);
    signed(&lease, &mut seat, job)
}

/// A receipt of another book: its key's seed, its lease's start, place, job, why it is not taken.
type Row = (u8, u64, u64, usize, Option<TakeFault>);

/// Receipts of another book, one after another.
const RECEIPTS: [Row; 7] = [
    (0x11, 30, 0, 0, None),
    (0x11, 30, 0, 0, Some(TakeFault::Twice)),
    (0x12, 30, 0, 0, Some(TakeFault::Stranger)),
    (0x12, 30, 1, 1, Some(TakeFault::Stranger)),
    (0x11, 29, 1, 1, Some(TakeFault::Stranger)),
    (0x11, 30, 2, 1, Some(TakeFault::Stranger)),
    (0x11, 30, 1, 0, Some(TakeFault::Stranger)),
];

/// Whether the receipt of a row is taken or refused as the row says.
fn is_refused_so<'j>(
    rt: &(impl AllocGlobal + Threads + Sync),
    collector: &mut Collector<'j>,
    row: Row,
    jobs: &'j [Job],
) -> Result<bool, Fail> {
    let (seed, start, place, of, expected) = row;
    match jobs.get(of) {
        Some(job) => {
            let receipt = receipt_of_another(rt, seed, start, place, job)?;
            Ok(refusal(collector, receipt) == expected)
        }
        None => Err(Fail::from("one of two jobs")),
    }
}

/// Whether a batch begins with index 30 and has the slow signer's signature of its first job alone.
fn has_the_first_alone(alloc: Global, batch: &Batch, first: &Job) -> bool {
    match slow(alloc, 30, first) {
        Ok(slow) => {
            let expected = [Some(slow), None];
            match batch {
                Batch::Partial { start, slots } => {
                    *start == 30 && slots.as_slice() == expected.as_slice()
                }
                Batch::Complete { .. } => false,
            }
        }
        Err(_) => false,
    }
}

/// Two jobs of these messages.
fn two_jobs(alloc: Global, first: &[u8], second: &[u8]) -> Result<[Job; 2], Fail> {
    let first = job(alloc, first)?;
    let second = job(alloc, second)?;
    Ok([first, second])
}

#[test]
fn a_place_takes_its_receipt_once(rt: HostRuntime) -> Result<(), Fail> {
    let key = key_of(&LEVELS, 0x11)?;
    let jobs = two_jobs(rt.alloc(), b"abc", b"")?;
    let mut collector = collector_of(rt.alloc(), &key, 30, &jobs)?;
    for row in RECEIPTS {
        let (seed, start, place, of, _) = row;
        assert!(rt;
            is_refused_so(&rt, &mut collector, row, &jobs)?,
            "{seed} {start} {place} {of}"
        );
    }
    assert!(rt; has_the_first_alone(rt.alloc(), &collector.finish(), &jobs[0]));
    Ok(())
}

/// Whether a batch is complete from this index on, with the slow signer's valid signatures.
fn is_complete(alloc: Global, public: &[u8], batch: &Batch, first: u64, jobs: &[Job]) -> bool {
    match batch {
        Batch::Complete { start, signatures } => {
            let mut is_right = *start == first && signatures.len() == jobs.len();
            let mut g = first;
            for (signature, job) in signatures.iter().zip(jobs) {
                is_right = is_right
                    && is_slow(alloc, g, job, signature)
                    && verify(public, &job.message, signature);
                g = g.saturating_add(1);
            }
            is_right
        }
        Batch::Partial { .. } => false,
    }
}

/// Whether a collector takes two receipts, one after the other.
fn takes_both<'j>(collector: &mut Collector<'j>, first: Receipt<'j>, second: Receipt<'j>) -> bool {
    let is_taken = refusal(collector, first).is_none();
    refusal(collector, second).is_none() && is_taken
}

/// Whether a collector takes receipts of its two jobs, by the first two indices from `start` on: in
/// their order, or the second one first.
fn takes_two<'j>(
    rt: &(impl AllocGlobal + Threads + Sync),
    collector: &mut Collector<'j>,
    levels: &[(LmsType, OtsType)],
    start: u64,
    jobs: &'j [Job; 2],
    in_order: bool,
) -> Result<bool, Fail> {
    let (lease, mut seat) = opened(rt, levels, 0x11, start, 2)?;
    let first = signed(&lease, &mut seat, &jobs[0])?;
    let second = signed_after_claim(&lease, &mut seat, &jobs[1])?;
    let are_there = is_of(&first, 0, start) && is_of(&second, 1, start.saturating_add(1));
    let are_taken = if in_order {
        takes_both(collector, first, second)
    } else {
        takes_both(collector, second, first)
    };
    Ok(are_taken && are_there)
}

#[test]
fn a_batch_is_in_the_order_of_its_jobs(rt: HostRuntime) -> Result<(), Fail> {
    let key = key_of(&LEVELS, 0x11)?;
    let public = public_key(&rt, key)?;
    let jobs = two_jobs(rt.alloc(), b"a", b"b")?;
    let mut collector = collector_of(rt.alloc(), &key, 31, &jobs)?;
    let are_taken = takes_two(&rt, &mut collector, &LEVELS, 31, &jobs, false)?;
    let batch = collector.finish();
    assert!(rt; are_taken && is_complete(rt.alloc(), &public, &batch, 31, &jobs));
    Ok(())
}

/// Whether a batch is complete, from this index on.
fn is_complete_from(batch: &Batch, first: u64) -> bool {
    match batch {
        Batch::Complete {
            start,
            signatures: _,
        } => *start == first,
        Batch::Partial { .. } => false,
    }
}

/// The merge check refuses each request for memory in turn.
#[test]
fn a_lease_signs_after_refused_memory(rt: HostRuntime) -> Result<(), Fail> {
    let key = key_of(&CHEAP, 0x11)?;
    let jobs = two_jobs(rt.alloc(), b"abc", b"")?;
    let mut collector = collector_of(rt.alloc(), &key, 5, &jobs)?;
    let are_taken = takes_two(&rt, &mut collector, &CHEAP, 5, &jobs, true)?;
    let batch = collector.finish();
    assert!(rt; are_taken && is_complete_from(&batch, 5));
    Ok(())
}
