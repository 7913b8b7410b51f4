//! Claims on pools by one thread and by several at once, beside as many bare additions to one word.
ghost use Rattle.std.specs.Prelude.{◌≡◌, ◌≤◌, All};
ghost use Rattle.std.specs.Arc.{arc_value};
ghost use Rattle.lms_pool.specs.Rule.{most_seats};

use crate::book::book;
use crate::workers::Workers;
use bench_base::{Fault, Hierarchy, clock};
use lms_book::{Book, Lease, MemoryStore};
use lms_params::{LmsType, OtsType};
use lms_pool_fixtures::Pool;
use std::alloc::Global;
use std::array;
use std::sync::atomic::{AtomicU64, AtomicUsize, Ordering};
use std::sync::{Arc, Wait};
use std::thread::{self, Threads};
use std::time::{Clock, Duration};

/// The key whose indices are leased.
const LEASED: Hierarchy = Hierarchy(&[(LmsType::H10, OtsType::W8); 2]);

/// How many places each pool has.
const PLACES: u64 = 1024;

/// How many words are beside each other where one is added to: as many as a pool's table has. The
/// middle one counts, so nothing else is on its cache lines.
const WORDS: usize = 32;

/// A pool, and a seat of it.
#[derive(Drop)]
struct Caller<P: Pool + Drop> {
    pool: Arc<P>,
    seat: P::Seat,
    ghost own: { P.pool_of seat ≡ P.state (arc_value pool) },
}

impl<P: Pool + Drop> Caller<P> {
    /// Claims until no place is left, and answers how many it claimed.
    fn claim_all<R: Wait>(&mut self, rt: &R) -> u64 {
        for claimed in 0..PLACES {
            if self.pool.claim(rt, &mut self.seat).is_none() {
                return claimed;
            }
        }
        PLACES
    }
}

/// How many places so many pools have.
pub fn places_of(pools: u64) -> u64 {
    pools.saturating_mul(PLACES)
}

/// The time until all places of so many pools are claimed.
pub fn time_claims<P: Pool + Send + Drop, R>(
    rt: &R,
    pools: u64,
    workers: Workers,
) -> Result<Duration, Fault>
where
    P::Seat: Send,
    R: AllocGlobal + Clock + Threads + Wait + Sync,
{
    let threads = workers.count();
    let begun = AtomicUsize::new(0);
    let callers = new_callers::<P, R>(rt, pools, threads)?;
    let start = clock(rt);
    let claimed = thread::map_vec(
        rt,
        callers,
        &|own: Vec<Caller<P>>| -> u64 {
            begin_together(&begun, threads);
            claim_by(rt, own)
        },
    );
    let time = clock(rt).saturating_sub(start);
    match claimed {
        Ok(counts) if sum_of(&counts) == places_of(pools) => Ok(time),
        Ok(_) => Err(Fault::Lost),
        Err(_) => Err(Fault::OutOfMemory),
    }
}

/// The time of as many bare additions to one word as so many pools have places, by as many threads.
pub fn time_additions(
    rt: &(impl AllocGlobal + Clock + Threads + Sync),
    pools: u64,
    workers: Workers,
) -> Result<Duration, Fault> {
    let threads = workers.count();
    let begun = AtomicUsize::new(0);
    let each = places_of(pools) / threads as u64;
    let words: [AtomicU64; WORDS] = array::from_fn(|_| AtomicU64::new(0));
    let word = &words[WORDS / 2];
    let start = clock(rt);
    let added = thread::map_indices(
        rt,
        rt.alloc(),
        threads,
        &|_thread: usize| {
            begin_together(&begun, threads);
            add(word, each);
        },
    );
    let time = clock(rt).saturating_sub(start);
    match added {
        Ok(_) if word.load(Ordering::SeqCst) == each * threads as u64 => Ok(time),
        Ok(_) => Err(Fault::Lost),
        Err(_) => Err(Fault::OutOfMemory),
    }
}

/// For each thread, a seat of each pool.
fn new_callers<P: Pool + Drop, R: AllocGlobal + Wait>(
    rt: &R,
    pools: u64,
    threads: usize,
) -> Result<Vec<Vec<Caller<P>>>, Fault>
    requires some { 1 ≤ threads }
    requires at_most { threads ≤ most_seats }
{
    let mut book = book(rt.alloc(), LEASED)?;
    let mut callers = Vec::new(rt.alloc());
    for _ in 0..threads {
        if callers.push(Vec::new(rt.alloc())).is_err() {
            return Err(Fault::OutOfMemory);
        }
    }
    for _ in 0..pools {
        add_pool(rt, &mut book, threads, &mut callers)?;
    }
    Ok(callers)
}

/// Makes a pool over a lease, with a seat for each thread.
fn add_pool<P: Pool + Drop, R: AllocGlobal + Wait>(
    rt: &R,
    book: &mut Book<MemoryStore>,
    threads: usize,
    callers: &mut [Vec<Caller<P>>],
) -> Result<(), Fault>
    requires some { 1 ≤ threads }
    requires at_most { threads ≤ most_seats }
{
    match book.reserve(PLACES) {
        Ok(lease) => seat(rt, lease, threads, callers),
        Err(_) => Err(Fault::Service),
    }
}

/// Makes a pool over a lease, with a seat for each thread.
fn seat<P: Pool + Drop, R: AllocGlobal + Wait>(
    rt: &R,
    lease: Lease,
    threads: usize,
    callers: &mut [Vec<Caller<P>>],
) -> Result<(), Fault>
    requires some { 1 ≤ threads }
    requires at_most { threads ≤ most_seats }
{
    match P::over(rt, rt.alloc(), lease, threads) {
        Ok((pool, seats)) => match Arc::new(rt.alloc(), pool) {
            Ok(pool) => share_out(&pool, seats, callers),
            Err(_) => Err(Fault::OutOfMemory),
        },
        Err((_, lease)) => {
            lease.end();
            Err(Fault::OutOfMemory)
        }
    }
}

/// Gives each thread a seat of the pool.
fn share_out<P: Pool + Drop>(
    pool: &Arc<P>,
    seats: Vec<P::Seat>,
    callers: &mut [Vec<Caller<P>>],
) -> Result<(), Fault>
    requires { All (λ seat. P.pool_of seat ≡ P.state (arc_value pool.now)) seats.items }
{
    let mut seats = seats;
    for own in callers {
        let Some(seat) = seats.pop() else {
            break;
        };
        let Ok(pool) = pool.clone() else {
            return Err(Fault::OutOfMemory);
        };
        let Ok(()) = own.push(Caller { pool, seat }) else {
            return Err(Fault::OutOfMemory);
        };
    }
    Ok(())
}

/// Lets as many threads begin together, or gives up after a million turns.
fn begin_together(begun: &AtomicUsize, threads: usize) {
    begun.fetch_add(1, Ordering::SeqCst);
    for _ in 0..1_000_000 {
        if begun.load(Ordering::SeqCst) >= threads {
            break;
        }
    }
}

/// Claims all places of the pools, and answers how many it claimed.
fn claim_by<P: Pool + Drop, R: Wait>(rt: &R, callers: Vec<Caller<P>>) -> u64 {
    let mut callers = callers;
    let mut claimed: u64 = 0;
    for caller in &mut callers {
        claimed = claimed.saturating_add(caller.claim_all(rt));
    }
    claimed
}

fn sum_of(numbers: &[u64]) -> u64 {
    let mut sum: u64 = 0;
    for number in numbers {
        sum = sum.saturating_add(*number);
    }
    sum
}

/// Adds 1 so many times.
fn add(word: &AtomicU64, times: u64) {
    for _ in 0..times {
        word.fetch_add(1, Ordering::SeqCst);
    }
}
