//! Each test of this file runs over both pools.
ghost use Rattle.std.specs.Prelude.{◌≡◌, All, IfOk};

mod fixtures;
mod shared_book;

use crate::tests::fixtures::{lease, pool};
use lms_cell_pool::CellPool;
use lms_pool::{Ended, IndexPool, MissingSeats, Tally};
use lms_pool_fixtures::{Claimed, Pool};
use std::alloc::{AllocGlobal, Global};
use std::fmt::Display;
use std::process::Abort;
use std::sync::Wait;
use std::sync::atomic::{AtomicUsize, Ordering};
use std::test::Fail;
use std::thread;
use std::thread::Threads;

fn got(place: u64, index: u64) -> Option<Claimed> {
    Some(Claimed { place, index })
}

fn tally(claimed: u64, stopped: u64, left: u64) -> Tally {
    Tally {
        claimed,
        stopped,
        left,
    }
}

/// Ends a pool whose seats are all there.
fn finished<P: Pool + Drop, R: Wait>(rt: &R, pool: P, seats: Vec<P::Seat>) -> Result<Tally, Fail>
    requires { All (λ seat. P.pool_of seat ≡ P.state pool) seats.items }
{
    Ok(pool.finish(rt, seats).ok().ok_or("all seats are there")?)
}

/// A pool of so many places from an index on, and its two seats.
fn pool_of_two<P: Pool + Drop, R: AllocGlobal + Wait>(
    rt: &R,
    start: u64,
    len: u64,
) -> Result<(P, P::Seat, P::Seat), Fail>
    ensures { IfOk result (λ r. (P.pool_of r.1 ≡ P.state r.0) × (P.pool_of r.2 ≡ P.state r.0)) }
{
    let (pool, mut seats) = pool::<P, R>(rt, start, len, 2)?;
    let b = seats.pop().ok_or("two seats")?;
    let a = seats.pop().ok_or("two seats")?;
    Ok((pool, a, b))
}

fn claims_in_turn<P: Pool + Drop, R: AllocGlobal + Wait + Abort>(rt: &R) -> Result<(), Fail> {
    let (pool, mut a, mut b) = pool_of_two::<P, R>(rt, 7, 3)?;
    let claims = [
        pool.claim(rt, &mut a),
        pool.claim(rt, &mut b),
        pool.claim(rt, &mut a),
        pool.claim(rt, &mut b),
        pool.claim(rt, &mut b),
        pool.claim(rt, &mut a),
    ];
    let seen = pool.look(rt, &mut a);
    let expected = [got(0, 7), got(1, 8), got(2, 9), None, None, None];
    assert!(rt; claims == expected && seen == 3);
    Ok(())
}

#[test]
fn two_seats_claim_in_turn(rt: HostRuntime) -> Result<(), Fail> {
    claims_in_turn::<IndexPool, HostRuntime>(&rt)?;
    claims_in_turn::<CellPool, HostRuntime>(&rt)
}

fn ends_where_stopped<P: Pool + Drop, R: AllocGlobal + Wait + Abort>(rt: &R) -> Result<(), Fail> {
    let (pool, mut seats) = pool::<P, R>(rt, 0, 10, 1)?;
    let mut a = seats.pop().ok_or("one seat")?;
    let claims = [pool.claim(rt, &mut a), pool.claim(rt, &mut a)];
    let stopped = pool.stop(rt, &mut a);
    let claimed = pool.claim(rt, &mut a);
    let seen = pool.look(rt, &mut a);
    let again = pool.stop(rt, &mut a);
    seats.push(a)?;
    let ended = finished(rt, pool, seats)?;
    assert!(rt;
        claims == [got(0, 0), got(1, 1)]
            && claimed.is_none()
            && (stopped, seen, again) == (8, 10, 0)
            && ended == tally(2, 8, 0)
    );
    Ok(())
}

#[test]
fn a_stopped_pool_has_ended(rt: HostRuntime) -> Result<(), Fail> {
    ends_where_stopped::<IndexPool, HostRuntime>(&rt)?;
    ends_where_stopped::<CellPool, HostRuntime>(&rt)
}

/// Ends a pool without its last seat, which is refused, and then with it. Answers how many seats
/// came first.
fn finished_at_last<P: Pool + Drop, R: Wait>(
    rt: &R,
    pool: P,
    seats: Vec<P::Seat>,
    last: P::Seat,
) -> Result<(usize, Tally), Fail>
    requires seats { All (λ seat. P.pool_of seat ≡ P.state pool) seats.items }
    requires last { P.pool_of last ≡ P.state pool }
{
    let Err((missing, pool, mut seats)) = pool.finish(rt, seats) else {
        return Err(Fail::from("a seat is missing"));
    };
    seats.push(last)?;
    Ok((missing.present, finished(rt, pool, seats)?))
}

fn waits_for_all<P: Pool + Drop, R: AllocGlobal + Wait + Abort>(rt: &R) -> Result<(), Fail> {
    let (pool, mut seats) = pool::<P, R>(rt, 0, 10, 2)?;
    let mut b = seats.pop().ok_or("two seats")?;
    let claims = [pool.claim(rt, &mut b), pool.claim(rt, &mut b)];
    let seen = pool.look(rt, &mut b);
    let ended = finished_at_last(rt, pool, seats, b)?;
    assert!(rt; claims == [got(0, 0), got(1, 1)] && seen == 2 && ended == (1, tally(2, 0, 8)));
    Ok(())
}

#[test]
fn a_seat_is_missing(rt: HostRuntime) -> Result<(), Fail> {
    waits_for_all::<IndexPool, HostRuntime>(&rt)?;
    waits_for_all::<CellPool, HostRuntime>(&rt)
}

/// A pool of three places from index 7 on and its two seats, made at the first or at the second
/// try.
fn made_at_last<P: Pool, R: AllocGlobal + Wait + Abort>(rt: &R) -> Result<(P, Vec<P::Seat>), Fail>
    ensures { IfOk result (λ r. All (λ seat. P.pool_of seat ≡ P.state r.0) r.1.items) }
{
    let (_, lease) = match P::over(rt, rt.alloc(), lease(rt.alloc(), 7, 3)?, 2) {
        Ok(made) => return Ok(made),
        Err(refused) => refused,
    };
    assert!(rt; (lease.start(), lease.len()) == (7, 3));
    match P::over(rt, rt.alloc(), lease, 2) {
        Ok(made) => Ok(made),
        Err((_, lease)) => {
            lease.end();
            Err(Fail::from("a second try"))
        }
    }
}

fn hands_back<P: Pool + Drop, R: AllocGlobal + Wait + Abort>(rt: &R) -> Result<(), Fail> {
    let (pool, mut seats) = made_at_last::<P, R>(rt)?;
    let mut b = seats.pop().ok_or("two seats")?;
    assert!(rt; pool.claim(rt, &mut b) == got(0, 7));
    Ok(())
}

/// The merge check refuses each request for memory in turn.
#[test]
fn a_pool_is_made_after_refused_memory(rt: HostRuntime) -> Result<(), Fail> {
    hands_back::<IndexPool, HostRuntime>(&rt)?;
    hands_back::<CellPool, HostRuntime>(&rt)
}

fn reads_what_others_do<P: Pool + Drop, R: AllocGlobal + Wait + Abort>(rt: &R) -> Result<(), Fail> {
    let (pool, mut a, mut b) = pool_of_two::<P, R>(rt, 0, 10)?;
    let claims = [pool.claim(rt, &mut a), pool.claim(rt, &mut a)];
    let claimed = pool.look(rt, &mut b);
    let stopped = pool.stop(rt, &mut a);
    let seen = pool.look(rt, &mut b);
    assert!(rt; claims == [got(0, 0), got(1, 1)] && (claimed, stopped, seen) == (2, 8, 10));
    Ok(())
}

#[test]
fn look_reads_the_word(rt: HostRuntime) -> Result<(), Fail> {
    reads_what_others_do::<IndexPool, HostRuntime>(&rt)?;
    reads_what_others_do::<CellPool, HostRuntime>(&rt)
}

/// Lets as many threads begin together, or gives up after a million turns. Answers how many came
/// before this one.
fn begin_together(begun: &AtomicUsize, threads: usize) -> usize {
    let before = begun.fetch_add(1, Ordering::SeqCst);
    for _ in 0..1_000_000 {
        if begun.load(Ordering::SeqCst) >= threads {
            break;
        }
    }
    before
}

/// Claims up to `most` places.
fn claim_up_to<P: Pool, R: Wait>(
    rt: &R,
    alloc: Global,
    pool: &P,
    seat: P::Seat,
    most: usize,
) -> (P::Seat, Vec<u64>)
    requires { P.pool_of seat ≡ P.state pool.now }
    ensures { P.pool_of result.0 ≡ P.state pool.now }
{
    let mut seat = seat;
    let mut places = Vec::new(alloc);
    for _ in 0..most {
        let Some(claimed) = pool.claim(rt, &mut seat) else {
            break;
        };
        if places.push(claimed.place).is_err() {
            break;
        }
    }
    (seat, places)
}

/// Claims up to ten places, and stops the pool.
fn stop_after_ten<P: Pool, R: Wait>(
    rt: &R,
    alloc: Global,
    pool: &P,
    seat: P::Seat,
) -> (P::Seat, Vec<u64>)
    requires { P.pool_of seat ≡ P.state pool.now }
    ensures { P.pool_of result.0 ≡ P.state pool.now }
{
    let (mut seat, places) = claim_up_to(rt, alloc, pool, seat, 10);
    pool.stop(rt, &mut seat);
    (seat, places)
}

/// Each seat claims in a thread of its own, all at once, up to `most` places; where one is to stop
/// the pool, the first to begin does, after ten.
fn claimed_by_all<P: Pool, R: Threads + Wait + Sync>(
    rt: &R,
    alloc: Global,
    pool: &P,
    seats: Vec<P::Seat>,
    most: usize,
    stops: bool,
) -> Result<Vec<(P::Seat, Vec<u64>)>, Fail>
where
    P::Seat: Send,
    requires { All (λ seat. P.pool_of seat ≡ P.state pool.now) seats.items }
    ensures { IfOk result (λ all.
        All (λ claimed. P.pool_of claimed.0 ≡ P.state pool.now) all.items) }
{
    let threads = seats.len();
    let begun = AtomicUsize::new(0);
    let all = thread::map_vec(
        rt,
        seats,
        &|seat: P::Seat| -> (P::Seat, Vec<u64>)
            requires { P.pool_of seat ≡ P.state pool.now }
            ensures { P.pool_of result.0 ≡ P.state pool.entry.now }
        {
            let before = begin_together(&begun, threads);
            if stops && before == 0 {
                stop_after_ten(rt, alloc, pool, seat)
            } else {
                claim_up_to(rt, alloc, pool, seat, most)
            }
        },
    )?;
    Ok(all)
}

/// Ends a pool of which each seat claimed, and answers what became of the places, where those that
/// were claimed are 0, 1, 2 and so on, each once.
fn finished_in_order<P: Pool + Drop, R: Wait>(
    rt: &R,
    alloc: Global,
    pool: P,
    all: Vec<(P::Seat, Vec<u64>)>,
) -> Result<Tally, Fail>
    requires { All (λ claimed. P.pool_of claimed.0 ≡ P.state pool) all.items }
{
    let mut all = all;
    let mut seats = Vec::new(alloc);
    let mut places = Vec::new(alloc);
    while let Some(claimed) = all.pop() {
        let (seat, more) = claimed;
        seats.push(seat)?;
        places.extend_from_slice(more.as_slice())?;
    }
    let tally = finished(rt, pool, seats)?;
    places.sort_unstable();
    let mut is_right = places.len() as u64 == tally.claimed;
    for place in 0..tally.claimed {
        is_right = is_right && places.get(place as usize) == Some(&place);
    }
    if is_right {
        Ok(tally)
    } else {
        Err(Fail::from("a place was not claimed, or twice"))
    }
}

/// What becomes of the places of a pool whose seats all claim at once.
fn claimed_at_once<P: Pool + Drop, R: Threads + Wait + Sync + AllocGlobal>(
    rt: &R,
    len: u64,
    seats: usize,
    most: usize,
    stops: bool,
) -> Result<Tally, Fail>
where
    P::Seat: Send,
{
    let (pool, seats) = pool::<P, R>(rt, 0, len, seats)?;
    let all = claimed_by_all(rt, rt.alloc(), &pool, seats, most, stops)?;
    finished_in_order(rt, rt.alloc(), pool, all)
}

/// What becomes of the places of both pools.
fn both_claimed_at_once<R: Threads + Wait + Sync + AllocGlobal>(
    rt: &R,
    len: u64,
    seats: usize,
    most: usize,
    stops: bool,
) -> Result<[Tally; 2], Fail> {
    Ok([
        claimed_at_once::<IndexPool, R>(rt, len, seats, most, stops)?,
        claimed_at_once::<CellPool, R>(rt, len, seats, most, stops)?,
    ])
}

/// Four threads claim 100 places, 64 one, and 64 as many as a lease has at most.
#[test]
fn threads_claim_all_places(rt: HostRuntime) -> Result<(), Fail> {
    for (len, seats, most) in [(100, 4, 1025), (1, 64, 1), (1024, 64, 1025)] {
        let tallies = both_claimed_at_once(&rt, len, seats, most, false)?;
        assert!(rt; tallies == [tally(len, 0, 0); 2], "{len}");
    }
    Ok(())
}

#[test]
fn a_thread_stops_the_pool(rt: HostRuntime) -> Result<(), Fail> {
    for tally in both_claimed_at_once(&rt, 1000, 4, 1025, true)? {
        assert!(rt; tally.left == 0 && tally.claimed.saturating_add(tally.stopped) == 1000);
    }
    Ok(())
}

#[test]
fn seats_are_numbered(rt: HostRuntime) -> Result<(), Fail> {
    let (_, a, b) = pool_of_two::<IndexPool, HostRuntime>(&rt, 0, 2)?;
    assert!(rt; (a.number(), b.number()) == (0, 1));
    Ok(())
}

/// Whether this is what a fault says.
fn says<T: Display>(alloc: Global, fault: &T, text: &str) -> bool {
    match fault.to_string(alloc) {
        Ok(said) => said.as_str() == text,
        Err(_) => false,
    }
}

#[test]
fn faults_say_what_failed(rt: HostRuntime) {
    let missing = MissingSeats { present: 1 };
    assert!(rt;
        says(rt.alloc(), &Ended, "the pool has ended")
            && says(rt.alloc(), &missing, "seats are missing: 1 came")
    );
}
