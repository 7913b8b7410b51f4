//! What is run, and its times.
ghost use Rattle.std.specs.Prelude.{◌^◌, ◌<◌, ◌≤◌};

use crate::build::{BUILDS, Build};
use crate::case::{Bench, CASES, Case, Timed};
use crate::held::print_held;
use crate::hss_case::{HSS_CASES, HssBench, HssCase};
use crate::kept_case::{KEPT_CASES, KeptBench};
use bench_base::{
    Fault, Hierarchy, clock, process_clock, real, thread_clock, time_digests, time_digests_at_once,
    tree_compressions,
};
use lms_params::{LmsType, OtsType};
use std::thread::Threads;
use std::time::{Clock, CpuClock, Duration};

/// How often each time is taken. The least counts.
const ROUNDS: u32 = 20;

/// How many compressions a round makes, at least, and how many bare digests are timed beside a
/// build.
const COMPRESSIONS_A_ROUND: u64 = 1 << 16;

/// The heights at which a band tree of w = 4 is timed beside a whole one.
const BOTH: [(&str, LmsType); 2] = [("5/4", LmsType::H5), ("10/4", LmsType::H10)];

/// Whether each case is run once, or timed.
#[derive(Clone, Copy)]
pub enum Mode {
    Once,
    Timed,
}

/// Runs or times each case and each build, and weighs a forest.
pub fn measure(
    rt: &(impl Print + AllocGlobal + Clock + CpuClock + Threads + Sync),
    mode: Mode,
) -> Result<(), Fault> {
    for (name, case) in CASES {
        measure_case(rt, mode, name, case.compressions(), &mut Bench::new(case))?;
    }
    for (name, case) in HSS_CASES {
        measure_hss_case(rt, mode, name, case)?;
    }
    for (name, hierarchy) in KEPT_CASES {
        measure_kept_case(rt, mode, name, hierarchy)?;
    }
    for (name, build) in BUILDS {
        measure_build(rt, mode, name, build)?;
    }
    if let Mode::Timed = mode {
        for (levels, lms) in BOTH {
            measure_band(rt, levels, lms)?;
        }
    }
    print_held(rt)
}

/// Runs or times a case of a key of HSS.
fn measure_hss_case(
    rt: &(impl Print + AllocGlobal + CpuClock + Threads + Sync),
    mode: Mode,
    name: &str,
    case: HssCase,
) -> Result<(), Fault> {
    let mut bench = HssBench::new(rt, rt.alloc(), case)?;
    measure_case(rt, mode, name, bench.compressions()?, &mut bench)
}

/// Runs or times a case of kept nodes.
fn measure_kept_case(
    rt: &(impl Print + AllocGlobal + CpuClock + Threads + Sync),
    mode: Mode,
    name: &str,
    hierarchy: Hierarchy,
) -> Result<(), Fault> {
    let mut bench = KeptBench::new(rt, rt.alloc(), hierarchy)?;
    measure_case(rt, mode, name, bench.compressions()?, &mut bench)
}

/// Runs a case once and prints its compressions, or times it.
fn measure_case<T: Timed>(
    rt: &(impl Print + CpuClock),
    mode: Mode,
    name: &str,
    compressions: u64,
    timed: &mut T,
) -> Result<(), Fault> {
    match mode {
        Mode::Once => {
            timed.repeat(1)?;
            print_count(rt, name, compressions)
        }
        Mode::Timed => {
            let runs = runs_of(compressions);
            let times = time_case(rt, timed, runs, runs.saturating_mul(compressions))?;
            print_case(rt, name, compressions, runs, times)
        }
    }
}

fn print_count(rt: &impl Print, name: &str, compressions: u64) -> Result<(), Fault> {
    println!(rt; "{name}: {compressions} compressions")?;
    Ok(())
}

/// The least time of so many runs, and of so many bare digests.
fn time_case<T: Timed>(
    rt: &impl CpuClock,
    timed: &mut T,
    runs: u64,
    digests: u64,
) -> Result<(Duration, Duration), Fault> {
    let mut own = Duration::MAX;
    let mut bare = Duration::MAX;
    for _ in 0..ROUNDS {
        own = own.min(time_runs(rt, timed, runs)?);
        bare = bare.min(time_digests(rt, digests)?);
    }
    Ok((own, bare))
}

/// Prints the time of a run, its compressions, and the ratio of its time to that of bare digests.
fn print_case(
    rt: &impl Print,
    name: &str,
    compressions: u64,
    runs: u64,
    times: (Duration, Duration),
) -> Result<(), Fault> {
    let (own, bare) = times;
    let micros = own.as_secs_f64() * 1e6 / real(runs);
    let ratio = own.as_secs_f64() / bare.as_secs_f64();
    println!(rt; "{name}: {micros:.1} us, {compressions} compressions, ratio {ratio:.3}")?;
    Ok(())
}

/// Runs a build once and prints its compressions, or times it.
fn measure_build(
    rt: &(impl Print + AllocGlobal + Clock + CpuClock + Threads + Sync),
    mode: Mode,
    name: &str,
    build: Build,
) -> Result<(), Fault> {
    let compressions = build.compressions(rt, rt.alloc())?;
    match mode {
        Mode::Once => {
            build.run(rt, rt.alloc())?;
            print_count(rt, name, compressions)
        }
        Mode::Timed => {
            let mut least = BuildTimes::MAX;
            for _ in 0..ROUNDS {
                least = least.after_round(rt, build, compressions)?;
            }
            print_build(rt, name, build.ots(), compressions, least)
        }
    }
}

/// The least times of a build, and of what it is compared with: public hashes of eight leaves side
/// by side, and bare digests, in one thread; bare digests in a thread for each processor; and such
/// threads that do nothing.
#[derive(Clone, Copy)]
struct BuildTimes {
    own: Duration,
    by_lanes: Duration,
    bare: Duration,
    at_once: Duration,
    nothing: Duration,
}

impl BuildTimes {
    const MAX: BuildTimes = BuildTimes {
        own: Duration::MAX,
        by_lanes: Duration::MAX,
        bare: Duration::MAX,
        at_once: Duration::MAX,
        nothing: Duration::MAX,
    };

    /// The least of these times and of those of a further round.
    fn after_round(
        self,
        rt: &(impl AllocGlobal + Clock + CpuClock + Threads + Sync),
        build: Build,
        compressions: u64,
    ) -> Result<Self, Fault> {
        let processors = rayon::current_num_threads(rt);
        let own = time_build(rt, build)?;
        let by_lanes = time_eight_public_hashes(rt, build.ots())?;
        let bare = time_digests(rt, COMPRESSIONS_A_ROUND)?;
        let at_once = time_digests_at_once(rt, compressions, processors)?;
        let nothing = time_digests_at_once(rt, 0, processors)?;
        Ok(BuildTimes {
            own: self.own.min(own),
            by_lanes: self.by_lanes.min(by_lanes),
            bare: self.bare.min(bare),
            at_once: self.at_once.min(at_once),
            nothing: self.nothing.min(nothing),
        })
    }
}

/// The time of a round's public hashes, of eight leaves side by side.
fn time_eight_public_hashes(rt: &impl CpuClock, ots: OtsType) -> Result<Duration, Fault> {
    let case = Case::EightPublicHashes(ots);
    time_runs(rt, &mut Bench::new(case), runs_of(case.compressions()))
}

/// Prints for a build its compressions a second; how many times those of one thread with bare
/// digests they are, and how many times those of one with public hashes of eight leaves side by
/// side; their share of those of a thread with bare digests on each processor at once; and how long
/// such threads take that do nothing.
fn print_build(
    rt: &impl Print,
    name: &str,
    ots: OtsType,
    compressions: u64,
    times: BuildTimes,
) -> Result<(), Fault> {
    let eight = Case::EightPublicHashes(ots).compressions();
    let hashed = real(runs_of(eight)) * real(eight);
    let rate = real(compressions) / times.own.as_secs_f64();
    let threads = rate * times.bare.as_secs_f64() / real(COMPRESSIONS_A_ROUND);
    let lanes = rate * times.by_lanes.as_secs_f64() / hashed;
    let share = times.at_once.as_secs_f64() / times.own.as_secs_f64();
    let micros = times.nothing.as_secs_f64() * 1e6;
    println!(rt;
        "{name}: {rate:.0} compressions a second, {threads:.2} times one thread, {lanes:.2} times one by lanes, share {share:.2}, threads {micros:.0} us"
    )?;
    Ok(())
}

/// Builds a whole tree and a band tree in turn. Low trees are built more often.
fn measure_band(
    rt: &(impl Print + AllocGlobal + Clock + CpuClock + Threads + Sync),
    levels: &str,
    lms: LmsType,
) -> Result<(), Fault> {
    let mut whole = Both::MAX;
    let mut band = Both::MAX;
    let often = (1 << 20) / tree_compressions(lms, OtsType::W4).max(1) + 1;
    for _ in 0..u64::from(ROUNDS).saturating_mul(often) {
        whole = whole.least(time_both(rt, Build::Whole(lms, OtsType::W4))?);
        band = band.least(time_both(rt, Build::Band(lms, OtsType::W4))?);
    }
    print_band(rt, levels, whole, band)
}

/// Prints how many times as much processor time of all threads as a whole tree of these levels a
/// band tree takes, and how many times as long.
fn print_band(rt: &impl Print, levels: &str, whole: Both, band: Both) -> Result<(), Fault> {
    let processor = band.processor.as_secs_f64() / whole.processor.as_secs_f64();
    let clock = band.clock.as_secs_f64() / whole.clock.as_secs_f64();
    println!(rt;
        "BandTree::build {levels}: {processor:.3} times the processor time of WholeTree::build {levels}, {clock:.3} times as long"
    )?;
    Ok(())
}

/// The processor time of all threads, and the time on the clock.
#[derive(Clone, Copy)]
struct Both {
    processor: Duration,
    clock: Duration,
}

impl Both {
    const MAX: Both = Both {
        processor: Duration::MAX,
        clock: Duration::MAX,
    };

    fn least(self, other: Both) -> Both {
        Both {
            processor: self.processor.min(other.processor),
            clock: self.clock.min(other.clock),
        }
    }
}

/// Both times of a build.
fn time_both(
    rt: &(impl AllocGlobal + Clock + CpuClock + Threads + Sync),
    build: Build,
) -> Result<Both, Fault> {
    let start = process_clock(rt);
    let clock = time_build(rt, build)?;
    let processor = process_clock(rt).saturating_sub(start);
    Ok(Both { processor, clock })
}

/// How many runs a round has of what needs so many compressions.
fn runs_of(compressions: u64) -> u64
    ensures { result ≤ 2 ^ 17 }
{
    COMPRESSIONS_A_ROUND / compressions.max(1) + 1
}

/// The time of a build.
fn time_build(
    rt: &(impl AllocGlobal + Clock + Threads + Sync),
    build: Build,
) -> Result<Duration, Fault> {
    let start = clock(rt);
    build.run(rt, rt.alloc())?;
    Ok(clock(rt).saturating_sub(start))
}

/// The processor time of so many runs.
fn time_runs<T: Timed>(rt: &impl CpuClock, timed: &mut T, runs: u64) -> Result<Duration, Fault> {
    let start = thread_clock(rt);
    timed.repeat(runs)?;
    Ok(thread_clock(rt).saturating_sub(start))
}
