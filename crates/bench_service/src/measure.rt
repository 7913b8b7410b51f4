//! Claims, batches and their lines: what is run, and its times.
use crate::batches::Batches;
use crate::claims::{places_of, time_additions, time_claims};
use crate::lines::Lines;
use crate::workers::{WORKERS, Workers};
use bench_base::{Fault, Hierarchy, MESSAGE, real, time_digests, time_digests_at_once};
use lms_cell_pool::CellPool;
use lms_params::{LmsType, OtsType};
use lms_pool::IndexPool;
use std::sync::Wait;
use std::thread::Threads;
use std::time::{Clock, CpuClock, Duration};

/// Each key whose batches are timed, and its levels' text, in the order in which they are printed.
const SIGNED: [(&str, Hierarchy); 2] = [
    (
        "5/8,10/8",
        Hierarchy(&[(LmsType::H5, OtsType::W8), (LmsType::H10, OtsType::W8)]),
    ),
    (
        "5/8,10/4",
        Hierarchy(&[(LmsType::H5, OtsType::W8), (LmsType::H10, OtsType::W4)]),
    ),
];

/// How many jobs a batch has that is timed.
const JOBS: usize = 1024;

/// The key whose batches are run once.
const SMALL: Hierarchy = Hierarchy(&[(LmsType::H5, OtsType::W8); 2]);

/// The key whose indices sign the jobs of the lines.
const ANSWERING: Hierarchy = Hierarchy(&[(LmsType::H5, OtsType::W4); 2]);

/// In how many rounds each time of a batch is taken. The least counts, so one round with free
/// processors is enough.
const BATCH_ROUNDS: u32 = 10;

/// How many batches are signed one after another in a round, and how often bare digests are made
/// so: the processors that the first of them wakes are awake at the others.
const IN_A_ROW: u32 = 4;

/// How often lines are timed. The least counts.
const LINE_ROUNDS: u32 = 5;

/// How often claims are timed.
const CLAIM_ROUNDS: u32 = 20;

/// How many pools are used up each time.
const POOLS: u64 = 512;

/// How many pools of each kind are used up once.
const FEW_POOLS: u64 = 4;

/// Claims by each number of threads, signs four jobs by each number of workers, and four of job
/// lines.
pub fn run_once<R>(rt: &R) -> Result<(), Fault>
where
    R: Print + AllocGlobal + Clock + CpuClock + Threads + Wait + Sync,
{
    for workers in WORKERS {
        time_claims::<IndexPool, R>(rt, FEW_POOLS, workers)?;
        print_number(rt, "IndexPool::claim threads", workers.count())?;
        time_claims::<CellPool, R>(rt, FEW_POOLS, workers)?;
        print_number(rt, "CellPool::claim threads", workers.count())?;
    }
    let batches = Batches::new(rt.alloc(), SMALL, 4, &MESSAGE)?;
    for workers in WORKERS {
        batches.sign(rt, workers)?;
        print_number(
            rt,
            "SigningService::sign_batch 5/8,5/8 workers",
            workers.count(),
        )?;
    }
    batches.sign_by_kept(rt, Workers::One)?;
    print_number(rt, "SigningService::sign_batch_by 5/8,5/8 workers", 1)?;
    run_lines(rt)
}

/// Reads four job lines, signs their jobs and writes the answers, and prints the bytes of both.
fn run_lines<R>(rt: &R) -> Result<(), Fault>
where
    R: Print + AllocGlobal + Clock + CpuClock + Threads + Wait + Sync,
{
    let mut lines = Lines::new(rt.alloc(), 4)?;
    time_lines(rt, &mut lines, 4)?;
    print_number(rt, "read_jobs bytes", lines.read.len())?;
    print_number(rt, "write_batch 5/4,5/4 bytes", lines.written.len())
}

fn print_number(rt: &impl Print, name: &str, number: usize) -> Result<(), Fault> {
    println!(rt; "{name}={number}")?;
    Ok(())
}

/// Times claims, batches and lines.
pub fn measure<R>(rt: &R) -> Result<(), Fault>
where
    R: Print + AllocGlobal + Clock + CpuClock + Threads + Wait + Sync,
{
    for workers in WORKERS {
        measure_claims(rt, workers)?;
    }
    for (levels, hierarchy) in SIGNED {
        measure_batches(rt, levels, hierarchy)?;
    }
    measure_lines(rt)
}

/// Takes the times of claims on both pools and of bare additions in turn. All are of the rounds
/// together: how much threads contend changes from round to round, and the least times would be of
/// different ones.
fn measure_claims<R>(rt: &R, workers: Workers) -> Result<(), Fault>
where
    R: Print + AllocGlobal + Clock + Threads + Wait + Sync,
{
    let mut word = Duration::ZERO;
    let mut cell = Duration::ZERO;
    let mut bare = Duration::ZERO;
    for _ in 0..CLAIM_ROUNDS {
        word = word.saturating_add(time_claims::<IndexPool, R>(rt, POOLS, workers)?);
        cell = cell.saturating_add(time_claims::<CellPool, R>(rt, POOLS, workers)?);
        bare = bare.saturating_add(time_additions(rt, POOLS, workers)?);
    }
    let threads = workers.count();
    print_claims(rt, "IndexPool::claim", threads, word, bare)?;
    print_claims(rt, "CellPool::claim", threads, cell, bare)
}

/// Prints how many places are claimed a second, how many bare additions as many threads make, and
/// the ratio of the times.
fn print_claims(
    rt: &impl Print,
    name: &str,
    threads: usize,
    own: Duration,
    bare: Duration,
) -> Result<(), Fault> {
    let count = f64::from(CLAIM_ROUNDS) * real(places_of(POOLS));
    let claimed = count / own.as_secs_f64();
    let added = count / bare.as_secs_f64();
    let ratio = own.as_secs_f64() / bare.as_secs_f64();
    println!(rt;
        "{name} threads={threads}: {claimed:.0} a second, bare additions {added:.0} a second, ratio {ratio:.2}"
    )?;
    Ok(())
}

/// The least times of a batch, of one by kept trees, of covering its indices and of as many bare
/// digests.
#[derive(Clone, Copy)]
struct Times {
    whole: Duration,
    kept: Duration,
    cover: Duration,
    signing: Duration,
    processor: Duration,
    bare: Duration,
    at_once: Duration,
}

impl Times {
    const NONE: Times = Times {
        whole: Duration::MAX,
        kept: Duration::MAX,
        cover: Duration::MAX,
        signing: Duration::MAX,
        processor: Duration::MAX,
        bare: Duration::MAX,
        at_once: Duration::MAX,
    };

    /// The least of these times and of those of a further round.
    fn after_round<R>(
        self,
        rt: &R,
        batches: &Batches,
        compressions: u64,
        workers: Workers,
    ) -> Result<Times, Fault>
    where
        R: AllocGlobal + Clock + CpuClock + Threads + Wait + Sync,
    {
        let mut least = self;
        for _ in 0..IN_A_ROW {
            least = least.after_batch(rt, batches, workers)?;
        }
        for _ in 0..IN_A_ROW {
            let at_once = time_digests_at_once(rt, compressions, workers.count())?;
            least.at_once = least.at_once.min(at_once);
        }
        let kept = batches.sign_by_kept(rt, workers)?;
        least.kept = least.kept.min(kept.whole);
        let cover = batches.time_cover(rt)?;
        least.cover = least.cover.min(cover);
        let bare = time_digests(rt, compressions)?;
        least.bare = least.bare.min(bare);
        Ok(least)
    }

    /// The least of these times and of those of a further batch.
    fn after_batch<R>(self, rt: &R, batches: &Batches, workers: Workers) -> Result<Times, Fault>
    where
        R: AllocGlobal + Clock + CpuClock + Threads + Wait + Sync,
    {
        let signed = batches.sign(rt, workers)?;
        Ok(Times {
            whole: self.whole.min(signed.whole),
            signing: self.signing.min(signed.signing),
            processor: self.processor.min(signed.processor),
            ..self
        })
    }
}

/// Times batches by each number of workers.
fn measure_batches<R>(rt: &R, levels: &str, hierarchy: Hierarchy) -> Result<(), Fault>
where
    R: Print + AllocGlobal + Clock + CpuClock + Threads + Wait + Sync,
{
    let batches = Batches::new(rt.alloc(), hierarchy, JOBS, &MESSAGE)?;
    let compressions = compressions_of(rt, &batches)?;
    let mut least = [Times::NONE; 3];
    for _ in 0..BATCH_ROUNDS {
        least = after_round(rt, &batches, compressions, least)?;
    }
    print_batches(rt, levels, compressions, least)
}

/// The least of these times, by each number of workers, and of those of a further round.
fn after_round<R>(
    rt: &R,
    batches: &Batches,
    compressions: u64,
    least: [Times; 3],
) -> Result<[Times; 3], Fault>
where
    R: AllocGlobal + Clock + CpuClock + Threads + Wait + Sync,
{
    let [one, two, four] = least;
    let one = one.after_round(rt, batches, compressions, Workers::One)?;
    let two = two.after_round(rt, batches, compressions, Workers::Two)?;
    let four = four.after_round(rt, batches, compressions, Workers::Four)?;
    Ok([one, two, four])
}

/// Prints the times by each number of workers; then the ratio of one worker's time of signing to
/// that of bare digests, both in processor time of one thread.
fn print_batches(
    rt: &impl Print,
    levels: &str,
    compressions: u64,
    least: [Times; 3],
) -> Result<(), Fault> {
    let [one, two, four] = least;
    print_times(rt, levels, 1, one, one)?;
    print_times(rt, levels, 2, one, two)?;
    print_times(rt, levels, 4, one, four)?;
    let ratio = one.processor.as_secs_f64() / one.bare.as_secs_f64();
    println!(rt; "one worker: {compressions} compressions, ratio {ratio:.3}")?;
    Ok(())
}

/// The compressions of a batch's signatures.
fn compressions_of<R>(rt: &R, batches: &Batches) -> Result<u64, Fault>
where
    R: AllocGlobal + Clock + CpuClock + Threads + Wait + Sync,
{
    let signed = batches.sign(rt, Workers::One)?;
    batches.compressions(&signed.batch)
}

/// Prints the signatures that so many workers make a second, and how many times those of one worker
/// these are; how many times as many bare digests as one thread as many threads make at once; what
/// share of these bare digests the signatures' compressions are; the signatures a second by the time
/// of the batch less that of covering its indices; and the time of a batch by kept trees, beside that
/// of the signatures alone.
fn print_times(
    rt: &impl Print,
    levels: &str,
    workers: u32,
    one: Times,
    times: Times,
) -> Result<(), Fault> {
    let rate = JOBS as f64 / times.signing.as_secs_f64();
    let scale = one.signing.as_secs_f64() / times.signing.as_secs_f64();
    let threads = one.at_once.as_secs_f64() / times.at_once.as_secs_f64();
    let share = times.at_once.as_secs_f64() / times.signing.as_secs_f64();
    let rest = times.whole.saturating_sub(times.cover).as_secs_f64();
    let less_cover = JOBS as f64 / rest;
    let kept = times.kept.as_secs_f64() / times.signing.as_secs_f64();
    println!(rt;
        "SigningService::sign_batch {levels} workers={workers}: {rate:.0} signatures a second, {scale:.2} times one worker, bare digests {threads:.2} times one thread, share {share:.2}, {less_cover:.0} by the batch less its cover, by kept trees {kept:.3} of the signatures' time"
    )?;
    Ok(())
}

/// The times of reading job lines, of signing their jobs by one worker and of writing the answers.
#[derive(Clone, Copy)]
struct LineTimes {
    read: Duration,
    /// Of the signatures alone.
    signatures: Duration,
    /// Of the call that signs, of all threads.
    call: Duration,
    write: Duration,
}

impl LineTimes {
    fn least(self, other: LineTimes) -> LineTimes {
        LineTimes {
            read: self.read.min(other.read),
            signatures: self.signatures.min(other.signatures),
            call: self.call.min(other.call),
            write: self.write.min(other.write),
        }
    }
}

/// Reads so many job lines, signs their jobs and writes the answers.
fn time_lines<R>(rt: &R, lines: &mut Lines, count: usize) -> Result<LineTimes, Fault>
where
    R: AllocGlobal + Clock + CpuClock + Threads + Wait + Sync,
{
    let (jobs, read) = lines.jobs(rt, count)?;
    let hierarchy = ANSWERING;
    let signed = Batches { hierarchy, jobs }.sign(rt, Workers::One)?;
    let write = lines.time_write(rt, &signed.batch)?;
    Ok(LineTimes {
        read,
        signatures: signed.processor,
        call: signed.whole_processor,
        write,
    })
}

/// Times job lines, of as many jobs as a batch.
fn measure_lines<R>(rt: &R) -> Result<(), Fault>
where
    R: Print + AllocGlobal + Clock + CpuClock + Threads + Wait + Sync,
{
    let mut lines = Lines::new(rt.alloc(), JOBS)?;
    let mut least = time_lines(rt, &mut lines, JOBS)?;
    for _ in 1..LINE_ROUNDS {
        least = least.least(time_lines(rt, &mut lines, JOBS)?);
    }
    print_lines(
        rt,
        lines.read.len() as u64,
        lines.written.len() as u64,
        least,
    )
}

/// Prints how many bytes of job lines are read a second, and of answers written; then how much
/// processor time both take beside that of signing the jobs by one worker, with the trees that it
/// builds, and beside that of the signatures alone.
fn print_lines(rt: &impl Print, read: u64, written: u64, times: LineTimes) -> Result<(), Fault> {
    let read_rate = real(read) / 1e6 / times.read.as_secs_f64();
    let write_rate = real(written) / 1e6 / times.write.as_secs_f64();
    let both = times.read.as_secs_f64() + times.write.as_secs_f64();
    let of_signing = both / times.call.as_secs_f64();
    let of_signatures = both / times.signatures.as_secs_f64();
    println!(rt;
        "read_jobs: {read_rate:.1} MB/s, write_batch 5/4,5/4: {write_rate:.1} MB/s, {of_signing:.3} of the time of sign_batch, {of_signatures:.3} of that of the signatures alone"
    )?;
    Ok(())
}
