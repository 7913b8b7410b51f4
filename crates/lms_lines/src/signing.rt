//! Job lines signed by a service.
ghost use Rattle.std.specs.Prelude.{◌≡◌, ◌≤◌, IfOk, IfErr, count_by, is_some};
ghost use Rattle.lms_batch.specs.Jobs.{most_workers};
ghost use Rattle.lms_lines.specs.SignedLines.{IsSigned, IsUnsigned, SignsLines, signatures_in};

use crate::answers::write_batch;
use crate::fault::LinesFault;
use crate::jobs::read_jobs;
use lms_batch::{Batch, OpenGate, SigningService, Trees};
use lms_book::StateStore;
use lms_hss::{Progress, Unwatched};
use lms_shared_book::{BookLedger, Desk};
use std::alloc::Global;
use std::io::{Read, Write};
use std::marker::Sync;
use std::sync::Wait;
use std::sync::ledger::Ledger;
use std::thread::Threads;

/// What was done for job lines.
#[derive(Clone, Copy, Debug, PartialEq, Eq)]
pub struct Done {
    /// How many jobs were signed: as many answer lines were written.
    pub signed: usize,
    /// How many jobs there were.
    pub asked: usize,
}

/// Jobs that were read and signed.
#[derive(Drop)]
pub struct SignedJobs {
    /// Their signatures, in the order of the jobs.
    pub batch: Batch,
    /// How many jobs there were.
    pub asked: usize,
}

/// Reads job lines to their end, signs them as one batch by 1 to `MOST_WORKERS` workers, and writes
/// a line for each signature, in the order of the jobs. Waits for the book's lock and for the
/// workers. `signed` is less than `asked` where a worker was refused memory.
///
/// `Jobs` where the lines are not read, as `read_jobs` says; `Batch` as
/// `SigningService::sign_batch` says, but for too many jobs, which `Jobs` reports; `Write` where
/// the writer failed, after a beginning of the lines.
pub fn sign_lines<S, E, G, B, R, I, O>(
    rt: &R,
    alloc: Global,
    service: &SigningService<S, E, G, B>,
    reader: &mut I,
    writer: &mut O,
    desk: &mut Desk<E, G, B>,
    workers: usize,
) -> Result<Done, LinesFault>
where
    S: StateStore,
    E: BookLedger,
    G: Ledger,
    B: Ledger,
    R: Threads + Wait + Sync,
    I: Read,
    O: Write,
    requires some { 1 ≤ workers }
    requires at_most { workers ≤ most_workers }
    ensures { SignsLines O.contents service.now (I.remaining reader.old) (I.remaining reader.new)
        writer.old writer.new desk.old desk.new result }
{
    let trees = &mut Trees::per_batch();
    let jobs = read_and_sign(rt, alloc, service, reader, desk, workers, &Unwatched, trees)?;
    match write_batch(writer, &jobs.batch) {
        Ok(()) => Ok(Done {
            signed: count_signatures(&jobs.batch),
            asked: jobs.asked,
        }),
        Err(_) => Err(LinesFault::Write),
    }
}

/// Reads job lines to their end and signs them as one batch by 1 to `MOST_WORKERS` workers, and
/// writes nothing: `write_batch` writes the lines of the answer's batch. Waits for the book's lock
/// and for the workers. The batch has fewer signatures than `asked` where a worker was refused
/// memory. It signs by these trees, which may be kept from one batch to the next, and on which the
/// answer does not depend; `progress` gets how many of their leaves are computed.
///
/// `Jobs` where the lines are not read, as `read_jobs` says, and then nothing was reserved; `Batch`
/// as `SigningService::sign_batch` says, but for too many jobs, which `Jobs` reports. Never
/// `Write`.
pub fn read_and_sign<S, E, G, B, R, I, P>(
    rt: &R,
    alloc: Global,
    service: &SigningService<S, E, G, B>,
    reader: &mut I,
    desk: &mut Desk<E, G, B>,
    workers: usize,
    progress: &P,
    trees: &mut Trees,
) -> Result<SignedJobs, LinesFault>
where
    S: StateStore,
    E: BookLedger,
    G: Ledger,
    B: Ledger,
    R: Threads + Wait + Sync,
    I: Read,
    P: Progress,
    requires some { 1 ≤ workers }
    requires at_most { workers ≤ most_workers }
    ensures signed { IfOk result
        (IsSigned service.now (I.remaining reader.old) (I.remaining reader.new) desk.old desk.new) }
    ensures unsigned { IfErr result
        (IsUnsigned service.now (I.remaining reader.old)
        (I.remaining reader.new) desk.old desk.new) }
{
    let jobs = match read_jobs(alloc, reader) {
        Ok(jobs) => jobs,
        Err(fault) => return Err(LinesFault::Jobs(fault)),
    };
    let batch = match service.sign_batch_by(
        rt, alloc, desk, &jobs, workers, &OpenGate, progress, trees,
    ) {
        Ok(batch) => batch,
        Err(fault) => return Err(LinesFault::Batch(fault)),
    };
    Ok(SignedJobs {
        batch,
        asked: jobs.len(),
    })
}

/// How many signatures a batch has: one for each job of a `Complete` batch, and fewer in a
/// `Partial` one.
pub fn count_signatures(batch: &Batch) -> usize
    ensures { result ≡ signatures_in batch.now }
{
    match batch {
        Batch::Complete {
            start: _,
            signatures,
        } => signatures.len(),
        Batch::Partial { start: _, slots } => filled(slots.as_slice()),
    }
}

/// How many of the slots are filled.
fn filled(slots: &[Option<Vec<u8>>]) -> usize
    ensures { result ≡ count_by is_some slots.now }
{
    slots.iter().filter(|slot| slot.is_some()).count()
}
