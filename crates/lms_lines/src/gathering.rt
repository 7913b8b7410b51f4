//! Jobs gathered from the blocks of job lines.
ghost use Rattle.std.specs.Prelude.{◌≡◌, ℕ, List, [], ◌+◌, ◌<◌, ◌≤◌, ◌↔◌, ◌++◌, length, take, map, slice_index, Err, OnOk, IfOk, IfErr, IsTrue, MatchOption};
ghost use Rattle.lms_batch.specs.Jobs.{most_jobs, text_of, JobText};
ghost use Rattle.lms_lines.specs.JobLines.{longest_line, IsJobLine};
ghost use Rattle.lms_lines.specs.JobsTexts.{IsJobsText, IsFaultOf};
ghost use Rattle.lms_lines.specs.Gathered.{HasNoEnd, gathered, IsGatheredFrom, Advances, Fails, after_part, after_line, IsRefusal};
ghost use Rattle.lms_lines.specs.declared.fault.JobsFault.TheVariants.{BadJob};

use crate::fault::JobsFault;
use crate::job_line::{LONGEST_LINE, LineFault, parse_job};
use lms_batch::{Job, MOST_JOBS};
use memchr::memchr;
use std::alloc::Global;

/// The jobs of the lines so far, and what there is of the next line, which is never longer than a
/// job line.
#[derive(Drop)]
pub(crate) struct Gathering {
    jobs: Vec<Job>,
    line: Vec<u8>,
}

impl Gathering {
    pub(crate) fn new(alloc: Global) -> Self
        ensures { IsGatheredFrom [] (gathered result) }
    {
        Gathering {
            jobs: Vec::new(alloc),
            line: Vec::new(alloc),
        }
    }

    /// Takes the next bytes of the input. `BadJob` or `TooManyJobs` is the fault of the input
    /// whatever follows these bytes; `OutOfMemory` where memory is refused.
    pub(crate) fn take_block(&mut self, alloc: Global, block: &[u8]) -> Result<(), JobsFault>
        ensures ok { OnOk result (Advances (gathered self.old) (gathered self.new) block.now) }
        ensures fault { IfErr result (Fails (gathered self.old) block.now) }
    {
        let mut rest = block;
        while !rest.is_empty() {
            let taken = self.take_line(alloc, rest)?;
            rest = &rest[taken..];
        }
        Ok(())
    }

    /// Takes the bytes up to the first LF, or all where there is none, and answers how many these
    /// are, with LF. Its faults are those of `take_block`.
    fn take_line(&mut self, alloc: Global, bytes: &[u8]) -> Result<usize, JobsFault>
        requires { 0 < length bytes.now }
        ensures some { IfOk result (λ n. (0 < n) × (n ≤ length bytes.now)) }
        ensures ok { IfOk result (λ n.
            Advances (gathered self.old) (gathered self.new) (take n bytes.now)) }
        ensures fault { IfErr result (Fails (gathered self.old) bytes.now) }
    {
        if self.is_full() {
            return Err(JobsFault::TooManyJobs);
        }
        match line_end(bytes) {
            Some(at) => {
                self.end_line(alloc, &bytes[..at])?;
                Ok(at + 1)
            }
            None => {
                self.add(bytes)?;
                Ok(bytes.len())
            }
        }
    }

    /// Whether there are as many jobs as there may be.
    fn is_full(&self) -> bool
        ensures { IsTrue result ↔ (most_jobs ≤ length (gathered self.now).jobs) }
    {
        self.jobs.len() >= MOST_JOBS
    }

    /// Adds bytes to the line. `BadJob` where it would be longer than any job line, `OutOfMemory`
    /// where memory is refused.
    fn add(&mut self, part: &[u8]) -> Result<(), JobsFault>
        ensures ok { OnOk result (gathered self.new ≡ after_part (gathered self.old) part.now) }
        ensures jobs { OnOk result (self.new.jobs ≡ self.old.jobs) }
        ensures short { OnOk result (length self.old.line.items + length part.now ≤ longest_line) }
        ensures fault { IfErr result (λ e.
            IsRefusal (gathered self.old) e
            (longest_line < length self.old.line.items + length part.now)) }
    {
        if part.len() > LONGEST_LINE || self.line.len() > LONGEST_LINE - part.len() {
            return Err(self.bad_line());
        }
        self.line.extend_from_slice(part)?;
        Ok(())
    }

    /// Ends the line with these bytes, and adds its job. `BadJob` where it is no job line,
    /// `OutOfMemory` where memory is refused.
    fn end_line(&mut self, alloc: Global, end: &[u8]) -> Result<(), JobsFault>
        ensures ok { OnOk result
            ((job : JobText) × IsJobLine (self.old.line.items ++ end.now) job
            × (gathered self.new ≡ after_line (gathered self.old) job)) }
        ensures fault { IfErr result (λ e.
            IsRefusal (gathered self.old) e
            ((job : JobText) → ¬ IsJobLine (self.old.line.items ++ end.now) job)) }
    {
        let job = self.ended(alloc, end)?;
        self.jobs.push(job)?;
        self.line.clear();
        Ok(())
    }

    /// The job of the line that ends with these bytes, with the faults of `end_line`. Where they
    /// are the whole line, they are judged in place, without a copy.
    fn ended(&mut self, alloc: Global, end: &[u8]) -> Result<Job, JobsFault>
        ensures ok { IfOk result (λ job. IsJobLine (self.old.line.items ++ end.now) (text_of job)) }
        ensures jobs { OnOk result (self.new.jobs ≡ self.old.jobs) }
        ensures fault { IfErr result (λ e.
            IsRefusal (gathered self.old) e
            ((job : JobText) → ¬ IsJobLine (self.old.line.items ++ end.now) job)) }
    {
        if self.line.is_empty() {
            return self.judged(alloc, end);
        }
        self.add(end)?;
        self.judged(alloc, self.line.as_slice())
    }

    /// The job of this line, which is the one after those of the jobs so far, with the faults of
    /// `end_line`.
    fn judged(&self, alloc: Global, line: &[u8]) -> Result<Job, JobsFault>
        ensures ok { IfOk result (λ job. IsJobLine line.now (text_of job)) }
        ensures fault { IfErr result (λ e.
            IsRefusal (gathered self.now) e ((job : JobText) → ¬ IsJobLine line.now job)) }
    {
        match parse_job(alloc, line) {
            Ok(job) => Ok(job),
            Err(LineFault::BadJob) => Err(self.bad_line()),
            Err(LineFault::OutOfMemory) => Err(JobsFault::OutOfMemory),
        }
    }

    /// The fault that the line after those of the jobs so far is no job line.
    fn bad_line(&self) -> JobsFault
        ensures { result ≡ BadJob (length (gathered self.now).jobs + 1) }
    {
        JobsFault::BadJob {
            line: self.jobs.len() as u64 + 1,
        }
    }

    /// The jobs of the input, which has ended. `BadJob` where its last line lacks LF and is no job
    /// line, `OutOfMemory` where memory is refused.
    pub(crate) fn finish(mut self, alloc: Global) -> Result<Vec<Job>, JobsFault>
        ensures ok { IfOk result (λ jobs.
            (done : List ℕ) → IsGatheredFrom done (gathered self)
            → IsJobsText done (map text_of jobs.items)) }
        ensures fault { IfErr result (λ e.
            (done : List ℕ) → IsGatheredFrom done (gathered self) → IsFaultOf done e) }
    {
        if self.line.is_empty() {
            let Gathering { jobs, line: _ } = self;
            return Ok(jobs);
        }
        self.end_line(alloc, b"")?;
        let Gathering { jobs, line: _ } = self;
        Ok(jobs)
    }
}

/// Where the first LF is, counted from 0. `None` where there is none.
pub(crate) fn line_end(bytes: &[u8]) -> Option<usize>
    ensures { MatchOption result (HasNoEnd bytes.now) (λ at.
        (at < length bytes.now) × HasNoEnd (take at bytes.now) × (slice_index bytes.now at ≡ 10)) }
{
    memchr(b'\n', bytes)
}
