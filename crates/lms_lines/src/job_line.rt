//! One job line.
ghost use Rattle.std.specs.Prelude.{◌≡◌, IfOk, Err};
ghost use Rattle.lms_batch.specs.Jobs.{text_of, JobText};
ghost use Rattle.lms_lines.specs.JobLines.{IsJobLine};

use hex::FromHexError;
use lms_batch::Job;
use lms_params::HASH_LEN;
use std::alloc::Global;

/// The length of a randomizer's digits.
const C_DIGITS: usize = 64;

/// The most digits of a message.
const MOST_DIGITS: usize = 131_072;

/// The most bytes that a job line has before its LF.
pub(crate) const LONGEST_LINE: usize = C_DIGITS + 1 + MOST_DIGITS;

/// Why a line gave no job.
#[derive(Clone, Copy, Debug, PartialEq, Eq)]
pub(crate) enum LineFault {
    BadJob,
    OutOfMemory,
}

/// The job of a line without its LF. `BadJob` only where it is no job line, `OutOfMemory` where
/// memory for the message is refused.
pub(crate) fn parse_job(alloc: Global, line: &[u8]) -> Result<Job, LineFault>
    ensures ok { IfOk result (λ job. IsJobLine line.now (text_of job)) }
    ensures bad { result ≡ Err LineFault.BadJob → (job : JobText) → ¬ IsJobLine line.now job }
{
    if line.len() <= C_DIGITS || line.len() > LONGEST_LINE || line[C_DIGITS] != b' ' {
        return Err(LineFault::BadJob);
    }
    let (c_digits, rest) = line.split_at(C_DIGITS);
    let (_, message_digits) = rest.split_at(1);
    let mut c = [0; HASH_LEN];
    if hex::decode_to_slice(c_digits, &mut c).is_err() {
        return Err(LineFault::BadJob);
    }
    match hex::decode(alloc, message_digits) {
        Ok(message) => Ok(Job { c, message }),
        Err(e) => match e {
            FromHexError::OutOfMemory => Err(LineFault::OutOfMemory),
            _ => Err(LineFault::BadJob),
        },
    }
}
