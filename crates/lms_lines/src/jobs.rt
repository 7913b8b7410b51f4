//! Job lines read to their end.
ghost use Rattle.std.specs.Prelude.{◌≡◌, ◌<◌, map, IfOk, IfErr, IfSome, vec_len};
ghost use Rattle.lms_batch.specs.Jobs.{text_of};
ghost use Rattle.lms_lines.specs.JobsTexts.{IsFaultOf, ReadsJobs};
ghost use Rattle.lms_lines.specs.declared.fault.JobsFault.TheVariants.{OutOfMemory};

use crate::fault::JobsFault;
use crate::gathering::Gathering;
use crate::job_line::LONGEST_LINE;
use lms_batch::{Job, MOST_JOBS};
use lms_blocks::read_block;
use std::alloc::Global;
use std::io::Read;

/// How many bytes are asked for at once.
const BLOCK: usize = 65_536;

/// More bytes than an input without a fault has: the longest lines, with LF, and one more of them
/// than a batch has jobs.
const TOO_LONG: usize = (MOST_JOBS + 1) * (LONGEST_LINE + 1);

/// Reads job lines to their end, and answers their jobs. The lines are judged one after another,
/// and the first fault ends the reading. A line that is too long is refused without being stored
/// whole.
pub fn read_jobs<R: Read>(alloc: Global, reader: &mut R) -> Result<Vec<Job>, JobsFault>
    ensures ok { IfOk result (λ jobs.
        ReadsJobs (R.remaining reader.old) (R.remaining reader.new) (map text_of jobs.items)) }
    ensures fault { IfErr result (λ e. IfSome (R.remaining reader.old) (λ text. IsFaultOf text e)) }
{
    let mut block = new_block(alloc)?;
    let mut gathering = Gathering::new(alloc);
    for _turn in 0..TOO_LONG {
        let Ok(count) = read_block(reader, block.as_mut_slice()) else {
            return Err(JobsFault::Read);
        };
        if count == 0 {
            return gathering.finish(alloc);
        }
        gathering.take_block(alloc, &block[..count])?;
    }
    unreachable!()
}

/// A block of `BLOCK` bytes. `OutOfMemory` where memory for it is refused.
fn new_block(alloc: Global) -> Result<Vec<u8>, JobsFault>
    ensures some { IfOk result (λ block. 0 < vec_len block) }
    ensures fault { IfErr result (λ e. e ≡ OutOfMemory) }
{
    Ok(vec![in alloc; 0u8; BLOCK]?)
}
