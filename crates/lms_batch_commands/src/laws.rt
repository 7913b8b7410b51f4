//! Laws of what commands do and leave in a world in memory, by their calls, where they are done and
//! where they fail, each as the contract of a function. No call of a product needs these functions.
ghost use Rattle.lms_batch_commands.specs.BatchInMemory.{FailsToSignJobsInMemory, SignsJobsInMemory};
ghost use Rattle.lms_batch_commands.specs.ServeInMemory.{FailsToServeInMemory, ServesInMemory, TriesInMemory};
ghost use Rattle.lms_batch_commands.specs.ServedLines.{ServesEachLine};
ghost use Rattle.lms_batch_commands.specs.ServingTurns.{FailsInTurns, ServesInTurns};

/// In a world in memory, by the calls of `sign_jobs`: where it is done, all jobs are signed and
/// answered, and their indices are counted as used; where it fails, why, and what is left.
pub fn signs_jobs_in_memory()
    ensures done { SignsJobsInMemory }
    ensures fails { FailsToSignJobsInMemory }
{}

/// In a world in memory, by the calls of `serve_jobs`: what each group that it tries finds and
/// leaves. Where it is done, the groups are all lines that it read, and each is answered; where it
/// fails, why, and which groups it tried.
pub fn serves_in_memory()
    ensures groups { TriesInMemory }
    ensures done { ServesInMemory }
    ensures fails { FailsToServeInMemory }
{}

/// All calls of `serve_jobs`, done or failed, are those of turns at its state, one after another. One
/// that uses indices reads what the call stored last, if it stored anything before; their use is
/// stored for certain, and said by the witness, if there is one, before anything leaves. No file is
/// written, and what is printed is a beginning of the lines of their signatures.
pub fn serves_in_turns()
    ensures done { ServesInTurns }
    ensures fails { FailsInTurns }
{}

/// Where `serve_jobs` is done, it has read its input to the end and answered each line of it, in
/// order, however the lines came in groups.
pub fn serves_each_line()
    ensures { ServesEachLine }
{}
