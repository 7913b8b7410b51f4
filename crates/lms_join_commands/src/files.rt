//! What both commands do with files.
ghost use Rattle.std.specs.Prelude.{IfErr, IfOk};
ghost use Rattle.lms_world.specs.Held.{Follows};
ghost use Rattle.lms_join_commands.specs.JoinLogs.{FailsToReadTwo, ReadsTwo};

use lms_commands::{Fault, read_file};
use lms_world::World;
use std::alloc::Global;

/// The bytes of two files, read one after the other. `ReadInput` where one can't be read,
/// `OutOfMemory` where memory for it was refused.
pub(crate) fn read_two<W: World>(
    alloc: Global,
    world: &mut W,
    first: &str,
    second: &str,
) -> Result<(Vec<u8>, Vec<u8>), Fault>
    ensures logged { IfOk result (λ both. ReadsTwo first.now second.now both.0.items both.1.items
        (W.events world.old) (W.events world.new)) }
    ensures unread { IfErr result (λ fault. FailsToReadTwo first.now second.now fault
        (W.events world.old) (W.events world.new)) }
    ensures follows { Follows (W.memory world.old) (W.events world.old)
        (W.memory world.new) (W.events world.new) }
{
    let one = read_file(alloc, world, first)?;
    let two = read_file(alloc, world, second)?;
    Ok((one, two))
}
