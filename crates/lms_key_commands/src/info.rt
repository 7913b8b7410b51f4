//! `info`: what a key's state says.
ghost use Rattle.std.specs.Prelude.{◌≡◌, ◌++◌, IfErr, IfOk, OnOk};
ghost use Rattle.lms_world.specs.Held.{Follows};
ghost use Rattle.lms_commands.specs.Logs.{KeyState, LeavesState, LogsUnopened, state_in};
ghost use Rattle.lms_key_commands.specs.InfoLogs.{LogsInfo, LogsInfoFailed, LogsUndescribed, ReadsToPrint, info_of};

use lms_commands::{Fault, image_read, lock_state, open_state};
use lms_image::Image;
use lms_texts::print_info;
use lms_world::{Printer, World};
use std::alloc::Global;
use std::io::Write;

/// Prints six lines on the key of a state: its levels, how many indices are used, how many there
/// are and how many are left, how many openings stored something, and how many indices are burnt.
///
/// `StateInUse` where the state's lock is not available, `ReadState` where the state can't be read,
/// `BadState` where it is no image, `OutOfMemory` where memory is refused, `WriteOutput` where a
/// line can't be printed. The state stays as it was.
pub fn describe<W: World, O: Write>(
    alloc: Global,
    world: &mut W,
    state: &str,
    output: &mut Printer<O>,
) -> Result<(), Fault>
    ensures logged { OnOk result
        (LogsInfo state.now output.old output.new (W.events world.old) (W.events world.new)) }
    ensures log_failed { IfErr result (λ fault. LogsInfoFailed state.now output.old output.new fault
        (W.events world.old) (W.events world.new)) }
    ensures follows { Follows (W.memory world.old) (W.events world.old)
        (W.memory world.new) (W.events world.new) }
{
    let lock = lock_state(alloc, world, state)?;
    let described = describe_locked(alloc, world, &lock, output);
    world.unlock(lock);
    described
}

/// As `describe`, once the lock is acquired.
fn describe_locked<W: World, O: Write>(
    alloc: Global,
    world: &mut W,
    lock: &W::Lock,
    output: &mut Printer<O>,
) -> Result<(), Fault>
    ensures logged { OnOk result ((read : KeyState) × ReadsToPrint read output.old
        (W.events world.old) (W.events world.new) × (output.new ≡ output.old ++ info_of read)) }
    ensures log_failed { IfErr result (λ fault.
        LogsUndescribed output.old output.new fault (W.events world.old) (W.events world.new)) }
    ensures follows { Follows (W.memory world.old) (W.events world.old)
        (W.memory world.new) (W.events world.new) }
{
    let image = read_state(alloc, world, lock)?;
    world.begin_printing(output);
    Ok(print_info(output, &image)?)
}

/// Reads the state of a lock: its key, and what is counted of it. The state stays as it was, and
/// its store is put back. Faults as `lms_commands::open_state`.
pub(crate) fn read_state<W: World>(
    alloc: Global,
    world: &mut W,
    lock: &W::Lock,
) -> Result<Image, Fault>
    ensures logged { IfOk result (λ image.
        LeavesState (state_in image) (W.events world.old) (W.events world.new)) }
    ensures unopened { IfErr result (λ fault.
        LogsUnopened fault (W.events world.old) (W.events world.new)) }
    ensures follows { Follows (W.memory world.old) (W.events world.old)
        (W.memory world.new) (W.events world.new) }
{
    let book = open_state(alloc, world, lock)?;
    let image = image_read(&book);
    world.put_back(lock, book.close());
    Ok(image)
}
