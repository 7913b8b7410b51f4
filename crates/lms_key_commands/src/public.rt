//! `public`: the public key of a state's key.
ghost use Rattle.std.specs.Prelude.{◌≡◌, IfErr, IfOk, OnOk};
ghost use Rattle.lms_world.specs.Held.{Follows};
ghost use Rattle.lms_commands.specs.Logs.{KeyState};
ghost use Rattle.lms_key_commands.specs.PublicLogs.{LogsPublic, LogsPublicFailed, LogsUnread, ReadsKey};

use crate::info::read_state;
use crate::keygen::publish;
use lms_commands::{Fault, Resources, lock_state};
use lms_hss::{HssKey, Progress};
use lms_world::{Printer, World};
use std::alloc::Global;
use std::io::Write;
use std::thread::Threads;

/// Computes the public key of a state's key, writes it to a file and prints the key's capacity.
/// Nothing is stored, and nothing that is kept of nodes is used, since it may not be right. The
/// lock is handed back before the tree is computed: what is computed follows from the key alone,
/// and others may sign meanwhile.
///
/// In this order: `StateInUse` where the state's lock is not available, `ReadState` where the state
/// can't be read, `BadState` where it is no image, and `WriteOutput` where the public key can't be
/// written or the capacity not printed. `OutOfMemory` may come anywhere before the tree is computed,
/// or where the system lacks memory to write the file. The state stays as it was.
///
/// `resources.progress` gets how many leaves of the top tree are computed.
pub fn publish_key<W: World, O: Write>(
    resources: &Resources<impl Threads + Sync, impl Progress>,
    world: &mut W,
    state: &str,
    public: &str,
    output: &mut Printer<O>,
) -> Result<(), Fault>
    ensures logged { OnOk result (LogsPublic state.now public.now output.old output.new
        (W.events world.old) (W.events world.new)) }
    ensures log_failed { IfErr result (λ fault. LogsPublicFailed state.now public.now
        output.old output.new fault (W.events world.old) (W.events world.new)) }
    ensures follows { Follows (W.memory world.old) (W.events world.old)
        (W.memory world.new) (W.events world.new) }
{
    let key = read_key(resources.alloc, world, state)?;
    let file = world.plan_output(resources.alloc, public)?;
    let text = key.public_key_watched(resources.rt, resources.alloc, resources.progress)?;
    publish(world, file, &text, &key, output)
}

/// The key of a state, read under its lock, which is handed back. Faults as
/// `lms_commands::lock_state` and `open_state`.
fn read_key<W: World>(alloc: Global, world: &mut W, state: &str) -> Result<HssKey, Fault>
    ensures logged { IfOk result (λ key. (read : KeyState) × (read.key ≡ key)
        × ReadsKey state.now read (W.events world.old) (W.events world.new)) }
    ensures unread { IfErr result (λ fault.
        LogsUnread state.now fault (W.events world.old) (W.events world.new)) }
    ensures follows { Follows (W.memory world.old) (W.events world.old)
        (W.memory world.new) (W.events world.new) }
{
    let lock = lock_state(alloc, world, state)?;
    let read = read_state(alloc, world, &lock);
    world.unlock(lock);
    match read {
        Ok(image) => Ok(image.key),
        Err(fault) => Err(fault),
    }
}
