//! `join-public`: the public key of joined signatures.
ghost use Rattle.std.specs.Prelude.{◌≡◌, IfErr, IfOk, OnOk};
ghost use Rattle.lms_join.specs.Joined.{joined_public};
ghost use Rattle.lms_join.specs.Keys.{AreJoinable};
ghost use Rattle.lms_commands.specs.declared.fault.Fault.TheVariants.{BadPublicKey};
ghost use Rattle.lms_world.specs.Held.{Follows};
ghost use Rattle.lms_join_commands.specs.JoinLogs.{LogsJoinKeys, LogsJoinKeysFailed};

use crate::files::read_two;
use crate::why::explain_keys;
use lms_commands::{Fault, write_flushed};
use lms_hss::HSS_KEY_LEN;
use lms_world::World;
use std::alloc::Global;

/// Reads a top public key and a signer's, and writes the public key of joined signatures to a file:
/// the top one, with the levels of both.
///
/// Faults, in this order: `ReadInput` where a file can't be read; `BadPublicKey` where the two
/// can't be joined; `WriteOutput` where the file can't be written. `OutOfMemory` where memory for
/// what is read or written is refused.
pub fn join_public_keys<W: World>(
    alloc: Global,
    world: &mut W,
    public: &str,
    signer: &str,
    out: &str,
) -> Result<(), Fault>
    ensures logged { OnOk result (LogsJoinKeys public.now signer.now out.now
        (W.events world.old) (W.events world.new)) }
    ensures log_failed { IfErr result (λ fault. LogsJoinKeysFailed public.now signer.now out.now
        fault (W.events world.old) (W.events world.new)) }
    ensures follows { Follows (W.memory world.old) (W.events world.old)
        (W.memory world.new) (W.events world.new) }
{
    let (top_public, signer_public) = read_two(alloc, world, public, signer)?;
    explain_keys(world, &top_public, &signer_public);
    let key = joined_key(&top_public, &signer_public)?;
    let file = world.plan_output(alloc, out)?;
    write_flushed(world, file, &key)
}

/// The public key of joined signatures. `BadPublicKey` exactly where the two can't be joined.
fn joined_key(top_public: &[u8], signer_public: &[u8]) -> Result<[u8; HSS_KEY_LEN], Fault>
    ensures joined { IfOk result (λ key. key ≡ joined_public top_public.now signer_public.now) }
    ensures joinable { IfOk result (λ _. AreJoinable top_public.now signer_public.now) }
    ensures bad { IfErr result (λ fault. fault ≡ BadPublicKey) }
    ensures unjoined { IfErr result (λ _. ¬ AreJoinable top_public.now signer_public.now) }
{
    match lms_join::join_public(top_public, signer_public) {
        Some(key) => Ok(key),
        None => Err(Fault::BadPublicKey),
    }
}
