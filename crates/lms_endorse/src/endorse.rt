//! `endorse`: a signer's key that a top key signs with the next index of its state.
ghost use Rattle.std.specs.Prelude.{◌++◌, ◌≡◌, IfErr, IfOk, OnOk, option_map};
ghost use Rattle.lms_world.specs.Events.{output_name};
ghost use Rattle.lms_world.specs.Held.{Follows};
ghost use Rattle.lms_commands.specs.Logs.{FailsToPublish, Publishes};
ghost use Rattle.lms_endorse.specs.Endorsing.{MayEndorse, endorsed_text};
ghost use Rattle.lms_endorse.specs.Orders.{IsOrder};
ghost use Rattle.lms_endorse.specs.EndorseLogs.{DeliversEndorsement, LogsEndorse, LogsEndorseFailed, LogsEndorsed, LogsNotEndorsed, LogsUnendorsed, asked_of, endorsed_lines};

use crate::lines::print_endorsed;
use crate::order::{Order, joined_from};
use lms_book::StateStore;
use lms_commands::{
    Fault, Resources, discard, kept_text, lock_state, open_watched, read_file, write_file,
};
use lms_hss::{HssKey, Progress};
use lms_kept::KeptSignature;
use lms_signature_commands::{randomizer_from, sign_opened};
use lms_world::{Output, Printer, World};
use std::io::Write;
use std::thread::Threads;

/// What `endorse` is asked for: a randomizer of 64 hexadecimal digits; how many levels joined keys
/// have, in decimal; and the names of the top key's state, of the file of the signer's public key, and
/// of that of the endorsement.
#[derive(Clone, Copy)]
pub struct EndorseRequest<'a> {
    pub state: &'a str,
    pub random: &'a str,
    pub signer: &'a str,
    pub joined: &'a str,
    pub out: &'a str,
}

/// Signs a signer's LMS public key, which is its 60-byte public key without the first four bytes, with
/// the next index of a top key's state, writes that endorsement to a file, and prints the index and the
/// SHA-256 of the signer's public key. It signs nothing but such keys.
///
/// Faults, in this order: `BadRandom`; `BadLevels` where the number of levels is none from 2 to 8;
/// `ReadInput` where the signer's key can't be read; `BadPublicKey` where it is none of known typecodes;
/// `StateInUse` where the state's lock is not available; those of `open_watched`; `BadPublicKey` where
/// the top key and the signer's have together another number of levels, or one identifier, as they have
/// where the signer's is the top key itself; then those of `sign_file` from `Exhausted` on. Nothing is
/// stored before. `OutOfMemory` may come anywhere before `WriteStateBurnt`.
///
/// What is kept of the key's trees is used and kept as by `sign_file`. `resources.progress` gets how
/// many leaves of the trees that the endorsement needs are computed.
pub fn endorse_key<W: World, O: Write>(
    resources: &Resources<impl Threads + Sync, impl Progress>,
    world: &mut W,
    request: &EndorseRequest,
    output: &mut Printer<O>,
) -> Result<(), Fault>
    ensures logged { OnOk result (LogsEndorse (asked_of request.now) output.old output.new
        (W.events world.old) (W.events world.new)) }
    ensures log_failed { IfErr result (λ fault. LogsEndorseFailed (asked_of request.now) output.old
        output.new fault (W.events world.old) (W.events world.new)) }
    ensures follows { Follows (W.memory world.old) (W.events world.old)
        (W.memory world.new) (W.events world.new) }
{
    let randomizer = randomizer_from(request.random)?;
    let joined = joined_from(request.joined)?;
    let out = world.plan_output(resources.alloc, request.out)?;
    let signer = read_file(resources.alloc, world, request.signer)?;
    let order = Order::new(resources.alloc, randomizer, signer.as_slice(), joined)?;
    let lock = lock_state(resources.alloc, world, request.state)?;
    let done = endorse_locked(resources, world, &lock, &order, out, output);
    world.unlock(lock);
    done
}

/// As `endorse_key`, once the signer's key is read and the lock is acquired.
fn endorse_locked<W: World, O: Write>(
    resources: &Resources<impl Threads + Sync, impl Progress>,
    world: &mut W,
    lock: &W::Lock,
    order: &Order,
    out: Output,
    output: &mut Printer<O>,
) -> Result<(), Fault>
    requires { IsOrder order.now }
    ensures logged { OnOk result ((is : DeliversEndorsement order.now.job.c order.now.signer.now
        order.now.joined (output_name out) output.old (W.events world.old) (W.events world.new))
        × (output.new ≡ output.old ++ endorsed_lines is)) }
    ensures log_failed { IfErr result (λ fault. LogsUnendorsed order.now.job.c order.now.signer.now
        order.now.joined (output_name out) output.old output.new fault
        (W.events world.old) (W.events world.new)) }
    ensures follows { Follows (W.memory world.old) (W.events world.old)
        (W.memory world.new) (W.events world.new) }
{
    let kept = kept_text(resources.alloc, world, lock);
    let signed = endorse_stored(resources, world, lock, order, kept.as_deref())?;
    deliver(world, out, &signed, order.signer, output)
}

/// Endorses a signer's key with the next index of a lock's state, by what was `kept` of its key's trees
/// where that signs what is accepted, and keeps the trees that signed where they are others.
/// `BadPublicKey` where the state's key may not endorse it: then the state is put back as it was. Other
/// faults as `endorse_key`, from those of `open_watched` to `WriteWitnessBurnt`.
fn endorse_stored<W: World>(
    resources: &Resources<impl Threads + Sync, impl Progress>,
    world: &mut W,
    lock: &W::Lock,
    order: &Order,
    kept: Option<&[u8]>,
) -> Result<KeptSignature, Fault>
    requires { IsOrder order.now }
    ensures logged { IfOk result (λ signed. LogsEndorsed
        (option_map (λ text. text.now) kept.entry) order.now.job.c order.now.signer.now
        order.now.joined signed.index signed.signature.items (W.events world.old) (W.events world.new)) }
    ensures log_failed { IfErr result (λ fault. LogsNotEndorsed order.now.signer.now
        order.now.joined fault (W.events world.old) (W.events world.new)) }
    ensures follows { Follows (W.memory world.old) (W.events world.old)
        (W.memory world.new) (W.events world.new) }
{
    let (book, witness) = open_watched(resources.alloc, world, lock)?;
    let top = book.key();
    if !order.is_for(&top) {
        world.put_back(lock, book.close());
        discard(world, witness);
        explain_pair(world, order, &top);
        return Err(Fault::BadPublicKey);
    }
    sign_opened(resources, world, lock, (book, witness), &order.job, kept)
}

/// Says why this top key may not endorse a signer's key.
fn explain_pair<W: World>(world: &mut W, order: &Order, top: &HssKey)
    ensures unlogged { W.events world.new ≡ W.events world.old }
    ensures same { W.memory world.new ≡ W.memory world.old }
{
    let (top, signer) = (top.levels.as_slice().len(), order.key.levels);
    if top.saturating_add(signer as usize) == order.joined as usize {
        world.explain("it is the top key, or has its identifier");
    } else {
        world.explain(format_args!(
            "the levels of the top key, {top}, and of the signer's, {signer}, are not {} together",
            order.joined
        ));
    }
}

/// Writes an endorsement to a file, and then prints its lines. `WriteOutput` where either can't be
/// done, also where the system lacks memory to write the file, since the index is used.
fn deliver<W: World, O: Write>(
    world: &mut W,
    out: Output,
    signed: &KeptSignature,
    signer: &[u8],
    output: &mut Printer<O>,
) -> Result<(), Fault>
    ensures published { OnOk result (Publishes
        (output_name out) signed.now.signature.items (endorsed_text signed.now.index signer.now)
        output.old output.new (W.events world.old) (W.events world.new)) }
    ensures failed { IfErr result (λ fault. (fault ≡ Fault.WriteOutput)
        × ((cause : Fault) × FailsToPublish
        (output_name out) signed.now.signature.items (endorsed_text signed.now.index signer.now)
        output.old output.new cause (W.events world.old) (W.events world.new))) }
    ensures follows { Follows (W.memory world.old) (W.events world.old)
        (W.memory world.new) (W.events world.new) }
{
    match write_file(world, out, &signed.signature) {
        Ok(()) => {
            world.begin_printing(output);
            Ok(print_endorsed(output, signed.index, signer)?)
        }
        Err(_) => {
            world.explain(format_args!("; index {} is used", signed.index));
            Err(Fault::WriteOutput)
        }
    }
}
