//! `keygen`: a new key's state, and its public key.
ghost use Rattle.std.specs.Prelude.{◌++◌, ◌≡◌, ◌⊎◌, Some, IfErr, IfOk, OnOk};
ghost use Rattle.lms_image.specs.Image.{image_of};
ghost use Rattle.lms_book.specs.Stops.{WritesStore, after_write};
ghost use Rattle.lms_key_commands.specs.Keygen.{IsKeyOf, IsNoKey, IsTaken};
ghost use Rattle.lms_texts.specs.Seeds.{on_input};
ghost use Rattle.lms_commands.specs.Logs.{FailsToPublish, Publishes};
ghost use Rattle.lms_key_commands.specs.KeygenLogs.{AreGenuineTrees, capacity_line, LeavesUnstored, LogsKeygen, LogsKeygenFailed, LogsUnmade, LogsUnstored, PublishesKey, StoresKey};
ghost use Rattle.lms_world.specs.Events.{output_name};
ghost use Rattle.lms_world.specs.Held.{Follows};

use crate::watch::see_none;
use lms_book::{StateStore, StoreFault};
use lms_commands::{Fault, Resources, keep_trees, lock_state, write_flushed};
use lms_hss::{HssKey, Levels, Progress};
use lms_image::{Image, encode_image};
use lms_kept::KeptTrees;
use lms_params::HASH_LEN;
use lms_texts::{print_capacity, read_bytes, read_levels, read_seed};
use lms_world::{Output, Printer, World};
use std::alloc::Global;
use std::io::{Read, Write};
use std::thread::Threads;

/// The key of these levels, of this seed of 64 hexadecimal digits and of this identifier of 32.
/// Where the seed is `-`, its digits are all that the input has, but for LF after them.
///
/// Faults, in this order: `BadLevels` where the text is no list of levels, or `OutOfMemory` where
/// memory for them was refused; `TooManyLevels` over 8, `TooTall` where their heights sum to over
/// 60; `BadSeed` where the option or the input is no such digits, or `ReadInput` where the input
/// can't be read; `BadId` where the identifier is no such digits. No more than 66 bytes of the
/// input are read.
pub fn key_from<I: Read>(
    alloc: Global,
    levels: &str,
    seed: &str,
    id: &str,
    input: &mut I,
) -> Result<HssKey, Fault>
    ensures key { IfOk result (IsKeyOf levels.now seed.now id.now
        (I.remaining input.old) (I.remaining input.new)) }
    ensures refused { IfErr result (IsNoKey levels.now seed.now id.now
        (I.remaining input.old) (I.remaining input.new)) }
    ensures unread { (input.new ≡ input.old) ⊎ (seed.now ≡ on_input) }
{
    let pairs = read_levels(alloc, levels)?;
    let levels = Levels::new(&pairs)?;
    let seed = read_seed(seed, input)?;
    let id = read_bytes(id).ok_or(Fault::BadId)?;
    Ok(key_of(levels, seed, id))
}

/// The key of these levels, seed and identifier.
fn key_of(levels: Levels, seed: [u8; HASH_LEN], id: [u8; 16]) -> HssKey
    ensures levels { result.levels ≡ levels }
    ensures seed { result.seed ≡ seed }
    ensures id { result.i ≡ id }
    ensures taken { IsTaken result }
{
    // for the proof: the clause says that the signer takes the levels.
    let _sets = levels.as_slice();
    HssKey::new(levels, seed, id)
}

/// Stores the state of a new, unused key, writes its public key to a file and prints its capacity.
///
/// In this order: `StateInUse` where the state's lock is not available, `StateExists` where the
/// state is there, `WitnessExists` where a witness is beside it and `ReadWitness` where that can't
/// be read, `WriteState` where the state may not have been stored, and `WriteOutput` where the
/// public key can't be written or the capacity not printed: the state is the new key's then.
/// `OutOfMemory` may come before the state is written, which stays as it was, or where the system
/// lacks memory to write the public key, and then the state is the new key's. No file is written
/// before the state is stored, and the lock is held to the end. A new key has no witness.
///
/// The top tree's nodes are kept beside the state, once that is stored, for the first signature.
/// Where that can't be done, that is no fault.
///
/// `resources.progress` gets how many leaves of the top tree are computed.
pub fn make_key<W: World, O: Write>(
    resources: &Resources<impl Threads + Sync, impl Progress>,
    world: &mut W,
    key: HssKey,
    state: &str,
    public: &str,
    output: &mut Printer<O>,
) -> Result<(), Fault>
    ensures logged { OnOk result (LogsKeygen key state.now public.now output.old output.new
        (W.events world.old) (W.events world.new)) }
    ensures log_failed { IfErr result (λ fault. LogsKeygenFailed key
        state.now public.now output.old output.new fault (W.events world.old) (W.events world.new)) }
    ensures follows { Follows (W.memory world.old) (W.events world.old)
        (W.memory world.new) (W.events world.new) }
{
    let file = world.plan_output(resources.alloc, public)?;
    let lock = lock_state(resources.alloc, world, state)?;
    let made = make_locked(resources, world, &lock, key, file, output);
    world.unlock(lock);
    made
}

/// As `make_key`, once the lock is acquired.
fn make_locked<W: World, O: Write>(
    resources: &Resources<impl Threads + Sync, impl Progress>,
    world: &mut W,
    lock: &W::Lock,
    key: HssKey,
    file: Output,
    output: &mut Printer<O>,
) -> Result<(), Fault>
    ensures logged { OnOk result (PublishesKey key (output_name file) output.old
        (W.events world.old) (W.events world.new) × (output.new ≡ output.old ++ capacity_line key)) }
    ensures log_failed { IfErr result (λ fault. LogsUnmade
        key (output_name file) output.old output.new fault (W.events world.old) (W.events world.new)) }
    ensures follows { Follows (W.memory world.old) (W.events world.old)
        (W.memory world.new) (W.events world.new) }
{
    if world.exists(lock) {
        return Err(Fault::StateExists);
    }
    see_none(resources.alloc, world, lock)?;
    let trees = store_key(resources, world, lock, key)?;
    keep_trees(resources.alloc, world, lock, &trees);
    let text = trees.public();
    publish(world, file, &text, &key, output)
}

/// Writes a key's public key to a file, flushes that, and then prints the key's capacity.
/// `OutOfMemory` where the system lacks memory to write the file, `WriteOutput` where it can't be
/// written or flushed, or the capacity not printed.
pub(crate) fn publish<W: World, O: Write>(
    world: &mut W,
    file: Output,
    public_key: &[u8],
    key: &HssKey,
    output: &mut Printer<O>,
) -> Result<(), Fault>
    ensures published { OnOk result (Publishes (output_name file) public_key.now (capacity_line key.now)
        output.old output.new (W.events world.old) (W.events world.new)) }
    ensures failed { IfErr result (λ fault. FailsToPublish (output_name file) public_key.now
        (capacity_line key.now) output.old output.new fault (W.events world.old) (W.events world.new)) }
    ensures follows { Follows (W.memory world.old) (W.events world.old)
        (W.memory world.new) (W.events world.new) }
{
    write_flushed(world, file, public_key)?;
    world.begin_printing(output);
    Ok(print_capacity(output, key.capacity())?)
}

/// Computes a key's top tree, which it answers, and stores the key's state, that of the lock, with
/// no index used. `OutOfMemory`, before a leaf is computed, where memory for the state's store or
/// for the tree is refused, and nothing is written then; or `WriteState` where it was not stored
/// for certain.
fn store_key<W: World>(
    resources: &Resources<impl Threads + Sync, impl Progress>,
    world: &mut W,
    lock: &W::Lock,
    key: HssKey,
) -> Result<KeptTrees, Fault>
    ensures logged { OnOk result (StoresKey key (W.events world.old) (W.events world.new)) }
    ensures trees { IfOk result (λ trees. AreGenuineTrees key (Some trees)) }
    ensures unstored { IfErr result (λ fault.
        LogsUnstored key fault (W.events world.old) (W.events world.new)) }
    ensures follows { Follows (W.memory world.old) (W.events world.old)
        (W.memory world.new) (W.events world.new) }
{
    let mut store = world.take_store(resources.alloc, lock)?;
    let made = store_with_trees(resources, &mut store, key);
    world.put_back(lock, store);
    made
}

/// Computes a key's top tree, which it answers, and then stores the key's image with no index used.
/// `OutOfMemory`, before a leaf is computed, where memory for the tree is refused, and the store is
/// as it was; or `WriteState` where the image was not stored for certain.
fn store_with_trees<S: StateStore>(
    resources: &Resources<impl Threads + Sync, impl Progress>,
    store: &mut S,
    key: HssKey,
) -> Result<KeptTrees, Fault>
    ensures stored { OnOk result (
        S.seen store.new ≡ after_write (image_of key 0 0 0) (S.seen store.old)) }
    ensures trees { IfOk result (λ trees. AreGenuineTrees key (Some trees)) }
    ensures unstored { IfErr result (λ fault.
        LeavesUnstored key fault (S.seen store.old) (S.seen store.new)) }
{
    let trees = KeptTrees::top(resources.rt, resources.alloc, key, resources.progress)?;
    match store_unused(store, &key) {
        Ok(()) => Ok(trees),
        Err(_) => Err(Fault::WriteState),
    }
}

/// Stores a key's image with no index used. `StoreFault` where that was not stored for certain. A
/// crash at any moment leaves what it could leave before, or that image.
fn store_unused<S: StateStore>(store: &mut S, key: &HssKey) -> Result<(), StoreFault>
    ensures { WritesStore (image_of key.now 0 0 0) (S.seen store.old) result (S.seen store.new) }
{
    let image = encode_image(&Image::unused(*key));
    store.replace(image.as_slice())
}
