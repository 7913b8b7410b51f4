//! A key's witness: another file, which says below which index of the key all are used.
ghost use Rattle.std.specs.Prelude.{◌⊎◌, ◌≡◌, ◌∷◌, ◌++◌, ◌+◌, ◌<◌, ◌≤◌, ◌^◌, [], List, ℕ, IfErr, IfOk, IfSome, OnOk, Ok as Done, Some, option_map};
ghost use Rattle.lms_spec.specs.Hss.{capacity_of};
ghost use Rattle.lms_hss.specs.Keys.{hss_key_of};
ghost use Rattle.lms_world.specs.Events.{WitnessDrafted, WitnessRead};
ghost use Rattle.lms_world.specs.Held.{Follows};
ghost use Rattle.lms_texts.specs.Witnesses.{witness_text};
ghost use Rattle.lms_commands.specs.Watching.{FailsToNote, IsAdmitted, IsRefusedBy, LogsUndrafted, LogsUnseen, LogsUnwatched, OpensWatched, notes, watch_calls, watch_of};

use crate::fault::Fault;
use crate::files::open_state;
use lms_book::Book;
use lms_image::Image;
use lms_texts::{print_witness, witness_counter};
use lms_world::{MOST_WITNESS, World, WorldFault};
use std::alloc::Global;

/// A witness that was found: its bytes, room for the next ones, and their draft.
#[derive(Drop)]
pub struct Witness<D> {
    text: Vec<u8>,
    room: Vec<u8>,
    draft: D,
}

/// The bytes of the witness beside the state of the lock, `None` where there is none. `ReadWitness`
/// where it can't be read, `OutOfMemory` where memory for it was refused.
pub fn see_witness<W: World>(
    alloc: Global,
    world: &mut W,
    lock: &W::Lock,
) -> Result<Option<Vec<u8>>, Fault>
    ensures seen { IfOk result (λ seen. W.events world.new
        ≡ WitnessRead (Done (option_map (λ text. text.items) seen)) ∷ W.events world.old) }
    ensures unseen { IfErr result (λ fault. LogsUnseen fault (W.events world.old) (W.events world.new)) }
    ensures follows { Follows (W.memory world.old) (W.events world.old)
        (W.memory world.new) (W.events world.new) }
{
    match world.read_witness(alloc, lock) {
        Ok(Some(text)) => Ok(Some(text)),
        Ok(None) => Ok(None),
        Err(WorldFault::Device) => Err(Fault::ReadWitness),
        Err(WorldFault::OutOfMemory) => Err(Fault::OutOfMemory),
    }
}

/// The witness that was read as these bytes, with a draft that is made here and room for the next
/// bytes. `WriteWitness` where the draft can't be made, `OutOfMemory` where memory for it or for
/// the next bytes was refused.
fn draft<W: World>(
    alloc: Global,
    world: &mut W,
    lock: &W::Lock,
    text: Vec<u8>,
) -> Result<Witness<W::Draft>, Fault>
    ensures drafted { IfOk result (λ witness. (witness.text ≡ text)
        × (W.events world.new ≡ WitnessDrafted (Done tt) ∷ W.events world.old)) }
    ensures undrafted { IfErr result (λ fault. LogsUndrafted fault (W.events world.old) (W.events world.new)) }
    ensures follows { Follows (W.memory world.old) (W.events world.old)
        (W.memory world.new) (W.events world.new) }
{
    let Ok(room) = Vec::with_capacity(alloc, MOST_WITNESS) else {
        return Err(Fault::OutOfMemory);
    };
    match world.draft_witness(alloc, lock) {
        Ok(draft) => Ok(Witness { text, room, draft }),
        Err(WorldFault::Device) => Err(Fault::WriteWitness),
        Err(WorldFault::OutOfMemory) => Err(Fault::OutOfMemory),
    }
}

/// The witness beside the state of the lock, with a draft that is made here; `None` where there is
/// no witness. Faults as `see_witness` and `draft`.
fn watch<W: World>(
    alloc: Global,
    world: &mut W,
    lock: &W::Lock,
) -> Result<Option<Witness<W::Draft>>, Fault>
    ensures watched { IfOk result (λ witness. W.events world.new
        ≡ watch_calls (watch_of witness) ++ W.events world.old) }
    ensures unseen { IfErr result (λ fault. LogsUnseen fault (W.events world.old) (W.events world.new)
        ⊎ ((text : List ℕ) × LogsUndrafted fault (WitnessRead (Done (Some text)) ∷ W.events world.old)
        (W.events world.new))) }
    ensures follows { Follows (W.memory world.old) (W.events world.old)
        (W.memory world.new) (W.events world.new) }
{
    match see_witness(alloc, world, lock)? {
        Some(text) => Ok(Some(draft(alloc, world, lock, text)?)),
        None => Ok(None),
    }
}

/// Compares the state of the key of this identifier, which counts `index` indices as used, with its
/// witness: `BadWitness` where that is none of the key, `StateOlder` where it says more. A state
/// that has no witness is admitted.
fn admit<D>(witness: &Option<Witness<D>>, id: &[u8; 16], index: u64) -> Result<(), Fault>
    ensures admitted { OnOk result (IsAdmitted (watch_of witness.now) id.now index) }
    ensures refused { IfErr result (IsRefusedBy (watch_of witness.now) id.now index) }
{
    let Some(found) = witness else {
        return Ok(());
    };
    match witness_counter(&found.text, id) {
        Some(counter) => if counter <= index {
            Ok(())
        } else {
            Err(Fault::StateOlder)
        },
        None => Err(Fault::BadWitness),
    }
}

/// Opens the book of a lock's state, as `open_state`, with the state's witness, where it has one, of
/// which a draft is made before. Where the witness refuses the state, that is put back as it was.
///
/// Faults, in this order: `ReadWitness`; `WriteWitness` where no draft of it can be made; those of
/// `open_state`; `BadWitness` where the witness is none of the key; `StateOlder` where it says more.
/// `OutOfMemory` may come anywhere before the last two.
pub fn open_watched<W: World>(
    alloc: Global,
    world: &mut W,
    lock: &W::Lock,
) -> Result<(Book<W::Store>, Option<Witness<W::Draft>>), Fault>
    ensures logged { IfOk result (λ opened. OpensWatched (watch_of opened.1) opened.0
        (W.events world.old) (W.events world.new)) }
    ensures unopened { IfErr result (λ fault.
        LogsUnwatched fault (W.events world.old) (W.events world.new)) }
    ensures fresh { IfOk result (λ opened. opened.0.history ≡ []) }
    ensures follows { Follows (W.memory world.old) (W.events world.old)
        (W.memory world.new) (W.events world.new) }
{
    let witness = watch(alloc, world, lock)?;
    let book = match open_state(alloc, world, lock) {
        Ok(book) => book,
        Err(fault) => {
            discard(world, witness);
            return Err(fault);
        }
    };
    let key = book.key();
    match admit(&witness, &key.i, book.base()) {
        Ok(()) => Ok((book, witness)),
        Err(fault) => {
            world.put_back(lock, book.close());
            discard(world, witness);
            Err(fault)
        }
    }
}

/// Lets a witness go, if there is one: its bytes stay as they are, and its draft is removed if that
/// can be done.
pub fn discard<W: World>(world: &mut W, witness: Option<Witness<W::Draft>>)
    ensures unlogged { W.events world.new ≡ W.events world.old }
    ensures same { W.memory world.new ≡ W.memory world.old }
{
    if let Some(found) = witness {
        world.discard_witness(found.draft);
    }
}

/// Has the witness of a state say that `count` indices more are used than were when the state was
/// `read`. `WriteWitnessBurnt` where that was not stored for certain. Where `count` is 0, and where
/// there is no witness, nothing is written.
pub fn note<W: World>(
    world: &mut W,
    witness: Option<Witness<W::Draft>>,
    read: &Image,
    count: u64,
) -> Result<(), Fault>
    requires within { 1 ≤ count → read.now.counter + count ≤ capacity_of (hss_key_of read.now.key) }
    ensures noted { OnOk result (W.events world.new
        ≡ notes count (watch_of witness) read.now.key.i read.now.counter (Done tt) ++ W.events world.old) }
    ensures failed { IfErr result (λ fault. FailsToNote count (watch_of witness) read.now.key.i
        read.now.counter fault (W.events world.old) (W.events world.new)) }
    ensures follows { Follows (W.memory world.old) (W.events world.old)
        (W.memory world.new) (W.events world.new) }
{
    if count == 0 {
        discard(world, witness);
        return Ok(());
    }
    // for the proof: the capacity is at most 2^60
    let _capacity = read.key.capacity();
    match witness {
        Some(found) => write_note(world, found, read, count),
        None => Ok(()),
    }
}

/// As `note`, where there is a witness and `count` is at least 1.
fn write_note<W: World>(
    world: &mut W,
    witness: Witness<W::Draft>,
    read: &Image,
    count: u64,
) -> Result<(), Fault>
    requires some { 1 ≤ count }
    requires fits { read.now.counter + count < 2 ^ 64 }
    ensures noted { OnOk result (W.events world.new
        ≡ notes count (watch_of (Some witness)) read.now.key.i read.now.counter (Done tt)
        ++ W.events world.old) }
    ensures failed { IfErr result (λ fault. FailsToNote count (watch_of (Some witness)) read.now.key.i
        read.now.counter fault (W.events world.old) (W.events world.new)) }
    ensures follows { Follows (W.memory world.old) (W.events world.old)
        (W.memory world.new) (W.events world.new) }
{
    let burnt = Fault::WriteWitnessBurnt {
        first: read.counter,
        last: read.counter + (count - 1),
    };
    let Witness {
        text: _,
        room,
        draft,
    } = witness;
    let Some(line) = line_in(room, &read.key.i, read.counter + count) else {
        world.discard_witness(draft);
        return Err(burnt);
    };
    match world.place_witness(draft, &line) {
        Ok(()) => Ok(()),
        Err(_) => Err(burnt),
    }
}

/// The line of a witness that says that all indices below `counter` of the key of this identifier
/// are used, in the memory of `room`. `None` where memory for it was refused.
fn line_in(room: Vec<u8>, id: &[u8; 16], counter: u64) -> Option<Vec<u8>>
    ensures { IfSome result (λ line. line.items ≡ witness_text id.now counter) }
{
    let mut line = room;
    line.clear();
    match print_witness(&mut line, id, counter) {
        Ok(()) => Some(line),
        Err(_) => None,
    }
}
