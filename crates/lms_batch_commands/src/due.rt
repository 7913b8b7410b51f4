//! What a state has to say when it is opened again.
ghost use Rattle.std.specs.Prelude.{◌≡◌, ◌+◌, ◌^◌, ◌≤◌, ◌↔◌, [], IfErr, IfOk, IsTrue};
ghost use Rattle.lms_spec.specs.Hss.{capacity_of};
ghost use Rattle.lms_hss.specs.Keys.{hss_key_of};
ghost use Rattle.lms_commands.specs.Logs.{state_in, state_of};
ghost use Rattle.lms_commands.specs.Watching.{OpensWatched, watch_of};
ghost use Rattle.lms_batch_commands.specs.Serving.{FindsNoState, IsDue, due_of, having_used, unopened_fault};
ghost use Rattle.lms_world.specs.Held.{Follows};

use lms_book::{Book, StateStore};
use lms_commands::{Fault, Witness, discard, image_read, open_watched};
use lms_hss::{HssKey, same_key};
use lms_image::Image;
use lms_world::World;
use std::alloc::Global;

/// Opens the state of a lock with its witness, as `open_watched`. Due is the image that this run
/// stored last or, before it stored any, the one that it opened first; with `due` `None` any will
/// do. `ReadState` also where the state says something else, which is put back, or is no image
/// where one is due.
pub(crate) fn open_due<W: World>(
    alloc: Global,
    world: &mut W,
    lock: &W::Lock,
    due: &Option<Image>,
) -> Result<(Book<W::Store>, Option<Witness<W::Draft>>), Fault>
    ensures logged { IfOk result (λ opened. OpensWatched (watch_of opened.1) opened.0
        (W.events world.old) (W.events world.new)) }
    ensures due { IfOk result (λ opened. IsDue (due_of due.now) (state_of opened.0)) }
    ensures refused { IfErr result (λ fault.
        FindsNoState fault (due_of due.now) (W.events world.old) (W.events world.new)) }
    ensures fresh { IfOk result (λ opened. opened.0.history ≡ []) }
    ensures follows { Follows (W.memory world.old) (W.events world.old)
        (W.memory world.new) (W.events world.new) }
{
    let (book, witness) = match open_watched(alloc, world, lock) {
        Ok(opened) => opened,
        Err(cause) => return Err(unopened(cause, due)),
    };
    if is_due(&image_read(&book), due) {
        return Ok((book, witness));
    }
    world.put_back(lock, book.close());
    discard(world, witness);
    Err(Fault::ReadState)
}

/// The fault of a state that is not opened: its cause; but where an image is due, `ReadState` in
/// place of `BadState`, since bytes that are no image are another state than is due.
fn unopened(cause: Fault, due: &Option<Image>) -> Fault
    ensures { result ≡ unopened_fault (due_of due.now) cause }
{
    match (due, cause) {
        (Some(_), Fault::BadState(_)) => Fault::ReadState,
        _ => cause,
    }
}

/// Whether a state that was read says what is due. Where `due` is `None` every one does.
fn is_due(read: &Image, due: &Option<Image>) -> bool
    ensures { IsTrue result ↔ IsDue (due_of due.now) (state_in read.now) }
{
    match due {
        Some(due) => same_image(read, due),
        None => true,
    }
}

/// Whether these say the same of the same key.
fn same_image(a: &Image, b: &Image) -> bool
    ensures { IsTrue result ↔ (state_in a.now ≡ state_in b.now) }
{
    same_key(&a.key, &b.key)
        && a.counter == b.counter
        && a.openings == b.openings
        && a.burnt == b.burnt
}

/// What a state says that said `read`, once `n` indices more are used and their opening is counted;
/// where `n` is 0, `read`.
pub(crate) fn after_use(read: &Image, n: usize) -> Image
    requires within { read.now.counter + n ≤ capacity_of (hss_key_of read.now.key) }
    requires openings { read.now.openings ≤ read.now.counter }
    ensures { state_in result ≡ having_used n (state_in read.now) }
{
    if n == 0 {
        return *read;
    }
    knows_capacity(&read.key);
    Image {
        key: read.key,
        counter: read.counter + n as u64,
        openings: read.openings + 1,
        burnt: read.burnt,
    }
}

/// For the proof: the capacity of a key is at most 2^60.
fn knows_capacity(key: &HssKey)
    ensures { capacity_of (hss_key_of key.now) ≤ 2 ^ 60 }
{
    let _capacity = key.capacity();
}
