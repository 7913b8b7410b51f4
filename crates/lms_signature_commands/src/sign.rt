//! `sign`: a message signed with the next index of a key's state.
ghost use Rattle.std.specs.Prelude.{[], ◌++◌, ◌≡◌, IfErr, IfOk, OnOk, codes, option_map};
ghost use Rattle.lms_spec.specs.HashLength.{hash_length};
ghost use Rattle.lms_kept.specs.Signed.{IsSignedByText};
ghost use Rattle.lms_book.specs.Books.{counter};
ghost use Rattle.lms_signature_commands.specs.Signing.{of_signing};
ghost use Rattle.lms_texts.specs.Descriptions.{number_line};
ghost use Rattle.lms_texts.specs.Options.{IsHexOf};
ghost use Rattle.lms_commands.specs.Logs.{FailsToPublish, LogsKeeping, Publishes, WorldCalls, state_of};
ghost use Rattle.lms_commands.specs.Watching.{OpensWatched, UnsignedWatched, watch_of};
ghost use Rattle.lms_signature_commands.specs.SignLogs.{index_line, DeliversSignature, IsRandomizer, LogsNotSigned, LogsSign, LogsSignFailed, LogsSigned, LogsUndelivered, asked_of};
ghost use Rattle.lms_world.specs.Events.{output_name};
ghost use Rattle.lms_world.specs.Held.{Follows};
ghost use Rattle.lms_signature_commands.specs.Signing.{GivesOne, SignsNothing};

use lms_batch::Job;
use lms_book::{Book, BookFault, StateStore};
use lms_commands::{
    Fault, Resources, Witness, discard, image_read, keep_trees, kept_text, lock_state, note,
    open_watched, read_file, write_file,
};
use lms_hss::Progress;
use lms_kept::{KeptSignature, sign_lease};
use lms_params::{HASH_LEN, OutOfMemory};
use lms_texts::{print_index, read_bytes};
use lms_world::{Output, Printer, World};
use std::alloc::Global;
use std::io::Write;
use std::thread::Threads;

/// Why a message was not signed.
#[derive(Clone, Copy)]
enum NextFault {
    /// No index was given; where the store failed, the next one may be stored as used.
    Book(BookFault),
    /// Memory was refused after the reservation: the index is used, and signed nothing.
    OutOfMemory,
}

impl From<NextFault> for Fault {
    ghost from_gives = { λ sign_fault fault. fault ≡ of_signing sign_fault };

    fn from(fault: NextFault) -> Self {
        match fault {
            NextFault::Book(fault) => Fault::from(fault),
            NextFault::OutOfMemory => Fault::OutOfMemoryBurnt { count: 1 },
        }
    }
}

/// What `sign` is asked for: a randomizer of 64 hexadecimal digits, and the names of the key's state
/// and of the files of the message and the signature.
#[derive(Clone, Copy)]
pub struct SignRequest<'a> {
    pub state: &'a str,
    pub random: &'a str,
    pub message: &'a str,
    pub out: &'a str,
}

/// Signs the message in a file with the next index of a state's key, under a randomizer of 64
/// hexadecimal digits, writes the signature to a file and prints the index.
///
/// Faults, in this order: `BadRandom`; `ReadInput` where the message can't be read; `StateInUse`
/// where the state's lock is not available; those of `open_watched`, where nothing is stored;
/// `Exhausted`; `WriteStateBurnt` where the use of the index may not have been stored; once it was,
/// `OutOfMemoryBurnt`, `WriteWitnessBurnt` where the witness may not say so, and `WriteOutput`.
/// `OutOfMemory` may come anywhere before `WriteStateBurnt`. At the last three the index is used;
/// after `WriteStateBurnt` the state may still be the older one, which gives the index again. The
/// witness's draft is made before the state is opened; the witness is replaced once the use of the
/// index was stored, and nodes and the signature are written after that.
///
/// What is kept of the key's trees beside the state is read before the state is opened, and where
/// the signature needed other nodes it is kept anew once the use of the index was stored, before
/// the file is written. Where either can't be done, that is no fault.
///
/// `resources.progress` gets how many leaves of the trees that the signature needs are computed.
pub fn sign_file<W: World, O: Write>(
    resources: &Resources<impl Threads + Sync, impl Progress>,
    world: &mut W,
    request: &SignRequest,
    output: &mut Printer<O>,
) -> Result<(), Fault>
    ensures logged { OnOk result (LogsSign (asked_of request.now) output.old output.new
        (W.events world.old) (W.events world.new)) }
    ensures log_failed { IfErr result (λ fault. LogsSignFailed (asked_of request.now) output.old
        output.new fault (W.events world.old) (W.events world.new)) }
    ensures follows { Follows (W.memory world.old) (W.events world.old)
        (W.memory world.new) (W.events world.new) }
{
    let randomizer = randomizer_from(request.random)?;
    let out = world.plan_output(resources.alloc, request.out)?;
    let message = read_file(resources.alloc, world, request.message)?;
    let job = Job {
        c: randomizer,
        message,
    };
    let lock = lock_state(resources.alloc, world, request.state)?;
    let done = sign_locked(resources, world, &lock, &job, out, output);
    world.unlock(lock);
    done
}

/// As `sign_file`, once the message is read and the lock is acquired.
fn sign_locked<W: World, O: Write>(
    resources: &Resources<impl Threads + Sync, impl Progress>,
    world: &mut W,
    lock: &W::Lock,
    job: &Job,
    out: Output,
    output: &mut Printer<O>,
) -> Result<(), Fault>
    ensures logged { OnOk result ((delivers : DeliversSignature
        job.now.c job.now.message.items (output_name out) output.old (W.events world.old) (W.events world.new))
        × (output.new ≡ output.old ++ index_line delivers.writes)) }
    ensures log_failed { IfErr result (λ fault. LogsUndelivered job.now.c job.now.message.items
        (output_name out) output.old output.new fault (W.events world.old) (W.events world.new)) }
    ensures follows { Follows (W.memory world.old) (W.events world.old)
        (W.memory world.new) (W.events world.new) }
{
    let kept = kept_text(resources.alloc, world, lock);
    let signed = sign_stored(resources, world, lock, job, kept.as_deref())?;
    deliver(world, out, &signed, output)
}

/// The randomizer of a text of 64 hexadecimal digits, else `BadRandom`.
pub fn randomizer_from(text: &str) -> Result<[u8; HASH_LEN], Fault>
    ensures read { IfOk result (IsRandomizer text.now) }
    ensures refused { IfErr result (λ fault.
        (fault ≡ Fault.BadRandom) × ¬ IsHexOf hash_length text.now) }
{
    Ok(read_bytes(text).ok_or(Fault::BadRandom)?)
}

/// Writes a signature to a file, and then prints its index. `WriteOutput` where either can't be
/// done, also where the system lacks memory to write the file, since the index is used.
fn deliver<W: World, O: Write>(
    world: &mut W,
    out: Output,
    signed: &KeptSignature,
    output: &mut Printer<O>,
) -> Result<(), Fault>
    ensures published { OnOk result (Publishes
        (output_name out) signed.now.signature.items (number_line (codes "index") signed.now.index)
        output.old output.new (W.events world.old) (W.events world.new)) }
    ensures failed { IfErr result (λ fault. (fault ≡ Fault.WriteOutput)
        × ((cause : Fault) × FailsToPublish
        (output_name out) signed.now.signature.items (number_line (codes "index") signed.now.index)
        output.old output.new cause (W.events world.old) (W.events world.new))) }
    ensures follows { Follows (W.memory world.old) (W.events world.old)
        (W.memory world.new) (W.events world.new) }
{
    match write_file(world, out, &signed.signature) {
        Ok(()) => {
            world.begin_printing(output);
            Ok(print_index(output, signed.index)?)
        }
        Err(_) => {
            world.explain(format_args!("; index {} is used", signed.index));
            Err(Fault::WriteOutput)
        }
    }
}

/// Signs a message with the next index of the key of a lock's state, by what was `kept` of its
/// trees where that signs what is accepted, and keeps the trees that signed where they are others.
/// Where the witness refuses the state, nothing is stored; where it can't be written, the signature
/// is let go. Faults as `sign_file`, from those of `open_watched` to `WriteWitnessBurnt`.
fn sign_stored<W: World>(
    resources: &Resources<impl Threads + Sync, impl Progress>,
    world: &mut W,
    lock: &W::Lock,
    job: &Job,
    kept: Option<&[u8]>,
) -> Result<KeptSignature, Fault>
    ensures logged { IfOk result (λ signed.
        LogsSigned (option_map (λ text. text.now) kept.entry) job.now.c job.now.message.items
        signed.index signed.signature.items (W.events world.old) (W.events world.new)) }
    ensures log_failed { IfErr result (λ fault.
        LogsNotSigned fault (W.events world.old) (W.events world.new)) }
    ensures follows { Follows (W.memory world.old) (W.events world.old)
        (W.memory world.new) (W.events world.new) }
{
    let (book, witness) = open_watched(resources.alloc, world, lock)?;
    sign_opened(resources, world, lock, (book, witness), job, kept)
}

/// Signs a message with the next index of a book that was just opened with its witness, by
/// `open_watched`, as `sign_file` does: by what was `kept` of the key's trees where that signs what is
/// accepted. Then the book's store is put back, the witness replaced, and the trees that signed kept
/// where they are others.
///
/// Faults, in this order: `Exhausted`; `WriteStateBurnt` where the use of the index may not have been
/// stored; once it was, `OutOfMemoryBurnt`, and `WriteWitnessBurnt` where the witness may not say so.
/// `OutOfMemory` may come before `WriteStateBurnt`.
pub fn sign_opened<W: World>(
    resources: &Resources<impl Threads + Sync, impl Progress>,
    world: &mut W,
    lock: &W::Lock,
    opened: (Book<W::Store>, Option<Witness<W::Draft>>),
    job: &Job,
    kept: Option<&[u8]>,
) -> Result<KeptSignature, Fault>
    requires fresh { opened.0.history ≡ [] }
    ensures logged { (before : WorldCalls)
        → OpensWatched (watch_of opened.1) opened.0 before (W.events world.old)
        → IfOk result (λ signed. (signs : LogsSigned (option_map (λ text. text.now) kept.entry)
        job.now.c job.now.message.items signed.index signed.signature.items before
        (W.events world.new)) × (signs.state ≡ state_of opened.0)) }
    ensures log_failed { (before : WorldCalls)
        → OpensWatched (watch_of opened.1) opened.0 before (W.events world.old)
        → IfErr result (λ fault.
        UnsignedWatched 1 fault (state_of opened.0) before (W.events world.new)) }
    ensures follows { Follows (W.memory world.old) (W.events world.old)
        (W.memory world.new) (W.events world.new) }
{
    let (mut book, witness) = opened;
    let read = image_read(&book);
    let signed = sign_reserved(resources, &mut book, job, kept);
    world.put_back(lock, book.close());
    match signed {
        Ok(signed) => {
            note(world, witness, &read, 1)?;
            keep_signers(resources.alloc, world, lock, &signed);
            Ok(signed)
        }
        Err(fault) => {
            discard(world, witness);
            Err(Fault::from(fault))
        }
    }
}

/// Keeps the trees that signed, where what was read did not serve the index as it was.
fn keep_signers<W: World>(alloc: Global, world: &mut W, lock: &W::Lock, signed: &KeptSignature)
    ensures logged { LogsKeeping signed.now.trees (W.events world.old) (W.events world.new) }
    ensures follows { Follows (W.memory world.old) (W.events world.old)
        (W.memory world.new) (W.events world.new) }
{
    if let Some(trees) = &signed.trees {
        keep_trees(alloc, world, lock, trees);
    }
}

/// Signs a job with the next index of a book (RFC 8554, 6.2). The use of the index is stored before
/// the signature is made. That is by nodes that were kept, where they sign what is accepted, and else
/// by trees that are computed. `Book` where no index was given; `OutOfMemory` where memory is refused after
/// it was, and the index stays used. A crash at any moment leaves what it could leave before, or
/// the image that counts the index.
fn sign_reserved<S: StateStore>(
    resources: &Resources<impl Threads + Sync, impl Progress>,
    book: &mut Book<S>,
    job: &Job,
    kept: Option<&[u8]>,
) -> Result<KeptSignature, NextFault>
    ensures index { IfOk result (λ signed. signed.index ≡ counter book.old) }
    ensures reserved { IfOk result (λ _. GivesOne book.old book.new) }
    ensures failed { IfErr result (λ fault. SignsNothing book.old fault book.new) }
    ensures signature { IfOk result (λ signed.
        IsSignedByText (option_map (λ text. text.now) kept.entry) book.old.key signed.index
        job.now.c job.now.message.items signed.signature.items signed.trees) }
{
    let lease = book.reserve(1).map_err(|fault| NextFault::Book(fault))?;
    let message = job.message.as_slice();
    let (rt, alloc) = (resources.rt, resources.alloc);
    match sign_lease(rt, alloc, lease, &job.c, message, kept, resources.progress) {
        Ok(signed) => Ok(signed),
        Err(OutOfMemory) => Err(NextFault::OutOfMemory),
    }
}
