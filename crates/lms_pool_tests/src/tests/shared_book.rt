//! A book shared by desks, and by threads.
ghost use Rattle.std.specs.Prelude.{◌≡◌, ◌≤◌, ◌+◌};
ghost use Rattle.lms_shared_book.specs.Desks.{most_desks, BlankFits};

use lms_book::{Book, BookFault, Entry, Lease, Left, MemoryStore};
use lms_fixtures::{book_at, book_of, key_of, reserved, store_at};
use lms_params::{LmsType, OtsType, OutOfMemory};
use lms_shared_book::{Blanks, BookLedger, Desk, MissingDesks, SharedBook};
use std::alloc::{AllocGlobal, Global};
use std::marker::Brand;
use std::process::Abort;
use std::sync::Wait;
use std::sync::ledger::{Blank, Ledger};
use std::test::Fail;
use std::thread;
use std::thread::Threads;

/// A level of 5/8, with 32 indices.
const SMALL: [(LmsType, OtsType); 1] = [(LmsType::H5, OtsType::W8)];

/// The book of a key of these levels whose next index is this one.
fn book_from(
    alloc: Global,
    levels: &[(LmsType, OtsType)],
    counter: u64,
) -> Result<Book<MemoryStore>, &'static str> {
    book_at(alloc, key_of(levels, 0x11)?, counter)
}

fn blanks(parts: u64) -> Blanks
    ensures { (result.entries.parts ≡ parts) × (result.received.parts ≡ parts)
        × (result.burnt.parts ≡ parts) }
{
    Blanks {
        entries: Blank::new(parts),
        received: Blank::new(parts),
        burnt: Blank::new(parts),
    }
}

/// What a desk counted: entries, received, burnt.
fn counts<E: BookLedger, G: Ledger, B: Ledger>(desk: &Desk<E, G, B>) -> (u64, u64, u64) {
    (desk.entries(), desk.received(), desk.burnt())
}

/// Whether the desk of this place counted so.
fn has_counted<E: BookLedger, G: Ledger, B: Ledger>(
    desks: &[Desk<E, G, B>],
    place: usize,
    counted: (u64, u64, u64),
) -> bool {
    match desks.get(place) {
        Some(desk) => counts(desk) == counted,
        None => false,
    }
}

/// The first index of a lease and the number of its indices.
fn spent(lease: Lease) -> (u64, u64) {
    let range = (lease.start(), lease.len());
    lease.end();
    range
}

/// Whether a reservation of n indices, 1 to 1024, at the desk of this place answers so: the first
/// index and the number of indices.
fn reserves<E: BookLedger, G: Ledger, B: Ledger>(
    rt: &impl Wait,
    shared: &SharedBook<MemoryStore, E, G, B>,
    desks: &mut [Desk<E, G, B>],
    place: usize,
    n: u64,
    expected: Result<(u64, u64), BookFault>,
) -> bool {
    let n = n.clamp(1, 1024);
    match desks.get_mut(place) {
        Some(desk) => {
            let lease = match shared.reserve(rt, desk, n) {
                Err(BookFault::OutOfMemory) => shared.reserve(rt, desk, n),
                answer => answer,
            };
            match lease {
                Ok(lease) => expected == Ok(spent(lease)),
                Err(fault) => expected == Err(fault),
            }
        }
        None => false,
    }
}

/// Settles with all desks, and compares the history.
fn settled<E: BookLedger, G: Ledger, B: Ledger>(
    rt: &impl Abort,
    shared: SharedBook<MemoryStore, E, G, B>,
    desks: Vec<Desk<E, G, B>>,
    history: &[Entry],
) -> Result<(), Fail> {
    let book = shared.settle(desks).ok().ok_or("all desks are there")?;
    assert!(rt; book.history() == history);
    Ok(())
}

/// Shares a book, and once more with what was handed back where memory is refused.
fn shared_at_last<E: BookLedger, G: Ledger, B: Ledger>(
    alloc: Global,
    book: Book<MemoryStore>,
    blanks: Blanks,
) -> Result<(SharedBook<MemoryStore, E, G, B>, Vec<Desk<E, G, B>>), Fail>
    requires entries { BlankFits blanks.entries E.name E.parts 3 }
    requires received { BlankFits blanks.received G.name G.parts 3 }
    requires burnt { BlankFits blanks.burnt B.name B.parts 3 }
    requires same { book ≡ E.book }
{
    let shared = match SharedBook::share(alloc, book, blanks, 2) {
        Err((OutOfMemory, book, blanks)) => SharedBook::share(alloc, book, blanks, 2),
        answer => answer,
    };
    Ok(shared.ok().ok_or("a second try shares")?)
}

/// Shares a book that gave 3 indices before, and reserves 2 at the second of two desks.
fn two_desks<E: BookLedger, G: Ledger, B: Ledger>(
    rt: &(impl Abort + AllocGlobal + Wait),
    book: Book<MemoryStore>,
    blanks: Blanks,
) -> Result<(), Fail>
    requires entries { BlankFits blanks.entries E.name E.parts 3 }
    requires received { BlankFits blanks.received G.name G.parts 3 }
    requires burnt { BlankFits blanks.burnt B.name B.parts 3 }
    requires same { book ≡ E.book }
{
    let (shared, mut desks) = shared_at_last::<E, G, B>(rt.alloc(), book, blanks)?;
    assert!(rt;
        reserves(rt, &shared, &mut desks, 1, 2, Ok((8, 2)))
            && has_counted(&desks, 0, (0, 0, 0))
            && has_counted(&desks, 1, (1, 2, 0))
    );
    let history = [Entry::Given { len: 3 }, Entry::Given { len: 2 }];
    settled(rt, shared, desks, &history)
}

/// The merge check refuses each of the four requests for memory in turn, the last for the desks:
/// the second call works.
#[test]
fn a_book_is_shared_after_refused_memory(rt: HostRuntime) -> Result<(), Fail> {
    let mut book = book_from(rt.alloc(), &SMALL, 5)?;
    assert!(rt; reserved(&mut book, 3) == Ok((5, 3)));
    two_desks::<Brand, Brand, Brand>(&rt, book, blanks(3))
}

/// Settles with a desk less than all, reads those that are handed back, and settles with all.
fn settled_at_last<E: BookLedger, G: Ledger, B: Ledger>(
    rt: &(impl Abort + AllocGlobal),
    shared: SharedBook<MemoryStore, E, G, B>,
    desks: Vec<Desk<E, G, B>>,
    history: &[Entry],
) -> Result<(), Fail> {
    let mut desks = desks;
    let last = desks.pop().ok_or("a desk")?;
    let Err((missing, shared, mut desks)) = shared.settle(desks) else {
        return Err(Fail::from("a desk is missing"));
    };
    let says_so = match missing.to_string(rt.alloc()) {
        Ok(text) => text.as_str() == "desks are missing: 2 came",
        Err(_) => false,
    };
    assert!(rt;
        says_so
            && missing == MissingDesks { present: 2 }
            && has_counted(&desks, 0, (2, 7, 0))
            && has_counted(&desks, 1, (1, 0, 3))
    );
    desks.push(last)?;
    settled(rt, shared, desks, history)
}

/// Three desks: 2 given, 3 burnt, 5 given, and one at which nothing is reserved.
fn three_desks<E: BookLedger, G: Ledger, B: Ledger>(
    rt: &(impl Abort + AllocGlobal + Wait),
    book: Book<MemoryStore>,
    blanks: Blanks,
) -> Result<(), Fail>
    requires same { book ≡ E.book }
    requires entries { BlankFits blanks.entries E.name E.parts 4 }
    requires received { BlankFits blanks.received G.name G.parts 4 }
    requires burnt { BlankFits blanks.burnt B.name B.parts 4 }
{
    let key = book.key();
    let shared = SharedBook::<MemoryStore, E, G, B>::share(rt.alloc(), book, blanks, 3);
    let (shared, mut desks) = shared.ok().ok_or("memory for desks")?;
    let burnt = BookFault::Store { start: 2, len: 3 };
    assert!(rt;
        shared.key() == key
            && reserves(rt, &shared, &mut desks, 0, 2, Ok((0, 2)))
            && reserves(rt, &shared, &mut desks, 1, 3, Err(burnt))
            && holds(rt, &shared, (0, 5, 2, 2))
            && reserves(rt, &shared, &mut desks, 0, 5, Ok((5, 5)))
            && has_counted(&desks, 0, (2, 7, 0))
            && has_counted(&desks, 1, (1, 0, 3))
            && has_counted(&desks, 2, (0, 0, 0))
            && holds(rt, &shared, (0, 10, 10, 3))
    );
    let history = [
        Entry::Given { len: 2 },
        Entry::Burnt { len: 3 },
        Entry::Given { len: 5 },
    ];
    settled_at_last(rt, shared, desks, &history)
}

/// Whether a shared book says so of its reservations: base, counter, what is stored, entries. Its
/// key is that of the reservations.
fn holds<E: BookLedger, G: Ledger, B: Ledger>(
    rt: &impl Wait,
    shared: &SharedBook<MemoryStore, E, G, B>,
    numbers: (u64, u64, u64, usize),
) -> bool {
    let key = shared.key();
    let (found_key, found) = shared.with(
        rt,
        |found| (
            found.key(),
            (
                found.base(),
                found.counter(),
                found.stored(),
                found.history().len(),
            ),
        ),
    );
    found_key == key && found == numbers
}

#[test]
fn desks_count_what_they_got(rt: HostRuntime) -> Result<(), Fail> {
    let mut store = store_at(rt.alloc(), key_of(&SMALL, 0x11)?, 0)?;
    store.fail_replace(2, Left::Old);
    let book = book_of(rt.alloc(), store)?;
    three_desks::<Brand, Brand, Brand>(&rt, book, blanks(4))
}

/// Whether each desk reserves once.
fn each_reserves<E: BookLedger, G: Ledger, B: Ledger>(
    rt: &impl Wait,
    shared: &SharedBook<MemoryStore, E, G, B>,
    desks: &mut [Desk<E, G, B>],
) -> bool {
    let mut is_right = true;
    for place in 0..desks.len() {
        let start = place as u64;
        is_right = is_right
            && reserves(rt, shared, desks, place, 1, Ok((start, 1)))
            && has_counted(desks, place, (1, 1, 0));
    }
    is_right
}

/// So many desks, each of which reserves once.
fn many_desks<E: BookLedger, G: Ledger, B: Ledger>(
    rt: &(impl Abort + AllocGlobal + Wait),
    book: Book<MemoryStore>,
    blanks: Blanks,
    desks: usize,
) -> Result<(), Fail>
    requires some { 1 ≤ desks }
    requires at_most { desks ≤ most_desks }
    requires same { book ≡ E.book }
    requires entries { BlankFits blanks.entries E.name E.parts (desks + 1) }
    requires received { BlankFits blanks.received G.name G.parts (desks + 1) }
    requires burnt { BlankFits blanks.burnt B.name B.parts (desks + 1) }
{
    let shared = SharedBook::<MemoryStore, E, G, B>::share(rt.alloc(), book, blanks, desks);
    let (shared, mut all) = shared.ok().ok_or("memory for desks")?;
    assert!(rt; all.len() == desks && each_reserves(rt, &shared, &mut all));
    settled(rt, shared, all, &[Entry::Given { len: 1 }; 64][..desks])
}

fn desks_of_a_new_book(rt: &(impl Abort + AllocGlobal + Wait), desks: usize) -> Result<(), Fail>
    requires some { 1 ≤ desks }
    requires at_most { desks ≤ most_desks }
{
    let book = book_from(rt.alloc(), &[(LmsType::H10, OtsType::W8)], 0)?;
    many_desks::<Brand, Brand, Brand>(rt, book, blanks(desks as u64 + 1), desks)
}

#[test]
fn each_number_of_desks_is_shared(rt: HostRuntime) -> Result<(), Fail> {
    for desks in 1..65 {
        desks_of_a_new_book(&rt, desks)?;
    }
    Ok(())
}

/// Eight leases of one index, each asked of the book: the starts of those that it knew.
fn reserve_eight<E: BookLedger, G: Ledger, B: Ledger>(
    rt: &impl Wait,
    shared: &SharedBook<MemoryStore, E, G, B>,
    desk: Desk<E, G, B>,
) -> (Desk<E, G, B>, [Option<u64>; 8]) {
    let mut desk = desk;
    let mut starts = [None; 8];
    for start in starts.iter_mut() {
        if let Ok(lease) = shared.reserve(rt, &mut desk, 1) {
            if shared.with(rt, |found| found.knows(&lease)) {
                *start = Some(lease.start());
            }
            shared.give_back(lease);
        }
    }
    (desk, starts)
}

/// Marks these starts as given. Whether each is below 32 and was not given before.
fn marks(given: &mut [bool; 32], starts: [Option<u64>; 8]) -> bool {
    let mut is_right = true;
    for start in starts {
        match start {
            Some(start) => match given.get_mut(start as usize) {
                Some(place) => {
                    is_right = is_right && !*place;
                    *place = true;
                }
                None => is_right = false,
            },
            None => is_right = false,
        }
    }
    is_right
}

/// The desks of four threads, and whether the starts that they got are 0 to 31, each once.
fn gathered<E: BookLedger, G: Ledger, B: Ledger>(
    alloc: Global,
    visits: Vec<(Desk<E, G, B>, [Option<u64>; 8])>,
) -> Result<(Vec<Desk<E, G, B>>, bool), Fail> {
    let mut desks = Vec::new(alloc);
    let mut given = [false; 32];
    let mut is_right = true;
    for (desk, starts) in visits {
        is_right = is_right && counts(&desk) == (8, 8, 0) && marks(&mut given, starts);
        desks.push(desk)?;
    }
    Ok((desks, is_right && given == [true; 32]))
}

/// Settles with no desk, which is refused, and then with all.
fn settled_after_none<E: BookLedger, G: Ledger, B: Ledger>(
    rt: &(impl Abort + AllocGlobal),
    shared: SharedBook<MemoryStore, E, G, B>,
    desks: Vec<Desk<E, G, B>>,
    history: &[Entry],
) -> Result<(), Fail> {
    let Err((missing, shared, _none)) = shared.settle(Vec::new(rt.alloc())) else {
        return Err(Fail::from("no desk is there"));
    };
    assert!(rt; missing == MissingDesks { present: 0 });
    settled(rt, shared, desks, history)
}

/// Four threads, each with a desk, use up a key of 32 indices.
fn four_threads<E: BookLedger + Send + Sync, G: Ledger + Send + Sync, B: Ledger + Send + Sync>(
    rt: &(impl Abort + AllocGlobal + Threads + Wait + Sync),
    book: Book<MemoryStore>,
    blanks: Blanks,
) -> Result<(), Fail>
    requires same { book ≡ E.book }
    requires entries { BlankFits blanks.entries E.name E.parts 5 }
    requires received { BlankFits blanks.received G.name G.parts 5 }
    requires burnt { BlankFits blanks.burnt B.name B.parts 5 }
{
    let shared = SharedBook::<MemoryStore, E, G, B>::share(rt.alloc(), book, blanks, 4);
    let (shared, desks) = shared.ok().ok_or("memory for desks")?;
    let lent = &shared;
    let visits = thread::map_vec(rt, desks, &|desk| reserve_eight(rt, lent, desk))?;
    let (mut desks, are_given) = gathered(rt.alloc(), visits)?;
    let exhausted = BookFault::Exhausted { left: 0 };
    assert!(rt;
        are_given
            && reserves(rt, &shared, &mut desks, 0, 1, Err(exhausted))
            && has_counted(&desks, 0, (8, 8, 0))
    );
    settled_after_none(rt, shared, desks, &[Entry::Given { len: 1 }; 32])
}

#[test]
fn leases_are_known(rt: HostRuntime) -> Result<(), Fail> {
    let book = book_from(rt.alloc(), &SMALL, 0)?;
    four_threads::<Brand, Brand, Brand>(&rt, book, blanks(5))
}
