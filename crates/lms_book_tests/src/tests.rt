use crate::tests::fixtures::{
    FIRST_EXHAUSTED, FIRST_TALL, LEVELS, failing_book, first_book, plan_read, small_store,
};
use lms_book::{Book, BookFault, Entry, Left, MemoryStore, OpenFault, ReadFault, StoreFault};
use lms_fixtures::{book_at, book_of, image_with, key_of, lease_from, reserved, store_of};
use lms_image::ImageFault;
use lms_params::{LmsType, OtsType};
use std::alloc::Global;
use std::fmt::Display;
use std::test::Fail;

mod fixtures;
mod images;
mod lives;
mod memory;

/// A book over a store that holds the image of 5/8 and this counter.
fn small_book(alloc: Global, counter: u64) -> Result<Book<MemoryStore>, &'static str> {
    book_at(alloc, key_of(&LEVELS, 0x11)?, counter)
}

/// The book after a crash of the program.
fn reopened(alloc: Global, book: Book<MemoryStore>) -> Result<Book<MemoryStore>, &'static str> {
    book_of(alloc, book.close().restart())
}

/// Reserves n indices, 1 to 1024, and gives the lease back: the first one and their number.
fn taken(book: &mut Book<MemoryStore>, n: u64) -> Result<(u64, u64), BookFault> {
    reserved(book, n.clamp(1, 1024))
}

/// Whether the book gives the indices from `start` on.
fn gives(book: &mut Book<MemoryStore>, n: u64, start: u64) -> bool {
    taken(book, n) == Ok((start, n))
}

/// Whether the book refuses to give n indices, since it has fewer.
fn refuses(book: &mut Book<MemoryStore>, n: u64, left: u64) -> bool {
    taken(book, n) == Err(BookFault::Exhausted { left })
}

/// Whether the write of n indices from `start` on fails, and burns them.
fn burns(book: &mut Book<MemoryStore>, n: u64, start: u64) -> bool {
    taken(book, n) == Err(BookFault::Store { start, len: n })
}

/// Whether the book says these numbers of its reservations.
fn counts(book: &Book<MemoryStore>, base: u64, counter: u64, stored: u64) -> bool {
    book.base() == base && book.counter() == counter && book.stored() == stored
}

/// Whether the book's history is this one.
fn has_history(book: &Book<MemoryStore>, history: &[Entry]) -> bool {
    book.history() == history
}

/// Whether the book says these numbers of openings and of burnt indices.
fn has_opened_and_burnt(book: &Book<MemoryStore>, openings: u64, burnt: u64) -> bool {
    book.openings() == openings && book.burnt() == burnt
}

/// Whether the book's store holds the image of the key of these levels and of these numbers.
fn leaves(
    book: Book<MemoryStore>,
    levels: &[(LmsType, OtsType)],
    counter: u64,
    openings: u64,
    burnt: u64,
) -> bool {
    let store = book.close();
    match key_of(levels, 0x11) {
        Ok(key) => match image_with(key, counter, openings, burnt) {
            Ok(image) => store.text() == Some(image.as_slice()),
            Err(_) => false,
        },
        Err(_) => false,
    }
}

#[test]
fn ranges_follow_each_other(rt: HostRuntime) -> Result<(), Fail> {
    let key = key_of(&LEVELS, 0x11)?;
    let mut book = small_book(rt.alloc(), 0)?;
    let is_right = gives(&mut book, 10, 0)
        && gives(&mut book, 20, 10)
        && refuses(&mut book, 3, 2)
        && gives(&mut book, 2, 30)
        && refuses(&mut book, 1, 0);
    let history = [
        Entry::Given { len: 10 },
        Entry::Given { len: 20 },
        Entry::Given { len: 2 },
    ];
    let says_so = counts(&book, 0, 32, 32)
        && has_history(&book, &history)
        && book.key() == key
        && has_opened_and_burnt(&book, 0, 0);
    assert!(rt; leaves(book, &LEVELS, 32, 1, 0) && is_right && says_so);
    Ok(())
}

/// As many leases as a store of the tests has the capacity for.
#[test]
fn gives_leases_of_each_length(rt: HostRuntime) -> Result<(), Fail> {
    let key = key_of(&[(LmsType::H10, OtsType::W8); 2], 0x11)?;
    let mut book = book_at(rt.alloc(), key, 0)?;
    let mut is_right = true;
    for n in 1..1025 {
        let start = book.counter();
        is_right = is_right && gives(&mut book, n, start);
    }
    assert!(rt; is_right && counts(&book, 0, 524800, 524800) && book.history().len() == 1024);
    Ok(())
}

#[test]
fn an_exhausted_key_opens(rt: HostRuntime) -> Result<(), Fail> {
    let mut book = small_book(rt.alloc(), 32)?;
    assert!(rt; counts(&book, 32, 32, 32) && refuses(&mut book, 1, 0));
    Ok(())
}

/// Whether a book reserves the indices 5 to 7 at the first or at the second try, and is as it was
/// after a first one that is refused memory.
fn reserves_at_last(book: &mut Book<MemoryStore>) -> bool {
    let mut is_right = true;
    let lease = match book.reserve(3) {
        Err(fault) => {
            is_right = fault == BookFault::OutOfMemory
                && counts(book, 5, 5, 5)
                && has_history(book, &[]);
            book.reserve(3)
        }
        answer => answer,
    };
    match lease {
        Ok(lease) => {
            is_right = is_right && lease.start() == 5 && lease.len() == 3;
            book.give_back(lease);
            is_right && counts(book, 5, 8, 8)
        }
        Err(_) => false,
    }
}

/// The merge check refuses each request for memory in turn, and the second call works.
#[test]
fn a_book_works_after_refused_memory(rt: HostRuntime) -> Result<(), Fail> {
    let mut book = small_book(rt.alloc(), 5)?;
    assert!(rt; reserves_at_last(&mut book));
    Ok(())
}

#[test]
fn a_failed_write_burns(rt: HostRuntime) -> Result<(), Fail> {
    let history = [
        Entry::Given { len: 10 },
        Entry::Burnt { len: 5 },
        Entry::Given { len: 5 },
    ];
    for left in [Left::Old, Left::New] {
        let mut book = failing_book(rt.alloc(), &[(2, left, false)])?;
        assert!(rt;
            gives(&mut book, 10, 0)
                && burns(&mut book, 5, 10)
                && counts(&book, 0, 15, 10)
                && has_opened_and_burnt(&book, 0, 5)
                && gives(&mut book, 5, 15)
                && counts(&book, 0, 20, 20)
                && has_opened_and_burnt(&book, 0, 5)
                && has_history(&book, &history),
            "{left:?}"
        );
    }
    Ok(())
}

/// Why a store does not open, and the store. Memory that is refused once is asked for again.
fn refused(alloc: Global, store: MemoryStore) -> Result<(OpenFault, MemoryStore), Fail> {
    let answer = match Book::open(alloc, store) {
        Err((OpenFault::OutOfMemory, store)) => Book::open(alloc, store),
        answer => answer,
    };
    match answer {
        Ok(_) => Err(Fail::from("the store is not opened")),
        Err(refused) => Ok(refused),
    }
}

#[test]
fn a_failed_read_hands_the_store_back(rt: HostRuntime) -> Result<(), Fail> {
    let mut store = small_store(rt.alloc(), 0)?;
    plan_read(&mut store, 1);
    let (fault, store) = refused(rt.alloc(), store)?;
    let book = book_of(rt.alloc(), store)?;
    assert!(rt; fault == OpenFault::Store && counts(&book, 0, 0, 0));
    Ok(())
}

#[test]
fn a_bad_text_hands_the_store_back(rt: HostRuntime) -> Result<(), Fail> {
    let store = store_of(rt.alloc(), b"HSSK")?;
    let (fault, store) = refused(rt.alloc(), store)?;
    assert!(rt;
        fault == OpenFault::Image(ImageFault::Truncated) && store.text() == Some(b"HSSK".as_slice())
    );
    Ok(())
}

/// Whether a book gives the last index of 2^60, and nothing else.
fn uses_up_the_last(book: &mut Book<MemoryStore>) -> bool {
    refuses(book, 2, 1) && gives(book, 1, 1152921504606846975) && refuses(book, 1, 0)
}

#[test]
fn a_tall_key_is_used_up(rt: HostRuntime) -> Result<(), Fail> {
    let key = key_of(&[(LmsType::H15, OtsType::W8); 4], 0x11)?;
    let mut book = book_at(rt.alloc(), key, 1152921504606846975)?;
    let is_right = uses_up_the_last(&mut book);
    let mut book = reopened(rt.alloc(), book)?;
    assert!(rt; is_right && refuses(&mut book, 1, 0));
    Ok(())
}

#[test]
fn an_exhausted_key_of_version_1_opens(rt: HostRuntime) -> Result<(), Fail> {
    let mut book = first_book(rt.alloc(), FIRST_EXHAUSTED)?;
    assert!(rt;
        counts(&book, 32, 32, 32) && has_opened_and_burnt(&book, 0, 0) && refuses(&mut book, 1, 0)
    );
    Ok(())
}

#[test]
fn a_tall_key_of_version_1_is_used_up(rt: HostRuntime) -> Result<(), Fail> {
    let mut book = first_book(rt.alloc(), FIRST_TALL)?;
    assert!(rt; uses_up_the_last(&mut book));
    Ok(())
}

/// Whether a book reserves a lease of n indices, 1 to 1024, and knows it, and another one knows it
/// just where `by_other` says so.
fn is_known(
    book: &mut Book<MemoryStore>,
    other: &Book<MemoryStore>,
    n: u64,
    by_other: bool,
) -> bool {
    match lease_from(book, n.clamp(1, 1024)) {
        Ok(lease) => {
            let is_known = book.knows(&lease) && other.knows(&lease) == by_other;
            lease.end();
            is_known
        }
        Err(_) => false,
    }
}

#[test]
fn a_book_knows_its_leases(rt: HostRuntime) -> Result<(), Fail> {
    let mut book = small_book(rt.alloc(), 0)?;
    let mut equal = small_book(rt.alloc(), 0)?;
    assert!(rt;
        is_known(&mut book, &equal, 4, false)
            && is_known(&mut book, &equal, 3, false)
            && gives(&mut equal, 4, 0)
            && is_known(&mut equal, &book, 3, true)
    );
    Ok(())
}

/// A lease over the same indices of another key.
#[test]
fn a_book_knows_no_other_keys_leases(rt: HostRuntime) -> Result<(), Fail> {
    let another = key_of(&LEVELS, 0x12)?;
    let mut book = small_book(rt.alloc(), 0)?;
    let mut other = book_at(rt.alloc(), another, 0)?;
    assert!(rt; gives(&mut book, 4, 0) && is_known(&mut other, &book, 4, false));
    Ok(())
}

/// Whether this is what a fault says.
fn says<T: Display>(alloc: Global, fault: &T, text: &str) -> bool {
    match fault.to_string(alloc) {
        Ok(said) => said.as_str() == text,
        Err(_) => false,
    }
}

#[test]
fn faults_say_what_failed(rt: HostRuntime) {
    let opening = [
        (OpenFault::Store, "cannot read state"),
        (OpenFault::Image(ImageFault::Damaged), "bad state: Damaged"),
        (OpenFault::OutOfMemory, "out of memory"),
    ];
    for (fault, text) in opening {
        assert!(rt; says(rt.alloc(), &fault, text), "{text}");
    }
    let reserving = [
        (BookFault::Exhausted { left: 2 }, "exhausted: 2 left"),
        (BookFault::OutOfMemory, "out of memory"),
        (
            BookFault::Store { start: 10, len: 5 },
            "cannot write state: 10 to 14 burnt",
        ),
        (
            BookFault::Store { start: 31, len: 1 },
            "cannot write state: 31 to 31 burnt",
        ),
        (
            BookFault::Store {
                start: u64::MAX,
                len: 2,
            },
            "cannot write state: 18446744073709551615 to 18446744073709551615 burnt",
        ),
        (
            BookFault::Store { start: 7, len: 0 },
            "cannot write state: 7 to 7 burnt",
        ),
    ];
    for (fault, text) in reserving {
        assert!(rt; says(rt.alloc(), &fault, text), "{text}");
    }
    assert!(rt;
        says(rt.alloc(), &ReadFault::Device, "cannot read state")
            && says(rt.alloc(), &StoreFault, "cannot write state")
    );
}
