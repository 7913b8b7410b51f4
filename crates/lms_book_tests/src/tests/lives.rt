use super::{burns, counts, gives, has_opened_and_burnt, leaves, refuses, reopened, taken};
use crate::tests::fixtures::{FIRST_SMALL, LEVELS, failing_book, first_book, first_store, plan};
use lms_book::{Book, BookFault, Left, MemoryStore};
use lms_fixtures::{book_of, image_with, key_of, store_of};
use lms_params::{LmsType, OtsType};
use std::alloc::Global;
use std::test::Fail;

#[test]
fn a_life_of_failed_writes(rt: HostRuntime) -> Result<(), Fail> {
    let mut book = failing_book(rt.alloc(), &[(3, Left::Old, false), (2, Left::New, false)])?;
    let is_right = gives(&mut book, 4, 0)
        && burns(&mut book, 4, 4)
        && burns(&mut book, 4, 8)
        && counts(&book, 0, 12, 4);
    let mut book = reopened(rt.alloc(), book)?;
    let goes_on = counts(&book, 8, 8, 8)
        && has_opened_and_burnt(&book, 1, 0)
        && gives(&mut book, 24, 8)
        && refuses(&mut book, 1, 0);
    assert!(rt; leaves(book, &LEVELS, 32, 2, 0) && is_right && goes_on);
    Ok(())
}

/// A book over what version 1 wrote with counter 10, whose first write, of 5 indices, fails.
fn first_book_burns(alloc: Global, left: Left) -> Result<Book<MemoryStore>, Fail> {
    let mut store = first_store(alloc, FIRST_SMALL)?;
    plan(&mut store, 1, left, false);
    Ok(book_of(alloc, store)?)
}

#[test]
fn version_1_is_replaced_by_the_first_write(rt: HostRuntime) -> Result<(), Fail> {
    let mut book = first_book_burns(rt.alloc(), Left::New)?;
    let is_right = counts(&book, 10, 10, 10)
        && has_opened_and_burnt(&book, 0, 0)
        && burns(&mut book, 5, 10)
        && has_opened_and_burnt(&book, 0, 5)
        && gives(&mut book, 5, 15);
    let mut book = reopened(rt.alloc(), book)?;
    let goes_on = counts(&book, 20, 20, 20)
        && has_opened_and_burnt(&book, 1, 5)
        && gives(&mut book, 1, 20);
    assert!(rt; leaves(book, &LEVELS, 21, 2, 5) && is_right && goes_on);
    Ok(())
}

/// Once the first write over version 1 failed, the state counts the opening, or is as it was.
#[test]
fn a_failed_first_write_over_version_1(rt: HostRuntime) -> Result<(), Fail> {
    for (left, base, openings) in [(Left::New, 15, 1), (Left::Old, 10, 0)] {
        let mut book = first_book_burns(rt.alloc(), left)?;
        let is_burnt = burns(&mut book, 5, 10);
        let book = reopened(rt.alloc(), book)?;
        assert!(rt;
            is_burnt && counts(&book, base, base, base) && has_opened_and_burnt(&book, openings, 0),
            "{left:?}"
        );
    }
    Ok(())
}

#[test]
fn a_failed_first_write_may_leave_its_image(rt: HostRuntime) -> Result<(), Fail> {
    let mut book = first_book_burns(rt.alloc(), Left::New)?;
    let is_burnt = burns(&mut book, 5, 10);
    assert!(rt; leaves(book, &LEVELS, 15, 1, 0) && is_burnt);
    Ok(())
}

#[test]
fn a_write_after_a_failed_first_one(rt: HostRuntime) -> Result<(), Fail> {
    let mut book = first_book_burns(rt.alloc(), Left::Old)?;
    let goes_on = burns(&mut book, 5, 10) && gives(&mut book, 5, 15);
    assert!(rt; leaves(book, &LEVELS, 20, 1, 5) && goes_on);
    Ok(())
}

/// Opening alone writes nothing, and is not counted.
#[test]
fn an_opening_that_stores_nothing_is_not_counted(rt: HostRuntime) -> Result<(), Fail> {
    let first = first_store(rt.alloc(), FIRST_SMALL)?;
    let book = first_book(rt.alloc(), FIRST_SMALL)?;
    let book = reopened(rt.alloc(), book)?;
    let is_right = counts(&book, 10, 10, 10) && has_opened_and_burnt(&book, 0, 0);
    assert!(rt; book.close().text() == first.text() && is_right);
    Ok(())
}

#[test]
fn lives_with_a_stop_in_a_write(rt: HostRuntime) -> Result<(), Fail> {
    for (left, base) in [(Left::Old, 10), (Left::New, 15)] {
        let mut book = failing_book(rt.alloc(), &[(2, left, true)])?;
        let is_right = gives(&mut book, 10, 0)
            && burns(&mut book, 5, 10)
            && burns(&mut book, 2, 15);
        let mut book = reopened(rt.alloc(), book)?;
        assert!(rt;
            is_right && counts(&book, base, base, base) && gives(&mut book, 1, base),
            "{left:?}"
        );
    }
    Ok(())
}

/// By a key of 2^60 indices, half of them used. Each number may have up to 60 bits.
#[test]
fn counts_openings_past_32_bits(rt: HostRuntime) -> Result<(), Fail> {
    let levels = [(LmsType::H15, OtsType::W8); 4];
    let key = key_of(&levels, 0x11)?;
    let counter = 1 << 59;
    for openings in [0xffff_fffe, 0xffff_ffff, 1 << 32, 1 << 48, counter] {
        let image = image_with(key, counter, openings, openings)?;
        let mut book = book_of(rt.alloc(), store_of(rt.alloc(), image.as_slice())?)?;
        let is_right = has_opened_and_burnt(&book, openings, openings)
            && gives(&mut book, 1000, counter)
            && gives(&mut book, 24, counter + 1000);
        let next = openings.saturating_add(1);
        assert!(rt;
            leaves(book, &levels, counter + 1024, next, openings) && is_right,
            "{openings}"
        );
    }
    Ok(())
}

/// Marks the indices of a range as given. Whether none was given before, or is past the capacity.
fn marks(given: &mut [bool; 32], range: (u64, u64)) -> bool {
    let mut is_right = range.0.saturating_add(range.1) <= 32;
    for (index, place) in (0..).zip(given.iter_mut()) {
        if range.0 <= index && index - range.0 < range.1 {
            is_right = is_right && !*place;
            *place = true;
        }
    }
    is_right
}

/// Reserves 1 to 6, and marks what is given. Whether it was given once.
fn marks_six(book: &mut Book<MemoryStore>, given: &mut [bool; 32]) -> bool {
    let mut is_right = true;
    for n in 1..7 {
        if let Ok(range) = taken(book, n) {
            is_right = is_right && marks(given, range);
        }
    }
    is_right
}

/// Reserves 1 until the key is exhausted, and marks what is given. Whether it was given once, and
/// nothing else was refused.
fn marks_rest(book: &mut Book<MemoryStore>, given: &mut [bool; 32]) -> bool {
    let mut is_right = true;
    let mut is_exhausted = false;
    for _ in 0..33 {
        match taken(book, 1) {
            Ok(range) => is_right = is_right && !is_exhausted && marks(given, range),
            Err(BookFault::Exhausted { left: 0 }) => is_exhausted = true,
            Err(_) => is_right = false,
        }
    }
    is_right && is_exhausted
}

/// Reserves 1 to 6 with a failure at the k-th write, starts again, and reserves 1 until the key is
/// exhausted. Answers how many indices were given, and whether each of them was given once.
fn given_with_failure(
    alloc: Global,
    k: usize,
    left: Left,
    stops: bool,
) -> Result<(usize, bool), &'static str> {
    let mut book = failing_book(alloc, &[(k, left, stops)])?;
    let mut given = [false; 32];
    let are_six = marks_six(&mut book, &mut given);
    let mut book = reopened(alloc, book)?;
    let is_right = marks_rest(&mut book, &mut given) && are_six;
    Ok((given.iter().filter(|given| **given).count(), is_right))
}

#[test]
fn no_failure_gives_an_index_twice(rt: HostRuntime) -> Result<(), Fail> {
    for k in 1..7 {
        for left in [Left::Old, Left::New] {
            for stops in [false, true] {
                let burnt = match (stops, left) {
                    (false, _) if k < 6 => k,
                    (_, Left::New) => k,
                    (_, Left::Old) => 0,
                };
                let given = given_with_failure(rt.alloc(), k, left, stops)?;
                assert!(rt; given == (32 - burnt, true), "{k} {left:?} {stops}");
            }
        }
    }
    Ok(())
}
