//! Stores of the tests, and books over them.
use lms_book::{Book, Left, MemoryStore};
use lms_fixtures::{book_of, key_of, store_at, store_of};
use lms_params::{LmsType, OtsType};
use std::alloc::Global;
use std::test::Fail;

/// The levels 5/8, with 32 indices.
pub(crate) const LEVELS: [(LmsType, OtsType); 1] = [(LmsType::H5, OtsType::W8)];

/// Images of version 1, by a Python program: of 5/8 with counter 10, of 5/8 with no index left, and
/// of 15/8 four times with one index left, each of a seed of bytes 0x11.
pub(crate) const FIRST_SMALL: &str =
    "4853534b000000010000000100000005000000041111111111111111111111111111111111111111111111111111111111\
    11111122222222222222222222222222222222000000000000000afe4736157ef0b519fef10949bc7819f4f3fd6f81660e\
    1a1435ccf5ffba43491e";

pub(crate) const FIRST_EXHAUSTED: &str =
    "4853534b000000010000000100000005000000041111111111111111111111111111111111111111111111111111111111\
    111111222222222222222222222222222222220000000000000020de6e15cdac49703b45bd4c3a86f8056ad2bfd172ac24\
    2755b7b92183f5481504";

pub(crate) const FIRST_TALL: &str =
    "4853534b00000001000000040000000700000004000000070000000400000007000000040000000700000004111111111111\
    1111111111111111111111111111111111111111111111111111222222222222222222222222222222220fffffffffffffff\
    cbd66f61fe746ad73f25d16a961319fc43fd46f99880f804bda0db84194e9229";

/// A store that holds the image of 5/8 and this counter.
pub(crate) fn small_store(alloc: Global, counter: u64) -> Result<MemoryStore, &'static str> {
    store_at(alloc, key_of(&LEVELS, 0x11)?, counter)
}

/// A store that holds this image of version 1.
pub(crate) fn first_store(alloc: Global, image: &str) -> Result<MemoryStore, Fail> {
    Ok(store_of(alloc, &hex::decode(alloc, image)?)?)
}

/// A book over a store that holds this image of version 1.
pub(crate) fn first_book(alloc: Global, image: &str) -> Result<Book<MemoryStore>, Fail> {
    Ok(book_of(alloc, first_store(alloc, image)?)?)
}

/// Plans that the k-th write of a store from now, 1 to 8, fails, or that the program crashes in it.
pub(crate) fn plan(store: &mut MemoryStore, k: usize, left: Left, stops: bool) {
    let k = k.clamp(1, 8);
    if stops {
        store.stop_replace(k, left);
    } else {
        store.fail_replace(k, left);
    }
}

/// Plans that the k-th read of a store from now, 1 to 8, fails.
pub(crate) fn plan_read(store: &mut MemoryStore, k: usize) {
    store.fail_read(k.clamp(1, 8));
}

/// A book over an unused key of 5/8, whose store fails or stops at these writes: their numbers, what
/// they leave, and whether the program crashes.
pub(crate) fn failing_book(
    alloc: Global,
    writes: &[(usize, Left, bool)],
) -> Result<Book<MemoryStore>, &'static str> {
    let mut store = small_store(alloc, 0)?;
    for write in writes {
        let (k, left, stops) = *write;
        plan(&mut store, k, left, stops);
    }
    book_of(alloc, store)
}
