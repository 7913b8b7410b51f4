use crate::tests::fixtures::{plan, plan_read};
use lms_book::{Left, MemoryStore, ReadFault, StateStore};
use lms_fixtures::store_of;
use std::alloc::Global;
use std::test::Fail;

/// Whether a store takes these bytes.
fn takes(store: &mut MemoryStore, text: &[u8]) -> bool {
    store.replace(text) == Ok(())
}

/// Whether a store holds these bytes.
fn holds(store: &MemoryStore, text: &[u8]) -> bool {
    store.text() == Some(text)
}

/// Whether a store can't be read.
fn fails(alloc: Global, store: &mut MemoryStore) -> bool {
    match store.read(alloc) {
        Ok(_) => false,
        Err(fault) => fault == ReadFault::Device,
    }
}

#[test]
fn a_store_fails_as_planned(rt: HostRuntime) -> Result<(), Fail> {
    let mut store = store_of(rt.alloc(), b"a")?;
    plan(&mut store, 3, Left::New, false);
    plan(&mut store, 5, Left::New, true);
    plan(&mut store, 2, Left::Old, false);
    let held = [
        (b"b", true, b"b"),
        (b"c", false, b"b"),
        (b"d", false, b"d"),
        (b"e", true, b"e"),
        (b"f", false, b"f"),
        (b"g", false, b"f"),
    ];
    for (text, taken, left) in held {
        assert!(rt; takes(&mut store, text) == taken && holds(&store, left));
    }
    let has_stopped = fails(rt.alloc(), &mut store);
    let mut store = store.restart();
    assert!(rt; has_stopped && takes(&mut store, b"h") && holds(&store, b"h"));
    Ok(())
}

/// Whether a store gives these bytes. Memory that is refused once is asked for again, here and
/// below.
fn gives(alloc: Global, store: &mut MemoryStore, text: &[u8]) -> bool {
    let given = match store.read(alloc) {
        Err(ReadFault::OutOfMemory) => store.read(alloc),
        answer => answer,
    };
    match given {
        Ok(given) => given.as_slice() == text,
        Err(_) => false,
    }
}

#[test]
fn a_store_reads_unless_it_is_to_fail(rt: HostRuntime) -> Result<(), Fail> {
    let alloc = rt.alloc();
    let mut store = store_of(alloc, b"a")?;
    let is_read = gives(alloc, &mut store, b"a");
    plan_read(&mut store, 1);
    plan_read(&mut store, 2);
    assert!(rt;
        is_read
            && fails(alloc, &mut store)
            && fails(alloc, &mut store)
            && gives(alloc, &mut store, b"a")
    );
    Ok(())
}

#[test]
fn a_store_refuses_what_it_has_no_capacity_for(rt: HostRuntime) -> Result<(), Fail> {
    let mut store = match MemoryStore::new(rt.alloc(), None, 1) {
        Ok(store) => store,
        Err(_) => MemoryStore::new(rt.alloc(), None, 1)?,
    };
    let is_empty = store.text().is_none() && fails(rt.alloc(), &mut store);
    let is_too_long = !takes(&mut store, &[7; 257]) && store.text().is_none();
    let is_full = takes(&mut store, &[7; 256]) && !takes(&mut store, b"a");
    let is_as_it_was = holds(&store, &[7; 256]);
    let mut store = store.restart();
    assert!(rt; is_empty && is_too_long && is_full && is_as_it_was && takes(&mut store, b"a"));
    Ok(())
}
