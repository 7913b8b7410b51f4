//! What a build reports of the leaves that it computes.
use super::key_of;
use lms_fixtures::Sums;
use lms_params::{LmsType, OtsType};
use lms_tree::{BandTree, Begun, OutOfMemory};
use std::process::Abort;
use std::test::Fail;
use std::thread::Threads;

/// What serves these leaves of a tree of this height.
fn built(
    rt: &(impl Abort + AllocGlobal + Threads + Sync),
    lms: LmsType,
    first: u32,
    last: u32,
    begun: &Begun<Sums>,
) -> Result<BandTree, OutOfMemory> {
    let key = key_of(lms, OtsType::W1);
    assert!(rt; first <= last && last < 1 << key.lms.height() && last - first < 1024);
    BandTree::build_watched(rt, rt.alloc(), key, first, last, begun)
}

/// One bottom subtree, and two neighbours of 32.
#[test]
fn each_leaf_is_reported_once(rt: HostRuntime) -> Result<(), Fail> {
    for (lms, first, last, leaves) in [(LmsType::H5, 3, 7, 32), (LmsType::H15, 1023, 1024, 32768)] {
        let sums = Sums::new();
        let begun = Begun::new(&sums, leaves);
        let is_begun = sums.leaves_are(leaves, 0);
        drop(built(&rt, lms, first, last, &begun)?);
        assert!(rt; is_begun && sums.leaves_are(leaves, leaves), "{leaves}");
    }
    Ok(())
}

/// All memory is asked for before the first leaf. The merge check refuses each request in turn.
#[test]
fn no_leaf_is_computed_where_memory_is_refused(rt: HostRuntime) {
    let sums = Sums::new();
    let computed = match built(&rt, LmsType::H5, 3, 9, &Begun::new(&sums, 32)) {
        Ok(_) => 32,
        Err(OutOfMemory) => 0,
    };
    assert!(rt; sums.leaves_are(32, computed));
}
