//! Batches by trees that are kept.
use super::outcome::Outcome;
use super::{Asked, carry_out};
use crate::tests::fixtures::{jobs_of, public_key};
use lms_batch::{Batch, BatchFault, Job, OpenGate, Trees};
use lms_book::BookFault;
use lms_fixtures::{Sums, key_of};
use lms_hss::HssKey;
use lms_params::{LmsType, OtsType};
use std::process::Abort;
use std::sync::Wait;
use std::test::Fail;
use std::thread::Threads;

/// What the batches of a desk are signed by, and how many leaves are computed for it.
#[derive(Drop)]
pub(super) struct Means {
    pub(super) trees: Trees,
    pub(super) sums: Sums,
}

impl Means {
    /// These trees, and nothing computed yet.
    pub(super) fn new(trees: Trees) -> Self {
        Means {
            trees,
            sums: Sums::new(),
        }
    }
}

/// A level of 5/2, whose trees have 32 leaves and are computed quickly.
const QUICK: (LmsType, OtsType) = (LmsType::H5, OtsType::W2);

/// Three levels, with 32768 indices. A window of 1024 of these is 32 bottom trees, below one of the
/// level above.
const THREE: [(LmsType, OtsType); 3] = [QUICK; 3];

/// As many indices. A window is one bottom tree.
const TALL_BELOW: [(LmsType, OtsType); 2] = [QUICK, (LmsType::H10, OtsType::W2)];

/// Batches of the first so many of these jobs, by the indices of a key from one on.
fn signed_from(
    rt: &(impl AllocGlobal + Threads + Wait + Sync),
    key: HssKey,
    start: u64,
    jobs: &[Job],
    lengths: &[usize],
    means: &mut Means,
) -> Result<Outcome, Fail> {
    let asked = Asked {
        jobs,
        lengths,
        workers: 2,
        gate: &OpenGate,
        at_once: false,
        fails_first: false,
    };
    carry_out(rt, key, start, &asked, means)
}

/// Whether the trees of an index that the key has are computed, or nothing where they are not kept.
fn prepares(
    rt: &(impl AllocGlobal + Threads + Sync),
    key: HssKey,
    index: u64,
    means: &mut Means,
) -> bool {
    index < key.capacity()
        && means
            .trees
            .prepare(rt, rt.alloc(), key, index, &means.sums)
            .is_ok()
}

/// A batch: the seed of its key, its first index, how many jobs it has, how many leaves are computed
/// for it, and the room then. One of no job computes the trees of the index before a batch.
type Step = (u8, u64, usize, u64, usize);

/// Whether a batch is signed, by a book of its own, or its trees are computed.
fn is_done(
    rt: &(impl AllocGlobal + Threads + Wait + Sync),
    levels: &[(LmsType, OtsType)],
    jobs: &[Job],
    step: Step,
    means: &mut Means,
) -> Result<bool, Fail> {
    let (seed, start, count, _, _) = step;
    let key = key_of(levels, seed)?;
    if count == 0 {
        Ok(prepares(rt, key, start, means))
    } else {
        let jobs = &jobs[..count.min(jobs.len())];
        let outcome = signed_from(rt, key, start, jobs, &[count], means)?;
        Ok(outcome.is_complete(rt, 0, start, jobs))
    }
}

/// Signs these batches one after another by the same trees, which have room for most jobs before.
/// Leaves are computed in one call or in none.
fn goes_on(
    rt: &(impl Abort + AllocGlobal + Threads + Wait + Sync),
    levels: &[(LmsType, OtsType)],
    trees: Trees,
    steps: &[Step],
) -> Result<(), Fail> {
    let jobs = jobs_of(rt.alloc(), 1024)?;
    let is_new = trees.room() == 1024;
    let mut means = Means::new(trees);
    let mut calls = 0_u64;
    let mut leaves = 0_u64;
    for step in steps {
        let (_, start, _, more, room) = *step;
        let is_right = is_new && is_done(rt, levels, &jobs, *step, &mut means)?;
        leaves = leaves.saturating_add(more);
        if more > 0 {
            calls = calls.saturating_add(1);
        }
        assert!(rt;
            is_right && means.sums.are(calls, leaves) && means.trees.room() == room,
            "{start}"
        );
    }
    Ok(())
}

/// A batch over the edge of a window, by trees of its own.
const ALONE: [Step; 1] = [(0x11, 1020, 8, (1 + 2 + 2) * 32, 1024)];

/// The same by trees that were kept for another key, and by these anew. Those of 1024 indices are
/// computed: the top tree, two trees below it, and 33.
const KEPT: [Step; 2] = [
    (0x12, 1020, 8, (1 + 2 + 33) * 32, 1016),
    (0x11, 1020, 8, (1 + 2 + 33) * 32, 1016),
];

/// A batch over the edge of a window has the same signatures by trees of its own, by kept ones, and
/// by those that were kept for another key.
#[test]
fn a_batch_is_the_same_by_any_trees(rt: HostRuntime) -> Result<(), Fail> {
    goes_on(&rt, &THREE, Trees::per_batch(), &ALONE)?;
    goes_on(&rt, &THREE, Trees::kept(), &KEPT)
}

/// Before a batch in the first window, then in it, to its edge, in the next one, and from there into
/// a third, where the window begins with the batch; within it, and to its end. In a next window, 32
/// bottom trees are new and one of the level above.
const STEPS: [Step; 7] = [
    (0x11, 1000, 0, (1 + 1 + 32) * 32, 24),
    (0x11, 1000, 4, 0, 20),
    (0x11, 1004, 20, 0, 1024),
    (0x11, 1024, 4, 33 * 32, 1020),
    (0x11, 2044, 8, 33 * 32, 1016),
    (0x11, 2052, 8, 0, 1008),
    (0x11, 3060, 8, 0, 1024),
];

/// The trees of a window are computed once, and of the next one those that are new.
#[test]
fn kept_trees_go_from_window_to_window(rt: HostRuntime) -> Result<(), Fail> {
    goes_on(&rt, &THREE, Trees::kept(), &STEPS)
}

/// Before the first batch of a key of one tree, before its last one of two jobs, and that one.
const LAST_STEPS: [Step; 3] = [
    (0x11, 0, 0, 32, 32),
    (0x11, 30, 0, 0, 2),
    (0x11, 30, 2, 0, 1024),
];

/// A window ends where the key does.
#[test]
fn kept_trees_end_with_the_key(rt: HostRuntime) -> Result<(), Fail> {
    goes_on(&rt, &[QUICK], Trees::kept(), &LAST_STEPS)
}

/// Before a batch, that one, and the next one.
const STEPS_ALONE: [Step; 3] = [
    (0x11, 1000, 0, 0, 1024),
    (0x11, 1000, 2, 96, 1024),
    (0x11, 1002, 2, 96, 1024),
];

/// Trees that are not kept are computed for each batch, and for none before it.
#[test]
fn trees_per_batch_are_not_kept(rt: HostRuntime) -> Result<(), Fail> {
    goes_on(&rt, &THREE, Trees::per_batch(), &STEPS_ALONE)
}

/// Most jobs, where the window begins with the batch.
const MOST: [Step; 1] = [(0x11, 512, 1024, 32 + 2 * 1024, 1024)];

/// A batch of most jobs by kept trees.
#[test]
fn most_jobs_are_signed_by_kept_trees(rt: HostRuntime) -> Result<(), Fail> {
    goes_on(&rt, &TALL_BELOW, Trees::kept(), &MOST)
}

/// Whether the trees of index 1020 are there at the first or at the second try, and none after a
/// first one that is refused memory.
fn is_prepared(rt: &(impl AllocGlobal + Threads + Sync), key: &HssKey, means: &mut Means) -> bool {
    let is_there = prepares(rt, *key, 1020, means)
        || (means.trees.room() == 1024 && prepares(rt, *key, 1020, means));
    is_there && means.trees.room() == 4
}

/// How many indices the batch of this place used, of the four from this one on, and whether it was
/// refused memory, or `None` where it is neither valid nor refused.
fn used_by(
    outcome: &Outcome,
    public: &[u8],
    jobs: &[Job],
    place: usize,
    first: u64,
) -> Option<(u64, bool)> {
    let is_partial = match outcome.batch(place) {
        Some(Batch::Partial { start, slots: _ }) => *start == first,
        _ => false,
    };
    if outcome.start_of(place, public, jobs) == Some(first) {
        Some((4, false))
    } else if is_partial || outcome.has_fault(place, BatchFault::OutOfMemory { burnt: 4 }) {
        Some((4, true))
    } else if outcome.has_fault(place, BatchFault::Book(BookFault::OutOfMemory)) {
        Some((0, true))
    } else {
        None
    }
}

/// Whether three batches of four from index 1020 on were signed, but for one at most, which was
/// refused memory; and each after the indices that the one before it used.
fn are_signed_but_one(outcome: &Outcome, public: &[u8], jobs: &[Job]) -> bool {
    let mut next = 1020_u64;
    let mut refused = 0_u8;
    for place in 0..3 {
        if let Some((used, is_refused)) = used_by(outcome, public, jobs, place, next) {
            next = next.saturating_add(used);
            if is_refused {
                refused = refused.saturating_add(1);
            }
        } else {
            refused = 2;
        }
    }
    refused <= 1 && outcome.book.counter() == next
}

/// Three batches of four by kept trees, of which the second goes on to the next window.
fn signed_into_the_next(
    rt: &(impl AllocGlobal + Threads + Wait + Sync),
    jobs: &[Job],
) -> Result<Outcome, Fail> {
    let key = key_of(&TALL_BELOW, 0x11)?;
    let mut means = Means::new(Trees::kept());
    if is_prepared(rt, &key, &mut means) {
        signed_from(rt, key, 1020, jobs, &[4, 4, 4], &mut means)
    } else {
        Err(Fail::from("the trees of index 1020"))
    }
}

/// The merge check refuses each request for memory in turn: the batch that is refused says how many
/// indices it used, and the next one works.
#[test]
fn kept_trees_after_refused_memory(rt: HostRuntime) -> Result<(), Fail> {
    let jobs = jobs_of(rt.alloc(), 4)?;
    let outcome = signed_into_the_next(&rt, &jobs)?;
    let is_right = match public_key(&rt, outcome.key) {
        Ok(public) => are_signed_but_one(&outcome, &public, &jobs),
        Err(_) => false,
    };
    assert!(rt; is_right);
    Ok(())
}
