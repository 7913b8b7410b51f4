//! A row of nodes, computed by several threads at once.
ghost use Rattle.std.specs.Prelude.{◌≡◌, ◌+◌, ◌*◌, ◌^◌, ◌<◌, ◌≤◌, length, IfSome};
ghost use Rattle.std.specs.Option.{ForSome};
ghost use Rattle.std.specs.Thread.{IsSync};
ghost use Rattle.lms_spec.specs.Tree.{node as node_of};
ghost use Rattle.lms_tree.specs.TreeKey.{tree_of};
ghost use Rattle.lms_tree.specs.Held.{AreNodesFrom};

use crate::band::Band;
use crate::progress::Progress;
use crate::tree_key::TreeKey;
use crate::workers::Workers;
use lms_ots::LANES;
use lms_params::HASH_LEN;
use lms_verification::leaf_count;
use rayon::current_num_threads;
use std::thread::{Threads, join_mut};

/// The most threads that compute a row at once.
const MOST_THREADS: usize = 32;

/// What the threads that compute a row share.
#[derive(Drop)]
struct Work<'a, R, P> {
    rt: &'a R,
    key: TreeKey,
    lower: Option<&'a Band>,
    progress: &'a P,
    workers: Workers,
    ghost lower_key: { ForSome lower (λ band. band.now.key ≡ key) },
}

/// Computes a row from node `first` on. As many threads work at once as there are processors, at
/// most 32, and others may wait for them: they begin with equal parts, and one that has much left
/// gives half of it to a new thread when a processor becomes free. A node that is in the top row of
/// `lower`, a band of the same tree, is copied from there. The leaves under every other node are
/// reported to `progress`.
pub(crate) fn fill_lowest_row(
    rt: &(impl Threads + Sync),
    key: TreeKey,
    first: u32,
    lower: Option<&Band>,
    row: &mut [[u8; HASH_LEN]],
    progress: &impl Progress,
)
    requires from_root { 1 ≤ first }
    requires in_tree { first + length row.old ≤ 2 * 2 ^ (tree_of key).lms.h }
    requires lower { IfSome lower (λ band. band.now.key ≡ key) }
    ensures { AreNodesFrom key first (length row.new) row.new }
{
    let threads = current_num_threads(rt).min(MOST_THREADS);
    let work = Work {
        rt,
        key,
        lower,
        progress,
        workers: Workers::new(threads),
    };
    fill(&work, threads, first, row);
}

/// Computes a part of a row by so many threads, one of which is the caller's. All of them count as
/// at work before, and none after.
#[cycle(parts)]
fn fill<R: Threads + Sync, P: Progress>(
    work: &Work<R, P>,
    threads: usize,
    first: u32,
    part: &mut [[u8; HASH_LEN]],
)
    requires threads { (0 < threads) × (threads ≤ 32) }
    requires from_root { 1 ≤ first }
    requires in_tree { first + length part.old ≤ 2 * 2 ^ (tree_of work.now.key).lms.h }
    ensures count { length part.new ≡ length part.old }
    ensures nodes { AreNodesFrom work.now.key first (length part.new) part.new }
{
    if threads > 1 && part.len() > 1 {
        fill_both(work, threads, first, part);
        return;
    }
    work.workers.end(threads - 1);
    let done = fill_until_free(work, first, part);
    if done < part.len() {
        fill_both(work, 2, first + done as u32, &mut part[done..]);
    } else {
        work.workers.end(1);
    }
}

/// Computes a part of a row by so many threads, half of them for the nodes on the left and half for
/// those on the right. Where no thread can be made, the caller's computes both. All of them count
/// as at work before, and none after.
#[cycle(parts)]
fn fill_both<R: Threads + Sync, P: Progress>(
    work: &Work<R, P>,
    threads: usize,
    first: u32,
    part: &mut [[u8; HASH_LEN]],
)
    requires threads { (1 < threads) × (threads ≤ 32) }
    requires nodes { 1 < length part.old }
    requires from_root { 1 ≤ first }
    requires in_tree { first + length part.old ≤ 2 * 2 ^ (tree_of work.now.key).lms.h }
    ensures count { length part.new ≡ length part.old }
    ensures nodes { AreNodesFrom work.now.key first (length part.new) part.new }
{
    let own = threads / 2;
    let others = threads - own;
    let (left, right) = part.split_at_mut(left_len(part.len(), own, threads));
    let next = first + left.len() as u32;
    let mut theirs = ||
        requires { IsSync R.row × IsSync P.row × (0 < others) × (others ≤ 32) × (1 ≤ next)
            × (next + length right.now ≤ 2 * 2 ^ (tree_of work.now.key).lms.h) }
        ensures { (length right.exit.now ≡ length right.entry.now)
            × AreNodesFrom work.entry.now.key next (length right.exit.now) right.exit.now }
    { fill(work, others, next, right) };
    let mut ours = ||
        requires { IsSync R.row × IsSync P.row × (0 < own) × (own ≤ 32) × (1 ≤ first)
            × (first + length left.now ≤ 2 * 2 ^ (tree_of work.now.key).lms.h) }
        ensures { (length left.exit.now ≡ length left.entry.now)
            × AreNodesFrom work.entry.now.key first (length left.exit.now) left.exit.now }
    { fill(work, own, first, left) };
    join_mut(work.rt, &mut theirs, &mut ours);
}

/// How many of `nodes` nodes `own` of `threads` threads compute: their share, in whole eights where
/// that makes little difference, at least one node and not all.
fn left_len(nodes: usize, own: usize, threads: usize) -> usize
    requires own { own < threads }
    requires threads { threads ≤ 32 }
    requires nodes { 1 < nodes }
    requires fits { nodes < 2 ^ 32 }
    ensures some { 0 < result }
    ensures others { result < nodes }
{
    let share = nodes * own / threads;
    let eights = share / LANES * LANES;
    let whole = if share < 64 { share } else { eights };
    whole.clamp(1, nodes - 1)
}

/// Computes nodes from the first on, until all are done or a processor is free while much is left.
/// The result is how many are done. Where some are left, one more thread counts as at work: it will
/// get a part of them.
fn fill_until_free<R: Threads + Sync, P: Progress>(
    work: &Work<R, P>,
    first: u32,
    part: &mut [[u8; HASH_LEN]],
) -> usize
    requires from_root { 1 ≤ first }
    requires in_tree { first + length part.old ≤ 2 * 2 ^ (tree_of work.now.key).lms.h }
    ensures count { length part.new ≡ length part.old }
    ensures bound { result ≤ length part.old }
    ensures others { result < length part.old → result + 1 < length part.old }
    ensures nodes { AreNodesFrom work.now.key first result part.new }
{
    let much = 2 * piece_len(work, first);
    let mut done = 0;
    while done < part.len() {
        if part.len() - done >= much && work.workers.begin_where_free() {
            break;
        }
        done += fill_next(work, first + done as u32, &mut part[done..]);
    }
    done
}

/// How many nodes are computed at once from node `first` on: eight, where it is a leaf and there is
/// no `lower`, else one.
fn piece_len<R, P>(work: &Work<R, P>, first: u32) -> usize
    ensures some { 0 < result }
    ensures leaves { 1 < result → (result ≡ 8) × (2 ^ (tree_of work.now.key).lms.h ≤ first) }
{
    let is_leaf = first >= leaf_count(work.key.lms);
    if is_leaf && work.lower.is_none() {
        LANES
    } else {
        1
    }
}

/// Computes the first eight nodes of a part side by side, or only the first node. The result is how
/// many.
fn fill_next<R: Threads + Sync, P: Progress>(
    work: &Work<R, P>,
    first: u32,
    part: &mut [[u8; HASH_LEN]],
) -> usize
    requires some { 0 < length part.old }
    requires from_root { 1 ≤ first }
    requires in_tree { first + length part.old ≤ 2 * 2 ^ (tree_of work.now.key).lms.h }
    ensures count { length part.new ≡ length part.old }
    ensures some { 0 < result }
    ensures bound { result ≤ length part.old }
    ensures nodes { AreNodesFrom work.now.key first result part.new }
{
    if part.len() >= LANES && piece_len(work, first) == LANES {
        let q = first - leaf_count(work.key.lms);
        part[..LANES].copy_from_slice(&work.key.neighbouring_leaves(q));
        work.progress.done(LANES as u64);
        LANES
    } else {
        part[0] = node(work, first);
        1
    }
}

/// The value of node r: copied from the top row of `lower` if it is there, else computed from the
/// leaves below it, which are then reported to `progress`.
fn node<R, P: Progress>(work: &Work<R, P>, r: u32) -> [u8; HASH_LEN]
    requires from_root { 1 ≤ r }
    requires in_tree { r < 2 * 2 ^ (tree_of work.now.key).lms.h }
    ensures { result ≡ node_of (tree_of work.now.key) r }
{
    match work.lower {
        Some(band) if band.has_on_top(r) => band.node(0, r),
        _ => {
            let root = work.key.subtree_root(r);
            work.progress
                .done(u64::from(leaf_count(work.key.lms) >> r.ilog2()));
            root
        }
    }
}
