//! All chains of a key, each from its start to its end, by eights. Those with most hashes go first,
//! and a lane whose chain is at its end takes the next one, so that none idles before the last.
ghost use Rattle.std.specs.Prelude.{◌≡◌, ℕ, ◌+◌, ◌-◌, ◌%◌, ◌<◌, ◌≤◌, List, [], ◌++◌, length, min, slice_index, slice_index_or};
ghost use Rattle.lms_lanes.specs.Chains.{walked};
ghost use Rattle.lms_spec.specs.Parameters.{most_chains};
ghost use Rattle.lms_spec.specs.Bytes.{u16str};
ghost use Rattle.lms_spec.specs.Hashing.{hash_prefix};
ghost use Rattle.lms_params.specs.OtsType.{ots_set_of};
ghost use Rattle.lms_ots.specs.Orders.{chain_in, IsOrder};
ghost use Rattle.lms_ots.specs.Walks.{IsTaken, chain_at};

use crate::lanes::walk_lanes;
use crate::one_time_key::OtsId;
use lms_lanes::LANES;
use lms_params::{HASH_LEN, MOST_CHAINS, OtsType};

/// Takes each chain of a key from its start by its own number of hashes, the first with its byte of
/// `firsts`, and writes its end at its number. The last start is that of all chains after it, too.
/// What stands past the `t.p()` chains means nothing.
pub(crate) fn walk_all(
    t: OtsType,
    id: OtsId,
    firsts: &[u8; MOST_CHAINS],
    steps: &[u16; MOST_CHAINS],
    starts: &[[u8; HASH_LEN]],
    ends: &mut [[u8; HASH_LEN]; MOST_CHAINS],
)
    requires { 0 < length starts.now }
    ensures { (i : ℕ) → i < (ots_set_of t).p → slice_index_or ends.new i []
        ≡ walked (hash_prefix id.i id.q ++ u16str i) (slice_index firsts.now i)
        (slice_index steps.now i)
        (slice_index_or starts.now (min i (length starts.now - 1)) []) }
{
    put_starts(t, starts, ends);
    let mut left = *steps;
    let order = longest_first(t, steps);
    let mut chains = first_chains(&order);
    let mut next = LANES;
    'segments: loop {
        let most = segment_steps(t, next, &chains, &left);
        walk_on(id, &chains, most, firsts, steps, &mut left, ends);
        if next == t.p() {
            break;
        }
        next = refill(t, &order, next, &left, &mut chains);
    }
}

/// Puts the start of each chain at its number.
fn put_starts(t: OtsType, starts: &[[u8; HASH_LEN]], ends: &mut [[u8; HASH_LEN]; MOST_CHAINS])
    requires { 0 < length starts.now }
    ensures { (i : ℕ) → i < (ots_set_of t).p → slice_index_or ends.new i []
        ≡ slice_index_or starts.now (min i (length starts.now - 1)) [] }
{
    'starts: for i in 0..t.p() {
        ends[i] = starts[i.min(starts.len() - 1)];
    }
}

/// The chains of a key, those with most hashes first. The last 16 bits of each of the first `t.p()`
/// numbers are a chain's number. The contract leaves their order open.
fn longest_first(t: OtsType, steps: &[u16; MOST_CHAINS]) -> [u32; MOST_CHAINS]
    ensures { IsOrder result (ots_set_of t).p }
{
    let mut order = [0; MOST_CHAINS];
    'chains: for i in 0..t.p() {
        order[i] = u32::from(u16::MAX - steps[i]) * 65536 + i as u32;
    }
    order[..t.p()].sort_unstable();
    order
}

/// The first eight chains of an order.
fn first_chains(order: &[u32; MOST_CHAINS]) -> [u16; LANES]
    ensures { (k : ℕ) → k < 8 → slice_index result k ≡ chain_in order.now k }
{
    let mut chains = [0; LANES];
    'lanes: for k in 0..LANES {
        chains[k] = (order[k] % 65536) as u16;
    }
    chains
}

/// How many steps the lanes go on at most before they take other chains: while a chain waits for a
/// lane, as many as the shortest in a lane has left, so that no lane idles; after that no fewer than
/// any chain has left.
fn segment_steps(t: OtsType, next: usize, chains: &[u16; LANES], left: &[u16; MOST_CHAINS]) -> u16
    requires { (k : ℕ) → k < 8 → slice_index chains.now k < most_chains }
    ensures busy { next < (ots_set_of t).p
        → (k : ℕ) → k < 8 → result ≤ slice_index left.now (slice_index chains.now k) }
    ensures ends { (k : ℕ) × (k < 8)
        × (slice_index left.now (slice_index chains.now k) ≤ result) }
    ensures rest { next ≡ (ots_set_of t).p → (i : ℕ) → slice_index left.now i ≤ result }
{
    if next == t.p() {
        return u16::MAX;
    }
    let mut steps = left[usize::from(chains[0])];
    'lanes: for k in 1..LANES {
        let here = left[usize::from(chains[k])];
        if here < steps {
            steps = here;
        }
    }
    steps
}

/// Gives each lane whose chain is at its end the next one of an order, from the place `next` on,
/// while there are any. The result is the place of the one that is next then.
fn refill(
    t: OtsType,
    order: &[u32; MOST_CHAINS],
    next: usize,
    left: &[u16; MOST_CHAINS],
    chains: &mut [u16; LANES],
) -> usize
    requires order { IsOrder order.now (ots_set_of t).p }
    requires next { next < (ots_set_of t).p }
    requires within { (k : ℕ) → k < 8 → slice_index chains.old k < (ots_set_of t).p }
    ensures within { (k : ℕ) → k < 8 → slice_index chains.new k < (ots_set_of t).p }
    ensures more { (k : ℕ) → k < 8 → slice_index left.now (slice_index chains.old k) ≡ 0
        → next < result }
    ensures limit { result ≤ (ots_set_of t).p }
    ensures taken { ((m : ℕ) → m < next → IsTaken order.now chains.old left.now m)
        → (m : ℕ) → m < result → IsTaken order.now chains.new left.now m }
{
    let mut place = next;
    'lanes: for k in 0..LANES {
        if left[usize::from(chains[k])] > 0 || place == t.p() {
            continue;
        }
        chains[k] = (order[place] % 65536) as u16;
        place += 1;
    }
    place
}

/// Takes the chains of these numbers on by the steps that they have left, but none by more than
/// `most`. In the contract `starts` are the values that all chains began with. It has one caller, so
/// that it is inlined, and the rounds over what all heads begin with come before all segments.
fn walk_on(
    id: OtsId,
    chains: &[u16; LANES],
    most: u16,
    firsts: &[u8; MOST_CHAINS],
    steps: &[u16; MOST_CHAINS],
    left: &mut [u16; MOST_CHAINS],
    ends: &mut [[u8; HASH_LEN]; MOST_CHAINS],
)
    requires within { (k : ℕ) → k < 8 → slice_index chains.now k < most_chains }
    requires left { (i : ℕ) → slice_index left.old i ≤ slice_index steps.now i }
    ensures less { (i : ℕ) → slice_index left.new i ≤ slice_index left.old i }
    ensures taken { (k : ℕ) → k < 8 → slice_index left.new (slice_index chains.now k)
        ≡ slice_index left.old (slice_index chains.now k) - most }
    ensures values { (starts : ℕ → List ℕ)
        → ((k : ℕ) → k < 8 → slice_index_or ends.old (slice_index chains.now k) []
        ≡ chain_at id.i id.q firsts.now steps.now starts (slice_index chains.now k)
        (slice_index left.old (slice_index chains.now k)))
        → (i : ℕ) → slice_index_or ends.old i []
        ≡ chain_at id.i id.q firsts.now steps.now starts i (slice_index left.old i)
        → slice_index_or ends.new i []
        ≡ chain_at id.i id.q firsts.now steps.now starts i (slice_index left.new i) }
{
    if most == 0 {
        return;
    }
    let mut lane_firsts = [0; LANES];
    let mut lane_steps = [0; LANES];
    let mut lane_left = [0; LANES];
    let mut lane_values = [[0; HASH_LEN]; LANES];
    'lanes: for k in 0..LANES {
        let i = usize::from(chains[k]);
        lane_firsts[k] = u16::from(firsts[i]).wrapping_add(steps[i] - left[i]);
        lane_steps[k] = left[i].min(most);
        lane_left[k] = left[i] - left[i].min(most);
        lane_values[k] = ends[i];
    }
    let values = walk_lanes(id, chains, &lane_firsts, &lane_steps, &lane_values);
    put(&lane_left, &values, chains, left, ends);
}

/// Puts what eight chains have left, and their values, into their places. A chain may come twice,
/// with the same of both. In the contract `f` is what each chain is to have left, or the value that
/// it is to have where so many steps are left.
fn put(
    lane_left: &[u16; LANES],
    values: &[[u8; HASH_LEN]; LANES],
    chains: &[u16; LANES],
    left: &mut [u16; MOST_CHAINS],
    ends: &mut [[u8; HASH_LEN]; MOST_CHAINS],
)
    requires { (k : ℕ) → k < 8 → slice_index chains.now k < most_chains }
    ensures less { ((k : ℕ) → k < 8
        → slice_index lane_left.now k ≤ slice_index left.old (slice_index chains.now k))
        → (i : ℕ) → slice_index left.new i ≤ slice_index left.old i }
    ensures come { (f : ℕ → ℕ)
        → ((k : ℕ) → k < 8 → slice_index lane_left.now k ≡ f (slice_index chains.now k))
        → (k : ℕ) → k < 8 → slice_index left.new (slice_index chains.now k) ≡ f (slice_index chains.now k) }
    ensures values { (f : ℕ → ℕ → List ℕ)
        → ((k : ℕ) → k < 8
        → slice_index_or values.now k [] ≡ f (slice_index chains.now k) (slice_index lane_left.now k))
        → (i : ℕ) → slice_index_or ends.old i [] ≡ f i (slice_index left.old i)
        → slice_index_or ends.new i [] ≡ f i (slice_index left.new i) }
{
    'lanes: for k in 0..LANES {
        let i = usize::from(chains[k]);
        left[i] = lane_left[k];
        ends[i] = values[k];
    }
}
