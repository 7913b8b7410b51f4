//! Chains side by side, each from its value to its end.
ghost use Rattle.std.specs.Prelude.{◌≡◌, ℕ, List, ◌+◌, ◌%◌, ◌<◌, ◌≤◌, ◌^◌, [], ◌∷◌, ◌++◌, length, slice_index, slice_index_or, nat_lt, if◌then◌else◌};
ghost use Rattle.sha2.specs.Sha256.{digest_bytes, sha256};
ghost use Rattle.lms_lanes.specs.Lanes.{AreVectors, EachLane, lane_of};
ghost use Rattle.lms_lanes.specs.Chains.{HasHead, walked};

use crate::blocks::block_at;
use crate::bytes::{digests_of, head_words, value_words, widened};
use crate::lengths::{DIGEST_LEN, HEAD_LEN, LANES};
use crate::rounds::{IN_STEPS, compress, initial};
use std::simd::prelude::*;

/// Takes each of eight chains from its value by its own number of steps. A step hashes the chain's
/// head, a byte and the value before, 55 bytes in all. The byte of a chain's first step is the last
/// eight bits of its number in `firsts`. Each further byte is one more, with 0 after 255. The time
/// is that of the chain with most steps.
pub fn hash_chains(
    heads: &[[u8; HEAD_LEN]; LANES],
    firsts: &[u16; LANES],
    steps: &[u16; LANES],
    values: &[[u8; DIGEST_LEN]; LANES],
) -> [[u8; DIGEST_LEN]; LANES]
    ensures long { length result ≡ 8 }
    ensures values { (k : ℕ) → k < 8 → slice_index_or result k []
        ≡ walked (slice_index_or heads.now k []) (slice_index firsts.now k)
        (slice_index steps.now k) (slice_index_or values.now k []) }
{
    let head = head_words(heads);
    let end = walk(
        &head,
        widened(firsts),
        widened(steps),
        most(steps),
        &value_words(values),
    );
    digests_of(&end)
}

/// Takes each lane from its value in `start` by its own number of steps, none above `most`, as
/// `hash_chains` does.
pub(crate) fn walk(
    head: &[u32x8; 6],
    first: u32x8,
    steps: u32x8,
    most: u16,
    start: &[u32x8; 8],
) -> [u32x8; 8]
    requires head { AreVectors 6 head.now }
    requires start { AreVectors 8 start.now }
    requires first { (k : ℕ) → k < 8 → slice_index first k < 2 ^ 16 }
    requires most { (k : ℕ) → k < 8 → slice_index steps k ≤ most }
    ensures vectors { AreVectors 8 result }
    ensures lanes { (k : ℕ) → k < 8 → (text : List ℕ) → HasHead (lane_of head.now k) text
        → digest_bytes (lane_of result k) 8
        ≡ walked text (slice_index first k) (slice_index steps k)
        (digest_bytes (lane_of start.now k) 8) }
{
    let mut now = *start;
    'steps: for i in 0..most {
        let next = step(head, first, i, &now);
        let after = chosen(steps, i, &next, &now);
        now = after;
    }
    now
}

/// The greatest of eight numbers.
#[inline(always)]
fn most(numbers: &[u16; LANES]) -> u16
    ensures bound { (k : ℕ) → k < 8 → slice_index numbers.now k ≤ result }
    ensures least { (n : ℕ) → ((k : ℕ) → k < 8 → slice_index numbers.now k ≤ n) → result ≤ n }
{
    let mut most = 0;
    'lanes: for k in 0..LANES {
        most = numbers[k].max(most);
    }
    most
}

/// The value after step `i`, in each lane: the hash of the head, a byte and the value before. The
/// byte is the last eight bits of `first` plus i.
#[inline(always)]
fn step(head: &[u32x8; 6], first: u32x8, i: u16, value: &[u32x8; 8]) -> [u32x8; 8]
    requires head { AreVectors 6 head.now }
    requires value { AreVectors 8 value.now }
    requires first { (k : ℕ) → k < 8 → slice_index first k < 2 ^ 16 }
    ensures vectors { AreVectors 8 result }
    ensures lanes { (k : ℕ) → k < 8 → (text : List ℕ) → HasHead (lane_of head.now k) text
        → digest_bytes (lane_of result k) 8
        ≡ sha256 (text ++ (slice_index first k + i) % 256 ∷ digest_bytes (lane_of value.now k) 8) }
{
    compress::<IN_STEPS>(initial(), block_at(head, first, i, value))
}

/// The value after step `i`: `next` in the lanes that take this step, `now` in the others.
#[inline(always)]
fn chosen(steps: u32x8, i: u16, next: &[u32x8; 8], now: &[u32x8; 8]) -> [u32x8; 8]
    requires next { AreVectors 8 next.now }
    requires now { AreVectors 8 now.now }
    ensures vectors { AreVectors 8 result }
    ensures taken { (k : ℕ) → k < 8 → i < slice_index steps k
        → lane_of result k ≡ lane_of next.now k }
    ensures left { (k : ℕ) → k < 8 → slice_index steps k ≤ i
        → lane_of result k ≡ lane_of now.now k }
{
    [
        selected(steps, i, next[0], now[0]),
        selected(steps, i, next[1], now[1]),
        selected(steps, i, next[2], now[2]),
        selected(steps, i, next[3], now[3]),
        selected(steps, i, next[4], now[4]),
        selected(steps, i, next[5], now[5]),
        selected(steps, i, next[6], now[6]),
        selected(steps, i, next[7], now[7]),
    ]
}

/// `next` in the lanes that take more than `i` steps, `now` in the others.
#[inline(always)]
fn selected(steps: u32x8, i: u16, next: u32x8, now: u32x8) -> u32x8
    ensures { EachLane result (λ k.
        if nat_lt i (slice_index steps k) then slice_index next k else slice_index now k) }
{
    u32x8::splat(u32::from(i)).simd_lt(steps).select(next, now)
}
