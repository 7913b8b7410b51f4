//! The blocks of a head of 22 bytes and the values after it, in each lane. A block has two values,
//! so a word is of two halves.
ghost use Rattle.std.specs.Prelude.{◌≡◌, ℕ, List, ◌+◌, ◌*◌, ◌/◌, ◌^◌, ◌<◌, ◌++◌, drop, take, slice_index};
ghost use Rattle.std.specs.Int.{to_be_bytes, w16};
ghost use Rattle.sha2.specs.Sha256.{add32, digest_bytes, first_words};
ghost use Rattle.lms_lanes.specs.Lanes.{AreVectors, EachLane, lane_of};
ghost use Rattle.lms_lanes.specs.Chains.{HasHead};
ghost use Rattle.lms_lanes.specs.Ends.{HasFront, block_words, halves_word, padding_after_22, padding_after_54};

use std::simd::prelude::*;

/// The word in which the padding begins: a bit 1, and zeros (FIPS 180-4, 5.1.1).
const PADDING_WORD: u32 = 0x80000000;

/// The words of a head: a front of 20 bytes, and a number of two.
#[inline(always)]
pub(crate) fn head_of(front: &[u32x8; 5], number: u16) -> [u32x8; 6]
    requires { AreVectors 5 front.now }
    ensures vectors { AreVectors 6 result }
    ensures lanes { (k : ℕ) → k < 8 → (text : List ℕ) → HasFront (lane_of front.now k) text
        → HasHead (lane_of result k) (text ++ to_be_bytes w16 number) }
{
    [
        front[0],
        front[1],
        front[2],
        front[3],
        front[4],
        u32x8::splat(u32::from(number) * 65536),
    ]
}

/// The block of 22 bytes, a value, and the first ten bytes of another.
#[inline(always)]
pub(crate) fn pair_block(rest: &[u32x8; 6], value: &[u32x8; 8], next: &[u32x8; 8]) -> [u32x8; 16]
    requires rest { AreVectors 6 rest.now }
    requires value { AreVectors 8 value.now }
    requires next { AreVectors 8 next.now }
    ensures vectors { AreVectors 16 result }
    ensures lanes { (k : ℕ) → k < 8 → (text : List ℕ) → HasHead (lane_of rest.now k) text
        → lane_of result k
        ≡ first_words
        (text ++ digest_bytes (lane_of value.now k) 8
        ++ take 10 (digest_bytes (lane_of next.now k) 8)) 16 }
{
    let before_last = halves(next[0], next[1]);
    let last = halves(next[1], next[2]);
    block_with(rest, value, next[0], before_last, last)
}

/// The last 22 bytes of a value, after its first ten, as six words. The last two bytes of the last
/// word are 0.
#[inline(always)]
pub(crate) fn rest_of(value: &[u32x8; 8]) -> [u32x8; 6]
    requires { AreVectors 8 value.now }
    ensures vectors { AreVectors 6 result }
    ensures lanes { (k : ℕ) → k < 8
        → HasHead (lane_of result k) (drop 10 (digest_bytes (lane_of value.now k) 8)) }
{
    [
        halves(value[2], value[3]),
        halves(value[3], value[4]),
        halves(value[4], value[5]),
        halves(value[5], value[6]),
        halves(value[6], value[7]),
        halves(value[7], u32x8::splat(0)),
    ]
}

/// The last block of a text of `bits` bits in all: 22 bytes, a value and the padding.
#[inline(always)]
pub(crate) fn last_block_with(rest: &[u32x8; 6], value: &[u32x8; 8], bits: u32) -> [u32x8; 16]
    requires rest { AreVectors 6 rest.now }
    requires value { AreVectors 8 value.now }
    ensures vectors { AreVectors 16 result }
    ensures lanes { (k : ℕ) → k < 8 → (text : List ℕ) → HasHead (lane_of rest.now k) text
        → lane_of result k
        ≡ first_words (text ++ digest_bytes (lane_of value.now k) 8 ++ padding_after_54 bits) 16 }
{
    block_with(
        rest,
        value,
        u32x8::splat(PADDING_WORD),
        u32x8::splat(0),
        u32x8::splat(bits),
    )
}

/// The last block of a text of `bits` bits in all: 22 bytes and the padding.
#[inline(always)]
pub(crate) fn last_block(rest: &[u32x8; 6], bits: u32) -> [u32x8; 16]
    requires rest { AreVectors 6 rest.now }
    ensures vectors { AreVectors 16 result }
    ensures lanes { (k : ℕ) → k < 8 → (text : List ℕ) → HasHead (lane_of rest.now k) text
        → lane_of result k ≡ first_words (text ++ padding_after_22 bits) 16 }
{
    [
        rest[0],
        rest[1],
        rest[2],
        rest[3],
        rest[4],
        half_opened(rest[5], u32x8::splat(PADDING_WORD)),
        u32x8::splat(0),
        u32x8::splat(0),
        u32x8::splat(0),
        u32x8::splat(0),
        u32x8::splat(0),
        u32x8::splat(0),
        u32x8::splat(0),
        u32x8::splat(0),
        u32x8::splat(0),
        u32x8::splat(bits),
    ]
}

/// The block of 22 bytes, a value, the first two bytes of the word `next`, and two words.
#[inline(always)]
fn block_with(
    rest: &[u32x8; 6],
    value: &[u32x8; 8],
    next: u32x8,
    before_last: u32x8,
    last: u32x8,
) -> [u32x8; 16]
    requires rest { AreVectors 6 rest.now }
    requires value { AreVectors 8 value.now }
    ensures vectors { AreVectors 16 result }
    ensures lanes { (k : ℕ) → k < 8 → (text : List ℕ) → HasHead (lane_of rest.now k) text
        → lane_of result k
        ≡ block_words text (lane_of value.now k) (slice_index next k) (slice_index before_last k)
        (slice_index last k) }
{
    [
        rest[0],
        rest[1],
        rest[2],
        rest[3],
        rest[4],
        half_opened(rest[5], value[0]),
        halves(value[0], value[1]),
        halves(value[1], value[2]),
        halves(value[2], value[3]),
        halves(value[3], value[4]),
        halves(value[4], value[5]),
        halves(value[5], value[6]),
        halves(value[6], value[7]),
        halves(value[7], next),
        before_last,
        last,
    ]
}

/// The word of the last two bytes of a head and the first two of `x`, in each lane: the sum of
/// both, each of which is at its place among zeros.
#[inline(always)]
fn half_opened(head: u32x8, x: u32x8) -> u32x8
    ensures words { EachLane result (λ k. add32 (slice_index head k) (slice_index x k / 2 ^ 16)) }
    ensures head_fits { (k : ℕ) → k < 8 → slice_index head k < 2 ^ 32 }
    ensures word_fits { (k : ℕ) → k < 8 → slice_index x k < 2 ^ 32 }
{
    head + (x >> 16)
}

/// The last two bytes of a word and the first two of the next.
#[inline(always)]
fn halves(x: u32x8, y: u32x8) -> u32x8
    ensures { EachLane result (λ k. halves_word (slice_index x k) (slice_index y k)) }
{
    (x << 16) + (y >> 16)
}
