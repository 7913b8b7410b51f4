//! The block that a chain's step hashes, in each lane: a head of 22 bytes, a byte, the value before
//! and the padding.
ghost use Rattle.std.specs.Prelude.{◌≡◌, ℕ, List, ◌+◌, ◌*◌, ◌/◌, ◌%◌, ◌^◌, ◌<◌, ◌∷◌, ◌++◌, slice_index};
ghost use Rattle.sha2.specs.Sha256.{add32, digest_bytes, first_words};
ghost use Rattle.lms_lanes.specs.Lanes.{AreVectors, EachLane, lane_of};
ghost use Rattle.lms_lanes.specs.Chains.{HasHead, ended_word, joined_word, short_padding};

use std::simd::prelude::*;

/// How many bits are hashed, those of 55 bytes: the last word of the padding (FIPS 180-4, 5.1.1).
const TEXT_BITS: u32 = 440;

/// The first byte of the padding: a bit 1 (5.1.1).
const PADDING_START: u32 = 0x80;

/// The 16 words of the block that step `i` hashes, in each lane: the head, a byte, the value and
/// the padding. The byte is the last eight bits of `first` plus i.
#[inline(always)]
pub(crate) fn block_at(head: &[u32x8; 6], first: u32x8, i: u16, value: &[u32x8; 8]) -> [u32x8; 16]
    requires head { AreVectors 6 head.now }
    requires value { AreVectors 8 value.now }
    requires first { (k : ℕ) → k < 8 → slice_index first k < 2 ^ 16 }
    ensures vectors { AreVectors 16 result }
    ensures lanes { (k : ℕ) → k < 8 → (text : List ℕ) → HasHead (lane_of head.now k) text
        → lane_of result k
        ≡ first_words
        ((text ++ (slice_index first k + i) % 256 ∷ digest_bytes (lane_of value.now k) 8)
        ++ short_padding) 16 }
{
    [
        head[0],
        head[1],
        head[2],
        head[3],
        head[4],
        opened(head[5], byte_at(first, i), value[0]),
        joined(value[0], value[1]),
        joined(value[1], value[2]),
        joined(value[2], value[3]),
        joined(value[3], value[4]),
        joined(value[4], value[5]),
        joined(value[5], value[6]),
        joined(value[6], value[7]),
        ended(value[7]),
        u32x8::splat(0),
        u32x8::splat(TEXT_BITS),
    ]
}

/// The byte of step `i` at its place in its word, the last but one.
#[inline(always)]
fn byte_at(first: u32x8, i: u16) -> u32x8
    requires { (k : ℕ) → k < 8 → slice_index first k < 2 ^ 16 }
    ensures { EachLane result (λ k. (slice_index first k + i) % 256 * 256) }
{
    (first + u32x8::splat(u32::from(i))) << 24 >> 16
}

/// The word of the last two bytes of a head, a step's byte and the first byte of `x`, in each lane:
/// the sum of the three, each of which is at its place among zeros.
#[inline(always)]
fn opened(head: u32x8, byte: u32x8, x: u32x8) -> u32x8
    ensures words { EachLane result (λ k.
        add32 (add32 (slice_index head k) (slice_index byte k)) (slice_index x k / 2 ^ 24)) }
    ensures head_fits { (k : ℕ) → k < 8 → slice_index head k < 2 ^ 32 }
    ensures word_fits { (k : ℕ) → k < 8 → slice_index x k < 2 ^ 32 }
{
    head + byte + (x >> 24)
}

/// The last three bytes of a word and the first of the next.
#[inline(always)]
fn joined(x: u32x8, y: u32x8) -> u32x8
    ensures { EachLane result (λ k. joined_word (slice_index x k) (slice_index y k)) }
{
    (x << 8) + (y >> 24)
}

/// The last three bytes of a word and the first of the padding.
#[inline(always)]
fn ended(x: u32x8) -> u32x8
    ensures { EachLane result (λ k. ended_word (slice_index x k)) }
{
    (x << 8) + u32x8::splat(PADDING_START)
}
