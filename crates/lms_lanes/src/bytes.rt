//! Words in lanes from eight byte strings, and back.
ghost use Rattle.std.specs.Prelude.{◌≡◌, ℕ, ◌+◌, ◌*◌, ◌<◌, ◌≤◌, ◌^◌, [], ◌∷◌, length, slice_index, slice_index_or};
ghost use Rattle.std.specs.Int.{from_be_bytes, to_be_bytes, w32};
ghost use Rattle.sha2.specs.Sha256.{digest_bytes, word_at};
ghost use Rattle.lms_lanes.specs.Lanes.{AreVectors, EachLane, four_at, lane_of};
ghost use Rattle.lms_lanes.specs.Chains.{HasHead, half_word};
ghost use Rattle.lms_lanes.specs.Ends.{HasFront};

use crate::lengths::{DIGEST_LEN, FRONT_LEN, HEAD_LEN, LANES};
use std::simd::prelude::*;

/// The six words of each head, in its lane. The last two bytes of the last word are 0.
#[inline(always)]
pub(crate) fn head_words(heads: &[[u8; HEAD_LEN]; LANES]) -> [u32x8; 6]
    ensures vectors { AreVectors 6 result }
    ensures lanes { (k : ℕ) → k < 8 → HasHead (lane_of result k) (slice_index_or heads.now k []) }
{
    [
        words_at(heads, 0),
        words_at(heads, 4),
        words_at(heads, 8),
        words_at(heads, 12),
        words_at(heads, 16),
        half_words(heads),
    ]
}

/// The five words of each front, in its lane.
#[inline(always)]
pub(crate) fn front_words(fronts: &[[u8; FRONT_LEN]; LANES]) -> [u32x8; 5]
    ensures vectors { AreVectors 5 result }
    ensures lanes { (k : ℕ) → k < 8 → HasFront (lane_of result k) (slice_index_or fronts.now k []) }
{
    [
        words_at(fronts, 0),
        words_at(fronts, 4),
        words_at(fronts, 8),
        words_at(fronts, 12),
        words_at(fronts, 16),
    ]
}

/// The eight words of each value, in its lane.
#[inline(always)]
pub(crate) fn value_words(values: &[[u8; DIGEST_LEN]; LANES]) -> [u32x8; 8]
    ensures vectors { AreVectors 8 result }
    ensures lanes { (k : ℕ) → k < 8
        → digest_bytes (lane_of result k) 8 ≡ slice_index_or values.now k [] }
{
    [
        words_at(values, 0),
        words_at(values, 4),
        words_at(values, 8),
        words_at(values, 12),
        words_at(values, 16),
        words_at(values, 20),
        words_at(values, 24),
        words_at(values, 28),
    ]
}

/// The word of the four bytes from place `at` on of each byte string, in its lane.
#[inline(always)]
fn words_at<const M: usize>(texts: &[[u8; M]; LANES], at: usize) -> u32x8
    requires { at + 4 ≤ M }
    ensures long { (k : ℕ) → k < 8 → length (slice_index_or texts.now k []) ≡ M }
    ensures words { EachLane result (λ k. word_at (slice_index_or texts.now k []) at) }
    ensures bytes { (k : ℕ) → k < 8
        → to_be_bytes w32 (word_at (slice_index_or texts.now k []) at)
        ≡ four_at (slice_index_or texts.now k []) at }
{
    let mut words = [0u32; LANES];
    'lanes: for k in 0..LANES {
        words[k] = word_of(&texts[k], at);
    }
    u32x8::from_array(words)
}

/// The word of the four bytes from place `at` on of a byte string, the most significant first.
#[inline(always)]
fn word_of<const M: usize>(text: &[u8; M], at: usize) -> u32
    requires { at + 4 ≤ M }
    ensures long { length text.now ≡ M }
    ensures word { result ≡ word_at text.now at }
    ensures bytes { to_be_bytes w32 (word_at text.now at) ≡ four_at text.now at }
{
    word_from(text[at], text[at + 1], text[at + 2], text[at + 3])
}

/// The word of four bytes, the most significant first.
#[inline(always)]
fn word_from(a: u8, b: u8, c: u8, d: u8) -> u32
    ensures word { result ≡ from_be_bytes w32 (a ∷ b ∷ c ∷ d ∷ []) }
    ensures bytes { to_be_bytes w32 (from_be_bytes w32 (a ∷ b ∷ c ∷ d ∷ [])) ≡ a ∷ b ∷ c ∷ d ∷ [] }
{
    u32::from_be_bytes([a, b, c, d])
}

/// The word of the last two bytes of each head and two bytes 0, in its lane.
#[inline(always)]
fn half_words(heads: &[[u8; HEAD_LEN]; LANES]) -> u32x8
    ensures { EachLane result (λ k. half_word (slice_index_or heads.now k [])) }
{
    let mut words = [0u32; LANES];
    'lanes: for k in 0..LANES {
        words[k] = half_word_of(&heads[k]);
    }
    u32x8::from_array(words)
}

/// The word of the last two bytes of a head and two bytes 0.
#[inline(always)]
fn half_word_of(head: &[u8; HEAD_LEN]) -> u32
    ensures { result ≡ half_word head.now }
{
    u32::from_be_bytes([head[20], head[21], 0, 0])
}

/// Numbers of 16 bits, each in its lane.
#[inline(always)]
pub(crate) fn widened(numbers: &[u16; LANES]) -> u32x8
    ensures lanes { EachLane result (slice_index numbers.now) }
    ensures small { (k : ℕ) → k < 8 → slice_index numbers.now k < 2 ^ 16 }
{
    let mut words = [0u32; LANES];
    'lanes: for k in 0..LANES {
        words[k] = u32::from(numbers[k]);
    }
    u32x8::from_array(words)
}

/// The bytes of the hash value in each lane.
#[inline(always)]
pub(crate) fn digests_of(hash: &[u32x8; 8]) -> [[u8; DIGEST_LEN]; LANES]
    requires { AreVectors 8 hash.now }
    ensures long { length result ≡ 8 }
    ensures digests { (k : ℕ) → k < 8
        → slice_index_or result k [] ≡ digest_bytes (lane_of hash.now k) 8 }
{
    let mut digests = [[0u8; DIGEST_LEN]; LANES];
    'lanes: for k in 0..LANES {
        digests[k] = digest_of(hash, k);
    }
    digests
}

/// The bytes of the hash value in one lane.
#[inline(always)]
fn digest_of(hash: &[u32x8; 8], lane: usize) -> [u8; DIGEST_LEN]
    requires lane { lane < 8 }
    requires hash { AreVectors 8 hash.now }
    ensures { result ≡ digest_bytes (lane_of hash.now lane) 8 }
{
    let mut digest = [0u8; DIGEST_LEN];
    'words: for i in 0..8 {
        digest[4 * i..4 * i + 4].copy_from_slice(&hash[i].to_array()[lane].to_be_bytes());
    }
    digest
}
