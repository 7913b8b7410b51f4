//! Hashes over the ends of the chains of eight keys, side by side.
ghost use Rattle.std.specs.Prelude.{◌≡◌, ℕ, List, ◌+◌, ◌*◌, ◌<◌, [], length, slice_index_or};
ghost use Rattle.sha2.specs.Sha256.{digest_bytes, sha256};
ghost use Rattle.lms_lanes.specs.Lanes.{AreVectors, lane_of};
ghost use Rattle.lms_lanes.specs.Ends.{HasFront, ends_text, end_of};

use crate::bytes::{digests_of, front_words, value_words};
use crate::chains::walk;
use crate::halves::{head_of, last_block, last_block_with, pair_block, rest_of};
use crate::lengths::{DIGEST_LEN, FRONT_LEN, LANES};
use crate::rounds::{IN_ENDS, compress, initial};
use std::simd::prelude::*;

/// The bits of a front and the mark.
const HEAD_BITS: u32 = 176;

/// The bits of a chain's end.
const VALUE_BITS: u32 = 256;

/// The hashes over the chains of eight keys, key k in lane k. Each is the SHA-256 of the key's
/// front, 20 bytes, of `mark`, two bytes that keep it apart from other hashes, and of the ends of
/// the key's chains, number 0 to `chains - 1`. The head of a chain is the front and the chain's
/// number. All chains of all keys take `steps` steps from `start`, as in `hash_chains`. The byte of
/// the first step is the last eight bits of `first`.
pub fn hash_ends(
    fronts: &[[u8; FRONT_LEN]; LANES],
    mark: u16,
    chains: u16,
    first: u16,
    steps: u16,
    start: &[u8; DIGEST_LEN],
) -> [[u8; DIGEST_LEN]; LANES]
    ensures long { length result ≡ 8 }
    ensures hashes { (k : ℕ) → k < 8 → slice_index_or result k []
        ≡ sha256 (ends_text (slice_index_or fronts.now k []) mark chains first steps start.now) }
{
    let front = front_words(fronts);
    let begin = value_words(&[*start; LANES]);
    let mut hash = initial();
    let mut rest = head_of(&front, mark);
    'pairs: for pair in 0..chains / 2 {
        let even = ends_of(&front, 2 * pair, first, steps, &begin);
        let odd = ends_of(&front, 2 * pair + 1, first, steps, &begin);
        let next = compress::<IN_ENDS>(hash, pair_block(&rest, &even, &odd));
        hash = next;
        rest = rest_of(&odd);
    }
    let bits = HEAD_BITS + VALUE_BITS * u32::from(chains);
    if chains % 2 == 1 {
        let last = ends_of(&front, chains - 1, first, steps, &begin);
        digests_of(&compress::<IN_ENDS>(hash, last_block_with(&rest, &last, bits)))
    } else {
        digests_of(&compress::<IN_ENDS>(hash, last_block(&rest, bits)))
    }
}

/// The ends of the chains with this number, one of each key.
fn ends_of(
    front: &[u32x8; 5],
    number: u16,
    first: u16,
    steps: u16,
    start: &[u32x8; 8],
) -> [u32x8; 8]
    requires front { AreVectors 5 front.now }
    requires start { AreVectors 8 start.now }
    ensures vectors { AreVectors 8 result }
    ensures lanes { (k : ℕ) → k < 8 → (text : List ℕ) → HasFront (lane_of front.now k) text
        → digest_bytes (lane_of result k) 8
        ≡ end_of text first steps (digest_bytes (lane_of start.now k) 8) number }
{
    let head = head_of(front, number);
    walk(
        &head,
        u32x8::splat(u32::from(first)),
        u32x8::splat(u32::from(steps)),
        steps,
        start,
    )
}
