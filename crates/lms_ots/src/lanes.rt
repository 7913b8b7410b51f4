//! Chains of a key, hashed eight at a time (RFC 8554, 4.3 and Appendix A).
ghost use Rattle.std.specs.Prelude.{◌≡◌, ℕ, ◌+◌, ◌^◌, ◌<◌, ◌≤◌, [], ◌++◌, length, slice_index, slice_index_or};
ghost use Rattle.lms_lanes.specs.Chains.{walked};
ghost use Rattle.lms_spec.specs.Bytes.{u16str};
ghost use Rattle.lms_spec.specs.Hashing.{hash_prefix, chain_secret};
ghost use Rattle.lms_spec.specs.Ots.{chain as chain_of};

use crate::chain_hashes::chain_head;
use crate::one_time_key::OtsId;
use lms_lanes::{HEAD_LEN, LANES, hash_chains};
use lms_params::HASH_LEN;

/// The values at a digit of eight chains, from `first` on: a hash with 0xff makes each secret from
/// the seed, and the steps follow.
pub(crate) fn lane_values(
    id: OtsId,
    first: u16,
    digit: u16,
    seed: &[u8; HASH_LEN],
) -> [[u8; HASH_LEN]; LANES]
    requires chains { first + 8 ≤ 2 ^ 16 }
    requires limit { digit ≤ 255 }
    ensures long { length result ≡ 8 }
    ensures values { (k : ℕ) → k < 8 → slice_index_or result k []
        ≡ chain_of id.i id.q (first + k) 0 digit (chain_secret id.i seed.now id.q (first + k)) }
{
    let chains = [
        first,
        first + 1,
        first + 2,
        first + 3,
        first + 4,
        first + 5,
        first + 6,
        first + 7,
    ];
    walk_lanes(
        id,
        &chains,
        &[0xff; LANES],
        &[digit + 1; LANES],
        &[*seed; LANES],
    )
}

/// Takes each of eight chains from its start by its own number of hashes. The byte of a chain's
/// first hash is the last eight bits of its number in `firsts`, as in `hash_chains`.
pub(crate) fn walk_lanes(
    id: OtsId,
    chains: &[u16; LANES],
    firsts: &[u16; LANES],
    steps: &[u16; LANES],
    starts: &[[u8; HASH_LEN]; LANES],
) -> [[u8; HASH_LEN]; LANES]
    ensures long { length result ≡ 8 }
    ensures values { (k : ℕ) → k < 8 → slice_index_or result k []
        ≡ walked (hash_prefix id.i id.q ++ u16str (slice_index chains.now k))
        (slice_index firsts.now k) (slice_index steps.now k) (slice_index_or starts.now k []) }
{
    let mut heads = [[0; HEAD_LEN]; LANES];
    'lanes: for k in 0..LANES {
        heads[k] = chain_head(id, chains[k]);
    }
    hash_chains(&heads, firsts, steps, starts)
}
