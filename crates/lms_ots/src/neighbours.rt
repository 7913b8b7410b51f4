//! Public hashes of eight neighbouring leaves, side by side.
ghost use Rattle.std.specs.Prelude.{◌≡◌, ℕ, ◌+◌, ◌^◌, ◌<◌, ◌≤◌, [], length, slice_index_or};
ghost use Rattle.lms_spec.specs.Hashing.{hash_prefix};
ghost use Rattle.lms_spec.specs.Ots.{public_hash as public_hash_of};
ghost use Rattle.lms_params.specs.OtsType.{ots_set_of};

use crate::one_time_key::{D_PBLC, OtsId, last_digit};
use byteorder::{BigEndian, ByteOrder};
use lms_lanes::{FRONT_LEN, LANES, hash_ends};
use lms_params::{HASH_LEN, OtsType};

/// The public hashes K of the one-time keys of eight neighbouring leaves (RFC 8554, 4.3), 32 bytes
/// each, from leaf `first.q` on, which is at most 2^32 - 8.
pub fn eight_public_hashes(
    t: OtsType,
    seed: &[u8; HASH_LEN],
    first: OtsId,
) -> [[u8; HASH_LEN]; LANES]
    requires { first.q + 8 ≤ 2 ^ 32 }
    ensures long { length result ≡ 8 }
    ensures hashes { (k : ℕ) → k < 8
        → slice_index_or result k []
        ≡ public_hash_of (ots_set_of t) first.i seed.now (first.q + k) }
{
    let mut fronts = [[0; FRONT_LEN]; LANES];
    'lanes: for k in 0..LANES {
        fronts[k] = front(&first.i, first.q + k as u32);
    }
    hash_ends(&fronts, D_PBLC, t.p() as u16, 0xff, last_digit(t) + 1, seed)
}

/// The bytes with which each hash of a key begins: I and q.
fn front(id: &[u8; 16], q: u32) -> [u8; FRONT_LEN]
    ensures { result ≡ hash_prefix id.now q }
{
    let mut front = [0; FRONT_LEN];
    front[..16].copy_from_slice(id);
    BigEndian::write_u32(&mut front[16..], q);
    front
}
