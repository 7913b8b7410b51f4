//! One-time keys: their chains, secrets and public hash (RFC 8554, 4.2 and 4.3).
ghost use Rattle.std.specs.Prelude.{◌≡◌, ◌-◌, ◌≤◌};
ghost use Rattle.lms_spec.specs.Hashing.{chain_secret};
ghost use Rattle.lms_spec.specs.Ots.{chain as chain_of, last_digit as last_digit_of, public_hash as public_hash_of};
ghost use Rattle.lms_params.specs.OtsType.{ots_set_of};

use crate::chain_hashes::{chain_head, hash_after};
use crate::hashing::hasher_at;
use crate::lanes::lane_values;
use lms_lanes::LANES;
use lms_params::{HASH_LEN, OtsType};
use sha2::Digest;

/// D_PBLC: the constant that keeps the hash over the ends of all chains apart from other hashes
/// (4.3).
pub(crate) const D_PBLC: u16 = 0x8080;

/// Which one-time key: the identifier I of its tree and the number q of its leaf.
#[derive(Clone, Copy, Debug, PartialEq, Eq)]
pub struct OtsId {
    pub i: [u8; 16],
    pub q: u32,
}

/// The public hash K of a one-time key (RFC 8554, 4.3).
pub fn public_hash(t: OtsType, seed: &[u8; HASH_LEN], id: OtsId) -> [u8; HASH_LEN]
    ensures { result ≡ public_hash_of (ots_set_of t) id.i seed.now id.q }
{
    let last = last_digit(t);
    let mut hasher = hasher_at(&id.i, id.q);
    hasher.update(D_PBLC.to_be_bytes());
    'groups: for group in 0..t.p().div_ceil(LANES) {
        let first = LANES * group;
        let ends = lane_values(id, first as u16, last, seed);
        let count = (t.p() - first).min(LANES);
        'ends: for k in 0..count {
            hasher.update(ends[k]);
        }
    }
    hasher.finalize()
}

/// The secret of chain i of a one-time key (RFC 8554, Appendix A).
pub fn secret(seed: &[u8; HASH_LEN], id: OtsId, i: u16) -> [u8; HASH_LEN]
    ensures { result ≡ chain_secret id.i seed.now id.q i }
{
    hash_after(&chain_head(id, i), 0xff, seed)
}

/// Takes the value of chain i from digit `from` to digit `to`, by the steps `from` to `to - 1` (RFC
/// 8554, 4.3). `from` is at most `to`, and `to` at most 255.
pub fn chain(id: OtsId, i: u16, from: u16, to: u16, x: &[u8; HASH_LEN]) -> [u8; HASH_LEN]
    requires order { from ≤ to }
    requires limit { to ≤ 255 }
    ensures { result ≡ chain_of id.i id.q i from (to - from) x.now }
{
    let head = chain_head(id, i);
    let mut value = *x;
    for j in from..to {
        value = hash_after(&head, j as u8, &value);
    }
    value
}

/// The last digit of a chain, 2^w - 1.
pub(crate) fn last_digit(t: OtsType) -> u16
    ensures exact { result ≡ last_digit_of (ots_set_of t) }
    ensures limit { result ≤ 255 }
{
    (1 << t.w()) - 1
}
