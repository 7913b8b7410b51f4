//! The ends of a signature's chains, in two ways: one chain after another, or eight side by side.
ghost use Rattle.std.specs.Prelude.{ℕ, ◌≡◌, ◌-◌, ◌≤◌, ◌<◌, map, length, slice_index};
ghost use Rattle.lms_spec.specs.Bytes.{below};
ghost use Rattle.lms_spec.specs.Ots.{last_digit as last_digit_of, end_from, ends_hash as ends_hash_of};
ghost use Rattle.lms_params.specs.OtsType.{ots_set_of};

use crate::hashing::hasher_at;
use crate::one_time_key::{D_PBLC, OtsId, chain, last_digit};
use crate::walk::walk_all;
use lms_params::{HASH_LEN, MOST_CHAINS, OtsType};
use sha2::{Digest, Sha256};

/// How a verifier takes the chains of a signature to their ends. The result is always the same;
/// time, code and stack differ.
pub trait ChainEnds: Copy {
    /// The hash of the ends of the chains, from values at these digits (RFC 8554, 4.6). There must
    /// be `t.p()` values, and none of their digits may be above 2^w - 1, the last digit.
    fn ends_hash(
        self,
        t: OtsType,
        id: OtsId,
        digits: &[u8; MOST_CHAINS],
        values: &[[u8; HASH_LEN]],
    ) -> [u8; HASH_LEN]
        requires count { length values.now ≡ (ots_set_of t).p }
        requires limit { (i : ℕ) → i < (ots_set_of t).p
            → slice_index digits.now i ≤ last_digit_of (ots_set_of t) }
        ensures { result
            ≡ ends_hash_of id.i id.q
            (map (end_from (ots_set_of t) id.i id.q digits.now values.now)
            (below (ots_set_of t).p)) };
}

/// One chain after another: for programs with little stack and code, as boot loaders.
#[derive(Clone, Copy)]
pub struct OneByOne;

impl ChainEnds for OneByOne {
    fn ends_hash(
        self,
        t: OtsType,
        id: OtsId,
        digits: &[u8; MOST_CHAINS],
        values: &[[u8; HASH_LEN]],
    ) -> [u8; HASH_LEN] {
        let last = last_digit(t);
        let mut hasher = hasher_at(&id.i, id.q);
        hasher.update(D_PBLC.to_be_bytes());
        for i in 0..t.p() {
            hasher.update(chain(id, i as u16, u16::from(digits[i]), last, &values[i]));
        }
        hasher.finalize()
    }
}

/// Eight chains side by side, in the lanes of vectors: for all other programs. It takes several
/// times the stack and the code.
#[derive(Clone, Copy)]
pub struct ByEights;

impl ChainEnds for ByEights {
    fn ends_hash(
        self,
        t: OtsType,
        id: OtsId,
        digits: &[u8; MOST_CHAINS],
        values: &[[u8; HASH_LEN]],
    ) -> [u8; HASH_LEN] {
        let mut ends = [[0; HASH_LEN]; MOST_CHAINS];
        walk_all(t, id, digits, &steps_from(t, digits), values, &mut ends);
        let mut hasher = hasher_at(&id.i, id.q);
        hasher.update(D_PBLC.to_be_bytes());
        for i in 0..t.p() {
            hasher.update(ends[i]);
        }
        hasher.finalize()
    }
}

/// How many steps lead from each of the first `t.p()` digits to the last digit, 2^w - 1.
fn steps_from(t: OtsType, digits: &[u8; MOST_CHAINS]) -> [u16; MOST_CHAINS]
    requires { (i : ℕ) → i < (ots_set_of t).p
        → slice_index digits.now i ≤ last_digit_of (ots_set_of t) }
    ensures { (i : ℕ) → i < (ots_set_of t).p
        → slice_index result i ≡ last_digit_of (ots_set_of t) - slice_index digits.now i }
{
    let last = last_digit(t);
    let mut steps = [0; MOST_CHAINS];
    'chains: for i in 0..t.p() {
        steps[i] = last - u16::from(digits[i]);
    }
    steps
}
