//! Digits, bit by bit (RFC 8554, 3.1.3 and 4.4).
ghost use Rattle.std.specs.Prelude.{◌≡◌, ◌+◌, ◌*◌, ◌^◌, ◌<◌, ◌≤◌, length};
ghost use Rattle.lms_params.specs.OtsType.{ots_set_of};

use lms_params::OtsType;
use std::alloc::{AllocError, Global};

/// The digits that a hash signs (RFC 8554, 4.5), p in all and each below 2^w: those of the hash and
/// then those of its checksum. Fails when out of memory.
pub fn slow_digits(alloc: Global, hash: &[u8; 32], ots: OtsType) -> Result<Vec<u8>, AllocError> {
    let mut text = Vec::from_slice(alloc, hash)?;
    text.extend_from_slice(&checksum(hash, ots))?;
    (0..ots.p()).map(|i| digit(&text, i, ots)).collect(alloc)
}

/// The checksum of a hash (RFC 8554, 4.4), as two bytes.
fn checksum(hash: &[u8; 32], ots: OtsType) -> [u8; 2] {
    let sum = lacking(hash, ots, 256 / ots.w() as usize);
    let [_, _, high, low] = (sum << ots.ls()).to_be_bytes();
    [high, low]
}

/// The sum of what the first `count` digits of a hash lack to the greatest digit.
fn lacking(hash: &[u8; 32], ots: OtsType, count: usize) -> u32
    requires { count * (ots_set_of ots).w ≤ 256 }
    ensures { result ≤ 255 * count }
{
    if count == 0 {
        return 0;
    }
    lacking(hash, ots, count - 1) + u32::from(last_digit(ots) - digit(hash, count - 1, ots))
}

/// The greatest digit, 2^w - 1.
pub(crate) fn last_digit(ots: OtsType) -> u8
    ensures { result + 1 ≡ 2 ^ (ots_set_of ots).w }
{
    u8::MAX >> (8 - ots.w())
}

/// Digit i of a byte string, in digits of w bits (RFC 8554, 3.1.3).
fn digit(bytes: &[u8], i: usize, ots: OtsType) -> u8
    requires within { (i + 1) * (ots_set_of ots).w ≤ 8 * length bytes.now }
    requires short { length bytes.now ≤ 34 }
    ensures { result < 2 ^ (ots_set_of ots).w }
{
    let w = ots.w() as usize;
    number(bytes, i * w, w)
}

/// The number that `count` bits of a byte string spell, from bit `from` on.
fn number(bytes: &[u8], from: usize, count: usize) -> u8
    requires within { from + count ≤ 8 * length bytes.now }
    requires short { length bytes.now ≤ 34 }
    requires narrow { count ≤ 8 }
    ensures { result < 2 ^ count }
{
    if count == 0 {
        return 0;
    }
    2 * number(bytes, from, count - 1) + bit(bytes, from + count - 1)
}

/// Bit k of a byte string, counted from the most significant bit of its first byte.
fn bit(bytes: &[u8], k: usize) -> u8
    requires { k < 8 * length bytes.now }
    ensures { result < 2 }
{
    bytes[k / 8] >> (7 - k % 8) & 1
}
