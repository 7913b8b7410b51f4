//! Digits and the checksum (RFC 8554, 3.1.3 and 4.4).
ghost use Rattle.std.specs.Prelude.{◌≡◌, ◌+◌, ◌-◌, ◌*◌, ◌/◌, ◌%◌, ◌^◌, ◌<◌, ◌≤◌, ◌++◌, length, replicate};
ghost use Rattle.lms_spec.specs.HashLength.{hash_length};
ghost use Rattle.lms_spec.specs.Parameters.{most_chains};
ghost use Rattle.lms_spec.specs.Bytes.{u16str};
ghost use Rattle.lms_spec.specs.Digits.{digit as digit_of, checksum as checksum_of, digits_of};
ghost use Rattle.lms_params.specs.OtsType.{ots_set_of};

use crate::lengths::{HASH_LEN, MOST_CHAINS};
use crate::ots_type::OtsType;
use byteorder::{BigEndian, ByteOrder};

/// The digits that a one-time signature of the hash `q` signs (RFC 8554, 4.4 and 4.5): first the
/// `t.p()` digits of the hash and its checksum, each below 2^w, then zeros.
pub fn digits(q: &[u8; HASH_LEN], t: OtsType) -> [u8; MOST_CHAINS]
    ensures { result ≡ digits_of (ots_set_of t) q.now
        ++ replicate (most_chains - (ots_set_of t).p) 0 }
{
    let text = with_checksum(q, t);
    let mut digits = [0; MOST_CHAINS];
    for i in 0..t.p() {
        digits[i] = digit(&text, i, t);
    }
    digits
}

/// A hash and the two bytes of its checksum (4.5).
fn with_checksum(q: &[u8; HASH_LEN], t: OtsType) -> [u8; HASH_LEN + 2]
    ensures { result ≡ q.now ++ u16str (checksum_of (ots_set_of t) q.now) }
{
    let mut text = [0; HASH_LEN + 2];
    text[..HASH_LEN].copy_from_slice(q);
    BigEndian::write_u16(&mut text[HASH_LEN..], checksum(q, t));
    text
}

/// The checksum of a hash (4.4).
fn checksum(q: &[u8; HASH_LEN], t: OtsType) -> u16
    ensures { result ≡ checksum_of (ots_set_of t) q.now }
{
    let last_digit = low_bits(u8::MAX, t);
    let mut sum: u16 = 0;
    for i in 0..q.len() * digits_per_byte(t) {
        sum += u16::from(last_digit - digit(q, i, t));
    }
    sum << t.ls()
}

/// Digit i of a byte string, counted from its most significant bit (3.1.3).
fn digit(bytes: &[u8], i: usize, t: OtsType) -> u8
    requires within { i < length bytes.now * (8 / (ots_set_of t).w) }
    requires short { length bytes.now ≤ hash_length + 2 }
    ensures { result ≡ digit_of bytes.now i (ots_set_of t).w }
{
    let w = t.w() as usize;
    let bit = i * w;
    low_bits(bytes[bit / 8] >> (8 - w - bit % 8), t)
}

/// How many digits a byte holds.
fn digits_per_byte(t: OtsType) -> usize
    ensures { result ≡ 8 / (ots_set_of t).w }
{
    8 / t.w() as usize
}

/// The digit in the lowest bits of a byte.
fn low_bits(byte: u8, t: OtsType) -> u8
    ensures { result ≡ byte % 2 ^ (ots_set_of t).w }
{
    byte & (u8::MAX >> (8 - t.w()))
}
