//! Numbers in byte strings (RFC 8554, 3.1).
ghost use Rattle.std.specs.Prelude.{◌≡◌, ◌+◌, ◌^◌, ◌<◌, ◌++◌, length, IfSome, IfNone};
ghost use Rattle.lms_spec.specs.Bytes.{u32str, u64str};

/// The number in the first four bytes, the most significant first, and the bytes after it. `None`
/// exactly where there are fewer than four.
pub fn split_u32(bytes: &[u8]) -> Option<(u32, &[u8])>
    ensures parts { IfSome result (λ s. bytes.now ≡ u32str s.0 ++ s.1.now) }
    ensures fits { IfSome result (λ s. s.0 < 2 ^ 32) }
    ensures none { IfNone result (length bytes.now < 4) }
{
    let (number, rest) = bytes.split_first_chunk::<4>()?;
    Some((u32::from_be_bytes(*number), rest))
}

/// The number in the first eight bytes, the most significant first, and the bytes after it. `None`
/// exactly where there are fewer than eight.
pub fn split_u64(bytes: &[u8]) -> Option<(u64, &[u8])>
    ensures parts { IfSome result (λ s. bytes.now ≡ u64str s.0 ++ s.1.now) }
    ensures fits { IfSome result (λ s. s.0 < 2 ^ 64) }
    ensures long { IfSome result (λ s. length bytes.now ≡ 8 + length s.1.now) }
    ensures none { IfNone result (length bytes.now < 8) }
{
    let (number, rest) = bytes.split_first_chunk::<8>()?;
    Some((u64::from_be_bytes(*number), rest))
}
