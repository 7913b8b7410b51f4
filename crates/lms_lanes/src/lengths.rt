//! Lengths that the functions here share.

/// How many hashes are made at once: the lanes of a vector.
pub const LANES: usize = 8;

/// The bytes of the head of a chain's hashes: I, q and the chain's number (RFC 8554, 4.3).
pub const HEAD_LEN: usize = 22;

/// The bytes of a key's front: I and q (RFC 8554, 4.3).
pub const FRONT_LEN: usize = 20;

/// The bytes of a hash (FIPS 180-4, 6.2).
pub(crate) const DIGEST_LEN: usize = 32;
