//! Lengths that all parameter sets share.

/// The bytes of a hash, and so of a seed, of a randomizer and of each value of a chain or a node: n
/// and m of the parameter sets (RFC 8554, 4.1 and 5.1).
pub const HASH_LEN: usize = 32;

/// The most chains of a one-time key: p of the LM-OTS set with the narrowest digits (RFC 8554,
/// 4.1).
pub const MOST_CHAINS: usize = 265;
