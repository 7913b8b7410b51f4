//! The public hash of a one-time key whose chains are hashed one after another.
use lms_ots::{OtsId, chain, hasher_at, secret};
use lms_params::OtsType;
use sha2::Digest;

/// What keeps the hash of the ends of all chains apart from other hashes (RFC 8554, 4.3).
const D_PBLC: u16 = 0x8080;

/// The public hash of a one-time key (RFC 8554, 4.3), chain by chain: what the one of `lms_ots`, by
/// lanes, is timed beside.
pub fn public_hash_chain_by_chain(t: OtsType, seed: &[u8; 32], id: OtsId) -> [u8; 32] {
    let last = (1 << t.w()) - 1;
    let mut hasher = hasher_at(&id.i, id.q);
    hasher.update(D_PBLC.to_be_bytes());
    for i in 0..t.p() as u16 {
        hasher.update(chain(id, i, 0, last, &secret(seed, id, i)));
    }
    hasher.finalize()
}
