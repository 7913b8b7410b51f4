//! The bytes with which all hashes of a tree begin.
ghost use Rattle.sha2.specs.Hashers.{Holds256};
ghost use Rattle.lms_spec.specs.Hashing.{hash_prefix};

use sha2::{Digest, Sha256};

/// A hasher that has taken the 20 bytes with which each hash of a tree begins: the tree's
/// identifier I and the number of a leaf (RFC 8554, 4.3) or of a node (5.3).
pub fn hasher_at(id: &[u8; 16], number: u32) -> Sha256
    ensures { Holds256 result (hash_prefix id.now number) }
{
    let mut hasher = Sha256::new();
    hasher.update(id);
    hasher.update(number.to_be_bytes());
    hasher
}
