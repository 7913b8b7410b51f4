//! The hashes of a key's chains (RFC 8554, 4.3 and Appendix A).
ghost use Rattle.std.specs.Prelude.{◌≡◌, ◌∷◌, ◌++◌};
ghost use Rattle.sha2.specs.Sha256.{sha256};
ghost use Rattle.lms_spec.specs.Bytes.{u16str};
ghost use Rattle.lms_spec.specs.Hashing.{hash_prefix};

use crate::one_time_key::OtsId;
use byteorder::{BigEndian, ByteOrder};
use lms_lanes::HEAD_LEN;
use lms_params::HASH_LEN;
use sha2::{Digest, Sha256};

/// The first bytes of what each hash of a chain is over: I, q and i.
pub(crate) fn chain_head(id: OtsId, i: u16) -> [u8; HEAD_LEN]
    ensures { result ≡ hash_prefix id.i id.q ++ u16str i }
{
    let mut head = [0; HEAD_LEN];
    head[..16].copy_from_slice(&id.i);
    BigEndian::write_u32(&mut head[16..], id.q);
    BigEndian::write_u16(&mut head[20..], i);
    head
}

/// The hash of a chain's head, a byte and a value: 55 bytes, so one compression.
pub(crate) fn hash_after(head: &[u8; HEAD_LEN], byte: u8, value: &[u8; HASH_LEN]) -> [u8; HASH_LEN]
    ensures { result ≡ sha256 (head.now ++ byte ∷ value.now) }
{
    let mut text = [byte; HEAD_LEN + 1 + HASH_LEN];
    text[..HEAD_LEN].copy_from_slice(head);
    text[HEAD_LEN + 1..].copy_from_slice(value);
    Sha256::digest(text)
}
