//! LM-OTS parameter sets (RFC 8554, 4.1).
ghost use Rattle.std.specs.Prelude.{◌≡◌, option_map};
ghost use Rattle.lms_spec.specs.Parameters.{ots_set, ots_signature_length};
ghost use Rattle.lms_params.specs.OtsType.{ots_set_of};

use crate::lengths::HASH_LEN;

/// An LM-OTS parameter set with SHA-256 and 32-byte hashes (RFC 8554, 4.1), named by its Winternitz
/// width.
#[derive(Clone, Copy, Debug, PartialEq, Eq)]
pub enum OtsType {
    W1,
    W2,
    W4,
    W8,
}

impl OtsType {
    /// The set of a typecode. `None` exactly where table 1 of RFC 8554 has no such code.
    pub fn from_code(code: u32) -> Option<Self>
        ensures { option_map ots_set_of result ≡ ots_set code }
    {
        match code {
            1 => Some(OtsType::W1),
            2 => Some(OtsType::W2),
            3 => Some(OtsType::W4),
            4 => Some(OtsType::W8),
            _ => None,
        }
    }

    /// The typecode.
    pub fn code(self) -> u32
        ensures { result ≡ (ots_set_of self).code }
    {
        match self {
            OtsType::W1 => 1,
            OtsType::W2 => 2,
            OtsType::W4 => 3,
            OtsType::W8 => 4,
        }
    }

    /// The Winternitz width w: the bits of a digit.
    pub fn w(self) -> u32
        ensures { result ≡ (ots_set_of self).w }
    {
        match self {
            OtsType::W1 => 1,
            OtsType::W2 => 2,
            OtsType::W4 => 4,
            OtsType::W8 => 8,
        }
    }

    /// The number of chains p, which is also the number of digits signed.
    pub fn p(self) -> usize
        ensures { result ≡ (ots_set_of self).p }
    {
        match self {
            OtsType::W1 => 265,
            OtsType::W2 => 133,
            OtsType::W4 => 67,
            OtsType::W8 => 34,
        }
    }

    /// The bits ls by which the checksum is shifted to the left (RFC 8554, 4.4).
    pub fn ls(self) -> u32
        ensures { result ≡ (ots_set_of self).ls }
    {
        match self {
            OtsType::W1 => 7,
            OtsType::W2 => 6,
            OtsType::W4 => 4,
            OtsType::W8 => 0,
        }
    }

    /// How many bytes an LM-OTS signature has: typecode, randomizer and p hashes (RFC 8554, 4.5).
    pub fn sig_len(self) -> usize
        ensures { result ≡ ots_signature_length (ots_set_of self) }
    {
        4 + HASH_LEN * (self.p() + 1)
    }
}
