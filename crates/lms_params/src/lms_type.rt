//! LMS parameter sets (RFC 8554, 5.1).
ghost use Rattle.std.specs.Prelude.{◌≡◌, option_map};
ghost use Rattle.lms_spec.specs.Parameters.{lms_set, lms_signature_length};
ghost use Rattle.lms_params.specs.LmsType.{lms_set_of};
ghost use Rattle.lms_params.specs.OtsType.{ots_set_of};

use crate::lengths::HASH_LEN;
use crate::ots_type::OtsType;

/// An LMS parameter set with SHA-256 and 32-byte hashes (RFC 8554, 5.1), named by its tree's
/// height.
#[derive(Clone, Copy, Debug, PartialEq, Eq)]
pub enum LmsType {
    H5,
    H10,
    H15,
    H20,
    H25,
}

impl LmsType {
    /// The set of a typecode. `None` exactly where table 2 of RFC 8554 has no such code.
    pub fn from_code(code: u32) -> Option<Self>
        ensures { option_map lms_set_of result ≡ lms_set code }
    {
        match code {
            5 => Some(LmsType::H5),
            6 => Some(LmsType::H10),
            7 => Some(LmsType::H15),
            8 => Some(LmsType::H20),
            9 => Some(LmsType::H25),
            _ => None,
        }
    }

    /// The typecode.
    pub fn code(self) -> u32
        ensures { result ≡ (lms_set_of self).code }
    {
        match self {
            LmsType::H5 => 5,
            LmsType::H10 => 6,
            LmsType::H15 => 7,
            LmsType::H20 => 8,
            LmsType::H25 => 9,
        }
    }

    /// The height h of the tree, which has 2^h leaves.
    pub fn height(self) -> u32
        ensures { result ≡ (lms_set_of self).h }
    {
        match self {
            LmsType::H5 => 5,
            LmsType::H10 => 10,
            LmsType::H15 => 15,
            LmsType::H20 => 20,
            LmsType::H25 => 25,
        }
    }
}

/// How many bytes an LMS signature has: leaf number, LM-OTS signature, typecode and h hashes (RFC
/// 8554, 5.4).
pub fn lms_sig_len(lms: LmsType, ots: OtsType) -> usize
    ensures { result ≡ lms_signature_length (lms_set_of lms) (ots_set_of ots) }
{
    8 + ots.sig_len() + HASH_LEN * lms.height() as usize
}
