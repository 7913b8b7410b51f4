//! A public key's parts (RFC 8554, 5.3 and 6.1).
ghost use Rattle.std.specs.Prelude.{List, ℕ, ◌≡◌, IfNone, IfSome};
ghost use Rattle.lms_spec.specs.Parameters.{LmsSet, OtsSet};
ghost use Rattle.lms_verification.specs.Parts.{IsLmsPublicKey};
ghost use Rattle.lms_inspect.specs.PublicKeys.{IsKey, SaysPublic};
ghost use Rattle.lms_inspect.specs.declared.public_key.PublicParts.{PublicParts as SaidPublic};

use lms_hss::MOST_LEVELS;
use lms_params::{HASH_LEN, LmsType, OtsType, split_u32};

/// What an LMS public key says: its sets, and its identifier.
#[derive(Clone, Copy, Debug, PartialEq, Eq)]
pub struct KeyParts {
    pub lms: LmsType,
    pub ots: OtsType,
    pub id: [u8; 16],
}

impl KeyParts {
    /// The parts of an LMS public key. `None` exactly where the bytes are none of known typecodes.
    pub(crate) fn of(key: &[u8]) -> Option<Self>
        ensures some { IfSome result (λ parts. IsKey parts key.now) }
        ensures none { IfNone result
            ((m : LmsSet) (t : OtsSet) (id root : List ℕ) → ¬ IsLmsPublicKey m t id root key.now) }
    {
        let (lms_code, rest) = split_u32(key)?;
        let (ots_code, rest) = split_u32(rest)?;
        let (id, rest) = rest.split_first_chunk::<16>()?;
        let _root = rest.as_array::<HASH_LEN>()?;
        let lms = LmsType::from_code(lms_code)?;
        let ots = OtsType::from_code(ots_code)?;
        Some(KeyParts { lms, ots, id: *id })
    }
}

/// What an HSS public key says: how many levels it has, and the parts of its top tree's key.
#[derive(Clone, Copy, Debug, PartialEq, Eq)]
pub struct PublicParts {
    pub levels: u32,
    pub top: KeyParts,
}

impl PublicParts {
    /// The parts of an HSS public key. `None` exactly where the bytes are none of one to eight levels
    /// and known typecodes.
    pub(crate) fn of(text: &[u8]) -> Option<Self>
        ensures some { IfSome result (λ parts. SaysPublic parts text.now) }
        ensures none { IfNone result ((parts : SaidPublic) → ¬ SaysPublic parts text.now) }
    {
        let (levels, rest) = split_u32(text)?;
        if levels == 0 || levels > MOST_LEVELS as u32 {
            return None;
        }
        let top = KeyParts::of(rest)?;
        Some(PublicParts { levels, top })
    }
}
