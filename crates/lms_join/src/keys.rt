//! Public keys that are joined.
ghost use Rattle.std.specs.Prelude.{ℕ, ◌≡◌, ◌+◌, ◌≤◌, List, ◌++◌, IfSome, IfNone};
ghost use Rattle.lms_spec.specs.Bytes.{u32str};
ghost use Rattle.lms_spec.specs.Hss.{most_levels};
ghost use Rattle.lms_verification.specs.Parts.{HasSignaturesOf};
ghost use Rattle.lms_join.specs.Joined.{joined_public as joined_public_of};
ghost use Rattle.lms_join.specs.Keys.{IsHssPublicKey, AreJoinable, id_of};

use lms_hss::{HSS_KEY_LEN, LMS_KEY_LEN, MOST_LEVELS, public_key_bytes};
use lms_params::split_u32;
use lms_verification::PublicKey;

/// The public key of joined signatures: the top one, with the levels of both keys. `None` exactly
/// where one of the two is no HSS public key of known typecodes (60 bytes, RFC 8554, 6.1), or their
/// levels are together more than eight.
pub fn join_public(top: &[u8], signer: &[u8]) -> Option<[u8; HSS_KEY_LEN]>
    ensures some { IfSome result (λ key. key ≡ joined_public_of top.now signer.now) }
    ensures joinable { IfSome result (λ _. AreJoinable top.now signer.now) }
    ensures none { IfNone result (¬ AreJoinable top.now signer.now) }
{
    let keys = Keys::parse(top, signer)?;
    Some(keys.joined())
}

/// A top public key and a signer's, whose levels are together at most eight.
#[derive(Clone, Copy)]
pub(crate) struct Keys<'a> {
    pub(crate) top: Key<'a>,
    pub(crate) signer: Key<'a>,
}

impl<'a> Keys<'a> {
    /// Cuts two public keys. `None` exactly where they can't be joined (`join_public`).
    pub(crate) fn parse(top: &'a [u8], signer: &'a [u8]) -> Option<Self>
        ensures top { IfSome result (λ keys.
            IsHssPublicKey keys.top.levels keys.top.lms_key.now top.now) }
        ensures signer { IfSome result (λ keys.
            IsHssPublicKey keys.signer.levels keys.signer.lms_key.now signer.now) }
        ensures most { IfSome result (λ keys. keys.top.levels + keys.signer.levels ≤ most_levels) }
        ensures none { IfNone result (¬ AreJoinable top.now signer.now) }
    {
        let top = Key::parse(top)?;
        let signer = Key::parse(signer)?;
        if top.levels + signer.levels > MOST_LEVELS as u32 {
            return None;
        }
        Some(Keys { top, signer })
    }

    /// The public key of joined signatures: the top one, with the levels of both.
    pub(crate) fn joined(&self) -> [u8; HSS_KEY_LEN]
        requires { self.now.top.levels + self.now.signer.levels ≤ most_levels }
        ensures { result
            ≡ u32str (self.now.top.levels + self.now.signer.levels) ++ self.now.top.lms_key.now }
    {
        public_key_bytes(self.top.levels + self.signer.levels, self.top.lms_key)
    }
}

/// An HSS public key: how many levels it has, and the LMS public key of its top tree (6.1).
#[derive(Clone, Copy)]
pub struct Key<'a> {
    pub levels: u32,
    pub lms_key: &'a [u8; LMS_KEY_LEN],
}

impl<'a> Key<'a> {
    /// Cuts a public key. `None` exactly where it has other than 60 bytes, typecodes that are not
    /// known, or other than one to eight levels.
    pub fn parse(public: &'a [u8]) -> Option<Self>
        ensures some { IfSome result (λ key.
            IsHssPublicKey key.levels key.lms_key.now public.now) }
        ensures none { IfNone result ((levels : ℕ) (lms_key : List ℕ)
            → ¬ IsHssPublicKey levels lms_key public.now) }
    {
        let (levels, rest) = split_u32(public)?;
        if levels == 0 || levels > MOST_LEVELS as u32 {
            return None;
        }
        let _length = signature_len_under(rest)?;
        let lms_key = rest.as_array::<LMS_KEY_LEN>()?;
        Some(Key { levels, lms_key })
    }

    /// The identifier I of the top tree (5.3).
    pub fn id(&self) -> [u8; 16]
        ensures { result ≡ id_of self.now.lms_key.now }
    {
        let lms_key = self.lms_key;
        let mut id = [0; 16];
        id.copy_from_slice(&lms_key[8..24]);
        id
    }

    /// The public key (6.1).
    pub(crate) fn public(&self) -> [u8; HSS_KEY_LEN]
        ensures { result ≡ u32str self.now.levels ++ self.now.lms_key.now }
    {
        public_key_bytes(self.levels, self.lms_key)
    }
}

/// The length in bytes of each signature under an LMS public key. `None` exactly where it is no LMS
/// public key of known typecodes.
fn signature_len_under(lms_key: &[u8]) -> Option<usize>
    ensures some { IfSome result (λ n. HasSignaturesOf n lms_key.now) }
    ensures none { IfNone result ((n : ℕ) → ¬ HasSignaturesOf n lms_key.now) }
{
    let key = PublicKey::parse(lms_key)?;
    Some(key.signature_len())
}
