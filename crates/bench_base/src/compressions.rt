//! How many compressions of SHA-256 the definitions need, the standard's and those of kept nodes.
ghost use Rattle.std.specs.Prelude.{◌+◌, ◌-◌, ◌/◌, ◌^◌, ◌<◌, ◌≤◌};

use lms_hss::{HssKey, LMS_KEY_LEN};
use lms_ots::{MESSAGE_HEAD_LEN, OtsId, hasher_at};
use lms_params::{LmsType, OtsType, digits, lms_sig_len, split_u32};
use sha2::Digest;

/// How many compressions derive the key of a tree and the randomizer of its public key's signature:
/// one for each of the randomizer, the seed and the identifier.
const DERIVATIONS: u64 = 3;

/// How many compressions derive the key of a tree below the top: one for each of the seed and the
/// identifier.
const KEY_DERIVATIONS: u64 = 2;

/// The bytes of the check value, which is at the end of those of kept nodes.
const CHECK_LEN: u64 = 32;

/// A count as a number for ratios, up to 2^52.
pub fn real(count: u64) -> f64 {
    count.min(1 << 52) as f64
}

/// The compressions of so many bytes, with their padding.
fn compressions_of(bytes: u64) -> u64
    requires { bytes < 2 ^ 63 + 100 }
    ensures { result ≤ bytes / 64 + 2 }
{
    (bytes + 9).div_ceil(64)
}

/// The compressions of the steps of a one-time key's chains, from the secrets to the ends, and of
/// the hash of the ends (RFC 8554, 4.3).
fn chain_compressions(ots: OtsType) -> u64
    ensures { result < 2 ^ 17 - 265 }
{
    ots.p() as u64 * ((1 << ots.w()) - 1) + compressions_of(22 + 32 * ots.p() as u64)
}

/// The compressions of a one-time key's public hash: its secrets, all steps and the hash of the
/// ends.
pub fn public_hash_compressions(ots: OtsType) -> u64
    ensures { result < 2 ^ 17 }
{
    ots.p() as u64 + chain_compressions(ots)
}

/// The compressions of all nodes of a tree: a public hash and one compression a leaf, two an inner
/// node.
pub fn tree_compressions(lms: LmsType, ots: OtsType) -> u64
    ensures { result < 2 ^ 46 }
{
    let leaves = 1 << lms.height();
    leaves * (public_hash_compressions(ots) + 1) + (leaves - 1) * 2
}

/// The compressions of reading bytes of kept nodes that are right for a key: those of their check
/// value, which are the secret, the hash of the levels' typecodes with the bytes before it, and the
/// hash of both; and those of the keys of the trees below the top.
pub fn reading_compressions(key: &HssKey, text: &[u8]) -> u64 {
    let levels = key.levels.as_slice().len() as u64;
    let hashed = 4 + 8 * levels + (text.len() as u64).saturating_sub(CHECK_LEN);
    let check_value = 1 + compressions_of(hashed) + compressions_of(64);
    check_value + KEY_DERIVATIONS * (levels - 1)
}

/// The compressions of a one-time signature, and of its candidate.
#[derive(Clone, Copy)]
pub struct OneTime {
    /// Those of the message's hash, of the secrets and of the steps from them to the signature's
    /// values.
    pub signature: u64,
    /// Those of the message's hash, of the steps from the values to the ends and of the hash of the
    /// ends.
    pub candidate: u64,
}

impl OneTime {
    /// Those of a message that is signed under the randomizer `c` (RFC 8554, 4.5).
    pub fn new(ots: OtsType, id: OtsId, c: &[u8; 32], msg: &[u8]) -> Self {
        let mut hasher = hasher_at(&id.i, id.q);
        hasher.update([0x81, 0x81]);
        hasher.update(c);
        hasher.update(msg);
        let mut steps: u64 = 0;
        for digit in digits(&hasher.finalize(), ots) {
            steps = steps.saturating_add(u64::from(digit));
        }
        let hash = compressions_of(MESSAGE_HEAD_LEN as u64 + msg.len() as u64);
        OneTime {
            signature: (hash + ots.p() as u64).saturating_add(steps),
            candidate: (hash + chain_compressions(ots)).saturating_sub(steps),
        }
    }
}

/// The compressions of a signature of HSS.
#[derive(Clone, Copy)]
pub struct Hss {
    /// Those of its verification.
    pub verification: u64,
    /// Those of the last level's one-time signature, which is made with the trees at hand.
    pub signature: u64,
    /// Those of the trees that it goes through, and of the derivation and signature of each but the
    /// first.
    pub cover: u64,
}

impl Hss {
    /// Those of a message's signature by a key. `None` where it is shorter than the key says.
    pub fn new(key: &HssKey, msg: &[u8], sig: &[u8]) -> Option<Self> {
        let mut sum = Hss {
            verification: 0,
            signature: 0,
            cover: 0,
        };
        let (_signed_keys, mut text) = split_u32(sig)?;
        let mut i = key.i;
        for (lms, ots) in key.levels.as_slice() {
            let (own, rest) = text.split_at_checked(lms_sig_len(*lms, *ots))?;
            let (signed, rest) = rest.split_at_checked(LMS_KEY_LEN).unwrap_or((msg, rest));
            let counts = level(*ots, i, own, signed)?;
            sum = sum.then(*lms, *ots, counts);
            i = identifier(signed);
            text = rest;
        }
        Some(sum)
    }

    /// With a further level, whose signature takes `counts`.
    fn then(self, lms: LmsType, ots: OtsType, counts: OneTime) -> Self {
        let climb = 1 + 2 * u64::from(lms.height());
        let derived = match self.signature {
            0 => 0,
            signature => signature.saturating_add(DERIVATIONS),
        };
        Hss {
            verification: self
                .verification
                .saturating_add(counts.candidate)
                .saturating_add(climb),
            signature: counts.signature,
            cover: self
                .cover
                .saturating_add(tree_compressions(lms, ots))
                .saturating_add(derived),
        }
    }
}

/// The compressions of the one-time signature that an LMS signature begins with, of what it signs.
fn level(ots: OtsType, i: [u8; 16], own: &[u8], signed: &[u8]) -> Option<OneTime> {
    let (q, rest) = split_u32(own)?;
    let (_typecode, rest) = split_u32(rest)?;
    let (c, _values) = rest.split_first_chunk::<32>()?;
    Some(OneTime::new(ots, OtsId { i, q }, c, signed))
}

/// The identifier I in an LMS public key (RFC 8554, 5.3). Of fewer bytes, as a message, zeros.
fn identifier(key: &[u8]) -> [u8; 16] {
    let mut i = [0; 16];
    if key.len() >= 24 {
        i.copy_from_slice(&key[8..24]);
    }
    i
}
