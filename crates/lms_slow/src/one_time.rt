//! One-time keys (RFC 8554, section 4).
use crate::digits::{last_digit, slow_digits};
use crate::tree::SlowTree;
use sha2::{Digest, Sha256};
use std::alloc::{AllocError, Global};

/// The constants that keep the hashes of public keys and of messages apart from the others (RFC
/// 8554, 4.3 and 4.5).
const D_PBLC: u16 = 0x8080;

const D_MESG: u16 = 0x8181;

/// The one-time keys of a tree, each named by its leaf's number `q` (RFC 8554, section 4).
impl SlowTree {
    /// A hasher that has taken the identifier, the number of a leaf or a node, and a chain's
    /// number or one of the constants in its place.
    pub(crate) fn hasher(&self, number: u32, separator: u16) -> Sha256 {
        let mut hasher = Sha256::new();
        hasher.update(self.id);
        hasher.update(number.to_be_bytes());
        hasher.update(separator.to_be_bytes());
        hasher
    }

    /// A value derived from the seed at leaf `q`. At a chain's number it is the chain's secret
    /// (RFC 8554, appendix A).
    pub(crate) fn derived(&self, q: u32, number: u16) -> [u8; 32] {
        let mut hasher = self.hasher(q, number);
        hasher.update([0xff]);
        hasher.update(self.seed);
        hasher.finalize()
    }

    /// The value of chain i after `steps` steps from its secret (RFC 8554, 4.3).
    fn chain(&self, q: u32, i: u16, steps: u8) -> [u8; 32] {
        if steps == 0 {
            return self.derived(q, i);
        }
        let before = self.chain(q, i, steps - 1);
        let mut hasher = self.hasher(q, i);
        hasher.update([steps - 1]);
        hasher.update(before);
        hasher.finalize()
    }

    /// K, the public hash of a one-time key (RFC 8554, 4.3).
    pub fn public_hash(&self, q: u32) -> [u8; 32] {
        let mut hasher = self.hasher(q, D_PBLC);
        for i in 0..self.ots.p() as u16 {
            hasher.update(self.chain(q, i, last_digit(self.ots)));
        }
        hasher.finalize()
    }

    /// The hash of a message under a randomizer (RFC 8554, 4.5).
    fn message_hash(&self, q: u32, c: &[u8; 32], msg: &[u8]) -> [u8; 32] {
        let mut hasher = self.hasher(q, D_MESG);
        hasher.update(c);
        hasher.update(msg);
        hasher.finalize()
    }

    /// The one-time signature of a message (RFC 8554, 4.5), 4 + 32 * (p + 1) bytes. Fails when out
    /// of memory.
    pub fn one_time_signature(
        &self,
        alloc: Global,
        q: u32,
        c: &[u8; 32],
        msg: &[u8],
    ) -> Result<Vec<u8>, AllocError> {
        let mut text = Vec::from_slice(alloc, &self.ots.code().to_be_bytes())?;
        text.extend_from_slice(c)?;
        let digits = slow_digits(alloc, &self.message_hash(q, c, msg), self.ots)?;
        for (i, digit) in (0..self.ots.p() as u16).zip(&digits) {
            text.extend_from_slice(&self.chain(q, i, *digit))?;
        }
        Ok(text)
    }
}
