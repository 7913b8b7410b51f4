//! The keys that are timed, and what they sign.
use crate::fault::Fault;
use lms_hss::{HssKey, Levels};
use lms_ots::OtsId;
use lms_params::{LmsType, OtsType};

/// The seed of each key.
pub const SEED: [u8; 32] = [0x11; 32];

/// The identifier of each key, and the leaf whose one-time key is timed.
pub const ID: OtsId = OtsId {
    i: [0x22; 16],
    q: 5,
};

/// The randomizer of each signature.
pub const RANDOMIZER: [u8; 32] = [0x33; 32];

/// The message that is signed.
pub const MESSAGE: [u8; 3] = *b"abc";

/// The levels of a key of HSS, from the top.
#[derive(Clone, Copy)]
pub struct Hierarchy(pub &'static [(LmsType, OtsType)]);

impl Hierarchy {
    /// The key of these levels.
    pub fn key(self) -> Result<HssKey, Fault> {
        match Levels::new(self.0) {
            Ok(levels) => Ok(HssKey::new(levels, SEED, ID.i)),
            Err(_) => Err(Fault::Key),
        }
    }
}
