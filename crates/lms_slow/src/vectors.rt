//! Keys and signatures that another implementation, Bouncy Castle 1.72, made.

mod narrow_digits;
mod one_level;
mod three_levels;
mod two_levels;

pub use crate::vectors::narrow_digits::{ONE_5_1, ONE_5_2};
pub use crate::vectors::one_level::{ONE_5_4, ONE_5_8, ONE_10_8};
pub use crate::vectors::three_levels::THREE;
pub use crate::vectors::two_levels::TWO;
use lms_params::{LmsType, OtsType};

/// A private key and what it signs at an index, with its public key and the signature. Byte strings
/// are in hexadecimal.
#[derive(Clone, Copy)]
pub struct Vector {
    pub levels: &'static [(LmsType, OtsType)],
    pub seed: &'static str,
    pub id: &'static str,
    pub index: u64,
    pub randomizer: &'static str,
    pub message: &'static str,
    pub public: &'static str,
    pub signature: &'static str,
}

pub const VECTORS: [Vector; 7] = [ONE_10_8, ONE_5_8, ONE_5_4, ONE_5_2, ONE_5_1, TWO, THREE];
