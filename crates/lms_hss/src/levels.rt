//! The levels of a key that signs.
ghost use Rattle.std.specs.Prelude.{◌≡◌, ◌≤◌, length, drop};
ghost use Rattle.lms_spec.specs.Hss.{height_of, most_levels};
ghost use Rattle.lms_hss.specs.Levels.{levels_of, padded as padded_of, most_height, IsAdmitted, JudgesLevels};

use crate::fault::KeyFault;
use lms_params::{LmsType, OtsType};
use std::marker::Model;

/// The most levels of a key (RFC 8554, 6).
pub const MOST_LEVELS: usize = 8;

/// The most that the heights of a signer's levels sum to, so that an index fits 64 bits.
const MOST_HEIGHT: u32 = 60;

/// What a `Levels` has in its unused places.
const NO_SETS: [(LmsType, OtsType); MOST_LEVELS] = [(LmsType::H5, OtsType::W1); MOST_LEVELS];

/// The levels of a key that signs, from the top: the LMS set and the LM-OTS set of each. There are
/// 1 to 8, whose heights sum to at most 60. Contracts see the list.
#[derive(Clone, Copy, PartialEq, Eq)]
pub struct Levels {
    sets: [(LmsType, OtsType); MOST_LEVELS],
    count: usize,
}

impl Model for Levels {
    ghost use Rattle.std.specs.Prelude.{List, length, take};
    ghost use Rattle.std.proofs.Common.{sym};
    ghost use Rattle.lms_params.specs.declared.lms_type.LmsType.{LmsType as KindOfTree};
    ghost use Rattle.lms_params.specs.declared.ots_type.OtsType.{OtsType as KindOfKey};

    ghost Value = { List (KindOfTree × KindOfKey) };

    ghost use Rattle.lms_hss.specs.Levels.{IsHeld, padded};

    ghost view = { λ a. take a.count a.sets };

    ghost invariant = { λ a. IsHeld a.count a.sets };

    ghost inverse = { λ levels. record { sets = padded levels; count = length levels } };

    ghost inverse_ok = { λ a held i.
        record { sets = sym held.others_unused i; count = held.count_is i } };
}

impl Levels {
    /// Takes a list of levels, from the top. An error is the first of these faults: `NoLevels` for
    /// an empty list, `TooManyLevels` for more than 8, `TooTall` for heights that sum to over 60.
    pub fn new(sets: &[(LmsType, OtsType)]) -> Result<Self, KeyFault>
        ensures { JudgesLevels sets.now result }
    {
        if sets.is_empty() {
            return Err(KeyFault::NoLevels);
        }
        if sets.len() > MOST_LEVELS {
            return Err(KeyFault::TooManyLevels);
        }
        if height(sets) > MOST_HEIGHT {
            return Err(KeyFault::TooTall);
        }
        Ok(Levels {
            sets: padded(sets),
            count: sets.len(),
        })
    }

    /// The levels, from the top.
    pub fn as_slice(&self) -> &[(LmsType, OtsType)]
        ensures levels { result.now ≡ self.now }
        ensures admitted { IsAdmitted self.now }
    {
        &self.sets[..self.count]
    }

    /// The heights of the levels from k on, added up.
    pub(crate) fn height_from(&self, k: usize) -> u32
        requires { k ≤ length self.now }
        ensures height { result ≡ height_of (drop k (levels_of self.now)) }
        ensures limit { result ≤ most_height }
    {
        height(&self.as_slice()[k..])
    }
}

/// Eight places: at most 8 levels in the first ones, and what `NO_SETS` has in the others.
fn padded(sets: &[(LmsType, OtsType)]) -> [(LmsType, OtsType); MOST_LEVELS]
    requires { length sets.now ≤ most_levels }
    ensures { result ≡ padded_of sets.now }
{
    let mut padded = NO_SETS;
    padded[..sets.len()].copy_from_slice(sets);
    padded
}

/// The heights of these levels, added up.
fn height(sets: &[(LmsType, OtsType)]) -> u32
    requires { length sets.now ≤ most_levels }
    ensures { result ≡ height_of (levels_of sets.now) }
{
    let mut height = 0;
    for (lms, _) in sets {
        height += lms.height();
    }
    height
}
