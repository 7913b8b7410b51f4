//! What is kept of a file that is read piece by piece.
ghost use Rattle.std.specs.Prelude.{List, ℕ, [], ◌≡◌, IfOk};
ghost use Rattle.lms_inspect.specs.Keeping.{HasTaken, IsFoundIn};

use crate::found::Found;
use lms_hss::{LMS_KEY_LEN, MOST_LEVELS};
use lms_params::{HASH_LEN, MOST_CHAINS, OutOfMemory};
use lms_world::Taker;
use std::alloc::Global;

/// The height of the tallest trees.
const TALLEST: usize = 25;

/// The most bytes of an LMS signature (RFC 8554, 5.4): its leaf, two typecodes, the randomizer, the
/// hashes of the most chains and the longest path.
const LONGEST_OF_LEVEL: usize = 12 + HASH_LEN * (1 + MOST_CHAINS + TALLEST);

/// The most bytes of an HSS signature (6.2). States and public keys are shorter.
const LONGEST: usize = 4 + MOST_LEVELS * LONGEST_OF_LEVEL + (MOST_LEVELS - 1) * LMS_KEY_LEN;

/// Whether all that was taken is kept.
#[derive(Clone, Copy, Debug, PartialEq, Eq)]
pub(crate) enum Keeping {
    /// It is.
    All,
    /// It is longer than a state, a public key or a signature can be.
    TooLong,
    /// Memory for it was refused.
    Refused,
}

/// Keeps the bytes of a file, as long as they can be a state, a public key or a signature.
#[derive(Drop)]
pub(crate) struct Keeper {
    kept: Vec<u8>,
    keeping: Keeping,
}

impl Keeper {
    /// A keeper that has taken nothing yet.
    pub(crate) fn new(alloc: Global) -> Self
        ensures { HasTaken result [] }
    {
        Keeper {
            kept: Vec::new(alloc),
            keeping: Keeping::All,
        }
    }

    /// What the bytes are that were taken. `OutOfMemory` where memory for them was refused, or is for
    /// the levels of a signature.
    pub(crate) fn found(&self, alloc: Global) -> Result<Found, OutOfMemory>
        ensures { IfOk result (λ found. (bytes : List ℕ) → HasTaken self.now bytes
            → IsFoundIn found self.now.kept.items bytes) }
    {
        match self.keeping {
            Keeping::All => Found::of(alloc, &self.kept),
            Keeping::TooLong => Ok(Found::Nothing),
            Keeping::Refused => Err(OutOfMemory),
        }
    }

    /// The bytes that were kept.
    pub(crate) fn kept(&self) -> &[u8]
        ensures { result.now ≡ self.now.kept.items }
    {
        &self.kept
    }
}

impl Taker for Keeper {
    ghost use Rattle.lms_inspect.specs.Keeping.{Goes, goes-nowhere, goes-on};

    ghost after = { Goes };

    fn take(&mut self, piece: &[u8]) {
        if self.keeping != Keeping::All {
            return;
        }
        if self.kept.len().saturating_add(piece.len()) > LONGEST {
            self.keeping = Keeping::TooLong;
            return;
        }
        match self.kept.extend_from_slice(piece) {
            Ok(()) => {}
            Err(_) => self.keeping = Keeping::Refused,
        }
    }

    ghost none = { goes-nowhere };

    ghost more = { goes-on };
}
