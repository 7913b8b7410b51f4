//! Verification and signing under keys of HSS, timed in one thread.
ghost use Rattle.std.specs.Prelude.{IfOk};
ghost use Rattle.lms_hss.specs.Covered.{IsCovered};

use crate::case::Timed;
use bench_base::{Fault, Hierarchy, Hss, MESSAGE, RANDOMIZER};
use lms_hss::{ByEights, ChainEnds, Forest, HSS_KEY_LEN, OneByOne, verify_with};
use lms_params::{LmsType, OtsType};
use std::alloc::Global;
use std::thread::Threads;

/// Each case and its name, in the order in which they are printed.
pub const HSS_CASES: [(&str, HssCase); 8] = [
    (
        "verify 5/8",
        HssCase::Verify(Hierarchy(&[(LmsType::H5, OtsType::W8)])),
    ),
    (
        "verify 10/4",
        HssCase::Verify(Hierarchy(&[(LmsType::H10, OtsType::W4)])),
    ),
    (
        "verify 10/4 chain by chain",
        HssCase::VerifyOneByOne(Hierarchy(&[(LmsType::H10, OtsType::W4)])),
    ),
    (
        "verify 10/8",
        HssCase::Verify(Hierarchy(&[(LmsType::H10, OtsType::W8)])),
    ),
    (
        "verify 10/8 chain by chain",
        HssCase::VerifyOneByOne(Hierarchy(&[(LmsType::H10, OtsType::W8)])),
    ),
    (
        "verify 5/8,5/8",
        HssCase::Verify(Hierarchy(&[(LmsType::H5, OtsType::W8); 2])),
    ),
    (
        "verify 5/8,5/8,5/8,5/8,5/8,5/8,5/8,5/8",
        HssCase::Verify(Hierarchy(&[(LmsType::H5, OtsType::W8); 8])),
    ),
    ("Forest::sign 10/8,10/8", HssCase::Sign(COVERED)),
];

/// The key whose trees are covered.
pub const COVERED: Hierarchy = Hierarchy(&[(LmsType::H10, OtsType::W8); 2]);

/// What is timed: the verification of a signature under a key of these levels, chains by eights or
/// one by one, or the signing with the trees at hand.
#[derive(Clone, Copy)]
pub enum HssCase {
    Verify(Hierarchy),
    VerifyOneByOne(Hierarchy),
    Sign(Hierarchy),
}

/// What signs index 0 under a key of these levels.
pub fn forest(
    rt: &(impl Threads + Sync),
    alloc: Global,
    hierarchy: Hierarchy,
) -> Result<Forest, Fault>
    ensures { IfOk result (λ forest. IsCovered forest 0) }
{
    let key = hierarchy.key()?;
    Ok(Forest::cover(rt, alloc, key, 0, 1)?)
}

/// A signature by index 0.
pub fn signature(forest: &Forest) -> Result<Vec<u8>, Fault>
    requires { IsCovered forest.now 0 }
{
    Ok(forest.sign(0, &RANDOMIZER, &MESSAGE)?)
}

/// The compressions of a signature by index 0 under a key of these levels.
pub fn count(hierarchy: Hierarchy, signature: &[u8]) -> Result<Hss, Fault> {
    let key = hierarchy.key()?;
    match Hss::new(&key, &MESSAGE, signature) {
        Some(counts) => Ok(counts),
        None => Err(Fault::ShortSignature),
    }
}

/// A case with the trees and the signature that it works on.
#[derive(Drop)]
pub struct HssBench {
    case: HssCase,
    forest: Forest,
    public: [u8; HSS_KEY_LEN],
    signature: Vec<u8>,
    is_valid: bool,
    ghost covered: { IsCovered forest 0 },
}

impl HssBench {
    pub fn new(rt: &(impl Threads + Sync), alloc: Global, case: HssCase) -> Result<Self, Fault> {
        let (HssCase::Verify(hierarchy)
        | HssCase::VerifyOneByOne(hierarchy)
        | HssCase::Sign(hierarchy)) = case;
        let forest = forest(rt, alloc, hierarchy)?;
        let signature = signature(&forest)?;
        let public = forest.public();
        Ok(HssBench {
            case,
            forest,
            public,
            signature,
            is_valid: true,
        })
    }

    /// The compressions that it needs.
    pub fn compressions(&self) -> Result<u64, Fault> {
        match self.case {
            HssCase::Verify(hierarchy) | HssCase::VerifyOneByOne(hierarchy) => {
                Ok(count(hierarchy, &self.signature)?.verification)
            }
            HssCase::Sign(hierarchy) => Ok(count(hierarchy, &self.signature)?.signature),
        }
    }

    /// Verifies the signature, and flips the last bit of its path, so that no run can be left out.
    /// What then is refused took as many compressions as what is accepted, since the path's end is
    /// looked at last.
    fn verify<C: ChainEnds>(&mut self, ends: C) -> Result<(), Fault> {
        if verify_with(&self.public, &MESSAGE, &self.signature, ends) != self.is_valid {
            return Err(Fault::Verdict);
        }
        if let Some(byte) = self.signature.last_mut() {
            *byte ^= 1;
            self.is_valid = !self.is_valid;
        }
        Ok(())
    }

    /// Signs, and looks at the signature, so that no run can be left out.
    fn sign(&self) -> Result<(), Fault> {
        if signature(&self.forest)? == self.signature {
            Ok(())
        } else {
            Err(Fault::Result)
        }
    }
}

impl Timed for HssBench {
    fn repeat(&mut self, runs: u64) -> Result<(), Fault> {
        for _ in 0..runs {
            match self.case {
                HssCase::Verify(_) => self.verify(ByEights)?,
                HssCase::VerifyOneByOne(_) => self.verify(OneByOne)?,
                HssCase::Sign(_) => self.sign()?,
            }
        }
        Ok(())
    }
}
