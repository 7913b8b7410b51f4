//! What all processors compute.
use crate::hss_case::{COVERED, count, forest, signature};
use crate::tree_key::tree_key;
use bench_base::{Fault, Hierarchy, SEED, tree_compressions};
use lms_params::{LmsType, OtsType};
use lms_tree::{BandTree, WholeTree};
use std::alloc::Global;
use std::thread::Threads;

/// Each build and its name, in the order in which they are printed.
pub const BUILDS: [(&str, Build); 8] = [
    (
        "WholeTree::build 5/4",
        Build::Whole(LmsType::H5, OtsType::W4),
    ),
    ("BandTree::build 5/4", Build::Band(LmsType::H5, OtsType::W4)),
    (
        "WholeTree::build 10/8",
        Build::Whole(LmsType::H10, OtsType::W8),
    ),
    (
        "BandTree::build 10/8",
        Build::Band(LmsType::H10, OtsType::W8),
    ),
    (
        "WholeTree::build 10/4",
        Build::Whole(LmsType::H10, OtsType::W4),
    ),
    (
        "BandTree::build 10/4",
        Build::Band(LmsType::H10, OtsType::W4),
    ),
    (
        "BandTree::build 15/4",
        Build::Band(LmsType::H15, OtsType::W4),
    ),
    ("Forest::cover 10/8,10/8", Build::Cover(COVERED)),
];

/// A tree of these sets that is held whole, one that serves its first leaf alone, or the trees that
/// the first index of a key of HSS goes through.
#[derive(Clone, Copy)]
pub enum Build {
    Whole(LmsType, OtsType),
    Band(LmsType, OtsType),
    Cover(Hierarchy),
}

impl Build {
    /// The compressions of SHA-256 that the standard's definition needs. Those of a `Cover` are
    /// counted in a signature.
    pub fn compressions(self, rt: &(impl Threads + Sync), alloc: Global) -> Result<u64, Fault> {
        match self {
            Build::Whole(lms, ots) | Build::Band(lms, ots) => Ok(tree_compressions(lms, ots)),
            Build::Cover(hierarchy) => {
                let signature = signature(&forest(rt, alloc, hierarchy)?)?;
                Ok(count(hierarchy, &signature)?.cover)
            }
        }
    }

    /// The set of its one-time keys; for a `Cover` of those of the bottom level, or w = 8 where it
    /// has no levels.
    pub fn ots(self) -> OtsType {
        match self {
            Build::Whole(_, ots) | Build::Band(_, ots) => ots,
            Build::Cover(Hierarchy([.., (_, ots)])) => *ots,
            Build::Cover(_) => OtsType::W8,
        }
    }

    /// Works it out once.
    pub fn run(self, rt: &(impl Threads + Sync), alloc: Global) -> Result<(), Fault> {
        match self {
            Build::Whole(lms, ots) => {
                let _tree = WholeTree::build(rt, alloc, tree_key(lms, ots, SEED))?;
            }
            Build::Band(lms, ots) => {
                let _tree = BandTree::build(rt, alloc, tree_key(lms, ots, SEED), 0, 0)?;
            }
            Build::Cover(hierarchy) => {
                let _forest = forest(rt, alloc, hierarchy)?;
            }
        }
        Ok(())
    }
}
