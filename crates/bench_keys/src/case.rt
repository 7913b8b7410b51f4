//! One-time keys and the root of a tree, timed in one thread.
use crate::tree_key::tree_key;
use bench_base::{
    Fault, ID, MESSAGE, OneTime, RANDOMIZER, SEED, public_hash_chain_by_chain,
    public_hash_compressions, tree_compressions,
};
use lms_ots::{candidate, eight_public_hashes, public_hash, sign_into};
use lms_params::{LmsType, OtsType};

/// Each case and its name, in the order in which they are printed.
pub const CASES: [(&str, Case); 21] = [
    (
        "eight_public_hashes w=1",
        Case::EightPublicHashes(OtsType::W1),
    ),
    (
        "eight_public_hashes w=2",
        Case::EightPublicHashes(OtsType::W2),
    ),
    (
        "eight_public_hashes w=4",
        Case::EightPublicHashes(OtsType::W4),
    ),
    (
        "eight_public_hashes w=8",
        Case::EightPublicHashes(OtsType::W8),
    ),
    ("public_hash w=1", Case::PublicHash(OtsType::W1)),
    (
        "public_hash chain by chain w=1",
        Case::ChainByChain(OtsType::W1),
    ),
    ("public_hash w=2", Case::PublicHash(OtsType::W2)),
    (
        "public_hash chain by chain w=2",
        Case::ChainByChain(OtsType::W2),
    ),
    ("public_hash w=4", Case::PublicHash(OtsType::W4)),
    (
        "public_hash chain by chain w=4",
        Case::ChainByChain(OtsType::W4),
    ),
    ("public_hash w=8", Case::PublicHash(OtsType::W8)),
    (
        "public_hash chain by chain w=8",
        Case::ChainByChain(OtsType::W8),
    ),
    ("sign_into w=1", Case::SignInto(OtsType::W1)),
    ("sign_into w=2", Case::SignInto(OtsType::W2)),
    ("sign_into w=4", Case::SignInto(OtsType::W4)),
    ("sign_into w=8", Case::SignInto(OtsType::W8)),
    ("candidate w=1", Case::Candidate(OtsType::W1)),
    ("candidate w=2", Case::Candidate(OtsType::W2)),
    ("candidate w=4", Case::Candidate(OtsType::W4)),
    ("candidate w=8", Case::Candidate(OtsType::W8)),
    (
        "subtree_root 10/4",
        Case::SubtreeRoot(LmsType::H10, OtsType::W4),
    ),
];

/// What is timed.
#[derive(Clone, Copy)]
pub enum Case {
    /// Those of eight neighbouring leaves.
    EightPublicHashes(OtsType),
    PublicHash(OtsType),
    /// The public hash without lanes, chain by chain.
    ChainByChain(OtsType),
    SignInto(OtsType),
    Candidate(OtsType),
    SubtreeRoot(LmsType, OtsType),
}

impl Case {
    /// The compressions of SHA-256 that the standard's definition of this case needs.
    pub fn compressions(self) -> u64 {
        match self {
            Case::EightPublicHashes(ots) => 8 * public_hash_compressions(ots),
            Case::PublicHash(ots) | Case::ChainByChain(ots) => public_hash_compressions(ots),
            Case::SignInto(ots) => OneTime::new(ots, ID, &RANDOMIZER, &MESSAGE).signature,
            Case::Candidate(ots) => OneTime::new(ots, ID, &RANDOMIZER, &MESSAGE).candidate,
            Case::SubtreeRoot(lms, ots) => tree_compressions(lms, ots),
        }
    }
}

/// What is run again and again while its time is taken.
pub trait Timed {
    /// Runs it so often. An `Err` where a run does not give what it should.
    fn repeat(&mut self, runs: u64) -> Result<(), Fault>;
}

/// A case with the signature that it works on.
#[derive(Clone, Copy)]
pub struct Bench {
    case: Case,
    signature: [u8; 8516],
}

impl Bench {
    pub fn new(case: Case) -> Self {
        let mut signature = [0; 8516];
        if let Case::Candidate(ots) = case {
            let _first_value = sign(ots, &SEED, &mut signature);
        }
        Bench { case, signature }
    }

    /// Runs the case once. Each run works on what the run before gave, so none of them can be left
    /// out.
    fn run(&mut self, given: [u8; 32]) -> [u8; 32] {
        match self.case {
            Case::EightPublicHashes(ots) => eight_public_hashes(ots, &given, ID)[7],
            Case::PublicHash(ots) => public_hash(ots, &given, ID),
            Case::ChainByChain(ots) => public_hash_chain_by_chain(ots, &given, ID),
            Case::SignInto(ots) => sign(ots, &given, &mut self.signature),
            Case::Candidate(ots) => candidate_of(ots, given, &mut self.signature),
            Case::SubtreeRoot(lms, ots) => tree_key(lms, ots, given).subtree_root(1),
        }
    }
}

impl Timed for Bench {
    fn repeat(&mut self, runs: u64) -> Result<(), Fault> {
        let mut value = SEED;
        for _ in 0..runs {
            value = self.run(value);
        }
        if value == SEED {
            return Err(Fault::Result);
        }
        Ok(())
    }
}

/// Signs from a seed, and gives the first chain's value.
fn sign(ots: OtsType, seed: &[u8; 32], signature: &mut [u8; 8516]) -> [u8; 32] {
    let length = ots.sig_len();
    sign_into(
        ots,
        seed,
        ID,
        &RANDOMIZER,
        &MESSAGE,
        &mut signature[..length],
    );
    let mut first_value = [0; 32];
    first_value.copy_from_slice(&signature[36..68]);
    first_value
}

/// The candidate of the signature with another first value, which takes as many steps.
fn candidate_of(ots: OtsType, first_value: [u8; 32], signature: &mut [u8; 8516]) -> [u8; 32] {
    signature[36..68].copy_from_slice(&first_value);
    let length = ots.sig_len();
    candidate(ots, ID, &signature[..length], &MESSAGE).unwrap_or(first_value)
}
