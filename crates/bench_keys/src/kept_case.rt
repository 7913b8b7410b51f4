//! Signing by the bytes of kept nodes, timed in one thread.
ghost use Rattle.std.specs.Prelude.{◌≡◌};

use crate::case::Timed;
use crate::hss_case::{COVERED, count};
use bench_base::{Fault, Hierarchy, MESSAGE, RANDOMIZER, reading_compressions};
use lms_hss::{HssKey, Unwatched};
use lms_kept::KeptTrees;
use lms_params::{LmsType, OtsType};
use std::alloc::Global;
use std::thread::Threads;

/// The key of each case and its name, in the order in which they are printed.
pub const KEPT_CASES: [(&str, Hierarchy); 2] = [
    ("KeptTrees::sign 10/8,10/8", COVERED),
    (
        "KeptTrees::sign 15/4",
        Hierarchy(&[(LmsType::H15, OtsType::W4)]),
    ),
];

/// The index that signs. The bytes are those of the index before it, whose bottom subtree is the
/// same.
const INDEX: u64 = 1;

/// The levels of a key with the nodes of its first index, as bytes, and the signature by the next.
#[derive(Drop)]
pub struct KeptBench {
    hierarchy: Hierarchy,
    text: Vec<u8>,
    signature: Vec<u8>,
    alloc: Global,
}

impl KeptBench {
    pub fn new(
        rt: &(impl Threads + Sync),
        alloc: Global,
        hierarchy: Hierarchy,
    ) -> Result<Self, Fault> {
        let key = hierarchy.key()?;
        let trees = KeptTrees::compute(rt, alloc, key, INDEX - 1, &Unwatched)?;
        let text = trees.text(alloc)?;
        let signature = signature(alloc, &key, &trees)?;
        Ok(KeptBench {
            hierarchy,
            text,
            signature,
            alloc,
        })
    }

    /// The compressions that it needs: those of reading the bytes, of the message's signature and
    /// of its verification.
    pub fn compressions(&self) -> Result<u64, Fault> {
        let counts = count(self.hierarchy, &self.signature)?;
        let reading = reading_compressions(&self.hierarchy.key()?, &self.text);
        let signing = counts.signature.saturating_add(counts.verification);
        Ok(reading.saturating_add(signing))
    }

    /// Reads the nodes, signs by them and looks at the signature, so that no run can be left out.
    fn sign(&self) -> Result<(), Fault> {
        let key = self.hierarchy.key()?;
        let Some(trees) = KeptTrees::read(self.alloc, key, &self.text)? else {
            return Err(Fault::Result);
        };
        if signature(self.alloc, &key, &trees)? == self.signature {
            Ok(())
        } else {
            Err(Fault::Result)
        }
    }
}

impl Timed for KeptBench {
    fn repeat(&mut self, runs: u64) -> Result<(), Fault> {
        for _ in 0..runs {
            self.sign()?;
        }
        Ok(())
    }
}

/// A signature that is accepted.
fn signature(alloc: Global, key: &HssKey, trees: &KeptTrees) -> Result<Vec<u8>, Fault>
    requires { trees.now.key ≡ key.now }
{
    if !trees.serves(INDEX) {
        return Err(Fault::Result);
    }
    let Ok(memory) = Vec::with_capacity(alloc, key.sig_len()) else {
        return Err(Fault::OutOfMemory);
    };
    Ok(
        trees
            .sign(memory, INDEX, &RANDOMIZER, &MESSAGE)
            .ok_or(Fault::Verdict)?,
    )
}
