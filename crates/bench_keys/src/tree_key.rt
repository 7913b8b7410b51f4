//! The keys of the trees that are built.
ghost use Rattle.std.specs.Prelude.{◌≡◌};

use bench_base::ID;
use lms_ots::OtsId;
use lms_params::{LmsType, OtsType};
use lms_tree::TreeKey;

/// The key of a tree.
pub fn tree_key(lms: LmsType, ots: OtsType, seed: [u8; 32]) -> TreeKey
    ensures lms { result.lms ≡ lms }
    ensures ots { result.ots ≡ ots }
    ensures seed { result.seed ≡ seed }
{
    let OtsId { i, q: _ } = ID;
    TreeKey { lms, ots, i, seed }
}
