//! What two indices of a key share, and how much is kept of each level.
ghost use Rattle.std.specs.Prelude.{ℕ, ◌≡◌, ◌≢◌, ◌+◌, ◌^◌, ◌<◌, ◌≤◌, length, drop, sum_by};
ghost use Rattle.lms_spec.specs.Hss.{capacity_of, most_levels};
ghost use Rattle.lms_hss.specs.Keys.{hss_key_of, tree_number};
ghost use Rattle.lms_hss.specs.Levels.{levels_of};
ghost use Rattle.lms_kept.specs.Ways.{leaves_of, level_length, signed_length};

use lms_hss::{HssKey, LMS_KEY_LEN};
use lms_params::{HASH_LEN, LmsType, OtsType, lms_sig_len};
use lms_tree::KeptTree;

/// For how many levels, from the top on, two indices go through the same tree.
pub(crate) fn shared_levels(key: &HssKey, g: u64, h: u64) -> usize
    requires g { g < capacity_of (hss_key_of key.now) }
    requires h { h < capacity_of (hss_key_of key.now) }
    ensures some { 1 ≤ result }
    ensures at_most { result ≤ length key.now.levels }
    ensures same { (k : ℕ) → k < result
        → tree_number (hss_key_of key.now) g k ≡ tree_number (hss_key_of key.now) h k }
    ensures most { result < length key.now.levels
        → tree_number (hss_key_of key.now) g result ≢ tree_number (hss_key_of key.now) h result }
{
    for k in 1..key.levels.as_slice().len() {
        if key.tree_number(g, k) != key.tree_number(h, k) {
            return k;
        }
    }
    key.levels.as_slice().len()
}

/// How many leaves a tree of each level from level k on has, added up.
pub(crate) fn leaves_from(key: &HssKey, k: usize) -> u64
    requires { k ≤ length key.now.levels }
    ensures leaves { result ≡ sum_by leaves_of (drop k (hss_key_of key.now).levels) }
    ensures limit { result ≤ 2 ^ 28 }
{
    leaves_of_levels(&key.levels.as_slice()[k..])
}

/// How many leaves a tree of each of these levels has, added up.
fn leaves_of_levels(levels: &[(LmsType, OtsType)]) -> u64
    requires { length levels.now ≤ most_levels }
    ensures leaves { result ≡ sum_by leaves_of (levels_of levels.now) }
    ensures limit { result ≤ 2 ^ 28 }
{
    let mut leaves = 0;
    for (lms, _) in levels {
        leaves += 1 << lms.height();
    }
    leaves
}

/// The length of what is signed of level k: the signature of its public key, and that key (RFC
/// 8554, 6.2). 0 for the top level.
pub(crate) fn signed_len(key: &HssKey, k: usize) -> usize
    requires { k < length key.now.levels }
    ensures { result ≡ signed_length (hss_key_of key.now) k }
{
    if k == 0 {
        return 0;
    }
    let (lms, ots) = key.levels.as_slice()[k - 1];
    lms_sig_len(lms, ots) + LMS_KEY_LEN
}

/// The length of what is kept of level k.
pub(crate) fn level_len(key: &HssKey, k: usize) -> usize
    requires { k < length key.now.levels }
    ensures length { result ≡ level_length (hss_key_of key.now) k }
    ensures limit { result ≤ 2 ^ 22 }
{
    let (lms, _) = key.levels.as_slice()[k];
    let (upper, lower) = KeptTree::counts(lms);
    signed_len(key, k) + HASH_LEN * (upper + lower)
}
