//! The hashes of nodes.
use crate::tests::{key_of, slow_node};
use lms_ots::{OtsId, public_hash};
use lms_params::{LmsType, OtsType};
use lms_verification::{inner_hash, leaf_count, leaf_hash};

#[test]
fn hashes_nodes(rt: HostRuntime) {
    let key = key_of(LmsType::H5, OtsType::W8);
    assert!(rt; leaf_count(LmsType::H5) == 32 && leaf_count(LmsType::H25) == 33_554_432);
    for (r, left, right) in [(1, 2, 3), (2, 4, 5), (31, 62, 63)] {
        let value = inner_hash(&key.i, r, &slow_node(key, left), &slow_node(key, right));
        assert!(rt; value == slow_node(key, r), "{r}");
    }
    for (q, r) in [(0, 32), (31, 63)] {
        let ots_public = public_hash(key.ots, &key.seed, OtsId { i: key.i, q });
        assert!(rt;
            leaf_hash(&key.i, r, &ots_public) == slow_node(key, r),
            "{q}"
        );
    }
}
