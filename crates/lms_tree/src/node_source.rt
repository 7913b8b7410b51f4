//! Where the nodes for public keys and signatures come from.
ghost use Rattle.std.specs.Prelude.{ℕ, ◌≡◌, ◌^◌, ◌<◌, ⊤};
ghost use Rattle.lms_spec.specs.Tree.{node as node_of};
ghost use Rattle.lms_tree.specs.declared.tree_key.TreeKey.{TreeKey as KeyOfTree};
ghost use Rattle.lms_tree.specs.TreeKey.{tree_of};
ghost use Rattle.lms_tree.specs.Served.{IsNeeded};

use crate::tree_key::TreeKey;
use lms_params::HASH_LEN;

/// The nodes of a tree that its public key and the signatures by a range of its leaves, the leaves
/// served, need.
pub trait NodeSource {
    // The key of the tree, the first and the last leaf that are served, and, as `are_nodes`, that
    // the nodes are the tree's, which nobody knows of nodes that were given.
    ghost tree_key: { Self → KeyOfTree };

    ghost first_leaf: { Self → ℕ };

    ghost last_leaf: { Self → ℕ };

    ghost are_nodes: { Self → Type 0 } = { λ _. ⊤ };

    /// The key of the tree. The leaves that are served are leaves of it.
    fn key(&self) -> TreeKey
        ensures key { result ≡ tree_key self.now }
        ensures in_tree { last_leaf self.now < 2 ^ (tree_of (tree_key self.now)).lms.h };

    /// The first leaf that is served.
    fn first(&self) -> u32
        ensures { result ≡ first_leaf self.now };

    /// The last leaf that is served.
    fn last(&self) -> u32
        ensures { result ≡ last_leaf self.now };

    /// The value of node r (RFC 8554, 5.3), where the nodes are the tree's, else any value. Node r
    /// must be the root, 1, or in the path of a leaf served.
    fn node(&self, r: u32) -> [u8; HASH_LEN]
        requires { IsNeeded (tree_of (tree_key self.now)).lms.h (first_leaf self.now)
            (last_leaf self.now) r }
        ensures { are_nodes self.now → result ≡ node_of (tree_of (tree_key self.now)) r };
}
