//! A tree whose nodes were given, for example read from a file.
ghost use Rattle.std.specs.Prelude.{ℕ, ◌≡◌, ◌≢◌, ◌+◌, ◌-◌, ◌/◌, ◌^◌, ◌<◌, ◌↔◌, [], length, slice_index_or, IfOk, IfSome, IfNone, IsTrue};
ghost use Rattle.lms_spec.specs.Parameters.{greatest_height};
ghost use Rattle.lms_spec.specs.Tree.{node as node_of};
ghost use Rattle.lms_params.specs.LmsType.{lms_set_of};
ghost use Rattle.lms_tree.specs.TreeKey.{tree_of, public_text, signature_length_under, signature_text};
ghost use Rattle.lms_tree.specs.Held.{AreInTree, nodes_in};
ghost use Rattle.lms_tree.specs.Kept.{AreNodes, FillsRows, given_public, HasShape, IsSignatureAlong, kept_nodes_of, MovesTo, ServesLeaf, subtree_root, subtree_rows as subtree_rows_of, upper_height, upper_rows as upper_rows_of};

use crate::band::{Band, Rows, node_in};
use crate::band_tree::{bottom_height, upper_rows};
use crate::node_source::NodeSource;
use crate::progress::{Begun, Progress};
use crate::signing::{LMS_KEY_LEN, public_key_bytes, sign_into};
use crate::tree_key::TreeKey;
use lms_params::{HASH_LEN, LmsType, OutOfMemory};
use std::alloc::Global;
use std::marker::Model;
use std::thread::Threads;

/// Signs by the leaves of one bottom subtree. It has the nodes of that subtree, and those from the
/// root down to the roots of all bottom subtrees, as they were given. Whether they are the tree's
/// is not known. Contracts see the key, the number of the subtree and the nodes.
#[derive(Drop)]
pub struct KeptTree {
    pub(crate) key: TreeKey,
    pub(crate) subtree: u32,
    pub(crate) upper: Vec<[u8; HASH_LEN]>,
    pub(crate) lower: Vec<[u8; HASH_LEN]>,
}

impl Model for KeptTree {
    ghost use Rattle.lms_tree.specs.Kept.{KeptNodes, HasShape, kept_nodes_of};

    ghost Value = { KeptNodes };

    ghost view = { λ a. kept_nodes_of a.key a.subtree a.upper.items a.lower.items };

    ghost invariant = { λ a. HasShape (kept_nodes_of a.key a.subtree a.upper.items a.lower.items) };
}

impl KeptTree {
    /// Takes nodes of a tree, whatever their values: `upper` from the root down to the roots of the
    /// bottom subtrees, and `lower` of the bottom subtree with the number `subtree`, counted from
    /// 0; both row by row. `None` exactly where they are not as many as `counts` says.
    pub fn given(
        key: TreeKey,
        subtree: u32,
        upper: Vec<[u8; HASH_LEN]>,
        lower: Vec<[u8; HASH_LEN]>,
    ) -> Option<Self>
        requires { subtree < 2 ^ upper_height (tree_of key).lms.h }
        ensures some { IfSome result (λ tree.
            tree ≡ kept_nodes_of key subtree upper.items lower.items) }
        ensures shape { IfSome result HasShape }
        ensures none { IfNone result
            ((length upper.items ≡ nodes_in (upper_rows_of (tree_of key).lms.h))
            → ¬ (length lower.items ≡ nodes_in (subtree_rows_of (tree_of key).lms.h subtree))) }
    {
        if !fills(&upper, upper_rows(key.lms)) || !fills(&lower, subtree_rows(key.lms, subtree)) {
            return None;
        }
        Some(KeptTree {
            key,
            subtree,
            upper,
            lower,
        })
    }

    /// How many nodes a `KeptTree` has in its two lists: from the root down to the roots of the
    /// bottom subtrees, and in one bottom subtree.
    pub fn counts(lms: LmsType) -> (usize, usize)
        ensures upper { result.0 ≡ nodes_in (upper_rows_of (lms_set_of lms).h) }
        ensures lower { (n : ℕ) → result.1 ≡ nodes_in (subtree_rows_of (lms_set_of lms).h n) }
    {
        (upper_rows(lms).len(), subtree_rows(lms, 0).len())
    }

    /// The number of the bottom subtree whose leaves are served.
    pub fn subtree(&self) -> u32
        ensures { result ≡ self.now.subtree }
    {
        self.subtree
    }

    /// The nodes from the root down to the roots of the bottom subtrees, row by row.
    pub fn upper(&self) -> &[[u8; HASH_LEN]]
        ensures { result.now ≡ self.now.upper }
    {
        self.upper.as_slice()
    }

    /// The nodes of the bottom subtree whose leaves are served, row by row.
    pub fn lower(&self) -> &[[u8; HASH_LEN]]
        ensures { result.now ≡ self.now.lower }
    {
        self.lower.as_slice()
    }

    /// The public key over the node that was given for the root (RFC 8554, 5.3).
    pub fn public_bytes(&self) -> [u8; LMS_KEY_LEN]
        ensures given { result ≡ given_public self.now }
        ensures right { AreNodes self.now → result ≡ public_text self.now.key }
    {
        let root = self.upper.as_slice()[0];
        public_key_bytes(&self.key, &root)
    }

    /// Signs by the nodes given, as the function `sign_into` does. Leaf q must be served.
    pub fn sign_into(&self, q: u32, c: &[u8; HASH_LEN], msg: &[u8], out: &mut [u8])
        requires served { ServesLeaf self.now q }
        requires long { length out.old ≡ signature_length_under self.now.key }
        ensures along { IsSignatureAlong (tree_of self.now.key) q c.now msg.now out.new }
        ensures signature { AreNodes self.now
            → out.new ≡ signature_text self.now.key q c.now msg.now }
    {
        sign_into(self, q, c, msg, out);
    }

    /// Moves to another bottom subtree and computes its nodes: 2^10 leaves in a tree of height 10
    /// or more, reported to the `Progress` of `begun`. `None` where its root is not the node that
    /// was given for it. `OutOfMemory` where the one request for memory is refused, before anything
    /// is computed. In either case this tree is gone.
    pub fn moved_to(
        self,
        rt: &(impl Threads + Sync),
        alloc: Global,
        subtree: u32,
        begun: &Begun<impl Progress>,
    ) -> Result<Option<Self>, OutOfMemory>
        requires { subtree < 2 ^ upper_height (tree_of self.key).lms.h }
        ensures moved { IfOk result (λ moved. IfSome moved (MovesTo self subtree)) }
        ensures shape { IfOk result (λ moved. IfSome moved HasShape) }
        ensures refused { IfOk result (λ moved. IfNone moved (¬ AreNodes self)) }
    {
        let mut tree = self;
        let rows = subtree_rows(tree.key.lms, subtree);
        let memory = rows.allocate(alloc)?;
        let band = Band::build(rt, tree.key, rows, memory, None, begun);
        if !has_root(&tree.upper, subtree, &band) {
            return Ok(None);
        }
        tree.subtree = subtree;
        tree.lower = band.into_nodes();
        Ok(Some(tree))
    }
}

impl NodeSource for KeptTree {
    ghost use Rattle.lms_tree.specs.Kept.{AreNodes, first_served, last_served};

    ghost tree_key = { λ kept. kept.key };

    ghost first_leaf = { first_served };

    ghost last_leaf = { last_served };

    ghost are_nodes = { AreNodes };

    fn key(&self) -> TreeKey {
        self.key
    }

    fn first(&self) -> u32 {
        self.subtree << bottom_height(self.key.lms)
    }

    fn last(&self) -> u32 {
        self.first() + ((1 << bottom_height(self.key.lms)) - 1)
    }

    fn node(&self, r: u32) -> [u8; HASH_LEN] {
        let upper = upper_rows(self.key.lms);
        let level = r.ilog2();
        if level <= upper.depth {
            node_in(&self.upper, upper, level, r)
        } else {
            let lower = subtree_rows(self.key.lms, self.subtree);
            node_in(&self.lower, lower, level - upper.depth, r)
        }
    }
}

/// Whether there are as many nodes as these rows have.
fn fills(nodes: &[[u8; HASH_LEN]], rows: Rows) -> bool
    requires { AreInTree greatest_height rows }
    ensures filled { IsTrue result → FillsRows rows nodes.now }
    ensures not { ¬ IsTrue result → length nodes.now ≢ nodes_in rows }
{
    nodes.len() == rows.len()
}

/// The rows of a bottom subtree.
fn subtree_rows(lms: LmsType, subtree: u32) -> Rows
    requires { subtree < 2 ^ upper_height (lms_set_of lms).h }
    ensures { result ≡ subtree_rows_of (lms_set_of lms).h subtree }
{
    let height = bottom_height(lms);
    Rows {
        first: (1 << (lms.height() - height)) + subtree,
        width: 1,
        depth: height,
    }
}

/// Whether the node that was given for the root of a bottom subtree is the one that was computed.
fn has_root(upper: &[[u8; HASH_LEN]], subtree: u32, band: &Band) -> bool
    requires count { length upper.now ≡ nodes_in (upper_rows_of (tree_of band.now.key).lms.h) }
    requires in_tree { subtree < 2 ^ upper_height (tree_of band.now.key).lms.h }
    requires rows { band.now.rows ≡ subtree_rows_of (tree_of band.now.key).lms.h subtree }
    ensures { IsTrue result
        ↔ (slice_index_or upper.now (2 ^ upper_height (tree_of band.now.key).lms.h - 1 + subtree) []
        ≡ node_of (tree_of band.now.key) (subtree_root (tree_of band.now.key).lms.h subtree)) }
{
    upper[upper.len() / 2 + subtree as usize] == band.node(0, band.rows().first)
}
