//! A tree of a hierarchy, with what the levels above it sign.
ghost use Rattle.std.specs.Prelude.{ℕ, ◌≡◌, ◌+◌, ◌≤◌, ◌++◌, length, IfOk};
ghost use Rattle.lms_spec.specs.Parameters.{lms_public_key_length};
ghost use Rattle.lms_spec.specs.Tree.{lms_signature};
ghost use Rattle.lms_spec.specs.Hss.{level};
ghost use Rattle.lms_spec.specs.Profile.{hss_public_key, leaf_at, tree_at};
ghost use Rattle.lms_tree.specs.TreeKey.{tree_of, signature_length_under};
ghost use Rattle.lms_hss.specs.Keys.{hss_key_of};
ghost use Rattle.lms_hss.specs.Forests.{AreLeaves, IsChild, IsMovedTree, IsSignedTree};
ghost use Rattle.lms_hss.specs.Levels.{level_of};

use crate::child_key::{child_key, randomizer};
use crate::key::{HSS_KEY_LEN, HssKey, Leaves};
use lms_params::{HASH_LEN, LmsType, OtsType, OutOfMemory, lms_sig_len};
use lms_tree::{BandTree, Begun, LMS_KEY_LEN, NodeSource, Progress, public_bytes, sign_into};
use std::alloc::Global;
use std::thread::Threads;

/// A tree that serves some of its leaves, and the bytes that all HSS signatures by these begin
/// with: the number of signed public keys, and those of the levels from the top to its own (RFC
/// 8554, 6.2).
#[derive(Drop)]
pub(crate) struct SignedTree {
    tree: BandTree,
    head: Vec<u8>,
}

impl SignedTree {
    /// Computes the tree of level 0, which no level signs, to serve these leaves. `OutOfMemory`
    /// where memory is refused.
    pub(crate) fn top(
        rt: &(impl Threads + Sync),
        alloc: Global,
        key: &HssKey,
        leaves: Leaves,
        begun: &Begun<impl Progress>,
    ) -> Result<Self, OutOfMemory>
        requires { AreLeaves (level (hss_key_of key.now) 0).lms.h leaves }
        ensures { IfOk result (λ tree.
            (g : ℕ) → leaves.first ≤ leaf_at (hss_key_of key.now) g 0
            → leaf_at (hss_key_of key.now) g 0 ≤ leaves.last
            → IsSignedTree (hss_key_of key.now) g 0 tree) }
    {
        let signed_keys = key.levels.as_slice().len() as u32 - 1;
        let head = Vec::from_slice(alloc, &signed_keys.to_be_bytes())?;
        let tree = BandTree::build_watched(
            rt,
            alloc,
            key.top_tree(),
            leaves.first,
            leaves.last,
            begun,
        )?;
        Ok(SignedTree { tree, head })
    }

    /// Computes the tree of these sets below leaf q, to serve `leaves`. Leaf q signs its public
    /// key, and must be among the leaves that this tree serves. `OutOfMemory` where memory is
    /// refused: all is requested before the new tree is computed.
    pub(crate) fn child(
        &self,
        rt: &(impl Threads + Sync),
        alloc: Global,
        q: u32,
        sets: (LmsType, OtsType),
        leaves: Leaves,
        begun: &Begun<impl Progress>,
    ) -> Result<Self, OutOfMemory>
        requires from { self.now.tree.first ≤ q }
        requires to { q ≤ self.now.tree.last }
        requires leaves { AreLeaves (level_of sets).lms.h leaves }
        ensures { IfOk result (IsChild self.now q sets leaves) }
    {
        let key = self.tree.key();
        let signed = self.head.len() + lms_sig_len(key.lms, key.ots);
        let mut head = vec![in alloc; 0; signed + LMS_KEY_LEN]?;
        let tree = BandTree::build_watched(
            rt,
            alloc,
            child_key(&key, q, sets),
            leaves.first,
            leaves.last,
            begun,
        )?;
        self.sign_key_into(q, &randomizer(&key, q), &public_bytes(&tree), &mut head);
        Ok(SignedTree { tree, head })
    }

    /// The same tree, which serves these leaves from now on. It computes the leaves that
    /// `BandTree::moved_to` does. `OutOfMemory` where memory is refused; the tree is dropped then.
    pub(crate) fn moved_to(
        self,
        rt: &(impl Threads + Sync),
        alloc: Global,
        leaves: Leaves,
        begun: &Begun<impl Progress>,
    ) -> Result<Self, OutOfMemory>
        requires { AreLeaves (tree_of self.tree.key).lms.h leaves }
        ensures { IfOk result (IsMovedTree self leaves) }
    {
        let SignedTree { tree, head } = self;
        let tree = tree.moved_to(rt, alloc, leaves.first, leaves.last, begun)?;
        Ok(SignedTree { tree, head })
    }

    /// How many leaves `moved_to` does not compute, of all that the tree has.
    pub(crate) fn leaves_spared(&self, leaves: Leaves) -> u64 {
        let all = 1u64 << self.tree.key().lms.height();
        all.saturating_sub(self.tree.leaves_to(leaves.first, leaves.last))
    }

    /// The public key of `key`, whose tree of level 0 this must be.
    pub(crate) fn public_key(&self, key: &HssKey) -> [u8; HSS_KEY_LEN]
        requires { tree_of self.now.tree.key ≡ tree_at (hss_key_of key.now) 0 0 }
        ensures { result ≡ hss_public_key (hss_key_of key.now) }
    {
        key.public_key_over(&self.tree)
    }

    /// The head and the LMS signature of a message by leaf q, which must be served, under the
    /// randomizer `c`. `OutOfMemory` where memory for them is refused.
    pub(crate) fn sign(
        &self,
        alloc: Global,
        q: u32,
        c: &[u8; HASH_LEN],
        msg: &[u8],
    ) -> Result<Vec<u8>, OutOfMemory>
        requires from { self.now.tree.first ≤ q }
        requires to { q ≤ self.now.tree.last }
        ensures { IfOk result (λ text.
            text.items ≡ self.now.head.items
            ++ lms_signature (tree_of self.now.tree.key) q c.now msg.now) }
    {
        let key = self.tree.key();
        let mut text = vec![in alloc; 0; self.head.len() + lms_sig_len(key.lms, key.ots)]?;
        self.sign_into(q, c, msg, &mut text);
        Ok(text)
    }

    /// Fills `out`, which must have just their length, with the head, the LMS signature of a public
    /// key by leaf q under the randomizer `c`, and that key. Leaf q must be served.
    fn sign_key_into(&self, q: u32, c: &[u8; HASH_LEN], public: &[u8; LMS_KEY_LEN], out: &mut [u8])
        requires from { self.now.tree.first ≤ q }
        requires to { q ≤ self.now.tree.last }
        requires long { length out.old
            ≡ length self.now.head.items + signature_length_under self.now.tree.key
            + lms_public_key_length }
        ensures { out.new ≡ self.now.head.items
            ++ lms_signature (tree_of self.now.tree.key) q c.now public.now ++ public.now }
    {
        let signed = out.len() - LMS_KEY_LEN;
        self.sign_into(q, c, public, &mut out[..signed]);
        out[signed..].copy_from_slice(public);
    }

    /// Fills `out`, which must have just their length, with the head and the LMS signature of a
    /// message by leaf q under the randomizer `c`. Leaf q must be served.
    fn sign_into(&self, q: u32, c: &[u8; HASH_LEN], msg: &[u8], out: &mut [u8])
        requires from { self.now.tree.first ≤ q }
        requires to { q ≤ self.now.tree.last }
        requires long { length out.old
            ≡ length self.now.head.items + signature_length_under self.now.tree.key }
        ensures { out.new ≡ self.now.head.items
            ++ lms_signature (tree_of self.now.tree.key) q c.now msg.now }
    {
        let start = self.head.len();
        out[..start].copy_from_slice(&self.head);
        sign_into(&self.tree, q, c, msg, &mut out[start..]);
    }
}
