//! A tree of a hierarchy with nodes that were given, and what is signed of it.
ghost use Rattle.std.specs.Prelude.{ℕ, ◌≡◌, ◌+◌, ◌-◌, ◌*◌, ◌^◌, ◌<◌, ◌≤◌, ◌++◌, List, length, vec_capacity, IfOk, OnOk, IfSome, IfNone};
ghost use Rattle.std.specs.List.{flat_map};
ghost use Rattle.lms_spec.specs.Parameters.{lms_public_key_length};
ghost use Rattle.lms_spec.specs.Tree.{lms_signature};
ghost use Rattle.lms_tree.specs.Bands.{bottom_height as bottom_height_of, tallest_subtree};
ghost use Rattle.lms_tree.specs.Held.{nodes_in};
ghost use Rattle.lms_tree.specs.Kept.{AreNodes, HasShape, IsSignatureAlong, ServesLeaf, subtree_rows, upper_rows};
ghost use Rattle.lms_tree.specs.TreeKey.{tree_of, signature_length_under};
ghost use Rattle.lms_kept.specs.Ways.{IsKeptChild, IsMoved, level_text};

use crate::planned_level::PlannedLevel;
use lms_hss::{LMS_KEY_LEN, randomizer};
use lms_params::{HASH_LEN, OutOfMemory, lms_sig_len};
use lms_tree::{Begun, KeptTree, NodeSource, PlannedTree, Progress, TreeKey, bottom_height};
use std::alloc::Global;
use std::thread::Threads;

/// A tree that serves the leaves of one of its bottom subtrees, with nodes that were given.
/// `signed` was given, too: the signature of the tree's public key by the tree above, and that key.
/// It is empty for a top tree.
#[derive(Drop)]
pub(crate) struct KeptLevel {
    pub(crate) tree: KeptTree,
    pub(crate) signed: Vec<u8>,
}

impl KeptLevel {
    /// Computes the planned tree of the top level, which no level signs.
    pub(crate) fn top(
        rt: &(impl Threads + Sync),
        planned: PlannedLevel,
        begun: &Begun<impl Progress>,
    ) -> Self
        requires one_leaf { planned.tree.first ≡ planned.tree.last }
        ensures key { result.tree.key ≡ planned.tree.key }
        ensures served { ServesLeaf result.tree planned.tree.first }
        ensures shape { HasShape result.tree }
        ensures nodes { AreNodes result.tree }
        ensures signed { result.signed ≡ planned.signed }
    {
        let PlannedLevel { tree, signed } = planned;
        let tree = computed(rt, tree, begun);
        KeptLevel { tree, signed }
    }

    /// Computes the planned tree below leaf q, which must be served and signs its public key. The
    /// path in that signature is right where the nodes of this level are.
    pub(crate) fn child(
        &self,
        rt: &(impl Threads + Sync),
        q: u32,
        planned: PlannedLevel,
        begun: &Begun<impl Progress>,
    ) -> Self
        requires served { ServesLeaf self.now.tree q }
        requires one_leaf { planned.tree.first ≡ planned.tree.last }
        requires long { length planned.signed.items
            ≡ signature_length_under self.now.tree.key + lms_public_key_length }
        ensures { IsKeptChild self.now q planned.tree.key planned.tree.first result }
    {
        let PlannedLevel { tree, mut signed } = planned;
        let above = self.tree.key();
        let tree = computed(rt, tree, begun);
        self.sign_key_into(q, &randomizer(&above, q), &tree.public_bytes(), &mut signed);
        KeptLevel { tree, signed }
    }

    /// Moves on to serve leaf q of its tree. `None` where the root of the bottom subtree there is
    /// computed and is not the node that was given for it. `OutOfMemory` where memory for that
    /// subtree is refused.
    pub(crate) fn moved_to(
        self,
        rt: &(impl Threads + Sync),
        alloc: Global,
        q: u32,
        begun: &Begun<impl Progress>,
    ) -> Result<Option<Self>, OutOfMemory>
        requires leaf { q < 2 ^ (tree_of self.tree.key).lms.h }
        requires shape { HasShape self.tree }
        ensures moved { IfOk result (λ moved. IfSome moved (IsMoved self q)) }
        ensures refused { IfOk result (λ moved. IfNone moved (¬ AreNodes self.tree)) }
    {
        let KeptLevel { tree, signed } = self;
        let subtree = q >> bottom_height(tree.key().lms);
        if tree.subtree() == subtree {
            return Ok(Some(KeptLevel { tree, signed }));
        }
        match tree.moved_to(rt, alloc, subtree, begun)? {
            Some(tree) => Ok(Some(KeptLevel { tree, signed })),
            None => Ok(None),
        }
    }

    /// How many leaves a move to leaf q computes.
    pub(crate) fn leaves_to(&self, q: u32) -> u64
        ensures served { ServesLeaf self.now.tree q → result ≡ 0 }
        ensures limit { result ≤ 2 ^ tallest_subtree }
        ensures other { ¬ ServesLeaf self.now.tree q
            → result ≡ 2 ^ bottom_height_of (tree_of self.now.tree.key).lms.h }
    {
        let height = bottom_height(self.tree.key().lms);
        if self.tree.subtree() == q >> height {
            0
        } else {
            1 << height
        }
    }

    /// Appends what is signed of its tree, and its nodes. `OutOfMemory` where memory for them is
    /// refused.
    pub(crate) fn write(&self, text: &mut Vec<u8>) -> Result<(), OutOfMemory>
        ensures { OnOk result (text.new.items ≡ text.old.items ++ level_text self.now) }
    {
        text.extend_from_slice(&self.signed)?;
        text.extend_from_slice(self.tree.upper().as_flattened())?;
        text.extend_from_slice(self.tree.lower().as_flattened())?;
        Ok(())
    }

    /// Reads a level that serves leaf q of a tree, whose signed public key (6.2) has `signed`
    /// bytes, from the front of `text`. The second part of the result is the rest. `None` where
    /// `text` is too short. `OutOfMemory` where memory for the level is refused.
    pub(crate) fn split<'a>(
        alloc: Global,
        key: TreeKey,
        q: u32,
        signed: usize,
        text: &'a [u8],
    ) -> Result<Option<(Self, &'a [u8])>, OutOfMemory>
        requires { q < 2 ^ (tree_of key).lms.h }
        ensures key { IfOk result (λ split. IfSome split (λ s. s.0.tree.key ≡ key)) }
        ensures served { IfOk result (λ split. IfSome split (λ s. ServesLeaf s.0.tree q)) }
        ensures shape { IfOk result (λ split. IfSome split (λ s. HasShape s.0.tree)) }
        ensures signed { IfOk result (λ split.
            IfSome split (λ s. length s.0.signed.items ≡ signed)) }
        ensures text { IfOk result (λ split.
            IfSome split (λ s. text.now ≡ level_text s.0 ++ s.1.now)) }
        ensures none { IfOk result (λ split. IfNone split (length text.now
            < signed + 32 * (nodes_in (upper_rows (tree_of key).lms.h)
            + nodes_in (subtree_rows (tree_of key).lms.h 0)))) }
    {
        let (in_upper, in_lower) = KeptTree::counts(key.lms);
        let Some((signed, rest)) = text.split_at_checked(signed) else {
            return Ok(None);
        };
        let Some((upper, rest)) = split_nodes(rest, in_upper) else {
            return Ok(None);
        };
        let Some((lower, rest)) = split_nodes(rest, in_lower) else {
            return Ok(None);
        };
        let signed = Vec::from_slice(alloc, signed)?;
        let upper = Vec::from_slice(alloc, upper)?;
        let lower = Vec::from_slice(alloc, lower)?;
        match KeptTree::given(key, q >> bottom_height(key.lms), upper, lower) {
            Some(tree) => Ok(Some((KeptLevel { tree, signed }, rest))),
            None => unreachable!(),
        }
    }

    /// Appends the LMS signature of a message by leaf q, which must be served, under the randomizer
    /// `c`, to a text that must have room for it. The path in it is right where the nodes are.
    pub(crate) fn append_signature(
        &self,
        q: u32,
        c: &[u8; HASH_LEN],
        msg: &[u8],
        text: &mut Vec<u8>,
    )
        requires served { ServesLeaf self.now.tree q }
        requires room { length text.old.items + signature_length_under self.now.tree.key
            ≤ vec_capacity text.old }
        ensures { (signature : List ℕ) × (text.new.items ≡ text.old.items ++ signature)
            × IsSignatureAlong (tree_of self.now.tree.key) q c.now msg.now signature
            × (AreNodes self.now.tree
            → signature ≡ lms_signature (tree_of self.now.tree.key) q c.now msg.now) }
    {
        let key = self.tree.key();
        let start = text.len();
        let Ok(()) = text.resize(start + lms_sig_len(key.lms, key.ots), 0) else {
            unreachable!()
        };
        self.tree.sign_into(q, c, msg, &mut text[start..]);
    }

    /// Fills `out`, which must have just their length, with the LMS signature of a public key by
    /// leaf q under the randomizer `c`, and that key. Leaf q must be served. The path in the
    /// signature is right where the nodes are.
    fn sign_key_into(&self, q: u32, c: &[u8; HASH_LEN], public: &[u8; LMS_KEY_LEN], out: &mut [u8])
        requires served { ServesLeaf self.now.tree q }
        requires long { length out.old
            ≡ signature_length_under self.now.tree.key + lms_public_key_length }
        ensures { (signature : List ℕ) × (out.new ≡ signature ++ public.now)
            × IsSignatureAlong (tree_of self.now.tree.key) q c.now public.now signature
            × (AreNodes self.now.tree
            → signature ≡ lms_signature (tree_of self.now.tree.key) q c.now public.now) }
    {
        let signed = out.len() - LMS_KEY_LEN;
        self.tree.sign_into(q, c, public, &mut out[..signed]);
        out[signed..].copy_from_slice(public);
    }
}

/// Computes the nodes of a planned tree that is to serve one leaf.
fn computed(
    rt: &(impl Threads + Sync),
    planned: PlannedTree,
    begun: &Begun<impl Progress>,
) -> KeptTree
    requires { planned.first ≡ planned.last }
    ensures key { result.key ≡ planned.key }
    ensures served { ServesLeaf result planned.first }
    ensures shape { HasShape result }
    ensures nodes { AreNodes result }
{
    planned.build(rt, begun).into_kept()
}

/// Cuts so many values of 32 bytes off the front of `text`. The second part of the result is the
/// rest. `None` where `text` is too short.
fn split_nodes(text: &[u8], count: usize) -> Option<(&[[u8; HASH_LEN]], &[u8])>
    ensures some { IfSome result (λ r. text.now ≡ flat_map (λ x. x) r.0.now ++ r.1.now) }
    ensures count { IfSome result (λ r. length r.0.now ≡ count) }
    ensures rest { IfSome result (λ r. length r.1.now + 32 * count ≡ length text.now) }
    ensures none { IfNone result (length text.now < 32 * count) }
{
    let length = count.checked_mul(HASH_LEN)?;
    let (nodes, rest) = text.split_at_checked(length)?;
    let (nodes, _) = nodes.as_chunks::<HASH_LEN>();
    Some((nodes, rest))
}
