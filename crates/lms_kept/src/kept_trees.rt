//! The trees that an index goes through, with nodes that were given.
ghost use Rattle.std.specs.Prelude.{ℕ, ◌≡◌, ◌+◌, ◌-◌, ◌<◌, ◌≤◌, ◌↔◌, [], ◌++◌, length, slice_index_or, vec_capacity, IsTrue, IfOk, IfSome, IfNone};
ghost use Rattle.std.specs.List.{flat_map};
ghost use Rattle.lms_spec.specs.Bytes.{u32str};
ghost use Rattle.lms_spec.specs.Hss.{capacity_of, HssAccepts, hss_signature_length};
ghost use Rattle.lms_spec.specs.Profile.{hss_public_key};
ghost use Rattle.lms_hss.specs.Keys.{hss_key_of};
ghost use Rattle.lms_hss.specs.Levels.{levels_of};
ghost use Rattle.lms_kept.specs.Signed.{IsSignedAlong};
ghost use Rattle.lms_kept.specs.Ways.{AreGenuine, ArePlanned, bottom_of, IsOnWay, IsWay, level_length, level_text, most_text_length, nodes_text, public_of, Serves, signed_keys as signed_keys_of, SignOwnKeys, SignsNoOther, Way};
ghost use Rattle.lms_kept.specs.declared.kept_level.KeptLevel.{KeptLevel as LevelKept};

use crate::kept_level::KeptLevel;
use crate::kept_text::{CHECK_LEN, HEADER_LEN, check_value, checked_rest, header};
use crate::levels::{leaves_from, level_len, shared_levels, signed_len};
use crate::planned_level::{PlannedLevel, planned_levels};
use crate::planned_trees::PlannedTrees;
use lms_hss::{HSS_KEY_LEN, HssKey, Progress, public_key_bytes, verify};
use lms_params::{HASH_LEN, OutOfMemory};
use lms_tree::{Begun, bottom_height};
use std::alloc::Global;
use std::marker::Model;
use std::thread::Threads;

/// For each level from the top, the tree that an index goes through, with the nodes that serve the
/// leaves of one of its bottom subtrees, and what the level above signed of it. Where they were
/// read, their check value was right; whether the nodes are is not known. An upper level signs the
/// public key of a tree only where that tree was computed. Contracts see the key, the index and all
/// that was given.
#[derive(Drop)]
pub struct KeptTrees {
    key: HssKey,
    at: u64,
    levels: Vec<KeptLevel>,
}

impl Model for KeptTrees {
    ghost use Rattle.lms_kept.specs.Ways.{IsWay, Way};

    ghost Value = { Way };

    ghost view = { λ a. record { key = a.key; at = a.at; levels = a.levels.items } };

    ghost invariant = { λ a. IsWay (record { key = a.key; at = a.at; levels = a.levels.items }) };
}

impl KeptTrees {
    /// Computes only the top tree, for the first index: a new key needs it for its public key. Its
    /// leaves are reported to `progress`. `OutOfMemory` where memory is refused, before any leaf is
    /// computed.
    pub fn top(
        rt: &(impl Threads + Sync),
        alloc: Global,
        key: HssKey,
        progress: &impl Progress,
    ) -> Result<Self, OutOfMemory>
        ensures key { IfOk result (λ trees. trees.key ≡ key) }
        ensures at { IfOk result (λ trees. trees.at ≡ 0) }
        ensures alone { IfOk result (λ trees. length trees.levels ≡ 1) }
        ensures way { IfOk result IsWay }
        ensures genuine { IfOk result AreGenuine }
    {
        let (lms, _) = key.levels.as_slice()[0];
        let mut levels = Vec::with_capacity(alloc, 1)?;
        let planned = PlannedLevel::new(alloc, &key, 0, 0)?;
        let begun = Begun::new(progress, 1 << lms.height());
        levels.push_reserved(KeptLevel::top(rt, planned, &begun));
        Ok(KeptTrees { key, at: 0, levels })
    }

    /// Computes the trees that an index goes through, level by level from the top. The leaves of
    /// all these trees are reported to `progress`. `OutOfMemory` where memory is refused, before
    /// any leaf is computed.
    pub fn compute(
        rt: &(impl Threads + Sync),
        alloc: Global,
        key: HssKey,
        at: u64,
        progress: &impl Progress,
    ) -> Result<Self, OutOfMemory>
        requires { at < capacity_of (hss_key_of key) }
        ensures key { IfOk result (λ trees. trees.key ≡ key) }
        ensures at { IfOk result (λ trees. trees.at ≡ at) }
        ensures serves { IfOk result (λ trees. Serves trees at) }
        ensures way { IfOk result IsWay }
        ensures genuine { IfOk result AreGenuine }
    {
        let planned = PlannedTrees::new(alloc, key, at)?;
        Ok(planned.compute(rt, progress))
    }

    /// Whether all levels are there and their nodes serve index g.
    pub fn serves(&self, g: u64) -> bool
        ensures { IsTrue result ↔ Serves self.now g }
    {
        let levels = self.key.levels.as_slice();
        let (lms, _) = levels[levels.len() - 1];
        let height = bottom_height(lms);
        self.levels.len() == levels.len() && g >> height == self.at >> height
    }

    /// Moves to the trees that index g goes through. The lowest tree held that index g goes through
    /// gets the nodes of the bottom subtree of g, if it has another one's, and all trees below it
    /// are computed. The public key of each of these is signed by the tree above it; what is signed
    /// of the others stays as it was given. The leaves that are computed are reported to
    /// `progress`. `None` where the root of that bottom subtree is not the node that was given for
    /// it; `OutOfMemory` where memory is refused, before any leaf is computed.
    pub fn moved_to(
        self,
        rt: &(impl Threads + Sync),
        alloc: Global,
        g: u64,
        progress: &impl Progress,
    ) -> Result<Option<Self>, OutOfMemory>
        requires { g < capacity_of (hss_key_of self.key) }
        ensures key { IfOk result (λ moved. IfSome moved (λ trees. trees.key ≡ self.key)) }
        ensures at { IfOk result (λ moved. IfSome moved (λ trees. trees.at ≡ g)) }
        ensures serves { IfOk result (λ moved. IfSome moved (λ trees. Serves trees g)) }
        ensures way { IfOk result (λ moved. IfSome moved IsWay) }
        ensures signs { IfOk result (λ moved. IfSome moved (SignsNoOther self)) }
        ensures genuine { IfOk result (λ moved.
            IfSome moved (λ trees. AreGenuine self → AreGenuine trees)) }
        ensures refused { IfOk result (λ moved. IfNone moved (¬ AreGenuine self)) }
    {
        let KeptTrees {
            key,
            at,
            mut levels,
        } = self;
        let shared = shared_levels(&key, at, g).min(levels.len());
        levels.truncate(shared);
        let Some(last) = levels.pop() else {
            unreachable!()
        };
        let leaf = key.leaf_of(g, shared - 1);
        levels.reserve(key.levels.as_slice().len() - levels.len())?;
        let below = planned_levels(alloc, &key, g, shared)?;
        let begun = Begun::new(progress, last.leaves_to(leaf) + leaves_from(&key, shared));
        let Some(last) = last.moved_to(rt, alloc, leaf, &begun)? else {
            return Ok(None);
        };
        levels.push_reserved(last);
        Ok(Some(KeptTrees::completed(rt, key, g, levels, below, &begun)))
    }

    /// The signature of a message by index g, which must be served, under the randomizer `c` (RFC
    /// 8554, 6.2), if it is accepted under the public key that `public` gives. It is put into
    /// `memory`, which is empty and has room for it. `None` if it is not accepted, which comes only
    /// where something given is wrong. In any case the one-time signature of the message is RFC
    /// 8554's. Each index must sign one message only, which is not checked here.
    pub fn sign(&self, memory: Vec<u8>, g: u64, c: &[u8; HASH_LEN], msg: &[u8]) -> Option<Vec<u8>>
        requires served { Serves self.now g }
        requires empty { memory.items ≡ [] }
        requires room { hss_signature_length (levels_of self.now.key.levels) ≤ vec_capacity memory }
        ensures signature { IfSome result (λ text. IsSignedAlong self.now g c.now msg.now text.items) }
        ensures checked { IfSome result (λ text. (other : LevelKept)
            → HssAccepts (public_of self.now other) msg.now text.items) }
        ensures refused { IfNone result (¬ AreGenuine self.now) }
    {
        let text = self.unverified(memory, g, c, msg);
        if verify(&self.public(), msg, &text) {
            Some(text)
        } else {
            None
        }
    }

    /// The public key over the node that was given for the root of the top tree (RFC 8554, 6.1).
    pub fn public(&self) -> [u8; HSS_KEY_LEN]
        ensures given { (other : LevelKept) → result ≡ public_of self.now other }
        ensures right { AreGenuine self.now → result ≡ hss_public_key (hss_key_of self.now.key) }
    {
        let levels = self.key.levels.as_slice().len();
        public_key_bytes(levels as u32, &self.level(0).tree.public_bytes())
    }

    /// The bytes of a file that keeps all of this, at most `MOST_TEXT_LEN`. `OutOfMemory` where
    /// memory for them is refused.
    pub fn text(&self, alloc: Global) -> Result<Vec<u8>, OutOfMemory>
        ensures text { IfOk result (λ text. text.items ≡ nodes_text self.now) }
        ensures at_most { IfOk result (λ text. length text.items ≤ most_text_length) }
    {
        let mut text = header(alloc, self.at, self.text_len())?;
        for level in &self.levels {
            level.write(&mut text)?;
        }
        let check = check_value(&self.key, &text);
        text.extend_from_slice(&check)?;
        Ok(text)
    }

    /// Reads what `text` gave for a key. `None` exactly where the bytes are not of that key: of
    /// another version or another key, too few, too many or changed. `OutOfMemory` where memory is
    /// refused.
    pub fn read(alloc: Global, key: HssKey, text: &[u8]) -> Result<Option<Self>, OutOfMemory>
        ensures key { IfOk result (λ read. IfSome read (λ trees. trees.key ≡ key)) }
        ensures way { IfOk result (λ read. IfSome read IsWay) }
        ensures text { IfOk result (λ read. IfSome read (λ trees. text.now ≡ nodes_text trees)) }
        ensures none { IfOk result (λ read.
            IfNone read ((way : Way) → IsWay way → way.key ≡ key → ¬ (text.now ≡ nodes_text way))) }
    {
        let capacity = key.capacity();
        let Some((at, rest)) = checked_rest(&key, text) else {
            return Ok(None);
        };
        if at >= capacity {
            return Ok(None);
        }
        let (levels, rest) = split_levels(alloc, &key, at, rest)?;
        if levels.is_empty() {
            return Ok(None);
        }
        if !rest.is_empty() {
            return Ok(None);
        }
        Ok(Some(KeptTrees { key, at, levels }))
    }

    /// Computes the planned levels, which must be those missing, each below the one above it. The
    /// list of levels must have room for all of the key's.
    pub(crate) fn completed(
        rt: &(impl Threads + Sync),
        key: HssKey,
        at: u64,
        levels: Vec<KeptLevel>,
        plans: Vec<PlannedLevel>,
        begun: &Begun<impl Progress>,
    ) -> Self
        requires way { IsWay (record { key = key; at = at; levels = levels.items }) }
        requires planned { ArePlanned (hss_key_of key) at (length levels.items) plans.items }
        requires room { length key.levels ≤ vec_capacity levels }
        ensures key { result.key ≡ key }
        ensures at { result.at ≡ at }
        ensures all { length result.levels ≡ length key.levels }
        ensures way { IsWay result }
        ensures same { (k : ℕ) (other : LevelKept) → k < length levels.items
            → slice_index_or result.levels k other ≡ slice_index_or levels.items k other }
        ensures signs { SignOwnKeys (hss_key_of key) at (length levels.items) result.levels }
        ensures genuine { AreGenuine (record { key = key; at = at; levels = levels.items })
            → AreGenuine result }
    {
        let mut levels = levels;
        let mut plans = plans;
        while let Some(planned) = plans.pop() {
            let above = levels.len() - 1;
            let child = levels[above].child(rt, key.leaf_of(at, above), planned, begun);
            levels.push_reserved(child);
        }
        KeptTrees { key, at, levels }
    }

    /// What `sign` gives if it is accepted, in `memory`.
    fn unverified(&self, memory: Vec<u8>, g: u64, c: &[u8; HASH_LEN], msg: &[u8]) -> Vec<u8>
        requires served { Serves self.now g }
        requires empty { memory.items ≡ [] }
        requires room { hss_signature_length (levels_of self.now.key.levels) ≤ vec_capacity memory }
        ensures { IsSignedAlong self.now g c.now msg.now result.items }
    {
        let bottom = self.key.levels.as_slice().len() - 1;
        let mut text = self.signed_keys(memory);
        self.level(bottom)
            .append_signature(self.key.leaf_of(g, bottom), c, msg, &mut text);
        text
    }

    /// What is before the signature of a message, in `memory`, which is empty and has room for it:
    /// how many public keys are signed, and what is signed of each level. Its room stays.
    fn signed_keys(&self, memory: Vec<u8>) -> Vec<u8>
        requires empty { memory.items ≡ [] }
        requires room { 4 + length (signed_keys_of self.now.levels) ≤ vec_capacity memory }
        ensures text { result.items
            ≡ u32str (bottom_of self.now.key) ++ signed_keys_of self.now.levels }
        ensures room { vec_capacity memory ≤ vec_capacity result }
    {
        let signed_keys = self.key.levels.as_slice().len() as u32 - 1;
        let mut text = memory;
        append(&signed_keys.to_be_bytes(), &mut text);
        for level in &self.levels {
            append(&level.signed, &mut text);
        }
        text
    }

    /// The length in bytes of what `text` gives.
    fn text_len(&self) -> usize
        ensures { result ≡ length (nodes_text self.now) }
    {
        let mut length = HEADER_LEN + CHECK_LEN;
        for k in 0..self.levels.len() {
            length += level_len(&self.key, k);
        }
        length
    }

    /// What was given for level k, which must be there.
    fn level(&self, k: usize) -> &KeptLevel
        requires { k < length self.now.levels }
        ensures level { result.now ≡ slice_index_or self.now.levels k result.now }
        ensures way { IsOnWay (hss_key_of self.now.key) self.now.at k result.now }
    {
        &self.levels[k]
    }
}

/// Appends bytes to a text, which must have room for them.
fn append(bytes: &[u8], text: &mut Vec<u8>)
    requires { length text.old.items + length bytes.now ≤ vec_capacity text.old }
    ensures text { text.new.items ≡ text.old.items ++ bytes.now }
    ensures room { vec_capacity text.old ≤ vec_capacity text.new }
{
    let Ok(()) = text.extend_from_slice(bytes) else {
        unreachable!()
    };
}

/// Reads as many levels of the trees that an index goes through as `text` has, from the top on. The
/// second part of the result is the rest.
fn split_levels<'a>(
    alloc: Global,
    key: &HssKey,
    at: u64,
    text: &'a [u8],
) -> Result<(Vec<KeptLevel>, &'a [u8]), OutOfMemory>
    requires { at < capacity_of (hss_key_of key.now) }
    ensures at_most { IfOk result (λ cut. length cut.0.items ≤ length key.now.levels) }
    ensures each { IfOk result (λ cut. (k : ℕ) (other : LevelKept) → k < length cut.0.items
        → IsOnWay (hss_key_of key.now) at k (slice_index_or cut.0.items k other)) }
    ensures text { IfOk result (λ cut. text.now ≡ flat_map level_text cut.0.items ++ cut.1.now) }
    ensures ends { IfOk result (λ cut. length cut.0.items < length key.now.levels
        → length cut.1.now < level_length (hss_key_of key.now) (length cut.0.items)) }
{
    let mut levels = Vec::new(alloc);
    let mut rest = text;
    for k in 0..key.levels.as_slice().len() {
        let tree = key.tree_key(at, k);
        match KeptLevel::split(alloc, tree, key.leaf_of(at, k), signed_len(key, k), rest)? {
            Some((level, after)) => {
                levels.push(level)?;
                rest = after;
            }
            None => return Ok((levels, rest)),
        }
    }
    Ok((levels, rest))
}
