//! A message signed by kept nodes, or by trees that are computed.
ghost use Rattle.std.specs.Prelude.{ℕ, ◌≡◌, ◌<◌, List, IfNone, IfOk, IfSome, Option, Some, option_map};
ghost use Rattle.lms_spec.specs.Hss.{capacity_of};
ghost use Rattle.lms_hss.specs.Keys.{hss_key_of};
ghost use Rattle.lms_kept.specs.Signed.{AreTreesOf, IsNotRight, IsSignedByText};

use crate::kept_trees::KeptTrees;
use crate::planned_trees::PlannedSignature;
use lms_book::Lease;
use lms_hss::{HssKey, Progress};
use lms_params::{HASH_LEN, OutOfMemory};
use std::alloc::Global;
use std::thread::Threads;

/// An HSS signature, and its index. `trees` are those that made it, where the bytes that were given
/// do not serve its index: they are to be kept instead.
#[derive(Drop)]
pub struct KeptSignature {
    pub index: u64,
    pub signature: Vec<u8>,
    pub trees: Option<KeptTrees>,
}

/// Signs a message by the index of a lease of one, under the randomizer `c` (RFC 8554, 6.2), and
/// spends the lease. It signs by the nodes in `text`, if these are bytes of the key and the
/// signature is accepted under the root in them. Else, or without `text`, it signs by trees that
/// are computed. The leaves that are computed are reported to `progress`, and reported anew where
/// the nodes in `text` turn out to be wrong.
///
/// Whatever `text` has, the one-time signature of the message is RFC 8554's, and no one-time key of
/// an upper level signs what came from there. `OutOfMemory` where memory is refused, also for the
/// nodes of `text`: the index stays used. All memory is asked for before any leaf is computed.
/// Where the nodes in `text` turn out to be wrong it is asked for again, perhaps after leaves.
pub fn sign_lease(
    rt: &(impl Threads + Sync),
    alloc: Global,
    lease: Lease,
    c: &[u8; HASH_LEN],
    msg: &[u8],
    text: Option<&[u8]>,
    progress: &impl Progress,
) -> Result<KeptSignature, OutOfMemory>
    requires { lease.len ≡ 1 }
    ensures index { IfOk result (λ s. s.index ≡ lease.start) }
    ensures signature { IfOk result (λ s.
        IsSignedByText (option_map (λ text. text.now) text.entry) lease.key s.index
        c.now msg.now s.signature.items s.trees) }
{
    let (key, index) = (lease.key(), lease.start());
    let signed = sign_index(rt, alloc, key, index, c, msg, text, progress);
    lease.end();
    signed
}

/// Signs a message by an index of a key: by the nodes in `text`, or, where there are none or
/// `sign_kept` gives `None`, by trees that are computed. `OutOfMemory` where memory is refused.
fn sign_index(
    rt: &(impl Threads + Sync),
    alloc: Global,
    key: HssKey,
    index: u64,
    c: &[u8; HASH_LEN],
    msg: &[u8],
    text: Option<&[u8]>,
    progress: &impl Progress,
) -> Result<KeptSignature, OutOfMemory>
    requires { index < capacity_of (hss_key_of key) }
    ensures index { IfOk result (λ s. s.index ≡ index) }
    ensures signature { IfOk result (λ s.
        IsSignedByText
        (option_map (λ text. text.now) text.entry) key index c.now msg.now s.signature.items
        s.trees) }
{
    let Some(text) = text else {
        return sign_computed(rt, alloc, key, index, c, msg, progress);
    };
    match sign_kept(rt, alloc, &key, index, c, msg, text, progress)? {
        Some(signed) => Ok(signed),
        None => sign_computed(rt, alloc, key, index, c, msg, progress),
    }
}

/// Signs a message by an index of a key, by trees that are computed. `OutOfMemory` where memory is
/// refused, before any leaf is computed.
fn sign_computed(
    rt: &(impl Threads + Sync),
    alloc: Global,
    key: HssKey,
    index: u64,
    c: &[u8; HASH_LEN],
    msg: &[u8],
    progress: &impl Progress,
) -> Result<KeptSignature, OutOfMemory>
    requires { index < capacity_of (hss_key_of key) }
    ensures index { IfOk result (λ s. s.index ≡ index) }
    ensures signature { IfOk result (λ s.
        (text : Option (List ℕ)) → IsNotRight text key
        → IsSignedByText text key index c.now msg.now s.signature.items s.trees) }
{
    let planned = PlannedSignature::new(alloc, key, index)?;
    Ok(planned.sign(rt, c, msg, progress))
}

/// Signs a message by an index of a key, by the nodes in `text`. `None` where `text` is not of this
/// key, or its nodes turn out not to be those of the key's trees; not all wrong nodes show.
/// `OutOfMemory` where memory is refused.
fn sign_kept(
    rt: &(impl Threads + Sync),
    alloc: Global,
    key: &HssKey,
    index: u64,
    c: &[u8; HASH_LEN],
    msg: &[u8],
    text: &[u8],
    progress: &impl Progress,
) -> Result<Option<KeptSignature>, OutOfMemory>
    requires { index < capacity_of (hss_key_of key.now) }
    ensures index { IfOk result (λ signed. IfSome signed (λ s. s.index ≡ index)) }
    ensures signed { IfOk result (λ signed.
        IfSome signed (λ s.
        IsSignedByText (Some text.now) key.now index c.now msg.now s.signature.items s.trees)) }
    ensures none { IfOk result (λ signed. IfNone signed (IsNotRight (Some text.now) key.now)) }
{
    let memory = Vec::with_capacity(alloc, key.sig_len())?;
    let Some((trees, held)) = trees_of(rt, alloc, *key, index, text, progress)? else {
        return Ok(None);
    };
    let Some(signature) = trees.sign(memory, index, c, msg) else {
        return Ok(None);
    };
    Ok(Some(KeptSignature {
        index,
        signature,
        trees: if held { None } else { Some(trees) },
    }))
}

/// The trees of `text`, moved to an index, and whether they served it before. `None` where `text`
/// is not of this key, or a node in it turns out to be wrong when the trees are moved.
/// `OutOfMemory` where memory is refused.
fn trees_of(
    rt: &(impl Threads + Sync),
    alloc: Global,
    key: HssKey,
    index: u64,
    text: &[u8],
    progress: &impl Progress,
) -> Result<Option<(KeptTrees, bool)>, OutOfMemory>
    requires { index < capacity_of (hss_key_of key) }
    ensures found { IfOk result (λ found.
        IfSome found (λ f. AreTreesOf text.now key index f.0 f.1)) }
    ensures none { IfOk result (λ found. IfNone found (IsNotRight (Some text.now) key)) }
{
    let Some(trees) = KeptTrees::read(alloc, key, text)? else {
        return Ok(None);
    };
    if trees.serves(index) {
        return Ok(Some((trees, true)));
    }
    let Some(moved) = trees.moved_to(rt, alloc, index, progress)? else {
        return Ok(None);
    };
    Ok(Some((moved, false)))
}
