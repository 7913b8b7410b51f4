//! Trees (RFC 8554, section 5).
ghost use Rattle.std.specs.Prelude.{◌^◌, ◌≤◌};

use lms_params::{LmsType, OtsType};
use sha2::Digest;
use std::alloc::{AllocError, Global};

/// The constants that keep the hashes of leaves and of inner nodes apart from the others (RFC 8554,
/// 5.3).
const D_LEAF: u16 = 0x8282;

const D_INTR: u16 = 0x8383;

/// The private key of one tree (RFC 8554, 5.2). Node 1 is the root, nodes 2r and 2r + 1 are the
/// children of r, and leaf q is node 2^h + q.
#[derive(Clone, Copy)]
pub struct SlowTree {
    pub lms: LmsType,
    pub ots: OtsType,
    pub seed: [u8; 32],
    pub id: [u8; 16],
}

impl SlowTree {
    /// The number of leaves, 2^h.
    pub(crate) fn leaves(&self) -> u32
        ensures some { 1 ≤ result }
        ensures at_most { result ≤ 2 ^ 25 }
    {
        1 << self.lms.height()
    }

    /// The number of leaf `q` among the nodes, modulo 2^32.
    pub(crate) fn leaf_number(&self, q: u32) -> u32 {
        self.leaves().wrapping_add(q)
    }

    /// The value of node r (RFC 8554, 5.3). All leaves below it are computed.
    pub fn node(&self, r: u32) -> [u8; 32]
        requires { 1 ≤ r }
    {
        let leaves = self.leaves();
        if r >= leaves {
            self.leaf(r - leaves)
        } else {
            self.inner(r, &self.node(2 * r), &self.node(2 * r + 1))
        }
    }

    /// The value of leaf `q`.
    pub(crate) fn leaf(&self, q: u32) -> [u8; 32] {
        let mut hasher = self.hasher(self.leaf_number(q), D_LEAF);
        hasher.update(self.public_hash(q));
        hasher.finalize()
    }

    /// The value of inner node r over the values of its children.
    fn inner(&self, r: u32, left: &[u8; 32], right: &[u8; 32]) -> [u8; 32] {
        let mut hasher = self.hasher(r, D_INTR);
        hasher.update(left);
        hasher.update(right);
        hasher.finalize()
    }

    /// The siblings of node r and of each node above it, up to a child of the root (RFC 8554, 5.4).
    /// Fails when out of memory.
    pub(crate) fn path(&self, alloc: Global, r: u32) -> Result<Vec<[u8; 32]>, AllocError> {
        let mut path = Vec::new(alloc);
        self.add_path(&mut path, r)?;
        Ok(path)
    }

    /// Adds the siblings of node r and of each node above it.
    fn add_path(&self, path: &mut Vec<[u8; 32]>, r: u32) -> Result<(), AllocError> {
        if r <= 1 {
            return Ok(());
        }
        let sibling = if r % 2 == 0 { r + 1 } else { r - 1 };
        path.push(self.node(sibling))?;
        self.add_path(path, r / 2)
    }

    /// Where a climb from node r with this value ends (RFC 8554, 5.4.2).
    pub(crate) fn climb(&self, r: u32, value: [u8; 32], path: &[[u8; 32]]) -> [u8; 32] {
        match path {
            [] => value,
            [sibling, rest @ ..] => {
                let parent = if r % 2 == 0 {
                    self.inner(r / 2, &value, sibling)
                } else {
                    self.inner(r / 2, sibling, &value)
                };
                self.climb(r / 2, parent, rest)
            }
        }
    }

    /// The LMS public key over this root (RFC 8554, 5.3), 56 bytes. Fails when out of memory.
    pub(crate) fn public_key(&self, alloc: Global, root: &[u8; 32]) -> Result<Vec<u8>, AllocError> {
        let mut text = Vec::from_slice(alloc, &self.lms.code().to_be_bytes())?;
        text.extend_from_slice(&self.ots.code().to_be_bytes())?;
        text.extend_from_slice(&self.id)?;
        text.extend_from_slice(root)?;
        Ok(text)
    }

    /// The LMS signature of a message by leaf `q` with these path values (RFC 8554, 5.4.1),
    /// 12 + 32 * (p + 1) bytes and 32 for each of them. Fails when out of memory.
    pub(crate) fn signature(
        &self,
        alloc: Global,
        q: u32,
        c: &[u8; 32],
        msg: &[u8],
        path: &[[u8; 32]],
    ) -> Result<Vec<u8>, AllocError> {
        let mut text = Vec::from_slice(alloc, &q.to_be_bytes())?;
        text.extend_from_slice(&self.one_time_signature(alloc, q, c, msg)?)?;
        text.extend_from_slice(&self.lms.code().to_be_bytes())?;
        for value in path {
            text.extend_from_slice(value)?;
        }
        Ok(text)
    }
}
