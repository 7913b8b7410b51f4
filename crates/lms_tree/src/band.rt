//! Nodes of a tree in memory, row by row.
ghost use Rattle.std.specs.Prelude.{ℕ, ◌≡◌, ◌+◌, ◌*◌, ◌^◌, ◌<◌, ◌≤◌, ◌↔◌, [], length, slice_index_or, IsTrue, IfOk, IfSome};
ghost use Rattle.lms_spec.specs.Parameters.{greatest_height};
ghost use Rattle.lms_spec.specs.Tree.{node as node_of};
ghost use Rattle.lms_tree.specs.declared.tree_key.TreeKey.{TreeKey as KeyOfTree};
ghost use Rattle.lms_tree.specs.TreeKey.{tree_of};
ghost use Rattle.lms_tree.specs.Bands.{root_rows};
ghost use Rattle.lms_tree.specs.Kept.{AreHashes, FillsRows};
ghost use Rattle.lms_tree.specs.Held.{row_of, row_below, nodes_in, AreInTree, HoldsRow, HoldsRows};

use crate::progress::{Begun, Progress};
use crate::row::fill_lowest_row;
use crate::tree_key::TreeKey;
use lms_params::{HASH_LEN, OutOfMemory};
use lms_verification::inner_hash;
use std::alloc::Global;
use std::marker::Model;
use std::thread::Threads;

/// Rows of a tree: `width` adjacent nodes from number `first` on, and all nodes below them in
/// `depth` more rows.
#[derive(Clone, Copy)]
pub(crate) struct Rows {
    pub(crate) first: u32,
    pub(crate) width: u32,
    pub(crate) depth: u32,
}

/// One of several rows in a list: `count` nodes from number `first` on. The first is at `place` of
/// the list.
#[derive(Clone, Copy)]
struct Row {
    first: u32,
    count: usize,
    place: usize,
}

impl Rows {
    /// The root, and all nodes below it in `depth` more rows.
    pub(crate) fn from_root(depth: u32) -> Self
        ensures { result ≡ root_rows depth }
    {
        Rows {
            first: 1,
            width: 1,
            depth,
        }
    }

    /// Memory for all nodes of these rows, 32 bytes each. `OutOfMemory` where the one request for
    /// it is refused.
    pub(crate) fn allocate(self, alloc: Global) -> Result<Vec<[u8; HASH_LEN]>, OutOfMemory>
        requires { AreInTree greatest_height self }
        ensures { IfOk result (λ nodes. length nodes.items ≡ nodes_in self) }
    {
        Ok(vec![in alloc; [0; HASH_LEN]; self.len()]?)
    }

    /// The number of nodes of all rows.
    pub(crate) fn len(self) -> usize
        requires { AreInTree greatest_height self }
        ensures { result ≡ nodes_in self }
    {
        let lowest = self.row(self.depth);
        lowest.place + lowest.count
    }

    /// Row `level`, counted from the top, in a list of the rows from the top down. Each row has
    /// twice as many nodes as the one above it.
    fn row(self, level: u32) -> Row
        requires in_tree { AreInTree greatest_height self }
        requires level { level ≤ self.depth }
        ensures row { result ≡ row_of self level }
        ensures in_tree { result.first + result.count ≤ 2 ^ (greatest_height + 1) }
        ensures place { result.place < result.count }
    {
        let count = self.width << level;
        Row {
            first: self.first << level,
            count: count as usize,
            place: (count - self.width) as usize,
        }
    }
}

/// All nodes in rows of a tree. Contracts see the tree's key and the rows.
#[derive(Drop)]
pub(crate) struct Band {
    key: TreeKey,
    rows: Rows,
    /// Row after row from the top, each from left to right.
    nodes: Vec<[u8; HASH_LEN]>,
}

impl Model for Band {
    ghost use Rattle.lms_tree.specs.Held.{RowsOf, HoldsRows};

    ghost Value = { RowsOf };

    ghost view = { λ a. record { key = a.key; rows = a.rows } };

    ghost invariant = { λ a. HoldsRows a.key a.rows a.nodes.items };
}

impl Band {
    /// Computes the nodes in these rows and stores them in `memory`: the lowest row by as many
    /// threads as there are processors, at most 32, then the rows above it. A node of the lowest
    /// row that is in the top row of `lower`, a band of the same tree, is copied from there. The
    /// leaves under every other node of that row are reported to the `Progress` of `begun`.
    pub(crate) fn build(
        rt: &(impl Threads + Sync),
        key: TreeKey,
        rows: Rows,
        memory: Vec<[u8; HASH_LEN]>,
        lower: Option<&Band>,
        begun: &Begun<impl Progress>,
    ) -> Self
        requires in_tree { AreInTree (tree_of key).lms.h rows }
        requires count { length memory.items ≡ nodes_in rows }
        requires lower { IfSome lower (λ band. band.now.key ≡ key) }
        ensures { result ≡ record { key = key; rows = rows } }
    {
        let lowest = rows.row(rows.depth);
        let mut nodes = memory;
        let all = nodes.as_mut_slice();
        let row = &mut all[lowest.place..];
        fill_lowest_row(rt, key, lowest.first, lower, row, begun.progress);
        fill_upper_rows(&key, rows, all);
        Band { key, rows, nodes }
    }

    /// The key of the tree.
    pub(crate) fn key(&self) -> TreeKey
        ensures { result ≡ self.now.key }
    {
        self.key
    }

    /// The number of rows below the top row.
    pub(crate) fn depth(&self) -> u32
        ensures { result ≡ self.now.rows.depth }
    {
        self.rows.depth
    }

    /// The number of nodes that are held.
    pub(crate) fn len(&self) -> usize
        ensures { result ≡ nodes_in self.now.rows }
    {
        self.nodes.len()
    }

    /// The value of node r, which is in row `level`, counted from the top.
    pub(crate) fn node(&self, level: u32, r: u32) -> [u8; HASH_LEN]
        requires level { level ≤ self.now.rows.depth }
        requires from { self.now.rows.first * 2 ^ level ≤ r }
        requires to { r < (self.now.rows.first + self.now.rows.width) * 2 ^ level }
        ensures { result ≡ node_of (tree_of self.now.key) r }
    {
        node_in(&self.nodes, self.rows, level, r)
    }

    /// The rows that are held.
    pub(crate) fn rows(&self) -> Rows
        ensures rows { result ≡ self.now.rows }
        ensures in_tree { AreInTree (tree_of self.now.key).lms.h result }
    {
        self.rows
    }

    /// Whether these are the rows.
    pub(crate) fn has_rows(&self, rows: Rows) -> bool
        ensures { IsTrue result → self.now.rows ≡ rows }
    {
        self.rows.first == rows.first
            && self.rows.width == rows.width
            && self.rows.depth == rows.depth
    }

    /// The nodes, row after row from the top.
    pub(crate) fn into_nodes(self) -> Vec<[u8; HASH_LEN]>
        ensures held { HoldsRows self.key self.rows result.items }
        ensures filled { FillsRows self.rows result.items }
    {
        let Band {
            key: _,
            rows: _,
            nodes,
        } = self;
        are_hashes(&nodes);
        nodes
    }

    /// Whether node r is in the top row.
    pub(crate) fn has_on_top(&self, r: u32) -> bool
        ensures { IsTrue result
            ↔ ((self.now.rows.first ≤ r) × (r < self.now.rows.first + self.now.rows.width)) }
    {
        r >= self.rows.first && r - self.rows.first < self.rows.width
    }
}

/// Each node is 32 bytes long, as its type says.
pub(crate) fn are_hashes(nodes: &[[u8; HASH_LEN]])
    ensures { AreHashes nodes.now }
{}

/// What is at the place of node r, in row `level` of these rows, counted from the top.
pub(crate) fn node_in(nodes: &[[u8; HASH_LEN]], rows: Rows, level: u32, r: u32) -> [u8; HASH_LEN]
    requires in_tree { AreInTree greatest_height rows }
    requires count { length nodes.now ≡ nodes_in rows }
    requires level { level ≤ rows.depth }
    requires from { rows.first * 2 ^ level ≤ r }
    requires to { r < (rows.first + rows.width) * 2 ^ level }
    ensures { (key : KeyOfTree) → HoldsRows key rows nodes.now → result ≡ node_of (tree_of key) r }
{
    let row = rows.row(level);
    nodes[row.place + (r - row.first) as usize]
}

/// Computes the rows above the lowest one, from there up.
fn fill_upper_rows(key: &TreeKey, rows: Rows, nodes: &mut [[u8; HASH_LEN]])
    requires in_tree { AreInTree (tree_of key.now).lms.h rows }
    requires count { length nodes.old ≡ nodes_in rows }
    requires lowest { HoldsRow key.now (row_of rows rows.depth) nodes.old }
    ensures { HoldsRows key.now rows nodes.new }
{
    let mut level = rows.depth;
    while level > 0 {
        level -= 1;
        fill_row(key, rows.row(level), nodes);
    }
}

/// Computes a row from the row below it, which is after it in the list.
fn fill_row(key: &TreeKey, row: Row, nodes: &mut [[u8; HASH_LEN]])
    requires from_root { 1 ≤ row.first }
    requires inner { row.first + row.count ≤ 2 ^ (tree_of key.now).lms.h }
    requires fits { row.place + 3 * row.count ≤ length nodes.old }
    requires below { HoldsRow key.now (row_below row) nodes.old }
    ensures count { length nodes.new ≡ length nodes.old }
    ensures row { HoldsRow key.now row nodes.new }
    ensures others { (k : ℕ) → row.place + row.count ≤ k
        → slice_index_or nodes.new k [] ≡ slice_index_or nodes.old k [] }
{
    for i in 0..row.count {
        let left = row.place + row.count + 2 * i;
        nodes[row.place + i] = inner_hash(
            &key.i,
            row.first + i as u32,
            &nodes[left],
            &nodes[left + 1],
        );
    }
}
