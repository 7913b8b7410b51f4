//! A tree whose nodes are all held.
ghost use Rattle.std.specs.Prelude.{◌≡◌, IfOk};

use crate::band::{Band, Rows};
use crate::node_source::NodeSource;
use crate::progress::{Begun, Unwatched};
use crate::tree_key::TreeKey;
use lms_params::{HASH_LEN, OutOfMemory};
use lms_verification::leaf_count;
use std::alloc::Global;
use std::marker::Model;
use std::thread::Threads;

/// A tree whose nodes are all held, so it serves all leaves. Contracts see it as its key.
#[derive(Drop)]
pub struct WholeTree {
    nodes: Band,
}

impl Model for WholeTree {
    ghost use Rattle.std.specs.Prelude.{◌≡◌};
    ghost use Rattle.lms_tree.specs.declared.tree_key.TreeKey.{TreeKey as KeyOfTree};

    ghost Value = { KeyOfTree };

    ghost use Rattle.lms_tree.specs.TreeKey.{tree_of};
    ghost use Rattle.lms_tree.specs.Bands.{root_rows};

    ghost view = { λ a. a.nodes.key };

    ghost invariant = { λ a. a.nodes.rows ≡ root_rows (tree_of a.nodes.key).lms.h };
}

impl WholeTree {
    /// Computes all nodes of a tree: the leaves by as many threads as there are processors, at most
    /// 32, then the inner nodes from the leaves up. `OutOfMemory` where the one request for memory
    /// is refused, for 2^(h+1) - 1 nodes of 32 bytes.
    pub fn build(
        rt: &(impl Threads + Sync),
        alloc: Global,
        key: TreeKey,
    ) -> Result<Self, OutOfMemory>
        ensures { IfOk result (λ tree. tree ≡ key) }
    {
        let rows = Rows::from_root(key.lms.height());
        let memory = rows.allocate(alloc)?;
        let nodes = Band::build(rt, key, rows, memory, None, &Begun::new(&Unwatched, 0));
        Ok(WholeTree { nodes })
    }
}

impl NodeSource for WholeTree {
    ghost use Rattle.std.specs.Prelude.{◌-◌, ◌^◌};
    ghost use Rattle.lms_tree.specs.TreeKey.{tree_of};

    ghost tree_key = { λ key. key };

    ghost first_leaf = { λ _. 0 };

    ghost last_leaf = { λ key. 2 ^ (tree_of key).lms.h - 1 };

    fn key(&self) -> TreeKey {
        self.nodes.key()
    }

    fn first(&self) -> u32 {
        0
    }

    fn last(&self) -> u32 {
        leaf_count(self.nodes.key().lms) - 1
    }

    fn node(&self, r: u32) -> [u8; HASH_LEN] {
        self.nodes.node(r.ilog2(), r)
    }
}
