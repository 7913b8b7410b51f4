//! What is kept of a key's trees beside its state, so that a signature need not compute them again.
ghost use Rattle.std.specs.Prelude.{◌≡◌, ◌∷◌, Some, option_map};
ghost use Rattle.lms_commands.specs.Logs.{LogsKeeping};
ghost use Rattle.lms_world.specs.Events.{NodesRead};
ghost use Rattle.lms_world.specs.Held.{Does, Follows};

use lms_kept::{KeptTrees, MOST_TEXT_LEN};
use lms_world::World;
use std::alloc::Global;

/// What is kept of trees beside the state of a lock. `None` where nothing is, where it is longer
/// than `MOST_TEXT_LEN` bytes or can't be read, and where memory for it was refused.
pub fn kept_text<W: World>(alloc: Global, world: &mut W, lock: &W::Lock) -> Option<Vec<u8>>
    ensures logged { W.events world.new
        ≡ NodesRead (option_map (λ text. text.items) result) ∷ W.events world.old }
    ensures acts { Does (NodesRead (option_map (λ text. text.items) result))
        (W.memory world.old) (W.memory world.new) }
{
    world.read_nodes(alloc, lock, MOST_TEXT_LEN)
}

/// Keeps these trees beside the state of a lock, where that can be done. Where it can't, that is no
/// fault: whoever finds nothing right there computes all again.
pub fn keep_trees<W: World>(alloc: Global, world: &mut W, lock: &W::Lock, trees: &KeptTrees)
    ensures logged { LogsKeeping (Some trees.now) (W.events world.old) (W.events world.new) }
    ensures follows { Follows (W.memory world.old) (W.events world.old)
        (W.memory world.new) (W.events world.new) }
{
    if let Ok(text) = trees.text(alloc) {
        let _ = world.write_nodes(alloc, lock, &text);
    }
}
