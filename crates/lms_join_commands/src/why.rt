//! What is said to who looks on of two keys that can't be joined.
ghost use Rattle.std.specs.Prelude.{◌≡◌};

use lms_hss::{HSS_KEY_LEN, MOST_LEVELS};
use lms_join::Key;
use lms_world::World;

/// Says why a top public key and a signer's can't be joined, and nothing of two that can.
pub(crate) fn explain_keys<W: World>(world: &mut W, top: &[u8], signer: &[u8])
    ensures unlogged { W.events world.new ≡ W.events world.old }
    ensures same { W.memory world.new ≡ W.memory world.old }
{
    match (Key::parse(top), Key::parse(signer)) {
        (Some(top), Some(signer)) => explain_levels(world, top.levels, signer.levels),
        (None, _) => explain_form(world, "the top key"),
        (_, None) => explain_form(world, "the signer's key"),
    }
}

/// Says of two keys of so many levels where these are too many together.
fn explain_levels<W: World>(world: &mut W, top: u32, signer: u32)
    ensures unlogged { W.events world.new ≡ W.events world.old }
    ensures same { W.memory world.new ≡ W.memory world.old }
{
    if top.saturating_add(signer) > MOST_LEVELS as u32 {
        world.explain(format_args!(
            "the keys have {top} and {signer} levels; a joined one has {MOST_LEVELS} at most"
        ));
    }
}

/// Says that a key is none.
fn explain_form<W: World>(world: &mut W, which: &'static str)
    ensures unlogged { W.events world.new ≡ W.events world.old }
    ensures same { W.memory world.new ≡ W.memory world.old }
{
    world.explain(format_args!(
        "{which} is no public key of {HSS_KEY_LEN} bytes, 1 to {MOST_LEVELS} levels and known types"
    ));
}
