//! Laws about the bytes of kept nodes, as contracts. The program calls none of these functions.
ghost use Rattle.std.specs.Prelude.{◌≡◌};
ghost use Rattle.lms_kept.specs.Laws.{ATextTellsItsTrees, TextsAreShort};
ghost use Rattle.lms_kept.specs.Ways.{most_text_length};

use crate::kept_text::MOST_TEXT_LEN;

/// The bytes determine the trees: the index that they are for, how many levels there are, and for
/// each level its tree, the nodes that were given for it, and what is signed of it. So trees with
/// the bytes of genuine ones are genuine.
pub fn a_text_tells_its_trees()
    ensures { ATextTellsItsTrees }
{}

/// No more than `MOST_TEXT_LEN` bytes are kept.
pub fn texts_are_short()
    ensures short { TextsAreShort }
    ensures most { MOST_TEXT_LEN ≡ most_text_length }
{}
