//! The rule of a pool's cell and of what its seats know, and what each step answers its seat.
ghost use Rattle.std.specs.Prelude.{None, [], ◌∷◌};
ghost use Rattle.lms_pool.specs.declared.call_log.Call.TheVariants.{Claim, Stop};
ghost use Rattle.lms_cell_pool.specs.Rule.{CellKept, called_look, changed, filled, first_view, found, handed_over, nobody, other_views, peeked, together};

use atomic_table::{Join, Split};
use crossbeam_utils::atomic::seq_cell::{Pass, RuledSeqCell, Words};
use crossbeam_utils::rule::{Outcome, Protocol};
use lms_pool::Hand;
use std::alloc::Global;
use std::collections::LinkedList;

/// What the cell holds: how many places are taken, how many there are, and how many seats. Only the
/// fill changes the last two.
#[derive(Clone, Copy, PartialEq, Eq)]
pub struct Places {
    pub taken: u64,
    pub len: u64,
    pub seats: u64,
}

impl Words<3> for Places {
    ghost words = { λ places. places.taken ∷ places.len ∷ places.seats ∷ [] };

    fn to_words(self) -> [u64; 3] {
        [self.taken, self.len, self.seats]
    }

    fn from_words(words: &[u64; 3]) -> Self {
        let [taken, len, seats] = *words;
        Places { taken, len, seats }
    }
}

/// The number of all seats, and a hand for each seat that the token stands for.
pub struct Known {
    pub seats: u64,
    pub hands: LinkedList<Hand, Global>,
}

/// What a token of the cell knows: nothing before the cell is filled. Only proofs make these
/// values.
pub type View = Option<Known>;

/// The cell of a pool.
pub type Cell = RuledSeqCell<Places, View, CellRule, 3>;

/// The right to take a step on a cell.
pub type Token = Pass<Places, View>;

/// What holds of the cell and of what seats know between any two steps (`CellKept`).
pub struct CellRule;

impl Protocol<Places, View> for CellRule {
    ghost holds = { CellKept };

    ghost first = { None };
}

/// The fill, by the first token.
pub struct Fill;

impl Outcome<Places, View> for Fill {
    ghost then = { filled };
}

/// The load of a claim. Where no place is left it is the whole claim.
pub struct PeekClaim;

impl Outcome<Places, View> for PeekClaim {
    ghost then = { peeked Claim };
}

/// The step of a claim, n to n + 1.
pub struct ClaimStep;

impl Outcome<Places, View> for ClaimStep {
    ghost then = { changed Claim };
}

/// The load of a look.
pub struct Look;

impl Outcome<Places, View> for Look {
    ghost then = { called_look };
}

/// The load of a stop. Where no place is left it is the whole stop.
pub struct PeekStop;

impl Outcome<Places, View> for PeekStop {
    ghost then = { peeked Stop };
}

/// The step of a stop, n to the length.
pub struct Halt;

impl Outcome<Places, View> for Halt {
    ghost then = { changed Stop };
}

/// The last load, by the token that has all hands.
pub struct Find;

impl Outcome<Places, View> for Find {
    ghost then = { found };
}

/// The first hand goes to a token of its own.
pub struct Apart;

impl Split<View> for Apart {
    ghost left = { other_views };

    ghost right = { first_view };
}

/// All hands go to a new token, since only a token that a split gave can be joined.
pub struct HandOver;

impl Split<View> for HandOver {
    ghost left = { handed_over };

    ghost right = { λ view. view };
}

/// The hands of two tokens come together.
pub struct Together;

impl Join<View> for Together {
    ghost both = { together };

    ghost spent = { nobody };
}
