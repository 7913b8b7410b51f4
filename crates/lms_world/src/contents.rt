//! What a file holds, handed over piece by piece.
ghost use Rattle.std.specs.Prelude.{ℕ, ◌++◌, ◌≡◌, List, [], Option, None, IfErr, IfSome, OnOk};

use crate::fault::WorldFault;

/// Takes the bytes of a file, piece by piece.
pub trait Taker {
    // What a taker becomes by these bytes.
    ghost after: { Self → List ℕ → Self → Type 0 };

    /// Takes the next piece.
    fn take(&mut self, piece: &[u8])
        ensures { after self.old piece.now self.new };

    // No bytes change nothing.
    ghost none: { (taker : Self) → after taker [] taker };

    // Bytes after bytes are the bytes joined.
    ghost more: { (old between new : Self) (bytes others : List ℕ)
        → after old bytes between → after between others new → after old (bytes ++ others) new };
}

/// A file that was opened to be read.
pub trait Contents {
    // The bytes that it holds, where that is known: it can be read then.
    ghost holds: { Self → Option (List ℕ) };

    // What it may hand over.
    ghost may_give: { Self → List ℕ → Type 0 };

    /// Hands all of its bytes over, one piece after another. It takes no memory.
    ///
    /// `Device` where it can't be read to its end, `OutOfMemory` where the system lacks memory: the
    /// taker may have a beginning of them then.
    fn hand_over<T: Taker>(self, taker: &mut T) -> Result<(), WorldFault>
        ensures handed { OnOk result
            ((bytes : List ℕ) × IfSome (holds self) (λ held. bytes ≡ held)
            × may_give self bytes × T.after taker.old bytes taker.new) }
        ensures refused { IfErr result (λ _. holds self ≡ None) };
}
