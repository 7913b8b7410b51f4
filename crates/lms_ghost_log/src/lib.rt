//! A log that contracts alone see. It takes no memory, and its calls do nothing at run time.
//!
//! Where contracts speak of the past, as of all bytes that a store ever held, a struct keeps a
//! [`GhostLog`] in place of a list. Nothing ties its entries to what was done but the calls of
//! `and`: see that each is where its entry is true.
#![tactic(auto)]

ghost use Rattle.std.specs.Prelude.{◌≡◌, List, [], ◌∷◌};
ghost use Rattle.std.specs.Borrow.{ftrue};

use std::marker::{Model, PhantomData};
use std::snapshot::Snapshot;

/// What can be added to a log of entries of type `E`: a value of that type, or one of a type that
/// says by `entry` which entry it adds.
pub trait Logged<E> {
    // The entry that the value adds.
    ghost entry: { Self → E };
}

impl<E> Logged<E> for E {
    ghost entry = { λ value. value };
}

/// The entries that were added, the newest first. Contracts see the list. At run time no entry is
/// kept, and none need be made.
#[derive(Drop)]
pub struct GhostLog<E> {
    entries: Snapshot<Entries<E>>,
}

impl<E> Model for GhostLog<E> {
    ghost use Rattle.std.specs.Prelude.{List};

    ghost Value = { List E };

    ghost view = { λ log. log.entries.value.list };
}

impl<E> GhostLog<E> {
    /// A log with no entries.
    pub fn new() -> Self
        ensures { result ≡ [] }
    {
        GhostLog {
            entries: Snapshot::of(&Entries::of(&(), &())),
        }
    }

    /// The log with one entry more.
    pub fn and<T: Logged<E>>(&self, value: &T) -> Self
        ensures { result ≡ T.entry value.now ∷ self.now }
    {
        GhostLog {
            entries: Snapshot::of(&Entries::of(&self.entries, value)),
        }
    }
}

/// A list for contracts, and nothing at run time.
#[derive(Drop)]
struct Entries<E> {
    marker: PhantomData<E>,
    ghost list: { List E },
}

impl<E> Model for Entries<E> {
    ghost also_owns = { λ _. ftrue };
}

impl<E> Entries<E> {
    /// Entries with any list: a caller's `Invariants.antt` picks it, by what the two arguments
    /// show.
    ///
    /// No code can set a ghost field, so this is proved by a walk written by hand.
    fn of<A, B>(_first: &A, _second: &B) -> Self
        ghost list: { List E }
        ensures { result.list ≡ list }
    {
        Entries {
            marker: PhantomData,
        }
    }
}
