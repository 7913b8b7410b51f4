//! Three ledgers side by side: of entries, of indices received, and of indices burnt.
ghost use Rattle.std.specs.Prelude.{◌≡◌, ◌+◌, ◌<◌, ◌≤◌, [], None};
ghost use Rattle.lms_book.specs.States.{BookState};
ghost use Rattle.lms_shared_book.specs.Desks.{SharesState, BlankFits, IsWithin, plus, sums};

use std::marker::{Brand, Model};
use std::sync::ledger::{Blank, Book as LedgerBook, Ledger, Share};

/// The ledger of a shared book's entries, which names the book. Only contracts see its members.
///
/// To share a book, write a function that is generic over this ledger and two of
/// `std::sync::ledger`, for the indices received and burnt, and that takes the book and its
/// `Blanks`; call it with `Brand` for each of the three. There `Brand` stands for a ledger that the
/// caller's proof names: by the blank's name and parts, and the first by the book, too.
pub trait BookLedger: Ledger {
    /// The book that is shared, as it was before.
    ghost book: { BookState };
}

impl BookLedger for Brand {
    // A placeholder; every proof replaces it.
    ghost book = { record {
      key = record { levels = []; seed = []; i = [] };
      base = 0;
      openings = 0;
      burnt = 0;
      history = [];
      store = record { now = None; past = []; given = None; failures = 0 };
    } };
}

/// Three blank ledgers for `SharedBook::share`, which opens them: one of the entries, one of the
/// indices received and one of the indices burnt. Each is made by `Blank::new(desks + 1)`.
#[derive(Drop)]
pub struct Blanks {
    pub entries: Blank,
    pub received: Blank,
    pub burnt: Blank,
}

/// Some parts of the three ledgers, with what they count.
#[derive(Drop)]
pub(crate) struct Shares<E: Ledger, G: Ledger, B: Ledger> {
    entries: Share<E>,
    received: Share<G>,
    burnt: Share<B>,
}

impl<E: Ledger, G: Ledger, B: Ledger> Model for Shares<E, G, B> {
    ghost use Rattle.std.specs.Prelude.{◌≡◌};
    ghost use Rattle.lms_shared_book.specs.Desks.{SharesState, sums};

    ghost Value = { SharesState };

    ghost view = { λ s.
        record {
          parts = s.entries.parts;
          counted = sums s.entries.amount s.received.amount
              s.burnt.amount;
        } };

    ghost invariant = { λ s.
        (s.received.parts ≡ s.entries.parts) × (s.burnt.parts ≡ s.entries.parts) };
}

/// The sums over all shares.
#[derive(Drop)]
pub(crate) struct Totals<E: Ledger, G: Ledger, B: Ledger> {
    entries: LedgerBook<E>,
    received: LedgerBook<G>,
    burnt: LedgerBook<B>,
}

impl<E: Ledger, G: Ledger, B: Ledger> Model for Totals<E, G, B> {
    ghost use Rattle.lms_shared_book.specs.Desks.{Sums, sums};

    ghost Value = { Sums };

    ghost view = { λ t. sums t.entries.total t.received.total t.burnt.total };
}

impl<E: Ledger, G: Ledger, B: Ledger> Shares<E, G, B> {
    /// Splits one part off, as a share that counts nothing. There must be more than one part.
    pub(crate) fn split_off(&mut self) -> Shares<E, G, B>
        requires { 1 < self.old.parts }
        ensures left { self.new ≡ record self.old { parts = self.new.parts } }
        ensures parts { self.new.parts + 1 ≡ self.old.parts }
        ensures one { result ≡ record { parts = 1; counted = sums 0 0 0 } }
    {
        Shares {
            entries: self.entries.split_off(1, 0),
            received: self.received.split_off(1, 0),
            burnt: self.burnt.split_off(1, 0),
        }
    }

    /// Gives one part to another share, with so much of what this one counts. The last part must
    /// take all of it.
    pub(crate) fn give(&mut self, to: &mut Shares<E, G, B>, entries: u64, received: u64, burnt: u64)
        requires some { 1 ≤ self.old.parts }
        requires enough { IsWithin (sums entries received burnt) self.old.counted }
        requires last { self.old.parts ≡ 1 → self.old.counted ≡ sums entries received burnt }
        ensures left { self.new.parts + 1 ≡ self.old.parts }
        ensures counted { plus self.new.counted (sums entries received burnt) ≡ self.old.counted }
        ensures parts { to.new.parts ≡ to.old.parts + 1 }
        ensures received { to.new.counted ≡ plus to.old.counted (sums entries received burnt) }
    {
        self.entries.give(&mut to.entries, 1, entries);
        self.received.give(&mut to.received, 1, received);
        self.burnt.give(&mut to.burnt, 1, burnt);
    }

    /// Takes the parts of another share, with what they count.
    pub(crate) fn merge(&mut self, other: Shares<E, G, B>)
        ensures parts { self.new.parts ≡ self.old.parts + other.parts }
        ensures counted { self.new.counted ≡ plus self.old.counted other.counted }
        ensures apart { self.new.parts ≤ E.parts }
    {
        let Shares {
            entries,
            received,
            burnt,
        } = other;
        self.entries.merge(entries);
        self.received.merge(received);
        self.burnt.merge(burnt);
    }
}

impl<E: Ledger, G: Ledger, B: Ledger> Totals<E, G, B> {
    /// Opens the blanks as ledgers that count nothing yet, with one share that has all parts.
    pub(crate) fn open(blanks: Blanks) -> (Totals<E, G, B>, Shares<E, G, B>)
        requires entries { BlankFits blanks.entries E.name E.parts E.parts }
        requires received { BlankFits blanks.received G.name G.parts E.parts }
        requires burnt { BlankFits blanks.burnt B.name B.parts E.parts }
        ensures totals { result.0 ≡ sums 0 0 0 }
        ensures shares { result.1 ≡ record { parts = E.parts; counted = sums 0 0 0 } }
    {
        let Blanks {
            entries,
            received,
            burnt,
        } = blanks;
        let (entries, of_entries) = entries.open::<E>();
        let (received, of_received) = received.open::<G>();
        let (burnt, of_burnt) = burnt.open::<B>();
        (
            Totals {
                entries,
                received,
                burnt,
            },
            Shares {
                entries: of_entries,
                received: of_received,
                burnt: of_burnt,
            },
        )
    }

    /// Adds these numbers to the totals, and to what the share counts, which must have a part.
    pub(crate) fn add(
        &mut self,
        shares: &mut Shares<E, G, B>,
        entries: u64,
        received: u64,
        burnt: u64,
    )
        requires { 0 < shares.old.parts }
        ensures totals { self.new ≡ plus self.old (sums entries received burnt) }
        ensures shares { shares.new
            ≡ record
            shares.old { counted = plus shares.old.counted (sums entries received burnt) } }
    {
        self.entries.add(&mut shares.entries, entries);
        self.received.add(&mut shares.received, received);
        self.burnt.add(&mut shares.burnt, burnt);
    }

    /// Changes nothing. For the proof: a share counts no more than the totals, and one with all
    /// parts counts just them.
    pub(crate) fn audit(&mut self, shares: &mut Shares<E, G, B>)
        ensures totals { self.new ≡ self.old }
        ensures shares { shares.new ≡ shares.old }
        ensures within { IsWithin shares.old.counted self.old }
        ensures whole { (shares.old.parts ≡ E.parts) × (G.parts ≡ E.parts)
            × (B.parts ≡ E.parts) → shares.old.counted ≡ self.old }
    {
        self.entries.audit(&mut shares.entries);
        self.received.audit(&mut shares.received);
        self.burnt.audit(&mut shares.burnt);
    }
}
