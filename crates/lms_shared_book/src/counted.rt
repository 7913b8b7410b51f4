//! What is under the lock of a shared book.
ghost use Rattle.std.specs.Prelude.{◌≡◌, ℕ, ◌+◌, ◌≤◌, length, IfOk};
ghost use Rattle.lms_hss.specs.Covered.{most_covered};
ghost use Rattle.lms_shared_book.specs.Desks.{total, Counts, gained, sums};
ghost use Rattle.lms_shared_book.specs.Shared.{IsFound, IsSettled};

use crate::book_ledger::{BookLedger, Shares, Totals};
use crate::desk::{Desk, all_shares};
use lms_book::{Book, BookFault, Lease, StateStore};
use std::marker::Model;
use std::sync::ledger::Ledger;

/// A book, with the sums of its history. What the history counted before it was shared is one share
/// of them.
#[derive(Drop)]
pub(crate) struct CountedBook<S: StateStore, E: BookLedger, G: Ledger, B: Ledger> {
    pub(crate) book: Book<S>,
    pub(crate) totals: Totals<E, G, B>,
    pub(crate) shares: Shares<E, G, B>,
}

impl<S: StateStore, E: BookLedger, G: Ledger, B: Ledger> Model for CountedBook<S, E, G, B> {
    ghost use Rattle.std.specs.Prelude.{◌≡◌, List};
    ghost use Rattle.lms_shared_book.specs.Desks.{sums_of};
    ghost use Rattle.lms_shared_book.specs.Shared.{IsAfter};
    ghost use Rattle.lms_book.specs.declared.history.Entry.{Entry as EntryOfCode};
    ghost use Rattle.lms_book.specs.Books.{IsInOrder};
    ghost use Rattle.lms_book.specs.States.{BookState};

    ghost Value = { BookState };

    ghost view = { λ c. c.book };

    ghost invariant = { λ c. IsInOrder c.book × (c.totals ≡ sums_of c.book.history)
        × (c.shares.parts ≡ 1) × (c.shares.counted ≡ sums_of E.book.history)
        × (c.book.key ≡ E.book.key)
        × ((entries : List EntryOfCode) × IsAfter E.book entries c.book) };
}

impl<S: StateStore, E: BookLedger, G: Ledger, B: Ledger> CountedBook<S, E, G, B> {
    ghost use Rattle.lms_book.specs.Books.{ReservesInOrder};

    /// Reserves n indices as `Book::reserve` does, with its errors, and counts that at the desk and
    /// in the totals.
    pub(crate) fn reserve(&mut self, desk: &mut Desk<E, G, B>, n: u64) -> Result<Lease, BookFault>
        requires some { 1 ≤ n }
        requires at_most { n ≤ most_covered }
        ensures key { self.old.key ≡ E.book.key }
        ensures lease { IfOk result (λ lease. lease.key ≡ E.book.key) }
        ensures found { (desks : ℕ) → (E.parts ≡ desks + 1) × (G.parts ≡ desks + 1)
            × (B.parts ≡ desks + 1)
            → IsFound (record { book = E.book; desks = desks }) desk.old self.old }
        ensures reserves { ReservesInOrder n self.old result self.new }
        ensures desk { Counts n desk.old result desk.new }
    {
        // for the proof: the number of entries is bounded
        let _entries = self.book.history().len();
        // for the proof: a desk that is the only one has counted every reservation
        desk.audit(&mut self.totals, &mut self.shares);
        let answer = self.book.reserve(n);
        let (entries, received, burnt) = gains_of(&answer, n);
        desk.count(&mut self.totals, entries, received, burnt);
        answer
    }

    /// Takes the book out, once all desks have come: together they count what was reserved since it
    /// was shared.
    pub(crate) fn into_book(self, desks: Vec<Desk<E, G, B>>) -> Book<S>
        requires some { 1 ≤ E.parts }
        requires all { E.parts ≤ length desks.items + 1 }
        requires same { (G.parts ≡ E.parts) × (B.parts ≡ E.parts) }
        ensures settled { IsSettled E.book (total desks.items) result }
        ensures key { result.key ≡ E.book.key }
        ensures present { E.parts ≡ length desks.items + 1 }
    {
        let CountedBook {
            book,
            totals,
            shares,
        } = self;
        let mut totals = totals;
        let mut all = all_shares(shares, desks);
        totals.audit(&mut all);
        book
    }
}

/// What a reservation of n indices adds to a history's sums: entries, indices received and burnt.
fn gains_of(answer: &Result<Lease, BookFault>, n: u64) -> (u64, u64, u64)
    ensures { sums result.0 result.1 result.2 ≡ gained n answer.now }
{
    match answer {
        Ok(_) => (1, n, 0),
        Err(BookFault::Store { .. }) => (1, 0, n),
        Err(BookFault::Exhausted { .. }) => (0, 0, 0),
        Err(BookFault::OutOfMemory) => (0, 0, 0),
    }
}
