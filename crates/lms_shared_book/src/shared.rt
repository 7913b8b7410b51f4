//! A book that threads share.
ghost use Rattle.std.specs.Prelude.{◌≡◌, ◌+◌, ◌<◌, ◌≤◌, length, replicate, IfOk, IfErr, OnOk};
ghost use Rattle.std.specs.Fn.{FnOnceReturnsAt};
ghost use Rattle.lms_hss.specs.Covered.{most_covered};
ghost use Rattle.lms_shared_book.specs.Desks.{most_desks, sums, plus, total, sums_of, BlankFits, Counts};
ghost use Rattle.lms_shared_book.specs.Shared.{IsAfter, IsFound, IsSettled};

use crate::book_ledger::{Blanks, BookLedger, Totals};
use crate::counted::CountedBook;
use crate::desk::{Desk, new_desks};
use crate::fault::MissingDesks;
use crate::sums::sums_in;
use lms_book::{Book, BookFault, Lease, Reservations, StateStore};
use lms_hss::HssKey;
use lms_params::OutOfMemory;
use std::alloc::Global;
use std::marker::Model;
use std::sync::ledger::Ledger;
use std::sync::{Mutex, Wait};

/// A book behind a lock. Whenever the lock is acquired, the counter is within the key's capacity,
/// and the leases are disjoint and below every counter that a crash could leave stored. Three
/// ledgers count the entries, the indices received and the indices burnt. Contracts see the book as
/// it was when it was shared, and the number of desks.
#[derive(Drop)]
pub struct SharedBook<S: StateStore, E: BookLedger, G: Ledger, B: Ledger> {
    counted: Mutex<CountedBook<S, E, G, B>>,
    key: HssKey,
    desks: usize,
}

impl<S: StateStore, E: BookLedger, G: Ledger, B: Ledger> Model for SharedBook<S, E, G, B> {
    ghost use Rattle.std.specs.Prelude.{◌≡◌, ◌+◌};
    ghost use Rattle.lms_shared_book.specs.Desks.{SharedState};

    ghost Value = { SharedState };

    ghost view = { λ s. record { book = E.book; desks = s.desks } };

    ghost invariant = { λ s.
        (E.parts ≡ s.desks + 1) × (G.parts ≡ s.desks + 1) × (B.parts ≡ s.desks + 1)
        × (s.key ≡ E.book.key) };
}

impl<S: StateStore, E: BookLedger, G: Ledger, B: Ledger> SharedBook<S, E, G, B> {
    ghost use Rattle.lms_book.specs.States.{BookState, reservations_of};
    ghost use Rattle.std.specs.Prelude.{List};
    ghost use Rattle.lms_book.specs.declared.history.Entry.{Entry as EntryOfCode};
    ghost use Rattle.lms_book.specs.Books.{IsInOrder, ReservesInOrder};

    /// Puts a book behind a lock, with 1 to 64 desks that have counted nothing. Each blank is made
    /// by `Blank::new(desks + 1)`: one part for each desk, and one for what the history counted
    /// before. `BookLedger` says how to call this.
    ///
    /// `OutOfMemory` where memory for the desks is refused, with the book and the blanks handed
    /// back as they were.
    pub fn share(
        alloc: Global,
        book: Book<S>,
        blanks: Blanks,
        desks: usize,
    ) -> Result<(Self, Vec<Desk<E, G, B>>), (OutOfMemory, Book<S>, Blanks)>
        requires some { 1 ≤ desks }
        requires at_most { desks ≤ most_desks }
        requires entries { BlankFits blanks.entries E.name E.parts (desks + 1) }
        requires received { BlankFits blanks.received G.name G.parts (desks + 1) }
        requires burnt { BlankFits blanks.burnt B.name B.parts (desks + 1) }
        requires same { book ≡ E.book }
        ensures shared { IfOk result (λ r. r.0 ≡ record { book = book; desks = desks }) }
        ensures desks { IfOk result (λ r. r.1.items ≡ replicate desks (sums 0 0 0)) }
        ensures err { IfErr result (λ e. (e.1 ≡ book) × (e.2 ≡ blanks)) }
    {
        let memory = match Vec::with_capacity(alloc, desks) {
            Ok(memory) => memory,
            Err(_) => return Err((OutOfMemory, book, blanks)),
        };
        // for the proof: the book is in order, which bounds the sums
        let reservations = book.reservations();
        let key = reservations.key();
        let history = reservations.history();
        let entries = history.len() as u64;
        let (given, burnt) = sums_in(history);
        let (mut totals, mut shares) = Totals::<E, G, B>::open(blanks);
        totals.add(&mut shares, entries, given, burnt);
        let all_desks = new_desks(memory, &mut shares, desks);
        let counted = Mutex::new(CountedBook {
            book,
            totals,
            shares,
        });
        let shared = SharedBook {
            counted,
            key,
            desks,
        };
        Ok((shared, all_desks))
    }

    /// The key of the book that is shared.
    pub fn key(&self) -> HssKey
        ensures { result ≡ self.now.book.key }
    {
        self.key
    }

    /// Waits for the lock, and reserves the next n indices, 1 to 1024, as `Book::reserve` does,
    /// with its errors. On `Ok` the desk counts one entry and n indices received, at `Store` one
    /// entry and n indices burnt, at `Exhausted` and `OutOfMemory` nothing.
    pub fn reserve<R: Wait>(
        &self,
        rt: &R,
        desk: &mut Desk<E, G, B>,
        n: u64,
    ) -> Result<Lease, BookFault>
        requires some { 1 ≤ n }
        requires at_most { n ≤ most_covered }
        ensures desk { Counts n desk.old result desk.new }
        ensures key { IfOk result (λ lease. lease.key ≡ self.now.book.key) }
        ensures reserves { (old new : BookState) × (old.key ≡ self.now.book.key)
            × IsFound self.now desk.old old × ReservesInOrder n old result new }
    {
        self.counted.lock(rt).reserve(desk, n)
    }

    /// Spends a lease that is no longer needed, whether its indices signed or not. They stay used.
    pub fn give_back(&self, lease: Lease) {
        lease.end()
    }

    /// Waits for the lock, lends what the book has reserved to a closure, and returns its answer.
    /// The closure must not ask for the lock again.
    pub fn with<T, F: FnOnce(&Reservations) -> T, R: Wait>(&self, rt: &R, f: F) -> T
        requires { F.IsAlwaysCallable f }
        ensures { (book : BookState) × (book.key ≡ self.now.book.key) × IsInOrder book
            × ((entries : List EntryOfCode) × IsAfter self.now.book entries book)
            × FnOnceReturnsAt F.FnOnce f (reservations_of book) result }
    {
        let guard = self.counted.lock(rt);
        let counted: &CountedBook<S, E, G, B> = &guard;
        f(counted.book.reservations())
    }

    /// Takes the book back once all desks have come. It is the book that was shared, after
    /// reservations whose entries, indices given and indices burnt are the sums over the desks.
    ///
    /// `MissingDesks`, with the number of desks that came, exactly where these are fewer than
    /// `share` gave out. All is then handed back as it was.
    pub fn settle(
        self,
        desks: Vec<Desk<E, G, B>>,
    ) -> Result<Book<S>, (MissingDesks, Self, Vec<Desk<E, G, B>>)>
        ensures key { IfOk result (λ book. book.key ≡ self.book.key) }
        ensures settled { IfOk result (λ book. IsSettled self.book (total desks.items) book) }
        ensures counted { IfOk result (λ book.
            sums_of book.history ≡ plus (sums_of self.book.history) (total desks.items)) }
        ensures all { OnOk result (length desks.items ≡ self.desks) }
        ensures missing { IfErr result (λ e.
            (e.0.present ≡ length desks.items) × (length desks.items < self.desks)) }
        ensures back { IfErr result (λ e. (e.1 ≡ self) × (e.2.items ≡ desks.items)) }
    {
        if desks.len() < self.desks {
            let present = desks.len();
            return Err((MissingDesks { present }, self, desks));
        }
        let SharedBook {
            counted,
            key: _,
            desks: _,
        } = self;
        Ok(counted.into_inner().into_book(desks))
    }
}
