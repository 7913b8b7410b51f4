//! Reservations one after another, each stored before its lease is given.
ghost use Rattle.std.specs.Prelude.{◌≡◌, ◌+◌, ◌≤◌, [], IfOk, IfErr};
ghost use Rattle.lms_spec.specs.Hss.{capacity_of};
ghost use Rattle.lms_hss.specs.Covered.{most_covered};
ghost use Rattle.lms_hss.specs.Keys.{hss_key_of};

use crate::fault::{BookFault, OpenFault, ReadFault, StoreFault};
use crate::reservations::Reservations;
use crate::store::StateStore;
use lms_hss::HssKey;
use lms_image::{decode_image, encode_image};
use std::alloc::Global;
use std::marker::Model;
use std::ops::Deref;

/// 1 to 1024 indices of a key, which are given once and never again. A lease can't be copied or
/// dropped: `give_back` of its book or `end` spends it. Only `Book::reserve` makes one.
pub struct Lease {
    key: HssKey,
    start: u64,
    len: u64,
}

impl Model for Lease {
    ghost use Rattle.lms_book.specs.States.{LeaseState, IsLease};

    ghost Value = { LeaseState };

    ghost view = { λ lease. record { key = lease.key; start = lease.start; len = lease.len } };

    ghost invariant = { λ lease. IsLease lease.key lease.start lease.len };
}

impl Lease {
    /// The key whose indices these are.
    pub fn key(&self) -> HssKey
        ensures { result ≡ self.now.key }
    {
        self.key
    }

    /// The first index.
    pub fn start(&self) -> u64
        ensures start { result ≡ self.now.start }
        ensures within { self.now.start + self.now.len ≤ capacity_of (hss_key_of self.now.key) }
    {
        self.start
    }

    /// How many indices there are.
    pub fn len(&self) -> u64
        ensures len { result ≡ self.now.len }
        ensures some { 1 ≤ result }
        ensures at_most { result ≤ most_covered }
    {
        self.len
    }

    /// Spends the lease. Its indices stay used.
    pub fn end(self) {
        let Lease {
            key: _,
            start: _,
            len: _,
        } = self;
    }
}

/// A store, and what was reserved of its key since it was opened. Contracts see the key, the
/// numbers that were read, the reservations, and what a crash would leave in the store.
///
/// `key`, `base`, `openings`, `burnt`, `history`, `counter`, `stored` and `knows` are those of its
/// `Reservations`.
#[derive(Drop)]
pub struct Book<S: StateStore> {
    store: S,
    reservations: Reservations,
}

impl<S: StateStore> Model for Book<S> {
    ghost use Rattle.lms_book.specs.States.{BookState, IsBackedBy};

    ghost Value = { BookState };

    ghost view = { λ book. record {
      key = book.reservations.key;
      base = book.reservations.base;
      openings = book.reservations.openings;
      burnt = book.reservations.burnt;
      history = book.reservations.history;
      store = S.seen book.store;
    } };

    ghost invariant = { λ book. IsBackedBy book.reservations (S.seen book.store) };
}

impl<S: StateStore> Deref for Book<S> {
    type Target = Reservations;

    ghost use Rattle.lms_book.specs.States.{reservations_of};

    ghost deref_gives = { λ book reservations. reservations ≡ reservations_of book };

    fn deref(&self) -> &Reservations {
        &self.reservations
    }
}

impl<S: StateStore> Book<S> {
    ghost use Rattle.lms_image.specs.Image.{HasImage};
    ghost use Rattle.lms_book.specs.Stops.{Texts};
    ghost use Rattle.lms_book.specs.States.{IsOpenedFrom, IsSameOpening, reservations_of};
    ghost use Rattle.lms_book.specs.Books.{Reserves, IsReadFrom, HasCause, IsInOrder};

    /// Reads the image that the store holds, of either version, and opens a book with its key and
    /// numbers. Nothing is written, so a crash leaves what it could leave before. The first write
    /// counts the opening.
    ///
    /// An `Err` hands the store back: `Store` where its read failed, `Image` with the first fault
    /// where the stored bytes are no image, `OutOfMemory` where memory for them is refused.
    pub fn open(alloc: Global, store: S) -> Result<Self, (OpenFault, S)>
        ensures opened { IfOk result (IsOpenedFrom (S.seen store).now) }
        ensures fresh { IfOk result (λ book. book.history ≡ []) }
        ensures found { IfOk result (IsReadFrom (S.seen store)) }
        ensures counted { IfOk result (λ book.
            HasImage book.key book.base book.openings book.burnt) }
        ensures err { IfErr result (λ e.
            HasCause (S.may_fail store) (S.seen store) e.0 (S.seen e.1)) }
    {
        let mut store = store;
        let text = match store.read(alloc) {
            Ok(text) => text,
            Err(ReadFault::Device) => return Err((OpenFault::Store, store)),
            Err(ReadFault::OutOfMemory) => return Err((OpenFault::OutOfMemory, store)),
        };
        match decode_image(&text) {
            Ok(image) => Ok(Book {
                store,
                reservations: Reservations::none_since(alloc, &image),
            }),
            Err(fault) => Err((OpenFault::Image(fault), store)),
        }
    }

    /// What it has reserved. Its counter is within the key's capacity, and its leases are disjoint
    /// and below every counter that a crash could leave stored.
    pub fn reservations(&self) -> &Reservations
        ensures all { result.now ≡ reservations_of self.now }
        ensures in_order { IsInOrder self.now }
    {
        // for the proof: the counter is within the capacity
        let _counter = self.reservations.counter();
        &self.reservations
    }

    /// Reserves the next n indices, 1 to 1024. Before the lease is given, an image of version 2 is
    /// stored that counts them as used, this opening, and the indices burnt so far.
    ///
    /// `Exhausted`, with the number left, where the key has fewer than n left, and `OutOfMemory`
    /// where memory for one more entry of the history is refused; neither changes anything. `Store`
    /// where the image may not have been stored: the indices are burnt, this book gives them to
    /// nobody, and `stored` stays. A crash during the call leaves that image or what it could leave
    /// before.
    pub fn reserve(&mut self, n: u64) -> Result<Lease, BookFault>
        requires some { 1 ≤ n }
        requires at_most { n ≤ most_covered }
        ensures opening { IsSameOpening self.old self.new }
        ensures reserves { Reserves n self.old result self.new }
    {
        let key = self.reservations.key();
        let start = self.reservations.counter();
        let left = key.capacity() - start;
        if n > left {
            return Err(BookFault::Exhausted { left });
        }
        let image = self.reservations.next_image(n);
        let Ok(()) = self.reservations.begin(n) else {
            return Err(BookFault::OutOfMemory);
        };
        let text = encode_image(&image);
        match self.store.replace(text.as_slice()) {
            Ok(()) => {
                self.reservations.confirm();
                Ok(Lease { key, start, len: n })
            }
            Err(StoreFault) => Err(BookFault::Store { start, len: n }),
        }
    }

    /// Spends a lease that is no longer needed, whether its indices signed or not. They stay used.
    pub fn give_back(&self, lease: Lease) {
        lease.end()
    }

    /// Ends the book and hands its store back unchanged. What it reserved is one opening in the
    /// laws of lives; the contracts of `open` and `reserve` say what that opening began with.
    pub fn close(self) -> S
        ensures store { S.seen result ≡ self.store }
        ensures opening { (held : Texts) × IsOpenedFrom held self }
    {
        let Book {
            store,
            reservations: _,
        } = self;
        store
    }
}
