//! What a book has reserved, apart from its store.
ghost use Rattle.std.specs.Prelude.{◌≡◌, ◌+◌, ◌-◌, ◌≤◌, [], ◌∷◌, ◌++◌, ◌↔◌, OnOk, OnErr, IsTrue, Contains};
ghost use Rattle.lms_spec.specs.Hss.{capacity_of};
ghost use Rattle.lms_hss.specs.Keys.{hss_key_of};
ghost use Rattle.lms_image.specs.Image.{HasImage};
ghost use Rattle.lms_book.specs.declared.history.Entry.TheVariants.{Burnt};
ghost use Rattle.lms_book.specs.History.{counter_of, burnt_after, confirmed, leases, range_of, stored_of};
ghost use Rattle.lms_book.specs.States.{IsNextOf};

use crate::book::Lease;
use crate::history::{Entry, is_given};
use lms_hss::{HssKey, same_key};
use lms_image::Image;
use lms_params::OutOfMemory;
use std::alloc::Global;
use std::marker::Model;

/// A key, the counter, openings and burnt indices that were read when its store was opened, and the
/// reservations since. Contracts see these five.
#[derive(Drop)]
pub struct Reservations {
    key: HssKey,
    base: u64,
    openings: u64,
    burnt_before: u64,
    counter: u64,
    stored: u64,
    burnt: u64,
    history: Vec<Entry>,
}

impl Model for Reservations {
    ghost use Rattle.lms_book.specs.States.{ReservationsState, IsKept};

    ghost Value = { ReservationsState };

    ghost view = { λ r. record {
      key = r.key;
      base = r.base;
      openings = r.openings;
      burnt = r.burnt_before;
      history = r.history.items;
    } };

    ghost invariant = { λ r. IsKept (record {
      key = r.key;
      base = r.base;
      openings = r.openings;
      burnt = r.burnt_before;
      history = r.history.items;
    }) r.counter r.stored r.burnt };
}

impl Reservations {
    /// The key and the numbers of an image that was read, and no reservations yet.
    pub(crate) fn none_since(alloc: Global, image: &Image) -> Self
        requires { HasImage image.now.key image.now.counter image.now.openings image.now.burnt }
        ensures { result ≡ record {
          key = image.now.key;
          base = image.now.counter;
          openings = image.now.openings;
          burnt = image.now.burnt;
          history = [];
        } }
    {
        Reservations {
            key: image.key,
            base: image.counter,
            openings: image.openings,
            burnt_before: image.burnt,
            counter: image.counter,
            stored: image.counter,
            burnt: image.burnt,
            history: Vec::new(alloc),
        }
    }

    /// The key whose indices are given.
    pub fn key(&self) -> HssKey
        ensures { result ≡ self.now.key }
    {
        self.key
    }

    /// The counter that was read at the opening.
    pub fn base(&self) -> u64
        ensures { result ≡ self.now.base }
    {
        self.base
    }

    /// How many earlier openings stored something, as was read. The images that this opening stores
    /// count it, too.
    pub fn openings(&self) -> u64
        ensures { result ≡ self.now.openings }
    {
        self.openings
    }

    /// How many of the key's indices were burnt: those that were read, and the lengths of the
    /// `Burnt` entries since. Leases that were given back don't count.
    pub fn burnt(&self) -> u64
        ensures { result ≡ burnt_after self.now.burnt self.now.history }
    {
        self.burnt
    }

    /// The reservations since the opening.
    pub fn history(&self) -> &[Entry]
        ensures { result.now ≡ self.now.history }
    {
        &self.history
    }

    /// How many of the key's indices are used: the base and the lengths of all reservations.
    pub fn counter(&self) -> u64
        ensures counter { result ≡ counter_of self.now.base self.now.history }
        ensures within { result ≤ capacity_of (hss_key_of self.now.key) }
        ensures counted { HasImage self.now.key result self.now.openings
            (burnt_after self.now.burnt self.now.history) }
    {
        self.counter
    }

    /// The counter of the last image that was stored for certain, or the base before any.
    pub fn stored(&self) -> u64
        ensures { result ≡ stored_of self.now.base self.now.history }
    {
        self.stored
    }

    /// The image to store so that n more indices are used. It counts this opening, and the indices
    /// burnt so far.
    pub(crate) fn next_image(&self, n: u64) -> Image
        requires some { 1 ≤ n }
        requires enough { counter_of self.now.base self.now.history + n
            ≤ capacity_of (hss_key_of self.now.key) }
        ensures { IsNextOf self.now n result }
    {
        Image {
            key: self.key,
            counter: self.counter + n,
            openings: self.openings + 1,
            burnt: self.burnt,
        }
    }

    /// Begins to reserve the next n indices, which count as burnt until `confirm`. `OutOfMemory`,
    /// with nothing changed, where memory for the entry is refused.
    pub(crate) fn begin(&mut self, n: u64) -> Result<(), OutOfMemory>
        requires { counter_of self.old.base self.old.history + n
            ≤ capacity_of (hss_key_of self.old.key) }
        ensures ok { OnOk result
            (self.new ≡ record self.old { history = self.old.history ++ Burnt n ∷ [] }) }
        ensures err { OnErr result (self.new ≡ self.old) }
    {
        self.history.push(Entry::Burnt { len: n })?;
        self.counter += n;
        self.burnt += n;
        Ok(())
    }

    /// Makes the last entry `Given`, now that its image is stored: its indices no longer count as
    /// burnt. Nothing changes where there is no entry.
    pub(crate) fn confirm(&mut self)
        ensures { self.new ≡ record self.old { history = confirmed self.old.history } }
    {
        if let Some(last) = self.history.last_mut() {
            self.burnt -= last.burnt();
            *last = Entry::Given { len: last.len() };
            self.stored = self.counter;
        }
    }

    /// Whether the lease is of this key and its range was given since the opening.
    pub fn knows(&self, lease: &Lease) -> bool
        ensures { IsTrue result ↔ ((lease.now.key ≡ self.now.key)
            × Contains (leases self.now.base self.now.history)
            (range_of lease.now.start lease.now.len)) }
    {
        // for the proof: the counter is within the capacity
        let _counter = self.counter();
        same_key(&lease.key(), &self.key())
            && is_given(self.history(), self.base(), lease.start(), lease.len())
    }
}
