//! Desks, which count what they received from a shared book.
ghost use Rattle.std.specs.Prelude.{◌≡◌, ◌+◌, ◌<◌, ◌≤◌, ◌^◌, length, vec_len, vec_capacity, replicate};
ghost use Rattle.lms_shared_book.specs.Desks.{Sums, sums, plus, total};

use crate::book_ledger::{BookLedger, Shares, Totals};
use std::marker::Model;
use std::sync::ledger::Ledger;

/// A caller's desk at a shared book. It counts what its reservations added to the book's history.
/// Its ledgers are those of its book, so a desk of another book does not fit.
#[derive(Drop)]
pub struct Desk<E: BookLedger, G: Ledger, B: Ledger> {
    entries: u64,
    received: u64,
    burnt: u64,
    shares: Shares<E, G, B>,
}

impl<E: BookLedger, G: Ledger, B: Ledger> Model for Desk<E, G, B> {
    ghost use Rattle.std.specs.Prelude.{◌≡◌};
    ghost use Rattle.lms_shared_book.specs.Desks.{Sums, sums};

    ghost Value = { Sums };

    ghost view = { λ desk. sums desk.entries desk.received desk.burnt };

    ghost invariant = { λ desk.
        (desk.shares.parts ≡ 1)
        × (desk.shares.counted ≡ sums desk.entries desk.received desk.burnt) };
}

impl<E: BookLedger, G: Ledger, B: Ledger> Desk<E, G, B> {
    /// How many entries its reservations added to the history.
    pub fn entries(&self) -> u64
        ensures { result ≡ self.now.entries }
    {
        self.entries
    }

    /// How many indices it received.
    pub fn received(&self) -> u64
        ensures { result ≡ self.now.received }
    {
        self.received
    }

    /// How many indices its reservations burnt.
    pub fn burnt(&self) -> u64
        ensures { result ≡ self.now.burnt }
    {
        self.burnt
    }

    /// Changes nothing. For the proof: where the desk and another share are all there are, the two
    /// count the totals.
    pub(crate) fn audit(&mut self, totals: &mut Totals<E, G, B>, other: &mut Shares<E, G, B>)
        requires { other.old.parts ≡ 1 }
        ensures desk { self.new ≡ self.old }
        ensures totals { totals.new ≡ totals.old }
        ensures other { other.new ≡ other.old }
        ensures alone { (E.parts ≡ 2) × (G.parts ≡ 2)
            × (B.parts ≡ 2) → plus other.old.counted self.old ≡ totals.old }
    {
        self.shares
            .give(other, self.entries, self.received, self.burnt);
        totals.audit(other);
        other.give(&mut self.shares, self.entries, self.received, self.burnt);
    }

    /// Counts so many entries more, with the indices that the desk received and those that were
    /// burnt.
    pub(crate) fn count(
        &mut self,
        totals: &mut Totals<E, G, B>,
        entries: u64,
        received: u64,
        burnt: u64,
    )
        requires entries { totals.old.entries + entries < 2 ^ 64 }
        requires received { totals.old.received + received < 2 ^ 64 }
        requires burnt { totals.old.burnt + burnt < 2 ^ 64 }
        ensures desk { self.new ≡ plus self.old (sums entries received burnt) }
        ensures totals { totals.new ≡ plus totals.old (sums entries received burnt) }
    {
        // for the proof: no number of a desk is above its total
        totals.audit(&mut self.shares);
        totals.add(&mut self.shares, entries, received, burnt);
        self.entries += entries;
        self.received += received;
        self.burnt += burnt;
    }
}

/// Makes `count` desks that have counted nothing, each with one part of the shares, which keep one.
/// `memory` must be empty and have room for them.
pub(crate) fn new_desks<E: BookLedger, G: Ledger, B: Ledger>(
    memory: Vec<Desk<E, G, B>>,
    shares: &mut Shares<E, G, B>,
    count: usize,
) -> Vec<Desk<E, G, B>>
    requires empty { vec_len memory ≡ 0 }
    requires capacity { count ≤ vec_capacity memory }
    requires parts { shares.old.parts ≡ count + 1 }
    ensures desks { result.items ≡ replicate count (sums 0 0 0) }
    ensures shares { shares.new ≡ record { parts = 1; counted = shares.old.counted } }
{
    let mut desks = memory;
    for _ in 0..count {
        let desk = Desk {
            entries: 0,
            received: 0,
            burnt: 0,
            shares: shares.split_off(),
        };
        desks.push_reserved(desk);
    }
    desks
}

/// Puts these shares and those of all desks together.
pub(crate) fn all_shares<E: BookLedger, G: Ledger, B: Ledger>(
    shares: Shares<E, G, B>,
    desks: Vec<Desk<E, G, B>>,
) -> Shares<E, G, B>
    requires { shares.parts ≤ E.parts }
    ensures parts { result.parts ≡ shares.parts + length desks.items }
    ensures counted { result.counted ≡ plus shares.counted (total desks.items) }
    ensures apart { result.parts ≤ E.parts }
{
    let mut all = shares;
    let mut desks = desks;
    while let Some(desk) = desks.pop() {
        let Desk {
            entries: _,
            received: _,
            burnt: _,
            shares,
        } = desk;
        all.merge(shares);
    }
    all
}
