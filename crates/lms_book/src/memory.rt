//! A store in memory, for tests. It records the bytes that it held, and fails as planned.
ghost use Rattle.std.specs.Prelude.{◌≡◌, ◌-◌, ◌<◌, ◌≤◌, length, Some, None, true, false, ◌↔◌, IsTrue, IfOk, MatchOption};
ghost use Rattle.std.proofs.Math.ListN.{set};
ghost use Rattle.lms_book.specs.Stops.{longest_text};
ghost use Rattle.lms_book.specs.Memory.{IsFresh, Takes, holding, giving, failed, planning, next_write, past_write, next_read, past_read};

use crate::fault::{ReadFault, StoreFault};
use crate::last_read::LastRead;
use crate::plans::{Left, PLANS, Plan, take_first};
use crate::store::StateStore;
use crate::stored_bytes::{MOST_BYTES, StoredBytes};
use lms_params::OutOfMemory;
use std::alloc::Global;
use std::marker::Model;
use std::mem;

/// A store in memory. Contracts see the bytes that it holds, those that it held before each write,
/// those that the last read gave, its capacity for writes, how many calls failed, and which calls
/// are to fail.
#[derive(Drop)]
pub struct MemoryStore {
    past: Vec<Option<StoredBytes>>,
    text: Option<StoredBytes>,
    given: LastRead,
    capacity: usize,
    failures: u64,
    writes: [Option<Plan>; PLANS],
    reads: [bool; PLANS],
    stopped: bool,
}

impl Model for MemoryStore {
    ghost use Rattle.std.specs.Prelude.{◌≤◌, vec_len, vec_capacity};
    ghost use Rattle.lms_book.specs.Memory.{MemoryState};

    ghost Value = { MemoryState };

    ghost view = { λ store. record {
      past = store.past.items;
      text = store.text;
      given = store.given;
      capacity = store.capacity;
      failures = store.failures;
      writes = store.writes;
      reads = store.reads;
      stopped = store.stopped;
    } };

    ghost invariant = { λ store.
        (vec_len store.past ≤ store.capacity) × (store.capacity ≤ vec_capacity store.past) };
}

impl MemoryStore {
    /// A store that holds these bytes, at most 256, or nothing where `text` is `None`. All memory
    /// is taken here, for a record of `capacity` writes; `OutOfMemory` where it is refused.
    pub fn new(alloc: Global, text: Option<&[u8]>, capacity: usize) -> Result<Self, OutOfMemory>
        requires { MatchOption text (Unit {0}) (λ text. length text.now ≤ longest_text) }
        ensures fresh { IfOk result (IsFresh capacity) }
        ensures text { IfOk result (λ store.
            MatchOption text.entry (store.text ≡ None) (λ text. store.text ≡ Some text.now)) }
    {
        let past = Vec::with_capacity(alloc, capacity)?;
        Ok(MemoryStore {
            past,
            text: text.map(|text| short_text(text)),
            given: LastRead::none(),
            capacity,
            failures: 0,
            writes: [None; PLANS],
            reads: [false; PLANS],
            stopped: false,
        })
    }

    /// The bytes that it holds, `None` where nothing is stored.
    pub fn text(&self) -> Option<&[u8]>
        ensures { MatchOption result (self.now.text ≡ None) (λ text.
            self.now.text ≡ Some text.now) }
    {
        match &self.text {
            None => None,
            Some(text) => Some(text.as_slice()),
        }
    }

    /// Plans that the k-th `replace` from now, 1 to 8, fails and leaves the old bytes or the new
    /// ones, as `left` says. Plans for other calls stay.
    pub fn fail_replace(&mut self, k: usize, left: Left)
        requires first { 1 ≤ k }
        requires at_most { k ≤ 8 }
        ensures { self.new ≡ planning self.old k (record { left = left; stops = false }) }
    {
        self.writes[k - 1] = Some(Plan { left, stops: false });
    }

    /// Plans a crash in the k-th `replace` from now, 1 to 8: it fails, leaves the old bytes or the
    /// new ones as `left` says, and every call after it fails. Plans for other calls stay.
    pub fn stop_replace(&mut self, k: usize, left: Left)
        requires first { 1 ≤ k }
        requires at_most { k ≤ 8 }
        ensures { self.new ≡ planning self.old k (record { left = left; stops = true }) }
    {
        self.writes[k - 1] = Some(Plan { left, stops: true });
    }

    /// Plans that the k-th `read` from now, 1 to 8, fails. Plans for other calls stay.
    pub fn fail_read(&mut self, k: usize)
        requires first { 1 ≤ k }
        requires at_most { k ≤ 8 }
        ensures { self.new ≡ record self.old { reads = set self.old.reads (k - 1) true } }
    {
        self.reads[k - 1] = true;
    }

    /// The store as the program finds it when it starts again: its bytes and its capacity, with an
    /// empty record, nothing given or planned, and no failure counted.
    pub fn restart(self) -> Self
        ensures text { result.text ≡ self.text }
        ensures fresh { IsFresh self.capacity result }
    {
        let MemoryStore {
            past,
            text,
            given: _,
            capacity,
            failures: _,
            writes: _,
            reads: _,
            stopped: _,
        } = self;
        let mut past = past;
        past.clear();
        MemoryStore {
            past,
            text,
            given: LastRead::none(),
            capacity,
            failures: 0,
            writes: [None; PLANS],
            reads: [false; PLANS],
            stopped: false,
        }
    }

    /// Whether it can take a write of these bytes.
    fn takes(&self, text: &[u8]) -> bool
        ensures { IsTrue result ↔ Takes self.now text.now }
    {
        !self.stopped && self.past.len() < self.capacity && text.len() <= MOST_BYTES
    }

    /// How the next write is to fail, `None` where it isn't. The plans for the others move one
    /// place forward. Where that write is to be a crash, every later call fails.
    fn next_write(&mut self) -> Option<Plan>
        ensures plan { result ≡ next_write self.old }
        ensures others { self.new ≡ past_write self.old }
    {
        let plan = take_first(&mut self.writes, None);
        if let Some(plan) = plan {
            self.stopped |= plan.stops;
        }
        plan
    }

    /// Whether the next read is to fail. The plans for the others move one place forward.
    fn next_read(&mut self) -> bool
        ensures plan { result ≡ next_read self.old }
        ensures others { self.new ≡ past_read self.old }
    {
        take_first(&mut self.reads, false)
    }

    /// Holds these bytes, at most 256, from now on, and records those before. There must be room in
    /// the record.
    fn hold(&mut self, text: &[u8])
        requires capacity { length self.old.past < self.old.capacity }
        requires short { length text.now ≤ longest_text }
        ensures { self.new ≡ holding self.old text.now }
    {
        let old = mem::replace(&mut self.text, Some(short_text(text)));
        self.past.push_reserved(old);
    }

    /// From now on these are the bytes that the last read gave.
    fn give(&mut self, text: &Vec<u8>)
        ensures { self.new ≡ giving self.old text.now.items }
    {
        self.given = LastRead::of(text);
    }

    /// Counts a failure.
    fn fail(&mut self)
        ensures { self.new ≡ failed self.old }
    {
        self.failures = self.failures.saturating_add(1);
    }
}

impl StateStore for MemoryStore {
    ghost use Rattle.lms_book.specs.Memory.{cannot_read, view_of, Reads, Replaces};
    ghost use Rattle.lms_book.specs.Stops.{ReadsStore, WritesStore};

    ghost seen = { view_of };

    ghost may_fail = { cannot_read };

    /// `Device` as planned, after a planned crash, and while nothing is stored (`text` answers
    /// `None`). `OutOfMemory`, which is not counted, where memory for the bytes is refused.
    fn read(&mut self, alloc: Global) -> Result<Vec<u8>, ReadFault>
        ensures reads { ReadsStore (cannot_read self.old) (view_of self.old) result (view_of self.new) }
        ensures planned { Reads self.old result self.new }
    {
        let fails = self.next_read();
        let copied = match &self.text {
            Some(text) if !fails && !self.stopped => Vec::from_slice(alloc, text.as_slice()),
            _ => {
                self.fail();
                return Err(ReadFault::Device);
            }
        };
        match copied {
            Ok(text) => {
                self.give(&text);
                Ok(text)
            }
            Err(_) => Err(ReadFault::OutOfMemory),
        }
    }

    /// Takes no memory. Fails as planned and after a planned crash; and, with the old bytes left,
    /// where its record is full or there are over 256 bytes.
    fn replace(&mut self, text: &[u8]) -> Result<(), StoreFault>
        ensures writes { WritesStore text.now (view_of self.old) result (view_of self.new) }
        ensures planned { Replaces self.old text.now result self.new }
    {
        let takes = self.takes(text);
        let plan = self.next_write();
        if !takes {
            self.fail();
            return Err(StoreFault);
        }
        match plan {
            None => {
                self.hold(text);
                Ok(())
            }
            Some(
                Plan {
                    left: Left::New,
                    stops: _,
                },
            ) => {
                self.hold(text);
                self.fail();
                Err(StoreFault)
            }
            Some(
                Plan {
                    left: Left::Old,
                    stops: _,
                },
            ) => {
                self.fail();
                Err(StoreFault)
            }
        }
    }
}

/// These bytes, which are at most 256.
fn short_text(bytes: &[u8]) -> StoredBytes
    requires { length bytes.now ≤ longest_text }
    ensures { result ≡ bytes.now }
{
    match StoredBytes::new(bytes) {
        Some(text) => text,
        None => unreachable!(),
    }
}
