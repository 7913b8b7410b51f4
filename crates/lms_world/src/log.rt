//! The log of a world, as contracts see it, and what a world logs. At run time nothing is kept of it.
ghost use Rattle.std.specs.Prelude.{Some, Ok};
ghost use Rattle.std.specs.Borrow.{ftrue};
ghost use Rattle.lms_world.specs.Events as events;

use crate::contents::Contents;
use crate::fault::WorldFault;
pub use crate::printer::Beginning;
use lms_book::StateStore;
use lms_ghost_log::{GhostLog, Logged};
use std::marker::Model;

/// The calls that were made on a world, the newest first.
pub type Log = GhostLog<Event>;

/// A call, as contracts see it. No code makes one.
#[derive(Drop)]
pub struct Event {
    ghost event: { events.Event },
}

impl Model for Event {
    ghost Value = { events.Event };

    ghost view = { λ call. call.event };

    ghost also_owns = { λ _. ftrue };
}

/// A call whose entry needs none of a world's own types.
#[derive(Drop)]
pub enum Call<'a> {
    Read {
        name: &'a str,
        answer: &'a Result<Vec<u8>, WorldFault>,
    },
    NotOpened {
        name: &'a str,
        fault: WorldFault,
    },
    Written {
        name: &'a str,
        bytes: &'a [u8],
        answer: Result<(), WorldFault>,
    },
    Acquired {
        name: &'a str,
    },
    NotAvailable {
        name: &'a str,
    },
    NoMemory {
        name: &'a str,
    },
    Unlocked,
    Asked {
        there: bool,
    },
    NotTaken,
    NodesRead {
        found: &'a Option<Vec<u8>>,
    },
    NodesWritten {
        text: &'a [u8],
        answer: Result<(), WorldFault>,
    },
    WitnessRead {
        answer: &'a Result<Option<Vec<u8>>, WorldFault>,
    },
    WitnessWritten {
        text: &'a [u8],
        answer: Result<(), WorldFault>,
    },
    WitnessMade {
        name: &'a str,
        text: &'a [u8],
        answer: &'a Result<String, WorldFault>,
    },
    Printed {
        bytes: &'a [u8],
    },
}

impl Logged<Event> for Call<'_> {
    ghost use Rattle.lms_world.specs.Calls.{event_of};

    ghost entry = { event_of };
}

/// This file is opened.
pub struct OpenedAs<'a, C: Contents> {
    pub name: &'a str,
    pub contents: &'a C,
}

impl<C: Contents> Drop for OpenedAs<'_, C> {
    fn drop(self) {
        let OpenedAs {
            name: _,
            contents: _,
        } = self;
    }
}

impl<C: Contents> Logged<Event> for OpenedAs<'_, C> {
    ghost entry = { λ call. events.Opened call.name.now (Ok (C.holds call.contents.now)) };
}

/// A draft of the witness is made, or not.
#[derive(Drop)]
pub struct Drafted<'a, D: Drop> {
    pub answer: &'a Result<D, WorldFault>,
}

impl<D: Drop> Logged<Event> for Drafted<'_, D> {
    ghost entry = { λ call. events.WitnessDrafted (events.done_of call.answer.now) };
}

/// This store is taken out.
pub struct TakenOut<'a, S: StateStore> {
    pub store: &'a S,
}

impl<S: StateStore> Drop for TakenOut<'_, S> {
    fn drop(self) {
        let TakenOut { store: _ } = self;
    }
}

impl<S: StateStore> Logged<Event> for TakenOut<'_, S> {
    ghost entry = { λ call. events.Taken
        (Some (events.as_taken S.seen S.may_fail call.store.now)) };
}

/// This store is put back.
pub struct PutIn<'a, S: StateStore> {
    pub store: &'a S,
}

impl<S: StateStore> Drop for PutIn<'_, S> {
    fn drop(self) {
        let PutIn { store: _ } = self;
    }
}

impl<S: StateStore> Logged<Event> for PutIn<'_, S> {
    ghost entry = { λ call. events.PutBack (S.seen call.store.now) };
}
