//! What a store's last read gave, as contracts see it. Nothing of it is kept at run time.
ghost use Rattle.std.specs.Prelude.{◌≡◌, None, Some};

use std::marker::Model;
use std::snapshot::Snapshot;

/// The bytes that the last read of a store gave, or that there was no read. A store has one as a
/// field, for its `StoreView`. Contracts see the bytes; it takes no memory.
#[derive(Drop)]
pub struct LastRead {
    bytes: Option<Snapshot<Vec<u8>>>,
}

impl Model for LastRead {
    ghost use Rattle.std.specs.Prelude.{List, ℕ, Option, option_map};

    ghost Value = { Option (List ℕ) };

    ghost view = { λ read. option_map (λ bytes. bytes.value.items) read.bytes };
}

impl LastRead {
    /// What a store has before any read gave bytes.
    pub fn none() -> Self
        ensures { result ≡ None }
    {
        LastRead { bytes: None }
    }

    /// What a store has once a read gave these bytes.
    pub fn of(bytes: &Vec<u8>) -> Self
        ensures { result ≡ Some bytes.now.items }
    {
        LastRead {
            bytes: Some(Snapshot::of(bytes)),
        }
    }
}
