//! A store that keeps one byte string, and replaces it whole.
ghost use Rattle.std.specs.Prelude.{Bool};
ghost use Rattle.lms_book.specs.Stops.{StoreView, ReadsStore, WritesStore};

use crate::fault::{ReadFault, StoreFault};
use std::alloc::Global;

/// Keeps one byte string, a key's state, when the program ends or crashes. Contracts see which byte
/// strings a crash could leave, now and at each moment before, which one the last read gave, and
/// how many calls failed.
pub trait StateStore: Send {
    /// The byte strings of which a crash would leave one, now and at each moment before, the one
    /// that the last read gave, and how many calls failed.
    ghost seen: { Self → StoreView };

    /// Whether the next read may fail.
    ghost may_fail: { Self → Bool };

    /// The stored bytes. They are among those that a crash now could leave, and from now on those
    /// that the last read gave. `Device` where the store failed, which it counts; `OutOfMemory`
    /// where memory for the bytes is refused, which it doesn't count. Reading changes nothing that
    /// a crash could leave.
    fn read(&mut self, alloc: Global) -> Result<Vec<u8>, ReadFault>
        ensures reads { ReadsStore (may_fail self.old) (seen self.old) result (seen self.new) };

    /// Replaces the stored bytes by `text`: after `Ok` a crash leaves these bytes and no others.
    /// During the call, and after `Err`, a crash leaves them or what it could leave before the
    /// call. `Err` where the store failed, which it counts; a store that is refused memory here
    /// fails in the same way.
    fn replace(&mut self, text: &[u8]) -> Result<(), StoreFault>
        ensures writes { WritesStore text.now (seen self.old) result (seen self.new) };
}
