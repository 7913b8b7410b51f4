//! At most 256 bytes, kept in place.
ghost use Rattle.std.specs.Prelude.{◌≡◌, ◌<◌, ◌≤◌, IfNone, IfSome, length};
ghost use Rattle.lms_book.specs.Stops.{longest_text};

use arrayvec::ArrayVec;
use std::marker::Model;

/// The most bytes.
pub(crate) const MOST_BYTES: usize = 256;

/// Bytes that a store keeps, at most 256: no image is as long. Contracts see the bytes.
#[derive(Default, Drop)]
pub struct StoredBytes {
    bytes: ArrayVec<u8, MOST_BYTES>,
}

impl Model for StoredBytes {
    ghost use Rattle.std.specs.Prelude.{List, ℕ};

    ghost Value = { List ℕ };

    ghost view = { λ text. text.bytes.items };
}

impl StoredBytes {
    /// These bytes, without taking memory. `None` where there are over 256.
    pub fn new(bytes: &[u8]) -> Option<Self>
        ensures made { IfSome result (λ text. text ≡ bytes.now) }
        ensures short { IfSome result (λ _. length bytes.now ≤ longest_text) }
        ensures long { IfNone result (longest_text < length bytes.now) }
    {
        let bytes = ArrayVec::try_from(bytes).ok()?;
        Some(StoredBytes { bytes })
    }

    /// The bytes.
    pub fn as_slice(&self) -> &[u8]
        ensures { result.now ≡ self.now }
    {
        self.bytes.as_slice()
    }
}
