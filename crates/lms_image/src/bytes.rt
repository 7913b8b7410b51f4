//! The bytes of an image, in place: no memory is taken.
ghost use Rattle.std.specs.Prelude.{◌≡◌, ◌+◌, ◌≤◌, ◌++◌, [], length};
ghost use Rattle.lms_spec.specs.Bytes.{u32str, u64str};
ghost use Rattle.lms_image.specs.Image.{code_size, longest_image, number_size};

use arrayvec::ArrayVec;
use std::marker::Model;

/// The most bytes of an image: those of eight levels.
pub(crate) const MOST_BYTES: usize = 180;

/// The bytes of an image, at most 180. Contracts see the list of them.
#[derive(Drop)]
pub struct ImageBytes {
    bytes: ArrayVec<u8, MOST_BYTES>,
}

impl Model for ImageBytes {
    ghost use Rattle.std.specs.Prelude.{ℕ, List, ◌≤◌, length};
    ghost use Rattle.lms_image.specs.Image.{longest_image};

    ghost Value = { List ℕ };

    ghost view = { λ a. a.bytes.items };

    ghost invariant = { λ a. length a.bytes.items ≤ longest_image };
}

impl ImageBytes {
    /// The bytes.
    pub fn as_slice(&self) -> &[u8]
        ensures bytes { result.now ≡ self.now }
        ensures short { length result.now ≤ longest_image }
    {
        self.bytes.as_slice()
    }

    /// No bytes.
    pub(crate) fn empty() -> Self
        ensures { result ≡ [] }
    {
        ImageBytes {
            bytes: ArrayVec::new(),
        }
    }

    /// Appends these bytes. There must be room for them within 180.
    pub(crate) fn append(&mut self, part: &[u8])
        requires { length self.old + length part.now ≤ longest_image }
        ensures { self.new ≡ self.old ++ part.now }
    {
        match self.bytes.try_extend_from_slice(part) {
            Ok(()) => {}
            Err(_) => unreachable!(),
        }
    }

    /// Appends a number in four bytes, big-endian. There must be room for them.
    pub(crate) fn append_u32(&mut self, number: u32)
        requires { length self.old + code_size ≤ longest_image }
        ensures { self.new ≡ self.old ++ u32str number }
    {
        self.append(&number.to_be_bytes());
    }

    /// Appends a number in eight bytes, big-endian. There must be room for them.
    pub(crate) fn append_u64(&mut self, number: u64)
        requires { length self.old + number_size ≤ longest_image }
        ensures { self.new ≡ self.old ++ u64str number }
    {
        self.append(&number.to_be_bytes());
    }
}
