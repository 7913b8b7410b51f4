//! What is wrong with bytes that are no state image.
ghost use Rattle.std.specs.Prelude.{Some};
ghost use Rattle.lms_image.specs.Faults.{image_fault_text};

use std::{error, fmt};

/// What is wrong with bytes that should be an image: the first of these, in this order.
#[derive(Clone, Copy, Debug, PartialEq, Eq)]
pub enum ImageFault {
    /// There are fewer than 12 bytes.
    Truncated,
    /// The first four bytes aren't `HSSK`.
    NotAnImage,
    /// The version is neither 1 nor 2.
    UnknownVersion,
    /// The number of levels is 0 or over 8.
    BadLevels,
    /// The length isn't that of an image of its version with so many levels.
    WrongLength,
    /// The last 32 bytes aren't the digest of those before.
    Damaged,
    /// A typecode is unknown.
    BadType,
    /// The heights sum to over 60.
    TooTall,
    /// The counter is over the key's capacity.
    CounterTooHigh,
    /// More openings are counted than used indices.
    OpeningTooHigh,
    /// More burnt indices are counted than used ones.
    BurntTooHigh,
}

impl fmt::Display for ImageFault {
    ghost output = { λ fault. Some (image_fault_text fault) };

    fn fmt<W: fmt::Write>(&self, f: &mut fmt::Formatter<W>) -> fmt::Result {
        f.write_str(match self {
            ImageFault::Truncated => "Truncated",
            ImageFault::NotAnImage => "NotAnImage",
            ImageFault::UnknownVersion => "UnknownVersion",
            ImageFault::BadLevels => "BadLevels",
            ImageFault::WrongLength => "WrongLength",
            ImageFault::Damaged => "Damaged",
            ImageFault::BadType => "BadType",
            ImageFault::TooTall => "TooTall",
            ImageFault::CounterTooHigh => "CounterTooHigh",
            ImageFault::OpeningTooHigh => "OpeningTooHigh",
            ImageFault::BurntTooHigh => "BurntTooHigh",
        })
    }
}

impl error::Error for ImageFault {}
