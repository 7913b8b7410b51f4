//! The versions of an image, and what version 2 adds.
ghost use Rattle.std.specs.Prelude.{◌≡◌, ◌<◌, ◌≢◌, length, IfSome, IfNone};
ghost use Rattle.lms_image.specs.Image.{code_of, later_length};
ghost use Rattle.lms_image.specs.Reading.{ReadsLater};

use lms_params::split_u64;

/// A version of the image.
#[derive(Clone, Copy)]
pub(crate) enum Version {
    /// Read, and no longer written. It has no openings and no burnt indices.
    First,
    /// Read and written.
    Second,
}

impl Version {
    /// The version of this number. `None` where it is neither 1 nor 2.
    pub(crate) fn from_code(code: u32) -> Option<Version>
        ensures some { IfSome result (λ version. code ≡ code_of version) }
        ensures not_first { IfNone result (code ≢ 1) }
        ensures not_second { IfNone result (code ≢ 2) }
    {
        match code {
            1 => Some(Version::First),
            2 => Some(Version::Second),
            _ => None,
        }
    }
}

/// How many openings stored something, how many indices are burnt, and the bytes after these
/// numbers; in version 1, which has neither number, 0, 0 and all the bytes. `None` exactly where
/// there are too few bytes.
pub(crate) fn split_later(version: Version, bytes: &[u8]) -> Option<(u64, u64, &[u8])>
    ensures some { IfSome result (λ s. ReadsLater version bytes.now s.0 s.1 s.2.now) }
    ensures none { IfNone result (length bytes.now < later_length version) }
{
    match version {
        Version::First => Some((0, 0, bytes)),
        Version::Second => {
            let (openings, rest) = split_u64(bytes)?;
            let (burnt, rest) = split_u64(rest)?;
            Some((openings, burnt, rest))
        }
    }
}
