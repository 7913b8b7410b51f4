//! Bytes that may be no image, by their fields.
use lms_image::ImageFault;
use sha2::{Digest, Sha256};
use std::alloc::{AllocError, Global};

/// The fields of bytes that may be no image.
#[derive(Clone, Copy)]
pub(super) struct Fields {
    pub(super) start: [u8; 4],
    pub(super) version: u32,
    pub(super) count: u32,
    pub(super) codes: &'static [(u32, u32)],
    pub(super) counter: u64,
    /// The numbers after the counter, where the version has them.
    pub(super) later: Option<(u64, u64)>,
}

impl Fields {
    /// The bytes before those of the key.
    fn head(&self, alloc: Global) -> Result<Vec<u8>, AllocError> {
        let mut text = Vec::from_slice(alloc, &self.start)?;
        text.extend_from_slice(&self.version.to_be_bytes())?;
        text.extend_from_slice(&self.count.to_be_bytes())?;
        for (lms, ots) in self.codes {
            text.extend_from_slice(&lms.to_be_bytes())?;
            text.extend_from_slice(&ots.to_be_bytes())?;
        }
        Ok(text)
    }

    /// The bytes before the digest.
    fn body(&self, alloc: Global) -> Result<Vec<u8>, AllocError> {
        let mut text = self.head(alloc)?;
        text.extend_from_slice(&[0x11; 32])?;
        text.extend_from_slice(&[0x22; 16])?;
        text.extend_from_slice(&self.counter.to_be_bytes())?;
        if let Some((openings, burnt)) = self.later {
            text.extend_from_slice(&openings.to_be_bytes())?;
            text.extend_from_slice(&burnt.to_be_bytes())?;
        }
        Ok(text)
    }

    /// The bytes, with the right digest at their end.
    pub(super) fn text(&self, alloc: Global) -> Result<Vec<u8>, AllocError> {
        let mut text = self.body(alloc)?;
        let digest = Sha256::digest(text.as_slice());
        text.extend_from_slice(&digest)?;
        Ok(text)
    }

    /// The same in version 2, with no openings and no burnt indices; where the version is another
    /// one, with that.
    pub(super) fn in_version_2(&self) -> Fields {
        let version = if self.version == 1 { 2 } else { self.version };
        Fields {
            version,
            later: Some((0, 0)),
            ..*self
        }
    }
}

/// The fields of the image of 5/8 with counter 5 in version 1.
pub(super) const SOUND: Fields = Fields {
    start: *b"HSSK",
    version: 1,
    count: 1,
    codes: &[(5, 4)],
    counter: 5,
    later: None,
};

/// The fields of the same in version 2, with 2 openings and 1 burnt index.
pub(super) const SOUND_NOW: Fields = Fields {
    version: 2,
    later: Some((2, 1)),
    ..SOUND
};

/// Bytes with their digest, and their fault: the first where two hold.
const WITH_THEIR_DIGEST: [(Fields, Option<ImageFault>); 20] = [
    (
        Fields {
            start: *b"HSSL",
            version: 3,
            ..SOUND
        },
        Some(ImageFault::NotAnImage),
    ),
    (
        Fields {
            version: 3,
            count: 9,
            ..SOUND
        },
        Some(ImageFault::UnknownVersion),
    ),
    (Fields { count: 9, ..SOUND }, Some(ImageFault::BadLevels)),
    (
        Fields {
            count: 0,
            codes: &[],
            ..SOUND
        },
        Some(ImageFault::BadLevels),
    ),
    (Fields { count: 3, ..SOUND }, Some(ImageFault::WrongLength)),
    (
        Fields {
            codes: &[(0, 4)],
            ..SOUND
        },
        Some(ImageFault::BadType),
    ),
    (
        Fields {
            codes: &[(10, 4)],
            ..SOUND
        },
        Some(ImageFault::BadType),
    ),
    (
        Fields {
            codes: &[(5, 0)],
            ..SOUND
        },
        Some(ImageFault::BadType),
    ),
    (
        Fields {
            codes: &[(5, 5)],
            counter: 33,
            ..SOUND
        },
        Some(ImageFault::BadType),
    ),
    (
        Fields {
            count: 5,
            codes: &[(7, 4), (7, 4), (7, 4), (7, 4), (8, 5)],
            ..SOUND
        },
        Some(ImageFault::BadType),
    ),
    (
        Fields {
            count: 5,
            codes: &[(7, 4); 5],
            counter: u64::MAX,
            ..SOUND
        },
        Some(ImageFault::TooTall),
    ),
    (
        Fields {
            count: 3,
            codes: &[(9, 4), (9, 4), (7, 4)],
            ..SOUND
        },
        Some(ImageFault::TooTall),
    ),
    (
        Fields {
            codes: &[(8, 4)],
            ..SOUND
        },
        None,
    ),
    (
        Fields {
            codes: &[(8, 4)],
            counter: 1048577,
            ..SOUND
        },
        Some(ImageFault::CounterTooHigh),
    ),
    (
        Fields {
            codes: &[(9, 4)],
            counter: 33554432,
            ..SOUND
        },
        None,
    ),
    (
        Fields {
            codes: &[(9, 4)],
            counter: 33554433,
            ..SOUND
        },
        Some(ImageFault::CounterTooHigh),
    ),
    (
        Fields {
            count: 4,
            codes: &[(7, 4); 4],
            counter: (1 << 60) + 1,
            ..SOUND
        },
        Some(ImageFault::CounterTooHigh),
    ),
    (
        Fields {
            count: 4,
            codes: &[(7, 4); 4],
            counter: (1 << 60) - 1,
            ..SOUND
        },
        None,
    ),
    (
        Fields {
            counter: 33,
            ..SOUND
        },
        Some(ImageFault::CounterTooHigh),
    ),
    (
        Fields {
            counter: 32,
            ..SOUND
        },
        None,
    ),
];

pub(super) fn with_their_digest() -> [(Fields, Option<ImageFault>); 20] {
    WITH_THEIR_DIGEST
}
