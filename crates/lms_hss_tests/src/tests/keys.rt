//! Keys and their levels.
use crate::tests::{LEVEL, THREE_LEVELS, signed};
use lms_fixtures::key_of;
use lms_hss::{HssKey, KeyFault, Levels, LevelsText, same_key};
use lms_params::{LmsType, OtsType};
use std::test::Fail;

const TALL: (LmsType, OtsType) = (LmsType::H15, OtsType::W8);

const TALLER: (LmsType, OtsType) = (LmsType::H20, OtsType::W8);

const TALLEST: (LmsType, OtsType) = (LmsType::H25, OtsType::W8);

/// Lists of levels that are refused, where two faults hold the first.
const REFUSED: [(&[(LmsType, OtsType)], KeyFault); 6] = [
    (&[], KeyFault::NoLevels),
    (&[TALLER; 9], KeyFault::TooManyLevels),
    (&[TALL, TALL, TALL, TALL, LEVEL], KeyFault::TooTall),
    (&[TALLEST, TALLEST, TALL], KeyFault::TooTall),
    (&[TALLER, TALLER, TALLER, LEVEL], KeyFault::TooTall),
    (&[TALLEST; 8], KeyFault::TooTall),
];

#[test]
fn refuses_levels_by_the_first_fault(rt: HostRuntime) {
    for (levels, fault) in REFUSED {
        assert_eq!(rt; Levels::new(levels).err(), Some(fault));
    }
}

#[test]
fn prints_levels(rt: HostRuntime) -> Result<(), Fail> {
    let text = format!(in rt.alloc(); "{}", LevelsText(&THREE_LEVELS))?;
    assert!(rt; text.as_str() == "5/8,5/4,5/2");
    Ok(())
}

/// Levels, the capacity of a key and the bytes of its signatures.
const SIZES: [(&[(LmsType, OtsType)], u64, usize); 10] = [
    (&[LEVEL], 32, 1296),
    (&[LEVEL; 2], 1024, 2644),
    (&[LEVEL, (LmsType::H10, OtsType::W4), LEVEL], 1048576, 5208),
    (&[TALL; 4], 1152921504606846976, 6620),
    (&[LEVEL; 8], 1099511627776, 10732),
    (
        &[
            (LmsType::H5, OtsType::W1),
            (LmsType::H5, OtsType::W2),
            (LmsType::H5, OtsType::W4),
            LEVEL,
        ],
        1048576,
        16956,
    ),
    (&[TALLER], 1048576, 1776),
    (&[TALLEST; 2], 1125899906842624, 3924),
    (
        &[TALLEST, TALLEST, (LmsType::H10, OtsType::W8)],
        1152921504606846976,
        5432,
    ),
    (&[TALLER; 3], 1152921504606846976, 5432),
];

#[test]
fn knows_capacities_and_lengths(rt: HostRuntime) -> Result<(), Fail> {
    for (levels, capacity, sig_len) in SIZES {
        let key = key_of(levels, 0x11)?;
        assert!(rt;
            key.levels.as_slice() == levels
                && key.capacity() == capacity
                && key.sig_len() == sig_len,
            "{capacity} {sig_len}"
        );
    }
    Ok(())
}

/// Levels, an index and the leaves that it goes through.
const PLACES: [(&[(LmsType, OtsType)], u64, [u32; 8]); 11] = [
    (&[LEVEL], 5, [5, 0, 0, 0, 0, 0, 0, 0]),
    (&[LEVEL; 2], 31, [0, 31, 0, 0, 0, 0, 0, 0]),
    (&[LEVEL; 2], 32, [1, 0, 0, 0, 0, 0, 0, 0]),
    (&[LEVEL; 2], 1023, [31, 31, 0, 0, 0, 0, 0, 0]),
    (
        &[LEVEL, (LmsType::H10, OtsType::W4), LEVEL],
        33000,
        [1, 7, 8, 0, 0, 0, 0, 0],
    ),
    (&[LEVEL; 8], 34359738367, [0, 31, 31, 31, 31, 31, 31, 31]),
    (&[LEVEL; 8], 34359738368, [1, 0, 0, 0, 0, 0, 0, 0]),
    (&[TALLER], 1048575, [1048575, 0, 0, 0, 0, 0, 0, 0]),
    (&[TALLEST; 2], 33554431, [0, 33554431, 0, 0, 0, 0, 0, 0]),
    (&[TALLEST; 2], 33554432, [1, 0, 0, 0, 0, 0, 0, 0]),
    (
        &[TALLEST; 2],
        1125899906842623,
        [33554431, 33554431, 0, 0, 0, 0, 0, 0],
    ),
];

#[test]
fn knows_the_places_of_an_index(rt: HostRuntime) -> Result<(), Fail> {
    for (levels, g, places) in PLACES {
        let key = key_of(levels, 0x11)?;
        assert!(rt; g < key.capacity() && key.places(g) == places, "{g}");
    }
    Ok(())
}

#[test]
fn makes_the_public_key(rt: HostRuntime) -> Result<(), Fail> {
    let public = key_of(&THREE_LEVELS, 0x11)?.public_key(&rt, rt.alloc())?;
    let slow = signed(&rt, &THREE_LEVELS, 0, b"abc")?;
    assert!(rt; public.as_slice() == slow.public.as_slice());
    Ok(())
}

/// Levels, and a byte of the seed and one of the identifier, of a key that is that of `LEVEL` and
/// of keys that are not.
const KEYS: [(&[(LmsType, OtsType)], u8, u8, bool); 6] = [
    (&[LEVEL], 0x11, 0x22, true),
    (&[LEVEL; 2], 0x11, 0x22, false),
    (&[(LmsType::H5, OtsType::W1)], 0x11, 0x22, false),
    (&[(LmsType::H10, OtsType::W8)], 0x11, 0x22, false),
    (&[LEVEL], 0x12, 0x22, false),
    (&[LEVEL], 0x11, 0x23, false),
];

#[test]
fn tells_keys_apart(rt: HostRuntime) -> Result<(), Fail> {
    let key = key_of(&[LEVEL], 0x11)?;
    for (levels, seed, id, is_same) in KEYS {
        let other = HssKey::new(Levels::new(levels)?, [seed; 32], [id; 16]);
        assert!(rt;
            same_key(&key, &other) == is_same && same_key(&other, &other),
            "{seed} {id}"
        );
    }
    Ok(())
}
