//! State images.
ghost use Rattle.std.specs.Prelude.{◌≤◌};
ghost use Rattle.lms_spec.specs.Hss.{capacity_of};
ghost use Rattle.lms_hss.specs.Keys.{hss_key_of};

use crate::tests::images::fields::{Fields, SOUND, SOUND_NOW, with_their_digest};
use lms_hss::{HssKey, Levels};
use lms_image::{Image, ImageFault, decode_image, encode_image};
use lms_params::{LmsType, OtsType};
use std::alloc::{AllocError, Global};
use std::process::Abort;
use std::test::Fail;

mod fields;

const H5_W8: (LmsType, OtsType) = (LmsType::H5, OtsType::W8);

const H10_W4: (LmsType, OtsType) = (LmsType::H10, OtsType::W4);

const H15_W8: (LmsType, OtsType) = (LmsType::H15, OtsType::W8);

const H25_W8: (LmsType, OtsType) = (LmsType::H25, OtsType::W8);

/// The image of 5/8 with counter 5, 2 openings and 1 burnt index, by a Python program.
const ONE_LEVEL: &str = "4853534b0000000200000001000000050000000411111111111111111111111111111111\
    111111111111111111111111111111112222222222222222222222222222222200000000000000050000\
    0000000000020000000000000001b15e1b5feeb8c0e4cdf454e59375469e5e15288cb060bf6704eac20c\
    ca237b6d";

/// The image of 5/8,10/4 with counter 258, 3 openings and 7 burnt indices, by a Python program.
const TWO_LEVELS: &str = "4853534b0000000200000002000000050000000400000006000000031111111111111111\
    111111111111111111111111111111111111111111111111222222222222222222222222222222220000\
    00000000010200000000000000030000000000000007a9da88cf10c1edc588293b3aae81f919b664e667\
    157d25b4cfef7bd0007d9e23";

/// The image of 5/8 with counter 5 in version 1, by a Python program.
const FIRST_ONE_LEVEL: &str = "4853534b000000010000000100000005000000041111111111111111111111111111\
    111111111111111111111111111111111111222222222222222222222222222222220000000000000005\
    7ea131d78a665e49ec24400f7cf25b133d58c427006c7dad3988e14665cbb0aa";

/// The image of 5/8,10/4 with counter 258 in version 1, by a Python program.
const FIRST_TWO_LEVELS: &str =
    "4853534b000000010000000200000005000000040000000600000003111111111111\
    1111111111111111111111111111111111111111111111111111222222222222222222222222222222220000\
    00000000010291107f184c52f7391da360d1bbc39d706043ec17987781206143ea6d72f331b3";

/// The image of a key of these levels with these numbers, which the key has.
fn image_of(
    rt: &impl Abort,
    sets: &[(LmsType, OtsType)],
    counter: u64,
    openings: u64,
    burnt: u64,
) -> Image
    ensures within { result.counter ≤ capacity_of (hss_key_of result.key) }
    ensures openings { result.openings ≤ result.counter }
    ensures burnt { result.burnt ≤ result.counter }
{
    let levels = Levels::new(sets).expect(rt, "levels that are signed");
    let key = HssKey::new(levels, [0x11; 32], [0x22; 16]);
    assert!(rt; counter <= key.capacity());
    assert!(rt; openings <= counter);
    assert!(rt; burnt <= counter);
    Image {
        key,
        counter,
        openings,
        burnt,
    }
}

/// The fault of these bytes, if they have one.
fn fault(text: &[u8]) -> Option<ImageFault> {
    decode_image(text).err()
}

/// The bytes of these digits have this length and are read as this image.
fn check_read(
    rt: &(impl Abort + AllocGlobal),
    image: Image,
    length: usize,
    digits: &str,
) -> Result<(), Fail> {
    let text = hex::decode(rt.alloc(), digits)?;
    assert!(rt; text.len() == length, "{length}");
    assert!(rt; decode_image(&text) == Ok(image), "{length}");
    Ok(())
}

/// This image has this length and these digits, and is read again.
fn check_image(
    rt: &(impl Abort + AllocGlobal),
    image: Image,
    length: usize,
    digits: &str,
) -> Result<(), Fail>
    requires within { image.counter ≤ capacity_of (hss_key_of image.key) }
    requires openings { image.openings ≤ image.counter }
    requires burnt { image.burnt ≤ image.counter }
{
    let text = encode_image(&image);
    let expected = hex::decode(rt.alloc(), digits)?;
    assert!(rt; text.as_slice() == expected.as_slice(), "{length}");
    check_read(rt, image, length, digits)
}

#[test]
fn writes_what_another_program_writes(rt: HostRuntime) -> Result<(), Fail> {
    check_image(&rt, image_of(&rt, &[H5_W8], 5, 2, 1), 124, ONE_LEVEL)?;
    check_image(
        &rt,
        image_of(&rt, &[H5_W8, H10_W4], 258, 3, 7),
        132,
        TWO_LEVELS,
    )
}

#[test]
fn reads_version_1(rt: HostRuntime) -> Result<(), Fail> {
    check_read(&rt, image_of(&rt, &[H5_W8], 5, 0, 0), 108, FIRST_ONE_LEVEL)?;
    check_read(
        &rt,
        image_of(&rt, &[H5_W8, H10_W4], 258, 0, 0),
        116,
        FIRST_TWO_LEVELS,
    )
}

#[test]
fn reads_what_was_written(rt: HostRuntime) {
    let tallest = [H15_W8; 4];
    let tall = [H25_W8, H25_W8, (LmsType::H10, OtsType::W8)];
    let eight = [H5_W8; 8];
    let rows = [
        (&[H5_W8][..], 0, 0, 0, 124),
        (&[H5_W8], 32, 32, 32, 124),
        (&[H5_W8, H10_W4], 258, 0, 258, 132),
        (&tallest, 1 << 60, 1 << 60, 0, 148),
        (&tall, 1 << 60, 0, 1 << 60, 140),
        (&eight, (1 << 40) - 1, 1, 2, 180),
    ];
    for (sets, counter, openings, burnt, length) in rows {
        let image = image_of(&rt, sets, counter, openings, burnt);
        let text = encode_image(&image);
        assert_eq!(rt; text.as_slice().len(), length);
        assert!(rt; decode_image(text.as_slice()) == Ok(image), "{length}");
    }
}

/// The first bytes of an image are refused for their number.
fn check_cut(rt: &impl Abort, text: &[u8], cut: usize) {
    let expected = if cut < 12 {
        ImageFault::Truncated
    } else {
        ImageFault::WrongLength
    };
    assert!(rt;
        fault(text.get(..cut).unwrap_or(&[])) == Some(expected),
        "{cut}"
    );
}

/// The bytes of these fields are an image of this length, and no other number of them is one.
fn check_lengths(
    rt: &(impl Abort + AllocGlobal),
    sound: Fields,
    length: usize,
) -> Result<(), Fail> {
    let mut text = sound.text(rt.alloc())?;
    assert!(rt; text.len() == length);
    assert!(rt; fault(&text).is_none());
    for cut in 0..length {
        check_cut(rt, &text, cut);
    }
    text.push(0)?;
    assert!(rt; fault(&text) == Some(ImageFault::WrongLength));
    Ok(())
}

#[test]
fn refuses_each_other_length(rt: HostRuntime) -> Result<(), Fail> {
    check_lengths(&rt, SOUND, 108)?;
    check_lengths(&rt, SOUND_NOW, 124)
}

/// The bytes of these fields are refused where any one is changed.
fn check_bytes(rt: &(impl Abort + AllocGlobal), fields: Fields) -> Result<(), Fail> {
    let sound = fields.text(rt.alloc())?;
    for (place, byte) in sound.iter().enumerate() {
        let mut text = sound.clone()?;
        if let Some(changed) = text.get_mut(place) {
            *changed = byte ^ 1;
        }
        let expected = match place {
            0..4 => ImageFault::NotAnImage,
            4..8 => ImageFault::UnknownVersion,
            8..12 => ImageFault::BadLevels,
            _ => ImageFault::Damaged,
        };
        assert_eq!(rt; fault(&text), Some(expected), "{place}");
    }
    Ok(())
}

#[test]
fn refuses_each_changed_byte(rt: HostRuntime) -> Result<(), Fail> {
    check_bytes(&rt, SOUND)?;
    check_bytes(&rt, SOUND_NOW)
}

/// The fault of the bytes of these fields once one is written over, with no digest made anew.
fn fault_with(
    alloc: Global,
    fields: Fields,
    place: usize,
    byte: u8,
) -> Result<Option<ImageFault>, AllocError> {
    let mut text = fields.text(alloc)?;
    if let Some(changed) = text.get_mut(place) {
        *changed = byte;
    }
    Ok(fault(&text))
}

/// Three levels are named where there are bytes for one, or the other version.
#[test]
fn a_wrong_length_comes_before_damage(rt: HostRuntime) -> Result<(), Fail> {
    for (fields, place, byte) in [
        (SOUND, 11, 3),
        (SOUND_NOW, 11, 3),
        (SOUND, 7, 2),
        (SOUND_NOW, 7, 1),
    ] {
        let found = fault_with(rt.alloc(), fields, place, byte)?;
        assert!(rt; found == Some(ImageFault::WrongLength), "{place}");
    }
    Ok(())
}

#[test]
fn names_the_fault_of_a_text_with_its_digest(rt: HostRuntime) -> Result<(), Fail> {
    for (fields, expected) in with_their_digest() {
        let first = fields.text(rt.alloc())?;
        assert_eq!(rt; fault(&first), expected);
        let second = fields.in_version_2().text(rt.alloc())?;
        assert_eq!(rt; fault(&second), expected);
    }
    Ok(())
}

/// The image of 5/8 with counter 5, where the level's tree is one of height 20.
#[test]
fn opens_a_tall_tree(rt: HostRuntime) -> Result<(), Fail> {
    let fields = Fields {
        codes: &[(8, 4)],
        ..SOUND
    };
    let text = fields.text(rt.alloc())?;
    let image = decode_image(&text).expect(&rt, "an image");
    assert!(rt; image.counter == 5);
    assert!(rt; image.key.capacity() == 1048576);
    Ok(())
}

/// The fault of an image of 5/8 with these numbers and its right digest.
fn fault_of_numbers(
    alloc: Global,
    counter: u64,
    openings: u64,
    burnt: u64,
) -> Result<Option<ImageFault>, AllocError> {
    let fields = Fields {
        counter,
        later: Some((openings, burnt)),
        ..SOUND_NOW
    };
    Ok(fault(&fields.text(alloc)?))
}

#[test]
fn numbers_over_the_counter_are_faults(rt: HostRuntime) -> Result<(), Fail> {
    let rows = [
        (5, 5, 5, None),
        (5, 6, 5, Some(ImageFault::OpeningTooHigh)),
        (5, 5, 6, Some(ImageFault::BurntTooHigh)),
        (5, 6, 6, Some(ImageFault::OpeningTooHigh)),
        (33, 34, 34, Some(ImageFault::CounterTooHigh)),
        (0, 0, u64::MAX, Some(ImageFault::BurntTooHigh)),
    ];
    for (counter, openings, burnt, expected) in rows {
        let found = fault_of_numbers(rt.alloc(), counter, openings, burnt)?;
        assert!(rt; found == expected, "{counter} {openings} {burnt}");
    }
    Ok(())
}

#[test]
fn damage_comes_before_what_the_bytes_name(rt: HostRuntime) -> Result<(), Fail> {
    let mut text = Fields {
        codes: &[(10, 4)],
        counter: 33,
        ..SOUND
    }
    .text(rt.alloc())?;
    assert_eq!(rt; fault(&text), Some(ImageFault::BadType));
    if let Some(byte) = text.get_mut(60) {
        *byte ^= 1;
    }
    assert_eq!(rt; fault(&text), Some(ImageFault::Damaged));
    Ok(())
}

/// Whether a fault is printed so.
fn prints(alloc: Global, fault: ImageFault, name: &str) -> Result<bool, AllocError> {
    Ok(fault.to_string(alloc)?.as_str() == name)
}

#[test]
fn a_fault_prints_its_name(rt: HostRuntime) -> Result<(), Fail> {
    let rows = [
        (ImageFault::Truncated, "Truncated"),
        (ImageFault::NotAnImage, "NotAnImage"),
        (ImageFault::UnknownVersion, "UnknownVersion"),
        (ImageFault::BadLevels, "BadLevels"),
        (ImageFault::WrongLength, "WrongLength"),
        (ImageFault::Damaged, "Damaged"),
        (ImageFault::BadType, "BadType"),
        (ImageFault::TooTall, "TooTall"),
        (ImageFault::CounterTooHigh, "CounterTooHigh"),
        (ImageFault::OpeningTooHigh, "OpeningTooHigh"),
        (ImageFault::BurntTooHigh, "BurntTooHigh"),
    ];
    for (fault, name) in rows {
        assert!(rt; prints(rt.alloc(), fault, name)?, "{name}");
    }
    Ok(())
}
