//! Keys, and their state images.
ghost use Rattle.std.specs.Prelude.{◌≡◌, replicate, IfOk};
ghost use Rattle.lms_image.specs.Image.{image_of as image_text};

use lms_hss::{HssKey, Levels};
use lms_image::{Image, ImageBytes, encode_image};
use lms_params::{LmsType, OtsType};

/// The key of these levels whose seed is 32 times this byte.
pub fn key_of(levels: &[(LmsType, OtsType)], seed: u8) -> Result<HssKey, &'static str>
    ensures levels { IfOk result (λ key. key.levels ≡ levels.now) }
    ensures seed { IfOk result (λ key. key.seed ≡ replicate 32 seed) }
{
    match Levels::new(levels) {
        Ok(levels) => Ok(HssKey::new(levels, [seed; 32], [0x22; 16])),
        Err(_) => Err("the signer takes the levels"),
    }
}

/// The state image of a key with this counter, no opening counted and no index burnt.
pub fn image_of(key: HssKey, counter: u64) -> Result<ImageBytes, &'static str>
    ensures { IfOk result (λ image. image ≡ image_text key counter 0 0) }
{
    image_with(key, counter, 0, 0)
}

/// The state image of a key and these numbers.
pub fn image_with(
    key: HssKey,
    counter: u64,
    openings: u64,
    burnt: u64,
) -> Result<ImageBytes, &'static str>
    ensures { IfOk result (λ image. image ≡ image_text key counter openings burnt) }
{
    if counter > key.capacity() || openings > counter || burnt > counter {
        return Err("a key has a state with these numbers");
    }
    Ok(encode_image(&Image {
        key,
        counter,
        openings,
        burnt,
    }))
}
