//! Writes and reads the state image.
ghost use Rattle.std.specs.Prelude.{◌≡◌, ◌+◌, ◌*◌, ◌≤◌, ◌<◌, ◌^◌, ◌≢◌, ◌++◌, length, map, take, None, Some, IfOk, IfErr, IfSome, IfNone, MatchResult, IsFalse};
ghost use Rattle.std.specs.List.{list_all};
ghost use Rattle.lms_spec.specs.Bytes.{u32str};
ghost use Rattle.lms_spec.specs.Hss.{capacity_of, most_levels};
ghost use Rattle.lms_hss.specs.Keys.{hss_key_of};
ghost use Rattle.lms_image.specs.declared.version.Version.TheVariants.{Second};
ghost use Rattle.lms_image.specs.Image.{image_of, fault_of, head_size, head_text, magic_size, level_text, is_level, IsImage, HasImage, rest_length};
ghost use Rattle.lms_image.specs.Reading.{IsHeaded, IsCut, longest_head, ReadsLevels, refused_as};

use crate::bytes::ImageBytes;
use crate::fault::ImageFault;
use crate::version::{Version, split_later};
use lms_hss::{HssKey, KeyFault, Levels, MOST_LEVELS};
use lms_params::{LmsType, OtsType, split_u32, split_u64};
use sha2::{Digest, Sha256};

/// The first bytes of every image.
const MAGIC: [u8; MAGIC_LEN] = *b"HSSK";

const MAGIC_LEN: usize = 4;

/// The version that is written.
const VERSION: u32 = 2;

/// The most levels, as an image counts them.
const MOST_COUNT: u32 = MOST_LEVELS as u32;

/// The bytes of a level.
const LEVEL_LEN: usize = 8;

/// The bytes of the seed.
const SEED_LEN: usize = 32;

/// The bytes of the identifier.
const ID_LEN: usize = 16;

/// The bytes of the digest at the end.
const DIGEST_LEN: usize = 32;

/// A key, and what is counted of it. It has no `Debug`, which would print the seed.
#[derive(Clone, Copy, PartialEq, Eq)]
pub struct Image {
    pub key: HssKey,
    /// How many of its indices are used.
    pub counter: u64,
    /// How many openings of its store stored an image of version 2.
    pub openings: u64,
    /// How many of its indices failed writes burnt before this image was written.
    pub burnt: u64,
}

impl Image {
    /// The image of a new key: no index is used, no opening counted and no index burnt.
    pub fn unused(key: HssKey) -> Self
        ensures key { result.key ≡ key }
        ensures counter { result.counter ≡ 0 }
        ensures openings { result.openings ≡ 0 }
        ensures burnt { result.burnt ≡ 0 }
    {
        Image {
            key,
            counter: 0,
            openings: 0,
            burnt: 0,
        }
    }
}

/// The image of a key and its numbers, of 116 bytes and 8 for each level: `HSSK`, the version 2 and
/// the number of levels, 4 bytes each; each level's two typecodes, 4 bytes each; the seed, 32; the
/// identifier I, 16; the counter, the openings and the burnt indices, 8 each; and the SHA-256
/// digest of all before, 32. The counter must be at most the key's capacity, and the other two at
/// most the counter.
pub fn encode_image(image: &Image) -> ImageBytes
    requires within { image.now.counter ≤ capacity_of (hss_key_of image.now.key) }
    requires openings { image.now.openings ≤ image.now.counter }
    requires burnt { image.now.burnt ≤ image.now.counter }
    ensures { result ≡ image_of image.now.key image.now.counter image.now.openings image.now.burnt }
{
    let mut text = encode_head(&image.key.levels);
    text.append(&image.key.seed);
    text.append(&image.key.i);
    text.append_u64(image.counter);
    text.append_u64(image.openings);
    text.append_u64(image.burnt);
    let digest = Sha256::digest(text.as_slice());
    text.append(&digest);
    text
}

/// The bytes of an image before its seed: `HSSK`, version 2, the number of levels and each level's
/// typecodes.
fn encode_head(levels: &Levels) -> ImageBytes
    ensures text { result ≡ head_text Second (map level_text levels.now) }
    ensures short { length result ≤ longest_head }
{
    let levels = levels.as_slice();
    let mut text = ImageBytes::empty();
    text.append(&MAGIC);
    text.append_u32(VERSION);
    text.append_u32(levels.len() as u32);
    for (lms, ots) in levels {
        text.append_u32(lms.code());
        text.append_u32(ots.code());
    }
    text
}

/// The key and the numbers whose image these bytes are, in either version, or the first
/// `ImageFault` that the bytes have. An image of version 1 is 16 bytes shorter and counts no
/// openings and no burnt indices.
pub fn decode_image(text: &[u8]) -> Result<Image, ImageFault>
    ensures ok { IfOk result (λ image.
        IsImage text.now image.key image.counter image.openings image.burnt
        × HasImage image.key image.counter image.openings image.burnt) }
    ensures exact { MatchResult result (λ _. fault_of text.now ≡ None) (λ fault.
        fault_of text.now ≡ Some fault) }
{
    let (version, count, rest) = read_head(text)?;
    let Some(parts) = Parts::cut(version, count, rest) else {
        return Err(ImageFault::WrongLength);
    };
    let (body, _) = text.split_at(text.len() - DIGEST_LEN);
    if *parts.digest != Sha256::digest(body) {
        return Err(ImageFault::Damaged);
    }
    let levels = read_levels(parts.levels)?;
    let key = HssKey::new(levels, *parts.seed, *parts.i);
    if parts.counter > key.capacity() {
        return Err(ImageFault::CounterTooHigh);
    }
    if parts.openings > parts.counter {
        return Err(ImageFault::OpeningTooHigh);
    }
    if parts.burnt > parts.counter {
        return Err(ImageFault::BurntTooHigh);
    }
    Ok(Image {
        key,
        counter: parts.counter,
        openings: parts.openings,
        burnt: parts.burnt,
    })
}

/// The version of an image, its number of levels, 1 to 8, and the bytes after that number. An error
/// is the first fault that the first 12 bytes show, `Truncated` to `BadLevels`.
fn read_head(text: &[u8]) -> Result<(Version, usize, &[u8]), ImageFault>
    ensures ok { IfOk result (λ head. IsHeaded text.now head.2.now head.0 head.1) }
    ensures err { IfErr result (λ fault. fault_of text.now ≡ Some fault) }
{
    let Some(head) = Head::cut(text) else {
        return Err(ImageFault::Truncated);
    };
    if *head.magic != MAGIC {
        return Err(ImageFault::NotAnImage);
    }
    let Some(version) = Version::from_code(head.version) else {
        return Err(ImageFault::UnknownVersion);
    };
    if head.levels == 0 || head.levels > MOST_COUNT {
        return Err(ImageFault::BadLevels);
    }
    Ok((version, head.levels as usize, head.rest))
}

/// The first 12 bytes, and the bytes after them.
#[derive(Clone, Copy)]
struct Head<'a> {
    magic: &'a [u8; MAGIC_LEN],
    version: u32,
    levels: u32,
    rest: &'a [u8],
}

impl<'a> Head<'a> {
    /// Cuts the first 12 bytes off. `None` exactly where there are fewer.
    fn cut(text: &'a [u8]) -> Option<Self>
        ensures parts { IfSome result (λ h.
            text.now ≡ h.magic.now ++ (u32str h.version ++ (u32str h.levels ++ h.rest.now))) }
        ensures magic { IfSome result (λ h. length h.magic.now ≡ magic_size) }
        ensures version { IfSome result (λ h. h.version < 2 ^ 32) }
        ensures levels { IfSome result (λ h. h.levels < 2 ^ 32) }
        ensures none { IfNone result (length text.now < head_size) }
    {
        let (magic, rest) = text.split_first_chunk::<MAGIC_LEN>()?;
        let (version, rest) = split_u32(rest)?;
        let (levels, rest) = split_u32(rest)?;
        Some(Head {
            magic,
            version,
            levels,
            rest,
        })
    }
}

/// What follows the number of levels: the eight bytes of each level, the seed, the identifier, the
/// numbers and the digest.
#[derive(Clone, Copy)]
struct Parts<'a> {
    levels: &'a [[u8; LEVEL_LEN]],
    seed: &'a [u8; SEED_LEN],
    i: &'a [u8; ID_LEN],
    counter: u64,
    openings: u64,
    burnt: u64,
    digest: &'a [u8; DIGEST_LEN],
}

impl<'a> Parts<'a> {
    /// Cuts `rest`, the bytes after an image's number of levels, into its parts. That number is
    /// `count`, at most 8. `None` exactly where its length isn't that of so many levels in this
    /// version.
    fn cut(version: Version, count: usize, rest: &'a [u8]) -> Option<Self>
        requires { count ≤ most_levels }
        ensures parts { IfSome result (λ p. IsCut count rest.now (record {
          version = version;
          levels = p.levels.now;
          seed = p.seed.now;
          id = p.i.now;
          counter = p.counter;
          openings = p.openings;
          burnt = p.burnt;
        }) p.digest.now) }
        ensures none { IfNone result (length rest.now ≢ rest_length version count) }
    {
        let (levels, rest) = rest.split_at_checked(LEVEL_LEN * count)?;
        let (seed, rest) = rest.split_first_chunk::<SEED_LEN>()?;
        let (i, rest) = rest.split_first_chunk::<ID_LEN>()?;
        let (counter, rest) = split_u64(rest)?;
        let (openings, burnt, rest) = split_later(version, rest)?;
        let digest = rest.as_array::<DIGEST_LEN>()?;
        let (levels, _) = levels.as_chunks::<LEVEL_LEN>();
        Some(Parts {
            levels,
            seed,
            i,
            counter,
            openings,
            burnt,
            digest,
        })
    }
}

/// The levels that these bytes name. `BadType` where a typecode is unknown, else `TooTall` where
/// the heights sum to over 60.
fn read_levels(texts: &[[u8; LEVEL_LEN]]) -> Result<Levels, ImageFault>
    requires some { 1 ≤ length texts.now }
    requires at_most { length texts.now ≤ most_levels }
    ensures { ReadsLevels texts.now result }
{
    let Some(sets) = read_sets(texts) else {
        return Err(ImageFault::BadType);
    };
    match Levels::new(&sets[..texts.len()]) {
        Ok(levels) => Ok(levels),
        Err(fault) => Err(refused(fault)),
    }
}

/// The fault of an image whose levels the signer refuses: `TooTall` where they are too tall, and
/// else `BadType`, which never comes in `read_levels`.
fn refused(fault: KeyFault) -> ImageFault
    ensures { result ≡ refused_as fault }
{
    match fault {
        KeyFault::TooTall => ImageFault::TooTall,
        KeyFault::NoLevels | KeyFault::TooManyLevels => ImageFault::BadType,
    }
}

/// The sets that these bytes name, in the first of eight places; the others hold the top level's.
/// `None` where a typecode is unknown.
fn read_sets(texts: &[[u8; LEVEL_LEN]]) -> Option<[(LmsType, OtsType); MOST_LEVELS]>
    requires some { 1 ≤ length texts.now }
    requires at_most { length texts.now ≤ most_levels }
    ensures some { IfSome result (λ sets.
        map level_text (take (length texts.now) sets) ≡ texts.now) }
    ensures none { IfNone result (IsFalse (list_all is_level texts.now)) }
{
    let top = read_level(&texts[0])?;
    let mut sets = [top; MOST_LEVELS];
    for (k, text) in texts.iter().enumerate() {
        sets[k] = read_level(text)?;
    }
    Some(sets)
}

/// The sets of one level. `None` where a typecode is unknown.
fn read_level(text: &[u8; LEVEL_LEN]) -> Option<(LmsType, OtsType)>
    ensures some { IfSome result (λ sets. level_text sets ≡ text.now) }
    ensures none { IfNone result (IsFalse (is_level text.now)) }
{
    let (lms_code, rest) = split_u32(text)?;
    let (ots_code, _) = split_u32(rest)?;
    let lms = LmsType::from_code(lms_code)?;
    let ots = OtsType::from_code(ots_code)?;
    Some((lms, ots))
}
