//! The values of options, read from their texts.
ghost use Rattle.std.specs.Prelude.{◌≡◌, ◌≢◌, ℕ, List, IfErr, IfNone, IfOk, IfSome, Ok, length};
ghost use Rattle.hex.specs.Hex.{decode_of};
ghost use Rattle.lms_params.specs.declared.lms_type.LmsType.{LmsType as LmsKind};
ghost use Rattle.lms_params.specs.declared.ots_type.OtsType.{OtsType as OtsKind};
ghost use Rattle.lms_hss.specs.Texts.{height_text, pair_text, width_text};
ghost use Rattle.lms_texts.specs.Options.{AreWorkers, IsLevelsText, IsWorkers};

use crate::fault::LevelsTextFault;
use hex::FromHex;
use lms_batch::MOST_WORKERS;
use lms_params::{LmsType, OtsType};
use std::alloc::{AllocError, Global};

/// The levels of a text such as `10/8,5/4`, from the top: the height of each and its Winternitz
/// width, with a comma between each two. `Bad` only where the text is no such list, `OutOfMemory`
/// where memory ran out first.
pub fn read_levels(alloc: Global, text: &str) -> Result<Vec<(LmsType, OtsType)>, LevelsTextFault>
    ensures levels { IfOk result (λ pairs. IsLevelsText text.now pairs.items) }
    ensures bad { IfErr result (λ fault. fault ≡ LevelsTextFault.Bad →
        (pairs : List (LmsKind × OtsKind)) → ¬ IsLevelsText text.now pairs) }
{
    let mut pairs = Vec::new(alloc);
    for piece in text.split(',') {
        let Some(pair) = pair_from(piece) else {
            return Err(LevelsTextFault::Bad);
        };
        pairs.push(pair).map_err(AllocError::from)?;
    }
    Ok(pairs)
}

/// The N bytes of a text of 2N hexadecimal digits in either case. `None` exactly where the text is
/// no such digits.
pub fn read_bytes<const N: usize>(text: &str) -> Option<[u8; N]>
    ensures some { IfSome result (λ bytes. decode_of text.now ≡ Ok bytes) }
    ensures none { IfNone result
        ((bytes : List ℕ) → length bytes ≡ N → decode_of text.now ≢ Ok bytes) }
{
    <[u8; N] as FromHex>::from_hex(text).ok()
}

/// The level of a text such as `5/8`. `None` exactly where the text is that of no level.
fn pair_from(piece: &str) -> Option<(LmsType, OtsType)>
    ensures some { IfSome result (λ pair. piece.now ≡ pair_text pair) }
    ensures none { IfNone result ((pair : LmsKind × OtsKind) → piece.now ≢ pair_text pair) }
{
    let (height, width) = piece.split_once('/')?;
    Some((lms_type_from(height)?, ots_type_from(width)?))
}

/// The number of workers of a text: a decimal number from 1 to `MOST_WORKERS`, without leading
/// zeros. `None` exactly where the text is no such number.
pub fn workers_from(text: &str) -> Option<usize>
    ensures some { IfSome result (λ workers. IsWorkers text.now workers) }
    ensures none { IfNone result (¬ AreWorkers text.now) }
{
    // A sign and a zero are below the other digits.
    let first = text.as_bytes().first()?;
    if *first <= b'0' {
        return None;
    }
    match text.parse::<usize>() {
        Ok(workers) if 1 <= workers && workers <= MOST_WORKERS => Some(workers),
        _ => None,
    }
}

fn lms_type_from(text: &str) -> Option<LmsType>
    ensures some { IfSome result (λ lms. text.now ≡ height_text lms) }
    ensures none { IfNone result ((lms : LmsKind) → text.now ≢ height_text lms) }
{
    match text {
        "5" => Some(LmsType::H5),
        "10" => Some(LmsType::H10),
        "15" => Some(LmsType::H15),
        "20" => Some(LmsType::H20),
        "25" => Some(LmsType::H25),
        _ => None,
    }
}

fn ots_type_from(text: &str) -> Option<OtsType>
    ensures some { IfSome result (λ ots. text.now ≡ width_text ots) }
    ensures none { IfNone result ((ots : OtsKind) → text.now ≢ width_text ots) }
{
    match text {
        "1" => Some(OtsType::W1),
        "2" => Some(OtsType::W2),
        "4" => Some(OtsType::W4),
        "8" => Some(OtsType::W8),
        _ => None,
    }
}
