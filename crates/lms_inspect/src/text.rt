//! What is printed of what bytes are.
ghost use Rattle.std.specs.Prelude.{◌≡◌, ◌≤◌, ◌++◌, [], ◌∷◌, IfErr, IfOk, OnOk, length, map};
ghost use Rattle.std.specs.Io.KnownBytes.{Appends};
ghost use Rattle.sha2.specs.Sha256.{sha256};
ghost use Rattle.lms_spec.specs.Hss.{capacity_of};
ghost use Rattle.lms_hss.specs.Keys.{hss_key_of};
ghost use Rattle.lms_commands.specs.declared.fault.Fault.TheVariants.{OutOfMemory as FaultOfMemory};
ghost use Rattle.lms_inspect.specs.Found.{IsOfSome};
ghost use Rattle.lms_inspect.specs.Indices.{AreInTrees, indexed};
ghost use Rattle.lms_inspect.specs.Texts.{digest_line, found_text, id_line, index_line, keyed_lines, level_line, public_text, sets_line, signature_text, state_text, witness_line};

use crate::found::Found;
use crate::level::Level;
use crate::public_key::PublicParts;
use crate::signature::{KeyedLevel, SignatureParts};
use lms_blocks::{WriteFault, print_line, write_bytes};
use lms_commands::Fault;
use lms_hss::LevelsText;
use lms_image::Image;
use lms_params::{LmsType, OtsType};
use lms_texts::print_info;
use sha2::{Digest, Sha256};
use std::alloc::Global;
use std::io::Write;

/// The greatest sum of the heights of a key that signs, whose indices are then below 2^60.
const MOST_HEIGHT: u32 = 60;

/// What is printed of these bytes, where this was found; of a state also below which index its
/// witness says that all are used, if it has one. `OutOfMemory` where memory for it is refused.
pub(crate) fn text_of(
    alloc: Global,
    found: &Found,
    bytes: &[u8],
    witness: Option<u64>,
) -> Result<Vec<u8>, Fault>
    requires { IsOfSome found.now }
    ensures text { IfOk result (λ text. text.items ≡ found_text found.now bytes.now witness) }
    ensures memory { IfErr result (λ fault. fault ≡ FaultOfMemory) }
{
    let mut text = Vec::new(alloc);
    let written = match found {
        Found::State(image) => write_state(&mut text, image, witness),
        Found::Public(parts) => write_public(&mut text, parts, bytes),
        Found::Signature(parts) => write_signature(&mut text, parts, bytes.len()),
        Found::Nothing => print_line(&mut text, "no state, public key or signature"),
    };
    match written {
        Ok(()) => Ok(text),
        Err(WriteFault) => Err(Fault::OutOfMemory),
    }
}

/// Writes what a state says, its key's identifier, and its witness's number.
fn write_state<O: Write>(
    text: &mut O,
    image: &Image,
    witness: Option<u64>,
) -> Result<(), WriteFault>
    requires { image.now.counter ≤ capacity_of (hss_key_of image.now.key) }
    ensures { OnOk result (Appends (O.contents text.old) (O.contents text.new)
        (state_text image.now witness)) }
{
    print_line(text, "state")?;
    print_info(text, image)?;
    write_id(text, &image.key.i)?;
    write_witness(text, witness)
}

/// Writes below which index a witness says that all are used, or that there is none.
fn write_witness<O: Write>(text: &mut O, witness: Option<u64>) -> Result<(), WriteFault>
    ensures { OnOk result
        (Appends (O.contents text.old) (O.contents text.new) (witness_line witness)) }
{
    match witness {
        Some(counter) => print_line(text, format_args!("witness {counter}")),
        None => print_line(text, "witness none"),
    }
}

/// Writes what a public key says, and the SHA-256 of its bytes.
fn write_public<O: Write>(text: &mut O, parts: &PublicParts, bytes: &[u8]) -> Result<(), WriteFault>
    ensures { OnOk result (Appends (O.contents text.old) (O.contents text.new)
        (public_text parts.now bytes.now)) }
{
    let levels = parts.levels;
    print_line(text, "public key")?;
    print_line(text, format_args!("levels {levels}"))?;
    write_sets(text, parts.top.lms, parts.top.ots)?;
    write_id(text, &parts.top.id)?;
    write_digest(text, &Sha256::digest(bytes))
}

/// Writes what a signature of this length says of its levels, from the top, and the index that their
/// leaves make, where they may be of one key that signs.
fn write_signature<O: Write>(
    text: &mut O,
    parts: &SignatureParts,
    length: usize,
) -> Result<(), WriteFault>
    requires { AreInTrees parts.now.top parts.now.below.items }
    ensures { OnOk result (Appends (O.contents text.old) (O.contents text.new)
        (signature_text parts.now length)) }
{
    let levels = parts.below.len() + 1;
    print_line(text, "signature")?;
    print_line(text, format_args!("levels {levels}"))?;
    print_line(text, format_args!("length {length}"))?;
    write_level(text, &parts.top)?;
    write_keyed(text, &parts.below)?;
    write_index(text, index_of(parts))
}

/// Writes the identifier and the level of each key in a signature.
fn write_keyed<O: Write>(text: &mut O, below: &[KeyedLevel]) -> Result<(), WriteFault>
    ensures { OnOk result
        (Appends (O.contents text.old) (O.contents text.new) (keyed_lines below.now)) }
{
    for keyed in below {
        write_id(text, &keyed.id)?;
        write_level(text, &keyed.level)?;
    }
    Ok(())
}

/// The index that the leaves of a signature make: of a key whose levels are the signature's, the one
/// that signed. `None` where the heights sum to more than a key's that signs.
fn index_of(parts: &SignatureParts) -> Option<u64>
    requires { AreInTrees parts.now.top parts.now.below.items }
    ensures { result ≡ indexed parts.now.top parts.now.below.items }
{
    let mut height = parts.top.lms.height();
    let mut index = u64::from(parts.top.leaf);
    for keyed in &parts.below {
        let own = keyed.level.lms.height();
        height += own;
        if height > MOST_HEIGHT {
            return None;
        }
        index = (index << own) + u64::from(keyed.level.leaf);
    }
    Some(index)
}

/// Writes the index that leaves make, if they make one, and of what it is the index.
fn write_index<O: Write>(text: &mut O, index: Option<u64>) -> Result<(), WriteFault>
    ensures { OnOk result
        (Appends (O.contents text.old) (O.contents text.new) (index_line index)) }
{
    match index {
        Some(index) => print_line(
            text,
            format_args!("index {index} if all levels are one key's"),
        ),
        None => Ok(()),
    }
}

/// Writes the sets and the leaf of a level.
fn write_level<O: Write>(text: &mut O, level: &Level) -> Result<(), WriteFault>
    ensures { OnOk result
        (Appends (O.contents text.old) (O.contents text.new) (level_line level.now)) }
{
    let pair = [(level.lms, level.ots)];
    let sets = LevelsText(&pair);
    let leaf = level.leaf;
    print_line(text, format_args!("level {sets} leaf {leaf}"))
}

/// Writes the sets of a key's top tree.
fn write_sets<O: Write>(text: &mut O, lms: LmsType, ots: OtsType) -> Result<(), WriteFault>
    ensures { OnOk result
        (Appends (O.contents text.old) (O.contents text.new) (sets_line lms ots)) }
{
    let pair = [(lms, ots)];
    let sets = LevelsText(&pair);
    print_line(text, format_args!("top {sets}"))
}

/// Writes a key's identifier, in hexadecimal.
fn write_id<O: Write>(text: &mut O, id: &[u8; 16]) -> Result<(), WriteFault>
    ensures { OnOk result
        (Appends (O.contents text.old) (O.contents text.new) (id_line id.now)) }
{
    let mut line = *b"id 00000000000000000000000000000000\n";
    let Ok(()) = hex::encode_to_slice(id, &mut line[3..35]) else {
        unreachable!()
    };
    write_bytes(text, &line)
}

/// Writes the SHA-256 of a public key, in hexadecimal.
fn write_digest<O: Write>(text: &mut O, digest: &[u8; 32]) -> Result<(), WriteFault>
    ensures { OnOk result
        (Appends (O.contents text.old) (O.contents text.new) (digest_line digest.now)) }
{
    let mut line = *b"sha256 0000000000000000000000000000000000000000000000000000000000000000\n";
    let Ok(()) = hex::encode_to_slice(digest, &mut line[7..71]) else {
        unreachable!()
    };
    write_bytes(text, &line)
}
