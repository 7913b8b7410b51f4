//! What is printed of an endorsement.
ghost use Rattle.std.specs.Prelude.{◌≡◌, OnErr, OnOk};
ghost use Rattle.std.specs.Io.KnownBytes.{Appends};
ghost use Rattle.lms_blocks.specs.Writing.{AppendsFront};
ghost use Rattle.lms_endorse.specs.Endorsing.{endorsed_text, signer_line};

use lms_blocks::{WriteFault, write_bytes};
use lms_texts::print_index;
use sha2::{Digest, Sha256};
use std::io::Write;

/// Prints two lines: the index that endorsed, and the SHA-256 of the signer's public key.
///
/// On a fault, a beginning of them was printed.
pub(crate) fn print_endorsed<O: Write>(
    output: &mut O,
    index: u64,
    signer: &[u8],
) -> Result<(), WriteFault>
    ensures printed { OnOk result (Appends (O.contents output.old) (O.contents output.new)
        (endorsed_text index signer.now)) }
    ensures broken { OnErr result (AppendsFront (O.contents output.old) (O.contents output.new)
        (endorsed_text index signer.now)) }
{
    print_index(output, index)?;
    print_signer(output, signer)
}

/// Prints the line of a signer's public key. On a fault, a beginning of it was printed.
fn print_signer<O: Write>(output: &mut O, signer: &[u8]) -> Result<(), WriteFault>
    ensures printed { OnOk result
        (Appends (O.contents output.old) (O.contents output.new) (signer_line signer.now)) }
    ensures broken { OnErr result
        (AppendsFront (O.contents output.old) (O.contents output.new) (signer_line signer.now)) }
{
    write_bytes(output, &signer_text(signer))?;
    match output.flush() {
        Ok(()) => Ok(()),
        Err(_) => Err(WriteFault),
    }
}

/// The line of a signer's public key: its SHA-256, in hexadecimal.
fn signer_text(signer: &[u8]) -> [u8; 72]
    ensures { result ≡ signer_line signer.now }
{
    let mut line = *b"signer 0000000000000000000000000000000000000000000000000000000000000000\n";
    let Ok(()) = hex::encode_to_slice(&Sha256::digest(signer), &mut line[7..71]) else {
        unreachable!()
    };
    line
}
