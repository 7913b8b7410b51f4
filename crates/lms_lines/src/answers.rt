//! Answer lines.
ghost use Rattle.std.specs.Prelude.{◌≡◌, None, length, slice_index_or, decimal, OnOk, OnErr};
ghost use Rattle.std.specs.Option.{option_map};
ghost use Rattle.std.specs.Io.KnownBytes.{Appends};
ghost use Rattle.hex.specs.Hex.{encode_lower};
ghost use Rattle.lms_batch.specs.Answers.{start_of};
ghost use Rattle.lms_lines.specs.AnswerLines.{answer_line, answer_text, slots_of};
ghost use Rattle.lms_blocks.specs.Writing.{AppendsFront};

use itoa::Buffer;
use lms_batch::Batch;
use lms_blocks::{WriteFault, write_bytes};
use std::io::Write;

/// Writes a line for each signature of the batch. On a fault, a beginning of the lines was written.
pub fn write_batch<W: Write>(writer: &mut W, batch: &Batch) -> Result<(), WriteFault>
    ensures ok { OnOk result
        (Appends (W.contents writer.old) (W.contents writer.new) (answer_text batch.now)) }
    ensures err { OnErr result
        (AppendsFront (W.contents writer.old) (W.contents writer.new) (answer_text batch.now)) }
{
    let (start, slots) = extent_of(batch);
    for k in 0..slots {
        if let Some(signature) = signature_at(batch, k) {
            write_line(writer, u128::from(start) + k as u128, signature)?;
        }
    }
    Ok(())
}

/// The first index of a batch, and how many slots it has.
fn extent_of(batch: &Batch) -> (u64, usize)
    ensures start { result.0 ≡ start_of batch.now }
    ensures slots { result.1 ≡ length (slots_of batch.now) }
{
    match batch {
        Batch::Complete { start, signatures } => (*start, signatures.len()),
        Batch::Partial { start, slots } => (*start, slots.len()),
    }
}

/// The signature in slot k of a batch, `None` where the slot is empty or there is none.
fn signature_at(batch: &Batch, k: usize) -> Option<&[u8]>
    ensures { option_map (λ signature. signature.now) result ≡ slice_index_or (slots_of batch.now) k None }
{
    match batch {
        Batch::Complete {
            start: _,
            signatures,
        } => Some(signatures.get(k)?.as_slice()),
        Batch::Partial { start: _, slots } => slots.get(k)?.as_deref(),
    }
}

fn write_line<W: Write>(writer: &mut W, index: u128, signature: &[u8]) -> Result<(), WriteFault>
    ensures ok { OnOk result
        (Appends (W.contents writer.old) (W.contents writer.new)
        (answer_line index signature.now)) }
    ensures err { OnErr result
        (AppendsFront (W.contents writer.old) (W.contents writer.new)
        (answer_line index signature.now)) }
{
    write_number(writer, index)?;
    write_bytes(writer, b" ")?;
    write_hex(writer, signature)?;
    write_bytes(writer, b"\n")
}

fn write_number<W: Write>(writer: &mut W, number: u128) -> Result<(), WriteFault>
    ensures ok { OnOk result
        (Appends (W.contents writer.old) (W.contents writer.new) (decimal number)) }
    ensures err { OnErr result
        (AppendsFront (W.contents writer.old) (W.contents writer.new) (decimal number)) }
{
    let mut buffer = Buffer::new();
    write_bytes(writer, buffer.format(number).as_bytes())
}

fn write_hex<W: Write>(writer: &mut W, bytes: &[u8]) -> Result<(), WriteFault>
    ensures ok { OnOk result
        (Appends (W.contents writer.old) (W.contents writer.new) (encode_lower bytes.now)) }
    ensures err { OnErr result
        (AppendsFront (W.contents writer.old) (W.contents writer.new) (encode_lower bytes.now)) }
{
    let mut rest = bytes;
    while !rest.is_empty() {
        let (chunk, tail) = rest.split_at(rest.len().min(1024));
        let mut text = [0; 2048];
        let digits = &mut text[..2 * chunk.len()];
        let Ok(()) = hex::encode_to_slice(chunk, digits) else {
            unreachable!()
        };
        write_bytes(writer, digits)?;
        rest = tail;
    }
    Ok(())
}
