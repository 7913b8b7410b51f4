//! What is printed of a key.
ghost use Rattle.std.specs.Prelude.{◌≤◌, OnErr, OnOk, codes};
ghost use Rattle.std.specs.Io.KnownBytes.{Appends};
ghost use Rattle.lms_blocks.specs.Writing.{AppendsFront};
ghost use Rattle.lms_spec.specs.Hss.{capacity_of};
ghost use Rattle.lms_hss.specs.Keys.{hss_key_of};
ghost use Rattle.lms_texts.specs.Descriptions.{indices_text, info_text, number_line};

use lms_blocks::{WriteFault, print_line};
use lms_hss::{HssKey, LevelsText};
use lms_image::Image;
use std::io::Write;

/// Prints six lines: a key's levels, how many indices are used so far, how many there are, and how
/// many are left, how many openings stored something, and how many indices were burnt.
///
/// On a fault, a beginning of them was written.
pub fn print_info<O: Write>(output: &mut O, image: &Image) -> Result<(), WriteFault>
    requires { image.now.counter ≤ capacity_of (hss_key_of image.now.key) }
    ensures printed { OnOk result (Appends (O.contents output.old) (O.contents output.new)
        (info_text image.now.key image.now.counter image.now.openings image.now.burnt)) }
    ensures broken { OnErr result (AppendsFront (O.contents output.old) (O.contents output.new)
        (info_text image.now.key image.now.counter image.now.openings image.now.burnt)) }
{
    let openings = image.openings;
    let burnt = image.burnt;
    print_indices(output, image.key, image.counter)?;
    print_line(output, format_args!("openings {openings}"))?;
    print_line(output, format_args!("burnt {burnt}"))
}

/// Prints four lines: a key's levels, how many indices are used so far, how many there are, and how
/// many are left.
///
/// On a fault, a beginning of them was written.
fn print_indices<O: Write>(output: &mut O, key: HssKey, counter: u64) -> Result<(), WriteFault>
    requires { counter ≤ capacity_of (hss_key_of key) }
    ensures printed { OnOk result
        (Appends (O.contents output.old) (O.contents output.new) (indices_text key counter)) }
    ensures broken { OnErr result
        (AppendsFront (O.contents output.old) (O.contents output.new) (indices_text key counter)) }
{
    let levels = LevelsText(key.levels.as_slice());
    let capacity = key.capacity();
    let left = capacity - counter;
    print_line(output, format_args!("levels {levels}"))?;
    print_line(output, format_args!("counter {counter}"))?;
    print_capacity(output, capacity)?;
    print_line(output, format_args!("left {left}"))
}

/// Prints a line on how many messages a key can sign.
///
/// On a fault, a beginning of it was written.
pub fn print_capacity<O: Write>(output: &mut O, capacity: u64) -> Result<(), WriteFault>
    ensures printed { OnOk result (Appends (O.contents output.old) (O.contents output.new)
        (number_line (codes "capacity") capacity)) }
    ensures broken { OnErr result (AppendsFront (O.contents output.old) (O.contents output.new)
        (number_line (codes "capacity") capacity)) }
{
    print_line(output, format_args!("capacity {capacity}"))
}

/// Prints a line on the index that a message was signed with.
///
/// On a fault, a beginning of it was written.
pub fn print_index<O: Write>(output: &mut O, index: u64) -> Result<(), WriteFault>
    ensures printed { OnOk result (Appends (O.contents output.old) (O.contents output.new)
        (number_line (codes "index") index)) }
    ensures broken { OnErr result (AppendsFront (O.contents output.old) (O.contents output.new)
        (number_line (codes "index") index)) }
{
    print_line(output, format_args!("index {index}"))
}
