//! The bytes that the trees of a forest hold.
ghost use Rattle.std.specs.Prelude.{◌<◌, IfOk};

use crate::tree_key::tree_key;
use bench_base::{Fault, Hierarchy, SEED};
use lms_hss::{Forest, LMS_KEY_LEN};
use lms_params::{LmsType, OtsType, lms_sig_len};
use lms_tree::BandTree;
use std::thread::Threads;

/// The key whose forest is weighed.
const WEIGHED: Hierarchy = Hierarchy(&[(LmsType::H15, OtsType::W8), (LmsType::H10, OtsType::W8)]);

/// Makes a forest of the indices from 0 to 1023, and prints a line before it and while it is held:
/// `tests/run held_bytes` counts at each what the program holds of its allocator.
pub fn cover(rt: &(impl Print + AllocGlobal + Threads + Sync)) -> Result<(), Fault> {
    let key = WEIGHED.key()?;
    if key.capacity() < 1024 {
        return Err(Fault::Key);
    }
    println!(rt; "no forest")?;
    let forest = Forest::cover(rt, rt.alloc(), key, 0, 1024)?;
    print_covered(rt, &forest)
}

/// Prints a line while the forest is held.
fn print_covered(rt: &impl Print, forest: &Forest) -> Result<(), Fault> {
    println!(rt; "forest of 1024 indices of 15/8,10/8")?;
    if forest.covers(1023) {
        Ok(())
    } else {
        Err(Fault::Result)
    }
}

/// Prints the bytes of nodes and heads in a forest of the indices from 0 to 1023 of 15/8,10/8: with
/// trees that are bands, as a forest has them, and if all nodes of both trees were held.
pub fn print_held(rt: &(impl Print + AllocGlobal + Threads + Sync)) -> Result<(), Fault> {
    let top = kept(rt, LmsType::H15)?;
    let bottom = kept(rt, LmsType::H10)?;
    print_bytes(rt, "in bands", top, bottom)?;
    print_bytes(rt, "in whole trees", (1 << 16) - 1, (1 << 11) - 1)
}

/// Prints the bytes of so many nodes of 32 bytes in the two trees, and of the head, which comes
/// before the bottom tree's signatures.
fn print_bytes(
    rt: &impl Print,
    form: &str,
    top_nodes: usize,
    bottom_nodes: usize,
) -> Result<(), Fault>
    requires top { top_nodes < 100000 }
    requires bottom { bottom_nodes < 100000 }
{
    let head = 4 + lms_sig_len(LmsType::H15, OtsType::W8) + LMS_KEY_LEN;
    let bytes = 32 * (top_nodes + bottom_nodes) + head;
    println!(rt; "forest of 1024 indices of 15/8,10/8 {form}: {bytes} bytes")?;
    Ok(())
}

/// How many nodes a band tree holds that serves the first leaf. For a height of 10 they are those
/// for all leaves.
fn kept(rt: &(impl AllocGlobal + Threads + Sync), lms: LmsType) -> Result<usize, Fault>
    ensures { IfOk result (λ nodes. nodes < 100000) }
{
    let key = tree_key(lms, OtsType::W2, SEED);
    Ok(BandTree::build(rt, rt.alloc(), key, 0, 0)?.kept())
}
