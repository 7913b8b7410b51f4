//! Times one-time keys, trees, keys of HSS and kept nodes against bare SHA-256 digests.
//!
//! Without arguments it runs each case once and prints its name and what it needs, and whether
//! public hashes are the same chain by chain. With the argument `measure` it prints for each case
//! its time, the compressions of SHA-256 that its definition needs, and the ratio of its time to
//! that of as many bare digests of 55 bytes, each the least of several rounds. For trees that all
//! processors build it prints the compressions a second; how many times as many these are as one
//! thread makes with bare digests, and with public hashes of eight leaves side by side; what share
//! they are of what a thread with bare digests on each processor makes; and how long it takes to
//! start and join threads that do nothing. Last come the bytes that a forest holds. With the
//! argument `cover` it makes one such forest, and with `tall` it computes a tree of height 20 and
//! signs by it.
#![tactic(auto)]

mod build;
mod case;
mod held;
mod hss_case;
mod kept_case;
mod measure;
mod tall;
mod tree_key;

use crate::held::cover;
use crate::measure::{Mode, measure};
use crate::tall::sign_tall;
use bench_base::{Fault, ID, SEED, argument, public_hash_chain_by_chain, tree_compressions};
use lms_ots::{OtsId, eight_public_hashes, public_hash};
use lms_params::{LmsType, OtsType};
use std::thread::Threads;
use std::time::{Clock, CpuClock};

fn main(rt: HostRuntime) -> Result<(), Fault> {
    match argument(&rt)? {
        None => run_once(&rt),
        Some(argument) => obey(&rt, argument.as_str()),
    }
}

/// Does what an argument asks for.
fn obey(
    rt: &(impl Print + AllocGlobal + Clock + CpuClock + Threads + Sync),
    argument: &str,
) -> Result<(), Fault> {
    match argument {
        "measure" => measure(rt, Mode::Timed),
        "cover" => cover(rt),
        "tall" => sign_tall(rt),
        _ => Err(Fault::Usage),
    }
}

/// Runs each case once, and prints what is counted. `stdout`, beside `src/`, has the compressions
/// as programs in Python count them, of which some make the same keys, trees, nodes and signatures
/// and verify these, and the bytes by the numbers of nodes that the trees of a forest have to hold.
fn run_once(
    rt: &(impl Print + AllocGlobal + Clock + CpuClock + Threads + Sync),
) -> Result<(), Fault> {
    measure(rt, Mode::Once)?;
    for ots in [OtsType::W1, OtsType::W2, OtsType::W4, OtsType::W8] {
        print_width(rt, ots)?;
    }
    Ok(())
}

/// Prints whether all ways to public hashes of this width agree, and what a tree needs.
fn print_width(rt: &impl Print, ots: OtsType) -> Result<(), Fault> {
    let w = ots.w();
    let first = public_hash_chain_by_chain(ots, &SEED, ID);
    let i = ID.i;
    let last = OtsId { i, q: ID.q + 7 };
    let eighth = public_hash_chain_by_chain(ots, &SEED, last);
    let eight = eight_public_hashes(ots, &SEED, ID);
    let is_same = public_hash(ots, &SEED, ID) == first && eight[0] == first && eight[7] == eighth;
    println!(rt; "w={w}: public hashes are the same chain by chain: {is_same}")?;
    let compressions = tree_compressions(LmsType::H10, ots);
    println!(rt; "a tree of 10/{w}: {compressions} compressions")?;
    Ok(())
}
