//! Times claims on pools, batches and job lines.
//!
//! Without arguments it runs each case once and prints the cases' names, and the bytes of the
//! lines. With the argument `measure` it prints, for places of pools that threads claim at once,
//! the claims a second beside bare additions to one word; for batches the signatures a second that
//! one worker and several make, beside bare digests of as many threads; and how fast job lines are
//! read and answers written.
#![tactic(auto)]

mod batches;
mod book;
mod claims;
mod lines;
mod measure;
mod stopwatch;
mod workers;

use crate::measure::{measure, run_once};
use bench_base::{Fault, argument};

fn main(rt: HostRuntime) -> Result<(), Fault> {
    match argument(&rt)? {
        None => run_once(&rt),
        Some(argument) if argument.as_str() == "measure" => measure(&rt),
        Some(_) => Err(Fault::Usage),
    }
}
