//! Bare digests of SHA-256, timed.
ghost use Rattle.std.specs.Prelude.{◌≤◌};

use crate::clocks::{clock, thread_clock};
use crate::fault::Fault;
use rayon::prelude::*;
use sha2::{Digest, Sha256};
use std::thread::Threads;
use std::time::{Clock, CpuClock, Duration};

/// The time of so many bare digests, cut into as many parts, at once by a thread for each
/// processor, up to 32.
pub fn time_digests_at_once(
    rt: &(impl AllocGlobal + Clock + Threads + Sync),
    digests: u64,
    threads: usize,
) -> Result<Duration, Fault>
    requires { 1 ≤ threads }
{
    let each = digests / threads as u64;
    let Ok(mut texts) = Vec::from_elem(rt.alloc(), [0; 55], threads) else {
        return Err(Fault::OutOfMemory);
    };
    let start = clock(rt);
    par_for_each_mut(rt, &mut texts, |_place: usize, text: &mut [u8; 55]| {
        // Each thread's own bytes are apart from the others', so no two threads share a cache line.
        let mut own = *text;
        make_digests(&mut own, each);
        *text = own;
    });
    let time = clock(rt).saturating_sub(start);
    for text in &texts {
        ensure_made(text, each)?;
    }
    Ok(time)
}

/// The processor time of so many digests of 55 bytes, each a single compression.
pub fn time_digests(rt: &impl CpuClock, digests: u64) -> Result<Duration, Fault> {
    let mut text = [0; 55];
    let start = thread_clock(rt);
    make_digests(&mut text, digests);
    let time = thread_clock(rt).saturating_sub(start);
    ensure_made(&text, digests)?;
    Ok(time)
}

/// Looks at the last digest, so that none of them can be left out.
fn ensure_made(text: &[u8; 55], digests: u64) -> Result<(), Fault> {
    if digests == 0 || text[54] != 0 || text[53] != 0 || text[52] != 0 {
        Ok(())
    } else {
        Err(Fault::Digests)
    }
}

/// Makes so many digests, each of bytes that have the one before in them.
fn make_digests(text: &mut [u8; 55], digests: u64) {
    for some in 0..digests.div_ceil(256) {
        let made = some.saturating_mul(256);
        make_some_digests(text, digests.saturating_sub(made).min(256));
    }
}

/// Makes a few digests. Within two loops they are compiled to their fastest form.
fn make_some_digests(text: &mut [u8; 55], digests: u64) {
    for _ in 0..digests {
        let digest = Sha256::digest(*text);
        text[23..].copy_from_slice(&digest);
    }
}
