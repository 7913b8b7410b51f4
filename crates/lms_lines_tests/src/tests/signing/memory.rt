//! Job lines signed where a request for memory is refused.
use super::{CHEAP, CHEAP_LINE, Scenario, carry_out, counts, has_four_answers};
use crate::tests::push_line;
use lms_batch::{Batch, BatchFault, SigningService};
use lms_book::{BookFault, MemoryStore};
use lms_fixtures::{forest_of, signature_of};
use lms_hss::{Forest, HssKey};
use lms_lines::{Done, JobsFault, LinesFault, sign_lines, write_batch};
use lms_shared_book::{BookLedger, Desk};
use std::alloc::Global;
use std::sync::Wait;
use std::sync::ledger::Ledger;
use std::test::Fail;
use std::thread::Threads;

/// The randomizer and the message of each line.
const C: [u8; 32] = [
    0, 1, 2, 3, 4, 5, 6, 7, 8, 9, 10, 11, 12, 13, 14, 15, 16, 17, 18, 19, 20, 21, 22, 23, 24, 25,
    26, 27, 28, 29, 30, 31,
];

const MESSAGE: [u8; 2] = [0xab, 0xff];

/// An empty text with this capacity, made at the first or at the second try.
fn text_of(alloc: Global, capacity: usize) -> Result<Vec<u8>, Fail> {
    match Vec::with_capacity(alloc, capacity) {
        Ok(text) => Ok(text),
        Err(_) => Ok(Vec::with_capacity(alloc, capacity)?),
    }
}

/// Four lines.
fn four_lines(alloc: Global) -> Result<Vec<u8>, Fail> {
    let mut text = text_of(alloc, 512)?;
    for _ in 0..4 {
        push_line(&mut text, "aBFf", "\n")?;
    }
    Ok(text)
}

/// Adds the answer to a line that is signed by this index.
fn push_answer(alloc: Global, forest: &Forest, start: u64, text: &mut Vec<u8>) -> Result<(), Fail> {
    let signature = signature_of(forest, start, &C, &MESSAGE)?;
    let mut signatures = match Vec::with_capacity(alloc, 1) {
        Ok(signatures) => signatures,
        Err(_) => Vec::with_capacity(alloc, 1)?,
    };
    signatures.push(signature)?;
    Ok(write_batch(text, &Batch::Complete { start, signatures })?)
}

/// The four answers to lines signed from index 30 on.
pub(super) fn four_answers(
    rt: &(impl AllocGlobal + Threads + Sync),
    key: HssKey,
) -> Result<Vec<u8>, Fail> {
    let forest = forest_of(rt, key, 30, 4)?;
    let mut text = text_of(rt.alloc(), 4 * CHEAP_LINE)?;
    for start in 30..34 {
        push_answer(rt.alloc(), &forest, start, &mut text)?;
    }
    Ok(text)
}

/// How many of the four answers make up a text, each at most once and in their order, or `None`
/// where it is no such text.
fn answers_in(text: &[u8], whole: &[u8]) -> Option<usize> {
    let mut rest = text;
    let mut count = 0_usize;
    for line in whole.chunks(CHEAP_LINE) {
        if let Some(more) = rest.strip_prefix(line) {
            rest = more;
            count = count.saturating_add(1);
        }
    }
    if rest.is_empty() { Some(count) } else { None }
}

/// How many answers were written where signing ended so, and how many indices it used.
fn wanted(answer: Result<Done, LinesFault>) -> Option<(usize, u64)> {
    match answer {
        Ok(Done { signed, asked: 4 }) => Some((signed, 4)),
        Err(LinesFault::Batch(BatchFault::OutOfMemory { burnt: 4 })) => Some((0, 4)),
        Err(LinesFault::Batch(BatchFault::Book(BookFault::OutOfMemory))) => Some((0, 0)),
        Err(LinesFault::Jobs(JobsFault::OutOfMemory)) => Some((0, 0)),
        _ => None,
    }
}

/// Signs these four lines by four workers, and says how many answers were written, and how many
/// indices it used.
fn signed_by_four<E: BookLedger, G: Ledger, B: Ledger>(
    rt: &(impl AllocGlobal + Threads + Wait + Sync),
    service: &SigningService<MemoryStore, E, G, B>,
    desk: &mut Desk<E, G, B>,
    input: &[u8],
    text: &mut Vec<u8>,
) -> Option<(usize, u64)> {
    let mut rest = input;
    wanted(sign_lines(rt, rt.alloc(), service, &mut rest, text, desk, 4))
}

/// Signs four lines from index 30 on by four workers, and says how many indices it used. `None`
/// where it ended otherwise than so: all are answered, or some, or none.
pub(super) fn sign_from_30<E: BookLedger, G: Ledger, B: Ledger>(
    rt: &(impl AllocGlobal + Threads + Wait + Sync),
    service: &SigningService<MemoryStore, E, G, B>,
    desk: &mut Desk<E, G, B>,
) -> Result<Option<u64>, Fail> {
    let whole = four_answers(rt, service.key())?;
    let mut text = text_of(rt.alloc(), 4 * CHEAP_LINE)?;
    let input = four_lines(rt.alloc())?;
    match signed_by_four(rt, service, desk, &input, &mut text) {
        Some((signed, used)) => {
            let is_right = has_four_answers(&whole, CHEAP_LINE, 30)
                && answers_in(&text, &whole) == Some(signed)
                && counts(desk) == (used / 4, used, 0);
            Ok(if is_right { Some(used) } else { None })
        }
        None => Ok(None),
    }
}

/// Whether all desks are there, and the book has used so many indices from index 30 on.
pub(super) fn has_used<E: BookLedger, G: Ledger, B: Ledger>(
    service: SigningService<MemoryStore, E, G, B>,
    desks: Vec<Desk<E, G, B>>,
    used: Option<u64>,
) -> bool {
    match (service.into_book().settle(desks), used) {
        (Ok(book), Some(used)) => book.counter() == 30_u64.saturating_add(used),
        _ => false,
    }
}

/// The merge check refuses each request for memory in turn: all lines are answered, or some, or none,
/// with their indices used; or nothing is reserved.
#[test]
fn lines_after_refused_memory(rt: HostRuntime) -> Result<(), Fail> {
    assert!(rt; carry_out(&rt, &CHEAP, Scenario::RefusedMemory)?);
    Ok(())
}
