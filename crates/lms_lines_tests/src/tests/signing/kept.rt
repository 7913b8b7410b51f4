//! Job lines that are signed as they come, by trees that are kept.
use super::memory::four_answers;
use super::{CHEAP, Scenario, carry_out, counts};
use crate::tests::{Source, lines, source_of};
use lms_batch::{SigningService, Trees};
use lms_book::MemoryStore;
use lms_fixtures::Sums;
use lms_lines::{
    JobsFault, LinesFault, Pieces, SignedJobs, count_signatures, read_and_sign, write_batch,
};
use lms_shared_book::{BookLedger, Desk};
use std::sync::Wait;
use std::sync::ledger::Ledger;
use std::test::Fail;
use std::thread::Threads;

/// The trees by which lines are signed, how many of their leaves are computed, and the answers.
#[derive(Drop)]
struct Answers {
    trees: Trees,
    sums: Sums,
    text: Vec<u8>,
}

/// Signs these lines by two workers.
fn signed<E: BookLedger, G: Ledger, B: Ledger>(
    rt: &(impl AllocGlobal + Threads + Wait + Sync),
    service: &SigningService<MemoryStore, E, G, B>,
    desk: &mut Desk<E, G, B>,
    text: &[u8],
    answers: &mut Answers,
) -> Result<SignedJobs, LinesFault> {
    let mut rest = text;
    let trees = &mut answers.trees;
    let progress = &answers.sums;
    read_and_sign(rt, rt.alloc(), service, &mut rest, desk, 2, progress, trees)
}

/// Whether all lines of a reader's next piece are signed, and whether it is the last piece. Their
/// answers are added.
fn signs_next<E: BookLedger, G: Ledger, B: Ledger>(
    rt: &(impl AllocGlobal + Threads + Wait + Sync),
    service: &SigningService<MemoryStore, E, G, B>,
    desk: &mut Desk<E, G, B>,
    reader: &mut Source<'_>,
    pieces: &mut Pieces,
    answers: &mut Answers,
) -> Result<(bool, bool), JobsFault> {
    let piece = pieces.next(rt.alloc(), reader, answers.trees.room())?;
    let Ok(jobs) = signed(rt, service, desk, &piece.text, answers) else {
        return Ok((false, piece.is_last));
    };
    let are_signed = write_batch(&mut answers.text, &jobs.batch) == Ok(())
        && jobs.asked == piece.lines
        && count_signatures(&jobs.batch) == piece.lines;
    Ok((are_signed, piece.is_last))
}

/// Whether all pieces of a text are signed, which comes by a line and a half a read, and how many
/// pieces it has with a line.
fn signs_pieces_of<E: BookLedger, G: Ledger, B: Ledger>(
    rt: &(impl AllocGlobal + Threads + Wait + Sync),
    service: &SigningService<MemoryStore, E, G, B>,
    desk: &mut Desk<E, G, B>,
    text: &[u8],
    answers: &mut Answers,
) -> Result<(bool, u64), JobsFault> {
    let mut source = source_of(text, 105, 9);
    let mut pieces = Pieces::new(rt.alloc())?;
    let mut are_signed = true;
    for count in 0..9 {
        let found = signs_next(rt, service, desk, &mut source, &mut pieces, answers)?;
        are_signed = are_signed && found.0;
        if found.1 {
            return Ok((are_signed, count));
        }
    }
    Ok((false, 0))
}

/// Whether the trees of the first 1024 indices, one above 32, are computed once, and 34 indices are
/// used.
fn are_computed_once(answers: &Answers) -> bool {
    answers.sums.are(1, 33 * 32) && answers.trees.room() == 1024 - 34
}

/// Whether a line that is no job line is refused, and the trees stay.
fn refuses<E: BookLedger, G: Ledger, B: Ledger>(
    rt: &(impl AllocGlobal + Threads + Wait + Sync),
    service: &SigningService<MemoryStore, E, G, B>,
    desk: &mut Desk<E, G, B>,
    answers: &mut Answers,
) -> bool {
    let fault = LinesFault::Jobs(JobsFault::BadJob { line: 1 });
    let is_refused = match signed(rt, service, desk, b"\n", answers) {
        Ok(_) => false,
        Err(found) => found == fault,
    };
    is_refused && are_computed_once(answers)
}

/// Whether four lines are signed in three pieces, from index 30 on, as in one batch, and then one is
/// refused.
pub(super) fn sign_pieces<E: BookLedger, G: Ledger, B: Ledger>(
    rt: &(impl AllocGlobal + Threads + Wait + Sync),
    service: &SigningService<MemoryStore, E, G, B>,
    desk: &mut Desk<E, G, B>,
) -> Result<bool, Fail> {
    let text = lines(rt.alloc(), 4)?;
    let expected = four_answers(rt, service.key())?;
    let mut answers = Answers {
        trees: Trees::kept(),
        sums: Sums::new(),
        text: Vec::new(rt.alloc()),
    };
    let found = signs_pieces_of(rt, service, desk, &text, &mut answers);
    let is_as_one_batch = found == Ok((true, 3)) && answers.text == expected;
    Ok(
        is_as_one_batch
            && are_computed_once(&answers)
            && refuses(rt, service, desk, &mut answers)
            && counts(desk) == (3, 4, 0),
    )
}

#[test]
fn lines_are_signed_as_they_come(rt: HostRuntime) -> Result<(), Fail> {
    assert!(rt; carry_out(&rt, &CHEAP, Scenario::Pieces)?);
    Ok(())
}
