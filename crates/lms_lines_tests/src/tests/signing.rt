ghost use Rattle.std.specs.Prelude.{◌≡◌};
ghost use Rattle.lms_shared_book.specs.Desks.{BlankFits};

mod kept;
mod memory;

use crate::tests::{Sink, lines, sink_of, source_of};
use lms_batch::{BatchFault, SigningService};
use lms_book::{Book, BookFault, MemoryStore};
use lms_fixtures::{book_at, key_of};
use lms_lines::{Done, JobsFault, LinesFault, sign_lines};
use lms_params::{LmsType, OtsType};
use lms_shared_book::{Blanks, BookLedger, Desk, SharedBook};
use std::alloc::{AllocGlobal, Global};
use std::io::Read;
use std::marker::Brand;
use std::sync::Wait;
use std::sync::ledger::{Blank, Ledger};
use std::test::Fail;
use std::thread::Threads;

/// What is done with a service that has one desk.
#[derive(Clone, Copy)]
enum Scenario {
    /// Batches one after another, some of which fail.
    Batches,
    /// Four lines that come in pieces, by trees that are kept.
    Pieces,
    /// Four lines by four workers, where any request for memory may be refused.
    RefusedMemory,
    /// Four lines to a writer that fails after so many writes, or takes nothing, and four more.
    FailedWriter { writes: usize, fails: bool },
}

/// The levels 5/8,5/8, and how long their answer line for an index of two digits is.
const LEVELS: [(LmsType, OtsType); 2] = [(LmsType::H5, OtsType::W8); 2];

const LINE: usize = 5292;

/// The same of the levels 5/2,5/2, whose trees take a twentieth of the work.
const CHEAP: [(LmsType, OtsType); 2] = [(LmsType::H5, OtsType::W2); 2];

const CHEAP_LINE: usize = 17_964;

/// How many writes four answer lines of 5/2,5/2 are: for each its index, a space, nine parts of its
/// digits, and its end.
const CHEAP_WRITES: usize = 48;

/// Signs job lines by two workers, to a writer.
fn signed<E: BookLedger, G: Ledger, B: Ledger>(
    rt: &(impl AllocGlobal + Threads + Wait + Sync),
    service: &SigningService<MemoryStore, E, G, B>,
    desk: &mut Desk<E, G, B>,
    text: &[u8],
    writer: &mut Sink,
) -> Result<Done, LinesFault> {
    let mut rest = text;
    sign_lines(rt, rt.alloc(), service, &mut rest, writer, desk, 2)
}

/// Whether a text begins as an answer line does that has this index, of two digits.
fn begins_answer(text: &[u8], index: u64) -> bool {
    let tens = b'0' + (index / 10 % 10) as u8;
    let ones = b'0' + (index % 10) as u8;
    text.starts_with(&[tens, ones, b' '])
}

/// Whether a text is an answer line of this length that has this index, of two digits.
fn is_answer(text: &[u8], length: usize, index: u64) -> bool {
    text.len() == length && begins_answer(text, index) && text.ends_with(b"\n")
}

/// Whether a text has four answer lines of this length, from this index on.
fn has_four_answers(text: &[u8], length: usize, first: u64) -> bool {
    let mut index = first;
    let mut is_right = text.len() == length.saturating_mul(4);
    for line in text.chunks(length.max(1)) {
        is_right = is_right && is_answer(line, length, index);
        index = index.saturating_add(1);
    }
    is_right
}

/// What a desk counted: entries, received, burnt.
fn counts<E: BookLedger, G: Ledger, B: Ledger>(desk: &Desk<E, G, B>) -> (u64, u64, u64) {
    (desk.entries(), desk.received(), desk.burnt())
}

/// Whether what a reader gives is refused, with nothing written and nothing counted.
fn refuses<E: BookLedger, G: Ledger, B: Ledger>(
    rt: &(impl AllocGlobal + Threads + Wait + Sync),
    service: &SigningService<MemoryStore, E, G, B>,
    desk: &mut Desk<E, G, B>,
    reader: &mut impl Read,
    fault: LinesFault,
) -> bool {
    let mut writer = sink_of(rt.alloc(), 1, true);
    let before = counts(desk);
    let answer = sign_lines(rt, rt.alloc(), service, reader, &mut writer, desk, 2);
    answer == Err(fault) && writer.taken.is_empty() && counts(desk) == before
}

/// Whether these four lines are answered from this index on, by lines of this length.
fn answers_four<E: BookLedger, G: Ledger, B: Ledger>(
    rt: &(impl AllocGlobal + Threads + Wait + Sync),
    service: &SigningService<MemoryStore, E, G, B>,
    desk: &mut Desk<E, G, B>,
    text: &[u8],
    length: usize,
    first: u64,
) -> bool {
    let mut writer = sink_of(rt.alloc(), 100_000, true);
    let done = signed(rt, service, desk, text, &mut writer);
    let all = Done {
        signed: 4,
        asked: 4,
    };
    done == Ok(all) && has_four_answers(&writer.taken, length, first)
}

/// Whether a writer that takes 5300 bytes gets the first answer to these four lines and the
/// beginning of the second.
fn writes_a_beginning<E: BookLedger, G: Ledger, B: Ledger>(
    rt: &(impl AllocGlobal + Threads + Wait + Sync),
    service: &SigningService<MemoryStore, E, G, B>,
    desk: &mut Desk<E, G, B>,
    text: &[u8],
    first: u64,
    fails: bool,
) -> bool {
    let mut writer = sink_of(rt.alloc(), 5300, fails);
    let answer = signed(rt, service, desk, text, &mut writer);
    let (line, more) = writer.taken.split_at(writer.taken.len().min(LINE));
    answer == Err(LinesFault::Write)
        && is_answer(line, LINE, first)
        && begins_answer(more, first.saturating_add(1))
        && more.len() == 8
}

/// Whether none of these four lines is signed, and nothing is counted, where the text can't be read,
/// from the first block or a later one on.
fn is_never_signed_unread<E: BookLedger, G: Ledger, B: Ledger>(
    rt: &(impl AllocGlobal + Threads + Wait + Sync),
    service: &SigningService<MemoryStore, E, G, B>,
    desk: &mut Desk<E, G, B>,
    text: &[u8],
) -> bool {
    let fault = LinesFault::Jobs(JobsFault::Read);
    let mut is_right = true;
    for reads in 0..5 {
        let mut source = source_of(text, 70, reads);
        is_right = is_right && refuses(rt, service, desk, &mut source, fault);
    }
    is_right
}

/// Whether lines are signed from index 30 on, and more lines than the key has indices are refused,
/// from index 46 on.
fn sign_batches<E: BookLedger, G: Ledger, B: Ledger>(
    rt: &(impl AllocGlobal + Threads + Wait + Sync),
    service: &SigningService<MemoryStore, E, G, B>,
    desk: &mut Desk<E, G, B>,
) -> Result<bool, Fail> {
    let bad = LinesFault::Jobs(JobsFault::BadJob { line: 1 });
    let exhausted = LinesFault::Batch(BatchFault::Book(BookFault::Exhausted { left: 978 }));
    let four = lines(rt.alloc(), 4)?;
    let many = lines(rt.alloc(), 1024)?;
    let (mut empty, mut rest) = (b"\n".as_slice(), many.as_slice());
    let mut is_right = refuses(rt, service, desk, &mut empty, bad)
        && is_never_signed_unread(rt, service, desk, &four);
    for (first, next, fails) in [(30, 34, true), (38, 42, false)] {
        is_right = is_right
            && writes_a_beginning(rt, service, desk, &four, first, fails)
            && answers_four(rt, service, desk, &four, LINE, next);
    }
    Ok(is_right && refuses(rt, service, desk, &mut rest, exhausted) && counts(desk) == (4, 16, 0))
}

/// Whether a writer that fails after so many writes, or takes nothing, has a beginning of these
/// answers to four lines, and all of them where it takes as many writes as they are.
fn leaves_a_beginning<E: BookLedger, G: Ledger, B: Ledger>(
    rt: &(impl AllocGlobal + Threads + Wait + Sync),
    service: &SigningService<MemoryStore, E, G, B>,
    desk: &mut Desk<E, G, B>,
    text: &[u8],
    answers: &[u8],
    writes: usize,
    fails: bool,
) -> bool {
    let mut writer = sink_of(rt.alloc(), writes, fails);
    writer.most = CHEAP_LINE;
    let answer = signed(rt, service, desk, text, &mut writer);
    let is_as_wanted = if writes < CHEAP_WRITES {
        answer == Err(LinesFault::Write)
    } else {
        answer.is_ok() && writer.taken.len() == answers.len()
    };
    is_as_wanted && answers.starts_with(&writer.taken)
}

/// Whether a writer that fails after so many writes, or takes nothing, has a beginning of the answers
/// to four lines from index 30 on, and the next four lines are answered from index 34 on.
fn fail_to_write<E: BookLedger, G: Ledger, B: Ledger>(
    rt: &(impl AllocGlobal + Threads + Wait + Sync),
    service: &SigningService<MemoryStore, E, G, B>,
    desk: &mut Desk<E, G, B>,
    writes: usize,
    fails: bool,
) -> Result<bool, Fail> {
    let answers = memory::four_answers(rt, service.key())?;
    let text = lines(rt.alloc(), 4)?;
    let is_begun = leaves_a_beginning(rt, service, desk, &text, &answers, writes, fails);
    Ok(is_begun && answers_four(rt, service, desk, &text, CHEAP_LINE, 34))
}

/// Whether a scenario that is carried out with the first of these desks ends as it says.
fn carry_on<E: BookLedger, G: Ledger, B: Ledger>(
    rt: &(impl AllocGlobal + Threads + Wait + Sync),
    service: SigningService<MemoryStore, E, G, B>,
    desks: Vec<Desk<E, G, B>>,
    scenario: Scenario,
) -> Result<bool, Fail> {
    let mut desks = desks;
    let Some(desk) = desks.first_mut() else {
        return Err(Fail::from("a desk"));
    };
    match scenario {
        Scenario::Batches => sign_batches(rt, &service, desk),
        Scenario::Pieces => kept::sign_pieces(rt, &service, desk),
        Scenario::RefusedMemory => {
            match memory::sign_from_30(rt, &service, desk) {
                Ok(used) => Ok(memory::has_used(service, desks, used)),
                Err(fault) => Err(fault),
            }
        }
        Scenario::FailedWriter { writes, fails } => {
            fail_to_write(rt, &service, desk, writes, fails)
        }
    }
}

/// Shares a book, and says whether the scenario, carried out with that, ends as it says.
fn carried_out<E: BookLedger, G: Ledger, B: Ledger>(
    rt: &(impl AllocGlobal + Threads + Wait + Sync),
    book: Book<MemoryStore>,
    blanks: Blanks,
    scenario: Scenario,
) -> Result<bool, Fail>
    requires same { book ≡ E.book }
    requires entries { BlankFits blanks.entries E.name E.parts 2 }
    requires received { BlankFits blanks.received G.name G.parts 2 }
    requires burnt { BlankFits blanks.burnt B.name B.parts 2 }
{
    let shared = match SharedBook::<MemoryStore, E, G, B>::share(rt.alloc(), book, blanks, 1) {
        Err((_, book, blanks)) => SharedBook::share(rt.alloc(), book, blanks, 1),
        answer => answer,
    };
    match shared {
        Ok((shared, desks)) => carry_on(rt, SigningService::over(shared), desks, scenario),
        Err(_) => Err(Fail::from("memory for a desk")),
    }
}

/// Whether a scenario that is carried out with a key of these levels, whose next index is 30, ends as
/// it says.
fn carry_out(
    rt: &(impl AllocGlobal + Threads + Wait + Sync),
    levels: &[(LmsType, OtsType)],
    scenario: Scenario,
) -> Result<bool, Fail> {
    let book = book_at(rt.alloc(), key_of(levels, 0x11)?, 30)?;
    let blanks = Blanks {
        entries: Blank::new(2),
        received: Blank::new(2),
        burnt: Blank::new(2),
    };
    carried_out::<Brand, Brand, Brand>(rt, book, blanks, scenario)
}

#[test]
fn lines_are_signed(rt: HostRuntime) -> Result<(), Fail> {
    assert!(rt; carry_out(&rt, &LEVELS, Scenario::Batches)?);
    Ok(())
}

/// Each write of four answers fails in turn.
#[test]
fn each_failed_write_leaves_a_beginning(rt: HostRuntime) -> Result<(), Fail> {
    for writes in 0..=CHEAP_WRITES {
        for fails in [true, false] {
            let scenario = Scenario::FailedWriter { writes, fails };
            assert!(rt; carry_out(&rt, &CHEAP, scenario)?, "{writes}");
        }
    }
    Ok(())
}
