//! `batch` over streams and memory that fail.
use super::batch::{FOUR_LINES, TWO_LINES, batch, end_of_batch, end_of_batch_to};
use super::{Stuck, is_unprinted};
use crate::tests::runs::arguments::{CHEAP, ONE};
use crate::tests::runs::states::{is_with, keyed, store_at};
use crate::tests::runs::{ProgramEnd, text_of};
use lms_world::MemoryWorld;
use std::alloc::Global;
use std::io;
use std::io::{ErrorKind, Write};
use std::sync::Wait;
use std::test::Fail;
use std::thread::Threads;

/// A writer that takes so many bytes, and then fails, or takes nothing.
#[derive(Drop)]
struct Full {
    taken: Vec<u8>,
    capacity: usize,
    fails: bool,
}

impl Write for Full {
    fn write(&mut self, buf: &[u8]) -> io::Result<usize> {
        let count = buf.len().min(self.capacity);
        if count == 0 && self.fails {
            return Err(io::Error::from(ErrorKind::BrokenPipe));
        }
        self.taken.extend_from_slice(&buf[..count])?;
        self.capacity -= count;
        Ok(count)
    }

    fn flush(&mut self) -> io::Result<()> {
        Ok(())
    }
}

/// Whether a batch of two jobs says that its answers could not be written, where a writer gets a
/// beginning of them and no more.
fn leaves_a_beginning(
    rt: &(impl Threads + Wait + AllocGlobal + Sync),
    world: &mut MemoryWorld,
    full: &mut Full,
    answers: &[u8],
) -> bool {
    let capacity = full.capacity;
    is_unprinted(rt, &batch("2"), world, TWO_LINES, full)
        && full.taken.len() == capacity
        && answers.starts_with(&full.taken)
}

/// Whether a batch that failed used the indices 5 and 6, so that the next one begins with index 7.
fn goes_on(rt: &(impl Threads + Wait + AllocGlobal + Sync), world: &mut MemoryWorld) -> bool {
    is_with(world, &ONE, 7, 1, 0)
        && end_of_batch(rt, world, "1", TWO_LINES)
            .output
            .starts_with(b"7 ")
}

/// Whether a writer that takes so many bytes gets a beginning of these answers, and the batch after
/// it the next indices.
fn gets_a_beginning(
    rt: &(impl Threads + Wait + AllocGlobal + Sync),
    answers: &[u8],
    capacity: usize,
    fails: bool,
) -> Result<bool, Fail> {
    let mut world = keyed(rt.alloc(), &ONE, 5)?;
    let mut full = Full {
        taken: Vec::new(rt.alloc()),
        capacity,
        fails,
    };
    Ok(leaves_a_beginning(rt, &mut world, &mut full, answers) && goes_on(rt, &mut world))
}

/// All indices are used where the answers can't be written, or not passed on.
#[test]
fn cannot_write_answers(rt: HostRuntime) -> Result<(), Fail> {
    let mut world = keyed(rt.alloc(), &ONE, 5)?;
    let end = end_of_batch(&rt, &mut world, "2", TWO_LINES);
    let mut output = Stuck { times: 0 };
    let is_stuck = is_unprinted(&rt, &batch("2"), &mut world, TWO_LINES, &mut output);
    assert!(rt; is_stuck && output.times == 1 && is_with(&world, &ONE, 9, 2, 0));
    for capacity in [0, 1, 2, 2594, 2595, 2596, 5189] {
        for fails in [true, false] {
            assert!(rt;
                gets_a_beginning(&rt, &end.output, capacity, fails)?,
                "{capacity}"
            );
        }
    }
    Ok(())
}

/// How many indices a batch of four jobs that ended so has used, and how many lines it printed.
fn uses(end: &ProgramEnd) -> Option<(u64, usize)> {
    match (end.status, end.errors()) {
        (0, "") => Some((4, 4)),
        (1, "error: partial: 0 of 4 signed\n") => Some((4, 0)),
        (1, "error: partial: 1 of 4 signed\n") => Some((4, 1)),
        (1, "error: partial: 2 of 4 signed\n") => Some((4, 2)),
        (1, "error: partial: 3 of 4 signed\n") => Some((4, 3)),
        (5, "error: out of memory\n") => Some((0, 0)),
        (5, "error: out of memory: 4 burnt\n") => Some((4, 0)),
        _ => None,
    }
}

/// How many answer lines a text has, or `None` where it is not some of these lines, in their order.
fn answers_in(text: &str, expected: &str) -> Option<usize> {
    let mut is_right = text.is_empty() || text.ends_with("\n");
    let mut rest = expected.lines();
    for line in text.lines() {
        is_right = is_right && rest.any(|other| other == line);
    }
    if is_right {
        Some(text.lines().count())
    } else {
        None
    }
}

/// How many indices after index 5 the state counts, four by each opening. `None` where it is no such
/// state of the key.
fn used(world: &MemoryWorld) -> Option<u64> {
    let mut found = None;
    for openings in 0..3 {
        let count = 4 * openings;
        if is_with(world, &CHEAP, 5 + count, openings, 0) {
            found = Some(count);
        }
    }
    found
}

/// Whether a batch that ended so used as many indices as it says, from so many used to so many, and
/// printed its lines, which are some of the answers from its first index on.
fn is_true(
    end: &ProgramEnd,
    answers: &[Vec<u8>; 2],
    before: Option<u64>,
    after: Option<u64>,
) -> bool {
    let [first, second] = answers;
    match (uses(end), before, after) {
        (Some((indices, printed)), Some(before), Some(after)) => {
            let expected = if before == 0 { first } else { second };
            after.checked_sub(before) == Some(indices)
                && answers_in(end.output(), text_of(expected)) == Some(printed)
        }
        _ => false,
    }
}

/// What a batch of the four jobs prints, or `None` where it was refused memory.
fn four_answers(
    rt: &(impl Threads + Wait + AllocGlobal + Sync),
    world: &mut MemoryWorld,
) -> Result<Option<Vec<u8>>, Fail> {
    let end = end_of_batch_to(rt, world, "1", FOUR_LINES, no_output(rt.alloc())?);
    Ok(if end.status == 0 {
        Some(end.output)
    } else {
        None
    })
}

/// The answers to the four jobs by indices 5 to 8, and by 9 to 12, or `None` where memory was
/// refused.
fn eight_answers(
    rt: &(impl Threads + Wait + AllocGlobal + Sync),
) -> Result<Option<[Vec<u8>; 2]>, Fail> {
    let mut world = world_at_last(rt.alloc())?;
    let Some(first) = four_answers(rt, &mut world)? else {
        return Ok(None);
    };
    let Some(second) = four_answers(rt, &mut world)? else {
        return Ok(None);
    };
    Ok(Some([first, second]))
}

/// An empty list with the capacity for four answer lines, made at the first or at the second try.
/// So writing them takes no memory.
fn no_output(alloc: Global) -> Result<Vec<u8>, Fail> {
    match Vec::with_capacity(alloc, 36_000) {
        Ok(output) => Ok(output),
        Err(_) => Ok(Vec::with_capacity(alloc, 36_000)?),
    }
}

/// The state of index 5 of 5/2, made at the first or at the second try.
fn world_at_last(alloc: Global) -> Result<MemoryWorld, Fail> {
    let mut world = MemoryWorld::new(alloc);
    world.set_state(store_at(alloc, &CHEAP, 5)?);
    Ok(world)
}

/// The merge check refuses each request for memory in turn. A refusal while the answers are made
/// shows nothing.
#[test]
fn a_batch_says_what_it_used(rt: HostRuntime) -> Result<(), Fail> {
    let answers = match eight_answers(&rt)? {
        Some(answers) => answers,
        None => eight_answers(&rt)?.ok_or("a second try")?,
    };
    let mut world = world_at_last(rt.alloc())?;
    let output = no_output(rt.alloc())?;
    let first = end_of_batch_to(&rt, &mut world, "4", FOUR_LINES, output);
    let between = used(&world);
    let output = no_output(rt.alloc())?;
    let second = end_of_batch_to(&rt, &mut world, "4", FOUR_LINES, output);
    let after = used(&world);
    assert!(rt;
        is_true(&first, &answers, Some(0), between)
            && is_true(&second, &answers, between, after)
            && (first.status == 0 || second.status == 0)
    );
    Ok(())
}
