//! Runs of the whole program over files in memory, and what they leave.
pub mod arguments;
pub mod states;

use lms_cli::run::run;
use lms_commands::Resources;
use lms_hss::{Progress, Unwatched};
use lms_world::{MemoryWorld, OutOfMemory, Printer, World, WorldFault};
use std::alloc::Global;
use std::io::{Read, Write};
use std::str;
use std::sync::Wait;
use std::thread::Threads;

/// What a run left.
#[derive(Drop)]
pub struct ProgramEnd {
    pub status: u8,
    pub output: Vec<u8>,
    pub errors: Vec<u8>,
}

impl ProgramEnd {
    pub fn output(&self) -> &str {
        text_of(&self.output)
    }

    pub fn errors(&self) -> &str {
        text_of(&self.errors)
    }

    /// Whether the run ended with this status, and printed this output and these errors.
    pub fn is(&self, status: u8, output: &str, errors: &str) -> bool {
        self.status == status
            && self.output.as_slice() == output.as_bytes()
            && self.errors.as_slice() == errors.as_bytes()
    }
}

/// The text of these bytes, or one that no run prints.
pub fn text_of(bytes: &[u8]) -> &str {
    str::from_utf8(bytes).unwrap_or("no text")
}

/// Runs the program, and answers its exit status. What `run` promises of that and of what it is lent
/// is left to its proof.
pub fn status_of<W: World, I: Read, O: Write, E: Write>(
    rt: &(impl Threads + Wait + AllocGlobal + Sync),
    progress: &impl Progress,
    arguments: &[&str],
    world: &mut W,
    input: &mut I,
    output: &mut O,
    errors: &mut E,
) -> u8 {
    run(
        &Resources {
            rt,
            alloc: rt.alloc(),
            progress,
            looked_on: false,
        },
        arguments,
        world,
        input,
        &mut Printer::new(output),
        errors,
    )
    .code()
}

/// What a run with no input leaves.
pub fn end_of<W: World>(
    rt: &(impl Threads + Wait + AllocGlobal + Sync),
    arguments: &[&str],
    world: &mut W,
) -> ProgramEnd {
    let mut input: &[u8] = &[];
    end_with(rt, arguments, world, &mut input, Vec::new(rt.alloc()))
}

/// What a run with this input leaves, whose output goes into this list.
pub fn end_with<W: World, I: Read>(
    rt: &(impl Threads + Wait + AllocGlobal + Sync),
    arguments: &[&str],
    world: &mut W,
    input: &mut I,
    output: Vec<u8>,
) -> ProgramEnd {
    let mut output = output;
    let mut errors = Vec::new(rt.alloc());
    let status = status_of(
        rt,
        &Unwatched,
        arguments,
        world,
        input,
        &mut output,
        &mut errors,
    );
    ProgramEnd {
        status,
        output,
        errors,
    }
}

/// Whether a run ends with this status, and prints this output and these errors.
pub fn ends<W: World>(
    rt: &(impl Threads + Wait + AllocGlobal + Sync),
    arguments: &[&str],
    world: &mut W,
    status: u8,
    output: &str,
    errors: &str,
) -> bool {
    end_of(rt, arguments, world).is(status, output, errors)
}

/// The same of files in memory, where no errors are printed.
pub fn says(
    rt: &(impl Threads + Wait + AllocGlobal + Sync),
    arguments: &[&str],
    world: &mut MemoryWorld,
    status: u8,
    output: &str,
) -> bool {
    ends(rt, arguments, world, status, output, "")
}

/// The same of files in memory, where nothing but errors is printed.
pub fn fails_with(
    rt: &(impl Threads + Wait + AllocGlobal + Sync),
    arguments: &[&str],
    world: &mut MemoryWorld,
    status: u8,
    line: &str,
) -> bool {
    ends(rt, arguments, world, status, "", line)
}

/// Makes these the bytes of a file.
pub fn write<W: World>(
    alloc: Global,
    world: &mut W,
    name: &str,
    bytes: &[u8],
) -> Result<(), WorldFault> {
    match world.plan_output(alloc, name) {
        Ok(output) => world.write(output, bytes),
        Err(OutOfMemory) => Err(WorldFault::OutOfMemory),
    }
}
