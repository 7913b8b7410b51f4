//! Streams that fail midway, and memory that is refused.
mod batch;
mod batch_faults;
mod memory;

use crate::tests::runs::arguments::VERIFY;
use crate::tests::runs::states::signed;
use crate::tests::runs::status_of;
use lms_hss::Unwatched;
use lms_world::MemoryWorld;
use std::io;
use std::io::Write;
use std::sync::Wait;
use std::test::Fail;
use std::thread::Threads;

/// A stream that takes bytes and fails when they are to be passed on, so many times.
#[derive(Drop)]
struct Stuck {
    times: u64,
}

impl Write for Stuck {
    fn write(&mut self, buf: &[u8]) -> io::Result<usize> {
        Ok(buf.len())
    }

    fn flush(&mut self) -> io::Result<()> {
        self.times = self.times.saturating_add(1);
        Err(io::Error::from(io::ErrorKind::StorageFull))
    }
}

/// Whether a command with this input, whose output can't be printed by this stream, says so.
fn is_unprinted<O: Write>(
    rt: &(impl Threads + Wait + AllocGlobal + Sync),
    arguments: &[&str],
    world: &mut MemoryWorld,
    input: &str,
    output: &mut O,
) -> bool {
    let mut errors = Vec::new(rt.alloc());
    let mut rest = input.as_bytes();
    let status = status_of(
        rt,
        &Unwatched,
        arguments,
        world,
        &mut rest,
        output,
        &mut errors,
    );
    status == 6 && errors.as_slice() == b"error: cannot write output\n".as_slice()
}

#[test]
fn cannot_pass_on(rt: HostRuntime) -> Result<(), Fail> {
    let mut world = signed(rt.alloc())?;
    let mut output = Stuck { times: 0 };
    assert!(rt; is_unprinted(&rt, &VERIFY, &mut world, "", &mut output) && output.times == 1);
    Ok(())
}
