//! `keygen` whose input fails.
use crate::tests::runs::arguments::{SEED, keygen_by};
use crate::tests::runs::end_with;
use lms_world::{MemoryWorld, World};
use std::io;
use std::io::{ErrorKind, Read};
use std::sync::Wait;
use std::test::Fail;
use std::thread::Threads;

/// Gives its bytes, and then fails.
#[derive(Drop)]
struct Failing<'a> {
    left: &'a [u8],
}

impl Read for Failing<'_> {
    fn read(&mut self, buf: &mut [u8]) -> io::Result<usize> {
        if self.left.is_empty() {
            return Err(io::Error::from(ErrorKind::BrokenPipe));
        }
        self.left.read(buf)
    }
}

/// Whether an input that fails after these bytes makes no key, and ends with this status and this line.
fn makes_none(
    rt: &(impl Threads + Wait + AllocGlobal + Sync),
    text: &str,
    status: u8,
    line: &str,
) -> bool {
    let mut world = MemoryWorld::new(rt.alloc());
    let mut input = Failing {
        left: text.as_bytes(),
    };
    let arguments = keygen_by("5/8", "-");
    let end = end_with(rt, &arguments, &mut world, &mut input, Vec::new(rt.alloc()));
    end.is(status, "", line)
        && world.state().is_none()
        && world.read(rt.alloc(), "key.pub").is_err()
}

/// An input that fails is never taken for one that ends. What is too long is bad before it fails.
#[test]
fn cannot_read_a_seed(rt: HostRuntime) -> Result<(), Fail> {
    let with_more = format!(in rt.alloc(); "{SEED}\n\n")?;
    let unread = "error: cannot read input\n";
    assert!(rt;
        makes_none(&rt, "", 6, unread)
            && makes_none(&rt, SEED, 6, unread)
            && makes_none(&rt, with_more.as_str(), 2, "error: bad seed\n")
    );
    Ok(())
}
