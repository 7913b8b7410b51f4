//! The line of the longest fault.
use lms_commands::{Fault, print_fault};

#[test]
fn the_longest_fault_fits(rt: HostRuntime) {
    let mut errors = Vec::new(rt.alloc());
    let fault = Fault::WriteStateBurnt {
        start: u64::MAX,
        len: 1,
    };
    let is_printed = print_fault(&mut errors, fault).is_ok();
    let line = b"error: cannot write state: 18446744073709551615 to 18446744073709551615 burnt\n";
    assert!(rt; is_printed && errors.as_slice() == line.as_slice());
}
