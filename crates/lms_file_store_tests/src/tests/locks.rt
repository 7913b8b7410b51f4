//! Locks of states.
use super::disk::{begins, begins_with_a_link, clears, links, puts};
use lms_file_store::{LockFault, lock};
use std::test::Fail;

/// Why the lock on a state of this name can't be had. `None` where it can.
fn lock_fault(rt: &HostRuntime, name: &str) -> Option<LockFault> {
    match lock(rt, rt.alloc(), name) {
        Ok(_) => None,
        Err(reason) => Some(LockFault::of(&reason)),
    }
}

/// Whether the lock on a state can be had by one name, and while it is held, that by another name can't
/// be had for this fault, or can.
fn locks_beside(rt: &HostRuntime, name: &str, other: &str, fault: Option<LockFault>) -> bool {
    match lock(rt, rt.alloc(), name) {
        Ok(held) => {
            let found = lock_fault(rt, other);
            drop(held);
            found == fault
        }
        Err(_) => false,
    }
}

#[test]
fn one_holds_the_lock(rt: HostRuntime) {
    let (state, other) = ("file_store_lock/state", "file_store_lock/other");
    assert!(rt;
        begins(&rt, "file_store_lock")
            && locks_beside(&rt, state, state, Some(LockFault::InUse))
            && locks_beside(&rt, state, other, None)
            && lock_fault(&rt, state).is_none()
            && clears(&rt, "file_store_lock")
    );
}

#[test]
fn a_link_is_locked_as_its_state(rt: HostRuntime) {
    let (link, state) = ("file_store_links/link", "file_store_links/real/state");
    assert!(rt;
        begins_with_a_link(&rt)
            && locks_beside(&rt, link, state, Some(LockFault::InUse))
            && clears(&rt, "file_store_links")
    );
}

#[test]
fn what_can_not_be_reached_has_no_lock(rt: HostRuntime) {
    assert!(rt;
        begins(&rt, "file_store_faults")
            && puts(&rt, "file_store_faults/file", b"a")
            && links(&rt, "nowhere", "file_store_faults/link")
    );
    for name in [
        "file_store_faults/file/state",
        "file_store_faults/none/state",
        "file_store_faults/link",
    ] {
        assert!(rt;
            lock_fault(&rt, name) == Some(LockFault::Unreachable),
            "{name}"
        );
    }
    assert!(rt; clears(&rt, "file_store_faults"));
}

/// Whether a fault says this.
fn says(rt: &HostRuntime, fault: LockFault, text: &str) -> Result<bool, Fail> {
    let said = format!(in rt.alloc(); "{fault}")?;
    Ok(said.as_str() == text)
}

#[test]
fn a_fault_says_why_there_is_no_lock(rt: HostRuntime) -> Result<(), Fail> {
    for (fault, text) in [
        (LockFault::InUse, "the lock is not available"),
        (LockFault::Unreachable, "the lock can't be reached"),
        (LockFault::OutOfMemory, "out of memory"),
    ] {
        assert!(rt; says(&rt, fault, text)?, "{text}");
    }
    Ok(())
}
