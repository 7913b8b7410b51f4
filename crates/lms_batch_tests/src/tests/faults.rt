//! What faults say.
use lms_batch::{BatchFault, TakeFault};
use lms_book::BookFault;
use std::alloc::Global;
use std::fmt::Display;

/// Whether this is what a fault says.
fn says<T: Display>(alloc: Global, fault: &T, text: &str) -> bool {
    match fault.to_string(alloc) {
        Ok(said) => said.as_str() == text,
        Err(_) => false,
    }
}

#[test]
fn faults_say_what_failed(rt: HostRuntime) {
    let (alloc, left) = (rt.alloc(), BookFault::Exhausted { left: 3 });
    let stranger = "the receipt is not of this batch";
    assert!(rt;
        says(alloc, &TakeFault::Stranger, stranger)
            && says(alloc, &TakeFault::Twice, "the place has a signature")
            && says(alloc, &BatchFault::TooMany, "too many jobs")
            && says(alloc, &BatchFault::Book(left), "exhausted: 3 left")
            && says(
                alloc,
                &BatchFault::OutOfMemory { burnt: 4 },
                "out of memory: 4 burnt"
            )
    );
}
