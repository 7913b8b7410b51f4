//! What a command needs beside its world.
use std::alloc::Global;

/// Where threads are started, where memory is taken, who is told how many leaves of trees are
/// computed, as trees may take hours where they are tall, and whether somebody looks on at a terminal,
/// who gets a note after a fault or a verdict.
#[derive(Drop)]
pub struct Resources<'a, T, P> {
    pub rt: &'a T,
    pub alloc: Global,
    pub progress: &'a P,
    pub looked_on: bool,
}
