//! The clocks. One that can't be read is at 0.
use std::time::{Clock, CpuClock, Duration};

/// The time on the clock.
pub fn clock(rt: &impl Clock) -> Duration {
    rt.monotonic().unwrap_or(Duration::ZERO)
}

/// The processor time of the calling thread.
pub fn thread_clock(rt: &impl CpuClock) -> Duration {
    rt.thread_cpu_time().unwrap_or(Duration::ZERO)
}

/// The processor time of all threads.
pub fn process_clock(rt: &impl CpuClock) -> Duration {
    rt.process_cpu_time().unwrap_or(Duration::ZERO)
}
