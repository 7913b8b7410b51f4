//! The time in which workers sign.
use bench_base::{clock, thread_clock};
use lms_batch::Gate;
use std::sync::atomic::{AtomicU64, Ordering};
use std::time::{Clock, CpuClock, Duration};

/// A gate that reads the clock, and the processor time of the worker's thread, before and after
/// each signature. It keeps what it read before the first one and after the last.
#[derive(Drop)]
pub struct Stopwatch<'r, R> {
    rt: &'r R,
    began: AtomicU64,
    ended: AtomicU64,
    began_in_thread: AtomicU64,
    ended_in_thread: AtomicU64,
}

impl<'r, R: Clock + CpuClock> Stopwatch<'r, R> {
    pub fn new(rt: &'r R) -> Self {
        Stopwatch {
            rt,
            began: AtomicU64::new(u64::MAX),
            ended: AtomicU64::new(0),
            began_in_thread: AtomicU64::new(u64::MAX),
            ended_in_thread: AtomicU64::new(0),
        }
    }

    /// The time on the clock from the beginning of the first signature to the end of the last.
    pub fn time(&self) -> Duration {
        between(&self.began, &self.ended)
    }

    /// The processor time between the two, where one worker made all.
    pub fn processor_time(&self) -> Duration {
        between(&self.began_in_thread, &self.ended_in_thread)
    }
}

impl<'r, R: Clock + CpuClock + Sync> Gate for Stopwatch<'r, R> {
    fn before_sign(&self, _place: u64) {
        self.began
            .fetch_min(nanoseconds(clock(self.rt)), Ordering::SeqCst);
        self.began_in_thread
            .fetch_min(nanoseconds(thread_clock(self.rt)), Ordering::SeqCst);
    }

    fn after_sign(&self, _place: u64) {
        self.ended
            .fetch_max(nanoseconds(clock(self.rt)), Ordering::SeqCst);
        self.ended_in_thread
            .fetch_max(nanoseconds(thread_clock(self.rt)), Ordering::SeqCst);
    }
}

fn nanoseconds(time: Duration) -> u64 {
    u64::try_from(time.as_nanos()).unwrap_or(u64::MAX)
}

fn between(began: &AtomicU64, ended: &AtomicU64) -> Duration {
    let ended = ended.load(Ordering::SeqCst);
    Duration::from_nanos(ended.saturating_sub(began.load(Ordering::SeqCst)))
}
