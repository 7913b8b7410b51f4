//! How many threads work at once.
ghost use Rattle.std.specs.Prelude.{◌≤◌};
ghost use Rattle.lms_batch.specs.Jobs.{most_workers};

/// Each number of threads, in the order in which they are printed.
pub const WORKERS: [Workers; 3] = [Workers::One, Workers::Two, Workers::Four];

/// By how many threads places are claimed, or jobs signed.
#[derive(Clone, Copy)]
pub enum Workers {
    One,
    Two,
    Four,
}

impl Workers {
    pub fn count(self) -> usize
        ensures { (1 ≤ result) × (result ≤ most_workers) }
    {
        match self {
            Workers::One => 1,
            Workers::Two => 2,
            Workers::Four => 4,
        }
    }
}
