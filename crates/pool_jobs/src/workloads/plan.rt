//! What a workload is to do.
ghost use Rattle.std.specs.Prelude.{◌≤◌};

/// How many threads a workload or a run has at most: a run begins no more tasks.
pub const MOST_THREADS: u32 = 64;

/// How many buffers a worker allocates at most, or replaces in a round.
pub const MOST_BUFFERS: u32 = 100_000;

/// How many rounds a workload has at most.
pub const MOST_ROUNDS: u32 = 1_000;

/// What a workload is to do.
#[derive(Clone, Copy, Debug, PartialEq, Eq)]
pub struct Plan {
    /// How many buffers each worker allocates, or replaces in each round: 1 to 100,000.
    pub count: u32,
    /// How many rounds `replace` has: 1 to 1,000. No other workload has rounds.
    pub rounds: u32,
    /// From which the sizes are drawn.
    pub seed: u32,
    /// Whether worker 0 drops the first buffer that it allocates.
    pub drop_first: bool,
    pub ghost count_in_range: { (1 ≤ count) × (count ≤ 100000) },
    pub ghost rounds_in_range: { (1 ≤ rounds) × (rounds ≤ 1000) },
}
