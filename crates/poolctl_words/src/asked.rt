//! What the words of the command line may ask for.

use digit_route::Digits;
use pool_jobs::Workload;
use region_cut::Profile;

/// Two desks of a pool: one that has a buffer, and its owner.
#[derive(Clone, Copy, Debug, PartialEq, Eq, Drop)]
pub struct Route {
    /// How the desks' numbers are read.
    pub digits: Digits,
    /// The number of the desk that has the buffer.
    pub from: u16,
    /// The number of the desk that owns it.
    pub owner: u16,
}

/// A workload, and what it is run over.
#[derive(Clone, Copy, Debug, PartialEq, Eq, Drop)]
pub struct Work {
    /// Which one.
    pub workload: Workload,
    /// How many workers there are, each in a thread of its own with a desk of its own: 2 to 64.
    pub threads: u32,
    /// How many buffers a worker allocates, or replaces in a round: 1 to 100,000.
    pub count: u32,
    /// How many rounds there are: 1 to 1,000. Only `replace` has rounds.
    pub rounds: u32,
    /// How many chunks the region has: 0 to 1,024.
    pub chunks: u32,
    /// How the desks' numbers are read.
    pub digits: Digits,
    /// From how many bytes in a desk's cache on it posts them: 0 to 1,048,576.
    pub limit: u32,
    /// What the sizes are drawn from.
    pub seed: u32,
    /// Whether the first worker drops its first buffer.
    pub drop_first: bool,
}

/// What the words ask for.
#[derive(Clone, Copy, Debug, PartialEq, Eq, Drop)]
pub enum Asked {
    /// The table of the size classes that a profile uses.
    Classes(Profile),
    /// How two numbers read in digits.
    Route(Route),
    /// The report of a trace.
    Replay,
    /// The report of a trace, with an audit behind it.
    AuditedReplay,
    /// What a workload counted, and the audit of its pool.
    Work(Work),
}
