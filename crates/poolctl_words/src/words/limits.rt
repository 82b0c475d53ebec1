//! The least and the greatest of the numbers that can be asked for.

/// The fewest workers of a workload.
pub const LEAST_THREADS: u32 = 2;

/// The most chunks of a region.
pub const MOST_CHUNKS: u32 = 1_024;

/// The most bytes in a cache that isn't due.
pub const MOST_LIMIT: u32 = 1_048_576;

/// The last desk of a pool of 64.
pub const LAST_DESK: u32 = 63;

/// The last desk of a pool of 4,096.
pub const LAST_DESK2: u32 = 4_095;
