//! What the words of the command line may ask for.

/// The most threads that decode: a pool has 64 allocators, and the program has a reader and a counter besides.
pub const MOST_DECODERS: u32 = 62;

/// The most chunks of a pool's region.
pub const MOST_CHUNKS: u32 = 1_024;

/// What the words ask for.
#[derive(Debug, Drop)]
pub struct Asked {
    /// The file with the capture; standard input where there is none.
    pub file: Option<String>,
    /// How many flows are printed.
    pub top: u32,
    /// How many threads decode: 1 to 62.
    pub decoders: u32,
    /// How many chunks of 4,096 bytes the pool has: 32 to 1,024.
    pub chunks: u32,
    /// Whether a buffer may have 1,024 bytes, and not 512.
    pub is_wide: bool,
    /// Whether the answer is JSON, and no table.
    pub is_json: bool,
    /// Whether the audit of the pool is printed too.
    pub has_audit: bool,
}
