//! What the words of the command line may ask for.

use syslog_lines::Severity;

/// What is to be read, kept and written.
#[derive(Drop)]
pub struct Asked {
    /// The files to read, in order. A dash stands for standard input, and so does an empty list.
    pub files: Vec<String>,
    /// What a line has to match to be kept.
    pub pattern: Option<String>,
    /// The least urgent severity that is kept.
    pub level: Option<Severity>,
    /// The file to append to. Where there is none, lines go to standard output.
    pub output: Option<String>,
    /// Beyond how many bytes that file doesn't grow.
    pub rotate: Option<u64>,
    /// How many threads parse: 1 to 16.
    pub parsers: usize,
    /// How many chunks of 4,096 bytes hold lines on their way: 64 to 1,024.
    pub chunks: usize,
    /// Whether to say on standard error how far it is.
    pub progress: bool,
}
