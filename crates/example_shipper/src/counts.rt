//! What the stages count.

use std::fmt;
use std::time::Duration;

/// Lines and bytes.
#[derive(Clone, Copy, Debug, Default, PartialEq, Eq)]
pub struct Counts {
    pub lines: u64,
    pub bytes: u64,
}

impl Counts {
    pub const NONE: Counts = Counts { lines: 0, bytes: 0 };

    /// One piece more.
    pub fn add(&mut self, bytes: usize, ends_line: bool) {
        self.bytes = self.bytes.saturating_add(bytes as u64);
        self.lines = self.lines.saturating_add(u64::from(ends_line));
    }

    /// So many a second.
    pub fn over(self, time: Duration) -> Counts {
        let milliseconds = u64::try_from(time.as_millis()).unwrap_or(u64::MAX).max(1);
        Counts {
            lines: self.lines.saturating_mul(1_000) / milliseconds,
            bytes: self.bytes.saturating_mul(1_000) / milliseconds,
        }
    }
}

impl fmt::Display for Counts {
    fn fmt<W: fmt::Write>(&self, f: &mut fmt::Formatter<W>) -> fmt::Result {
        let Counts { lines, bytes } = *self;
        write!(f, "{lines} lines, {bytes} bytes")
    }
}
