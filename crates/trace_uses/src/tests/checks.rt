//! Comparisons, which tell the row or the turn that failed.
use super::replays::{Audited, Left};
use std::process::Abort;
use trace_audit::ReplayError;

/// The replay of this row has this answer, and these bytes were written.
pub(crate) fn has_left(
    rt: &impl Abort,
    row: &str,
    left: &Left,
    answer: Result<Audited, ReplayError>,
    bytes: &[u8],
) {
    let written = left.written.bytes.as_slice();
    let is_same = left.answer == answer && written == bytes;
    assert!(rt; is_same, "{row}: {:?}: {written:?}", left.answer);
}

/// The same, of a turn.
pub(crate) fn has_left_at(
    rt: &impl Abort,
    turn: usize,
    left: &Left,
    answer: Result<Audited, ReplayError>,
    bytes: &[u8],
) {
    let written = left.written.bytes.as_slice();
    let is_same = left.answer == answer && written == bytes;
    assert!(rt; is_same, "turn {turn}: {:?}: {written:?}", left.answer);
}

/// Nothing was read or written behind this turn.
pub(crate) fn none_behind(rt: &impl Abort, turn: usize, count: u64) {
    assert!(rt; count == turn as u64, "behind turn {turn}");
}

/// How often the line is there.
pub(crate) fn times(bytes: &[u8], line: &[u8]) -> usize {
    let mut count = 0usize;
    for window in bytes.windows(line.len().max(1)) {
        if window == line {
            count = count.saturating_add(1);
        }
    }
    count
}
