//! As many lines as a trace may have.
use super::replays::replay_over;
use crate::memory::{Kept, Pieces};
use std::alloc::Global;
use std::process::Abort;
use std::test::Fail;
use trace_audit::End;

/// A header, and this many requests.
fn links(alloc: Global, count: u32) -> Result<Vec<u8>, Fail> {
    let mut trace = Vec::from_slice(alloc, b"pool 1 0 1\n")?;
    for _ in 0..count {
        trace.extend_from_slice(b"link 9\n")?;
    }
    Ok(trace)
}

/// The answer to each of those requests.
const ANSWER: &[u8; 12] = b"R11 NoBatch\n";

/// Whether the bytes are that answer, again and again.
fn are_answers(bytes: &[u8]) -> bool {
    for line in bytes.chunks(ANSWER.len()) {
        if line != ANSWER.as_slice() {
            return false;
        }
    }
    true
}

/// The trace has this end, and its report is 999,999 answers and then these lines.
fn ends(rt: &(impl Abort + AllocGlobal), trace: &[u8], want: End, tail: &[u8]) {
    let left = replay_over(rt.alloc(), Pieces::new(trace, 65, 0), Kept::all(rt.alloc()));
    assert!(rt; left.answer == Ok((want, None)));
    let bytes = left.written.bytes.as_slice();
    let Some(answers) = bytes.strip_suffix(tail) else {
        panic!(rt; "the last lines are others")
    };
    assert!(rt; answers.len() == 12 * 999_999);
    assert!(rt; are_answers(answers));
}

#[test]
fn a_million_lines(rt: HostRuntime) -> Result<(), Fail> {
    let trace = links(rt.alloc(), 999_999)?;
    let tail = b"end chunks 0 lent 0 home 0 cached 0 queued 0\n";
    ends(&rt, trace.as_slice(), End::Whole, tail);
    Ok(())
}

#[test]
fn a_line_above_a_million(rt: HostRuntime) -> Result<(), Fail> {
    let trace = links(rt.alloc(), 1_000_000)?;
    let tail = b"R17 BadLine 1000001\nend chunks 0 lent 0 home 0 cached 0 queued 0\n";
    ends(&rt, trace.as_slice(), End::BadLine(1_000_001), tail);
    Ok(())
}
