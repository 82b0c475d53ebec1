//! Replays with an audit at the end.
use super::checks::{has_left, has_left_at, none_behind};
use super::replays::{Audited, audit_over, audited};
use super::travel::{REPORT, TRACE, is_report, replies_to};
use crate::memory::{Kept, Pieces, WriteFault};
use std::process::Abort;
use std::test::Fail;
use trace_audit::{End, ReplayError};

/// The line of an audit that finds nothing wrong.
pub(crate) const YES: &[u8] = b"audit yes\n";

/// The trace is whole, and its audit finds nothing wrong.
pub(crate) const WHOLE: Result<Audited, ReplayError> = Ok((End::Whole, Some(Ok(()))));

/// The audited replay of the trace has this answer, and its report is this text.
fn gives(
    rt: &(impl Abort + AllocGlobal),
    trace: &str,
    want: Result<Audited, ReplayError>,
    report: &str,
) {
    let left = audited(rt.alloc(), trace.as_bytes());
    has_left(rt, trace, &left, want, report.as_bytes());
}

#[test]
fn all_slots_are_there(rt: HostRuntime) {
    gives(
        &rt,
        "pool 1 1 2\nadopt 0 5\nclaim 0 0\nalloc 0 16\nfree 0 0.0\n",
        WHOLE,
        "ok\nchunk 0\nslot 0.0\nhome\ndesk 0 home 256 cached 0 queued 0\n\
        end chunks 1 lent 0 home 256 cached 0 queued 0\naudit yes\n",
    );
    gives(
        &rt,
        "pool 1 2 2\nadopt 0 0\nalloc 0 0\nclaim 0 0\nclaim 0 15\nalloc 0 0\n\
        alloc 0 512\nalloc 0 513\n",
        WHOLE,
        "ok\nR04 NeedChunk\nchunk 0\nchunk 1\nslot 0.0\nslot 1.0\nR03 TooLarge\n\
        desk 0 home 262 cached 0 queued 0\nend chunks 2 lent 2 home 262 cached 0 queued 0\n\
        audit yes\n",
    );
    gives(
        &rt,
        "pool 2 1 2\nadopt 0 0\nadopt 1 1\nclaim 1 15\nalloc 1 512\nfree 1 0.1\n\
        free 0 0.0\nfree 0 0.0\nfree 1 0.0\nsend 0 1\nfree 1 0.0\nfree 1 0.8\nfree 1 3.0\n",
        WHOLE,
        "ok\nok\nchunk 0\nslot 0.0\nR07 NotLent\ncached\nR07 NotLent\nR07 NotLent\n\
        batch 1 1\nR07 NotLent\nR07 NotLent\nR07 NotLent\n\
        desk 1 home 7 cached 0 queued 1\nend chunks 1 lent 0 home 7 cached 0 queued 1\n\
        audit yes\n",
    );
}

#[test]
fn all_slots_are_there_behind_a_travel(rt: HostRuntime) {
    let left = audited(rt.alloc(), TRACE);
    assert!(rt; left.answer == WHOLE);
    assert!(rt; is_report(left.written.bytes.as_slice(), YES));
}

/// One buffer at home, one lent, one in a cache and one in a batch, and the last line is bad.
#[test]
fn an_audit_behind_a_bad_line(rt: HostRuntime) {
    gives(
        &rt,
        "pool 2 1 2\nadopt 0 0\nadopt 1 1\nclaim 1 15\nalloc 1 512\nalloc 1 512\nalloc 1 512\n\
        free 0 0.0\nsend 0 1\nfree 0 0.1\nexpire 0\n",
        Ok((End::BadLine(11), Some(Ok(())))),
        "ok\nok\nchunk 0\nslot 0.0\nslot 0.1\nslot 0.2\ncached\nbatch 1 1\ncached\n\
        R17 BadLine 11\ndesk 0 home 0 cached 1 queued 0\ndesk 1 home 5 cached 0 queued 1\n\
        end chunks 1 lent 1 home 5 cached 1 queued 1\naudit yes\n",
    );
}

#[test]
fn no_audit_behind_a_bad_header(rt: HostRuntime) {
    let headers = [
        "pool 0 1 2\n",
        "pool 65 1 2\n",
        "pool 1 1025 2\n",
        "pool 1 1 7\n",
        "pool 01 1 2\n",
        "",
    ];
    for header in headers {
        gives(&rt, header, Ok((End::BadLine(1), None)), "R17 BadLine 1\n");
    }
}

/// A byte a read: where read `turn` fails, the replies to the whole lines of these bytes are there and no audit.
fn read_fails(rt: &(impl Abort + AllocGlobal), turn: usize, given: &[u8]) {
    let reader = Pieces::new(TRACE, 1, turn as u64);
    let left = audit_over(rt.alloc(), reader, Kept::all(rt.alloc()));
    has_left_at(rt, turn, &left, Err(ReplayError::Read), replies_to(given));
}

#[test]
fn a_read_fails_before_the_audit(rt: HostRuntime) {
    for turn in 1..TRACE.len() + 2 {
        read_fails(&rt, turn, &TRACE[..turn - 1]);
    }
}

/// A byte a write: where write `turn` fails, these bytes were taken.
fn write_fails(rt: &(impl Abort + AllocGlobal), turn: usize, taken: &[u8]) {
    let failure = if turn % 2 == 0 {
        WriteFault::Error
    } else {
        WriteFault::TakesNothing
    };
    let writer = Kept::new(rt.alloc(), 1, turn as u64, failure);
    let left = audit_over(rt.alloc(), Pieces::new(TRACE, 64, 0), writer);
    has_left_at(rt, turn, &left, Err(ReplayError::Write), taken);
    none_behind(rt, turn, left.written.writes);
}

/// `turn - 1` bytes were taken, also within the line of the audit.
#[test]
fn a_write_fails_up_to_the_audit(rt: HostRuntime) -> Result<(), Fail> {
    let mut report = Vec::from_slice(rt.alloc(), REPORT)?;
    report.extend_from_slice(YES)?;
    let whole = report.as_slice();
    for turn in 1..whole.len() + 1 {
        write_fails(&rt, turn, &whole[..turn - 1]);
    }
    Ok(())
}
