//! Replays of which one growth is refused.
use super::audited::YES;
use super::checks::times;
use super::replays::{Audited, audited, replayed};
use super::travel::{TRACE, is_report};
use std::process::Abort;
use trace_audit::{End, Fault, ReplayError};

const NO_MEMORY: &[u8] = b"R15 NoMemory\n";

/// Whether the replay has the whole report.
fn is_whole(end: Result<Audited, ReplayError>, bytes: &[u8]) -> bool {
    end == Ok((End::Whole, None)) && is_report(bytes, b"")
}

/// Whether the replay says that a growth was refused: its own, or one of the test's writer.
fn is_refused(end: Result<Audited, ReplayError>, bytes: &[u8]) -> bool {
    match end {
        Ok((End::NoRoom, None)) => bytes == NO_MEMORY,
        Ok((End::Whole, None)) => times(bytes, NO_MEMORY) > 0,
        Ok(_) => false,
        Err(error) => error == ReplayError::Write,
    }
}

/// The replay has the whole report, or says that a growth was refused.
fn is_told(rt: &impl Abort, end: Result<Audited, ReplayError>, bytes: &[u8]) {
    assert!(rt;
        is_whole(end, bytes) || is_refused(end, bytes),
        "{end:?}: {bytes:?}"
    );
}

/// Whichever one growth is refused, of two replays one has the whole report, and the other too, or
/// it says so.
#[test]
fn a_growth_is_refused(rt: HostRuntime) {
    let first = replayed(rt.alloc(), TRACE);
    let second = replayed(rt.alloc(), TRACE);
    let one = first.written.bytes.as_slice();
    let two = second.written.bytes.as_slice();
    assert!(rt; is_whole(first.answer, one) || is_whole(second.answer, two));
    is_told(&rt, first.answer, one);
    is_told(&rt, second.answer, two);
}

/// Whether the audited replay has the whole report.
fn is_whole_audited(answer: Result<Audited, ReplayError>, bytes: &[u8]) -> bool {
    answer == Ok((End::Whole, Some(Ok(())))) && is_report(bytes, YES)
}

/// Whether the replay says that one growth was refused: one of the floor, one of a request or one of the audit; or one
/// of the test's writer.
fn is_refused_audited(answer: Result<Audited, ReplayError>, bytes: &[u8]) -> bool {
    match answer {
        Ok((End::NoRoom, None)) => bytes == NO_MEMORY,
        Ok((End::Whole, Some(Ok(())))) => times(bytes, NO_MEMORY) == 1 && bytes.ends_with(YES),
        Ok((End::Whole, Some(Err(Fault::NoMemory)))) => is_report(bytes, b"audit no memory\n"),
        Ok(_) => false,
        Err(error) => error == ReplayError::Write,
    }
}

/// The audited replay has the whole report, or says that a growth was refused.
fn is_told_audited(rt: &impl Abort, answer: Result<Audited, ReplayError>, bytes: &[u8]) {
    let whole = is_whole_audited(answer, bytes);
    assert!(rt;
        whole || is_refused_audited(answer, bytes),
        "{answer:?}: {bytes:?}"
    );
}

/// Whichever one growth is refused, of two audited replays one has the whole report, and the other too, or it says so.
#[test]
fn an_audited_growth_is_refused(rt: HostRuntime) {
    let first = audited(rt.alloc(), TRACE);
    let second = audited(rt.alloc(), TRACE);
    let one = first.written.bytes.as_slice();
    let two = second.written.bytes.as_slice();
    assert!(rt; is_whole_audited(first.answer, one) || is_whole_audited(second.answer, two));
    is_told_audited(&rt, first.answer, one);
    is_told_audited(&rt, second.answer, two);
}
