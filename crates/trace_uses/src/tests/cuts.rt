//! Traces that are cut off.
use super::checks::has_left_at;
use super::replays::replayed;
use super::travel::{TRACE, replies_to, whole_lines};
use std::process::Abort;
use std::test::Fail;
use trace_audit::End;

/// Cut off within its header, the trace has one bad line.
fn ends_in_the_header(rt: &(impl Abort + AllocGlobal), trace: &[u8]) {
    let left = replayed(rt.alloc(), trace);
    let want = Ok((End::BadLine(1), None));
    has_left_at(rt, trace.len(), &left, want, b"R17 BadLine 1\n");
}

#[test]
fn a_header_is_cut_off(rt: HostRuntime) {
    for cut in 0..b"pool 64 8 2\n".len() {
        ends_in_the_header(&rt, &TRACE[..cut]);
    }
}

/// The closing lines of a trace that is cut off behind a line: before them are the replies.
fn closing_of(rt: &(impl Abort + AllocGlobal), trace: &[u8]) -> Result<Vec<u8>, Fail> {
    let cut = trace.len();
    let left = replayed(rt.alloc(), trace);
    assert!(rt; left.answer == Ok((End::Whole, None)), "behind byte {cut}");
    match left
        .written
        .bytes
        .as_slice()
        .strip_prefix(replies_to(trace))
    {
        Some(closing) => Ok(Vec::from_slice(rt.alloc(), closing)?),
        None => panic!(rt; "behind byte {cut}"),
    }
}

/// Whether the bytes are these three texts, one behind the other.
fn is_joined(bytes: &[u8], front: &[u8], line: &[u8], closing: &[u8]) -> bool {
    match bytes.strip_prefix(front) {
        Some(rest) => match rest.strip_prefix(line) {
            Some(rest) => rest == closing,
            None => false,
        },
        None => false,
    }
}

/// Cut off within a line, the trace has the replies, this bad line, and these closing lines.
fn has_a_bad_line(
    rt: &(impl Abort + AllocGlobal),
    trace: &[u8],
    bad: u32,
    line: &[u8],
    closing: &[u8],
) {
    let cut = trace.len();
    let left = replayed(rt.alloc(), trace);
    let bytes = left.written.bytes.as_slice();
    let is_whole = is_joined(bytes, replies_to(trace), line, closing);
    let is_bad = left.answer == Ok((End::BadLine(bad), None));
    assert!(rt; is_whole && is_bad, "behind byte {cut}: {bytes:?}");
}

/// The same, of the line behind those that are whole.
fn ends_in_a_line(
    rt: &(impl Abort + AllocGlobal),
    trace: &[u8],
    closing: &[u8],
) -> Result<(), Fail> {
    let bad = whole_lines(trace).saturating_add(1);
    let line = format!(in rt.alloc(); "R17 BadLine {bad}\n")?;
    has_a_bad_line(rt, trace, bad, line.as_bytes(), closing);
    Ok(())
}

/// Cut off behind each byte: within a line that line is bad, and else the report is that of the
/// lines which are whole.
#[test]
fn a_trace_is_cut_off(rt: HostRuntime) -> Result<(), Fail> {
    let mut closing = Vec::new(rt.alloc());
    for cut in b"pool 64 8 2\n".len()..TRACE.len() + 1 {
        let trace = &TRACE[..cut];
        if trace.ends_with(b"\n") {
            closing = closing_of(&rt, trace)?;
        } else {
            ends_in_a_line(&rt, trace, closing.as_slice())?;
        }
    }
    assert!(rt;
        closing.as_slice()
            == b"desk 7 home 8 cached 0 queued 0\ndesk 11 home 8 cached 0 queued 0\n\
        desk 27 home 8 cached 0 queued 0\nend chunks 3 lent 0 home 24 cached 0 queued 0\n"
                .as_slice()
    );
    Ok(())
}
