//! Lines that are near to good ones.
use super::replays::replayed;
use super::rows::gives;
use std::alloc::Global;
use std::process::Abort;
use std::test::Fail;
use trace_audit::End;

const FRONT: &[u8] = b"pool 1 1 2\nadopt 0 0\n";

/// The trace, whose third line is this one, ends with it.
fn ends(rt: &(impl Abort + AllocGlobal), line: &[u8], trace: &[u8]) {
    let left = replayed(rt.alloc(), trace);
    assert!(rt; left.answer == Ok((End::BadLine(3), None)), "{line:?}");
    let bytes = left.written.bytes.as_slice();
    let report = b"ok\nR17 BadLine 3\nend chunks 0 lent 0 home 0 cached 0 queued 0\n".as_slice();
    assert!(rt; bytes == report, "{line:?}");
}

/// A trace whose third line is this one, and a good one behind it.
fn trace_with(alloc: Global, line: &[u8]) -> Result<Vec<u8>, Fail> {
    let mut trace = Vec::from_slice(alloc, FRONT)?;
    trace.extend_from_slice(line)?;
    trace.extend_from_slice(b"\nadopt 0 0\n")?;
    Ok(trace)
}

/// A bad line ends the trace.
fn is_bad(rt: &(impl Abort + AllocGlobal), line: &[u8]) -> Result<(), Fail> {
    let trace = trace_with(rt.alloc(), line)?;
    ends(rt, line, trace.as_slice());
    Ok(())
}

#[test]
fn a_bad_line_ends_the_trace(rt: HostRuntime) -> Result<(), Fail> {
    let lines: [&[u8]; 26] = [
        b"",
        b" alloc 0 1",
        b"alloc  0 1",
        b"alloc 0 1 ",
        b"alloc 0 01",
        b"alloc 0 +1",
        b"alloc 0 4294967296",
        b"Alloc 0 1",
        b"alloc 0",
        b"free 0 0",
        b"free 0 0.",
        b"free 0 0.00",
        b"free 0 0.0.0",
        b"pool 1 1 2",
        b"adopt 0 0\r",
        b"\xff",
        b"aaaaaaaaaaaaaaaaaaaaaaaaaaaaaaaaaaaaaaaaaaaaaaaaaaaaaaaaaaaaaaaaa",
        b"alloc 0 1                                                        ",
        b"retire 0 0",
        b"send 0",
        b"send 0 0.0",
        b"link 1 ",
        b"link 4294967296",
        b"take",
        b"adopt 0 0 0",
        b"pool2 1 1 2",
    ];
    for line in lines {
        is_bad(&rt, line)?;
    }
    Ok(())
}

#[test]
fn a_number_out_of_range_is_no_bad_line(rt: HostRuntime) {
    gives(
        &rt,
        "pool 1 1 2\nadopt 0 0\nfree 0 4294967295.4294967295\nadopt 0 4294967295\n\
        retire 4294967295\nsend 0 4294967295\nlink 4294967295\nlink 0\ntake 4294967295\n",
        End::Whole,
        "ok\nR07 NotLent\nR14 Held\nR01 NoDesk\nR01 NoDesk\nR11 NoBatch\nR11 NoBatch\nR01 NoDesk\n\
        end chunks 0 lent 0 home 0 cached 0 queued 0\n",
    );
}
