//! Whole traces and short ones.
use super::checks::has_left;
use super::replays::replayed;
use std::alloc::Global;
use std::process::Abort;
use std::test::Fail;
use trace_audit::End;

/// The replay of the trace has this end, and its report is this text.
pub(crate) fn gives(rt: &(impl Abort + AllocGlobal), trace: &str, want: End, report: &str) {
    let left = replayed(rt.alloc(), trace.as_bytes());
    has_left(rt, trace, &left, Ok((want, None)), report.as_bytes());
}

#[test]
fn one_buffer_comes_home(rt: HostRuntime) {
    gives(
        &rt,
        "pool 1 1 2\nadopt 0 5\nclaim 0 0\nalloc 0 16\nfree 0 0.0\n",
        End::Whole,
        "ok\nchunk 0\nslot 0.0\nhome\ndesk 0 home 256 cached 0 queued 0\n\
        end chunks 1 lent 0 home 256 cached 0 queued 0\n",
    );
}

#[test]
fn a_header_alone(rt: HostRuntime) {
    gives(
        &rt,
        "pool 4 2 3\n",
        End::Whole,
        "end chunks 0 lent 0 home 0 cached 0 queued 0\n",
    );
}

#[test]
fn least_and_greatest_class(rt: HostRuntime) {
    gives(
        &rt,
        "pool 1 2 2\nadopt 0 0\nalloc 0 0\nclaim 0 0\nclaim 0 15\nalloc 0 0\nalloc 0 512\nalloc 0 513\n",
        End::Whole,
        "ok\nR04 NeedChunk\nchunk 0\nchunk 1\nslot 0.0\nslot 1.0\nR03 TooLarge\n\
        desk 0 home 262 cached 0 queued 0\nend chunks 2 lent 2 home 262 cached 0 queued 0\n",
    );
}

/// A chunk of 85 slots of 48 bytes is asked for 86.
fn trace_of_86(alloc: Global) -> Result<String, Fail> {
    let mut trace = String::from_str(alloc, "pool 1 1 2\nadopt 0 0\nclaim 0 2\n")?;
    for _ in 0..86u32 {
        trace.push_str("alloc 0 48\n")?;
    }
    Ok(trace)
}

fn report_of_85(alloc: Global) -> Result<String, Fail> {
    let mut report = String::from_str(alloc, "ok\nchunk 0\n")?;
    for index in 0..85u32 {
        writeln!(report, "slot 0.{index}")?;
    }
    report.push_str("R04 NeedChunk\nend chunks 1 lent 85 home 0 cached 0 queued 0\n")?;
    Ok(report)
}

/// 85 slots of 48 bytes are 4,080 bytes; the last 16 bytes of the chunk are never handed out.
#[test]
fn the_rest_of_a_chunk_is_never_lent(rt: HostRuntime) -> Result<(), Fail> {
    let trace = trace_of_86(rt.alloc())?;
    let report = report_of_85(rt.alloc())?;
    gives(&rt, trace.as_str(), End::Whole, report.as_str());
    Ok(())
}

#[test]
fn claims_are_refused(rt: HostRuntime) {
    gives(
        &rt,
        "pool 1 1 2\nadopt 0 0\nclaim 0 15\nclaim 0 15\nclaim 0 14\nclaim 0 16\nclaim 1 0\n",
        End::Whole,
        "ok\nchunk 0\nR05 NotNeeded\nR06 NoChunk\nR16 BadClass\nR01 NoDesk\n\
        desk 0 home 8 cached 0 queued 0\nend chunks 1 lent 0 home 8 cached 0 queued 0\n",
    );
}

/// Eight buffers of 512 bytes are 4,096 bytes, the limit; the ninth makes the cache due.
#[test]
fn due_only_above_the_limit(rt: HostRuntime) {
    gives(
        &rt,
        "pool 2 2 2\nadopt 0 0\nadopt 1 1\nclaim 1 15\nalloc 1 512\nalloc 1 512\nalloc 1 512\n\
        alloc 1 512\nalloc 1 512\nalloc 1 512\nalloc 1 512\nalloc 1 512\nclaim 1 15\nalloc 1 512\n\
        free 0 0.0\nfree 0 0.1\nfree 0 0.2\nfree 0 0.3\nfree 0 0.4\nfree 0 0.5\nfree 0 0.6\n\
        free 0 0.7\nfree 0 1.0\n",
        End::Whole,
        "ok\nok\nchunk 0\nslot 0.0\nslot 0.1\nslot 0.2\nslot 0.3\nslot 0.4\nslot 0.5\nslot 0.6\n\
        slot 0.7\nchunk 1\nslot 1.0\ncached\ncached\ncached\ncached\ncached\ncached\ncached\ncached\n\
        due\ndesk 0 home 0 cached 9 queued 0\ndesk 1 home 7 cached 0 queued 0\n\
        end chunks 2 lent 0 home 7 cached 9 queued 0\n",
    );
}

#[test]
fn the_input_ends_within_a_line(rt: HostRuntime) {
    gives(
        &rt,
        "pool 1 1 2\nadopt 0 0\nclaim 0 0",
        End::BadLine(3),
        "ok\nR17 BadLine 3\nend chunks 0 lent 0 home 0 cached 0 queued 0\n",
    );
}

#[test]
fn a_number_may_be_out_of_range_but_not_too_long(rt: HostRuntime) {
    gives(
        &rt,
        "pool 1 1 2\nalloc 0 4294967295\nalloc 0 99999999999\nadopt 0 0\n",
        End::BadLine(3),
        "R02 Idle\nR17 BadLine 3\nend chunks 0 lent 0 home 0 cached 0 queued 0\n",
    );
}

#[test]
fn bad_headers(rt: HostRuntime) {
    let headers = [
        "pool 0 1 2\n",
        "pool 65 1 2\n",
        "pool 1 1025 2\n",
        "pool 1 1 7\n",
        "pool 01 1 2\n",
        "",
        "pool 1 1 0\n",
        "pool 1 1\n",
        "pool 1 1 2 3\n",
        "pool2 4097 1 2\n",
        "pool2 0 1 2\n",
        "pool2 1 1025 2\n",
        "pool2 1 1 7\n",
        "pool3 1 1 2\n",
        "adopt 0 0\n",
        "pool 1 1 2",
    ];
    for header in headers {
        gives(&rt, header, End::BadLine(1), "R17 BadLine 1\n");
    }
}
