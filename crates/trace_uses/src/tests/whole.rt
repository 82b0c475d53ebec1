//! The audit of a floor that has as many slots as a region may have.
use super::audited::WHOLE;
use super::checks::has_left;
use super::replays::audited;
use std::alloc::{AllocError, Global};
use std::process::Abort;
use std::test::Fail;

/// How many desks and chunks there are. Each chunk is for the class with the most slots, 256.
const CHUNKS: u16 = 1024;

/// Each desk draws a chunk, and lends its first slot.
fn requests(alloc: Global, desk: u16) -> Result<String, AllocError> {
    format!(in alloc; "adopt {desk} 0\nclaim {desk} 0\nalloc {desk} 16\n")
}

fn answers(alloc: Global, desk: u16) -> Result<String, AllocError> {
    format!(in alloc; "ok\nchunk {desk}\nslot {desk}.0\n")
}

fn closing(alloc: Global, desk: u16) -> Result<String, AllocError> {
    format!(in alloc; "desk {desk} home 255 cached 0 queued 0\n")
}

fn trace(alloc: Global) -> Result<Vec<u8>, Fail> {
    let mut trace = Vec::from_slice(alloc, b"pool2 1024 1024 2\n")?;
    for desk in 0..CHUNKS {
        trace.extend_from_slice(requests(alloc, desk)?.as_bytes())?;
    }
    Ok(trace)
}

/// 262,144 slots, of which 1,024 are lent.
fn report(alloc: Global) -> Result<Vec<u8>, Fail> {
    let mut report = Vec::new(alloc);
    for desk in 0..CHUNKS {
        report.extend_from_slice(answers(alloc, desk)?.as_bytes())?;
    }
    for desk in 0..CHUNKS {
        report.extend_from_slice(closing(alloc, desk)?.as_bytes())?;
    }
    report.extend_from_slice(b"end chunks 1024 lent 1024 home 261120 cached 0 queued 0\n")?;
    report.extend_from_slice(b"audit yes\n")?;
    Ok(report)
}

#[test]
fn a_floor_of_a_whole_region(rt: HostRuntime) -> Result<(), Fail> {
    let trace = trace(rt.alloc())?;
    let report = report(rt.alloc())?;
    let left = audited(rt.alloc(), &trace);
    has_left(&rt, "1,024 chunks", &left, WHOLE, &report);
    Ok(())
}
