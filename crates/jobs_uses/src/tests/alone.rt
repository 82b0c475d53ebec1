//! A worker alone.
use crate::tests::opening_over;
use crate::work_alone;
use pool_jobs::{BufferCounts, Tally};
use region_cut::CHUNK;
use std::sync::Wait;
use std::test::Fail;

// What a worker counts that asks ten times for 512 bytes, over a region of so many bytes.
fn told<R: AllocGlobal + Wait>(rt: &R, bytes: usize) -> Result<Tally, Fail> {
    let alloc = rt.alloc();
    let mut region = Vec::from_elem(alloc, 0u8, bytes)?;
    let opening = opening_over(alloc, &mut region, 1, 4_096)?;
    let report = work_alone(rt, alloc, opening, 10, 512)?;
    Ok(report.tally)
}

#[test]
fn a_worker_alone(rt: HostRuntime) -> Result<(), Fail> {
    let tally = told(&rt, CHUNK)?;
    let wanted = BufferCounts {
        allocated: 10,
        freed: 10,
        starved: 0,
        lost: 0,
    };
    assert_eq!(rt; tally.counts, wanted);
    assert!(rt; tally.audit.is_ok());
    Ok(())
}

#[test]
fn no_chunk(rt: HostRuntime) -> Result<(), Fail> {
    let tally = told(&rt, CHUNK - 1)?;
    assert_eq!(rt; tally.counts.starved, 10);
    assert_eq!(rt; tally.counts.allocated, 0);
    assert!(rt; tally.audit.is_ok());
    Ok(())
}
