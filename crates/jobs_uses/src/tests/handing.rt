//! Parcels that another thread frees come home.
use crate::tests::opening_over;
use crate::{Handed, hand_parcels};
use pool_jobs::BufferCounts;
use region_cut::CHUNK;
use std::sync::Wait;
use std::test::Fail;
use std::thread::Threads;

// Chunks for the buffers of all parcels, were none to come home before the end.
const CHUNKS: usize = 128;

const PARCELS: u8 = 10;

// What came of it.
#[derive(Drop)]
struct Outcome {
    counts: BufferCounts,
    marks: u64,
    is_whole: bool,
}

fn outcome_of<R: AllocGlobal + Threads + Wait + Sync>(rt: &R) -> Result<Outcome, Fail> {
    let alloc = rt.alloc();
    let mut region = Vec::from_elem(alloc, 0u8, CHUNKS * CHUNK)?;
    let opening = opening_over(alloc, &mut region, 2, 1_024)?;
    let Handed { report, marks } = hand_parcels(rt, alloc, opening, PARCELS)?;
    Ok(Outcome {
        counts: report.tally.counts,
        marks,
        is_whole: report.tally.audit.is_ok(),
    })
}

// The second thread read the numbers from 0 to 9, which the first one wrote.
#[test]
fn parcels_cross_and_come_home(rt: HostRuntime) -> Result<(), Fail> {
    let outcome = outcome_of(&rt)?;
    let wanted = BufferCounts {
        allocated: 640,
        freed: 640,
        starved: 0,
        lost: 0,
    };
    assert_eq!(rt; outcome.counts, wanted);
    assert_eq!(rt; outcome.marks, 45);
    assert!(rt; outcome.is_whole);
    Ok(())
}
