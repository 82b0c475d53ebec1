//! Freed buffers come home by posts, which are counted.

use crate::tests::opening_over;
use crate::{Fixed, Hold, Watched, work_counting, work_counting_linked};
use pool_jobs::{BufferCounts, Plan, Tally, Workload};
use region_cut::CHUNK;
use std::sync::Wait;
use std::test::Fail;
use std::thread::Threads;
use std::time::Clock;

// Which inboxes count their posts.
#[derive(Clone, Copy)]
enum Inner {
    Queue,
    Link,
}

const PLAN: Plan = Plan {
    count: 16,
    rounds: 1,
    seed: 0,
    drop_first: false,
};

// The producer waits before its ninth call until all eight slots are on their way home. Its allocator asks
// the desk for a buffer once in each call, and claims its chunk in the first one: so the eight calls before
// gave the eight slots.
const HOLD: Hold = Hold { call: 9, posts: 8 };

// A producer of 16 buffers has a chunk of eight slots, and its consumer posts each buffer that it
// frees.
fn watched_over<'r, R: AllocGlobal + Threads + Wait + Clock + Sync>(
    rt: &R,
    region: &'r mut Vec<u8>,
    inner: Inner,
) -> Result<Watched<'r>, Fail> {
    let alloc = rt.alloc();
    let prodcons = Workload::ProdCons;
    match inner {
        Inner::Queue => {
            let opening = opening_over(alloc, region, 2, 0)?;
            Ok(work_counting::<Fixed, R>(rt, alloc, opening, HOLD, prodcons, &PLAN)?)
        }
        Inner::Link => {
            let opening = opening_over(alloc, region, 2, 0)?;
            Ok(work_counting_linked::<Fixed, R>(rt, alloc, opening, HOLD, prodcons, &PLAN)?)
        }
    }
}

// What came of it.
#[derive(Drop)]
struct Outcome {
    tally: Tally,
    posts: u64,
    calls: u64,
    calls_held: u64,
    gave_up: bool,
}

fn outcome_of<R: AllocGlobal + Threads + Wait + Clock + Sync>(
    rt: &R,
    inner: Inner,
) -> Result<Outcome, Fail> {
    let mut region = Vec::from_elem(rt.alloc(), 0u8, CHUNK)?;
    let watched = watched_over(rt, &mut region, inner)?;
    Ok(Outcome {
        tally: watched.report.tally,
        posts: watched.posts,
        calls: watched.calls,
        calls_held: watched.calls_held,
        gave_up: watched.gave_up,
    })
}

#[test]
fn eight_slots_serve_sixteen_buffers(rt: HostRuntime) -> Result<(), Fail> {
    let wanted = BufferCounts {
        allocated: 16,
        freed: 16,
        starved: 0,
        lost: 0,
    };
    for inner in [Inner::Queue, Inner::Link] {
        let outcome = outcome_of(&rt, inner)?;
        assert!(rt; !outcome.gave_up);
        assert_eq!(rt; outcome.posts, 16);
        assert!(rt; outcome.calls_held == 8 && outcome.calls == 16);
        assert_eq!(rt; outcome.tally.counts, wanted);
        assert!(rt; outcome.tally.audit.is_ok());
    }
    Ok(())
}
