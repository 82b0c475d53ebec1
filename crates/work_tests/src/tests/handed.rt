//! Workloads hand over what they allocate.

use super::{BOTH, Ground, Inboxes, ended_over};
use pool_jobs::{Gate, Plan, Workload};
use rand_pcg::Pcg32;
use region_cut::CHUNK;
use std::sync::Wait;
use std::sync::atomic::{AtomicBool, Ordering};
use std::test::Fail;
use std::thread::{self, Threads};
use std::time::Clock;

// How often a worker looks for what the other does before it goes on.
const LOOKS: u32 = 10_000_000;

// Holds worker 0 before its tenth call until the first of worker 1 is answered, so that each has a
// station of its own. Nine calls are three buffers at least, which a producer has handed over by then.
#[derive(Drop)]
struct BothAtWork {
    is_answered: AtomicBool,
}

impl Gate for BothAtWork {
    fn before(&self, worker: u32, call: u64) {
        if worker == 0 && call == 10 {
            for _ in 0..LOOKS {
                if self.is_answered.load(Ordering::SeqCst) {
                    return;
                }
                thread::yield_now();
            }
        }
    }

    fn after(&self, worker: u32, call: u64) {
        if worker == 1 && call == 1 {
            self.is_answered.store(true, Ordering::SeqCst);
        }
    }
}

// How many batches two workers leave in their inboxes, whose caches are never due before the end.
fn batches_left<R: AllocGlobal + Threads + Wait + Clock + Sync>(
    rt: &R,
    inboxes: Inboxes,
    workload: Workload,
) -> Result<usize, Fail> {
    let ground = Ground {
        chunks: 64,
        desks: 2,
        width: 2,
        limit: 1_048_576,
        inboxes,
    };
    let plan = Plan {
        count: 20,
        rounds: 1,
        seed: 1,
        drop_first: false,
    };
    let gate = BothAtWork {
        is_answered: AtomicBool::new(false),
    };
    let mut region = Vec::from_elem(rt.alloc(), 0u8, ground.chunks * CHUNK)?;
    let ended = ended_over::<Pcg32, BothAtWork, R>(
        rt,
        &mut region,
        &gate,
        ground,
        workload,
        &plan,
    )?;
    Ok(ended.found.batches.len())
}

// Who frees what another allocated posts it at the end: after the last buffer that the other asks for,
// so that it stays in the inbox. The consumer does, and each of two neighbours; a worker with a row of
// its own has nothing to post.
#[test]
fn what_is_handed_over_is_posted(rt: HostRuntime) -> Result<(), Fail> {
    for inboxes in BOTH {
        assert_eq!(rt; batches_left(&rt, inboxes, Workload::ProdCons)?, 1);
        assert_eq!(rt; batches_left(&rt, inboxes, Workload::Ring)?, 2);
        assert_eq!(rt; batches_left(&rt, inboxes, Workload::Replace)?, 0);
    }
    Ok(())
}
