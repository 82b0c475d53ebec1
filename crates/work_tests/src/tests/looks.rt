//! A worker looks into its inbox before it asks the stock.

use super::{BOTH, Ground, Inboxes, ended_over};
use crate::Echo;
use pool_jobs::{Gate, Plan, Workload};
use region_cut::CHUNK;
use std::sync::Wait;
use std::sync::atomic::{AtomicBool, Ordering};
use std::test::Fail;
use std::thread::{self, Threads};
use std::time::Clock;

// How often the producer looks for what the consumer does before it goes on.
const LOOKS: u32 = 10_000_000;

const CHUNKS: usize = 4;

// A chunk has eight slots, and one more buffer is asked for.
const PLAN: Plan = Plan {
    count: 9,
    rounds: 1,
    seed: 511,
    drop_first: false,
};

// Holds worker 0 before its ninth call until worker 1 has come to its eighth: what it freed in the
// seven before is posted.
#[derive(Drop)]
struct AtNinth {
    is_posted: AtomicBool,
}

impl Gate for AtNinth {
    fn before(&self, worker: u32, call: u64) {
        if worker == 1 && call == 8 {
            self.is_posted.store(true, Ordering::SeqCst);
        }
        if worker == 0 && call == 9 {
            for _ in 0..LOOKS {
                if self.is_posted.load(Ordering::SeqCst) {
                    return;
                }
                thread::yield_now();
            }
        }
    }

    fn after(&self, _worker: u32, _call: u64) {}
}

// How many of four chunks are left in the stock.
fn chunks_left<R: AllocGlobal + Threads + Wait + Clock + Sync>(
    rt: &R,
    inboxes: Inboxes,
) -> Result<usize, Fail> {
    let ground = Ground {
        chunks: CHUNKS,
        desks: 2,
        width: 2,
        limit: 0,
        inboxes,
    };
    let gate = AtNinth {
        is_posted: AtomicBool::new(false),
    };
    let mut region = Vec::from_elem(rt.alloc(), 0u8, CHUNKS * CHUNK)?;
    let prodcons = Workload::ProdCons;
    let ended = ended_over::<Echo, AtNinth, R>(rt, &mut region, &gate, ground, prodcons, &PLAN)?;
    Ok(ended.found.parts.len())
}

// The ninth buffer has a slot that came home, and one chunk is drawn. Refuses a worker that claims a chunk
// before it looks.
#[test]
fn one_chunk_is_drawn(rt: HostRuntime) -> Result<(), Fail> {
    for inboxes in BOTH {
        assert_eq!(rt; chunks_left(&rt, inboxes)?, 3);
    }
    Ok(())
}
