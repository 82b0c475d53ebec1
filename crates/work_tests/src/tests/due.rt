//! The limit and the width of a pool are those of its desks.

ghost use Rattle.std.specs.Prelude.{◌≡◌, ◌≤◌};

use super::{BOTH, Ground, Inboxes, ended_over};
use crate::Echo;
use digit_route::Digits;
use pool_jobs::{Gate, NoGate, Plan, Workload};
use region_cut::CHUNK;
use std::sync::Wait;
use std::sync::atomic::{AtomicBool, Ordering};
use std::test::Fail;
use std::thread::{self, Threads};
use std::time::Clock;

// How often a worker looks for what the other does before it goes on.
const LOOKS: u32 = 10_000_000;

// How many buffers of 512 bytes go from a producer to its consumer.
const COUNT: u32 = 12;

// Holds worker 1 before its first call until worker 0 has allocated its last buffer, and worker 0 before
// that one until worker 1 is there. So each has a station of its own, and what the consumer posts stays
// in the inbox.
#[derive(Drop)]
struct OneByOne {
    is_there: AtomicBool,
    is_over: AtomicBool,
}

fn wait_for(flag: &AtomicBool) {
    for _ in 0..LOOKS {
        if flag.load(Ordering::SeqCst) {
            return;
        }
        thread::yield_now();
    }
}

impl Gate for OneByOne {
    fn before(&self, worker: u32, call: u64) {
        if worker == 0 && call == u64::from(COUNT) {
            wait_for(&self.is_there);
        }
        if worker == 1 && call == 1 {
            self.is_there.store(true, Ordering::SeqCst);
            wait_for(&self.is_over);
        }
    }

    fn after(&self, worker: u32, call: u64) {
        if worker == 0 && call == u64::from(COUNT) {
            self.is_over.store(true, Ordering::SeqCst);
        }
    }
}

fn ground(inboxes: Inboxes, width: u32, limit: u64) -> Ground
    requires { limit ≤ 1048576 }
    ensures { (result.chunks ≡ 2) × (result.desks ≡ 2) × (result.limit ≡ limit) }
{
    Ground {
        chunks: 2,
        desks: 2,
        width,
        limit,
        inboxes,
    }
}

// A word of 511 asks for 512 bytes.
const PLAN: Plan = Plan {
    count: COUNT,
    rounds: 1,
    seed: 511,
    drop_first: false,
};

// How many batches the consumer posts, where its cache is due beyond this limit.
fn batches_at<R: AllocGlobal + Threads + Wait + Clock + Sync>(
    rt: &R,
    inboxes: Inboxes,
    limit: u64,
) -> Result<usize, Fail>
    requires { limit ≤ 1048576 }
{
    let gate = OneByOne {
        is_there: AtomicBool::new(false),
        is_over: AtomicBool::new(false),
    };
    let ground = ground(inboxes, 2, limit);
    let mut region = Vec::from_elem(rt.alloc(), 0u8, 2 * CHUNK)?;
    let prodcons = Workload::ProdCons;
    let ended = ended_over::<Echo, OneByOne, R>(rt, &mut region, &gate, ground, prodcons, &PLAN)?;
    Ok(ended.found.batches.len())
}

// A batch has as many of the twelve buffers as together pass the limit, and the last one has what
// is left. Refuses desks of another limit.
#[test]
fn a_batch_passes_the_limit(rt: HostRuntime) -> Result<(), Fail> {
    for inboxes in BOTH {
        for (limit, batches) in [
            (0, 12),
            (511, 12),
            (512, 6),
            (1_024, 4),
            (1_535, 4),
            (1_536, 3),
            (4_096, 2),
            (6_143, 1),
            (1_048_576, 1),
        ] {
            assert_eq!(rt; batches_at(&rt, inboxes, limit)?, batches);
        }
    }
    Ok(())
}

// Whether each desk that is found has digits of this width.
fn have_width<R: AllocGlobal + Threads + Wait + Clock + Sync>(
    rt: &R,
    inboxes: Inboxes,
    width: u32,
) -> Result<bool, Fail> {
    let digits = Digits::new(width).ok_or("a width")?;
    let ground = ground(inboxes, width, 4_096);
    let mut region = Vec::from_elem(rt.alloc(), 0u8, 2 * CHUNK)?;
    let ring = Workload::Ring;
    let ended = ended_over::<Echo, NoGate, R>(rt, &mut region, &NoGate, ground, ring, &PLAN)?;
    let mut count = 0u32;
    for desk in &ended.found.desks {
        if desk.digits() == digits {
            count = count.saturating_add(1);
        }
    }
    Ok(count == 2)
}

#[test]
fn desks_read_numbers_in_digits_of_the_width(rt: HostRuntime) -> Result<(), Fail> {
    for inboxes in BOTH {
        for width in 1..7 {
            assert!(rt; have_width(&rt, inboxes, width)?);
        }
    }
    Ok(())
}
