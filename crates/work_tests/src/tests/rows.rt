//! Rows go on to the next worker.

ghost use Rattle.std.specs.Prelude.{◌≤◌};

use super::{BOTH, Ground, Inboxes, ended_over};
use crate::Echo;
use pool_jobs::{Gate, Plan, Workload};
use region_cut::CHUNK;
use std::sync::Wait;
use std::sync::atomic::{AtomicBool, AtomicU64, Ordering};
use std::test::Fail;
use std::thread::{self, Threads};
use std::time::Clock;

// How often a worker looks for what the others do before it goes on.
const LOOKS: u32 = 10_000_000;

// Who has the row makes more calls than this in the last round, since it frees the row's buffers; the
// others make one each.
const FEW: u64 = 8;

// Lets worker 0 fill its row before the others begin, who then find the stock empty and so have empty
// rows. It goes on when both have stations. Counts the calls of each worker in the last round.
#[derive(Drop)]
struct OneRow {
    is_filled: AtomicBool,
    others: AtomicU64,
    first: AtomicU64,
    second: AtomicU64,
    third: AtomicU64,
}

impl OneRow {
    fn new() -> OneRow {
        OneRow {
            is_filled: AtomicBool::new(false),
            others: AtomicU64::new(0),
            first: AtomicU64::new(0),
            second: AtomicU64::new(0),
            third: AtomicU64::new(0),
        }
    }

    // The calls of a worker.
    fn calls(&self, worker: u32) -> &AtomicU64 {
        match worker {
            0 => &self.first,
            1 => &self.second,
            _ => &self.third,
        }
    }

    // Whether the worker made as many calls in the last round as one that frees a row.
    fn had_the_row(&self, worker: u32) -> bool {
        self.calls(worker).load(Ordering::SeqCst) > FEW
    }

    // Whether worker 0 has filled its row, for the others, or both others have come, for worker 0.
    fn may_go_on(&self, worker: u32) -> bool {
        if worker == 0 {
            self.others.load(Ordering::SeqCst) >= 2
        } else {
            self.is_filled.load(Ordering::SeqCst)
        }
    }
}

impl Gate for OneRow {
    fn before(&self, worker: u32, call: u64) {
        if worker != 0 && call == 1 {
            let _come = self.others.fetch_add(1, Ordering::SeqCst);
        }
        if worker == 0 && call <= 16 {
            return;
        }
        for _ in 0..LOOKS {
            if self.may_go_on(worker) {
                return;
            }
            thread::yield_now();
        }
    }

    fn after(&self, worker: u32, call: u64) {
        self.calls(worker).store(call, Ordering::SeqCst);
        if worker == 0 && call == 16 {
            self.is_filled.store(true, Ordering::SeqCst);
        }
    }
}

// Which of three workers had the full row in the last of so many rounds.
fn last_holders<R: AllocGlobal + Threads + Wait + Clock + Sync>(
    rt: &R,
    inboxes: Inboxes,
    rounds: u32,
) -> Result<[bool; 3], Fail>
    requires { (1 ≤ rounds) × (rounds ≤ 1000) }
{
    let ground = Ground {
        chunks: 1,
        desks: 3,
        width: 2,
        limit: 4_096,
        inboxes,
    };
    let plan = Plan {
        count: 1,
        rounds,
        seed: 0,
        drop_first: false,
    };
    let gate = OneRow::new();
    let mut region = Vec::from_elem(rt.alloc(), 0u8, CHUNK)?;
    let replace = Workload::Replace;
    let ended = ended_over::<Echo, OneRow, R>(rt, &mut region, &gate, ground, replace, &plan)?;
    drop(ended);
    Ok([
        gate.had_the_row(0),
        gate.had_the_row(1),
        gate.had_the_row(2),
    ])
}

// From worker 0 the row goes to 1, to 2 and to 0 again. Refuses rows that stay with their workers.
#[test]
fn the_row_of_a_worker_goes_to_the_next(rt: HostRuntime) -> Result<(), Fail> {
    for inboxes in BOTH {
        assert!(rt; last_holders(&rt, inboxes, 2)? == [false, true, false]);
        assert!(rt; last_holders(&rt, inboxes, 3)? == [false, false, true]);
        assert!(rt; last_holders(&rt, inboxes, 4)? == [true, false, false]);
    }
    Ok(())
}
