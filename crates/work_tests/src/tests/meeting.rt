//! Workers run at the same time, and hold no lock while the gate holds them.

use super::{BOTH, Ground, tally_of};
use pool_jobs::{Gate, Plan, Workload};
use std::sync::atomic::{AtomicBool, Ordering};
use std::test::Fail;
use std::thread;

// How often a worker looks for what the other does before it gives up.
const LOOKS: u32 = 10_000_000;

// Holds worker 0 before its first call until the second of worker 1 is answered, and worker 1 before
// its first until worker 0 has come to its own.
#[derive(Drop)]
struct Meeting {
    is_there: AtomicBool,
    is_answered: AtomicBool,
    gave_up: AtomicBool,
}

impl Meeting {
    fn wait_for(&self, flag: &AtomicBool) {
        for _ in 0..LOOKS {
            if flag.load(Ordering::SeqCst) {
                return;
            }
            thread::yield_now();
        }
        self.gave_up.store(true, Ordering::SeqCst);
    }
}

impl Gate for Meeting {
    fn before(&self, worker: u32, call: u64) {
        if worker == 0 && call == 1 {
            self.is_there.store(true, Ordering::SeqCst);
            self.wait_for(&self.is_answered);
        }
        if worker == 1 && call == 1 {
            self.wait_for(&self.is_there);
        }
    }

    fn after(&self, worker: u32, call: u64) {
        if worker == 1 && call == 2 {
            self.is_answered.store(true, Ordering::SeqCst);
        }
    }
}

#[test]
fn two_workers_meet(rt: HostRuntime) -> Result<(), Fail> {
    for inboxes in BOTH {
        let meeting = Meeting {
            is_there: AtomicBool::new(false),
            is_answered: AtomicBool::new(false),
            gave_up: AtomicBool::new(false),
        };
        let ground = Ground {
            chunks: 64,
            desks: 2,
            width: 2,
            limit: 4_096,
            inboxes,
        };
        let plan = Plan {
            count: 2,
            rounds: 1,
            seed: 1,
            drop_first: false,
        };
        let tally = tally_of(&rt, &meeting, ground, Workload::Ring, &plan)?;
        assert!(rt; !meeting.gave_up.load(Ordering::SeqCst));
        assert!(rt; tally.counts.allocated == 4 && tally.counts.freed == 4);
        assert!(rt; tally.audit.is_ok());
    }
    Ok(())
}
