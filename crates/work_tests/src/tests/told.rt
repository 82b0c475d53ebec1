//! The gate is told of each call.

use super::{BOTH, Ground, tally_of};
use pool_jobs::{Gate, Plan, Workload};
use std::sync::atomic::{AtomicU32, Ordering};
use std::test::Fail;

// Of how many calls it was told before and after.
#[derive(Drop)]
struct Told {
    before: AtomicU32,
    after: AtomicU32,
}

impl Gate for Told {
    fn before(&self, _worker: u32, _call: u64) {
        let _told = self.before.fetch_add(1, Ordering::SeqCst);
    }

    fn after(&self, _worker: u32, _call: u64) {
        let _told = self.after.fetch_add(1, Ordering::SeqCst);
    }
}

// One call asks for the buffer, also where it looks into the inbox and claims a chunk for it. Another one
// frees it.
#[test]
fn a_free_is_a_call(rt: HostRuntime) -> Result<(), Fail> {
    for inboxes in BOTH {
        let told = Told {
            before: AtomicU32::new(0),
            after: AtomicU32::new(0),
        };
        let ground = Ground {
            chunks: 1,
            desks: 1,
            width: 2,
            limit: 4_096,
            inboxes,
        };
        let plan = Plan {
            count: 1,
            rounds: 1,
            seed: 0,
            drop_first: false,
        };
        let tally = tally_of(&rt, &told, ground, Workload::ProdCons, &plan)?;
        assert!(rt; tally.counts.allocated == 1 && tally.counts.freed == 1);
        assert_eq!(rt; told.before.load(Ordering::SeqCst), 2);
        assert_eq!(rt; told.after.load(Ordering::SeqCst), 2);
    }
    Ok(())
}
