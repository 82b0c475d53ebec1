//! What workloads count doesn't hang on the schedule, and their pools lose nothing.

use super::{BOTH, Ground, tally_of};
use pool_jobs::{NoGate, Plan, Workload};
use slot_audit::Fault;
use std::test::Fail;

const ALL: [Workload; 3] = [Workload::ProdCons, Workload::Ring, Workload::Replace];

// Each workload with many workers, whose caches are always due and whose numbers are read in one
// digit or in six.
#[test]
fn many_workers_lose_nothing(rt: HostRuntime) -> Result<(), Fail> {
    for inboxes in BOTH {
        for width in [1, 6] {
            for workload in ALL {
                let ground = Ground {
                    chunks: 1_024,
                    desks: 64,
                    width,
                    limit: 0,
                    inboxes,
                };
                let plan = Plan {
                    count: 20,
                    rounds: 2,
                    seed: 7,
                    drop_first: false,
                };
                let tally = tally_of(&rt, &NoGate, ground, workload, &plan)?;
                assert!(rt; tally.counts.allocated > 0 && tally.counts.starved == 0);
                assert!(rt; tally.counts.freed == tally.counts.allocated && tally.counts.lost == 0);
                assert!(rt; tally.audit.is_ok());
            }
        }
    }
    Ok(())
}

// Five chunks among eight workers: who finds none starves, and the audit still says yes.
#[test]
fn a_used_up_pool_starves_its_workers(rt: HostRuntime) -> Result<(), Fail> {
    for inboxes in BOTH {
        for workload in ALL {
            let ground = Ground {
                chunks: 5,
                desks: 8,
                width: 2,
                limit: 4_096,
                inboxes,
            };
            let plan = Plan {
                count: 100,
                rounds: 1,
                seed: 3,
                drop_first: false,
            };
            let tally = tally_of(&rt, &NoGate, ground, workload, &plan)?;
            assert!(rt; tally.counts.starved > 0);
            assert!(rt; tally.counts.freed == tally.counts.allocated && tally.counts.lost == 0);
            assert!(rt; tally.audit.is_ok());
        }
    }
    Ok(())
}

// The first buffer of worker 0 is dropped, in each workload, and just that slot is missing.
#[test]
fn a_dropped_buffer_is_missing(rt: HostRuntime) -> Result<(), Fail> {
    for inboxes in BOTH {
        for workload in ALL {
            let ground = Ground {
                chunks: 1_024,
                desks: 4,
                width: 2,
                limit: 4_096,
                inboxes,
            };
            let plan = Plan {
                count: 10,
                rounds: 3,
                seed: 1,
                drop_first: true,
            };
            let tally = tally_of(&rt, &NoGate, ground, workload, &plan)?;
            assert!(rt; tally.counts.lost == 1);
            assert!(rt; tally.counts.allocated == tally.counts.freed.wrapping_add(1));
            let is_missing = match tally.audit {
                Err(Fault::Missing(_)) => true,
                _ => false,
            };
            assert!(rt; is_missing);
        }
    }
    Ok(())
}

// A worker without a partner frees its own; one desk is enough for each workload.
#[test]
fn a_worker_without_a_partner(rt: HostRuntime) -> Result<(), Fail> {
    for inboxes in BOTH {
        for workload in ALL {
            let ground = Ground {
                chunks: 32,
                desks: 1,
                width: 2,
                limit: 4_096,
                inboxes,
            };
            let plan = Plan {
                count: 1,
                rounds: 1,
                seed: 0,
                drop_first: false,
            };
            let tally = tally_of(&rt, &NoGate, ground, workload, &plan)?;
            let allocated = if workload == Workload::Replace { 17 } else { 1 };
            assert!(rt; tally.counts.allocated == allocated && tally.counts.freed == allocated);
            assert!(rt; tally.audit.is_ok());
        }
    }
    Ok(())
}

// Two workers in many short rounds, whose caches are always or soon due. Each frees the row of the
// other, who seldom runs out of a class and so leaves what comes in its inbox: a post is refused at the
// end of many rounds. The station comes back through the join then, and a worker of the next round
// goes on with it.
#[test]
fn a_refused_post_at_the_end_of_a_round(rt: HostRuntime) -> Result<(), Fail> {
    for inboxes in BOTH {
        for limit in [0, 64] {
            let ground = Ground {
                chunks: 1_024,
                desks: 2,
                width: 1,
                limit,
                inboxes,
            };
            let plan = Plan {
                count: 30,
                rounds: 50,
                seed: 1,
                drop_first: false,
            };
            let tally = tally_of(&rt, &NoGate, ground, Workload::Replace, &plan)?;
            assert!(rt; tally.counts.allocated == 3_032 && tally.counts.freed == 3_032);
            assert!(rt; tally.counts.starved == 0 && tally.counts.lost == 0);
            assert!(rt; tally.audit.is_ok());
        }
    }
    Ok(())
}
