//! Whichever one allocation over a region is refused, a second try answers, and nothing is lost.

use super::{Outcome, relayed};
use fustrevol::{CHUNK, Fault, InboxKind, Pool, PoolError};
use std::alloc::Global;
use std::process::Abort;
use std::sync::Wait;
use std::thread::Threads;
use std::time::Clock;

// What two tasks answered over the region, or none where memory or a thread was refused.
fn relayed_over<R: Threads + Wait + Clock + Sync>(
    rt: &R,
    alloc: Global,
    region: &mut [u8],
    kind: InboxKind,
) -> Option<Outcome> {
    let pool = Pool::new(alloc, region).ok()?;
    relayed(rt, alloc, pool.inbox(kind), 5).ok()
}

// A buffer may have found no memory, and so may the audit.
fn tries_again<R: AllocGlobal + Abort + Threads + Wait + Clock + Sync>(rt: &R, kind: InboxKind) {
    let alloc = rt.alloc();
    let Ok(mut region) = Vec::from_elem(alloc, 0u8, 2 * CHUNK) else {
        return;
    };
    let outcome = match relayed_over(rt, alloc, &mut region, kind) {
        Some(outcome) => outcome,
        None => relayed_over(rt, alloc, &mut region, kind).expect(rt, "memory is there again"),
    };
    let Outcome { answers, tally } = outcome;
    for answer in answers.as_slice() {
        assert!(rt; *answer == Some(Ok(512)) || *answer == Some(Err(PoolError::NoMemory)));
    }
    assert!(rt; tally.counts.allocated <= 5 && tally.counts.freed == tally.counts.allocated);
    assert!(rt; tally.audit == Ok(()) || tally.audit == Err(Fault::NoMemory));
}

#[test]
fn over_linked_nodes(rt: HostRuntime) {
    tries_again(&rt, InboxKind::Linked);
}

#[test]
fn over_a_queue(rt: HostRuntime) {
    tries_again(&rt, InboxKind::Queued);
}
