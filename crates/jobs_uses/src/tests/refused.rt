//! Whichever one allocation is refused, a second try has its answer, and nothing is lost.

use crate::{ask_there, work_alone};
use digit_route::Digits;
use pool_fabric::Opening;
use pool_jobs::{NoGate, Plan, Tally, WorkReport, Workload, work};
use rand_pcg::Pcg32;
use region_cut::{CHUNK, cut};
use slot_audit::Fault;
use std::alloc::Global;
use std::process::Abort;
use std::sync::Wait;
use std::thread::Threads;
use std::time::Clock;

// So many bytes. Where memory for them was refused, the next try works.
fn bytes_of(rt: &impl Abort, alloc: Global, len: usize) -> Vec<u8> {
    match Vec::from_elem(alloc, 0u8, len) {
        Ok(bytes) => bytes,
        Err(_) => Vec::from_elem(alloc, 0u8, len)
            .ok()
            .expect(rt, "memory is there again"),
    }
}

// What a worker alone counted over the region, or none where memory was refused.
fn alone_over<R: Wait>(rt: &R, alloc: Global, region: &mut [u8]) -> Option<Tally> {
    let parts = cut(alloc, region).ok()?;
    let digits = Digits::new(2)?;
    let opening = Opening::new(alloc, parts, 1, digits, 4_096).ok()?;
    let WorkReport { tally, found } = work_alone(rt, alloc, opening, 10, 512).ok()?;
    drop(found);
    Some(tally)
}

// What two workers counted over the region, of which one allocates and one frees, or none where
// memory or a thread was refused.
fn prodcons_over<R: Threads + Wait + Clock + Sync>(
    rt: &R,
    alloc: Global,
    region: &mut [u8],
) -> Option<Tally> {
    let parts = cut(alloc, region).ok()?;
    let digits = Digits::new(2)?;
    let opening = Opening::new(alloc, parts, 2, digits, 1_024).ok()?;
    let plan = Plan {
        count: 10,
        rounds: 1,
        seed: 1,
        drop_first: false,
    };
    let report = work::<NoGate, Pcg32, R>(
        rt,
        alloc,
        opening,
        &NoGate,
        Workload::ProdCons,
        &plan,
    ).ok()?;
    Some(report.tally)
}

// Ten buffers were asked for. One may have found no memory, or the audit itself.
fn account_holds(rt: &impl Abort, tally: Tally) {
    assert!(rt; tally.counts.allocated.wrapping_add(tally.counts.starved) == 10);
    assert!(rt; tally.counts.starved <= 1);
    assert!(rt; tally.counts.freed == tally.counts.allocated && tally.counts.lost == 0);
    assert!(rt; tally.audit == Ok(()) || tally.audit == Err(Fault::NoMemory));
}

#[test]
fn a_worker_alone_tries_again(rt: HostRuntime) {
    let alloc = rt.alloc();
    let mut region = bytes_of(&rt, alloc, CHUNK);
    let tally = match alone_over(&rt, alloc, &mut region) {
        Some(tally) => tally,
        None => alone_over(&rt, alloc, &mut region).expect(&rt, "memory is there again"),
    };
    account_holds(&rt, tally);
}

#[test]
fn two_workers_try_again(rt: HostRuntime) {
    let alloc = rt.alloc();
    let mut region = bytes_of(&rt, alloc, 32 * CHUNK);
    let tally = match prodcons_over(&rt, alloc, &mut region) {
        Some(tally) => tally,
        None => prodcons_over(&rt, alloc, &mut region).expect(&rt, "memory is there again"),
    };
    account_holds(&rt, tally);
}

// How many bytes a task's buffer has, or none where memory or a thread was refused.
fn asked_over<R: Threads + Wait + Clock + Sync>(
    rt: &R,
    alloc: Global,
    region: &mut [u8],
) -> Option<usize> {
    let parts = cut(alloc, region).ok()?;
    let digits = Digits::new(2)?;
    let opening = Opening::new(alloc, parts, 1, digits, 4_096).ok()?;
    ask_there(rt, alloc, opening, 100).ok()??.ok()
}

#[test]
fn a_task_tries_again(rt: HostRuntime) {
    let alloc = rt.alloc();
    let mut region = bytes_of(&rt, alloc, CHUNK);
    let bytes = match asked_over(&rt, alloc, &mut region) {
        Some(bytes) => bytes,
        None => asked_over(&rt, alloc, &mut region).expect(&rt, "memory is there again"),
    };
    assert!(rt; bytes == 112);
}
