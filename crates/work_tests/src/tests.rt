//! What workloads and tasks are run over, and what is told of them at the end.

mod bursts;
mod due;
mod edges;
mod handed;
mod looks;
mod losses;
mod marks;
mod meeting;
mod rows;
mod sizes;
mod tasks;
mod told;
mod workloads;

ghost use Rattle.std.specs.Prelude.{◌≤◌};

use batch_inbox::{NewMail, Receiver, Sender};
use digit_route::Digits;
use pool_fabric::Opening;
use pool_jobs::{
    Gate, NoGate, Plan, RunReport, Tally, Task, WorkReport, Workload, run, run_linked, work,
    work_linked,
};
use rand_core::{Rng, SeedableRng};
use rand_pcg::Pcg32;
use region_cut::{CHUNK, cut};
use std::sync::Wait;
use std::test::Fail;
use std::thread::Threads;
use std::time::Clock;

// Which inboxes the desks have.
#[derive(Clone, Copy)]
enum Inboxes {
    Queues,
    Links,
}

const BOTH: [Inboxes; 2] = [Inboxes::Queues, Inboxes::Links];

// What a workload is run over: chunks, desks, bits of a digit, the limit of a cache in bytes, and
// the inboxes.
#[derive(Clone, Copy)]
struct Ground {
    chunks: usize,
    desks: u16,
    width: u32,
    limit: u64,
    inboxes: Inboxes,
}

// All that a pool over this ground is made of, in this region.
fn opening_over<'r, T: Receiver, S: Sender, M: NewMail<T, S>, R: AllocGlobal>(
    rt: &R,
    region: &'r mut Vec<u8>,
    ground: Ground,
) -> Result<Opening<'r, M, T, S>, Fail>
    requires { (1 ≤ ground.desks) × (ground.desks ≤ 64) × (ground.limit ≤ 1048576) }
{
    let alloc = rt.alloc();
    let digits = Digits::new(ground.width).ok_or("a width")?;
    let parts = cut(alloc, region.as_mut_slice())?;
    Ok(Opening::new(alloc, parts, ground.desks, digits, ground.limit)?)
}

// The workload over this ground, at its end.
fn ended_over<'r, N, G, R>(
    rt: &R,
    region: &'r mut Vec<u8>,
    gate: &G,
    ground: Ground,
    workload: Workload,
    plan: &Plan,
) -> Result<WorkReport<'r>, Fail>
where
    N: Rng + SeedableRng + Send + Drop,
    G: Gate + Sync,
    R: AllocGlobal + Threads + Wait + Clock + Sync,
    requires { (1 ≤ ground.desks) × (ground.desks ≤ 64) × (ground.limit ≤ 1048576) }
{
    let alloc = rt.alloc();
    match ground.inboxes {
        Inboxes::Queues => {
            let opening = opening_over(rt, region, ground)?;
            Ok(work::<G, N, R>(rt, alloc, opening, gate, workload, plan)?)
        }
        Inboxes::Links => {
            let opening = opening_over(rt, region, ground)?;
            Ok(work_linked::<G, N, R>(rt, alloc, opening, gate, workload, plan)?)
        }
    }
}

// What it counted.
fn tally_of<G: Gate + Sync, R: AllocGlobal + Threads + Wait + Clock + Sync>(
    rt: &R,
    gate: &G,
    ground: Ground,
    workload: Workload,
    plan: &Plan,
) -> Result<Tally, Fail>
    requires { (1 ≤ ground.desks) × (ground.desks ≤ 64) × (ground.limit ≤ 1048576) × (ground.chunks ≤ 1024) }
{
    let mut region = Vec::from_elem(rt.alloc(), 0u8, ground.chunks * CHUNK)?;
    Ok(ended_over::<Pcg32, G, R>(rt, &mut region, gate, ground, workload, plan)?.tally)
}

// What tasks answered and counted.
#[derive(Drop)]
struct Outcome<A: Drop> {
    answers: Vec<Option<A>>,
    tally: Tally,
}

// The tasks over this ground.
fn outcome_of<K, R>(rt: &R, ground: Ground, tasks: Vec<K>) -> Result<Outcome<K::Answer>, Fail>
where
    K: Task + Send,
    R: AllocGlobal + Threads + Wait + Clock + Sync,
    K::Answer: Send,
    requires { (1 ≤ ground.desks) × (ground.desks ≤ 64) × (ground.limit ≤ 1048576) × (ground.chunks ≤ 1024) }
{
    let alloc = rt.alloc();
    let mut region = Vec::from_elem(alloc, 0u8, ground.chunks * CHUNK)?;
    let finished = match ground.inboxes {
        Inboxes::Queues => {
            let opening = opening_over(rt, &mut region, ground)?;
            run(rt, alloc, opening, &NoGate, tasks)?
        }
        Inboxes::Links => {
            let opening = opening_over(rt, &mut region, ground)?;
            run_linked(rt, alloc, opening, &NoGate, tasks)?
        }
    };
    let RunReport {
        answers,
        tally,
        found,
    } = finished;
    drop(found);
    Ok(Outcome { answers, tally })
}
