//! A workload over an inbox of a user's own: a queue that counts its posts.
ghost use Rattle.std.specs.Prelude.{◌≡◌, IfOk};
ghost use Rattle.pool_jobs.specs.Ends.{IsAccounted};

use crate::watch::{Hold, Watch};
use crate::watched::{Seen, Watched};
use batch_inbox::{Inbox, SendSeat, TakeSeat};
use inbox_uses::Counting;
use pool_fabric::{Fabric, Naming, Opening};
use pool_jobs::crossing::{CrewResult, Rounds, run_round, settle_crew};
use pool_jobs::{Gate, JobError, MOST_THREADS, Plan, Workload};
use rand_core::{Rng, SeedableRng};
use std::alloc::Global;
use std::marker::Brand;
use std::sync::Wait;
use std::thread::Threads;
use std::time::Clock;

// All rounds, whose threads are all joined.
fn all_rounds<'a, 'r, G, N, J, R>(
    rt: &R,
    alloc: Global,
    rounds: Rounds<'a, 'r, Counting<Inbox<'r>>, TakeSeat<'r>, SendSeat<'r>, G, J>,
) -> Result<CrewResult<'r, TakeSeat<'r>, SendSeat<'r>, J>, JobError>
where
    G: Gate + Sync,
    N: Rng + SeedableRng + Send + Drop,
    J: Naming + Send + Sync,
    R: Threads + Wait + Clock + Sync,
{
    let mut rounds = rounds;
    for number in 0..rounds.count() {
        let start = rounds.begin::<N>(number)?;
        let results = run_round(rt, alloc, start)?;
        rounds.take_in(results)?;
    }
    Ok(rounds.end())
}

// All rounds under the gate, and what it saw.
fn seen<'r, N, J, R>(
    rt: &R,
    alloc: Global,
    fabric: &Fabric<'r, Counting<Inbox<'r>>, TakeSeat<'r>, SendSeat<'r>, J>,
    hold: Hold,
    workload: Workload,
    plan: &Plan,
    workers: u16,
) -> Result<Seen<'r, TakeSeat<'r>, SendSeat<'r>, J>, JobError>
where
    N: Rng + SeedableRng + Send + Drop,
    J: Naming + Send + Sync,
    R: Threads + Wait + Clock + Sync,
{
    let watch = Watch::over(alloc, fabric, workers, hold)?;
    let rounds = Rounds::new(alloc, fabric, &watch, workload, plan, u32::from(workers));
    let crew = all_rounds::<Watch, N, J, R>(rt, alloc, rounds)?;
    Ok(Seen {
        crew,
        posts: watch.posts(),
        calls: watch.calls(),
        calls_held: watch.calls_held(),
        gave_up: watch.gave_up(),
    })
}

// The same at a fabric that `J` names, and its end.
fn worked<'r, N, J, R>(
    rt: &R,
    alloc: Global,
    opening: Opening<'r, Counting<Inbox<'r>>, TakeSeat<'r>, SendSeat<'r>>,
    hold: Hold,
    workload: Workload,
    plan: &Plan,
) -> Result<Watched<'r>, JobError>
where
    N: Rng + SeedableRng + Send + Drop,
    J: Naming + Send + Sync,
    R: Threads + Wait + Clock + Sync,
    requires { J.names ≡ opening }
    ensures accounted { let n = opening.entry in
        IfOk result (λ w. IsAccounted n.chunks n.count w.report.found w.report.tally) }
{
    let workers = opening.desks().min(MOST_THREADS as usize) as u16;
    let fabric = Fabric::open(alloc, opening)?;
    let Seen {
        crew,
        posts,
        calls,
        calls_held,
        gave_up,
    } = seen::<N, J, R>(rt, alloc, &fabric, hold, workload, plan, workers)?;
    let report = settle_crew(rt, alloc, fabric, crew)?;
    Ok(Watched {
        report,
        posts,
        calls,
        calls_held,
        gave_up,
    })
}

/// Runs a workload with a worker for each desk, in threads, over inboxes that count their posts, and
/// accounts for all that there is when they have ended. Worker 0 is held before one of its calls until
/// so many posts were counted.
pub fn work_counting<'r, N, R>(
    rt: &R,
    alloc: Global,
    opening: Opening<'r, Counting<Inbox<'r>>, TakeSeat<'r>, SendSeat<'r>>,
    hold: Hold,
    workload: Workload,
    plan: &Plan,
) -> Result<Watched<'r>, JobError>
where
    N: Rng + SeedableRng + Send + Drop,
    R: Threads + Wait + Clock + Sync,
    ensures accounted { let n = opening.entry in
        IfOk result (λ w. IsAccounted n.chunks n.count w.report.found w.report.tally) }
{
    worked::<N, Brand, R>(rt, alloc, opening, hold, workload, plan)
}
