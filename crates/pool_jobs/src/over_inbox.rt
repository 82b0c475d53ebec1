//! Tasks and workloads over the inbox of a queue.
ghost use Rattle.std.specs.Prelude.{◌≡◌, ◌≤◌, ℕ, length, IfOk, IfSome};
ghost use Rattle.pool_jobs.specs.Ends.{IsAccounted};
ghost use Rattle.std.specs.List.{AllZip};
ghost use Rattle.pool_fabric.specs.Opened.{most_desks};
ghost use Rattle.pool_jobs.specs.Promises.{FirstHave};

use crate::counting_heap::CountingHeap;
use crate::crew_result::CrewResult;
use crate::error::JobError;
use crate::gate::Gate;
use crate::report::{RunReport, WorkReport, settle_crew, settle_tasks};
use crate::tasks::task::Task;
use crate::tasks::worker::{TaskReport, report_tasks, run_tasks, task_workers};
use crate::workloads::plan::{MOST_THREADS, Plan};
use crate::workloads::rounds::{Rounds, run_round};
use crate::workloads::workload::Workload;
use batch_inbox::{Inbox, SendSeat, TakeSeat};
use pool_fabric::{Fabric, Naming, Opening};
use rand_core::{Rng, SeedableRng};
use std::alloc::Global;
use std::marker::Brand;
use std::sync::Wait;
use std::thread::Threads;
use std::time::Clock;

// All rounds, whose threads are all joined.
fn all_rounds<'a, 'r, G, N, J, R>(
    rt: &R,
    alloc: Global,
    rounds: Rounds<'a, 'r, Inbox<'r>, TakeSeat<'r>, SendSeat<'r>, G, J>,
) -> Result<CrewResult<'r, TakeSeat<'r>, SendSeat<'r>, J>, JobError>
where
    G: Gate + Sync,
    N: Rng + SeedableRng + Send + Drop,
    J: Naming + Send + Sync,
    R: Threads + Wait + Clock + Sync,
{
    let mut rounds = rounds;
    for number in 0..rounds.count() {
        let start = rounds.begin::<N>(number)?;
        let results = run_round(rt, alloc, start)?;
        rounds.take_in(results)?;
    }
    Ok(rounds.end())
}

// The same at a fabric that `J` names, and its end.
#[inline(never)]
fn work_named<'r, G, N, J, R>(
    rt: &R,
    alloc: Global,
    opening: Opening<'r, Inbox<'r>, TakeSeat<'r>, SendSeat<'r>>,
    gate: &G,
    workload: Workload,
    plan: &Plan,
) -> Result<WorkReport<'r>, JobError>
where
    G: Gate + Sync,
    N: Rng + SeedableRng + Send + Drop,
    J: Naming + Send + Sync,
    R: Threads + Wait + Clock + Sync,
    requires { J.names ≡ opening }
    ensures accounted { IfOk result (λ e. IsAccounted opening.entry.chunks opening.entry.count e.found e.tally) }
{
    let workers = opening.desks().min(MOST_THREADS as usize) as u32;
    let fabric = Fabric::open(alloc, opening)?;
    let rounds = Rounds::new(alloc, &fabric, gate, workload, plan, workers);
    let crew = all_rounds::<G, N, J, R>(rt, alloc, rounds)?;
    settle_crew(rt, alloc, fabric, crew)
}

/// Runs a workload with a worker for each desk of the opening, in threads, and accounts for all that
/// there is when they have ended.
///
/// Whatever the schedule was, nothing is lost and nothing is there twice. Counted slot by slot,
/// found + lent = slots of the drawn chunks + freed. Counted chunk by chunk,
/// drawn + left = the chunks of the opening. The audit of the tally is that of the slots found.
///
/// The sizes of worker `i` in round `r` are drawn from an `N` made of the seed `seed + 64 * r + i`.
pub fn work<'r, G, N, R>(
    rt: &R,
    alloc: Global,
    opening: Opening<'r, Inbox<'r>, TakeSeat<'r>, SendSeat<'r>>,
    gate: &G,
    workload: Workload,
    plan: &Plan,
) -> Result<WorkReport<'r>, JobError>
where
    G: Gate + Sync,
    N: Rng + SeedableRng + Send + Drop,
    R: Threads + Wait + Clock + Sync,
    ensures accounted { IfOk result (λ e. IsAccounted opening.entry.chunks opening.entry.count e.found e.tally) }
{
    work_named::<G, N, Brand, R>(rt, alloc, opening, gate, workload, plan)
}

// All tasks, whose threads are all joined.
fn all_tasks<'a, 'r, G, K, J, R>(
    rt: &R,
    alloc: Global,
    workers: Vec<CountingHeap<'a, 'r, Inbox<'r>, TakeSeat<'r>, SendSeat<'r>, G, J>>,
    tasks: Vec<K>,
) -> Result<TaskReport<'r, TakeSeat<'r>, SendSeat<'r>, J, K::Answer>, JobError>
where
    G: Gate + Sync,
    K: Task + Send,
    J: Naming + Send + Sync,
    R: Threads + Wait + Clock + Sync,
    K::Answer: Send,
    ensures promised { IfOk result (λ r. AllZip (λ t a. IfSome a (K.gives t)) tasks.items r.answers.items) }
    ensures begun { IfOk result (λ r. FirstHave (λ a. a) (length workers.entry.items) r.answers.items) }
{
    let results = run_tasks(rt, alloc, workers, tasks)?;
    report_tasks(alloc, results)
}

// The same at a fabric that `J` names, and its end.
fn run_named<'r, G, K, J, R>(
    rt: &R,
    alloc: Global,
    opening: Opening<'r, Inbox<'r>, TakeSeat<'r>, SendSeat<'r>>,
    gate: &G,
    tasks: Vec<K>,
) -> Result<RunReport<'r, K::Answer>, JobError>
where
    G: Gate + Sync,
    K: Task + Send,
    J: Naming + Send + Sync,
    R: Threads + Wait + Clock + Sync,
    K::Answer: Send,
    requires { J.names ≡ opening }
    ensures accounted { IfOk result (λ e. IsAccounted opening.entry.chunks opening.entry.count e.found e.tally) }
    ensures answers { IfOk result (λ e. length e.answers.items ≡ length tasks.items) }
    ensures promised { IfOk result (λ e. AllZip (λ t a. IfSome a (K.gives t)) tasks.items e.answers.items) }
    ensures begun { IfOk result (λ e. (n : ℕ) × (n ≤ most_desks) × FirstHave (λ a. a) n e.answers.items) }
{
    let wanted = tasks.len().min(MOST_THREADS as usize) as u32;
    let fabric = Fabric::open(alloc, opening)?;
    let workers = task_workers(rt, alloc, &fabric, gate, wanted)?;
    let report = all_tasks::<G, K, J, R>(rt, alloc, workers, tasks)?;
    settle_tasks(rt, alloc, fabric, report)
}

/// Runs a program's own tasks, each in a thread of its own, and accounts for all that there is when
/// they have ended.
///
/// The tasks get the desks of the opening in order; one for which no desk is left is not begun, and
/// has no answer. The answers stand in the order of the tasks, and each is what its task promised
/// ([`Task`]'s `gives`). All threads that were started have ended when the call returns.
///
/// Whatever the tasks do with their buffers, and whatever the schedule was, nothing is lost and nothing
/// is there twice. Counted slot by slot, found + lent = slots of the drawn chunks + freed. Counted
/// chunk by chunk, drawn + left = the chunks of the opening.
///
/// The audit of the tally is that of the slots found. Where buffers were dropped, it names only the
/// least of their slots, or answers that it had no memory; `lost` counts those buffers.
pub fn run<'r, G, K, R>(
    rt: &R,
    alloc: Global,
    opening: Opening<'r, Inbox<'r>, TakeSeat<'r>, SendSeat<'r>>,
    gate: &G,
    tasks: Vec<K>,
) -> Result<RunReport<'r, K::Answer>, JobError>
where
    G: Gate + Sync,
    K: Task + Send,
    R: Threads + Wait + Clock + Sync,
    K::Answer: Send,
    ensures accounted { IfOk result (λ e. IsAccounted opening.entry.chunks opening.entry.count e.found e.tally) }
    ensures answers { IfOk result (λ e. length e.answers.items ≡ length tasks.items) }
    ensures promised { IfOk result (λ e. AllZip (λ t a. IfSome a (K.gives t)) tasks.items e.answers.items) }
    ensures begun { IfOk result (λ e. (n : ℕ) × (n ≤ most_desks) × FirstHave (λ a. a) n e.answers.items) }
{
    run_named::<G, K, Brand, R>(rt, alloc, opening, gate, tasks)
}
