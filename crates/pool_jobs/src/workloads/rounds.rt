//! The rounds of a workload, at any inbox.
ghost use Rattle.std.specs.Prelude.{◌≡◌, length, map, IfOk, OnOk};
ghost use Rattle.pool_jobs.specs.Counted.{both, counted_by, none_counted};
ghost use Rattle.pool_jobs.specs.Rounds.{rounds_of};

use crate::crew::crew;
use crate::crew_result::CrewResult;
use crate::entrance::Entrance;
use crate::error::JobError;
use crate::gate::Gate;
use crate::workloads::handing::{jobs_in_pairs, jobs_in_ring};
use crate::workloads::plan::{MOST_THREADS, Plan};
use crate::workloads::rows::{Round, RoundResult, Row, jobs_with_rows};
use crate::workloads::worker::{BuildWorker, WorkerBuilder};
use crate::workloads::workload::Workload;
use batch_inbox::{Mail, Mailbox, Receiver, Sender};
use pool_fabric::{Buffer, Fabric, Naming};
use rand_core::{Rng, SeedableRng};
use std::alloc::{AllocError, Global};
use std::marker::Model;
use std::sync::Wait;
use std::thread::Threads;
use std::time::Clock;

/// What one round of a workload begins with.
#[derive(Drop)]
pub struct RoundStart<S: BuildWorker> {
    /// Those who work in it, each in a thread of its own.
    pub builders: Vec<S>,
    workload: Workload,
    // The last worker's first.
    rows: Vec<Row<S::Buffer>>,
    round: Round,
}

// What several workers left, and their rows, each in order.
#[derive(Drop)]
struct SplitRound<S: BuildWorker> {
    outcomes: Vec<Option<S::Outcome>>,
    rows: Vec<Row<S::Buffer>>,
}

// Takes apart what came back of a round.
fn split_round<S: BuildWorker>(
    alloc: Global,
    results: Vec<RoundResult<S>>,
) -> Result<SplitRound<S>, AllocError>
    ensures outcomes { IfOk result (λ r. r.outcomes.items ≡ map (λ s. s.outcome) results.items) }
{
    let mut outcomes = Vec::new(alloc);
    let mut rows = Vec::new(alloc);
    for one in results {
        let RoundResult { outcome, row } = one;
        outcomes.push(outcome)?;
        rows.push(row)?;
    }
    Ok(SplitRound { outcomes, rows })
}

// The row of each worker goes to the next, the last one's to the first.
fn turned<B: Drop>(rows: Vec<Row<B>>) -> Result<Vec<Row<B>>, AllocError> {
    let mut rows = rows;
    if let Some(last) = rows.pop() {
        rows.insert(0, last)?;
    }
    Ok(rows)
}

/// Does one round of a workload: each worker runs in a thread of its own, and all are joined.
///
/// It is to be called from a free function that names the inbox: elsewhere the check can't tell that
/// its workers may cross to threads.
pub fn run_round<S, R>(
    rt: &R,
    alloc: Global,
    start: RoundStart<S>,
) -> Result<Vec<RoundResult<S>>, JobError>
where
    S: BuildWorker + Send,
    R: Threads + Wait + Clock + Sync,
    S::Buffer: Send,
    S::Outcome: Send,
    ensures each { IfOk result (λ results. length results.items ≡ length start.builders.items) }
{
    let RoundStart {
        builders,
        workload,
        rows,
        round,
    } = start;
    match workload {
        Workload::ProdCons => {
            let jobs = jobs_in_pairs(alloc, builders, round.count)?;
            crew(rt, alloc, jobs)
        }
        Workload::Ring => {
            let jobs = jobs_in_ring(alloc, builders, round.count)?;
            crew(rt, alloc, jobs)
        }
        Workload::Replace => {
            let jobs = jobs_with_rows(alloc, builders, rows, round)?;
            crew(rt, alloc, jobs)
        }
    }
}

/// The rounds of a workload over a fabric, one after another, and what came back of those that were
/// done.
///
/// ```text
/// for number in 0..rounds.count() {
///     let start = rounds.begin::<N>(number)?;
///     let results = run_round(rt, alloc, start)?;
///     rounds.take_in(results)?;
/// }
/// let crew = rounds.end();
/// ```
#[derive(Drop)]
pub struct Rounds<'a, 'r, M: Mailbox, T: Receiver, S: Sender, G: Gate, J: Naming> {
    alloc: Global,
    fabric: &'a Fabric<'r, M, T, S, J>,
    gate: &'a G,
    workload: Workload,
    plan: Plan,
    workers: u32,
    crew: CrewResult<'r, T, S, J>,
    rows: Vec<Row<Buffer<'r, J>>>,
}

impl<'a, 'r, M: Mailbox, T: Receiver, S: Sender, G: Gate, J: Naming> Model
    for Rounds<'a, 'r, M, T, S, G, J> {
    ghost use Rattle.pool_jobs.specs.Rounds.{RoundsState, rounds_of};

    ghost Value = { RoundsState };

    ghost view = { λ r. record {
      rounds = rounds_of r.workload r.plan;
      workers = r.workers;
      counts = r.crew.counts;
    } };
}

impl<
    'a,
    'r,
    T: Receiver,
    S: Sender,
    M: Mail<'r, TakeSeat = T, SendSeat = S>,
    G: Gate,
    J: Naming,
> Rounds<'a, 'r, M, T, S, G, J> {
    /// The rounds of this workload, each with so many workers. None is done yet.
    pub fn new(
        alloc: Global,
        fabric: &'a Fabric<'r, M, T, S, J>,
        gate: &'a G,
        workload: Workload,
        plan: &Plan,
        workers: u32,
    ) -> Rounds<'a, 'r, M, T, S, G, J>
        ensures { result ≡ record {
          rounds = rounds_of workload plan.now;
          workers = workers;
          counts = none_counted;
        } }
    {
        Rounds {
            alloc,
            fabric,
            gate,
            workload,
            plan: *plan,
            workers,
            crew: CrewResult::none(alloc),
            rows: Vec::new(alloc),
        }
    }

    /// How many rounds there are.
    pub fn count(&self) -> u32
        ensures { result ≡ self.now.rounds }
    {
        self.workload.rounds(&self.plan)
    }

    // Takes the rows out, the last one first.
    fn rows_out(&mut self) -> Result<Vec<Row<Buffer<'r, J>>>, AllocError>
        ensures { self.new ≡ self.old }
    {
        let mut rows = Vec::new(self.alloc);
        for _worker in 0..self.workers {
            if let Some(row) = self.rows.pop() {
                rows.push(row)?;
            }
        }
        Ok(rows)
    }

    // Those who work in one round. What came back of the round before, because a batch was refused there,
    // goes to the first of them, in order of the desks' numbers.
    fn builders<N: Rng + SeedableRng + Drop>(
        &mut self,
        seed: u64,
        drop_first: bool,
    ) -> Result<Vec<WorkerBuilder<'a, 'r, M, T, S, G, J, N>>, AllocError>
        ensures each { IfOk result (λ all. length all.items ≡ self.old.workers) }
        ensures same { self.new ≡ self.old }
    {
        let mut builders = Vec::new(self.alloc);
        for worker in 0..self.workers {
            let random = N::seed_from_u64(seed.wrapping_add(u64::from(worker)));
            let entrance = Entrance::new(self.alloc, self.fabric, self.gate, worker);
            let station = self.crew.take_least();
            let drops = drop_first && worker == 0;
            builders.push(WorkerBuilder::new(entrance, station, random, worker, drops))?;
        }
        Ok(builders)
    }

    /// Prepares round `number`, counted from 0. The sizes of worker `i` are drawn from an `N` made of
    /// the seed `seed + 64 * number + i`.
    pub fn begin<N: Rng + SeedableRng + Drop>(
        &mut self,
        number: u32,
    ) -> Result<RoundStart<WorkerBuilder<'a, 'r, M, T, S, G, J, N>>, JobError>
        ensures each { IfOk result (λ b. length b.builders.items ≡ self.old.workers) }
        ensures same { self.new ≡ self.old }
    {
        let round = Round {
            count: self.plan.count,
            is_first: number == 0,
            is_last: number.saturating_add(1) == self.count(),
        };
        // each worker of each round draws from a seed of its own
        let earlier = u64::from(number).wrapping_mul(u64::from(MOST_THREADS));
        let seed = u64::from(self.plan.seed).wrapping_add(earlier);
        let drops = self.plan.drop_first && self.crew.counts.dropped == 0;
        let rows = self.rows_out()?;
        let builders = self.builders(seed, drops)?;
        Ok(RoundStart {
            builders,
            workload: self.workload,
            rows,
            round,
        })
    }

    /// Takes in a round's results. Each row goes to the next worker, the last one's to the first.
    pub fn take_in<N: Rng + Drop>(
        &mut self,
        results: Vec<RoundResult<WorkerBuilder<'a, 'r, M, T, S, G, J, N>>>,
    ) -> Result<(), JobError>
        ensures rounds { self.new.rounds ≡ self.old.rounds }
        ensures workers { self.new.workers ≡ self.old.workers }
        ensures counted { OnOk result (self.new.counts
            ≡ both self.old.counts (counted_by (map (λ s. s.outcome) results.entry.items))) }
    {
        let SplitRound { outcomes, rows } = split_round(self.alloc, results)?;
        self.rows = turned(rows)?;
        self.crew.add(CrewResult::of(self.alloc, outcomes)?)?;
        Ok(())
    }

    /// What came back of all rounds. Buffers that are still in a row are dropped.
    pub fn end(self) -> CrewResult<'r, T, S, J>
        ensures { result.counts ≡ self.entry.counts }
    {
        self.crew
    }
}
