//! A worker that does one task.
ghost use Rattle.std.specs.Prelude.{◌≡◌, ◌≤◌, length, map, None, IfOk, IfSome, IsSomeAnd, MatchOption};
ghost use Rattle.std.specs.List.{AllZip};
ghost use Rattle.pool_jobs.specs.Counted.{counted_by, stations_of};
ghost use Rattle.pool_jobs.specs.Promises.{FirstHave};

use crate::counting_heap::{CountingHeap, WorkerResult};
use crate::crew::{Job, crew};
use crate::crew_result::CrewResult;
use crate::entrance::Entrance;
use crate::error::JobError;
use crate::gate::Gate;
use crate::tasks::channels::{Channels, channels_of};
use crate::tasks::task::Task;
use batch_inbox::{Mail, Receiver, Sender};
use pool_fabric::{Buffer, Fabric, Naming, Parcel};
use std::alloc::{AllocError, Global};
use std::sync::Wait;
use std::thread::Threads;
use std::time::Clock;

/// A worker that does a task with its allocator. The trait names no lifetime, so a thread may own a
/// value of it.
pub trait TaskWorker: Drop + Sized {
    type Buffer: Drop;

    type Parcel: Drop;

    type Outcome: Drop;

    /// Does the task, and then retires the allocator.
    fn serve<K: Task, R: Wait + Clock>(
        self,
        rt: &R,
        task: K,
        channels: Channels<Self::Buffer, Self::Parcel>,
    ) -> TaskResult<Self, K>
        ensures promised { IsSomeAnd result.answer (K.gives task) };
}

/// What one task gave: its answer, and what its worker gives back. There is neither where no worker was
/// left for it.
#[derive(Drop)]
pub struct TaskResult<W: TaskWorker, K: Task> {
    outcome: Option<W::Outcome>,
    answer: Option<K::Answer>,
}

impl<
    'a,
    'r,
    T: Receiver,
    S: Sender,
    M: Mail<'r, TakeSeat = T, SendSeat = S>,
    G: Gate,
    J: Naming,
> TaskWorker for CountingHeap<'a, 'r, M, T, S, G, J> {
    type Buffer = Buffer<'r, J>;

    type Parcel = Parcel<'r, J>;

    type Outcome = WorkerResult<'r, T, S, J>;

    fn serve<K: Task, R: Wait + Clock>(
        self,
        rt: &R,
        task: K,
        channels: Channels<Buffer<'r, J>, Parcel<'r, J>>,
    ) -> TaskResult<CountingHeap<'a, 'r, M, T, S, G, J>, K>
        ensures promised { IsSomeAnd result.answer (K.gives task) }
    {
        let mut heap = self;
        let answer = task.run(rt, &mut heap, channels);
        TaskResult {
            outcome: Some(heap.end(rt)),
            answer: Some(answer),
        }
    }
}

/// A task with the worker that does it, if there is one.
#[derive(Drop)]
struct TaskJob<W: TaskWorker, K: Task> {
    worker: Option<W>,
    task: K,
    channels: Channels<W::Buffer, W::Parcel>,
}

impl<W: TaskWorker, K: Task> Job for TaskJob<W, K> {
    type Out = TaskResult<W, K>;

    ghost gives = { λ j r. MatchOption j.worker (r.answer ≡ None) (λ _. IsSomeAnd r.answer (K.gives j.task)) };

    fn run<R: Wait + Clock>(self, rt: &R) -> TaskResult<W, K> {
        let TaskJob {
            worker,
            task,
            channels,
        } = self;
        match worker {
            Some(worker) => worker.serve(rt, task, channels),
            None => TaskResult {
                outcome: None,
                answer: None,
            },
        }
    }
}

// The worker of this number, with a station off the shelf, if there is one left.
fn next_worker<'a, 'r, M, T, S, G, J, R>(
    rt: &R,
    alloc: Global,
    fabric: &'a Fabric<'r, M, T, S, J>,
    gate: &'a G,
    number: u32,
) -> Option<CountingHeap<'a, 'r, M, T, S, G, J>>
where
    T: Receiver,
    S: Sender,
    M: Mail<'r, TakeSeat = T, SendSeat = S>,
    G: Gate,
    J: Naming,
    R: Wait,
{
    let allocator = Entrance::new(alloc, fabric, gate, number).enter(rt)?;
    Some(CountingHeap::new(allocator))
}

/// Makes `wanted` workers, each with a station off the shelf; fewer where the shelf has fewer.
pub fn task_workers<'a, 'r, M, T, S, G, J, R>(
    rt: &R,
    alloc: Global,
    fabric: &'a Fabric<'r, M, T, S, J>,
    gate: &'a G,
    wanted: u32,
) -> Result<Vec<CountingHeap<'a, 'r, M, T, S, G, J>>, JobError>
where
    T: Receiver,
    S: Sender,
    M: Mail<'r, TakeSeat = T, SendSeat = S>,
    G: Gate,
    J: Naming,
    R: Wait,
    ensures most { IfOk result (λ all. length all.items ≤ wanted) }
{
    let mut workers = Vec::new(alloc);
    for number in 0..wanted {
        match next_worker(rt, alloc, fabric, gate, number) {
            Some(worker) => workers.push(worker)?,
            None => break,
        }
    }
    Ok(workers)
}

// Gives each task its channels and a worker, as long as there are workers.
fn jobs_of<W: TaskWorker, K: Task>(
    alloc: Global,
    workers: Vec<W>,
    tasks: Vec<K>,
    channels: Vec<Channels<W::Buffer, W::Parcel>>,
) -> Result<Vec<TaskJob<W, K>>, AllocError>
    requires { length channels.items ≡ length tasks.items }
    ensures tasks { IfOk result (λ jobs. AllZip (λ t j. j.task ≡ t) tasks.items jobs.items) }
    ensures workers { IfOk result (λ jobs. FirstHave (λ j. j.worker) (length workers.items) jobs.items) }
{
    let mut workers = workers.into_iter();
    let mut jobs = Vec::new(alloc);
    for (task, channels) in tasks.into_iter().zip(channels) {
        jobs.push(TaskJob {
            worker: workers.next(),
            task,
            channels,
        })?;
    }
    Ok(jobs)
}

/// Does each task in a thread of its own, and joins them all. The tasks get the workers in order; one for
/// which there is no worker is not begun. Each answers what it promised.
///
/// It is to be called from a free function that names the inbox: elsewhere the check can't tell that
/// its workers may cross to threads.
pub fn run_tasks<W, K, R>(
    rt: &R,
    alloc: Global,
    workers: Vec<W>,
    tasks: Vec<K>,
) -> Result<Vec<TaskResult<W, K>>, JobError>
where
    W: TaskWorker + Send,
    K: Task + Send,
    R: Threads + Wait + Clock + Sync,
    W::Buffer: Send,
    W::Parcel: Send,
    W::Outcome: Send,
    K::Answer: Send,
    ensures promised { IfOk result (λ all. AllZip (λ t r. IfSome r.answer (K.gives t)) tasks.items all.items) }
    ensures begun { IfOk result (λ all. FirstHave (λ r. r.answer) (length workers.items) all.items) }
{
    let channels = channels_of::<W::Buffer, W::Parcel, K>(alloc, &tasks)?;
    let jobs = jobs_of(alloc, workers, tasks, channels)?;
    crew(rt, alloc, jobs)
}

/// What all tasks answered, in order, and what their workers gave back.
#[derive(Drop)]
pub struct TaskReport<'r, T: Receiver, S: Sender, J: Naming, A: Drop> {
    /// What each task answered; nothing for one that was not begun.
    pub answers: Vec<Option<A>>,
    pub crew: CrewResult<'r, T, S, J>,
}

// What the workers of all tasks gave back, and what the tasks answered, each in order.
#[derive(Drop)]
struct SplitResults<W: TaskWorker, K: Task> {
    outcomes: Vec<Option<W::Outcome>>,
    answers: Vec<Option<K::Answer>>,
}

// Takes apart what all tasks gave.
fn split_results<W: TaskWorker, K: Task>(
    alloc: Global,
    results: Vec<TaskResult<W, K>>,
) -> Result<SplitResults<W, K>, AllocError>
    ensures answers { IfOk result (λ r. r.answers.items ≡ map (λ s. s.answer) results.items) }
    ensures outcomes { IfOk result (λ r. r.outcomes.items ≡ map (λ s. s.outcome) results.items) }
{
    let mut outcomes = Vec::new(alloc);
    let mut answers = Vec::new(alloc);
    for one in results {
        let TaskResult { outcome, answer } = one;
        outcomes.push(outcome)?;
        answers.push(answer)?;
    }
    Ok(SplitResults { outcomes, answers })
}

/// What all tasks answered, and what their workers gave back together.
pub fn report_tasks<'a, 'r, M, T, S, G, J, K>(
    alloc: Global,
    results: Vec<TaskResult<CountingHeap<'a, 'r, M, T, S, G, J>, K>>,
) -> Result<TaskReport<'r, T, S, J, K::Answer>, JobError>
where
    T: Receiver,
    S: Sender,
    M: Mail<'r, TakeSeat = T, SendSeat = S>,
    G: Gate,
    J: Naming,
    K: Task,
    ensures answers { IfOk result (λ r. r.answers.items ≡ map (λ s. s.answer) results.entry.items) }
    ensures counted { IfOk result (λ r. r.crew.counts ≡ counted_by (map (λ s. s.outcome) results.entry.items)) }
    ensures held { IfOk result (λ r. r.crew.held.items ≡ stations_of (map (λ s. s.outcome) results.entry.items)) }
{
    let SplitResults { outcomes, answers } = split_results(alloc, results)?;
    let crew = CrewResult::of(alloc, outcomes)?;
    Ok(TaskReport { answers, crew })
}
