//! Producers and consumers, and a ring.
ghost use Rattle.std.specs.Prelude.{◌≡◌, length, IfOk};

use crate::crew::Job;
use crate::workloads::rows::{RoundResult, Row};
use crate::workloads::worker::{BuildWorker, Worker};
use crossbeam_channel::{Receiver, Sender};
use std::alloc::{AllocError, Global};
use std::sync::Wait;
use std::time::Clock;

/// What a worker does with its buffers.
#[derive(Drop)]
pub enum Role<B: Drop> {
    /// Hands each over.
    Producer(Sender<B>),
    /// Frees what it receives.
    Consumer(Receiver<B>),
    /// Hands each over, and then frees what it receives.
    Neighbour(Sender<B>, Receiver<B>),
    /// Frees its own.
    Alone,
}

/// A worker with its role.
#[derive(Drop)]
pub(crate) struct HandOverJob<S: BuildWorker> {
    builder: S,
    alloc: Global,
    count: u32,
    role: Role<S::Buffer>,
}

// Allocates, and hands each buffer over. What the channel doesn't take is freed.
fn produce<W: Worker, R: Wait>(rt: &R, worker: &mut W, count: u32, to: &Sender<W::Buffer>) {
    for _i in 0..count {
        if let Some(buffer) = worker.allocate(rt) {
            if let Err(refused) = to.send(rt, buffer) {
                worker.give_back(rt, refused.into_inner());
            }
        }
    }
}

// Frees what it receives, until the channel is closed.
fn consume<W: Worker, R: Wait>(rt: &R, worker: &mut W, from: &Receiver<W::Buffer>) {
    for _ in rt.forever() {
        let Ok(buffer) = from.recv(rt) else {
            break;
        };
        worker.give_back(rt, buffer);
    }
}

// Allocates, and frees each buffer.
fn work_alone<W: Worker, R: Wait>(rt: &R, worker: &mut W, count: u32) {
    for _i in 0..count {
        if let Some(buffer) = worker.allocate(rt) {
            worker.give_back(rt, buffer);
        }
    }
}

/// Does what the role asks for. The ends of its channels are dropped with it.
pub(crate) fn hand_over<W: Worker, R: Wait>(
    rt: &R,
    worker: W,
    role: Role<W::Buffer>,
    count: u32,
) -> W::Outcome {
    let mut worker = worker;
    match role {
        Role::Producer(to) => produce(rt, &mut worker, count, &to),
        Role::Consumer(from) => consume(rt, &mut worker, &from),
        Role::Neighbour(to, from) => {
            produce(rt, &mut worker, count, &to);
            drop(to);
            consume(rt, &mut worker, &from);
        }
        Role::Alone => work_alone(rt, &mut worker, count),
    }
    worker.end(rt)
}

impl<S: BuildWorker> Job for HandOverJob<S> {
    type Out = RoundResult<S>;

    fn run<R: Wait + Clock>(self, rt: &R) -> RoundResult<S> {
        let HandOverJob {
            builder,
            alloc,
            count,
            role,
        } = self;
        RoundResult {
            outcome: builder.hand_over(rt, role, count),
            row: Row::none(alloc),
        }
    }
}

/// Gives each worker its role: two and two, a producer for each consumer.
pub(crate) fn jobs_in_pairs<S: BuildWorker>(
    alloc: Global,
    builders: Vec<S>,
    count: u32,
) -> Result<Vec<HandOverJob<S>>, AllocError>
    ensures each { IfOk result (λ jobs. length jobs.items ≡ length builders.items) }
{
    let mut left = builders.len();
    let mut jobs = Vec::new(alloc);
    let mut open: Option<Receiver<S::Buffer>> = None;
    for builder in builders {
        left = left.saturating_sub(1);
        let role = match open {
            Some(from) => {
                open = None;
                Role::Consumer(from)
            }
            None => {
                open = None;
                if left > 0 {
                    let (to, from) = crossbeam_channel::unbounded(alloc)?;
                    open = Some(from);
                    Role::Producer(to)
                } else {
                    Role::Alone
                }
            }
        };
        jobs.push(HandOverJob {
            builder,
            alloc,
            count,
            role,
        })?;
    }
    Ok(jobs)
}

/// Gives each worker the sending end of its neighbour's channel, and the last that of the first.
pub(crate) fn jobs_in_ring<S: BuildWorker>(
    alloc: Global,
    builders: Vec<S>,
    count: u32,
) -> Result<Vec<HandOverJob<S>>, AllocError>
    ensures each { IfOk result (λ jobs. length jobs.items ≡ length builders.items) }
{
    let mut left = builders.len();
    let mut jobs = Vec::new(alloc);
    let (first, mut from) = crossbeam_channel::unbounded(alloc)?;
    let mut first = Some(first);
    for builder in builders {
        left = left.saturating_sub(1);
        let (to, next) = crossbeam_channel::unbounded(alloc)?;
        let to = if left > 0 {
            to
        } else {
            match first.take() {
                Some(first) => first,
                None => to,
            }
        };
        let role = Role::Neighbour(to, from);
        from = next;
        jobs.push(HandOverJob {
            builder,
            alloc,
            count,
            role,
        })?;
    }
    Ok(jobs)
}
