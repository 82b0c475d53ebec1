//! Work in threads of their own. A worker names no lifetime, so that it is known in every thread.
ghost use Rattle.std.specs.Prelude.{All, OnOk};

use slot_chain::NoMemory;
use std::alloc::AllocError;
use std::sync::Wait;
use std::thread;
use std::thread::Threads;

/// What runs in a thread, and ends with a value.
pub trait Worker {
    type Done;

    /// What it may be started with.
    ghost ready: { Self → Type 0 };

    /// What it may end with.
    ghost gives: { Self → Self.Done → Type 0 };

    fn run<R: Wait>(self, rt: &R) -> Self::Done
        requires { ready self }
        ensures { gives self result };
}

/// Adds a sender to those that are to run.
pub fn add_sender<W: Worker + Drop>(senders: &mut Vec<W>, sender: W) -> Result<(), NoMemory>
    requires senders { All W.ready senders.old.items }
    requires sender { W.ready sender }
    ensures { OnOk result (All W.ready senders.new.items) }
{
    senders.push(sender)?;
    Ok(())
}

/// Runs each worker in a thread of its own, and joins them all.
pub fn run_all<D: Send + Drop, W: Worker<Done = D> + Send + Drop, R: Threads + Wait + Sync>(
    rt: &R,
    workers: Vec<W>,
) -> Result<Vec<D>, AllocError>
    requires { All W.ready workers.items }
{
    thread::map_vec(
        rt,
        workers,
        &|worker: W|
            requires { W.ready worker }
        { worker.run(rt) },
    )
}

/// Runs two workers, each in a thread of its own, and joins them.
pub fn run_beside<
    D: Send + Drop,
    W: Worker<Done = D> + Send + Drop,
    E: Send + Drop,
    X: Worker<Done = E> + Send + Drop,
    R: Threads + Wait + Sync,
>(rt: &R, one: W, other: X) -> (D, E)
    requires one { W.ready one }
    requires other { X.ready other }
    ensures one { W.gives one result.0 }
    ensures other { X.gives other result.1 }
{
    thread::join(
        rt,
        move || -> D
            requires { W.ready one }
            ensures { W.gives one result }
        { one.run(rt) },
        move || -> E
            requires { X.ready other }
            ensures { X.gives other result }
        { other.run(rt) },
    )
}

/// Runs a worker beside many others, each in a thread of its own, and joins them all.
pub fn run_both<
    D: Send + Drop,
    W: Worker<Done = D> + Send + Drop,
    E: Send + Drop,
    X: Worker<Done = E> + Send + Drop,
    R: Threads + Wait + Sync,
>(rt: &R, workers: Vec<W>, other: X) -> (Result<Vec<D>, AllocError>, E)
    requires workers { All W.ready workers.items }
    requires other { X.ready other }
{
    thread::join(
        rt,
        move || -> Result<Vec<D>, AllocError>
            requires { All W.ready workers.items }
        { run_all(rt, workers) },
        move || -> E
            requires { X.ready other }
        { other.run(rt) },
    )
}
