//! Jobs in threads of their own.
ghost use Rattle.std.specs.Prelude.{◌≡◌, [], length, None, IfOk};
ghost use Rattle.std.specs.List.{AllZip};

use crate::error::JobError;
use std::alloc::Global;
use std::snapshot::Snapshot;
use std::sync::Wait;
use std::thread;
use std::thread::{Promise, PromisedHandle, Threads};
use std::time::Clock;

/// What one thread does, and what its join gives.
pub trait Job: Drop {
    type Out: Drop;

    /// What it promises of what it gives: nothing, where it doesn't say.
    ghost gives: { Self → Self.Out → Type 0 } = { λ _ _. Unit {0} };

    fn run<R: Wait + Clock>(self, rt: &R) -> Self::Out
        ensures promised { gives self result };
}

// That a job gives what it promises. The join of its thread carries it.
#[derive(Drop)]
struct GivesAsPromised<J: Job>(Snapshot<J>);

impl<J: Job> Promise<J::Out> for GivesAsPromised<J> {
    ghost kept_by = { λ p r. J.gives p.0.value r };
}

/// Runs each job in a thread of its own, and gives what each gave, in the order of the jobs: each what it
/// promised. All threads that were started have ended when the call returns; after an error what they
/// gave is dropped.
pub fn crew<J: Job + Send, R: Threads + Wait + Clock + Sync>(
    rt: &R,
    alloc: Global,
    jobs: Vec<J>,
) -> Result<Vec<J::Out>, JobError>
where
    J::Out: Send,
    ensures promised { IfOk result (λ outs. AllZip J.gives jobs.items outs.items) }
    ensures each { IfOk result (λ outs. length outs.items ≡ length jobs.items) }
{
    let handles = Vec::with_capacity(alloc, jobs.len())?;
    thread::scope(
        thread::scope_env(),
        rt,
        |scope| -> Result<Vec<J::Out>, JobError>
            requires { handles.items ≡ [] }
            ensures promised { IfOk result (λ outs. AllZip J.gives jobs.items outs.items) }
            ensures each { IfOk result (λ outs. length outs.items ≡ length jobs.items) }
        {
            let mut handles = handles;
            let mut fault = None;
            for job in jobs {
                let promise = GivesAsPromised(Snapshot::of(&job));
                match scope.spawn_with(promise, move || job.run(rt)) {
                    Ok(handle) => {
                        if let Err(_full) = handles.push(handle) {
                            fault = Some(JobError::NoMemory);
                        }
                    }
                    Err(_refused) => {
                        fault = Some(JobError::NoThread);
                    }
                }
            }
            joined::<J, R>(rt, alloc, handles, fault)
        },
    )
}

// Joins all threads. A fault that there was stays.
fn joined<J: Job, R: Threads>(
    rt: &R,
    alloc: Global,
    handles: Vec<PromisedHandle<J::Out, GivesAsPromised<J>>>,
    fault: Option<JobError>,
) -> Result<Vec<J::Out>, JobError>
    ensures promised { IfOk result (λ outs. AllZip (λ h r. J.gives h.promise.0.value r) handles.items outs.items) }
    ensures fault { IfOk result (λ _. fault ≡ None) }
{
    let mut outs = Vec::new(alloc);
    let mut fault = fault;
    for handle in handles {
        if outs.push(handle.join(rt)).is_err() {
            fault = Some(JobError::NoMemory);
        }
    }
    match fault {
        Some(fault) => Err(fault),
        None => Ok(outs),
    }
}
