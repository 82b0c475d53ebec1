//! What a task promises of its answer reaches who runs it.
ghost use Rattle.std.specs.Prelude.{◌≤◌, IfOk, IfSome};

use link_inbox::{LinkInbox, SendSeat, TakeSeat};
use pool_fabric::Opening;
use pool_jobs::{Bytes, Channels, Heap, JobError, NoGate, PoolError, Task, run_linked};
use std::alloc::Global;
use std::sync::Wait;
use std::thread::Threads;
use std::time::Clock;

/// A task that asks for a buffer of so many bytes, and answers with how many it has.
#[derive(Drop)]
pub struct Ask(usize);

impl Task for Ask {
    type Answer = Result<usize, PoolError>;

    ghost gives = { λ t a. IfOk a (λ bytes. t.0 ≤ bytes) };

    fn sends_to(&self, _task: usize) -> bool {
        false
    }

    fn run<H: Heap, R: Wait + Clock>(
        self,
        rt: &R,
        heap: &mut H,
        _channels: Channels<H::Buffer, H::Parcel>,
    ) -> Result<usize, PoolError> {
        let buffer = heap.alloc(rt, self.0)?;
        let bytes = buffer.capacity();
        heap.free(rt, buffer);
        Ok(bytes)
    }
}

/// How many bytes a buffer has that a task in a thread of its own asked for; nothing where the task was
/// not begun.
///
/// What a task promises is proved of its answer where the tasks are run: so there are enough bytes.
pub fn ask_there<'r, R: Threads + Wait + Clock + Sync>(
    rt: &R,
    alloc: Global,
    opening: Opening<'r, LinkInbox<'r>, TakeSeat<'r>, SendSeat<'r>>,
    size: usize,
) -> Result<Option<Result<usize, PoolError>>, JobError>
    ensures enough { IfOk result (λ a. IfSome a (λ r. IfOk r (λ bytes. size ≤ bytes))) }
{
    let mut tasks = Vec::new(alloc);
    tasks.push(Ask(size))?;
    let report = run_linked(rt, alloc, opening, &NoGate, tasks)?;
    let mut answers = report.answers;
    match answers.pop() {
        Some(answer) => Ok(answer),
        None => Ok(None),
    }
}
