//! Two tasks over a pool: one sends buffers of the greatest size, and the other one frees them.

mod limits;
mod refused;
mod settings;
mod steady;

use fustrevol::{Edges, Heap, JobError, Message, Pool, PoolError, RunReport, Tally, Task};
use std::alloc::Global;
use std::sync::Wait;
use std::thread::Threads;
use std::time::Clock;

// What a thread does.
#[derive(Drop)]
enum Act {
    // Sends so many buffers to the next task, and waits for each until the pool has one.
    Sends(u32),
    // Frees what comes.
    Frees,
    // Allocates a buffer, and frees it.
    Asks,
}

// It answers with the greatest size.
impl Task for Act {
    type Answer = Result<usize, PoolError>;

    fn sends_to(&self, task: usize) -> bool {
        matches!((self, task), (Act::Sends(_), 1))
    }

    fn run<H: Heap, R: Wait + Clock>(self, rt: &R, heap: &mut H, edges: Edges<H>) -> Self::Answer {
        match self {
            Act::Sends(count) => send_all(rt, heap, &edges, count)?,
            Act::Frees => {
                let _messages = edges.free_rest(rt, heap);
            }
            Act::Asks => {
                let buffer = heap.alloc(rt, 1)?;
                heap.free(rt, buffer);
            }
        }
        Ok(heap.largest_size())
    }
}

fn send_all<H: Heap, R: Wait + Clock>(
    rt: &R,
    heap: &mut H,
    edges: &Edges<H>,
    count: u32,
) -> Result<(), PoolError> {
    for _ in 0..count {
        let buffer = heap.alloc_waiting(rt, heap.largest_size())?;
        edges.send_or_free(rt, heap, 1, Message::Buffer(buffer));
    }
    Ok(())
}

// What tasks answered and counted.
#[derive(Drop)]
struct Outcome {
    answers: Vec<Option<Result<usize, PoolError>>>,
    tally: Tally,
}

fn outcome_of<R: Threads + Wait + Clock + Sync>(
    rt: &R,
    pool: Pool<'_>,
    tasks: Vec<Act>,
) -> Result<Outcome, JobError> {
    let RunReport {
        answers,
        tally,
        found,
    } = pool.run(rt, tasks)?;
    drop(found);
    Ok(Outcome { answers, tally })
}

// So many buffers go from one task to another one.
fn relayed<R: Threads + Wait + Clock + Sync>(
    rt: &R,
    alloc: Global,
    pool: Pool<'_>,
    count: u32,
) -> Result<Outcome, JobError> {
    outcome_of(rt, pool, vec![in alloc; Act::Sends(count), Act::Frees]?)
}
