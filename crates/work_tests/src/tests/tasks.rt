//! A program's own tasks: what they count, and what is found when they have ended.

ghost use Rattle.std.specs.Prelude.{◌≡◌};

use super::{BOTH, Ground, Inboxes, Outcome, outcome_of};
use pool_jobs::{Bytes, Channels, Heap, PoolError, Task};
use slot_audit::Fault;
use std::sync::Wait;
use std::test::Fail;
use std::time::Clock;

// The size of each buffer. A chunk has eight slots of it.
const SIZE: usize = 512;

// What a thread does.
#[derive(Drop)]
enum Act {
    // Allocates so many buffers and frees each.
    Alone(u64),
    // Allocates so many and hands them to the task of this number.
    Gives(u64, usize),
    // The same, but waits for each buffer until one has come home.
    Waits(u64, usize),
    // Gives, and then frees what it receives.
    Circles(u64, usize),
    // Frees what it receives.
    Frees,
    // Drops what it receives.
    Drops,
    // Receives nothing, and fails.
    Fails,
}

// An act with its number answers with how many buffers went through its hands, or with a fault.
impl Task for Act {
    type Answer = Result<u64, PoolError>;

    fn sends_to(&self, task: usize) -> bool {
        match self {
            Act::Gives(_, to) | Act::Waits(_, to) | Act::Circles(_, to) => *to == task,
            _ => false,
        }
    }

    fn bound(&self, _task: usize) -> usize {
        1_000
    }

    fn run<H: Heap, R: Wait + Clock>(
        self,
        rt: &R,
        heap: &mut H,
        channels: Channels<H::Buffer, H::Parcel>,
    ) -> Result<u64, PoolError> {
        match self {
            Act::Alone(count) => Ok(alone(rt, heap, count)),
            Act::Gives(count, to) => Ok(give(rt, heap, &channels, count, to)),
            Act::Waits(count, to) => wait_and_give(rt, heap, &channels, count, to),
            Act::Circles(count, to) => {
                let given = give(rt, heap, &channels, count, to);
                let mut channels = channels;
                channels.stop_sending();
                let _messages = channels.free_rest(rt, heap);
                Ok(given)
            }
            Act::Frees => Ok(channels.free_rest(rt, heap)),
            Act::Drops => Ok(drop_all(rt, heap, &channels)),
            Act::Fails => Err(PoolError::UsedUp),
        }
    }
}

fn alone<H: Heap, R: Wait>(rt: &R, heap: &mut H, count: u64) -> u64 {
    let mut freed = 0u64;
    for _ in 0..count {
        if let Ok(buffer) = heap.alloc(rt, SIZE) {
            let mut buffer = buffer;
            buffer.copy_in(SIZE - 1, &[1]);
            heap.free(rt, buffer);
            freed = freed.wrapping_add(1);
        }
    }
    freed
}

fn give<H: Heap, R: Wait>(
    rt: &R,
    heap: &mut H,
    channels: &Channels<H::Buffer, H::Parcel>,
    count: u64,
    to: usize,
) -> u64 {
    let mut given = 0u64;
    for _ in 0..count {
        if let Ok(buffer) = heap.alloc(rt, SIZE) {
            match channels.send_buffer(rt, heap, to, buffer) {
                Ok(()) => given = given.wrapping_add(1),
                Err(message) => message.free(rt, heap),
            }
        }
    }
    given
}

fn wait_and_give<H: Heap, R: Wait + Clock>(
    rt: &R,
    heap: &mut H,
    channels: &Channels<H::Buffer, H::Parcel>,
    count: u64,
    to: usize,
) -> Result<u64, PoolError> {
    let mut given = 0u64;
    for _ in 0..count {
        let buffer = heap.alloc_waiting(rt, SIZE)?;
        if let Err(message) = channels.send_buffer(rt, heap, to, buffer) {
            message.free(rt, heap);
        }
        given = given.wrapping_add(1);
    }
    Ok(given)
}

fn drop_all<H: Heap, R: Wait>(
    rt: &R,
    heap: &mut H,
    channels: &Channels<H::Buffer, H::Parcel>,
) -> u64 {
    let mut dropped = 0u64;
    for _ in rt.forever() {
        let Some(message) = channels.receive(rt, heap) else {
            break;
        };
        drop(message);
        dropped = dropped.wrapping_add(1);
    }
    dropped
}

// A pool of so many chunks and desks, whose caches are due beyond this limit.
fn ground(inboxes: Inboxes, chunks: usize, desks: u16, limit: u64) -> Ground
    ensures { (result.chunks ≡ chunks) × (result.desks ≡ desks) × (result.limit ≡ limit) }
{
    Ground {
        chunks,
        desks,
        width: 2,
        limit,
        inboxes,
    }
}

fn is_missing(audit: Result<(), Fault>) -> bool {
    match audit {
        Err(Fault::Missing(_)) => true,
        _ => false,
    }
}

#[test]
fn one_task(rt: HostRuntime) -> Result<(), Fail> {
    for inboxes in BOTH {
        let tasks = vec![in rt.alloc(); Act::Alone(10)]?;
        let Outcome { answers, tally } = outcome_of(&rt, ground(inboxes, 2, 1, 4_096), tasks)?;
        assert!(rt; answers.as_slice() == [Some(Ok(10))].as_slice());
        assert!(rt; tally.counts.allocated == 10 && tally.counts.freed == 10);
        assert!(rt; tally.counts.starved == 0 && tally.counts.lost == 0);
        assert!(rt; tally.audit.is_ok());
    }
    Ok(())
}

// No task at all, and tasks for which no desk is left.
#[test]
fn none_and_too_many(rt: HostRuntime) -> Result<(), Fail> {
    for inboxes in BOTH {
        let none: Vec<Act> = Vec::new(rt.alloc());
        let Outcome { answers, tally } = outcome_of(&rt, ground(inboxes, 2, 1, 4_096), none)?;
        assert!(rt; answers.is_empty() && tally.counts.allocated == 0 && tally.audit.is_ok());
        let tasks = vec![in rt.alloc(); Act::Alone(3), Act::Alone(4), Act::Alone(5)]?;
        let Outcome { answers, tally } = outcome_of(&rt, ground(inboxes, 4, 2, 4_096), tasks)?;
        assert!(rt; answers.as_slice() == [Some(Ok(3)), Some(Ok(4)), None].as_slice());
        assert!(rt; tally.counts.allocated == 7 && tally.counts.freed == 7 && tally.audit.is_ok());
    }
    Ok(())
}

// What a task drops is lost, and the audit says so.
#[test]
fn dropped_buffers_are_missing(rt: HostRuntime) -> Result<(), Fail> {
    for inboxes in BOTH {
        let tasks = vec![in rt.alloc(); Act::Gives(10, 1), Act::Drops]?;
        let Outcome { answers, tally } = outcome_of(&rt, ground(inboxes, 4, 2, 4_096), tasks)?;
        assert!(rt; answers.as_slice() == [Some(Ok(10)), Some(Ok(10))].as_slice());
        assert!(rt;
            tally.counts.allocated == 10 && tally.counts.freed == 0 && tally.counts.lost == 10
        );
        assert!(rt; is_missing(tally.audit));
    }
    Ok(())
}

// A task fails at once: what was handed to it came back or is lost, and the others end.
#[test]
fn a_task_that_fails(rt: HostRuntime) -> Result<(), Fail> {
    for inboxes in BOTH {
        let tasks = vec![in rt.alloc(); Act::Gives(100, 1), Act::Fails, Act::Alone(5)]?;
        let Outcome { answers, tally } = outcome_of(&rt, ground(inboxes, 32, 3, 4_096), tasks)?;
        assert!(rt; answers.len() == 3 && answers[1] == Some(Err(PoolError::UsedUp)));
        assert!(rt; answers[2] == Some(Ok(5)));
        assert!(rt; tally.counts.allocated == 105 && tally.counts.starved == 0);
        assert!(rt; tally.counts.freed.wrapping_add(tally.counts.lost) == 105);
        let expected = tally.counts.lost > 0;
        assert!(rt; is_missing(tally.audit) == expected);
        assert!(rt; tally.audit.is_err() == expected);
    }
    Ok(())
}

// Eight threads over two chunks, and two over none: who finds none starves.
#[test]
fn a_used_up_pool(rt: HostRuntime) -> Result<(), Fail> {
    for inboxes in BOTH {
        let mut tasks = Vec::new(rt.alloc());
        for _ in 0..8 {
            tasks.push(Act::Alone(50))?;
        }
        let Outcome { answers: _, tally } = outcome_of(&rt, ground(inboxes, 2, 8, 4_096), tasks)?;
        assert!(rt; tally.counts.starved > 0);
        assert!(rt; tally.counts.allocated.wrapping_add(tally.counts.starved) == 400);
        assert!(rt; tally.counts.freed == tally.counts.allocated && tally.audit.is_ok());
        let tasks = vec![in rt.alloc(); Act::Gives(5, 1), Act::Frees]?;
        let Outcome { answers, tally } = outcome_of(&rt, ground(inboxes, 0, 2, 4_096), tasks)?;
        assert!(rt; answers.as_slice() == [Some(Ok(0)), Some(Ok(0))].as_slice());
        assert!(rt;
            tally.counts.starved == 5 && tally.counts.allocated == 0 && tally.audit.is_ok()
        );
    }
    Ok(())
}

// A chunk has eight slots, and 400 buffers go through: batches come home.
#[test]
fn buffers_come_home(rt: HostRuntime) -> Result<(), Fail> {
    for inboxes in BOTH {
        let tasks = vec![in rt.alloc(); Act::Waits(400, 1), Act::Frees]?;
        let Outcome { answers, tally } = outcome_of(&rt, ground(inboxes, 1, 2, 1_024), tasks)?;
        assert!(rt; answers.as_slice() == [Some(Ok(400)), Some(Ok(400))].as_slice());
        assert!(rt; tally.counts.allocated == 400 && tally.counts.freed == 400);
        assert!(rt; tally.counts.lost == 0 && tally.audit.is_ok());
    }
    Ok(())
}

// Four tasks in a ring: each stops to send, and then frees what came from its neighbour.
#[test]
fn a_ring_of_tasks(rt: HostRuntime) -> Result<(), Fail> {
    for inboxes in BOTH {
        let mut tasks = Vec::new(rt.alloc());
        for number in 0usize..4 {
            tasks.push(Act::Circles(50, (number + 1) % 4))?;
        }
        let Outcome { answers, tally } = outcome_of(&rt, ground(inboxes, 32, 4, 0), tasks)?;
        assert!(rt; answers.len() == 4);
        assert!(rt; tally.counts.allocated == 200 && tally.counts.freed == 200);
        assert!(rt; tally.counts.starved == 0 && tally.counts.lost == 0 && tally.audit.is_ok());
    }
    Ok(())
}
