//! A pool that has worked for a while takes no memory and gives none back: not for what it lends and frees, nor for
//! what goes home from thread to thread. `.ci/no_memory.py` counts the allocations and frees of all threads from one mark
//! to the next.
//!
//! The threads stand in a ring. Each frees what comes from the thread before it, and sends buffers of its own to the
//! next one. Each has sent as many messages as any other, but for those in the edges, so all have worked for a while
//! when the first of them sets a mark, and none has ended when it sets the last.
use fustrevol::{Burst, CHUNK, Edges, Heap, InboxKind, Message, Pool, PoolError, Task};
use memory_marks::{Mark, set};
use std::alloc::Global;
use std::process::Abort;
use std::sync::Wait;
use std::test::Fail;
use std::thread::Threads;
use std::time::Clock;

// The messages that each task sends before the first mark, from each mark to the next, and behind the last one.
const BEFORE: u32 = 4_000;

const BETWEEN: u32 = 400;

const BEHIND: u32 = 200;

// How many times there are so many messages between two marks.
const WINDOWS: u32 = 20;

// The chunks of each task, and its slots, of 512 bytes.
const CHUNKS: usize = 16;

const SLOTS: usize = 128;

// The buffers of a parcel.
const PACKED: usize = 4;

// How buffers are handed over.
#[derive(Clone, Copy, PartialEq, Eq)]
enum Packing {
    Single,
    // In parcels, into which each buffer is put.
    Pushed,
    // In parcels that are filled by one call.
    Filled,
}

// A task of the ring.
#[derive(Drop)]
struct InRing {
    alloc: Global,
    at: usize,
    next: usize,
    packing: Packing,
}

impl Task for InRing {
    type Answer = Result<(), PoolError>;

    fn sends_to(&self, task: usize) -> bool {
        task == self.next
    }

    fn bound(&self, _task: usize) -> usize {
        4
    }

    fn run<H: Heap, R: Wait + Clock>(self, rt: &R, heap: &mut H, to: Edges<H>) -> Self::Answer {
        use_each_slot(rt, heap)?;
        for round in 0..BEFORE + WINDOWS * BETWEEN + BEHIND {
            if self.at == 0 {
                mark(self.alloc, round);
            }
            let message = self.message(rt, heap)?;
            to.send_or_free(rt, heap, self.next, message);
            if let Some(message) = to.receive(rt, heap) {
                message.free(rt, heap);
            }
        }
        Ok(())
    }
}

impl InRing {
    fn message<H: Heap, R: Wait + Clock>(
        &self,
        rt: &R,
        heap: &mut H,
    ) -> Result<Message<H::Buffer, H::Parcel>, PoolError> {
        if self.packing == Packing::Single {
            return Ok(Message::Buffer(heap.alloc_waiting(rt, 512)?));
        }
        let mut parcel = heap.parcel(PACKED)?;
        if self.packing == Packing::Filled {
            heap.fill_waiting(rt, &mut parcel, 512, PACKED)?;
            return Ok(Message::Parcel(parcel));
        }
        for _ in 0..PACKED {
            let _full = parcel.push(heap.alloc_waiting(rt, 512)?);
        }
        Ok(Message::Parcel(parcel))
    }
}

// Each slot has its box then, which its first use makes.
fn use_each_slot<H: Heap, R: Wait + Clock>(rt: &R, heap: &mut H) -> Result<(), PoolError> {
    let mut all = heap.parcel(SLOTS)?;
    for _ in 0..SLOTS {
        let _full = all.push(heap.alloc(rt, 512)?);
    }
    heap.free_all(rt, all);
    Ok(())
}

fn mark(alloc: Global, round: u32) {
    let is_between = round >= BEFORE && round <= BEFORE + WINDOWS * BETWEEN;
    if is_between && round % BETWEEN == 0 {
        set(alloc, Mark::Window);
    }
}

fn ring(alloc: Global, count: usize, packing: Packing) -> Result<Vec<InRing>, Fail> {
    let mut tasks = Vec::new(alloc);
    for at in 0..count {
        let next = if at == count - 1 { 0 } else { at + 1 };
        tasks.push(InRing {
            alloc,
            at,
            next,
            packing,
        })?;
    }
    Ok(tasks)
}

// When caches are posted.
#[derive(Clone, Copy)]
enum Posts {
    // Above 8,192 bytes.
    Often,
    // Above the limit that the pool picks, and where a thread waits.
    AsPicked,
}

// So many tasks over the inbox that allocates nothing.
fn goes_round<R: AllocGlobal + Abort + Threads + Wait + Clock + Sync>(
    rt: &R,
    count: usize,
    packing: Packing,
    posts: Posts,
) -> Result<(), Fail> {
    let mut region = vec![in rt.alloc(); 0u8; count.saturating_mul(CHUNKS * CHUNK)]?;
    let pool = Pool::new(rt.alloc(), &mut region)?.inbox(InboxKind::Linked);
    let pool = match posts {
        Posts::Often => pool.limit(8_192),
        Posts::AsPicked => pool,
    };
    let report = pool.run(rt, ring(rt.alloc(), count, packing)?)?;
    for answer in report.answers {
        assert!(rt; answer == Some(Ok(())));
    }
    assert!(rt; report.tally.audit.is_ok() && report.tally.counts.lost == 0);
    Ok(())
}

#[test]
fn single_buffers_of_two_threads(rt: HostRuntime) -> Result<(), Fail> {
    goes_round(&rt, 2, Packing::Single, Posts::Often)
}

#[test]
fn single_buffers_of_eight_threads(rt: HostRuntime) -> Result<(), Fail> {
    goes_round(&rt, 8, Packing::Single, Posts::Often)
}

#[test]
fn parcels_of_two_threads(rt: HostRuntime) -> Result<(), Fail> {
    goes_round(&rt, 2, Packing::Pushed, Posts::Often)
}

#[test]
fn parcels_of_eight_threads(rt: HostRuntime) -> Result<(), Fail> {
    goes_round(&rt, 8, Packing::Pushed, Posts::Often)
}

#[test]
fn filled_parcels_of_two_threads(rt: HostRuntime) -> Result<(), Fail> {
    goes_round(&rt, 2, Packing::Filled, Posts::Often)
}

#[test]
fn filled_parcels_of_eight_threads(rt: HostRuntime) -> Result<(), Fail> {
    goes_round(&rt, 8, Packing::Filled, Posts::Often)
}

#[test]
fn parcels_at_the_limit_that_the_pool_picks(rt: HostRuntime) -> Result<(), Fail> {
    goes_round(&rt, 4, Packing::Pushed, Posts::AsPicked)
}
