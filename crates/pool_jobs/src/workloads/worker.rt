//! A worker of a workload, and what it is built of.
ghost use Rattle.std.specs.Prelude.{◌≡◌, ◌<◌, ◌%◌};
ghost use Rattle.rand_core.specs.Stream.{next_u32};

use crate::counting_heap::{CountingHeap, WorkerResult};
use crate::entrance::Entrance;
use crate::gate::Gate;
use crate::tasks::heap::Heap;
use crate::workloads::handing::{Role, hand_over};
use crate::workloads::rows::{Round, Row, replace};
use batch_inbox::{Mail, Mailbox, Receiver, Sender};
use pool_fabric::{Buffer, HeldStation, Naming};
use rand_core::Rng;
use std::sync::Wait;

/// The greatest size that a workload asks for.
const LARGEST: u32 = 512;

/// What a thread of a workload begins with: it builds its worker there, and does one round. The trait
/// names no lifetime, so a thread may own a value of it.
pub trait BuildWorker: Drop + Sized {
    type Buffer: Drop;

    type Outcome: Drop;

    /// Takes up an allocator, where there is one, and hands buffers over by its role.
    fn hand_over<R: Wait>(
        self,
        rt: &R,
        role: Role<Self::Buffer>,
        count: u32,
    ) -> Option<Self::Outcome>;

    /// Takes up an allocator, where there is one, and replaces the buffers of a row.
    fn replace<R: Wait>(
        self,
        rt: &R,
        row: &mut Row<Self::Buffer>,
        round: Round,
    ) -> Option<Self::Outcome>;
}

/// A worker of a workload, with its allocator.
pub(crate) trait Worker: Drop + Sized {
    type Buffer: Drop;

    type Outcome: Drop;

    /// One of so many places.
    fn pick(&mut self, places: u32) -> u32
        requires { 0 < places }
        ensures { result < places };

    /// Allocates a buffer of the next size, with the worker's number in its first byte.
    fn allocate<R: Wait>(&mut self, rt: &R) -> Option<Self::Buffer>;

    /// Frees a buffer.
    fn give_back<R: Wait>(&mut self, rt: &R, buffer: Self::Buffer);

    /// Ends the work.
    fn end<R: Wait>(self, rt: &R) -> Self::Outcome;
}

/// All that a worker is built of: an entrance to the fabric, the source of its sizes, and the station of
/// a worker before it where that one's last post was refused.
#[derive(Drop)]
pub struct WorkerBuilder<'a, 'r, M: Mailbox, T: Receiver, S: Sender, G: Gate, J: Naming, N: Drop> {
    entrance: Entrance<'a, 'r, M, T, S, G, J>,
    station: Option<HeldStation<'r, T, S, J>>,
    random: N,
    worker: u32,
    drops: bool,
}

impl<'a, 'r, M: Mailbox, T: Receiver, S: Sender, G: Gate, J: Naming, N: Drop> WorkerBuilder<
    'a,
    'r,
    M,
    T,
    S,
    G,
    J,
    N,
> {
    /// A worker that has no allocator yet, and goes on with the station where there is one. It drops
    /// its first buffer where `drops` says so.
    pub(crate) fn new(
        entrance: Entrance<'a, 'r, M, T, S, G, J>,
        station: Option<HeldStation<'r, T, S, J>>,
        random: N,
        worker: u32,
        drops: bool,
    ) -> WorkerBuilder<'a, 'r, M, T, S, G, J, N> {
        WorkerBuilder {
            entrance,
            station,
            random,
            worker,
            drops,
        }
    }
}

impl<'a, 'r, T, S, M, G, J, N> BuildWorker for WorkerBuilder<'a, 'r, M, T, S, G, J, N>
where
    T: Receiver,
    S: Sender,
    M: Mail<'r, TakeSeat = T, SendSeat = S>,
    G: Gate,
    J: Naming,
    N: Rng + Drop,
{
    type Buffer = Buffer<'r, J>;

    type Outcome = WorkerResult<'r, T, S, J>;

    fn hand_over<R: Wait>(
        self,
        rt: &R,
        role: Role<Buffer<'r, J>>,
        count: u32,
    ) -> Option<WorkerResult<'r, T, S, J>> {
        let worker = self.build(rt)?;
        Some(hand_over(rt, worker, role, count))
    }

    fn replace<R: Wait>(
        self,
        rt: &R,
        row: &mut Row<Buffer<'r, J>>,
        round: Round,
    ) -> Option<WorkerResult<'r, T, S, J>> {
        let worker = self.build(rt)?;
        Some(replace(rt, worker, row, round))
    }
}

impl<'a, 'r, T, S, M, G, J, N> WorkerBuilder<'a, 'r, M, T, S, G, J, N>
where
    T: Receiver,
    S: Sender,
    M: Mail<'r, TakeSeat = T, SendSeat = S>,
    G: Gate,
    J: Naming,
    N: Drop,
{
    // Takes up an allocator: with its station, or else with one off the shelf, where there is one.
    fn build<R: Wait>(self, rt: &R) -> Option<RandomWorker<'a, 'r, M, T, S, G, J, N>> {
        let WorkerBuilder {
            entrance,
            station,
            random,
            worker,
            drops,
        } = self;
        let allocator = match station {
            Some(station) => entrance.resume(station),
            None => entrance.enter(rt)?,
        };
        Some(RandomWorker {
            heap: CountingHeap::new(allocator),
            random,
            worker,
            drops,
        })
    }
}

/// A worker that draws its sizes from a random source.
#[derive(Drop)]
pub(crate) struct RandomWorker<
    'a,
    'r,
    M: Mailbox,
    T: Receiver,
    S: Sender,
    G: Gate,
    J: Naming,
    N: Drop,
> {
    heap: CountingHeap<'a, 'r, M, T, S, G, J>,
    random: N,
    worker: u32,
    drops: bool,
}

impl<'a, 'r, M: Mailbox, T: Receiver, S: Sender, G: Gate, J: Naming, N: Drop> RandomWorker<
    'a,
    'r,
    M,
    T,
    S,
    G,
    J,
    N,
> {
    // Marks a buffer, or drops it.
    fn keep(&mut self, buffer: Buffer<'r, J>) -> Option<Buffer<'r, J>> {
        if self.drops {
            self.drops = false;
            self.heap.lose(buffer);
            return None;
        }
        Some(marked(buffer, self.worker))
    }
}

// Writes the low byte of the worker's number into the first byte.
fn marked<'r, J: Naming>(buffer: Buffer<'r, J>, worker: u32) -> Buffer<'r, J> {
    let mut buffer = buffer;
    if buffer.capacity() > 0 {
        buffer.copy_in(0, &[(worker % 256) as u8]);
    }
    buffer
}

impl<'a, 'r, T, S, M, G, J, N> Worker for RandomWorker<'a, 'r, M, T, S, G, J, N>
where
    T: Receiver,
    S: Sender,
    M: Mail<'r, TakeSeat = T, SendSeat = S>,
    G: Gate,
    J: Naming,
    N: Rng + Drop,
{
    type Buffer = Buffer<'r, J>;

    type Outcome = WorkerResult<'r, T, S, J>;

    fn pick(&mut self, places: u32) -> u32
        requires { 0 < places }
        ensures in_range { result < places }
        ensures drawn { result ≡ (next_u32 (N.stream self.old.random)).0 % places }
    {
        self.random.next_u32() % places
    }

    fn allocate<R: Wait>(&mut self, rt: &R) -> Option<Buffer<'r, J>> {
        let size = 1 + self.random.next_u32() % LARGEST;
        let buffer = self.heap.alloc(rt, size as usize).ok()?;
        self.keep(buffer)
    }

    fn give_back<R: Wait>(&mut self, rt: &R, buffer: Buffer<'r, J>) {
        self.heap.free(rt, buffer);
    }

    fn end<R: Wait>(self, rt: &R) -> WorkerResult<'r, T, S, J> {
        let RandomWorker {
            heap,
            random,
            worker: _,
            drops: _,
        } = self;
        drop(random);
        heap.end(rt)
    }
}
