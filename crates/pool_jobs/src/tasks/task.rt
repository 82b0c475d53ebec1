//! What a program does at a pool, in threads of its own.
use crate::tasks::channels::Channels;
use crate::tasks::heap::Heap;
use std::sync::Wait;
use std::time::Clock;

/// How many places an edge adds to its receiver's queue, where a task doesn't say otherwise.
pub const DEFAULT_BOUND: usize = 64;

/// What one thread of a program does, at an allocator of its own. A task's number is its place in the
/// list given to [`run`](crate::run), from 0.
///
/// The trait names no lifetime and no inbox, so that a thread may own a task. A task answers with a
/// value that holds no buffer: what it neither freed nor handed on is dropped, and its slot is lost
/// until the region's borrow ends.
pub trait Task: Drop {
    /// What it answers at its end, as a sum or a fault of its own.
    type Answer: Drop;

    /// What the task promises of its answer: nothing, where it doesn't say. `run` is proved to keep it,
    /// and who runs the tasks knows it of each answer.
    ghost gives: { Self → Self.Answer → Type 0 } = { λ _ _. Unit {0} };

    /// Whether it hands buffers or parcels to the task of this number. It is asked before any task runs.
    fn sends_to(&self, task: usize) -> bool;

    /// How many places the edge to the task of this number adds to that task's queue. All who send to it
    /// share the places, 1 to 1,048,576 in all, and a send waits while each has a message. Their memory is
    /// taken before any task runs.
    fn bound(&self, _task: usize) -> usize {
        DEFAULT_BOUND
    }

    /// Does the work. When it returns, by `?` too, the ends of its channels are closed: what is left in its
    /// queue is lost, and what others send to it comes back to them. So a task that fails first frees what
    /// comes ([`Channels::free_rest`]).
    fn run<H: Heap, R: Wait + Clock>(
        self,
        rt: &R,
        heap: &mut H,
        channels: Channels<H::Buffer, H::Parcel>,
    ) -> Self::Answer
        ensures promised { gives self result };
}
