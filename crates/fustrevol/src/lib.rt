//! A pool of buffers for programs whose producers allocate and whose consumers free.
//!
//! A program lends a [`Pool`] one region of bytes, and runs its [`Task`]s over it, each in a thread of
//! its own with an allocator of its own ([`Heap`]). A task fills buffers ([`Bytes`]), packs them into
//! parcels ([`Burst`]), and hands them to other tasks over edges that hold a bounded number of messages
//! ([`Channels`]). A buffer that another thread frees goes home by messages, without a copy and without
//! a lock. When all tasks have ended, every slot is accounted for.
//!
//! A program imports [`Heap`] for its allocator, [`Bytes`] for buffers, [`Burst`] for parcels, and [`Data`]
//! for the buffers in a parcel.
//!
//! This crate has what a program names; `pool_jobs` and the crates below it have the parts.
#![tactic(auto)]

pub mod own_threads;
mod pool;

pub use digit_route::Digits;
pub use pool::{InboxKind, LARGEST_DEFAULT_LIMIT, LARGEST_LIMIT, Pool};
pub use pool_fabric::Found;
pub use pool_jobs::{
    Allocator, Buffer, BufferCounts, Burst, Bytes, Channels, DEFAULT_BOUND, Data, Heap, JobError,
    Message, Parcel, PoolError, RunReport, Tally, Task, Unsent,
};
pub use region_cut::{CHUNK, CutError, MAX_CHUNKS, Slot};
pub use slot_audit::Fault;
pub use slot_chain::{Full, NoMemory};

/// A task's ends of its edges. Each message is a buffer or a parcel, of the types of its allocator `H`.
pub type Edges<H> = Channels<<H as Heap>::Buffer, <H as Heap>::Parcel>;
