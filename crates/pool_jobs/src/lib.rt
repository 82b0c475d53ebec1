//! Workers that share a pool, in threads.
//!
//! A worker allocates and frees at an [`Allocator`] of its own. As in snmalloc ("snmalloc: A Message
//! Passing Allocator", ISMM 2019) a buffer that a stranger frees goes home by messages, which the
//! allocator posts when enough are cached, and takes from time to time and when it has no slot left. When
//! all workers have ended, all that is found is accounted for: nothing is lost.
#![tactic(auto)]

mod allocator;
mod buffers;
mod counting_heap;
mod crew;
mod crew_result;
pub mod crossing;
mod entrance;
mod error;
mod filling;
mod gate;
mod over_inbox;
mod over_link;
mod report;
mod tally;
mod tasks;
mod waiting;
mod workloads;

pub use allocator::Allocator;
pub use buffers::burst::Burst;
pub use buffers::bytes::Bytes;
pub use buffers::data::Data;
pub use entrance::Entrance;
pub use error::{JobError, PoolError};
pub use gate::{Gate, NoGate};
pub use over_inbox::{run, work};
pub use over_link::{run_linked, work_linked};
pub use pool_fabric::{Buffer, Parcel};
pub use report::{RunReport, WorkReport, settle};
pub use tally::{BufferCounts, Tally};
pub use tasks::channels::{Channels, Message, Unsent};
pub use tasks::heap::Heap;
pub use tasks::task::{DEFAULT_BOUND, Task};
pub use workloads::plan::{MOST_BUFFERS, MOST_ROUNDS, MOST_THREADS, Plan};
pub use workloads::workload::Workload;
