//! What a program in C holds of a pool: allocators, buffers, bursts of them, and the pool itself.
//!
//! C owns the storage of these values and hands them from thread to thread. So each of them is whole at any time: a
//! handle holds one thing or none, and a call that has nothing to do answers a number and leaves all as it was. No
//! call waits for another thread, and none needs a handle of the runtime.
//!
//! [`AllocatorHandle`] is what one thread allocates and frees at. [`BufHandle`] holds a buffer, [`BurstHandle`]
//! buffers that are freed as a whole, and [`Pool`] the allocators that no thread holds.
#![tactic(auto)]

mod allocator_handle;
mod buf_handle;
mod burst_handle;
pub mod crossing;
mod freeing;
mod lending;
mod moving;
mod opening;
mod pool;
mod refusal;
mod settled;
mod span;
mod start;
mod station;

pub use allocator_handle::AllocatorHandle;
pub use buf_handle::BufHandle;
pub use burst_handle::BurstHandle;
pub use pool::Pool;
pub use refusal::Refusal;
pub use span::Span;
