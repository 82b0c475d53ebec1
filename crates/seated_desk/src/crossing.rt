//! That each value which C keeps may go to another thread: its type is `Send`.
use crate::allocator_handle::AllocatorHandle;
use crate::buf_handle::BufHandle;
use crate::burst_handle::BurstHandle;
use crate::pool::Pool;

// What a thread takes over.
fn crosses<T: Send + Drop>(value: T) {
    drop(value);
}

/// An allocator goes.
pub fn allocator_crosses(allocator: AllocatorHandle<'_>) {
    crosses(allocator);
}

/// A buffer's handle goes.
pub fn buf_crosses(buf: BufHandle<'_>) {
    crosses(buf);
}

/// A burst goes.
pub fn burst_crosses(burst: BurstHandle<'_>) {
    crosses(burst);
}

/// A pool goes.
pub fn pool_crosses(pool: Pool<'_>) {
    crosses(pool);
}
