//! What an accepted request is answered.
use region_cut::Slot;

/// What an accepted request gives.
#[derive(Clone, Copy, Debug, PartialEq, Eq)]
pub enum Reply {
    /// The desk is held, or idle again, or the batch is linked.
    Done,
    /// The chunk of this number was drawn.
    Chunk(u16),
    /// The buffer of this slot was lent.
    Slot(Slot),
    /// The buffer is at home again.
    Home,
    /// The buffer is in the cache of the desk that it was handed to.
    Cached,
    /// The same, and that cache now has more bytes than the pool's limit.
    Due,
    /// A batch of this number waits to be linked, and it has so many buffers.
    Batch(u32, u64),
    /// So many buffers of the batch came home, and so many are passed on.
    Counts(u64, u64),
}
