//! What a task sees of its allocator. These traits name no lifetime, so a thread may run over them.
ghost use Rattle.std.specs.Prelude.{◌≡◌, ◌≢◌, ◌+◌, ◌<◌, ◌≤◌, ◌↔◌, [], ◌++◌, replicate, IfOk, MatchResult};
ghost use Rattle.pool_jobs.specs.declared.error.PoolError.TheVariants.{TooLarge, UsedUp};

use crate::buffers::burst::Burst;
use crate::buffers::bytes::Bytes;
use crate::error::PoolError;
use slot_chain::NoMemory;
use std::sync::Wait;
use std::time::{Clock, Duration};

/// An allocator in the hands of a task.
pub trait Heap: Drop {
    ghost use Rattle.std.specs.Prelude.{ℕ};

    type Buffer: Bytes;

    type Parcel: Burst<Self::Buffer>;

    /// The greatest size that it gives.
    ghost largest: { Self → ℕ };

    /// The greatest size in bytes that [`Heap::alloc`] lends: 512, or 1,024 where the pool has the larger
    /// profile.
    fn largest_size(&self) -> usize
        ensures { result ≡ largest self.now };

    /// A buffer of at least `size` bytes, of which nothing is filled. It doesn't wait for a slot.
    ///
    /// It answers [`PoolError::TooLarge`] exactly where no class has as many. [`PoolError::UsedUp`]: this
    /// heap has no slot of the class, none came, and every chunk is drawn. [`PoolError::NoChunk`]: the same,
    /// and it never drew a chunk for the class, so that no slot of it will ever come.
    /// [`PoolError::NoMemory`]: the system refused the memory for a slot's first use.
    fn alloc<R: Wait>(&mut self, rt: &R, size: usize) -> Result<Self::Buffer, PoolError>
        ensures large_enough { IfOk result (λ b. size ≤ Self.Buffer.size b) }
        ensures empty { IfOk result (λ b. Self.Buffer.filled b ≡ 0) }
        ensures too_large { (result ≡ Err TooLarge) ↔ (largest self.old < size) }
        ensures largest { largest self.new ≡ largest self.old };

    /// Lends a buffer as [`Heap::alloc`] does, and where the pool is used up it waits until a slot comes
    /// home, so that it never answers [`PoolError::UsedUp`]. It posts what it keeps of others, takes what
    /// came, yields, and then sleeps, so that it uses little of a core.
    ///
    /// It doesn't wait where no slot can ever come ([`PoolError::NoChunk`]). A task that waits while it
    /// holds back what others need can wait for ever, as one does that waits for more buffers than the
    /// pool has. Buffers in messages that it didn't receive yet are held back by
    /// it too: it doesn't look there while it waits.
    fn alloc_waiting<R: Wait + Clock>(
        &mut self,
        rt: &R,
        size: usize,
    ) -> Result<Self::Buffer, PoolError>
        ensures large_enough { IfOk result (λ b. size ≤ Self.Buffer.size b) }
        ensures empty { IfOk result (λ b. Self.Buffer.filled b ≡ 0) }
        ensures too_large { (result ≡ Err TooLarge) ↔ (largest self.old < size) }
        ensures waits { result ≢ Err UsedUp }
        ensures largest { largest self.new ≡ largest self.old };

    /// Lends a buffer as [`Heap::alloc_waiting`] does, but waits at most `limit`, plus up to a millisecond.
    /// Then it answers [`PoolError::UsedUp`]. Where the clock can't be read it doesn't wait.
    fn alloc_within<R: Wait + Clock>(
        &mut self,
        rt: &R,
        size: usize,
        limit: Duration,
    ) -> Result<Self::Buffer, PoolError>
        ensures large_enough { IfOk result (λ b. size ≤ Self.Buffer.size b) }
        ensures empty { IfOk result (λ b. Self.Buffer.filled b ≡ 0) }
        ensures too_large { (result ≡ Err TooLarge) ↔ (largest self.old < size) }
        ensures largest { largest self.new ≡ largest self.old };

    /// Takes a buffer back, whichever allocator of the pool lent it. An own one can be lent again at once.
    /// Another's is cached here, and all that is cached is posted once that is more than the pool's limit, and
    /// at the latest after 1,024 buffers that were freed here.
    /// It doesn't wait for other tasks, and can't fail.
    fn free<R: Wait>(&mut self, rt: &R, buffer: Self::Buffer);

    /// An empty parcel for buffers that this allocator lends, with room for at least so many. It takes no
    /// others: a task can't repack what it received. [`NoMemory`]: no kept array is large enough (as many
    /// are kept as were made, each for at most 256 buffers), and the system refused memory for one.
    fn parcel(&mut self, places: usize) -> Result<Self::Parcel, NoMemory>
        ensures places { IfOk result (λ p. places ≤ Self.Parcel.places p) }
        ensures empty { IfOk result (λ p. Self.Parcel.fillings p ≡ []) }
        ensures largest { largest self.new ≡ largest self.old };

    /// Lends up to `count` buffers of at least `size` bytes, all of one size class, to the end of a parcel
    /// of this heap, by one call, and says how many it lent. Nothing of them is filled:
    /// [`Burst::edit_at`] writes them, and [`Burst::set_len_at`] says how much counts.
    ///
    /// It lends fewer than `count` where the parcel has fewer places, the pool has no more slots for now, or
    /// the system refuses memory after the first one; and 0 only where `count` is 0, the parcel has no
    /// place, or another heap made it. An error is that of [`Heap::alloc`], and comes only where not one
    /// buffer was lent.
    fn fill<R: Wait>(
        &mut self,
        rt: &R,
        parcel: &mut Self::Parcel,
        size: usize,
        count: usize,
    ) -> Result<usize, PoolError>
        ensures fillings { MatchResult result
            (λ n. Self.Parcel.fillings parcel.new ≡ Self.Parcel.fillings parcel.old ++ replicate n [])
            (λ _. Self.Parcel.fillings parcel.new ≡ Self.Parcel.fillings parcel.old) }
        ensures most { IfOk result (λ n. n ≤ count) }
        ensures places { Self.Parcel.places parcel.new ≡ Self.Parcel.places parcel.old }
        ensures too_large { (result ≡ Err TooLarge) ↔ (largest self.old < size) }
        ensures largest { largest self.new ≡ largest self.old };

    /// Lends buffers as [`Heap::fill`] does, and where the pool is used up it waits for the next slot, as
    /// [`Heap::alloc_waiting`] does. So it lends `count` buffers, or as many as the parcel takes; fewer only
    /// where the system refuses memory after the first one.
    fn fill_waiting<R: Wait + Clock>(
        &mut self,
        rt: &R,
        parcel: &mut Self::Parcel,
        size: usize,
        count: usize,
    ) -> Result<usize, PoolError>
        ensures fillings { MatchResult result
            (λ n. Self.Parcel.fillings parcel.new ≡ Self.Parcel.fillings parcel.old ++ replicate n [])
            (λ _. Self.Parcel.fillings parcel.new ≡ Self.Parcel.fillings parcel.old) }
        ensures most { IfOk result (λ n. n ≤ count) }
        ensures places { Self.Parcel.places parcel.new ≡ Self.Parcel.places parcel.old }
        ensures too_large { (result ≡ Err TooLarge) ↔ (largest self.old < size) }
        ensures waits { result ≢ Err UsedUp }
        ensures largest { largest self.new ≡ largest self.old };

    /// Makes `count` slots for buffers of at least `size` bytes ready: it lends them all at once, which draws
    /// chunks and takes the memory for their first use, and takes them back. These slots stay with this heap, so that
    /// it can lend as many of the size, whatever other tasks hold. To be called for each size before the first
    /// buffer.
    ///
    /// [`PoolError::TooLarge`] and [`PoolError::NoChunk`] are those of [`Heap::alloc`].
    /// [`PoolError::NoMemory`]: the system refused the memory for an array of `count` pointers, or for the first
    /// slot. [`PoolError::UsedUp`]: there are fewer slots for now, or memory for fewer; these are ready.
    fn reserve<R: Wait>(&mut self, rt: &R, size: usize, count: usize) -> Result<(), PoolError>
        ensures too_large { (result ≡ Err TooLarge) ↔ (largest self.old < size) }
        ensures largest { largest self.new ≡ largest self.old };

    /// Takes all buffers of a parcel back, whichever allocator of the pool made it, as [`Heap::free`] does
    /// one. Of another's parcel no buffer is looked at, but for the first few that a task frees.
    fn free_all<R: Wait>(&mut self, rt: &R, parcel: Self::Parcel);

    /// Posts all of others' buffers that are cached here, so that they come home, and says whether all
    /// went. To be called before a task waits for others: they may need those slots.
    fn flush<R: Wait>(&mut self, rt: &R) -> bool
        ensures largest { largest self.new ≡ largest self.old };

    /// Takes what came home, at most 64 batches, and no further one once 1,024 buffers came. Says how many it
    /// took.
    fn collect<R: Wait>(&mut self, rt: &R) -> u32
        ensures largest { largest self.new ≡ largest self.old };
}
