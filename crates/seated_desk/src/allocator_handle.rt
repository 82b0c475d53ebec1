//! Where a program in C keeps one allocator of a pool.
ghost use Rattle.std.specs.Prelude.{◌≡◌, None};
ghost use Rattle.seated_desk.specs.Bursts.{Fills, OpensBurst, TakesBurst};
ghost use Rattle.seated_desk.specs.Handles.{LendsInto, TakesOut};
ghost use Rattle.seated_desk.specs.Stats.{Collects, Flushes, TellsStat};

use crate::buf_handle::BufHandle;
use crate::burst_handle::BurstHandle;
use crate::refusal::{Refusal, answer};
use crate::station::Station;

/// A handle, which holds one allocator of a pool or none. One thread uses it at a time.
///
/// Each call answers 0, or the number of a [`Refusal`]; `Empty` where it is not attached to a pool. After a refusal
/// all is as before, unless the call says otherwise.
#[derive(Drop)]
pub struct AllocatorHandle<'r> {
    pub(crate) station: Option<Station<'r>>,
}

impl<'r> AllocatorHandle<'r> {
    /// A handle that is not attached to a pool.
    pub fn new() -> AllocatorHandle<'r>
        ensures { result.station ≡ None }
    {
        AllocatorHandle { station: None }
    }

    /// Lends a buffer of at least `size` bytes into a handle that holds none: `TooLarge`, `UsedUp`, `NoChunk`,
    /// `NoMemory`, or `Holds`.
    #[inline(always)]
    pub fn alloc(&mut self, handle: &mut BufHandle<'r>, size: usize) -> u32
        ensures { LendsInto size result self.old self.new handle.old handle.new }
    {
        match &mut self.station {
            Some(station) => station.alloc(handle, size),
            None => Refusal::Empty.number(),
        }
    }

    /// Takes the handle's buffer back, which any allocator of its pool may have lent: `Empty` where it holds none,
    /// `Stranger` where it is another pool's.
    #[inline(always)]
    pub fn free(&mut self, handle: &mut BufHandle<'r>) -> u32
        ensures { TakesOut result self.old self.new handle.old handle.new }
    {
        match &mut self.station {
            Some(station) => answer(station.free(handle)),
            None => Refusal::Empty.number(),
        }
    }

    /// Opens a burst with room for `places` buffers of this allocator, in a handle that holds no buffer: `Holds`, or
    /// `NoMemory`.
    pub fn open(&mut self, burst: &mut BurstHandle<'r>, places: usize) -> u32
        ensures { OpensBurst places result self.old self.new burst.old burst.new }
    {
        match &mut self.station {
            Some(station) => answer(station.open(burst, places)),
            None => Refusal::Empty.number(),
        }
    }

    /// Lends `count` buffers of at least `size` bytes into a burst of this allocator: as `alloc`, `Stranger` where the
    /// burst is another allocator's or another pool's, or `Full`. What was lent before a refusal stays in the burst.
    pub fn fill(&mut self, burst: &mut BurstHandle<'r>, size: usize, count: usize) -> u32
        ensures { Fills size count result self.old self.new burst.old burst.new }
    {
        match &mut self.station {
            Some(station) => answer(station.fill(burst, size, count)),
            None => Refusal::Empty.number(),
        }
    }

    /// Takes back all buffers of a burst, which any allocator of the pool may have opened: `Empty` where it is not
    /// open, or `Stranger` where it is another pool's. It costs as much as one buffer does.
    pub fn free_all(&mut self, burst: &mut BurstHandle<'r>) -> u32
        ensures { TakesBurst result self.old self.new burst.old burst.new }
    {
        match &mut self.station {
            Some(station) => answer(station.free_all(burst)),
            None => Refusal::Empty.number(),
        }
    }

    /// Takes what came home, at most 64 batches, and no further one once 1,024 buffers came: 0 where a batch came, and
    /// `Empty` where none did.
    pub fn collect(&mut self) -> u32
        ensures { Collects result self.old self.new }
    {
        let Some(station) = &mut self.station else {
            return Refusal::Empty.number();
        };
        if station.take() == 0 {
            return Refusal::Empty.number();
        }
        0
    }

    /// Takes what came home, and posts all that is cached. What an inbox has no room for stays cached, and holds
    /// back nothing else.
    pub fn flush(&mut self) -> u32
        ensures { Flushes result self.old self.new }
    {
        let Some(station) = &mut self.station else {
            return Refusal::Empty.number();
        };
        station.take();
        station.post();
        0
    }

    /// A number about the allocator: 0 its own number, 1 buffers lent, 2 buffers freed here, 3 batches posted, 4 batches
    /// taken, 5 chunks drawn, 6 slots at home, 7 buffers cached, 8 bytes cached, 9 chunks in the region. The greatest
    /// number where it is not attached, and for any other `which`.
    pub fn stat(&mut self, which: u32) -> u64
        ensures { TellsStat which result self.old self.new }
    {
        match &self.station {
            Some(station) => station.stat(which),
            None => u64::MAX,
        }
    }
}
