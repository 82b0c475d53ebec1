//! A pool: its allocators that no thread holds.
ghost use Rattle.std.specs.Prelude.{◌≡◌, ◌≤◌, [], IfOk, length};
ghost use Rattle.region_cut.specs.Limits.{chunk_limit};
ghost use Rattle.chunk_stock.specs.Rule.{AreNumbered};
ghost use Rattle.seated_desk.specs.Answers.{answer_of};
ghost use Rattle.seated_desk.specs.Shelves.{Closes, HandsOut, Opens, TakesBack};
ghost use Rattle.seated_desk.specs.Stats.{TellsPoolStat};

use crate::allocator_handle::AllocatorHandle;
use crate::opening::{Profile, stations};
use crate::refusal::{Refusal, answer};
use crate::settled::{judge, settle};
use crate::station::Station;
use chunk_stock::drawers;
use digit_route::Digits;
use region_cut::{CutError, Part, cut};
use slot_audit::Fault;
use slot_chain::NoMemory;
use std::alloc::Global;
use std::mem;

// The greatest limit of a cache, in bytes.
const LARGEST_LIMIT: u64 = 1048576;

// What a fault's number is added to.
const FAULTS_FROM: u32 = 100;

/// A pool: its allocators that no thread holds, and what its last audit said.
///
/// Calls on a pool are made one at a time. Each answers 0, or the number of a [`Refusal`].
#[derive(Drop)]
pub struct Pool<'r> {
    pub(crate) alloc: Global,
    pub(crate) shelf: Vec<Station<'r>>,
    pub(crate) allocators: u16,
    // By which its allocators and buffers know it.
    pub(crate) number: u64,
    // The slot that the last audit named: its chunk times 256, and its index.
    pub(crate) fault: u64,
}

// The chunks of a region: from 1 to 1,024.
fn parts_of<'r>(alloc: Global, region: &'r mut [u8]) -> Result<Vec<Part<'r>>, Refusal>
    ensures { IfOk result (λ parts. AreNumbered parts.items × (length parts.items ≤ chunk_limit)) }
{
    match cut(alloc, region) {
        Ok(parts) if !parts.is_empty() => Ok(parts),
        Err(CutError::NoMemory) => Err(Refusal::NoMemory),
        _ => Err(Refusal::BadArgument),
    }
}

// Which slot a fault names: its chunk times 256, and its index.
fn slot_named(fault: Fault) -> u64 {
    match fault {
        Fault::Stranger(slot) | Fault::Doubled(slot) | Fault::Missing(slot) => {
            slot.chunk as u64 * 256 + slot.index as u64
        }
        Fault::NoMemory => 0,
    }
}

impl<'r> Pool<'r> {
    /// A pool that is not open. Its memory will come from the C library.
    pub fn new(alloc: Global) -> Pool<'r>
        ensures { (result.allocators ≡ 0) × (result.shelf.items ≡ []) × (result.number ≡ 0) × (result.fault ≡ 0) }
    {
        Pool {
            alloc,
            shelf: Vec::new(alloc),
            allocators: 0,
            number: 0,
            fault: 0,
        }
    }

    /// Opens the pool over a region, which is cut into chunks of 4,096 bytes, with 1 to 64 allocators. Their numbers are
    /// read in digits of `bits` bits, 1 to 6. Each posts what it cached once that is more than `limit` bytes, of which
    /// 1,048,576 are the most. `number` is the pool's own: by it an allocator tells a buffer of another pool.
    /// `Holds` where it is open, `BadArgument`, or `NoMemory`.
    ///
    /// It takes memory for 16 nodes for each two allocators, some 100 bytes each.
    pub fn open(
        &mut self,
        region: &'r mut [u8],
        allocators: u32,
        bits: u32,
        limit: u64,
        number: u64,
    ) -> u32
        ensures { Opens number result self.old self.new }
    {
        answer(self.open_over(region, allocators, bits, limit, number))
    }

    fn open_over(
        &mut self,
        region: &'r mut [u8],
        allocators: u32,
        bits: u32,
        limit: u64,
        number: u64,
    ) -> Result<(), Refusal>
        ensures { Opens number (answer_of result) self.old self.new }
    {
        if self.allocators > 0 {
            return Err(Refusal::Holds);
        }
        if allocators < 1 || allocators > 64 || limit > LARGEST_LIMIT {
            return Err(Refusal::BadArgument);
        }
        let Some(digits) = Digits::new(bits) else {
            return Err(Refusal::BadArgument);
        };
        let parts = parts_of(self.alloc, region)?;
        let Ok(drawers) = drawers(self.alloc, parts, allocators as usize) else {
            return Err(Refusal::NoMemory);
        };
        let desks = allocators as u16;
        let profile = Profile {
            pool: number,
            digits,
            limit,
        };
        let Ok(shelf) = stations(self.alloc, profile, drawers, desks) else {
            return Err(Refusal::NoMemory);
        };
        self.shelf = shelf;
        self.allocators = desks;
        self.number = number;
        Ok(())
    }

    /// Hands an allocator out, into a handle that is not attached: `Holds`, or `Empty` where all are out.
    pub fn attach(&mut self, allocator: &mut AllocatorHandle<'r>) -> u32
        ensures { HandsOut result self.old self.new allocator.old allocator.new }
    {
        if allocator.station.is_some() {
            return Refusal::Holds.number();
        }
        match self.shelf.pop() {
            Some(station) => {
                allocator.station = Some(station);
                0
            }
            None => Refusal::Empty.number(),
        }
    }

    /// Takes an allocator back, once it has taken what came and posted what it can: `Empty` where the handle is not
    /// attached, `Stranger` where it is another pool's.
    pub fn detach(&mut self, allocator: &mut AllocatorHandle<'r>) -> u32
        ensures { TakesBack result self.old self.new allocator.old allocator.new }
    {
        let Some(held) = &allocator.station else {
            return Refusal::Empty.number();
        };
        if held.pool != self.number || self.shelf.len() >= self.allocators as usize {
            return Refusal::Stranger.number();
        }
        let Some(mut station) = mem::replace(&mut allocator.station, None) else {
            return Refusal::Empty.number();
        };
        station.take();
        station.post();
        match self.shelf.push(station) {
            Ok(()) => 0,
            Err(failed) => {
                allocator.station = Some(failed.value);
                Refusal::NoMemory.number()
            }
        }
    }

    /// Ends the pool, once all its allocators are back: what was freed goes home, and an audit says whether each slot of
    /// each chunk that was drawn is there, once. `Empty` where it is not open, `Full` where an allocator is out. Else
    /// the pool is closed: 0 where nothing is wrong, and 100 with the fault's number where something is.
    pub fn close(&mut self) -> u32
        ensures { Closes result self.old self.new }
    {
        if self.allocators == 0 {
            return Refusal::Empty.number();
        }
        if self.shelf.len() < self.allocators as usize {
            return Refusal::Full.number();
        }
        settle(self.shelf.as_mut_slice());
        let outcome = judge(self.alloc, self.shelf.as_slice());
        self.shelf = Vec::new(self.alloc);
        self.allocators = 0;
        match outcome {
            Ok(()) => 0,
            Err(fault) => {
                self.fault = slot_named(fault);
                fault.number() + FAULTS_FROM
            }
        }
    }

    /// A number about the pool: 0 its allocators, 1 those that are here, 2 the slot that the last fault named, as 256
    /// times its chunk and its index. The greatest number for any other `which`.
    pub fn stat(&mut self, which: u32) -> u64
        ensures { TellsPoolStat which result self.old self.new }
    {
        match which {
            0 => self.allocators as u64,
            1 => self.shelf.len() as u64,
            2 => self.fault,
            _ => u64::MAX,
        }
    }
}
