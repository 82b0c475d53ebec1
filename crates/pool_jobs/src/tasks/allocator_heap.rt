//! An allocator as the heap of a task.
ghost use Rattle.std.specs.Prelude.{◌≡◌, ◌≢◌, ℕ, ◌<◌, ◌≤◌, ◌↔◌, [], ◌∷◌, ◌++◌, map, replicate, IsTrue, IfErr, IfOk, MatchResult};
ghost use Rattle.region_cut.specs.Classes.{size_of, largest_of};
ghost use Rattle.digit_route.specs.Profiles.{profile_of};
ghost use Rattle.slot_chain.specs.Filling.{data_of};
ghost use Rattle.slot_balance.specs.Limits.{most_taken};
ghost use Rattle.pool_jobs.specs.Bursts.{Fills, Reserves};
ghost use Rattle.pool_jobs.specs.Serving.{Keeps, SameDesk, Serves};
ghost use Rattle.pool_jobs.specs.declared.error.PoolError.TheVariants.{TooLarge, UsedUp};

use crate::allocator::Allocator;
use crate::error::PoolError;
use crate::gate::Gate;
use crate::tasks::heap::Heap;
use batch_inbox::{Mail, Receiver, Sender};
use pool_fabric::{Buffer, Naming, Parcel};
use slot_chain::NoMemory;
use std::sync::Wait;
use std::time::{Clock, Duration};

impl<
    'a,
    'r,
    T: Receiver,
    S: Sender,
    M: Mail<'r, TakeSeat = T, SendSeat = S>,
    G: Gate,
    J: Naming,
> Heap for Allocator<'a, 'r, M, T, S, G, J> {
    ghost use Rattle.region_cut.specs.Classes.{largest_of};
    ghost use Rattle.digit_route.specs.Profiles.{profile_of};

    type Buffer = Buffer<'r, J>;

    type Parcel = Parcel<'r, J>;

    ghost largest = { λ _. largest_of (profile_of J.names.digits.bits) };

    fn largest_size(&self) -> usize {
        self.largest_size()
    }

    #[inline]
    fn alloc<R: Wait>(&mut self, rt: &R, size: usize) -> Result<Buffer<'r, J>, PoolError>
        ensures large_enough { IfOk result (λ b. size ≤ size_of b.class) }
        ensures empty { IfOk result (λ b. b.filled ≡ 0) }
        ensures too_large { (result ≡ Err TooLarge) ↔ (largest_of (profile_of J.names.digits.bits) < size) }
        ensures serves { Serves J.names self.old size result self.new }
    {
        self.alloc(rt, size)
    }

    #[inline]
    fn alloc_waiting<R: Wait + Clock>(
        &mut self,
        rt: &R,
        size: usize,
    ) -> Result<Buffer<'r, J>, PoolError>
        ensures large_enough { IfOk result (λ b. size ≤ size_of b.class) }
        ensures empty { IfOk result (λ b. b.filled ≡ 0) }
        ensures too_large { (result ≡ Err TooLarge) ↔ (largest_of (profile_of J.names.digits.bits) < size) }
        ensures waits { result ≢ Err UsedUp }
        ensures serves { Serves J.names self.old size result self.new }
    {
        self.alloc_waiting(rt, size)
    }

    fn alloc_within<R: Wait + Clock>(
        &mut self,
        rt: &R,
        size: usize,
        limit: Duration,
    ) -> Result<Buffer<'r, J>, PoolError>
        ensures large_enough { IfOk result (λ b. size ≤ size_of b.class) }
        ensures empty { IfOk result (λ b. b.filled ≡ 0) }
        ensures too_large { (result ≡ Err TooLarge) ↔ (largest_of (profile_of J.names.digits.bits) < size) }
        ensures serves { Serves J.names self.old size result self.new }
    {
        self.alloc_within(rt, size, limit)
    }

    fn parcel(&mut self, places: usize) -> Result<Parcel<'r, J>, NoMemory>
        ensures places { IfOk result (λ p. places ≤ p.places) }
        ensures empty { IfOk result (λ p. map data_of p.items ≡ []) }
        ensures same { self.new ≡ self.old }
    {
        self.parcel(places)
    }

    #[inline]
    #[tactic(auto, using(crate::proofs::Bursts::filled_fillings, crate::proofs::Bursts::filled_most, crate::proofs::Bursts::filled_places, crate::proofs::Largest::filled_largest))]
    fn fill<R: Wait>(
        &mut self,
        rt: &R,
        parcel: &mut Parcel<'r, J>,
        size: usize,
        count: usize,
    ) -> Result<usize, PoolError>
        ensures fillings { MatchResult result
            (λ n. map data_of parcel.new.items ≡ map data_of parcel.old.items ++ replicate n [])
            (λ _. map data_of parcel.new.items ≡ map data_of parcel.old.items) }
        ensures most { IfOk result (λ n. n ≤ count) }
        ensures places { parcel.new.places ≡ parcel.old.places }
        ensures too_large { (result ≡ Err TooLarge) ↔ (largest_of (profile_of J.names.digits.bits) < size) }
        ensures fills { Fills J.names self.old size count parcel.old result self.new parcel.new }
    {
        self.fill(rt, parcel, size, count)
    }

    #[tactic(auto, using(crate::proofs::Bursts::filled_fillings, crate::proofs::Bursts::filled_most, crate::proofs::Bursts::filled_places, crate::proofs::Largest::filled_largest))]
    fn fill_waiting<R: Wait + Clock>(
        &mut self,
        rt: &R,
        parcel: &mut Parcel<'r, J>,
        size: usize,
        count: usize,
    ) -> Result<usize, PoolError>
        ensures fillings { MatchResult result
            (λ n. map data_of parcel.new.items ≡ map data_of parcel.old.items ++ replicate n [])
            (λ _. map data_of parcel.new.items ≡ map data_of parcel.old.items) }
        ensures most { IfOk result (λ n. n ≤ count) }
        ensures places { parcel.new.places ≡ parcel.old.places }
        ensures too_large { (result ≡ Err TooLarge) ↔ (largest_of (profile_of J.names.digits.bits) < size) }
        ensures waits { result ≢ Err UsedUp }
        ensures fills { Fills J.names self.old size count parcel.old result self.new parcel.new }
    {
        self.fill_waiting(rt, parcel, size, count)
    }

    fn reserve<R: Wait>(&mut self, rt: &R, size: usize, count: usize) -> Result<(), PoolError>
        ensures all { IfOk result (λ _. Reserves J.names self.old size count self.new) }
        ensures some { IfErr result (λ _. (k : ℕ) × Reserves J.names self.old size k self.new) }
        ensures too_large { (result ≡ Err TooLarge) ↔ (largest_of (profile_of J.names.digits.bits) < size) }
    {
        self.reserve(rt, size, count)
    }

    #[inline]
    fn free_all<R: Wait>(&mut self, rt: &R, parcel: Parcel<'r, J>)
        ensures desk { SameDesk J.names self.old self.new }
        ensures lent { self.new.lent ≡ self.old.lent }
        ensures freed { self.new.freed ≡ self.old.freed ++ parcel.entry.items }
    {
        self.free_all(rt, parcel);
    }

    #[inline]
    fn free<R: Wait>(&mut self, rt: &R, buffer: Buffer<'r, J>)
        ensures desk { SameDesk J.names self.old self.new }
        ensures lent { self.new.lent ≡ self.old.lent }
        ensures freed { self.new.freed ≡ self.old.freed ++ buffer.entry ∷ [] }
    {
        self.free(rt, buffer);
    }

    fn flush<R: Wait>(&mut self, rt: &R) -> bool
        ensures keeps { Keeps J.names self.old self.new }
        ensures all { IsTrue result → self.new.desk.cached ≡ [] }
    {
        self.flush(rt)
    }

    fn collect<R: Wait>(&mut self, rt: &R) -> u32
        ensures keeps { Keeps J.names self.old self.new }
        ensures most { result ≤ most_taken }
    {
        self.collect(rt)
    }
}
