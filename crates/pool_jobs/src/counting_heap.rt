//! A heap that counts how often it gave no buffer.
ghost use Rattle.std.specs.Prelude.{◌≡◌, ◌≢◌, ℕ, ◌<◌, ◌≤◌, ◌↔◌, ◌+◌, [], ◌∷◌, ◌++◌, map, replicate, IsTrue, IfErr, IfOk, IfSome, MatchResult};
ghost use Rattle.region_cut.specs.Classes.{size_of, largest_of};
ghost use Rattle.digit_route.specs.Profiles.{profile_of};
ghost use Rattle.slot_balance.specs.Limits.{most_taken};
ghost use Rattle.pool_jobs.specs.declared.error.PoolError.TheVariants.{TooLarge, UsedUp};
ghost use Rattle.slot_chain.specs.Counts.{capped};
ghost use Rattle.slot_chain.specs.Filling.{data_of};
ghost use Rattle.pool_jobs.specs.Bursts.{Fills, Reserves};
ghost use Rattle.pool_jobs.specs.Counted.{Counts, none_counted};
ghost use Rattle.pool_jobs.specs.Serving.{Keeps, SameDesk, Serves};

use crate::allocator::Allocator;
use crate::error::PoolError;
use crate::gate::Gate;
use crate::tally::WorkerCounts;
use crate::tasks::heap::Heap;
use batch_inbox::{Mail, Mailbox, Receiver, Sender};
use pool_fabric::{Buffer, HeldStation, Naming, Parcel};
use slot_chain::NoMemory;
use std::sync::Wait;
use std::time::{Clock, Duration};

/// What a worker gives back: its station, where the shelf didn't take it, and its counts.
#[derive(Drop)]
pub struct WorkerResult<'r, T: Receiver, S: Sender, J: Naming> {
    pub(crate) station: Option<HeldStation<'r, T, S, J>>,
    pub(crate) counts: WorkerCounts,
}

/// An allocator that counts how often it gave no buffer, as [`run`](crate::run) gives it to a task.
#[derive(Drop)]
pub struct CountingHeap<'a, 'r, M: Mailbox, T: Receiver, S: Sender, G: Gate, J: Naming> {
    allocator: Allocator<'a, 'r, M, T, S, G, J>,
    counts: WorkerCounts,
}

impl<'a, 'r, M: Mailbox, T: Receiver, S: Sender, G: Gate, J: Naming> CountingHeap<
    'a,
    'r,
    M,
    T,
    S,
    G,
    J,
> {
    /// Nothing is counted yet.
    pub(crate) fn new(
        allocator: Allocator<'a, 'r, M, T, S, G, J>,
    ) -> CountingHeap<'a, 'r, M, T, S, G, J>
        ensures same { result.allocator ≡ allocator.entry }
        ensures counts { result.counts ≡ none_counted }
    {
        CountingHeap {
            allocator,
            counts: WorkerCounts::none(),
        }
    }

    /// Drops a buffer, and counts it.
    pub(crate) fn lose(&mut self, buffer: Buffer<'r, J>)
        ensures same { self.new.allocator ≡ self.old.allocator }
        ensures counted { self.new.counts ≡ record self.old.counts { dropped = capped (self.old.counts.dropped + 1) } }
    {
        self.counts.dropped = self.counts.dropped.saturating_add(1);
        drop(buffer);
    }
}

impl<
    'a,
    'r,
    T: Receiver,
    S: Sender,
    M: Mail<'r, TakeSeat = T, SendSeat = S>,
    G: Gate,
    J: Naming,
> CountingHeap<'a, 'r, M, T, S, G, J> {
    /// Ends the work.
    pub(crate) fn end<R: Wait>(self, rt: &R) -> WorkerResult<'r, T, S, J>
        ensures counts { result.counts ≡ self.entry.counts }
        ensures station { IfSome result.station (λ s. Keeps J.names self.entry.allocator s) }
    {
        let CountingHeap { allocator, counts } = self;
        let station = allocator.retire(rt);
        WorkerResult { station, counts }
    }
}

impl<
    'a,
    'r,
    T: Receiver,
    S: Sender,
    M: Mail<'r, TakeSeat = T, SendSeat = S>,
    G: Gate,
    J: Naming,
> Heap for CountingHeap<'a, 'r, M, T, S, G, J> {
    ghost use Rattle.region_cut.specs.Classes.{largest_of};
    ghost use Rattle.digit_route.specs.Profiles.{profile_of};

    type Buffer = Buffer<'r, J>;

    type Parcel = Parcel<'r, J>;

    ghost largest = { λ _. largest_of (profile_of J.names.digits.bits) };

    fn largest_size(&self) -> usize {
        self.allocator.largest_size()
    }

    #[inline]
    fn alloc<R: Wait>(&mut self, rt: &R, size: usize) -> Result<Buffer<'r, J>, PoolError>
        ensures large_enough { IfOk result (λ b. size ≤ size_of b.class) }
        ensures empty { IfOk result (λ b. b.filled ≡ 0) }
        ensures too_large { (result ≡ Err TooLarge) ↔ (largest_of (profile_of J.names.digits.bits) < size) }
        ensures serves { Serves J.names self.old.allocator size result self.new.allocator }
        ensures counted { Counts self.old.counts result self.new.counts }
    {
        let answer = self.allocator.alloc(rt, size);
        self.counts.count(answer.is_ok());
        answer
    }

    #[inline]
    fn alloc_waiting<R: Wait + Clock>(
        &mut self,
        rt: &R,
        size: usize,
    ) -> Result<Buffer<'r, J>, PoolError>
        ensures large_enough { IfOk result (λ b. size ≤ size_of b.class) }
        ensures empty { IfOk result (λ b. b.filled ≡ 0) }
        ensures too_large { (result ≡ Err TooLarge) ↔ (largest_of (profile_of J.names.digits.bits) < size) }
        ensures waits { result ≢ Err UsedUp }
        ensures serves { Serves J.names self.old.allocator size result self.new.allocator }
        ensures counted { Counts self.old.counts result self.new.counts }
    {
        let answer = self.allocator.alloc_waiting(rt, size);
        self.counts.count(answer.is_ok());
        answer
    }

    fn alloc_within<R: Wait + Clock>(
        &mut self,
        rt: &R,
        size: usize,
        limit: Duration,
    ) -> Result<Buffer<'r, J>, PoolError>
        ensures large_enough { IfOk result (λ b. size ≤ size_of b.class) }
        ensures empty { IfOk result (λ b. b.filled ≡ 0) }
        ensures too_large { (result ≡ Err TooLarge) ↔ (largest_of (profile_of J.names.digits.bits) < size) }
        ensures serves { Serves J.names self.old.allocator size result self.new.allocator }
        ensures counted { Counts self.old.counts result self.new.counts }
    {
        let answer = self.allocator.alloc_within(rt, size, limit);
        self.counts.count(answer.is_ok());
        answer
    }

    #[inline]
    fn free<R: Wait>(&mut self, rt: &R, buffer: Buffer<'r, J>)
        ensures desk { SameDesk J.names self.old.allocator self.new.allocator }
        ensures lent { self.new.allocator.lent ≡ self.old.allocator.lent }
        ensures freed { self.new.allocator.freed ≡ self.old.allocator.freed ++ buffer.entry ∷ [] }
        ensures counted { self.new.counts ≡ self.old.counts }
    {
        self.allocator.free(rt, buffer);
    }

    fn parcel(&mut self, places: usize) -> Result<Parcel<'r, J>, NoMemory>
        ensures places { IfOk result (λ p. places ≤ p.places) }
        ensures empty { IfOk result (λ p. map data_of p.items ≡ []) }
        ensures same { self.new ≡ self.old }
    {
        self.allocator.parcel(places)
    }

    #[inline]
    #[tactic(auto, using(crate::proofs::Bursts::filled_fillings, crate::proofs::Bursts::filled_most, crate::proofs::Bursts::filled_places, crate::proofs::Largest::filled_largest))]
    fn fill<R: Wait>(
        &mut self,
        rt: &R,
        parcel: &mut Parcel<'r, J>,
        size: usize,
        count: usize,
    ) -> Result<usize, PoolError>
        ensures fillings { MatchResult result
            (λ n. map data_of parcel.new.items ≡ map data_of parcel.old.items ++ replicate n [])
            (λ _. map data_of parcel.new.items ≡ map data_of parcel.old.items) }
        ensures most { IfOk result (λ n. n ≤ count) }
        ensures places { parcel.new.places ≡ parcel.old.places }
        ensures too_large { (result ≡ Err TooLarge) ↔ (largest_of (profile_of J.names.digits.bits) < size) }
        ensures fills { Fills J.names self.old.allocator size count parcel.old result self.new.allocator parcel.new }
        ensures counted { Counts self.old.counts result self.new.counts }
    {
        let answer = self.allocator.fill(rt, parcel, size, count);
        self.counts.count(answer.is_ok());
        answer
    }

    #[tactic(auto, using(crate::proofs::Bursts::filled_fillings, crate::proofs::Bursts::filled_most, crate::proofs::Bursts::filled_places, crate::proofs::Largest::filled_largest))]
    fn fill_waiting<R: Wait + Clock>(
        &mut self,
        rt: &R,
        parcel: &mut Parcel<'r, J>,
        size: usize,
        count: usize,
    ) -> Result<usize, PoolError>
        ensures fillings { MatchResult result
            (λ n. map data_of parcel.new.items ≡ map data_of parcel.old.items ++ replicate n [])
            (λ _. map data_of parcel.new.items ≡ map data_of parcel.old.items) }
        ensures most { IfOk result (λ n. n ≤ count) }
        ensures places { parcel.new.places ≡ parcel.old.places }
        ensures too_large { (result ≡ Err TooLarge) ↔ (largest_of (profile_of J.names.digits.bits) < size) }
        ensures waits { result ≢ Err UsedUp }
        ensures fills { Fills J.names self.old.allocator size count parcel.old result self.new.allocator parcel.new }
        ensures counted { Counts self.old.counts result self.new.counts }
    {
        let answer = self.allocator.fill_waiting(rt, parcel, size, count);
        self.counts.count(answer.is_ok());
        answer
    }

    fn reserve<R: Wait>(&mut self, rt: &R, size: usize, count: usize) -> Result<(), PoolError>
        ensures all { IfOk result (λ _. Reserves J.names self.old.allocator size count self.new.allocator) }
        ensures some { IfErr result (λ _. (k : ℕ) × Reserves J.names self.old.allocator size k self.new.allocator) }
        ensures too_large { (result ≡ Err TooLarge) ↔ (largest_of (profile_of J.names.digits.bits) < size) }
        ensures counted { Counts self.old.counts result self.new.counts }
    {
        let answer = self.allocator.reserve(rt, size, count);
        self.counts.count(answer.is_ok());
        answer
    }

    #[inline]
    fn free_all<R: Wait>(&mut self, rt: &R, parcel: Parcel<'r, J>)
        ensures desk { SameDesk J.names self.old.allocator self.new.allocator }
        ensures lent { self.new.allocator.lent ≡ self.old.allocator.lent }
        ensures freed { self.new.allocator.freed ≡ self.old.allocator.freed ++ parcel.entry.items }
        ensures counted { self.new.counts ≡ self.old.counts }
    {
        self.allocator.free_all(rt, parcel);
    }

    fn flush<R: Wait>(&mut self, rt: &R) -> bool
        ensures keeps { Keeps J.names self.old.allocator self.new.allocator }
        ensures all { IsTrue result → self.new.allocator.desk.cached ≡ [] }
        ensures counted { self.new.counts ≡ self.old.counts }
    {
        self.allocator.flush(rt)
    }

    fn collect<R: Wait>(&mut self, rt: &R) -> u32
        ensures keeps { Keeps J.names self.old.allocator self.new.allocator }
        ensures most { result ≤ most_taken }
        ensures counted { self.new.counts ≡ self.old.counts }
    {
        self.allocator.collect(rt)
    }
}
