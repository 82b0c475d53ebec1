//! Parcels that are filled by one call.
ghost use Rattle.std.specs.Prelude.{◌≡◌, ◌≢◌, ℕ, ◌+◌, ◌≤◌, ◌<◌, ◌⊎◌, ◌↔◌, length, IsTrue, IfOk, IfErr, MatchResult};
ghost use Rattle.pool_jobs.specs.Bursts.{Fills, LendsInto, Reserves, WantsNoSlot};
ghost use Rattle.pool_jobs.specs.Serving.{HasNoMore, IsClassFor, Keeps, ServesClass};
ghost use Rattle.region_cut.specs.Classes.{classes_of, largest_of};
ghost use Rattle.digit_route.specs.Profiles.{profile_of};
ghost use Rattle.pool_jobs.specs.declared.error.PoolError.TheVariants.{NoChunk, TooLarge, UsedUp};

use crate::allocator::{Allocator, recall};
use crate::error::PoolError;
use crate::gate::Gate;
use crate::waiting::Pauses;
use batch_inbox::{Mail, Receiver, Sender};
use pool_fabric::{Naming, Parcel};
use region_cut::Class;
use std::sync::Wait;
use std::time::Clock;

impl<
    'a,
    'r,
    T: Receiver,
    S: Sender,
    M: Mail<'r, TakeSeat = T, SendSeat = S>,
    G: Gate,
    J: Naming,
> Allocator<'a, 'r, M, T, S, G, J> {
    /// Lends up to `count` buffers of at least `size` bytes, all of one size class, to the end of a parcel
    /// of this allocator, and says how many it lent: fewer than `count` where the parcel has fewer places,
    /// where the pool has no more slots for now, or where the system refuses memory after the first one. It
    /// is 0 only where `count` is, where the parcel has no place, or where another allocator made it.
    ///
    /// An error comes where not one buffer was lent, and is that of [`Allocator::alloc`]. The parcel is
    /// then as it was.
    ///
    /// A parcel that was freed as a whole, with buffers of one class, is lent again as a whole, where it has
    /// as many places as this one and this one is empty: its array takes the place of this one's, and no
    /// buffer is looked at.
    #[inline]
    pub fn fill<R: Wait>(
        &mut self,
        rt: &R,
        parcel: &mut Parcel<'r, J>,
        size: usize,
        count: usize,
    ) -> Result<usize, PoolError>
        ensures { Fills J.names self.old size count parcel.old result self.new parcel.new }
    {
        let call = self.before();
        let answer = match self.class_for(size) {
            None => Err(PoolError::TooLarge),
            Some(class) => {
                let most = self.places_for(parcel, count);
                self.fill_class(rt, parcel, size, class, most)
            }
        };
        self.after(call);
        answer
    }

    /// Lends `count` buffers into a parcel as [`Allocator::fill`] does, and where the pool is used up it
    /// waits for the next one, as [`Allocator::alloc_waiting`] does. It lends fewer only where the parcel
    /// takes no more, or where the system refuses memory after the first one.
    #[tactic(auto, using(crate::proofs::Bursts::filled_err))]
    pub fn fill_waiting<R: Wait + Clock>(
        &mut self,
        rt: &R,
        parcel: &mut Parcel<'r, J>,
        size: usize,
        count: usize,
    ) -> Result<usize, PoolError>
        ensures fills { Fills J.names self.old size count parcel.old result self.new parcel.new }
        ensures waits { result ≢ Err UsedUp }
        ensures slots { IfOk result (λ k. WantsNoSlot J.names self.old size count k self.new parcel.new) }
    {
        recall(&self.station);
        let mut pauses = Pauses::new();
        let mut lent = 0;
        for _ in rt.forever() {
            match self.fill(rt, parcel, size, count - lent) {
                Ok(0) => return Ok(lent),
                Ok(more) => lent += more,
                Err(error) => {
                    if !wants_slots(error, lent) {
                        if lent == 0 {
                            return Err(error);
                        }
                        return Ok(lent);
                    }
                    self.pause(rt, &mut pauses);
                }
            }
        }
        unreachable!()
    }

    /// Makes `count` slots for buffers of at least `size` bytes ready: they are lent at once, which draws chunks
    /// and takes the memory for their first use, and come home. So they stay with this allocator.
    ///
    /// [`PoolError::TooLarge`]: no class is large enough. [`PoolError::NoMemory`]: the system refused the
    /// memory for an array of `count` pointers or for the first slot. [`PoolError::NoChunk`]: every chunk is drawn,
    /// and none for the class by this allocator. [`PoolError::UsedUp`]: there are fewer slots for now, or
    /// memory for fewer; these are ready.
    pub fn reserve<R: Wait>(&mut self, rt: &R, size: usize, count: usize) -> Result<(), PoolError>
        ensures all { IfOk result (λ _. Reserves J.names self.old size count self.new) }
        ensures some { IfErr result (λ _. (k : ℕ) × Reserves J.names self.old size k self.new) }
        ensures too_large { (result ≡ Err TooLarge) ↔ (largest_of (profile_of J.names.digits.bits) < size) }
    {
        recall(&self.station);
        if size > self.largest_size() {
            return Err(PoolError::TooLarge);
        }
        let Ok(mut parcel) = self.parcel(count) else {
            return Err(PoolError::NoMemory);
        };
        let lent = self.fill(rt, &mut parcel, size, count);
        self.free_all(rt, parcel);
        if lent? < count {
            return Err(PoolError::UsedUp);
        }
        Ok(())
    }

    // How many of so many buffers the parcel takes.
    fn places_for(&self, parcel: &Parcel<'r, J>, count: usize) -> usize
        ensures most { result ≤ count }
        ensures room { 0 < result → length parcel.now.items + result ≤ parcel.now.places }
        ensures own { 0 < result → parcel.now.owner ≡ self.now.desk.number }
        ensures whole { result < count →
            (parcel.now.owner ≢ self.now.desk.number) ⊎ (parcel.now.places ≤ length parcel.now.items + result) }
    {
        if parcel.owner() != self.number() {
            return 0;
        }
        count.min(parcel.places().saturating_sub(parcel.len()))
    }

    // Lends so many buffers of the class that a size has into the parcel, or as many as there are.
    #[tactic(auto, using(crate::proofs::Bursts::class_none))]
    fn fill_class<R: Wait>(
        &mut self,
        rt: &R,
        parcel: &mut Parcel<'r, J>,
        size: usize,
        class: Class,
        most: usize,
    ) -> Result<usize, PoolError>
        requires class { IsClassFor J.names size class }
        requires digits { self.old.desk.digits ≡ J.names.digits }
        requires room { 0 < most → length parcel.old.items + most ≤ parcel.old.places }
        requires own { 0 < most → parcel.old.owner ≡ self.old.desk.number }
        ensures value { MatchResult result
            (λ n. LendsInto J.names size most self.old parcel.old n self.new parcel.new)
            (λ e. ServesClass J.names self.old class (Err e) self.new × (parcel.new ≡ parcel.old)) }
        ensures ends { IfOk result (λ n. (n ≡ most) ⊎ ((n ≢ 0) × HasNoMore class self.new)) }
    {
        self.look(rt, class, most);
        let mut lent = self.lend_whole(parcel, size, class, most);
        while lent < most {
            match self.lend_into(rt, parcel, size, class) {
                Ok(()) => lent += 1,
                Err(error) => {
                    if lent == 0 {
                        return Err(error);
                    }
                    return Ok(lent);
                }
            }
        }
        Ok(lent)
    }

    // Takes what came, where it is time for a look or no slot of the class is at home.
    fn look<R: Wait>(&mut self, rt: &R, class: Class, most: usize)
        requires class { class < classes_of (profile_of J.names.digits.bits) }
        requires digits { self.old.desk.digits ≡ J.names.digits }
        ensures { Keeps J.names self.old self.new }
    {
        if most == 0 {
            return;
        }
        if self.is_to_look(most as u64) || !self.station.has_home(class) {
            self.fetch(rt, class);
        }
    }

    // Lends buffers of the class that a size has into the parcel, as they came home together in an array, and
    // says how many: none where no such array is there.
    fn lend_whole(
        &mut self,
        parcel: &mut Parcel<'r, J>,
        size: usize,
        class: Class,
        most: usize,
    ) -> usize
        requires class { IsClassFor J.names size class }
        requires digits { self.old.desk.digits ≡ J.names.digits }
        requires own { 0 < most → parcel.old.owner ≡ self.old.desk.number }
        ensures { LendsInto J.names size most self.old parcel.old result self.new parcel.new }
    {
        if most == 0 {
            return 0;
        }
        if !self.station.lend_whole(self.alloc, class, parcel, most) {
            return 0;
        }
        parcel.len()
    }

    // Lends a buffer of the class that a size has to the end of the parcel.
    #[inline(always)]
    fn lend_into<R: Wait>(
        &mut self,
        rt: &R,
        parcel: &mut Parcel<'r, J>,
        size: usize,
        class: Class,
    ) -> Result<(), PoolError>
        requires class { IsClassFor J.names size class }
        requires room { length parcel.old.items < parcel.old.places }
        requires own { parcel.old.owner ≡ self.old.desk.number }
        ensures { MatchResult result
            (λ _. LendsInto J.names size 1 self.old parcel.old 1 self.new parcel.new)
            (λ e. ServesClass J.names self.old class (Err e) self.new × (parcel.new ≡ parcel.old)) }
    {
        let buffer = match self.lend_at_home(class) {
            Some(buffer) => buffer,
            None => match self.lend_fetched(rt, class) {
                Some(buffer) => buffer,
                None => return Err(self.why_none(class)),
            },
        };
        let Ok(()) = parcel.push(buffer) else {
            unreachable!();
        };
        Ok(())
    }
}

// Whether a slot may come home that ends the want, where so many were lent before. A class that lent some has a
// chunk: for want of one it stops only where none was lent.
fn wants_slots(error: PoolError, lent: usize) -> bool
    ensures { IsTrue result ↔ ((error ≡ UsedUp) ⊎ ((error ≡ NoChunk) × (lent ≢ 0))) }
{
    match error {
        PoolError::UsedUp => true,
        PoolError::NoChunk => lent != 0,
        _ => false,
    }
}
