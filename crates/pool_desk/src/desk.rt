//! A desk that a worker holds.
ghost use Rattle.std.specs.Prelude.{◌≡◌, ◌≢◌, ◌<◌, ◌≤◌, ◌^◌, ◌↔◌, [], ◌++◌, length, map, All, IsTrue, IsPermutation};
ghost use Rattle.std.specs.Prelude.{Some, None, MatchBool, MatchOption, MatchResult, IfOk, OnOk, OnErr};
ghost use Rattle.region_cut.specs.Classes.{classes_of};
ghost use Rattle.slot_chain.specs.Buffer.{Buffer, ended_of};
ghost use Rattle.slot_chain.specs.Counts.{capped, sizes};
ghost use Rattle.digit_route.specs.Digits.{IsScheme, common};
ghost use Rattle.digit_route.specs.Limits.{largest_limit};
ghost use Rattle.digit_route.specs.Route.{IsCached, RouteFault};
ghost use Rattle.slot_chain.specs.Slots.{AddsSlots, slot_of};
ghost use Rattle.digit_route.specs.Route.{GivesBucket};
ghost use Rattle.pool_desk.specs.HomesState.{HasChunk, LacksChunk, HasClass};
ghost use Rattle.pool_desk.specs.Desks.{profile_at};
ghost use Rattle.pool_desk.specs.Homes.{IsOwn, comes_home, kept_in};
ghost use Rattle.pool_desk.specs.Slots.{slots_in};
ghost use Rattle.pool_desk.specs.Steps.{Claims, NotNeededFor, Allocs, AllocsClass, Frees, FreesAll};
ghost use Rattle.pool_desk.specs.Steps.{IsFilledUp, LendsWhole};

use crate::home::Placing;
use crate::homes::Homes;
use crate::spares::Spares;
use crate::{DeskError, Freed, IdleDesk};
use digit_route::{Cache, Digits};
use region_cut::endings::Endings;
use region_cut::{Class, Part, Slot};
use slot_chain::{Buf, BufParcel, NoMemory};
use std::alloc::Global;
use std::marker::Model;
use std::{fmt, mem};

/// An allocator that a worker holds: its slots at home, and a cache of others' buffers that were
/// freed here.
///
/// Nothing of it is shared, so no call waits. Only [`Desk::alloc`] of a slot that was never handed
/// out takes memory, [`Desk::parcel`] where no array is kept for it, [`Desk::lend_whole`],
/// [`Desk::make_room`], and the listings.
#[must_use]
#[derive(Drop)]
pub struct Desk<'r> {
    pub(crate) worker: u32,
    pub(crate) homes: Homes<'r>,
    pub(crate) cache: Cache<'r>,
    pub(crate) spares: Spares<'r>,
}

impl<'r> Model for Desk<'r> {
    ghost use Rattle.std.specs.Prelude.{◌≡◌};
    ghost use Rattle.pool_desk.specs.Desks.{DeskState};

    ghost Value = { DeskState };

    ghost view = { λ d. record {
      number = d.cache.number;
      digits = d.cache.digits;
      limit = d.cache.limit;
      worker = d.worker;
      home = d.homes.slots;
      drawn = d.homes.drawn;
      cached = d.cache.items;
    } };

    ghost invariant = { λ d. d.homes.owner ≡ d.cache.number };
}

impl<'r> Desk<'r> {
    /// Its number, by which its buffers name their owner.
    ///
    /// Its contract also tells what the type keeps of every desk: each buffer in the cache is of
    /// another desk, and was passed on at most as often as its owner shares digits with this one;
    /// and each buffer that came home is the desk's own.
    pub fn number(&self) -> u16
        ensures value { result ≡ self.now.number }
        ensures scheme { IsScheme self.now.digits }
        ensures in_range { self.now.number < 2 ^ self.now.digits.bits }
        ensures limit { self.now.limit ≤ largest_limit }
        ensures cached { All (IsCached self.now.digits self.now.number) self.now.cached }
        ensures home { All (IsOwn self.now.number) self.now.home }
    {
        let _owner = self.homes.owner();
        self.cache.number()
    }

    /// How the numbers of desks are read. Its profile says which classes the desk uses.
    pub fn digits(&self) -> Digits
        ensures { result ≡ self.now.digits }
    {
        self.cache.digits()
    }

    /// The bytes of the cache above which it is due.
    pub fn limit(&self) -> u64
        ensures { result ≡ self.now.limit }
    {
        self.cache.limit()
    }

    /// The bytes in the cache, or the greatest `u64` where that is less. Takes constant time.
    pub fn cached_bytes(&self) -> u64
        ensures { result ≡ capped (sizes self.now.cached) }
    {
        self.cache.bytes()
    }

    /// Whether the cache has more bytes than the limit, so that it is to be posted. Takes constant
    /// time.
    pub fn is_due(&self) -> bool
        ensures { IsTrue result ↔ (self.now.limit < sizes self.now.cached) }
    {
        self.cache.is_due()
    }

    /// The worker that holds it.
    pub fn worker(&self) -> u32
        ensures { result ≡ self.now.worker }
    {
        self.worker
    }

    /// Whether a slot of the class is at home. Takes constant time.
    pub fn has_home(&self, class: Class) -> bool
        ensures { IsTrue result ↔ HasClass class self.now.home }
    {
        self.homes.has(class)
    }

    /// Whether a chunk was ever claimed for the class. Where none was and none is left to be claimed, no slot of
    /// the class will ever come home. Takes constant time.
    pub fn has_drawn(&self, class: Class) -> bool
        ensures { MatchBool result (HasChunk class self.now.drawn) (LacksChunk class self.now.drawn) }
    {
        self.homes.has_drawn(class)
    }

    /// Takes a part for a class that has no slot at home, and hands it back with
    /// [`DeskError::NotNeeded`] where there is one. The chunk keeps its class and its owner until
    /// the region's borrow ends. Takes constant time and no memory.
    pub fn claim(&mut self, part: Part<'r>, class: Class) -> Result<(), (Part<'r>, DeskError)>
        requires { class < classes_of (profile_at self.old) }
        ensures { MatchResult result
            (λ _. Claims self.old part.entry class self.new)
            (λ e. (e.0 ≡ part.entry) × NotNeededFor self.old class e.1 × (self.new ≡ self.old)) }
    {
        if self.has_home(class) {
            return Err((part, DeskError::NotNeeded));
        }
        self.claim_needed(part, class);
        Ok(())
    }

    /// Takes a part for a class of which [`Desk::has_home`] said that no slot is at home, as
    /// [`Desk::claim`] does. Takes constant time and no memory.
    pub fn claim_needed(&mut self, part: Part<'r>, class: Class)
        requires class { class < classes_of (profile_at self.old) }
        requires needed { HasClass class self.old.home → ⊥ }
        ensures { Claims self.old part.entry class self.new }
    {
        self.homes.claim(part, class);
    }

    /// Gives out a slot at home of the least class that holds `size` bytes: one that came home, else the
    /// next that was never handed out. Only the latter takes memory, for the box of the buffer, which is
    /// made first; so a refusal changes nothing. Nothing of the buffer is filled, and no byte of a slot is
    /// written. Takes constant time, unless a parcel of [`Desk::lend_whole`] is taken apart.
    #[inline(always)]
    pub fn alloc(&mut self, alloc: Global, size: usize) -> Result<Buf<'r>, DeskError>
        ensures { Allocs self.old size result self.new }
    {
        let Some(class) = self.cache.digits().class_for(size) else {
            return Err(DeskError::TooLarge);
        };
        self.alloc_class(alloc, class)
    }

    /// Gives out a slot at home of this class, as [`Desk::alloc`] does of the class that a size has: for
    /// whoever knows the class already.
    #[inline(always)]
    pub fn alloc_class(&mut self, alloc: Global, class: Class) -> Result<Buf<'r>, DeskError>
        requires { class < classes_of (profile_at self.old) }
        ensures { AllocsClass self.old class result self.new }
    {
        self.homes.alloc(alloc, class, &mut self.spares)
    }

    /// Takes an own buffer home, and another into the cache. Always succeeds. Takes constant time
    /// and no memory.
    ///
    /// The owner's number is one of the desk's profile.
    #[inline(always)]
    pub fn free(&mut self, buf: Buf<'r>) -> Freed
        requires { buf.owner < 2 ^ self.old.digits.bits }
        ensures { Frees self.old buf.entry result self.new }
    {
        let mut buf = buf;
        buf.reset();
        if buf.owner() == self.cache.number() {
            self.homes.keep(buf, Placing::Linked);
            return Freed::Home;
        }
        self.cache.put(buf);
        if self.cache.is_due() {
            Freed::Due
        } else {
            Freed::Cached
        }
    }

    /// Takes the buffers of an own parcel home, and another's parcel into the cache, as it is. Always
    /// succeeds, takes no memory, and for another's parcel constant time: none of its buffers is looked
    /// at, where the cache has room for its array ([`Desk::make_room`]). Each of an own parcel is emptied;
    /// where all are of one class, and [`Desk::lend_whole`] was called for it, they stay in their array.
    ///
    /// The owner's number is one of the desk's profile.
    pub fn free_all(&mut self, parcel: BufParcel<'r>) -> Freed
        requires { parcel.owner < 2 ^ self.old.digits.bits }
        ensures { FreesAll self.old parcel.entry result self.new }
    {
        if parcel.owner() == self.cache.number() {
            self.keep_parcel(parcel, Placing::Linked);
            return Freed::Home;
        }
        self.cache.put_all(parcel);
        if self.cache.is_due() {
            Freed::Due
        } else {
            Freed::Cached
        }
    }

    // Takes the buffers of an own parcel home, as they lie in it where it may be kept so.
    pub(crate) fn keep_parcel(&mut self, parcel: BufParcel<'r>, placing: Placing)
        requires { parcel.owner ≡ self.old.number }
        ensures same { self.new ≡ record self.old { home = self.new.home } }
        ensures home { IsPermutation (map comes_home parcel.entry.items ++ self.old.home) self.new.home }
    {
        let mut parcel = parcel;
        match self.homes.class_of_whole(&mut parcel) {
            Some(class) => self.homes.keep_whole(parcel, class),
            None => {
                let emptied = self.homes.keep_all(parcel.into_buffers(), placing);
                self.spares.keep(emptied);
            }
        }
    }

    // Takes own buffers home one by one, and gives out their array, which then names none.
    pub(crate) fn keep_each(&mut self, array: Vec<Buf<'r>>, placing: Placing) -> Vec<Buf<'r>>
        requires { All (λ (b : Buffer). b.owner ≡ self.old.number) array.items }
        ensures same { self.new ≡ record self.old { home = self.new.home } }
        ensures home { IsPermutation (map comes_home array.entry.items ++ self.old.home) self.new.home }
        ensures emptied { result.items ≡ [] }
    {
        self.homes.keep_all(array, placing)
    }

    /// Lends own buffers of this class in an empty parcel, as they came home together in one: at most
    /// `most`, and none is looked at. That one takes the place of the empty one, so it has as many places.
    /// Says whether it lent any: where it didn't, no such parcel is at home, or this one isn't empty, and both
    /// are as before.
    ///
    /// A desk keeps parcels so once this was called: it takes memory for their places, at most 1,024 of each
    /// class, and keeps fewer where memory is refused. [`Desk::alloc`] takes one apart where it finds no other
    /// buffer that came home. Takes constant time.
    pub fn lend_whole(
        &mut self,
        alloc: Global,
        class: Class,
        parcel: &mut BufParcel<'r>,
        most: usize,
    ) -> bool
        requires { parcel.old.owner ≡ self.old.number }
        ensures { MatchBool result
            (LendsWhole self.old class parcel.new.items self.new × IsFilledUp most parcel.old parcel.new)
            ((self.new ≡ self.old) × (parcel.new ≡ parcel.old)) }
    {
        if !parcel.is_empty() {
            return false;
        }
        let Some(whole) = self.homes.take_whole(class, most, parcel.places()) else {
            self.homes.make_room(alloc, class);
            return false;
        };
        let _packed = whole.owner();
        let spare = mem::replace(parcel, whole);
        self.spares.keep(spare.into_buffers());
        true
    }

    /// An empty parcel for own buffers, with room for at least so many. It lies over an array in which
    /// own buffers came home, where an empty one is kept that is large enough: the one that was kept last of
    /// those. A desk keeps as many arrays as it made, at most 1,024, each for 1 to 256 buffers; one that
    /// comes beyond that is let go. Only else memory is taken. [`NoMemory`] is answered only where there is
    /// none for it.
    pub fn parcel(&mut self, alloc: Global, places: usize) -> Result<BufParcel<'r>, NoMemory>
        ensures same { self.new ≡ self.old }
        ensures value { IfOk result (λ p.
            (p ≡ record { owner = self.old.number; places = p.places; items = [] }) × (places ≤ p.places)) }
    {
        self.spares.parcel(alloc, self.cache.number(), places)
    }

    /// Whether nothing is cached, so that the desk may be retired or passed on.
    pub fn is_settled(&self) -> bool
        ensures { IsTrue result ↔ (self.now.cached ≡ []) }
    {
        self.cache.is_empty()
    }

    /// Passes the desk on to another worker, whose number is kept and not looked at. It is
    /// [`Desk::retire`] and [`IdleDesk::adopt`] without a move of the desk, which is some kilobytes;
    /// the arrays that are kept for parcels stay. Takes constant time and no memory.
    pub fn pass_to(&mut self, worker: u32)
        requires { self.old.cached ≡ [] }
        ensures { self.new ≡ record self.old { worker = worker } }
    {
        self.worker = worker;
    }

    /// The desk without its worker, where its cache is empty. Where it isn't, the desk is handed
    /// back as it was: it is unsettled.
    pub fn retire(self) -> Result<IdleDesk<'r>, Desk<'r>>
        ensures { let s = self.entry in MatchResult result
            (λ d. (s.cached ≡ []) × (d ≡ record {
              number = s.number;
              digits = s.digits;
              limit = s.limit;
              home = s.home;
              drawn = s.drawn;
            }))
            (λ d. (s.cached ≢ []) × (d ≡ s)) }
    {
        if !self.cache.is_empty() {
            return Err(self);
        }
        let Desk {
            worker: _,
            homes,
            cache,
            spares: _,
        } = self;
        Ok(IdleDesk { homes, cache })
    }

    /// The number of slots at home, and of buffers in the cache, each at most the greatest `u64`.
    /// Takes a walk over them.
    pub fn counts(&self) -> (u64, u64)
        ensures home { result.0 ≡ capped (length self.now.home) }
        ensures cached { result.1 ≡ capped (length self.now.cached) }
    {
        (self.homes.count(), self.cache.len())
    }

    /// Adds the slots at home and in the cache to the end of `slots`, each as often as it is there,
    /// in no order. Where memory for that is refused, `slots` is as before.
    pub fn list_slots(&self, slots: &mut Vec<Slot>) -> Result<(), NoMemory>
        ensures ok { OnOk result (AddsSlots (slots_in self.now.home self.now.cached) slots.old.items slots.new.items) }
        ensures err { OnErr result (slots.new.items ≡ slots.old.items) }
    {
        let start = slots.len();
        self.homes.list_slots(slots)?;
        if self.cache.list_slots(slots).is_ok() {
            return Ok(());
        }
        slots.truncate(start);
        Err(NoMemory)
    }

    /// Adds the slots at home alone, as `list_slots` does.
    pub fn list_home(&self, slots: &mut Vec<Slot>) -> Result<(), NoMemory>
        ensures ok { OnOk result (AddsSlots (slots_in self.now.home []) slots.old.items slots.new.items) }
        ensures err { OnErr result (slots.new.items ≡ slots.old.items) }
    {
        self.homes.list_slots(slots)
    }

    /// Adds the slots in the cache alone, as `list_slots` does.
    pub fn list_cached(&self, slots: &mut Vec<Slot>) -> Result<(), NoMemory>
        ensures ok { OnOk result (AddsSlots (map slot_of self.now.cached) slots.old.items slots.new.items) }
        ensures err { OnErr result (slots.new.items ≡ slots.old.items) }
    {
        self.cache.list_slots(slots)
    }

    /// Lets go the buffers at home and in the cache, and the cursors over its chunks. Takes a walk
    /// over the buffers, and no memory.
    pub fn end(self, endings: &mut Endings<'r>)
        ensures chunks { endings.new ≡ record endings.old {
          known = endings.new.known;
          chunks = self.entry.drawn ++ endings.old.chunks;
        } }
        ensures known { IsPermutation (map ended_of (kept_in self.entry.home ++ self.entry.cached) ++ endings.old.known)
            endings.new.known }
    {
        let Desk {
            worker: _,
            homes,
            cache,
            spares: _,
        } = self;
        cache.end(endings);
        homes.end(endings);
    }
}

// The buffers are not printed.
impl fmt::Debug for Desk<'_> {
    fn fmt<W: fmt::Write>(&self, f: &mut fmt::Formatter<W>) -> fmt::Result {
        write!(f, "Desk({}, held by {})", self.number(), self.worker)
    }
}
