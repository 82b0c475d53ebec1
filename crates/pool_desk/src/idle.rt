//! A desk that no worker holds.
ghost use Rattle.std.specs.Prelude.{◌≡◌, ◌<◌, ◌≤◌, ◌^◌, ◌++◌, [], All, length, map, OnOk, OnErr};
ghost use Rattle.digit_route.specs.Digits.{IsScheme, Scheme};
ghost use Rattle.digit_route.specs.Limits.{largest_limit};
ghost use Rattle.slot_chain.specs.Buffer.{ended_of};
ghost use Rattle.slot_chain.specs.Counts.{capped};
ghost use Rattle.pool_desk.specs.Homes.{IsOwn, kept_in};
ghost use Rattle.slot_chain.specs.Slots.{AddsSlots};
ghost use Rattle.pool_desk.specs.Slots.{slots_in};

use crate::desk::Desk;
use crate::homes::Homes;
use crate::spares::Spares;
use digit_route::{Cache, Digits};
use region_cut::Slot;
use region_cut::endings::Endings;
use slot_chain::NoMemory;
use std::fmt;
use std::marker::Model;

/// An allocator that no worker holds. Nothing is in its cache; its slots at home stay, for the
/// worker that adopts it.
#[must_use]
#[derive(Drop)]
pub struct IdleDesk<'r> {
    pub(crate) homes: Homes<'r>,
    pub(crate) cache: Cache<'r>,
}

impl<'r> Model for IdleDesk<'r> {
    ghost use Rattle.std.specs.Prelude.{◌≡◌, []};
    ghost use Rattle.pool_desk.specs.Desks.{IdleState};

    ghost Value = { IdleState };

    ghost view = { λ d. record {
      number = d.cache.number;
      digits = d.cache.digits;
      limit = d.cache.limit;
      home = d.homes.slots;
      drawn = d.homes.drawn;
    } };

    ghost invariant = { λ d. (d.homes.owner ≡ d.cache.number) × (d.cache.items ≡ []) };
}

impl<'r> IdleDesk<'r> {
    /// A desk of this number with nothing at home. Owner numbers are read by `digits`, whose
    /// profile says which numbers and classes there are. Its cache is due where it has more than
    /// `limit` bytes, at most a mebibyte.
    pub fn new(number: u16, digits: Digits, limit: u64) -> IdleDesk<'r>
        requires number { number < 2 ^ digits.bits }
        requires limit { limit ≤ largest_limit }
        ensures { result ≡ record { number = number; digits = digits; limit = limit; home = []; drawn = [] } }
    {
        let _profile = digits.profile();
        IdleDesk {
            homes: Homes::new(number),
            cache: Cache::new(number, digits, limit),
        }
    }

    /// Its number, by which its buffers name their owner.
    ///
    /// Its contract also tells what the type keeps of every desk: each buffer that came home is the
    /// desk's own.
    pub fn number(&self) -> u16
        ensures value { result ≡ self.now.number }
        ensures scheme { IsScheme self.now.digits }
        ensures in_range { self.now.number < 2 ^ self.now.digits.bits }
        ensures limit { self.now.limit ≤ largest_limit }
        ensures home { All (IsOwn self.now.number) self.now.home }
    {
        let _owner = self.homes.owner();
        self.cache.number()
    }

    /// How the numbers of desks are read.
    pub fn digits(&self) -> Digits
        ensures { result ≡ self.now.digits }
    {
        self.cache.digits()
    }

    /// The bytes of its cache above which it is due.
    pub fn limit(&self) -> u64
        ensures { result ≡ self.now.limit }
    {
        self.cache.limit()
    }

    /// The desk in the hands of a worker, whose number is kept and not looked at. All else stays.
    pub fn adopt(self, worker: u32) -> Desk<'r>
        ensures { let d = self.entry in
            result ≡ record {
              number = d.number;
              digits = d.digits;
              limit = d.limit;
              worker = worker;
              home = d.home;
              drawn = d.drawn;
              cached = [];
            } }
    {
        let IdleDesk { homes, cache } = self;
        Desk {
            worker,
            homes,
            cache,
            spares: Spares::new(),
        }
    }

    /// The number of slots at home, and of buffers in the cache, which are none; each at most the
    /// greatest `u64`. Takes a walk over them.
    pub fn counts(&self) -> (u64, u64)
        ensures home { result.0 ≡ capped (length self.now.home) }
        ensures cached { result.1 ≡ 0 }
    {
        (self.homes.count(), 0)
    }

    /// Adds the slots at home to the end of `slots`, each as often as it is there, in no order.
    /// Where memory for that is refused, `slots` is as before.
    pub fn list_slots(&self, slots: &mut Vec<Slot>) -> Result<(), NoMemory>
        ensures ok { OnOk result (AddsSlots (slots_in self.now.home []) slots.old.items slots.new.items) }
        ensures err { OnErr result (slots.new.items ≡ slots.old.items) }
    {
        self.homes.list_slots(slots)
    }

    /// Lets go the buffers at home, and the cursors over its chunks. Takes a walk over the buffers,
    /// and no memory.
    pub fn end(self, endings: &mut Endings<'r>)
        ensures { endings.new ≡ record {
          known = map ended_of (kept_in self.entry.home) ++ endings.old.known;
          chunks = self.entry.drawn ++ endings.old.chunks;
        } }
    {
        let IdleDesk { homes, cache: _ } = self;
        homes.end(endings);
    }
}

// The buffers are not printed.
impl fmt::Debug for IdleDesk<'_> {
    fn fmt<W: fmt::Write>(&self, f: &mut fmt::Formatter<W>) -> fmt::Result {
        write!(f, "IdleDesk({})", self.number())
    }
}
