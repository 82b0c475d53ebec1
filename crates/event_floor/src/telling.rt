//! What a floor tells of its lists.
ghost use Rattle.std.specs.Prelude.{◌≡◌, ◌<◌, ◌≤◌, length, map, IfOk, IsPermutation};
ghost use Rattle.region_cut.specs.Limits.{chunk_limit};
ghost use Rattle.slot_chain.specs.Counts.{capped};
ghost use Rattle.slot_chain.specs.Slots.{slot_of};
ghost use Rattle.pool_desk.specs.Homes.{slot_at};
ghost use Rattle.event_floor.specs.Chunks.{class_drawn};
ghost use Rattle.event_floor.specs.Floors.{desk_count, desk_at};
ghost use Rattle.event_floor.specs.Lent.{buffers_lent};
ghost use Rattle.event_floor.specs.Inboxes.{buffers_in, inbox_at};
ghost use Rattle.event_floor.specs.Desks.{home_of, cached_of};
ghost use Rattle.event_floor.specs.headline.Bytes.{HoldsSome};
ghost use Rattle.event_floor.specs.headline.Headline.{Shows};
ghost use Rattle.event_floor.specs.headline.Names.{IsNamed};

use crate::Floor;
use digit_route::Digits;
use region_cut::{Class, Slot};
use slot_chain::NoMemory;
use std::alloc::Global;

impl<'r> Floor<'r> {
    /// How many slots the desk has at home, how many buffers are in its cache, and how many wait in its inbox, linked
    /// or not; each at most the greatest `u64`. Takes a walk over them.
    pub fn counts(&self, a: u32) -> (u64, u64, u64)
        requires { a < desk_count self.now }
        ensures home { result.0 ≡ capped (length (home_of (desk_at self.now a))) }
        ensures cached { result.1 ≡ capped (length (cached_of (desk_at self.now a))) }
        ensures queued { result.2 ≡ capped (length (buffers_in (inbox_at self.now.inboxes a))) }
    {
        let lists = &self.lists;
        let queued = lists.inboxes.count(a as usize);
        let (home, cached) = lists.desks[a as usize].counts();
        (home, cached, queued)
    }

    /// The slots of all buffers that wait in the desk's inbox, linked or not, each as often as it is there.
    pub fn queued(&self, alloc: Global, a: u32) -> Result<Vec<Slot>, NoMemory>
        requires { a < desk_count self.now }
        ensures { IfOk result (λ slots.
            IsPermutation (map slot_of (buffers_in (inbox_at self.now.inboxes a))) slots.items) }
    {
        self.lists.inboxes.slots(alloc, a as usize)
    }

    /// The slots of the lent buffers, in order. Takes time in the number of slots.
    pub fn lent(&self, alloc: Global) -> Result<Vec<Slot>, NoMemory>
        ensures { IfOk result (λ slots. slots.items ≡ map slot_of (buffers_lent self.now.lent)) }
    {
        self.lists.lent.slots(alloc)
    }

    /// The slots that the desk has at home, each as often as it is there, in no order.
    pub fn home(&self, alloc: Global, a: u32) -> Result<Vec<Slot>, NoMemory>
        requires { a < desk_count self.now }
        ensures { IfOk result (λ slots. IsPermutation (map slot_at (home_of (desk_at self.now a))) slots.items) }
    {
        self.lists.desks[a as usize].home(alloc)
    }

    /// The slots of the buffers in the desk's cache, each as often as it is there, in no order.
    pub fn cached(&self, alloc: Global, a: u32) -> Result<Vec<Slot>, NoMemory>
        requires { a < desk_count self.now }
        ensures { IfOk result (λ slots. IsPermutation (map slot_of (cached_of (desk_at self.now a))) slots.items) }
    {
        self.lists.desks[a as usize].cached(alloc)
    }

    /// How many buffers are lent. Takes time in the number of slots.
    #[tactic(auto, using(crate::proofs::headline::Counts::present_count))]
    pub fn lent_count(&self) -> u64
        ensures { result ≡ length (buffers_lent self.now.lent) }
    {
        self.lists.lent.count()
    }

    /// How many desks it has.
    pub fn desk_count(&self) -> u32
        ensures { result ≡ desk_count self.now }
    {
        self.lists.desks.len() as u32
    }

    /// How many chunks it has, drawn or not.
    ///
    /// Its contract also tells what the type keeps of every floor: its lists show some state that a run of the machine
    /// leads to, each buffer has the name of its place, its bytes are those of some region, and it has no more chunks
    /// than a region. So the laws (`laws`) hold of a floor that was lent.
    pub fn chunk_count(&self) -> u32
        ensures value { result ≡ self.now.chunks }
        ensures few { self.now.chunks ≤ chunk_limit }
        ensures shows { Shows self.now }
        ensures named { IsNamed self.now }
        ensures held { HoldsSome self.now }
    {
        self.keeps();
        self.lists.chunks.count() as u32
    }

    /// How many chunks are drawn.
    pub fn drawn_count(&self) -> u64
        ensures { result ≡ length self.now.drawn }
    {
        self.lists.chunks.drawn_count()
    }

    /// The class of a chunk, or None where it isn't drawn.
    pub fn class_of(&self, chunk: u32) -> Option<Class>
        ensures { result ≡ class_drawn self.now.drawn chunk }
    {
        self.lists.chunks.class_of(chunk)
    }

    /// How the numbers of its desks are read.
    pub fn digits(&self) -> Digits
        ensures { result ≡ self.now.digits }
    {
        self.lists.digits
    }

    /// The bytes above which a desk's cache is due.
    pub fn limit(&self) -> u64
        ensures { result ≡ self.now.limit }
    {
        self.lists.limit
    }
}
