//! Lists of buffers that go to another thread.
ghost use Rattle.std.specs.Prelude.{◌≡◌, ◌≢◌, ◌↔◌, [], ◌∷◌, ◌++◌, length, map, IsTrue, IsPermutation};
ghost use Rattle.std.specs.Prelude.{None, MatchOption, OnOk, OnErr};
ghost use Rattle.slot_chain.specs.Buffer.{ended_of};
ghost use Rattle.slot_chain.specs.Counts.{capped, sizes};
ghost use Rattle.slot_chain.specs.Slots.{AddsSlots, slot_of};
ghost use Rattle.slot_chain.specs.Magazines.{named_in, items_of, HasPlace};

use crate::array::{len_of, names_none, offer, pop_named, slice_of, take_named};
use crate::buf::Buf;
use crate::chain::Chain;
use crate::empty::EmptyMagazine;
use crate::error::NoMemory;
use crate::parcel::BufParcel;
use crate::parcels::Parcels;
use crate::portion::Portion;
use crate::walk::{Walk, add_slots, bytes_in};
use region_cut::Slot;
use region_cut::endings::Endings;
use std::alloc::Global;
use std::marker::Model;
use std::{fmt, mem};

// For how many buffers an array has places, and for how many parcels there is room, at least and at most.
const LEAST: u16 = 16;

const MOST: u16 = 4096;

// How often lists are longer than their arrays before larger ones are made: twice within some eight lists.
// Where that comes seldom, a larger array would be made for each list under way, for little.
const WEIGHT: u16 = 16;

const OFTEN: u16 = 24;

// For how many buffers an array is to be made, and for how many parcels room: 0 where none is wanted.
#[derive(Clone, Copy)]
struct Wanted {
    buffers: u16,
    parcels: u16,
    // Each list that was longer than its array adds `WEIGHT`, and each other takes 1 away.
    overflows: u16,
}

/// A list of buffers that goes to another thread as a whole. In contracts it is that list;
/// [`Magazine::push`] and [`Magazine::pop`] work at its end.
///
/// A [`Chain`] writes to the box of each buffer, whose cache line then has to move from core to core.
/// A magazine (Bonwick and Adams, USENIX 2001) is an array of pointers to the boxes, and writes to
/// none. What finds no place in the array is linked, as in a chain. Parcels ([`Magazine::append`]) are
/// kept as they are.
///
/// Only [`Magazine::make_room`] and [`Magazine::list_slots`] take memory; no other call can fail. A
/// magazine may be dropped, with all its buffers.
#[must_use]
pub struct Magazine<'r> {
    whole: Parcels<'r>,
    // What was put one by one.
    array: Option<Vec<Buf<'r>>>,
    linked: Chain<'r>,
    // What is to be made once there is memory.
    wanted: Wanted,
}

impl<'r> Model for Magazine<'r> {
    ghost use Rattle.std.specs.Prelude.{List, ◌++◌};
    ghost use Rattle.slot_chain.specs.Buffer.{Buffer};
    ghost use Rattle.slot_chain.specs.Magazines.{named_in, IsFilled};

    ghost Value = { List Buffer };

    ghost view = { λ m. m.whole ++ (named_in m.array ++ m.linked) };

    ghost invariant = { λ m. IsFilled m.array m.linked };
}

// By hand, so that it is proved here once, and not again in each crate that lets one go.
impl Drop for Magazine<'_> {
    fn drop(self) {
        let Magazine {
            whole,
            array,
            linked,
            wanted: _,
        } = self;
        drop(whole);
        drop(array);
        drop(linked);
    }
}

impl Default for Magazine<'_> {
    ghost is_default = { λ m. m ≡ [] };

    fn default() -> Self {
        Magazine::new()
    }
}

impl<'r> Magazine<'r> {
    /// An empty list, without an array. It takes no memory.
    pub fn new() -> Magazine<'r>
        ensures { result ≡ [] }
    {
        Magazine::wanting(Wanted {
            buffers: 0,
            parcels: 0,
            overflows: 0,
        })
    }

    fn wanting(wanted: Wanted) -> Magazine<'r>
        ensures { result ≡ [] }
    {
        Magazine {
            whole: Parcels::new(),
            array: None,
            linked: Chain::new(),
            wanted,
        }
    }

    /// Puts a buffer to the end of the list. Takes constant time.
    #[inline]
    pub fn push(&mut self, buf: Buf<'r>)
        ensures { self.new ≡ self.old ++ buf.entry ∷ [] }
    {
        if let Some(buf) = offer(&mut self.array, buf) {
            self.linked.push(buf);
        }
    }

    /// Puts the buffers of a parcel to the others. Where there is room for the parcel it is kept as it
    /// is, and no buffer is looked at; else each buffer is put.
    pub fn append(&mut self, parcel: BufParcel<'r>)
        ensures { IsPermutation (self.old ++ parcel.entry.items) self.new }
    {
        if parcel.is_empty() {
            return;
        }
        if let Some(parcel) = self.whole.put(parcel) {
            self.wanted.parcels = more_than(self.places_for_parcels());
            self.push_all(parcel.into_buffers());
        }
    }

    // Puts each buffer of an array to the end.
    fn push_all(&mut self, array: Vec<Buf<'r>>)
        ensures { self.new ≡ self.old ++ array.entry.items }
    {
        for buf in array {
            self.push(buf);
        }
    }

    /// Takes the buffer that came last, or `None` where there is none. Takes constant time.
    #[inline]
    pub fn pop(&mut self) -> Option<Buf<'r>>
        ensures { MatchOption result ((self.old ≡ []) × (self.new ≡ [])) (λ b. self.old ≡ self.new ++ b ∷ []) }
    {
        if let Some(buf) = self.linked.pop() {
            return Some(buf);
        }
        if let Some(buf) = pop_named(&mut self.array) {
            return Some(buf);
        }
        pop_whole(&mut self.whole, &mut self.array)
    }

    /// Takes out the buffers that came last, as they lie: those that are linked, or else those of the
    /// array, or else the last parcel. It is `None` where there is no buffer. Takes constant time.
    pub fn pop_portion(&mut self) -> Option<Portion<'r>>
        ensures { MatchOption result ((self.old ≡ []) × (self.new ≡ []))
            (λ p. (items_of p ≢ []) × (self.old ≡ self.new ++ items_of p)) }
    {
        if !self.linked.is_empty() {
            return Some(Portion::Linked(mem::take(&mut self.linked)));
        }
        if let Some(array) = take_named(&mut self.array) {
            return Some(Portion::Array(array));
        }
        let parcel = self.whole.take()?;
        Some(Portion::Whole(parcel))
    }

    /// Puts the array of a [`Portion::Array`] back, once it is emptied, so that [`Magazine::into_empty`]
    /// has it.
    pub fn put_back(&mut self, array: Vec<Buf<'r>>)
        requires { array.items ≡ [] }
        ensures { self.new ≡ self.old }
    {
        if self.array.is_none() && self.linked.is_empty() {
            self.array = Some(array);
        }
    }

    /// What is left of a magazine whose buffers were taken out.
    pub fn into_empty(self) -> EmptyMagazine<'r>
        requires { self ≡ [] }
    {
        let Magazine {
            whole,
            array,
            linked: _,
            wanted: _,
        } = self;
        EmptyMagazine { whole, array }
    }

    /// Takes the memory of an empty magazine where some is wanted, as [`Magazine::make_room`] takes new
    /// memory. What isn't as large as what is wanted goes back to the allocator.
    pub fn reuse(&mut self, empty: EmptyMagazine<'r>)
        ensures { self.new ≡ self.old }
    {
        let (whole, array) = empty.into_parts();
        self.reuse_parcels(whole);
        if let Some(array) = array {
            self.reuse_array(array);
        }
    }

    // Takes room for parcels, where there is less. It is taken where none is wanted too, and goes on
    // with the next list then: another sender may be the one that wants it.
    fn reuse_parcels(&mut self, whole: Parcels<'r>)
        requires { whole ≡ [] }
        ensures { self.new ≡ self.old }
    {
        let places = whole.places();
        if places > self.whole.places() && self.whole.is_empty() {
            self.whole = whole;
            if places >= self.wanted.parcels as usize {
                self.wanted.parcels = 0;
            }
        }
    }

    // Takes an empty array, where one is wanted.
    fn reuse_array(&mut self, array: Vec<Buf<'r>>)
        requires { array.items ≡ [] }
        ensures { self.new ≡ self.old }
    {
        let wanted = self.wanted.buffers as usize;
        if wanted > 0 && array.capacity() >= wanted && self.is_empty() {
            self.put_array(array);
        }
    }

    // What is to be made behind this list.
    fn wanted_behind(&self) -> Wanted {
        let overflows = self.overflows_behind();
        let (buffers, overflows) = match &self.array {
            None => (self.wanted.buffers.max(LEAST), overflows),
            Some(array) => places_behind(at_most(array.capacity()), overflows),
        };
        Wanted {
            buffers,
            parcels: self.places_for_parcels(),
            overflows,
        }
    }

    // How often lists were longer than their arrays, with this one.
    fn overflows_behind(&self) -> u16 {
        let before = self.wanted.overflows;
        if self.array.is_some() && !self.linked.is_empty() {
            before.saturating_add(WEIGHT)
        } else {
            before.saturating_sub(1)
        }
    }

    // For how many parcels there should be room in such a list: for none where none found no place.
    fn places_for_parcels(&self) -> u16 {
        self.wanted.parcels.max(at_most(self.whole.places()))
    }

    /// Takes out all buffers, with their array. What is put here then is linked, until there is room
    /// again. Takes constant time.
    pub fn take(&mut self) -> Magazine<'r>
        ensures value { result ≡ self.old }
        ensures emptied { self.new ≡ [] }
    {
        let empty = Magazine::wanting(self.wanted_behind());
        mem::replace(self, empty)
    }

    /// Makes room for what comes, where a list was taken out and nothing came since: an array as large
    /// as that list had, or twice as large, up to 4,096 places, where lists often have too few. The first
    /// has 16.
    /// Where memory is refused, all stays as it is.
    pub fn make_room(&mut self, alloc: Global)
        ensures { self.new ≡ self.old }
    {
        self.make_room_for_parcels(alloc);
        if self.wanted.buffers == 0 || !self.is_empty() {
            return;
        }
        if let Ok(array) = Vec::with_capacity(alloc, self.wanted.buffers as usize) {
            self.put_array(array);
        }
    }

    // Makes room for parcels, where some is wanted and there is none of them.
    fn make_room_for_parcels(&mut self, alloc: Global)
        ensures { self.new ≡ self.old }
    {
        if self.wanted.parcels == 0 || !self.whole.is_empty() {
            return;
        }
        if self.whole.make_room(alloc, self.wanted.parcels as usize) {
            self.wanted.parcels = 0;
        }
    }

    // Puts an empty array there, where there is no buffer.
    fn put_array(&mut self, array: Vec<Buf<'r>>)
        requires none { self.old ≡ [] }
        requires empty { array.items ≡ [] }
        ensures { self.new ≡ self.old }
    {
        self.array = Some(array);
        self.wanted.buffers = 0;
    }

    /// The number of buffers, or the greatest `u64` where that is less. Those that are linked are
    /// counted by a walk.
    pub fn len(&self) -> u64
        ensures { result ≡ capped (length self.now) }
    {
        let array = len_of(&self.array).saturating_add(self.linked.len());
        self.whole.len().saturating_add(array)
    }

    /// The sum of the sizes of the buffers in bytes, each that of its class, or the greatest `u64`
    /// where that is less. It is counted by a walk.
    pub fn bytes_total(&self) -> u64
        ensures { result ≡ capped (sizes self.now) }
    {
        bytes_in(self.walk())
    }

    /// Whether there is no buffer. Takes constant time.
    #[tactic(auto, using(crate::proofs::Tops::front_is_none))]
    pub fn is_empty(&self) -> bool
        ensures { IsTrue result ↔ (self.now ≡ []) }
    {
        names_none(&self.array) && self.linked.is_empty() && self.whole.is_empty()
    }

    /// Lets go all buffers: it is then known what each ends as. Takes a walk over them.
    pub fn end(self, endings: &mut Endings<'r>)
        ensures { endings.new ≡ record endings.old { known = map ended_of self.entry ++ endings.old.known } }
    {
        let mut magazine = self;
        while let Some(buf) = magazine.pop() {
            endings.close(buf.into_front());
        }
    }

    /// A walk over the buffers from the last one, which only looks at them.
    pub fn walk(&self) -> Walk<'_, 'r>
        ensures { result ≡ self.now }
    {
        self.linked
            .walk_behind(self.whole.as_slice(), slice_of(&self.array))
    }

    /// Adds the slot of each buffer to the end of `slots`, in no order. Where memory for that is
    /// refused, `slots` is as before. Takes a walk over the buffers.
    pub fn list_slots(&self, slots: &mut Vec<Slot>) -> Result<(), NoMemory>
        ensures ok { OnOk result (AddsSlots (map slot_of self.now) slots.old.items slots.new.items) }
        ensures err { OnErr result (slots.new.items ≡ slots.old.items) }
    {
        add_slots(self.walk(), slots)
    }
}

// For how many buffers the next array is to be made, and what is then counted of lists that were longer.
fn places_behind(places: u16, overflows: u16) -> (u16, u16) {
    if overflows >= OFTEN {
        (more_than(places), 0)
    } else {
        (places, overflows)
    }
}

// So many places, or the most that are made.
fn at_most(places: usize) -> u16 {
    places.min(MOST as usize) as u16
}

// Twice as many places, and neither fewer nor more than are made.
fn more_than(places: u16) -> u16 {
    places.saturating_mul(2).max(LEAST).min(MOST)
}

// Takes the last buffer of the parcel that came last, where the array names none, and puts what is left in
// its place.
#[cold]
#[inline(never)]
fn pop_whole<'r>(whole: &mut Parcels<'r>, array: &mut Option<Vec<Buf<'r>>>) -> Option<Buf<'r>>
    requires { named_in array.old ≡ [] }
    ensures { MatchOption result ((whole.old ≡ []) × (whole.new ≡ []) × (named_in array.new ≡ []))
        (λ b. whole.old ≡ (whole.new ++ named_in array.new) ++ b ∷ []) }
{
    let mut last = whole.take()?.into_buffers();
    let buf = last.take_last();
    *array = Some(last);
    Some(buf)
}

// The buffers are counted, and not printed.
impl fmt::Debug for Magazine<'_> {
    fn fmt<W: fmt::Write>(&self, f: &mut fmt::Formatter<W>) -> fmt::Result {
        write!(f, "Magazine({} buffers)", self.len())
    }
}
