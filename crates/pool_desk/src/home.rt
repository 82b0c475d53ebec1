//! The slots at home of one class.
ghost use Rattle.std.specs.Prelude.{◌≡◌, ◌≢◌, ℕ, ◌<◌, ◌≤◌, ◌↔◌, [], ◌∷◌, ◌++◌, All, IsTrue, IsPermutation};
ghost use Rattle.std.specs.Prelude.{List, MatchOption, MatchResult, OnOk, OnErr, length, min, ◌^◌, ◌-◌, map};
ghost use Rattle.slot_chain.specs.Buffer.{Buffer, ended_of, owner_limit};
ghost use Rattle.pool_desk.specs.Homes.{AtHome, IsReady, LiesIn, GivesOne, IsRefused, Draws, kept_in, slot_at, unused_from};
ghost use Rattle.pool_desk.specs.Spares.{IsFitting};
ghost use Rattle.pool_desk.specs.NextSlots.{GivesNext, GivesNextSlot};
ghost use Rattle.pool_desk.specs.Homes.AtHome.{Kept};
ghost use Rattle.region_cut.specs.Classes.{slots_of};
ghost use Rattle.region_cut.specs.Bumps.{left_of};
ghost use Rattle.pool_desk.specs.Slots.{AddsOn};

use crate::DeskError;
use crate::listing::add_unused;
use crate::spares::Spares;
use region_cut::endings::{Endings, Ties};
use region_cut::{Bump, Class, Part, Slot};
use slot_chain::{Buf, BufParcel, NoMemory, Parcels, Room, Stack};
use std::alloc::Global;
use std::marker::Model;

// For how many parcels there is room, at least and at most, where one is to be kept.
const LEAST: usize = 16;

const MOST: usize = 1024;

/// How a buffer is put to those at home: linked, which writes to its box, or named by an array, which
/// doesn't, since other threads may read what lies beside the box.
#[derive(Clone, Copy)]
pub(crate) enum Placing {
    Linked,
    Named,
}

/// The buffers of one class that came home, and the slots of the chunk drawn last that were never
/// handed out.
// It takes 128 bytes, so that its place in a row is a shift away.
#[derive(Drop)]
pub(crate) struct Home<'r> {
    list: Stack<'r>,
    owner: u16,
    class: Class,
    // Whether a parcel found no place among the whole ones.
    wants_room: bool,
    // How many slots were claimed: all may be at home at once.
    claimed: u32,
    // Parcels in which buffers came home, to be lent as they lie.
    whole: Parcels<'r>,
    bump: Option<Bump<'r>>,
    ties: Ties,
    // Nothing reads it: with it a home takes 128 bytes.
    apart: [u64; 4],
}

impl<'r> Model for Home<'r> {
    ghost use Rattle.std.specs.Prelude.{◌≡◌, [], ◌++◌, ◌<◌, map, All, IfSome, None};
    ghost use Rattle.slot_chain.specs.Buffer.{Buffer, owner_limit};
    ghost use Rattle.region_cut.specs.declared.part.Bump.{Bump};
    ghost use Rattle.region_cut.specs.Carved.{Carved};
    ghost use Rattle.pool_desk.specs.Homes.{HomeState, AtHome, IsReady, LiesIn, unused, open_chunk};
    ghost use Rattle.pool_desk.specs.Homes.AtHome.{Kept};

    ghost Value = { HomeState };

    ghost view = { λ h. record {
      owner = h.owner;
      class = h.class;
      slots = map Kept (h.whole ++ h.list) ++ unused h.bump;
      drawn = open_chunk h.bump ++ h.ties.all;
    } };

    ghost invariant = { λ h. (h.owner < owner_limit)
        × All (LiesIn h.owner h.class) h.list
        × All (IsReady h.owner h.class) h.whole
        × IfSome h.bump (λ (b : Bump). b.class ≡ h.class)
        × All (λ (c : Carved). c.class ≡ h.class) h.ties.all
        × (h.bump ≡ None → h.ties.all ≡ []) };
}

impl Default for Home<'_> {
    ghost use Rattle.pool_desk.specs.HomesState.{no_home};

    ghost is_default = { λ h. h ≡ no_home };

    fn default() -> Self {
        Home::new(0, Class::FIRST)
    }
}

impl<'r> Home<'r> {
    /// Nothing is at home.
    pub(crate) fn new(owner: u16, class: Class) -> Home<'r>
        requires { owner < owner_limit }
        ensures { result ≡ record { owner = owner; class = class; slots = []; drawn = [] } }
    {
        Home {
            list: Stack::new(),
            owner,
            class,
            wants_room: false,
            claimed: 0,
            whole: Parcels::new(),
            bump: None,
            ties: Ties::new(),
            apart: [0; 4],
        }
    }

    /// Whether a slot is there.
    pub(crate) fn has(&self) -> bool
        ensures { IsTrue result ↔ (self.now.slots ≢ []) }
    {
        if !self.list.is_empty() {
            return true;
        }
        if !self.whole.is_empty() {
            return true;
        }
        match &self.bump {
            None => false,
            Some(bump) => bump.left() > 0,
        }
    }

    /// Whether it ever took a part.
    pub(crate) fn has_drawn(&self) -> bool
        ensures { IsTrue result ↔ (self.now.drawn ≢ []) }
    {
        self.bump.is_some()
    }

    /// Takes a part for the class, where no slot is there.
    pub(crate) fn claim(&mut self, part: Part<'r>)
        requires { self.old.slots ≡ [] }
        ensures same { self.new ≡ record self.old {
          slots = unused_from part.entry.chunk self.old.class
              part.entry.bytes.ghost_name (slots_of self.old.class) 0 part.entry.bytes.now;
          drawn = self.new.drawn;
        } }
        ensures drawn { Draws part.entry self.old.class self.old.drawn self.new.drawn }
    {
        self.claimed = self.claimed.saturating_add(self.class.slots() as u32);
        match &mut self.bump {
            Some(bump) => bump.renew(part, &mut self.ties),
            None => self.bump = Some(part.bump(self.class)),
        }
    }

    /// Gives out a slot, of which nothing is filled: one of the list, else one of the parcel that came last,
    /// which is then taken apart, else one that was never handed out.
    #[inline(always)]
    pub(crate) fn alloc(
        &mut self,
        alloc: Global,
        spares: &mut Spares<'r>,
    ) -> Result<Buf<'r>, DeskError>
        ensures same { self.new ≡ record self.old { slots = self.new.slots; drawn = self.new.drawn } }
        ensures value { MatchResult result
            (λ b. GivesOne self.old.owner self.old.class self.old.slots b self.new.slots self.old.drawn self.new.drawn)
            (λ e. IsRefused self.old.class self.old.slots e × (self.new ≡ self.old)) }
    {
        if let Some(buf) = self.list.pop() {
            return Ok(buf);
        }
        if let Some(buf) = take_apart(&mut self.whole, &mut self.list, spares) {
            return Ok(buf);
        }
        make_places(&mut self.list, alloc, self.claimed);
        let Some(bump) = &mut self.bump else {
            return Err(DeskError::NeedChunk(self.class));
        };
        next_slot(bump, alloc, self.class, self.owner)
    }

    /// Takes an own buffer home, of which nothing is filled.
    #[inline(always)]
    pub(crate) fn keep(&mut self, buf: Buf<'r>, placing: Placing)
        requires { LiesIn self.old.owner self.old.class buf }
        ensures same { self.new ≡ record self.old { slots = self.new.slots } }
        ensures slots { IsPermutation (Kept buf.entry ∷ self.old.slots) self.new.slots }
    {
        match placing {
            Placing::Linked => self.list.push(buf),
            Placing::Named => self.list.store(buf),
        }
    }

    /// Whether there is a place for a parcel. Where there is none, [`Home::make_room`] makes some
    /// when it is called next.
    pub(crate) fn has_room(&mut self) -> bool
        ensures { self.new ≡ self.old }
    {
        let has_room = self.whole.has_room();
        if !has_room {
            self.wants_room = true;
        }
        has_room
    }

    /// Takes own buffers home as they lie in a parcel, of which nothing is filled.
    pub(crate) fn keep_whole(&mut self, parcel: BufParcel<'r>)
        requires some { parcel.items ≢ [] }
        requires each { All (IsReady self.old.owner self.old.class) parcel.items }
        ensures same { self.new ≡ record self.old { slots = self.new.slots } }
        ensures slots { IsPermutation (map Kept parcel.entry.items ++ self.old.slots) self.new.slots }
    {
        if let Some(parcel) = self.whole.put(parcel) {
            let mut array = parcel.into_buffers();
            store_all(&mut self.list, &mut array);
        }
    }

    /// Takes out the parcel that came home last, where it has so many places and at most `most` buffers.
    pub(crate) fn take_whole(&mut self, most: usize, places: usize) -> Option<BufParcel<'r>>
        ensures same { self.new ≡ record self.old { slots = self.new.slots } }
        ensures value { MatchOption result (self.new ≡ self.old)
            (λ p. IsFitting most places p × All (IsReady self.old.owner self.old.class) p.items
            × IsPermutation self.old.slots (map Kept p.items ++ self.new.slots)) }
    {
        self.whole.take_fitting(most, places)
    }

    /// Makes room for parcels where one found no place and none is there: twice as much as before, from 16
    /// to 1,024. Where memory is refused, all stays as it is.
    pub(crate) fn make_room(&mut self, alloc: Global)
        ensures { self.new ≡ self.old }
    {
        if !self.wants_room || !self.whole.is_empty() {
            return;
        }
        let places = self.whole.places().saturating_mul(2).max(LEAST).min(MOST);
        self.wants_room = !self.whole.make_room(alloc, places);
    }

    /// The number of slots.
    pub(crate) fn count(&self) -> u64
        ensures { result ≡ min (length self.now.slots) (2 ^ 64 - 1) }
    {
        let left = match &self.bump {
            None => 0,
            Some(bump) => bump.left() as u64,
        };
        let kept = self.whole.len().saturating_add(self.list.len());
        kept.saturating_add(left)
    }

    /// Adds the slots. Where memory is refused some of them are added.
    pub(crate) fn add_slots(&self, slots: &mut Vec<Slot>) -> Result<(), NoMemory>
        ensures { AddsOn result (map slot_at self.now.slots) slots.old.items slots.new.items }
    {
        self.list.list_slots_with(&self.whole, slots)?;
        match &self.bump {
            None => Ok(()),
            Some(bump) => add_unused(bump, slots),
        }
    }

    /// Lets go the buffers and the cursor.
    pub(crate) fn end(self, endings: &mut Endings<'r>)
        ensures { endings.new ≡ record {
          known = map ended_of (kept_in self.entry.slots) ++ endings.old.known;
          chunks = self.entry.drawn ++ endings.old.chunks;
        } }
    {
        let Home {
            list,
            owner: _,
            class: _,
            wants_room: _,
            claimed: _,
            whole,
            bump,
            ties,
            apart: _,
        } = self;
        list.end(endings);
        whole.end(endings);
        endings.keep(ties);
        if let Some(bump) = bump {
            endings.carve(bump);
        }
    }
}

// Makes a place in an empty list for each slot that was claimed, and at least twice as many as before. Where
// memory is refused, buffers will be linked.
#[inline(never)]
fn make_places(list: &mut Stack<'_>, alloc: Global, claimed: u32)
    ensures { list.new ≡ list.old }
{
    let places = list.places();
    let claimed = claimed as usize;
    if places < claimed {
        list.make_room(alloc, claimed.max(places.saturating_mul(2)));
    }
}

// Takes the parcel that came last apart: gives out its last buffer, and puts the others into the list.
#[cold]
#[inline(never)]
fn take_apart<'r>(
    whole: &mut Parcels<'r>,
    list: &mut Stack<'r>,
    spares: &mut Spares<'r>,
) -> Option<Buf<'r>>
    ensures { MatchOption result ((whole.old ≡ []) × (whole.new ≡ []) × (list.new ≡ list.old))
        (λ b. (rest : List Buffer) × (whole.old ≡ whole.new ++ (rest ++ b ∷ []))
        × IsPermutation (list.old ++ rest) list.new) }
{
    let mut array = whole.take()?.into_buffers();
    let buf = array.take_last();
    store_all(list, &mut array);
    spares.keep(array);
    Some(buf)
}

// Puts the buffers that an array names into the list, and leaves it empty.
fn store_all<'r>(list: &mut Stack<'r>, array: &mut Vec<Buf<'r>>)
    ensures list { IsPermutation (list.old ++ array.old.items) list.new }
    ensures emptied { array.new.items ≡ [] }
{
    while let Some(buf) = array.pop() {
        list.store(buf);
    }
}

// Gives out the next slot of a cursor, where one is left.
fn next_slot<'r>(
    bump: &mut Bump<'r>,
    alloc: Global,
    class: Class,
    owner: u16,
) -> Result<Buf<'r>, DeskError>
    requires class { class ≡ bump.old.class }
    requires owner { owner < owner_limit }
    ensures class { bump.new.class ≡ bump.old.class }
    ensures value { GivesNextSlot owner class bump.old result bump.new }
{
    if bump.left() == 0 {
        return Err(DeskError::NeedChunk(class));
    }
    match make(bump, alloc, class, owner) {
        Ok(buf) => Ok(buf),
        Err(NoMemory) => Err(DeskError::NoMemory),
    }
}

// Makes a buffer of the next slot. Its answer has no `DeskError`, so that it comes in registers: who
// asks for a slot that is at home then makes no room for it.
#[cold]
#[inline(never)]
fn make<'r>(
    bump: &mut Bump<'r>,
    alloc: Global,
    class: Class,
    owner: u16,
) -> Result<Buf<'r>, NoMemory>
    requires class { class ≡ bump.old.class }
    requires owner { owner < owner_limit }
    requires left { 0 < left_of bump.old }
    ensures class { bump.new.class ≡ bump.old.class }
    ensures value { MatchResult result
        (λ b. GivesNext owner class bump.old b bump.new)
        (λ _. bump.new ≡ bump.old) }
{
    let room = Room::new(alloc)?;
    let Some(piece) = bump.next() else {
        unreachable!();
    };
    Ok(room.fill(piece, class, owner))
}
