//! All slots at home of one owner.
ghost use Rattle.std.specs.Prelude.{◌≡◌, ◌≢◌, ◌<◌, ◌↔◌, [], ◌∷◌, ◌++◌, IsTrue, IsPermutation, IfSome, MatchBool, MatchOption, MatchResult, OnOk};
ghost use Rattle.std.specs.Prelude.{OnErr, All, length, map};
ghost use Rattle.region_cut.specs.Classes.{slots_of};
ghost use Rattle.slot_chain.specs.Buffer.{Buffer, ended_of, owner_limit};
ghost use Rattle.slot_chain.specs.Counts.{capped};
ghost use Rattle.slot_chain.specs.Parcels.{EmptiesSome};
ghost use Rattle.pool_desk.specs.Homes.{Draws, GivesOne, IsOwn, IsReady, comes_home, kept_in, slot_at, unused_from};
ghost use Rattle.pool_desk.specs.Spares.{IsFitting};
ghost use Rattle.pool_desk.specs.Homes.AtHome.{Kept};
ghost use Rattle.slot_chain.specs.Slots.{AddsSlots};
ghost use Rattle.pool_desk.specs.HomesState.{HasChunk, LacksChunk, HasClass, LacksClass, IsWanting};

use crate::DeskError;
use crate::by_class::{ByClass, add_all, count_all, empty_homes, end_all};
use crate::home::Placing;
use crate::spares::Spares;
use region_cut::endings::Endings;
use region_cut::{Class, Part, Slot};
use slot_chain::{Buf, BufParcel, NoMemory};
use std::alloc::Global;
use std::marker::Model;

/// The slots at home of all classes, and what is known of all chunks that were claimed. There is a
/// home for each of the 20 classes, also for those that the profile doesn't use.
pub(crate) struct Homes<'r> {
    owner: u16,
    by_class: ByClass<'r>,
}

impl<'r> Model for Homes<'r> {
    ghost use Rattle.std.specs.List.{flat_map};
    ghost use Rattle.pool_desk.specs.HomesState.{HomesState, AreHomes, slots_of_home, drawn_at};

    ghost Value = { HomesState };

    ghost view = { λ h. record {
      owner = h.owner;
      slots = flat_map slots_of_home h.by_class.items;
      drawn = flat_map drawn_at h.by_class.items;
    } };

    ghost invariant = { λ h. AreHomes h.owner h.by_class.items };
}

// By hand, so that the drop of its array is proved here once, and not again in each crate that lets a
// desk go.
impl Drop for Homes<'_> {
    fn drop(self) {
        let Homes { owner: _, by_class } = self;
        drop(by_class);
    }
}

impl<'r> Homes<'r> {
    /// Nothing is at home.
    pub(crate) fn new(owner: u16) -> Homes<'r>
        requires { owner < owner_limit }
        ensures { result ≡ record { owner = owner; slots = []; drawn = [] } }
    {
        Homes {
            owner,
            by_class: empty_homes(owner),
        }
    }

    /// The desk that owns all of it.
    pub(crate) fn owner(&self) -> u16
        ensures value { result ≡ self.now.owner }
        ensures own { All (IsOwn self.now.owner) self.now.slots }
    {
        self.owner
    }

    /// Whether a slot of the class is there.
    pub(crate) fn has(&self, class: Class) -> bool
        ensures { IsTrue result ↔ HasClass class self.now.slots }
    {
        self.by_class[class.number() as usize].has()
    }

    /// Whether a part was ever taken for the class.
    pub(crate) fn has_drawn(&self, class: Class) -> bool
        ensures { MatchBool result (HasChunk class self.now.drawn) (LacksChunk class self.now.drawn) }
    {
        self.by_class[class.number() as usize].has_drawn()
    }

    /// Takes a part for a class of which no slot is there.
    pub(crate) fn claim(&mut self, part: Part<'r>, class: Class)
        requires { HasClass class self.old.slots → ⊥ }
        ensures same { self.new ≡ record self.old { slots = self.new.slots; drawn = self.new.drawn } }
        ensures needed { LacksClass class self.old.slots }
        ensures slots { IsPermutation
            (unused_from part.entry.chunk class part.entry.bytes.ghost_name (slots_of class) 0 part.entry.bytes.now
            ++ self.old.slots) self.new.slots }
        ensures drawn { Draws part.entry class self.old.drawn self.new.drawn }
    {
        self.by_class[class.number() as usize].claim(part);
    }

    /// Gives out a slot of the class: one that came home, else the next that was never handed out.
    #[inline(always)]
    pub(crate) fn alloc(
        &mut self,
        alloc: Global,
        class: Class,
        spares: &mut Spares<'r>,
    ) -> Result<Buf<'r>, DeskError>
        ensures same { self.new ≡ record self.old { slots = self.new.slots; drawn = self.new.drawn } }
        ensures value { MatchResult result
            (λ b. GivesOne self.old.owner class self.old.slots b self.new.slots self.old.drawn self.new.drawn)
            (λ e. IsWanting class self.old.slots e × (self.new ≡ self.old)) }
    {
        self.by_class[class.number() as usize].alloc(alloc, spares)
    }

    /// Takes an own buffer home, of which nothing is filled.
    #[inline(always)]
    pub(crate) fn keep(&mut self, buf: Buf<'r>, placing: Placing)
        requires owner { buf.owner ≡ self.old.owner }
        requires empty { buf.filled ≡ 0 }
        ensures same { self.new ≡ record self.old { slots = self.new.slots } }
        ensures slots { IsPermutation (Kept buf.entry ∷ self.old.slots) self.new.slots }
    {
        let class = buf.class();
        self.by_class[class.number() as usize].keep(buf, placing);
    }

    /// Takes own buffers home, each emptied, and gives out their array, which then names none.
    #[inline(always)]
    pub(crate) fn keep_all(&mut self, array: Vec<Buf<'r>>, placing: Placing) -> Vec<Buf<'r>>
        requires { All (λ (b : Buffer). b.owner ≡ self.old.owner) array.items }
        ensures same { self.new ≡ record self.old { slots = self.new.slots } }
        ensures slots { IsPermutation
            (map comes_home array.entry.items ++ self.old.slots) self.new.slots }
        ensures emptied { result.items ≡ [] }
    {
        let mut array = array;
        while let Some(mut buf) = array.pop() {
            buf.clear();
            self.keep(buf, placing);
        }
        array
    }

    /// The class of an own parcel that may come home as it lies, each of its buffers emptied: all are of that
    /// class, and there is a place for it. Else some of its buffers may be emptied.
    pub(crate) fn class_of_whole(&mut self, parcel: &mut BufParcel<'r>) -> Option<Class>
        requires { parcel.old.owner ≡ self.old.owner }
        ensures same { self.new ≡ self.old }
        ensures emptied { EmptiesSome parcel.old parcel.new }
        ensures ready { IfSome result (λ class. (parcel.new.items ≢ []) × All (IsReady self.old.owner class) parcel.new.items) }
    {
        let _packed = parcel.owner();
        let class = parcel.buffers().first()?.class();
        if self.has_room(class) && parcel.empty_alike(class) {
            Some(class)
        } else {
            None
        }
    }

    // Whether there is a place for a parcel of the class.
    fn has_room(&mut self, class: Class) -> bool
        ensures { self.new ≡ self.old }
    {
        self.by_class[class.number() as usize].has_room()
    }

    /// Takes own buffers of the class home as they lie in a parcel.
    pub(crate) fn keep_whole(&mut self, parcel: BufParcel<'r>, class: Class)
        requires some { parcel.items ≢ [] }
        requires each { All (IsReady self.old.owner class) parcel.items }
        ensures same { self.new ≡ record self.old { slots = self.new.slots } }
        ensures slots { IsPermutation (map Kept parcel.entry.items ++ self.old.slots) self.new.slots }
    {
        self.by_class[class.number() as usize].keep_whole(parcel);
    }

    /// Takes out the parcel of the class that came home last, where it has so many places and at most `most`
    /// buffers.
    pub(crate) fn take_whole(
        &mut self,
        class: Class,
        most: usize,
        places: usize,
    ) -> Option<BufParcel<'r>>
        ensures same { self.new ≡ record self.old { slots = self.new.slots } }
        ensures value { MatchOption result (self.new ≡ self.old)
            (λ p. IsFitting most places p × All (IsReady self.old.owner class) p.items
            × IsPermutation self.old.slots (map Kept p.items ++ self.new.slots)) }
    {
        self.by_class[class.number() as usize].take_whole(most, places)
    }

    /// Makes room for parcels of the class, where one found no place.
    pub(crate) fn make_room(&mut self, alloc: Global, class: Class)
        ensures { self.new ≡ self.old }
    {
        self.by_class[class.number() as usize].make_room(alloc);
    }

    /// The number of slots, or the greatest `u64` where that is less.
    pub(crate) fn count(&self) -> u64
        ensures { result ≡ capped (length self.now.slots) }
    {
        count_all(self.by_class.as_slice())
    }

    /// Adds the slots to the end of `slots`, or none where memory is refused.
    pub(crate) fn list_slots(&self, slots: &mut Vec<Slot>) -> Result<(), NoMemory>
        ensures ok { OnOk result (AddsSlots (map slot_at self.now.slots) slots.old.items slots.new.items) }
        ensures err { OnErr result (slots.new.items ≡ slots.old.items) }
    {
        let start = slots.len();
        if add_all(self.by_class.as_slice(), slots).is_ok() {
            return Ok(());
        }
        slots.truncate(start);
        Err(NoMemory)
    }

    /// Lets go the buffers and the cursors.
    pub(crate) fn end(self, endings: &mut Endings<'r>)
        ensures { endings.new ≡ record {
          known = map ended_of (kept_in self.entry.slots) ++ endings.old.known;
          chunks = self.entry.drawn ++ endings.old.chunks;
        } }
    {
        let Homes { owner: _, by_class } = self;
        end_all(by_class, endings);
    }
}
