//! Lists of buffers that stay in one thread.
ghost use Rattle.std.specs.Prelude.{◌≡◌, ◌↔◌, [], ◌∷◌, ◌++◌, length, map, IsTrue, IsPermutation, MatchOption, OnOk, OnErr};
ghost use Rattle.slot_chain.specs.Buffer.{Buffer, ended_of};
ghost use Rattle.slot_chain.specs.Counts.{capped};
ghost use Rattle.slot_chain.specs.Slots.{AddsSlots, slot_of};

use crate::buf::Buf;
use crate::chain::Chain;
use crate::error::NoMemory;
use crate::late_handle::LateHandle;
use crate::parcel::end_each;
use crate::parcels::Parcels;
use crate::walk::add_slots;
use region_cut::Slot;
use region_cut::endings::Endings;
use std::alloc::Global;
use std::fmt;
use std::marker::Model;

/// Buffers that stay in one thread. In contracts it is the list of them, whose last is taken first.
///
/// A buffer is linked, which writes to its box, or named by an array of pointers, which doesn't: other
/// threads may read what lies beside the box. So [`Stack::push`] is for what this thread used last, and
/// [`Stack::store`] for what another thread did. What is named is taken first.
///
/// Only [`Stack::make_room`] and [`Stack::list_slots_with`] take memory; no other call can fail. A stack
/// may be dropped, with all its buffers.
#[must_use]
#[derive(Drop)]
pub struct Stack<'r> {
    linked: Chain<'r>,
    // It has no memory before `make_room`.
    named: Vec<Buf<'r>, LateHandle<Global>>,
}

impl<'r> Model for Stack<'r> {
    ghost use Rattle.std.specs.Prelude.{List, ◌++◌};
    ghost use Rattle.slot_chain.specs.Buffer.{Buffer};

    ghost Value = { List Buffer };

    ghost view = { λ s. s.linked ++ s.named.items };
}

impl<'r> Stack<'r> {
    /// An empty list, without an array. It takes no memory.
    pub fn new() -> Stack<'r>
        ensures { result ≡ [] }
    {
        Stack {
            linked: Chain::new(),
            named: Vec::new(LateHandle::none()),
        }
    }

    /// Links a buffer to the others, to be taken next where the array names none. Takes constant time.
    pub fn push(&mut self, buf: Buf<'r>)
        ensures { IsPermutation (self.old ++ buf.entry ∷ []) self.new }
    {
        self.linked.push(buf);
    }

    /// Puts a buffer into the array, or links it where that has no place for it. Takes constant time.
    #[inline]
    pub fn store(&mut self, buf: Buf<'r>)
        ensures { IsPermutation (self.old ++ buf.entry ∷ []) self.new }
    {
        if self.named.len() < self.named.capacity() {
            self.named.push_reserved(buf);
        } else {
            link(&mut self.linked, buf);
        }
    }

    /// Takes the last buffer of the array, else the one that was linked last, or `None` where there is none.
    /// Takes constant time.
    #[inline(always)]
    pub fn pop(&mut self) -> Option<Buf<'r>>
        ensures { MatchOption result ((self.old ≡ []) × (self.new ≡ [])) (λ b. self.old ≡ self.new ++ b ∷ []) }
    {
        if let Some(buf) = self.named.pop() {
            return Some(buf);
        }
        self.linked.pop()
    }

    /// For how many buffers its array has places.
    pub fn places(&self) -> usize {
        self.named.capacity()
    }

    /// Makes room in the array for pointers to so many buffers, where it has less and names none. Where
    /// memory is refused, all stays as it is.
    pub fn make_room(&mut self, alloc: Global, places: usize)
        ensures { self.new ≡ self.old }
    {
        if self.places() >= places || !self.named.is_empty() {
            return;
        }
        if let Ok(named) = Vec::with_capacity(LateHandle::of(alloc), places) {
            self.named = named;
        }
    }

    /// Whether there is no buffer. Takes constant time.
    #[tactic(auto, using(crate::proofs::Stacked::both_are_none))]
    #[inline]
    pub fn is_empty(&self) -> bool
        ensures { IsTrue result ↔ (self.now ≡ []) }
    {
        self.linked.is_empty() && self.named.is_empty()
    }

    /// The number of buffers, or the greatest `u64` where that is less. Those that are linked are
    /// counted by a walk.
    pub fn len(&self) -> u64
        ensures { result ≡ capped (length self.now) }
    {
        self.linked.len().saturating_add(self.named.len() as u64)
    }

    /// Adds the slots of its buffers and of those of the parcels to the end of `slots`, in no order.
    /// Where memory for that is refused, `slots` is as before. Takes a walk over the buffers.
    pub fn list_slots_with(
        &self,
        parcels: &Parcels<'r>,
        slots: &mut Vec<Slot>,
    ) -> Result<(), NoMemory>
        ensures ok { OnOk result (AddsSlots (map slot_of (parcels.now ++ self.now)) slots.old.items slots.new.items) }
        ensures err { OnErr result (slots.new.items ≡ slots.old.items) }
    {
        let walk = self
            .linked
            .walk_behind(parcels.as_slice(), self.named.as_slice());
        add_slots(walk, slots)
    }

    /// Lets go all buffers: it is then known what each ends as. Takes a walk over them.
    pub fn end(self, endings: &mut Endings<'r>)
        ensures { endings.new ≡ record endings.old { known = map ended_of self.entry ++ endings.old.known } }
    {
        let Stack { linked, named } = self;
        end_each(named, endings);
        linked.end(endings);
    }
}

// By itself, so that the short way stands inline at who stores.
#[cold]
#[inline(never)]
fn link<'r>(linked: &mut Chain<'r>, buf: Buf<'r>)
    ensures { linked.new ≡ linked.old ++ buf.entry ∷ [] }
{
    linked.push(buf);
}

// The buffers are counted, and not printed.
impl fmt::Debug for Stack<'_> {
    fn fmt<W: fmt::Write>(&self, f: &mut fmt::Formatter<W>) -> fmt::Result {
        write!(f, "Stack({} buffers)", self.len())
    }
}
