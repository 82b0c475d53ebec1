//! The row that a cache and a posting stand on.
ghost use Rattle.std.specs.Prelude.{◌≡◌, ◌≢◌, ℕ, ◌+◌, ◌^◌, ◌<◌, ◌≤◌, ◌↔◌, [], ◌∷◌, ◌++◌, length, map, MatchOption};
ghost use Rattle.std.specs.Prelude.{All, Any, IsPermutation, IsTrue, OnOk, OnErr};
ghost use Rattle.slot_chain.specs.Buffer.{Buffer, ended_of};
ghost use Rattle.slot_chain.specs.Counts.{capped, sizes};
ghost use Rattle.digit_route.specs.Digits.{common, digit};
ghost use Rattle.digit_route.specs.Route.{IsWellRouted, RouteFault, TakesBucket};
ghost use Rattle.digit_route.specs.Rows.{IsLeft, Keeps};
ghost use Rattle.slot_chain.specs.Slots.{AddsSlots, slot_of};
ghost use Rattle.digit_route.specs.Route.{GivesBucket};

use crate::magazines::{
    Magazines, all_empty, append_at, bytes, empty_magazines, end_all, find_other, len, list_slots,
    make_room, push_at, reuse_at, set_at, take_at,
};
use crate::moves::{scatter, scatter_all, split};
use crate::walks::{fault_in, some_owner};
use crate::{Batch, Digits, RouteError};
use region_cut::Slot;
use region_cut::endings::Endings;
use slot_chain::{Buf, BufParcel, EmptyMagazine, Magazine, NoMemory};
use std::alloc::Global;
use std::marker::Model;

/// Buffers of other desks that share the digits below `round` with the desk `number`, each in the
/// magazine of its owner's digit `round`.
pub(crate) struct Row<'r> {
    number: u16,
    digits: Digits,
    round: u32,
    magazines: Magazines<'r>,
}

impl<'r> Model for Row<'r> {
    ghost use Rattle.std.specs.List.{flat_map};
    ghost use Rattle.digit_route.specs.Rows.{Row as Shown, IsRow};

    ghost Value = { Shown };

    ghost view = { λ r. record {
      number = r.number;
      digits = r.digits;
      round = r.round;
      items = flat_map (λ x. x) r.magazines.items;
    } };

    ghost invariant = { λ r. IsRow r.digits r.number r.round r.magazines.items };
}

// By hand, so that the drop of its array is proved here once, and not again in each crate that lets a
// cache go.
impl Drop for Row<'_> {
    fn drop(self) {
        let Row {
            number: _,
            digits: _,
            round: _,
            magazines,
        } = self;
        drop(magazines);
    }
}

impl<'r> Row<'r> {
    /// An empty row, by the first digit.
    pub(crate) fn new(number: u16, digits: Digits) -> Row<'r>
        requires { number < 2 ^ digits.bits }
        ensures { result ≡ record { number = number; digits = digits; round = 0; items = [] } }
    {
        let _known = digits.count();
        let magazines = empty_magazines(digits.values());
        Row {
            number,
            digits,
            round: 0,
            magazines,
        }
    }

    /// The desk.
    pub(crate) fn number(&self) -> u16
        ensures value { result ≡ self.now.number }
        ensures keeps { Keeps self.now }
    {
        self.number
    }

    /// How numbers are read.
    pub(crate) fn digits(&self) -> Digits
        ensures value { result ≡ self.now.digits }
        ensures keeps { Keeps self.now }
    {
        self.digits
    }

    /// The digit that the row stands by.
    pub(crate) fn round(&self) -> u32
        ensures value { result ≡ self.now.round }
        ensures keeps { Keeps self.now }
    {
        self.round
    }

    /// Makes room for what comes.
    pub(crate) fn make_room(&mut self, alloc: Global)
        ensures { self.new ≡ self.old }
    {
        make_room(&mut self.magazines, alloc);
    }

    /// Gives the magazine in which owners stand like `t` the memory of an empty one, where it wants some.
    pub(crate) fn reuse(&mut self, t: u16, empty: EmptyMagazine<'r>)
        ensures { self.new ≡ self.old }
    {
        let k = self.digits.digit(t, self.round);
        reuse_at(&mut self.magazines, k as usize, empty);
    }

    /// Whether no buffer is left.
    pub(crate) fn is_empty(&self) -> bool
        ensures { IsTrue result ↔ (self.now.items ≡ []) }
    {
        all_empty(self.magazines.as_slice())
    }

    /// How many buffers there are, or the greatest `u64`, found by a walk.
    pub(crate) fn len(&self) -> u64
        ensures { result ≡ capped (length self.now.items) }
    {
        len(self.magazines.as_slice())
    }

    /// The sum of the sizes in bytes, or the greatest `u64`, found by a walk.
    pub(crate) fn bytes(&self) -> u64
        ensures { result ≡ capped (sizes self.now.items) }
    {
        bytes(self.magazines.as_slice())
    }

    /// Adds the slots of all buffers, or none.
    pub(crate) fn list_slots(&self, slots: &mut Vec<Slot>) -> Result<(), NoMemory>
        ensures ok { OnOk result (AddsSlots (map slot_of self.now.items) slots.old.items slots.new.items) }
        ensures err { OnErr result (slots.new.items ≡ slots.old.items) }
    {
        list_slots(self.magazines.as_slice(), slots)
    }

    /// Lets go all buffers.
    pub(crate) fn end(self, endings: &mut Endings<'r>)
        ensures { endings.new ≡ record endings.old { known = map ended_of self.entry.items ++ endings.old.known } }
    {
        let Row {
            number: _,
            digits: _,
            round: _,
            magazines,
        } = self;
        end_all(magazines, endings);
    }

    /// Adds a buffer to a row by the first digit.
    pub(crate) fn push(&mut self, item: Buf<'r>)
        requires round { self.old.round ≡ 0 }
        requires left { IsLeft self.old.digits self.old.number self.old.round item }
        ensures same { self.new ≡ record self.old { items = self.new.items } }
        ensures items { IsPermutation (self.old.items ++ item.entry ∷ []) self.new.items }
    {
        let k = self.digits.digit(item.owner(), 0);
        push_at(&mut self.magazines, k as usize, item);
    }

    /// Adds the buffers of a parcel to a row by the first digit.
    pub(crate) fn append(&mut self, parcel: BufParcel<'r>)
        requires round { self.old.round ≡ 0 }
        requires left { All (IsLeft self.old.digits self.old.number self.old.round) parcel.items }
        ensures same { self.new ≡ record self.old { items = self.new.items } }
        ensures items { IsPermutation (self.old.items ++ parcel.entry.items) self.new.items }
    {
        let k = self.digits.digit(parcel.owner(), 0);
        append_at(&mut self.magazines, k as usize, parcel);
    }

    /// Adds the buffers of a magazine.
    pub(crate) fn push_all(&mut self, magazine: Magazine<'r>)
        requires { All (IsLeft self.old.digits self.old.number self.old.round) magazine }
        ensures same { self.new ≡ record self.old { items = self.new.items } }
        ensures items { IsPermutation (self.old.items ++ magazine.entry) self.new.items }
    {
        let _moved = scatter(&mut self.magazines, self.digits, self.round, magazine);
    }

    /// Adds the buffers of a batch for `address` to a row by the first digit, by which all of them have
    /// one place. Where no buffer stands there, the magazine is put there as it lies.
    pub(crate) fn restore(&mut self, address: u16, magazine: Magazine<'r>)
        requires round { self.old.round ≡ 0 }
        requires routed { IsWellRouted self.old.digits self.old.number address magazine }
        ensures same { self.new ≡ record self.old { items = self.new.items } }
        ensures items { IsPermutation (self.old.items ++ magazine.entry) self.new.items }
    {
        let k = self.digits.digit(address, 0) as usize;
        if self.magazines.as_slice()[k].is_empty() {
            set_at(&mut self.magazines, k, magazine);
        } else {
            self.push_all(magazine);
        }
    }

    /// Why no bucket for `t` is taken.
    pub(crate) fn fault_for(&self, t: u16) -> Option<RouteError>
        requires { self.now.round ≡ 0 }
        ensures { RouteFault self.now.digits self.now.number t self.now.items result }
    {
        if t == self.number {
            return Some(RouteError::ToSelf);
        }
        let k = self.digits.digit(t, 0);
        fault_in(
            &self.magazines.as_slice()[k as usize],
            self.digits,
            self.number,
            t,
        )
    }

    /// Takes out the bucket for `t`.
    pub(crate) fn take_for(&mut self, t: u16) -> Magazine<'r>
        requires { self.old.round ≡ 0 }
        ensures same { self.new ≡ record self.old { items = self.new.items } }
        ensures taken { TakesBucket self.old.digits self.old.number t self.old.items result self.new.items }
        ensures left { All (IsLeft self.old.digits self.old.number self.old.round) self.old.items }
    {
        let near = self.digits.common(self.number, t);
        let k = self.digits.digit(t, 0) as usize;
        let whole = take_at(&mut self.magazines, k);
        let (nearer, others) = split(whole, self.digits, near, t);
        set_at(&mut self.magazines, k, others);
        nearer
    }

    /// A digit other than the desk's own that some owner has.
    pub(crate) fn find_other(&self) -> Option<u16>
        ensures keeps { Keeps self.now }
        ensures value { let own = digit self.now.digits self.now.number self.now.round in
            MatchOption result
            (All (λ (b : Buffer). digit self.now.digits b.owner self.now.round ≡ own) self.now.items)
            (λ k. (k < 2 ^ self.now.digits.width) × (k ≢ own)
            × Any (λ (b : Buffer). digit self.now.digits b.owner self.now.round ≡ k) self.now.items) }
    {
        let own = self.digits.digit(self.number, self.round);
        match find_other(self.magazines.as_slice(), own as usize) {
            None => None,
            Some(k) => Some(k as u16),
        }
    }

    /// Takes out all buffers whose owners have the digit `k`.
    pub(crate) fn take(&mut self, k: u16) -> Magazine<'r>
        requires { k < 2 ^ self.old.digits.width }
        ensures same { self.new ≡ record self.old { items = self.new.items } }
        ensures items { IsPermutation self.old.items (result ++ self.new.items) }
        ensures only { All (λ (b : Buffer). digit self.old.digits b.owner self.old.round ≡ k) result }
        ensures all { All (λ (b : Buffer). digit self.old.digits b.owner self.old.round ≢ k) self.new.items }
        ensures left { All (IsLeft self.old.digits self.old.number self.old.round) self.old.items }
    {
        take_at(&mut self.magazines, k as usize)
    }

    /// Takes out a batch of this round: the bucket for an owner whose digit isn't the desk's own.
    /// Where all that are left have the desk's own, it says so, and changes nothing.
    pub(crate) fn take_other(&mut self) -> Option<Batch<'r>>
        ensures same { self.new ≡ record self.old { items = self.new.items } }
        ensures value { MatchOption result (self.new.items ≡ self.old.items)
            (λ b. GivesBucket self.old.digits self.old.number self.old.items b self.new.items) }
        ensures round { MatchOption result
            (All (λ (x : Buffer). self.old.round < common self.old.digits x.owner self.old.number) self.old.items)
            (λ b. All (λ (x : Buffer). common self.old.digits x.owner self.old.number ≡ self.old.round) b.items) }
    {
        match self.find_other() {
            Some(k) => {
                let magazine = self.take(k);
                let address = some_owner(&magazine);
                Some(self.batch(address, magazine))
            }
            None => None,
        }
    }

    /// Whether no buffer is left, where each owner shares more digits with the desk than those below
    /// the round: all that are left stand in one magazine then.
    pub(crate) fn own_is_empty(&self) -> bool
        requires { All (λ (x : Buffer). self.now.round < common self.now.digits x.owner self.now.number) self.now.items }
        ensures { IsTrue result ↔ (self.now.items ≡ []) }
    {
        let own = self.digits.digit(self.number, self.round);
        self.magazines.as_slice()[own as usize].is_empty()
    }

    /// The batch of the desk's own that has the magazine's buffers.
    pub(crate) fn batch(&self, address: u16, magazine: Magazine<'r>) -> Batch<'r>
        requires { IsWellRouted self.now.digits self.now.number address magazine }
        ensures { result ≡ record {
          sender = self.now.number;
          address = address;
          digits = self.now.digits;
          items = magazine.entry;
        } }
    {
        Batch::new(self.number, address, self.digits, magazine)
    }

    /// Goes on to the next digit, where all owners that are left have the desk's own, and counts
    /// the buffers moved.
    pub(crate) fn advance(&mut self) -> u64
        requires own { All (λ (b : Buffer). digit self.old.digits b.owner self.old.round
            ≡ digit self.old.digits self.old.number self.old.round) self.old.items }
        requires some { self.old.items ≢ [] }
        ensures same { self.new ≡ record self.old { round = self.old.round + 1; items = self.new.items } }
        ensures items { IsPermutation self.old.items self.new.items }
        ensures count { result ≡ capped (length self.old.items) }
        ensures keeps { Keeps self.new }
    {
        let own = self.digits.digit(self.number, self.round);
        let magazine = take_at(&mut self.magazines, own as usize);
        self.round += 1;
        scatter(&mut self.magazines, self.digits, self.round, magazine)
    }

    /// The same buffers by the first digit.
    pub(crate) fn restart(self) -> Row<'r>
        ensures same { result ≡ record self.entry { round = 0; items = result.items } }
        ensures items { IsPermutation self.entry.items result.items }
    {
        if self.round == 0 {
            return self;
        }
        let Row {
            number,
            digits,
            round: _,
            magazines,
        } = self;
        let mut fresh = empty_magazines(digits.values());
        scatter_all(&mut fresh, digits, 0, magazines);
        Row {
            number,
            digits,
            round: 0,
            magazines: fresh,
        }
    }
}
