//! Buffers of one allocator of a pool.
ghost use Rattle.std.specs.Prelude.{◌≡◌, ◌<◌, ◌≤◌, ◌^◌, ◌↔◌, [], ◌∷◌, ◌++◌, length, map, IsTrue, MatchBool, MatchOption, MatchResult};
ghost use Rattle.std.specs.Prelude.{Some, slice_get};
ghost use Rattle.std.specs.Fn.{FnOnceReturnsAtMut};
ghost use Rattle.region_cut.specs.Classes.{size_of};
ghost use Rattle.slot_chain.specs.Filling.{Extends, data_of, holding};
ghost use Rattle.slot_chain.specs.Parcels.{EditsAt, KeepsOut, Packs};
ghost use Rattle.slot_chain.specs.Slots.{slot_of};
ghost use Rattle.pool_desk.specs.Steps.{IsFilledUp, LendsWhole};
ghost use Rattle.pool_fabric.specs.Pages.{lent_all_on};

use crate::buffer::Buffer;
use crate::ledger::Page;
use crate::naming::Naming;
use loan_ledger::Receipt;
use pool_desk::Desk;
use region_cut::Class;
use slot_chain::{Buf, BufParcel, Full};
use std::alloc::Global;
use std::fmt;
use std::marker::{Model, PhantomData};

/// Buffers of one allocator of the pool that `J` names, which go from thread to thread and are freed as
/// a whole, by [`HeldStation::free_all`](crate::HeldStation::free_all). The thread that frees them looks at
/// none of them, as [`slot_chain::BufParcel`] says.
///
/// Its type keeps that its owner is one of the pool, so each allocator of the pool may free it, and no
/// other. It may be dropped: its slots are then lost until the region's borrow ends. The audit finds
/// them missing, and names the least missing slot.
#[must_use]
#[derive(Drop)]
pub struct Parcel<'r, J: Naming> {
    parcel: BufParcel<'r>,
    // One for all its buffers. It has no bytes.
    receipt: Receipt,
    of: PhantomData<J>,
}

impl<'r, J: Naming> Model for Parcel<'r, J> {
    ghost use Rattle.std.specs.Prelude.{◌≡◌, ◌<◌, ◌^◌, map};
    ghost use Rattle.slot_chain.specs.Slots.{slot_of};
    ghost use Rattle.slot_chain.specs.Parcels.{ParcelState};

    ghost Value = { ParcelState };

    ghost view = { λ p. p.parcel };

    ghost invariant = { λ p. (p.parcel.owner < 2 ^ J.names.digits.bits)
        × (p.receipt ≡ record { ledger = J.names.loans; slots = map slot_of p.parcel.items }) };
}

impl<'r, J: Naming> Parcel<'r, J> {
    /// The parcel, as one of the pool.
    pub(crate) fn new(parcel: BufParcel<'r>, receipt: Receipt) -> Parcel<'r, J>
        requires owner { parcel.owner < 2 ^ J.names.digits.bits }
        requires receipt { receipt ≡ record { ledger = J.names.loans; slots = map slot_of parcel.items } }
        ensures { result ≡ parcel.entry }
    {
        Parcel {
            parcel,
            receipt,
            of: PhantomData,
        }
    }

    /// The parcel and its receipt, to be freed.
    pub(crate) fn into_parts(self) -> (BufParcel<'r>, Receipt)
        ensures same { result.0 ≡ self.entry }
        ensures owner { result.0.owner < 2 ^ J.names.digits.bits }
        ensures receipt { result.1 ≡ record { ledger = J.names.loans; slots = map slot_of self.entry.items } }
    {
        let Parcel {
            parcel,
            receipt,
            of: _,
        } = self;
        (parcel, receipt)
    }

    /// Takes buffers of the class from its desk as [`Desk::lend_whole`] lends them, with their receipt.
    pub(crate) fn take_whole(
        &mut self,
        desk: &mut Desk<'r>,
        page: &mut Page,
        alloc: Global,
        class: Class,
        most: usize,
    ) -> bool
        requires owner { self.old.owner ≡ desk.old.number }
        requires page { (page.old.loans ≡ J.names.loans) × (0 < page.old.parts) }
        ensures { MatchBool result
            (LendsWhole desk.old class self.new.items desk.new × IsFilledUp most self.old self.new
            × (page.new ≡ lent_all_on page.old (map slot_of self.new.items)))
            ((desk.new ≡ desk.old) × (self.new ≡ self.old) × (page.new ≡ page.old)) }
    {
        if !desk.lend_whole(alloc, class, &mut self.parcel, most) {
            return false;
        }
        self.receipt = page.lend_all(self.parcel.buffers());
        true
    }

    /// The number of the allocator that made it: whose buffers it takes.
    #[inline]
    pub fn owner(&self) -> u16
        ensures { result ≡ self.now.owner }
    {
        self.parcel.owner()
    }

    /// How many buffers it has.
    pub fn len(&self) -> usize
        ensures { result ≡ length self.now.items }
    {
        self.parcel.len()
    }

    /// For how many buffers there is a place, those that are there counted too.
    pub fn places(&self) -> usize
        ensures { result ≡ self.now.places }
    {
        self.parcel.places()
    }

    /// Whether each place has a buffer, so that [`Parcel::push`] takes none.
    pub fn is_full(&self) -> bool
        ensures { IsTrue result ↔ (self.now.places ≤ length self.now.items) }
    {
        self.parcel.is_full()
    }

    /// Whether there is no buffer.
    pub fn is_empty(&self) -> bool
        ensures { IsTrue result ↔ (self.now.items ≡ []) }
    {
        self.parcel.is_empty()
    }

    /// Puts a buffer to the end. It comes back where it is another allocator's, or where there is no
    /// room. Takes constant time and no memory.
    #[inline(always)]
    pub fn push(&mut self, buffer: Buffer<'r, J>) -> Result<(), Buffer<'r, J>>
        ensures { MatchResult result (λ _. Packs self.old buffer.entry self.new)
            (λ b. (b ≡ buffer.entry) × (self.new ≡ self.old) × KeepsOut self.old buffer.entry) }
    {
        let (buf, receipt) = buffer.into_parts();
        match self.parcel.push(buf) {
            Ok(()) => {
                self.receipt.merge(receipt);
                Ok(())
            }
            Err(buf) => Err(Buffer::new(buf, receipt)),
        }
    }

    /// Takes out the buffer that came last.
    pub fn pop(&mut self) -> Option<Buffer<'r, J>>
        ensures { MatchOption result ((self.old.items ≡ []) × (self.new ≡ self.old))
            (λ b. (self.old.items ≡ self.new.items ++ b ∷ [])
            × (self.new ≡ record self.old { items = self.new.items })) }
    {
        let buf = self.parcel.pop()?;
        let receipt = self.receipt.split_last(buf.slot());
        Some(Buffer::new(buf, receipt))
    }

    /// The buffers, in the order in which they came, to be looked at.
    pub fn buffers(&self) -> &[Buf<'r>]
        ensures { result.now ≡ self.now.items }
    {
        self.parcel.buffers()
    }

    /// Lends all bytes of the buffer at place `at` to a closure, which may write them. How much of it is
    /// filled stays as it is; [`Parcel::set_len_at`] says it.
    pub fn edit_at<T, F: FnOnce(&mut [u8]) -> T>(&mut self, at: usize, edit: F) -> T
        requires place { at < length self.old.items }
        requires callable { F.IsAlwaysCallable edit }
        ensures { (bytes : _) × EditsAt at (λ b b'. FnOnceReturnsAtMut F.FnOnce edit b.bytes.now result bytes
            × (b' ≡ holding b bytes b.filled)) self.old self.new }
    {
        self.parcel.edit_at(at, edit)
    }

    /// Says how many bytes of the buffer at place `at` count as filled, from the front: at most as many as
    /// it has. No byte is written.
    pub fn set_len_at(&mut self, at: usize, len: usize)
        requires { (b : _) × (slice_get self.old.items at ≡ Some b) × (len ≤ size_of b.class) }
        ensures { EditsAt at (λ b b'. b' ≡ record b { filled = len }) self.old self.new }
    {
        self.parcel.set_len_at(at, len);
    }

    /// Appends these bytes to those that are filled of the buffer at place `at`. [`Full`]: there is no room
    /// for all of them, and none is written.
    pub fn extend_at(&mut self, at: usize, bytes: &[u8]) -> Result<(), Full>
        requires { at < length self.old.items }
        ensures { EditsAt at (λ b b'. Extends b bytes.now result b') self.old self.new }
    {
        self.parcel.extend_at(at, bytes)
    }
}

// The buffers are not printed.
impl<J: Naming> fmt::Debug for Parcel<'_, J> {
    fn fmt<W: fmt::Write>(&self, f: &mut fmt::Formatter<W>) -> fmt::Result {
        write!(f, "{:?}", self.parcel)
    }
}
