//! Buffers of one allocator that are handed over and freed as a whole.
ghost use Rattle.std.specs.Prelude.{◌≡◌, ◌+◌, ◌<◌, ◌≤◌, ◌↔◌, [], ◌∷◌, ◌++◌, length, map, All, IsTrue, MatchOption};
ghost use Rattle.std.specs.Prelude.{MatchBool, MatchResult, IfOk, IfSome, Some, slice_get};
ghost use Rattle.std.specs.Prelude.{vec_capacity};
ghost use Rattle.region_cut.specs.Classes.{size_of};
ghost use Rattle.slot_chain.specs.Buffer.{ended_of};
ghost use Rattle.slot_chain.specs.Counts.{capped, sizes};
ghost use Rattle.slot_chain.specs.Filling.{Extends, emptied, holding};
ghost use Rattle.slot_chain.specs.Parcels.{EditsAt, EmptiesSome, IsOf, IsPacked, KeepsOut, Packs, most_places};
ghost use Rattle.std.specs.Fn.{FnOnceReturnsAtMut};

use crate::buf::Buf;
use crate::error::{Full, NoMemory};
use region_cut::Class;
use region_cut::endings::Endings;
use std::alloc::{Allocator, Global};
use std::fmt;
use std::marker::Model;

// For how many buffers a parcel has places at most. No machine has the memory for more pointers. With it the sum of
// the sizes is less than 2^64, so that it is added up without a check.
const MOST_PLACES: usize = 1_125_899_906_842_624;

/// Buffers of one allocator, which go from thread to thread and are freed as a whole.
///
/// Whoever frees a buffer looks at its box first, for its owner. A parcel's owner is known, so where it
/// is freed none of its buffers is looked at: its array goes home as it is, and costs as much as one
/// buffer does. Programs that pass buffers on in bursts, as packet pipelines do, pack them so.
///
/// Only [`BufParcel::new`] takes memory. A parcel may be dropped, with all its buffers.
#[must_use]
pub struct BufParcel<'r> {
    // Less than 2^16. It is as wide as the rest, so that no gap behind it is copied where a parcel moves.
    owner: u64,
    bytes: u64,
    buffers: Vec<Buf<'r>>,
}

impl<'r> Model for BufParcel<'r> {
    ghost use Rattle.std.specs.Prelude.{◌≡◌, ◌<◌, ◌≤◌, ◌^◌, All, vec_capacity};
    ghost use Rattle.slot_chain.specs.Counts.{sizes};
    ghost use Rattle.slot_chain.specs.Parcels.{ParcelState, IsPacked, most_places};

    ghost Value = { ParcelState };

    ghost view = { λ p. record { owner = p.owner; places = vec_capacity p.buffers; items = p.buffers.items } };

    ghost invariant = { λ p. All (IsPacked p.owner) p.buffers.items
        × (p.bytes ≡ sizes p.buffers.items) × (vec_capacity p.buffers ≤ most_places) × (p.owner < 2 ^ 16) };
}

// By hand, so that it is proved here once, and not again in each crate that lets one go.
impl Drop for BufParcel<'_> {
    fn drop(self) {
        let BufParcel {
            owner: _,
            bytes: _,
            buffers,
        } = self;
        drop(buffers);
    }
}

impl<'r> BufParcel<'r> {
    /// An empty parcel for buffers of the allocator `owner`, with room for at least so many.
    /// [`NoMemory`] is answered only where there is no memory for that.
    pub fn new(alloc: Global, owner: u16, places: usize) -> Result<BufParcel<'r>, NoMemory>
        ensures { IfOk result (λ p.
            (p ≡ record { owner = owner; places = p.places; items = [] }) × (places ≤ p.places)) }
    {
        BufParcel::over(owner, Vec::with_capacity(alloc, places)?)
    }

    /// An empty parcel over an array that names no buffer, with as much room as that has. Takes no
    /// memory. [`NoMemory`] is answered only where it has more than 2^50 places, for which no machine has the
    /// memory.
    pub fn over(owner: u16, array: Vec<Buf<'r>>) -> Result<BufParcel<'r>, NoMemory>
        requires { array.items ≡ [] }
        ensures { MatchResult result
            (λ p. p ≡ record { owner = owner; places = vec_capacity array.entry; items = [] })
            (λ _. most_places < vec_capacity array.entry) }
    {
        if array.capacity() > MOST_PLACES {
            return Err(NoMemory);
        }
        Ok(BufParcel {
            owner: u64::from(owner),
            bytes: 0,
            buffers: array,
        })
    }

    /// The allocator to which all of it goes back.
    ///
    /// Its contract also tells what the type keeps of every parcel.
    pub fn owner(&self) -> u16
        ensures value { result ≡ self.now.owner }
        ensures packed { All (IsPacked self.now.owner) self.now.items }
    {
        let _known = &self.buffers;
        self.owner as u16
    }

    /// The sum of the sizes of the buffers in bytes, in constant time.
    pub fn bytes_total(&self) -> u64
        ensures { result ≡ sizes self.now.items }
    {
        self.bytes
    }

    /// The buffers, in the order in which they came, to be looked at.
    pub fn buffers(&self) -> &[Buf<'r>]
        ensures { result.now ≡ self.now.items }
    {
        self.buffers.as_slice()
    }

    /// How many buffers there are, in constant time.
    #[inline]
    pub fn len(&self) -> usize
        ensures { result ≡ length self.now.items }
    {
        self.buffers.len()
    }

    /// For how many buffers there is a place, those that are there counted too. Takes constant time.
    #[inline]
    pub fn places(&self) -> usize
        ensures { result ≡ self.now.places }
    {
        self.buffers.capacity()
    }

    /// Whether each place has a buffer, so that [`BufParcel::push`] takes none.
    #[inline]
    pub fn is_full(&self) -> bool
        ensures { IsTrue result ↔ (self.now.places ≤ length self.now.items) }
    {
        self.len() >= self.places()
    }

    /// Whether there is no buffer.
    pub fn is_empty(&self) -> bool
        ensures { IsTrue result ↔ (self.now.items ≡ []) }
    {
        self.buffers.is_empty()
    }

    /// Puts a buffer to the end, as it is when it is freed. It comes back where it is another
    /// allocator's, or where there is no room. Takes constant time and no memory.
    #[inline(always)]
    pub fn push(&mut self, buf: Buf<'r>) -> Result<(), Buf<'r>>
        ensures { MatchResult result (λ _. Packs self.old buf.entry self.new)
            (λ b. (b ≡ buf.entry) × (self.new ≡ self.old) × KeepsOut self.old buf.entry) }
    {
        if buf.owner() != self.owner as u16 || self.is_full() {
            return Err(buf);
        }
        let mut buf = buf;
        buf.set_forwards(0);
        self.bytes += buf.capacity() as u64;
        self.buffers.push_reserved(buf);
        Ok(())
    }

    /// Takes out the buffer that came last. Takes constant time.
    pub fn pop(&mut self) -> Option<Buf<'r>>
        ensures value { MatchOption result ((self.old.items ≡ []) × (self.new ≡ self.old))
            (λ b. (self.old.items ≡ self.new.items ++ b ∷ [])
            × (self.new ≡ record self.old { items = self.new.items })) }
        ensures packed { IfSome result (IsPacked self.old.owner) }
    {
        let buf = self.buffers.pop()?;
        self.bytes -= buf.capacity() as u64;
        Some(buf)
    }

    /// Lends all bytes of the buffer at place `at` to a closure, which may write them. How much of it is
    /// filled stays as it is; [`BufParcel::set_len_at`] says it.
    pub fn edit_at<T, F: FnOnce(&mut [u8]) -> T>(&mut self, at: usize, edit: F) -> T
        requires place { at < length self.old.items }
        requires callable { F.IsAlwaysCallable edit }
        ensures { (bytes : _) × EditsAt at (λ b b'. FnOnceReturnsAtMut F.FnOnce edit b.bytes.now result bytes
            × (b' ≡ holding b bytes b.filled)) self.old self.new }
    {
        self.buffers[at].edit(edit)
    }

    /// Says how many bytes of the buffer at place `at` count as filled, from the front: at most as many as
    /// it has. No byte is written.
    pub fn set_len_at(&mut self, at: usize, len: usize)
        requires { (b : _) × (slice_get self.old.items at ≡ Some b) × (len ≤ size_of b.class) }
        ensures { EditsAt at (λ b b'. b' ≡ record b { filled = len }) self.old self.new }
    {
        self.buffers[at].set_len(len);
    }

    /// Appends these bytes to those that are filled of the buffer at place `at`. [`Full`]: there is no room
    /// for all of them, and none is written.
    pub fn extend_at(&mut self, at: usize, bytes: &[u8]) -> Result<(), Full>
        requires { at < length self.old.items }
        ensures { EditsAt at (λ b b'. Extends b bytes.now result b') self.old self.new }
    {
        self.buffers[at].extend_from_slice(bytes)?;
        Ok(())
    }

    /// Empties the buffers, as long as each is of this class, and says whether all are. A buffer of which
    /// nothing is filled is not written to. Takes a walk over them.
    pub fn empty_alike(&mut self, class: Class) -> bool
        ensures { MatchBool result
            (All (IsOf class) self.old.items × (self.new ≡ record self.old { items = map emptied self.old.items }))
            (EmptiesSome self.old self.new) }
    {
        empty_alike(self.buffers.as_mut_slice(), class)
    }

    /// Lets all buffers go: it is then known what each ends as. Takes a walk over them.
    pub fn end(self, endings: &mut Endings<'r>)
        ensures { endings.new ≡ record endings.old { known = map ended_of self.entry.items ++ endings.old.known } }
    {
        end_each(self.into_buffers(), endings);
    }

    /// All of its buffers, in the order in which they came.
    pub fn into_buffers(self) -> Vec<Buf<'r>>
        ensures items { result.items ≡ self.entry.items }
        ensures places { vec_capacity result ≡ self.entry.places }
        ensures packed { All (IsPacked self.entry.owner) result.items }
    {
        let BufParcel {
            owner: _,
            bytes: _,
            buffers,
        } = self;
        buffers
    }
}

// Empties buffers, as long as each is of this class. Says whether all are.
fn empty_alike(buffers: &mut [Buf<'_>], class: Class) -> bool
    ensures { MatchBool result
        (All (IsOf class) buffers.old × (buffers.new ≡ map emptied buffers.old))
        (map emptied buffers.new ≡ map emptied buffers.old) }
{
    for buf in buffers.iter_mut() {
        if buf.class() != class {
            return false;
        }
        buf.clear();
    }
    true
}

/// Lets go the buffers that an array names: it is then known what each ends as.
pub(crate) fn end_each<'r, A: Allocator>(buffers: Vec<Buf<'r>, A>, endings: &mut Endings<'r>)
    ensures { endings.new ≡ record endings.old { known = map ended_of buffers.entry.items ++ endings.old.known } }
{
    let mut buffers = buffers;
    while let Some(buf) = buffers.pop() {
        endings.close(buf.into_front());
    }
}

// The buffers are not printed.
impl fmt::Debug for BufParcel<'_> {
    fn fmt<W: fmt::Write>(&self, f: &mut fmt::Formatter<W>) -> fmt::Result {
        write!(f, "BufParcel({} buffers of {})", self.len(), self.owner)
    }
}
