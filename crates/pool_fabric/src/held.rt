//! A station that a worker holds.
ghost use Rattle.std.specs.Prelude.{◌≡◌, ◌≢◌, ◌<◌, ◌≤◌, ◌%◌, ◌^◌, ◌↔◌, [], length, IsTrue, MatchBool, MatchResult, IfOk};
ghost use Rattle.slot_chain.specs.Counts.{capped, sizes};
ghost use Rattle.region_cut.specs.Classes.{classes_of};
ghost use Rattle.pool_desk.specs.Desks.{profile_at};
ghost use Rattle.pool_desk.specs.HomesState.{HasChunk, LacksChunk, HasClass};
ghost use Rattle.pool_fabric.specs.Calls.{Lends, LendsClass, LendsParcel, TakesAllBack, TakesBack};

use crate::buffer::Buffer;
use crate::ledger::Page;
use crate::named::Named;
use crate::naming::Naming;
use crate::parcel::Parcel;
use crate::station::Station;
use batch_inbox::{Receiver, Sender};
use crossbeam_utils::CachePadded;
use digit_route::Digits;
use pool_desk::{Desk, DeskError, Freed};
use region_cut::Class;
use slot_balance::CountedNotes;
use slot_chain::{Buf, NoMemory};
use std::alloc::Global;
use std::fmt;
use std::marker::Model;

/// A station that a worker holds. Its type keeps the balance of a [`Station`].
#[must_use]
#[derive(Drop)]
pub struct HeldStation<'r, T: Receiver, S: Sender, J: Naming> {
    // In a box, as in a `Station`.
    pub(crate) desk: Box<CachePadded<Desk<'r>>>,
    pub(crate) take: T,
    pub(crate) seats: Vec<S>,
    pub(crate) page: Page,
    pub(crate) lent: CountedNotes<Buf<'r>>,
    pub(crate) freed: CountedNotes<Buf<'r>>,
    pub(crate) of: Named<J>,
}

impl<'r, T: Receiver, S: Sender, J: Naming> Model for HeldStation<'r, T, S, J> {
    ghost use Rattle.std.specs.Prelude.{map};
    ghost use Rattle.crossbeam_utils.specs.Padded.{padded_value};
    ghost use Rattle.pool_fabric.specs.Seats.{seat_of};
    ghost use Rattle.pool_fabric.specs.Stations.{StationState, IsStation};

    ghost Value = { StationState };

    ghost view = { λ s. record {
      desk = padded_value s.desk.value;
      take = record { inbox = T.inbox s.take; senders = T.senders s.take; taken = T.taken s.take };
      seats = map (seat_of S.inbox S.number S.sent S.resting) s.seats.items;
      page = s.page;
      lent = s.lent;
      freed = s.freed;
    } };

    ghost invariant = { λ s. IsStation J.names (record {
      desk = padded_value s.desk.value;
      take = record { inbox = T.inbox s.take; senders = T.senders s.take; taken = T.taken s.take };
      seats = map (seat_of S.inbox S.number S.sent S.resting) s.seats.items;
      page = s.page;
      lent = s.lent;
      freed = s.freed;
    }) };
}

impl<'r, T: Receiver, S: Sender, J: Naming> HeldStation<'r, T, S, J> {
    /// The desk's number: one that the fabric's digits can read.
    pub fn number(&self) -> u16
        ensures value { result ≡ self.now.desk.number }
        ensures in_range { self.now.desk.number < 2 ^ J.names.digits.bits }
        ensures digits { self.now.desk.digits ≡ J.names.digits }
    {
        self.desk.number()
    }

    /// How the numbers of desks are read.
    pub fn digits(&self) -> Digits
        ensures { result ≡ self.now.desk.digits }
    {
        self.desk.digits()
    }

    /// The bytes in the desk's cache, as [`Desk::cached_bytes`] tells them.
    pub fn cached_bytes(&self) -> u64
        ensures { result ≡ capped (sizes self.now.desk.cached) }
    {
        self.desk.cached_bytes()
    }

    /// Whether a slot of the class is at home, as [`Desk::has_home`] tells it.
    pub fn has_home(&self, class: Class) -> bool
        ensures { IsTrue result ↔ HasClass class self.now.desk.home }
    {
        self.desk.has_home(class)
    }

    /// Whether a chunk was ever claimed for the class, as [`Desk::has_drawn`] tells it.
    pub fn has_drawn(&self, class: Class) -> bool
        ensures { MatchBool result (HasChunk class self.now.desk.drawn) (LacksChunk class self.now.desk.drawn) }
    {
        self.desk.has_drawn(class)
    }

    /// How many buffers it lent, modulo 2^64.
    #[inline(always)]
    pub fn lent_count(&self) -> u64
        ensures { result ≡ length self.now.lent % 2 ^ 64 }
    {
        self.lent.count()
    }

    /// How many buffers were freed to it, modulo 2^64.
    #[inline(always)]
    pub fn freed_count(&self) -> u64
        ensures { result ≡ length self.now.freed % 2 ^ 64 }
    {
        self.freed.count()
    }

    /// Gives out a buffer of at least `size` bytes, as [`Desk::alloc`] does.
    #[inline(always)]
    pub fn alloc(&mut self, alloc: Global, size: usize) -> Result<Buffer<'r, J>, DeskError>
        ensures { Lends self.old size result self.new }
    {
        let buf = self.desk.alloc(alloc, size)?;
        self.lent = self.lent.and(&buf);
        let receipt = self.page.lend(buf.slot());
        Ok(Buffer::new(buf, receipt))
    }

    /// Gives out a buffer of this class, as [`Desk::alloc_class`] does.
    #[inline(always)]
    pub fn alloc_class(&mut self, alloc: Global, class: Class) -> Result<Buffer<'r, J>, DeskError>
        requires { class < classes_of (profile_at self.old.desk) }
        ensures { LendsClass self.old class result self.new }
    {
        let buf = self.desk.alloc_class(alloc, class)?;
        self.lent = self.lent.and(&buf);
        let receipt = self.page.lend(buf.slot());
        Ok(Buffer::new(buf, receipt))
    }

    /// Lends buffers of this class into an empty parcel of its own, as [`Desk::lend_whole`] does.
    pub fn lend_whole(
        &mut self,
        alloc: Global,
        class: Class,
        parcel: &mut Parcel<'r, J>,
        most: usize,
    ) -> bool
        requires { parcel.old.owner ≡ self.old.desk.number }
        ensures { LendsParcel self.old class most parcel.old result self.new parcel.new }
    {
        if !parcel.take_whole(&mut self.desk, &mut self.page, alloc, class, most) {
            return false;
        }
        self.lent = self.lent.and_all(parcel.buffers());
        true
    }

    /// Takes a buffer back, as [`Desk::free`] does.
    #[inline(always)]
    pub fn free(&mut self, buffer: Buffer<'r, J>) -> Freed
        ensures { TakesBack self.old buffer.entry result self.new }
    {
        let (buf, receipt) = buffer.into_parts();
        self.freed = self.freed.and(&buf);
        self.page.take_back(receipt);
        self.desk.free(buf)
    }

    /// Takes all buffers of a parcel back, as [`Desk::free_all`] does.
    pub fn free_all(&mut self, parcel: Parcel<'r, J>) -> Freed
        ensures { TakesAllBack self.old parcel.entry result self.new }
    {
        let (parcel, receipt) = parcel.into_parts();
        self.freed = self.freed.and_all(parcel.buffers());
        self.page.take_back(receipt);
        self.desk.free_all(parcel)
    }

    /// An empty parcel for the desk's buffers, as [`Desk::parcel`] gives it.
    pub fn parcel(&mut self, alloc: Global, places: usize) -> Result<Parcel<'r, J>, NoMemory>
        ensures same { self.new ≡ self.old }
        ensures value { IfOk result (λ p.
            (p ≡ record { owner = self.old.desk.number; places = p.places; items = [] }) × (places ≤ p.places)) }
    {
        let parcel = self.desk.parcel(alloc, places)?;
        let receipt = self.page.blank();
        Ok(Parcel::new(parcel, receipt))
    }

    /// Makes room for the pointers to others' buffers that will be freed here, as [`Desk::make_room`]
    /// does: to be called after a post.
    pub fn make_room(&mut self, alloc: Global)
        ensures { self.new ≡ self.old }
    {
        self.desk.make_room(alloc);
    }

    /// Takes the station from its worker. `Ok`: a [`Station`], where the desk's cache is empty. `Err`:
    /// the same station, where it isn't.
    pub fn retire(self) -> Result<Station<'r, T, S, J>, HeldStation<'r, T, S, J>>
        ensures { let s = self.entry in MatchResult result
            (λ t. (s.desk.cached ≡ []) × (t ≡ record s { desk = record s.desk { worker = 0 } }))
            (λ t. (s.desk.cached ≢ []) × (t ≡ s)) }
    {
        if !self.desk.is_settled() {
            return Err(self);
        }
        let HeldStation {
            mut desk,
            take,
            seats,
            page,
            lent,
            freed,
            of,
        } = self;
        desk.pass_to(0);
        Ok(Station {
            desk,
            take,
            seats,
            page,
            lent,
            freed,
            of,
        })
    }
}

// The buffers are not printed.
impl<T: Receiver, S: Sender, J: Naming> fmt::Debug for HeldStation<'_, T, S, J> {
    fn fmt<W: fmt::Write>(&self, f: &mut fmt::Formatter<W>) -> fmt::Result {
        write!(f, "HeldStation({})", self.number())
    }
}
