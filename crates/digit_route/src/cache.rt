//! The cache of a desk.
ghost use Rattle.std.specs.Prelude.{◌≡◌, ◌≢◌, ◌-◌, ◌*◌, ◌^◌, ◌<◌, ◌≤◌, ◌↔◌, ◌⊎◌, [], ◌∷◌, ◌++◌, length, map, All, Some};
ghost use Rattle.std.specs.Prelude.{None, MatchOption, MatchResult, IsTrue, IsPermutation, OnOk, OnErr};
ghost use Rattle.slot_chain.specs.Buffer.{Buffer, ended_of};
ghost use Rattle.slot_chain.specs.Counts.{capped, sizes};
ghost use Rattle.digit_route.specs.Digits.{Scheme, IsScheme, common, count};
ghost use Rattle.digit_route.specs.Kept.{IsKept, kept_items};
ghost use Rattle.digit_route.specs.Limits.{largest_limit};
ghost use Rattle.digit_route.specs.Posts.{Moved, Posts, shared};
ghost use Rattle.digit_route.specs.Route.{IsCached, RouteFault};
ghost use Rattle.slot_chain.specs.Slots.{AddsSlots, slot_of};
ghost use Rattle.digit_route.specs.States.{BatchState};
ghost use Rattle.digit_route.specs.Route.{GivesBucket};

use crate::counter::{bytes_left, bytes_without};
use crate::refused::Kept;
use crate::row::Row;
use crate::{Batch, BatchSink, Digits, Posting, Refused, RouteError};
use region_cut::Slot;
use region_cut::endings::Endings;
use slot_chain::{Buf, BufParcel, Chain, EmptyMagazine, NoMemory};
use std::alloc::Global;
use std::marker::Model;
use std::{fmt, mem};

/// The remote cache of a desk: freed buffers of other desks that wait to be posted.
///
/// It is a row of at most 64 magazines, one for each value of the owner's first digit, as snmalloc
/// keeps its remote deallocations (ISMM 2019). Each owner in it isn't the desk itself, is below 2
/// to the power of the profile's bits, and shares at least as many digits with the desk as its
/// buffer was passed on.
///
/// No call but `list_slots` and [`Cache::make_room`] takes memory. The order of the buffers is open.
#[must_use]
#[derive(Drop)]
pub struct Cache<'r> {
    row: Row<'r>,
    limit: u64,
    bytes: u64,
}

impl<'r> Model for Cache<'r> {
    ghost use Rattle.std.specs.Prelude.{◌≡◌, ◌≤◌};
    ghost use Rattle.slot_chain.specs.Counts.{capped, sizes};
    ghost use Rattle.digit_route.specs.States.{CacheState};
    ghost use Rattle.digit_route.specs.Limits.{largest_limit};

    ghost Value = { CacheState };

    ghost view = { λ c. record { number = c.row.number; digits = c.row.digits; limit = c.limit; items = c.row.items } };

    ghost invariant = { λ c. (c.row.round ≡ 0) × (c.limit ≤ largest_limit) × (c.bytes ≡ capped (sizes c.row.items)) };
}

impl<'r> Cache<'r> {
    /// An empty cache for the desk `number`. It is due once it has more than `limit` bytes.
    pub fn new(number: u16, digits: Digits, limit: u64) -> Cache<'r>
        requires number { number < 2 ^ digits.bits }
        requires limit { limit ≤ largest_limit }
        ensures { result ≡ record { number = number; digits = digits; limit = limit; items = [] } }
    {
        Cache {
            row: Row::new(number, digits),
            limit,
            bytes: 0,
        }
    }

    pub(crate) fn from_row(row: Row<'r>, limit: u64) -> Cache<'r>
        requires { limit ≤ largest_limit }
        ensures same { result ≡ record {
          number = row.entry.number;
          digits = row.entry.digits;
          limit = limit;
          items = result.items;
        } }
        ensures items { IsPermutation row.entry.items result.items }
    {
        let row = row.restart();
        let bytes = row.bytes();
        Cache { row, limit, bytes }
    }

    /// The desk whose cache it is.
    ///
    /// Its contract also tells what the type keeps of every cache.
    pub fn number(&self) -> u16
        ensures value { result ≡ self.now.number }
        ensures scheme { IsScheme self.now.digits }
        ensures in_range { self.now.number < 2 ^ self.now.digits.bits }
        ensures limit { self.now.limit ≤ largest_limit }
        ensures cached { All (IsCached self.now.digits self.now.number) self.now.items }
    {
        let _known = &self.limit;
        self.row.number()
    }

    /// How the numbers of desks are read.
    pub fn digits(&self) -> Digits
        ensures { result ≡ self.now.digits }
    {
        self.row.digits()
    }

    /// The bytes above which it is due.
    pub fn limit(&self) -> u64
        ensures { result ≡ self.now.limit }
    {
        self.limit
    }

    /// Whether there is no buffer.
    pub fn is_empty(&self) -> bool
        ensures { IsTrue result ↔ (self.now.items ≡ []) }
    {
        self.row.is_empty()
    }

    /// How many buffers there are, or the greatest `u64` where that is less. It takes a walk over
    /// them.
    pub fn len(&self) -> u64
        ensures { result ≡ capped (length self.now.items) }
    {
        self.row.len()
    }

    /// The sum of the sizes in bytes, or the greatest `u64` where that is less, in constant time.
    pub fn bytes(&self) -> u64
        ensures { result ≡ capped (sizes self.now.items) }
    {
        self.bytes
    }

    /// Whether the sum of the sizes is greater than the limit, in constant time.
    pub fn is_due(&self) -> bool
        ensures { IsTrue result ↔ (self.now.limit < sizes self.now.items) }
    {
        self.bytes > self.limit
    }

    /// Adds the slot of each buffer to the end of `slots`, each as often as it is there.
    ///
    /// An error says that `slots` could not grow. It then has what it had before.
    pub fn list_slots(&self, slots: &mut Vec<Slot>) -> Result<(), NoMemory>
        ensures ok { OnOk result (AddsSlots (map slot_of self.now.items) slots.old.items slots.new.items) }
        ensures err { OnErr result (slots.new.items ≡ slots.old.items) }
    {
        self.row.list_slots(slots)
    }

    /// Lets go of all buffers: it is then known what each ends as. Takes a walk over them.
    pub fn end(self, endings: &mut Endings<'r>)
        ensures { endings.new ≡ record endings.old { known = map ended_of self.entry.items ++ endings.old.known } }
    {
        let Cache {
            row,
            limit: _,
            bytes: _,
        } = self;
        row.end(endings);
    }

    /// Adds a buffer, in constant time.
    #[inline(always)]
    pub fn put(&mut self, item: Buf<'r>)
        requires { IsCached self.old.digits self.old.number item }
        ensures same { self.new ≡ record self.old { items = self.new.items } }
        ensures items { IsPermutation (self.old.items ++ item.entry ∷ []) self.new.items }
    {
        let size = item.capacity() as u64;
        self.row.push(item);
        self.bytes = self.bytes.saturating_add(size);
    }

    /// Adds the buffers of a parcel of another desk, in constant time where there is room for its array
    /// ([`Cache::make_room`]): none of them is looked at then.
    pub fn put_all(&mut self, parcel: BufParcel<'r>)
        requires apart { parcel.owner ≢ self.old.number }
        requires in_range { parcel.owner < 2 ^ self.old.digits.bits }
        ensures same { self.new ≡ record self.old { items = self.new.items } }
        ensures items { IsPermutation (self.old.items ++ parcel.entry.items) self.new.items }
    {
        let _known = parcel.owner();
        let size = parcel.bytes_total();
        self.row.append(parcel);
        self.bytes = self.bytes.saturating_add(size);
    }

    /// Adds the buffers of a batch that this desk would have sent, in time for their number. Where no
    /// buffer stands in their place, they go there as they lie, and bring the batch's memory along.
    pub fn put_back(&mut self, batch: Batch<'r>)
        requires sender { batch.sender ≡ self.old.number }
        requires digits { batch.digits ≡ self.old.digits }
        ensures same { self.new ≡ record self.old { items = self.new.items } }
        ensures items { IsPermutation (self.old.items ++ batch.entry.items) self.new.items }
    {
        let size = batch.bytes();
        let address = batch.address();
        self.row.restore(address, batch.into_magazine());
        self.bytes = self.bytes.saturating_add(size);
    }

    /// Adds the buffers that were refused while this desk's cache was posted, in time for their number.
    /// Each batch that is held as it is goes back as by [`Cache::put_back`].
    #[inline(always)]
    pub fn take_back(&mut self, refused: Refused<'r>)
        requires number { refused.number ≡ self.old.number }
        requires digits { refused.digits ≡ self.old.digits }
        ensures same { self.new ≡ record self.old { items = self.new.items } }
        ensures items { IsPermutation (self.old.items ++ refused.entry.items) self.new.items }
    {
        if refused.is_empty() {
            // Nothing is in its places, so they needn't be looked at.
            mem::forget(refused);
        } else {
            self.take_back_some(refused);
        }
    }

    // By itself, so that none is moved where nothing was refused.
    #[inline(never)]
    fn take_back_some(&mut self, refused: Refused<'r>)
        requires number { refused.number ≡ self.old.number }
        requires digits { refused.digits ≡ self.old.digits }
        ensures same { self.new ≡ record self.old { items = self.new.items } }
        ensures items { IsPermutation (self.old.items ++ refused.entry.items) self.new.items }
    {
        let (batches, linked) = refused.into_parts();
        self.put_batches(batches);
        self.put_linked(linked);
    }

    // Adds the buffers of batches of this desk.
    fn put_batches(&mut self, batches: Kept<'r>)
        requires { All (IsKept self.old.digits self.old.number) batches.items }
        ensures same { self.new ≡ record self.old { items = self.new.items } }
        ensures items { IsPermutation (self.old.items ++ kept_items batches.entry.items) self.new.items }
    {
        let mut batches = batches;
        while let Some(kept) = batches.pop() {
            if let Some(batch) = kept {
                self.put_back(batch);
            }
        }
    }

    // Adds buffers that are linked.
    fn put_linked(&mut self, linked: Chain<'r>)
        requires { All (IsCached self.old.digits self.old.number) linked }
        ensures same { self.new ≡ record self.old { items = self.new.items } }
        ensures items { IsPermutation (self.old.items ++ linked.entry) self.new.items }
    {
        let mut linked = linked;
        while let Some(buf) = linked.pop() {
            self.put(buf);
        }
    }

    /// Why `take_bucket_for` would refuse, or `None` where it would give a batch.
    pub fn fault_for(&self, t: u16) -> Option<RouteError>
        ensures { RouteFault self.now.digits self.now.number t self.now.items result }
    {
        let _known = &self.limit;
        self.row.fault_for(t)
    }

    /// Takes out the bucket for `t`: all buffers whose owners share more digits with `t` than this
    /// desk does.
    ///
    /// `RouteError` says when there is no such batch. The cache is then as before.
    pub fn take_bucket_for(&mut self, t: u16) -> Result<Batch<'r>, RouteError>
        ensures same { self.new ≡ record self.old { items = self.new.items } }
        ensures value { MatchResult result
            (λ b. RouteFault self.old.digits self.old.number t self.old.items None × (b.address ≡ t)
            × GivesBucket self.old.digits self.old.number self.old.items b self.new.items)
            (λ e. RouteFault self.old.digits self.old.number t self.old.items (Some e) × (self.new ≡ self.old)) }
    {
        match self.fault_for(t) {
            Some(fault) => Err(fault),
            None => Ok(self.take_for(t)),
        }
    }

    /// Takes out the bucket for `t`, where `fault_for` said that it has a batch.
    pub fn take_for(&mut self, t: u16) -> Batch<'r>
        requires { RouteFault self.old.digits self.old.number t self.old.items None }
        ensures same { self.new ≡ record self.old { items = self.new.items } }
        ensures address { result.address ≡ t }
        ensures gives { GivesBucket self.old.digits self.old.number self.old.items result self.new.items }
    {
        let magazine = self.row.take_for(t);
        self.bytes = bytes_left(self.bytes, magazine.bytes_total(), &self.row);
        self.row.batch(t, magazine)
    }

    /// Makes room for the pointers to what will be put here, as much as the batches had or wanted that
    /// [`Cache::next_batch`] or a posting took out. Behind [`Cache::take_for`] and
    /// [`Cache::take_bucket_for`] it makes none, since those may leave buffers in the bucket's place. What
    /// has no room is linked, which costs more where another thread takes it. For desks of one thread it
    /// gains nothing. Where memory is refused, there is less room.
    pub fn make_room(&mut self, alloc: Global)
        ensures { self.new ≡ self.old }
    {
        self.row.make_room(alloc);
    }

    /// Takes the memory of an empty magazine for what will be put here behind a batch to `t`, where that
    /// batch took such memory along, as [`Cache::make_room`] takes new memory. What isn't as large goes back
    /// to the allocator. Takes constant time.
    pub fn reuse(&mut self, t: u16, empty: EmptyMagazine<'r>)
        ensures { self.new ≡ self.old }
    {
        self.row.reuse(t, empty);
    }

    /// Takes out the bucket for some owner of a buffer in it, or says that the cache is empty.
    ///
    /// It is one turn of a posting. To post all of a cache, `posting` takes fewer steps.
    pub fn next_batch(&mut self) -> Option<Batch<'r>>
        ensures same { self.new ≡ record self.old { items = self.new.items } }
        ensures value { MatchOption result ((self.old.items ≡ []) × (self.new.items ≡ []))
            (λ b. GivesBucket self.old.digits self.old.number self.old.items b self.new.items) }
    {
        if let Some(batch) = self.next_of_first_round() {
            return Some(batch);
        }
        if self.row.is_empty() {
            return None;
        }
        self.next_of_later_rounds()
    }

    /// Takes out the bucket for some owner whose first digit isn't the desk's, as the first round
    /// of a posting does, or says that all that are left share it. The cache stays where it is.
    ///
    /// Numbers below 2 to the power of the digits' width all differ in the first digit: where all
    /// desks have such, this gives all of the cache.
    pub fn next_of_first_round(&mut self) -> Option<Batch<'r>>
        ensures same { self.new ≡ record self.old { items = self.new.items } }
        ensures value { MatchOption result (self.new.items ≡ self.old.items)
            (λ b. GivesBucket self.old.digits self.old.number self.old.items b self.new.items) }
        ensures round { MatchOption result
            (All (λ (x : Buffer). 0 < common self.old.digits x.owner self.old.number) self.old.items)
            (λ b. All (λ (x : Buffer). common self.old.digits x.owner self.old.number ≡ 0) b.items) }
    {
        match self.row.take_other() {
            Some(batch) => {
                self.bytes = bytes_without(&batch, self.bytes, &self.row);
                Some(batch)
            }
            None => None,
        }
    }

    /// Whether there is no buffer, where the first round is over: where
    /// [`Cache::next_of_first_round`] gave nothing. It looks at one magazine alone.
    pub fn is_empty_behind_first_round(&self) -> bool
        requires { All (λ (x : Buffer). 0 < common self.now.digits x.owner self.now.number) self.now.items }
        ensures { IsTrue result ↔ (self.now.items ≡ []) }
    {
        let _known = &self.limit;
        self.row.own_is_empty()
    }

    // Takes out the bucket for some owner, in whichever round.
    #[cold]
    #[inline(never)]
    fn next_of_later_rounds(&mut self) -> Option<Batch<'r>>
        ensures same { self.new ≡ record self.old { items = self.new.items } }
        ensures value { MatchOption result ((self.old.items ≡ []) × (self.new.items ≡ []))
            (λ b. GivesBucket self.old.digits self.old.number self.old.items b self.new.items) }
    {
        let empty = Row::new(self.row.number(), self.row.digits());
        let row = mem::replace(&mut self.row, empty);
        let (batch, row) = first_batch(row, self.limit);
        self.bytes = bytes_left(self.bytes, bytes_of(&batch), &row);
        let _empty = mem::replace(&mut self.row, row);
        batch
    }

    /// Begins to post the cache, round by round.
    pub fn posting(self) -> Posting<'r>
        ensures { result ≡ record {
          number = self.entry.number;
          digits = self.entry.digits;
          limit = self.entry.limit;
          round = 0;
          moves = 0;
          items = self.entry.items;
        } }
    {
        let Cache {
            row,
            limit,
            bytes: _,
        } = self;
        Posting::new(row, limit)
    }

    /// Posts the cache until it is empty or `sink` refuses a batch. Gives the cache of what
    /// is left, and how often a buffer was moved from one round's row into the next, or the
    /// greatest `u64` where that is less.
    ///
    /// Each buffer that is given is moved once for each digit that its owner shares with the desk,
    /// so less often than a number has digits. Those that are left were moved once for each digit
    /// that all of them share.
    pub fn post_all<S: BatchSink<'r>>(self, sink: &mut S) -> (Cache<'r>, u64)
        ensures same { result.0 ≡ record self.entry { items = result.0.items } }
        ensures posts { Posts self.entry.digits self.entry.number self.entry.items (S.given sink.old) (S.given sink.new)
            result.0.items }
        ensures stops { (result.0.items ≡ []) ⊎ (b : BatchState) × S.refuses sink.new b }
        ensures moves { shared self.entry.digits self.entry.number self.entry.items < 2 ^ 64
            → Moved self.entry.digits self.entry.number self.entry.items result.0.items result.1 }
        ensures few { result.1 ≤ (count self.entry.digits - 1) * length self.entry.items }
    {
        let _known = self.number();
        let mut posting = self.posting();
        while let Some(batch) = posting.next_batch() {
            if let Err(refused) = sink.give(batch) {
                let moves = posting.moves();
                return (posting.put_back(refused), moves);
            }
        }
        let moves = posting.moves();
        (posting.end(), moves)
    }
}

// The buffers are not printed.
impl fmt::Debug for Cache<'_> {
    fn fmt<W: fmt::Write>(&self, f: &mut fmt::Formatter<W>) -> fmt::Result {
        write!(f, "Cache(of {}, {} bytes)", self.number(), self.bytes)
    }
}

// The batch that a posting of the row would give first, and the row of what is left.
fn first_batch<'r>(row: Row<'r>, limit: u64) -> (Option<Batch<'r>>, Row<'r>)
    requires { limit ≤ largest_limit }
    ensures same { result.1 ≡ record row.entry { round = 0; items = result.1.items } }
    ensures value { MatchOption result.0 ((row.entry.items ≡ []) × (result.1.items ≡ []))
        (λ b. GivesBucket row.entry.digits row.entry.number row.entry.items b result.1.items) }
{
    let mut posting = Posting::new(row, limit);
    let batch = posting.next_batch();
    (batch, posting.into_row())
}

// The sum of the sizes of its buffers in bytes, or the greatest `u64` where that is less.
fn bytes_of(batch: &Option<Batch<'_>>) -> u64
    ensures { MatchOption batch.now (result ≡ 0) (λ b. result ≡ capped (sizes b.items)) }
{
    match batch {
        None => 0,
        Some(batch) => batch.bytes(),
    }
}
