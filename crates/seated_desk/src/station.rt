//! A desk with its seats at the inboxes of all desks.
ghost use Rattle.std.specs.Prelude.{◌≡◌, ◌+◌, ◌%◌, ◌≤◌, ◌^◌, [], OnOk};
ghost use Rattle.std.specs.Arc.{arc_value};
ghost use Rattle.slot_chain.specs.Slots.{AddsSlots};
ghost use Rattle.slot_balance.specs.Balances.{Balances};
ghost use Rattle.slot_balance.specs.Opened.{NoneSent};
ghost use Rattle.seated_desk.specs.Claims.{AreNoted};
ghost use Rattle.seated_desk.specs.Ways.{IsSeated, seats_at};

use crate::moving::{post_each, take_some};
use chunk_stock::Drawer;
use digit_route::Refused;
use link_inbox::{LinkInbox, SendSeat, TakeSeat};
use pool_desk::Desk;
use region_cut::Slot;
use slot_balance::CountedNotes;
use slot_chain::{Buf, NoMemory};
use std::alloc::Global;
use std::sync::Arc;

/// The most desks of a pool, whose numbers have 6 bits.
pub(crate) const MOST_DESKS: u16 = 64;

/// After so many buffers that were freed there is a post, whatever their size: a cache of many small ones would
/// outgrow the processor's, and so would the slots that take their place meanwhile.
pub(crate) const POST_EVERY: u64 = 1024;

/// A desk, its seats at the inboxes of all desks, its right to draw chunks, and what it counted.
///
/// Its type keeps the balance of the desk, whatever the program does with its buffers: nothing is lost here, and
/// nothing is there twice.
#[derive(Drop)]
pub(crate) struct Station<'r> {
    pub(crate) alloc: Global,
    // The number of its pool.
    pub(crate) pool: u64,
    pub(crate) desk: Desk<'r>,
    // Those of all desks, each at its desk's number.
    pub(crate) inboxes: Arc<Vec<LinkInbox<'r>>>,
    pub(crate) take: TakeSeat<'r>,
    pub(crate) seats: Vec<SendSeat<'r>>,
    pub(crate) drawer: Drawer<'r>,
    // How many calls there were since it last looked into its inbox.
    pub(crate) since: u64,
    // From how many cached bytes on a post is tried again.
    pub(crate) post_from: u64,
    // After how many more buffers that are freed there is a post. It is never 0 between two calls.
    pub(crate) until_post: u64,
    pub(crate) lent: CountedNotes<Buf<'r>>,
    pub(crate) freed: CountedNotes<Buf<'r>>,
    pub(crate) posted: u64,
    pub(crate) taken: u64,
    pub(crate) claimed: u64,
    ghost noted: { AreNoted drawer.drawn desk.drawn },
    ghost bits: { desk.digits.bits ≡ 6 },
    ghost seated: { IsSeated desk.digits desk.number (arc_value inboxes).items take.inbox (seats_at seats.items) },
    ghost balance: { Balances desk (seats_at seats.items) take.taken lent freed },
}

impl<'r> Station<'r> {
    ghost use Rattle.slot_balance.specs.Limits.{most_taken};
    ghost use Rattle.seated_desk.specs.Kept.{KeepsStation, PostsAll};
    ghost use Rattle.seated_desk.specs.Settled.{station_slots};
    ghost use Rattle.seated_desk.specs.Stats.{IsStatOf};

    /// A station of this pool that counted nothing yet.
    pub(crate) fn new(
        alloc: Global,
        pool: u64,
        desk: Desk<'r>,
        inboxes: Arc<Vec<LinkInbox<'r>>>,
        take: TakeSeat<'r>,
        seats: Vec<SendSeat<'r>>,
        drawer: Drawer<'r>,
    ) -> Station<'r>
        requires noted { AreNoted drawer.drawn desk.drawn }
        requires bits { desk.digits.bits ≡ 6 }
        requires seated { IsSeated desk.digits desk.number (arc_value inboxes).items take.inbox (seats_at seats.items) }
        requires unused { (take.taken ≡ []) × NoneSent (seats_at seats.items) }
        requires new { (desk.home ≡ []) × (desk.drawn ≡ []) × (desk.cached ≡ []) }
        ensures desk { result.desk ≡ desk.entry }
        ensures pool { result.pool ≡ pool }
    {
        Station {
            alloc,
            pool,
            desk,
            inboxes,
            take,
            seats,
            drawer,
            since: 0,
            post_from: 0,
            until_post: POST_EVERY,
            lent: CountedNotes::new(),
            freed: CountedNotes::new(),
            posted: 0,
            taken: 0,
            claimed: 0,
        }
    }

    /// Takes what came in batches, at most 64, and none once 1,024 buffers came. Says how many.
    pub(crate) fn take(&mut self) -> u32
        ensures keeps { KeepsStation self.old self.new }
        ensures none { result ≡ 0 → self.new.desk ≡ self.old.desk }
        ensures most { result ≤ most_taken }
        ensures counted { self.new.taken % 2 ^ 64 ≡ (self.old.taken + result) % 2 ^ 64 }
    {
        let at = usize::from(self.desk.number());
        let inboxes = self.inboxes.as_slice();
        let taken = take_some(&mut self.desk, &inboxes[at], &mut self.take);
        self.taken = self.taken.wrapping_add(taken as u64);
        taken
    }

    /// Posts all that is cached. What an inbox refuses stays cached, and holds back no other batch. Says how
    /// many were posted.
    pub(crate) fn post(&mut self) -> u64
        ensures keeps { KeepsStation self.old self.new }
        ensures posts { PostsAll self.old self.new }
    {
        let mut refused = Refused::new(self.desk.number(), self.desk.digits());
        let inboxes = self.inboxes.as_slice();
        let seats = self.seats.as_mut_slice();
        let posted = post_each(&mut self.desk, inboxes, seats, &mut refused);
        self.desk.take_back(refused);
        self.posted = self.posted.wrapping_add(posted);
        posted
    }

    /// Adds the slots that are there to a list.
    pub(crate) fn list(&self, slots: &mut Vec<Slot>) -> Result<(), NoMemory>
        ensures { OnOk result (AddsSlots (station_slots self.now) slots.old.items slots.new.items) }
    {
        self.desk.list_slots(slots)
    }

    /// A number about it, as `AllocatorHandle::stat` says.
    pub(crate) fn stat(&self, which: u32) -> u64
        ensures { IsStatOf which result self.now }
    {
        match which {
            0 => self.desk.number() as u64,
            1 => self.lent.count(),
            2 => self.freed.count(),
            3 => self.posted,
            4 => self.taken,
            5 => self.claimed,
            6 => self.desk.counts().0,
            7 => self.desk.counts().1,
            8 => self.desk.cached_bytes(),
            9 => self.drawer.chunks() as u64,
            _ => u64::MAX,
        }
    }
}
