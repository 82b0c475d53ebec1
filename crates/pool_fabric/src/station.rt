//! A desk that nobody holds, with its seats.
ghost use Rattle.std.specs.Prelude.{◌≡◌, ◌^◌, ◌<◌, [], length, map, IfOk};
ghost use Rattle.pool_fabric.specs.Names.{box_at};
ghost use Rattle.pool_fabric.specs.Pages.{new_page};
ghost use Rattle.pool_fabric.specs.Seats.{seat_of, AreSeatsBy, NoneSent};
ghost use Rattle.pool_fabric.specs.Stations.{resting};

use crate::held::HeldStation;
use crate::ledger::Page;
use crate::named::Named;
use crate::naming::Naming;
use batch_inbox::{Receiver, Sender};
use crossbeam_utils::CachePadded;
use pool_desk::{Desk, IdleDesk};
use slot_balance::CountedNotes;
use slot_chain::{Buf, NoMemory};
use std::alloc::Global;
use std::fmt;
use std::marker::Model;

/// A desk that no worker holds, with its seats: the one from which it takes, and one at each inbox
/// from which it posts.
///
/// Its type keeps a balance, for the desk's whole life and whatever the program did with its buffers.
/// Counted slot by slot, at home + cached + sent + lent = drawn + taken + freed. Drawn are all slots of
/// the chunks that it drew, sent is what went from its seats, and freed what was freed to it.
#[must_use]
#[derive(Drop)]
pub struct Station<'r, T: Receiver, S: Sender, J: Naming> {
    // It has no worker. It lies in a box, so that a station is moved cheaply: a desk is some kilobytes. No
    // other thread's data lies on its cache lines.
    pub(crate) desk: Box<CachePadded<Desk<'r>>>,
    pub(crate) take: T,
    pub(crate) seats: Vec<S>,
    pub(crate) page: Page,
    pub(crate) lent: CountedNotes<Buf<'r>>,
    pub(crate) freed: CountedNotes<Buf<'r>>,
    pub(crate) of: Named<J>,
}

impl<'r, T: Receiver, S: Sender, J: Naming> Model for Station<'r, T, S, J> {
    ghost use Rattle.std.specs.Prelude.{map};
    ghost use Rattle.crossbeam_utils.specs.Padded.{padded_value};
    ghost use Rattle.pool_fabric.specs.Seats.{seat_of};
    ghost use Rattle.std.specs.Prelude.{◌≡◌, []};
    ghost use Rattle.pool_fabric.specs.Stations.{StationState, IsStation};

    ghost Value = { StationState };

    ghost view = { λ s. record {
      desk = padded_value s.desk.value;
      take = record { inbox = T.inbox s.take; senders = T.senders s.take; taken = T.taken s.take };
      seats = map (seat_of S.inbox S.number S.sent S.resting) s.seats.items;
      page = s.page;
      lent = s.lent;
      freed = s.freed;
    } };

    ghost invariant = { λ s. ((padded_value s.desk.value).cached ≡ []) × IsStation J.names (record {
      desk = padded_value s.desk.value;
      take = record { inbox = T.inbox s.take; senders = T.senders s.take; taken = T.taken s.take };
      seats = map (seat_of S.inbox S.number S.sent S.resting) s.seats.items;
      page = s.page;
      lent = s.lent;
      freed = s.freed;
    }) };
}

impl<'r, T: Receiver, S: Sender, J: Naming> Station<'r, T, S, J> {
    /// A station at which nothing was drawn, sent, taken, lent or freed yet. It takes memory, for the
    /// desk.
    // By itself: a desk has some kilobytes, and each move of one takes as much of the stack.
    #[inline(never)]
    pub fn new(
        alloc: Global,
        desk: IdleDesk<'r>,
        take: T,
        seats: Vec<S>,
        page: Page,
    ) -> Result<Station<'r, T, S, J>, NoMemory>
        requires number { desk.number < 2 ^ J.names.digits.bits }
        requires desk { (desk.home ≡ []) × (desk.drawn ≡ []) }
        requires profile { (desk.digits ≡ J.names.digits) × (desk.limit ≡ J.names.limit) }
        requires take { (T.inbox take ≡ box_at J.names desk.number) × (T.senders take ≡ J.names.count)
            × (T.taken take ≡ []) }
        requires seats { AreSeatsBy J.names desk.number (map (seat_of S.inbox S.number S.sent S.resting) seats.items)
            × (length seats.items ≡ J.names.count)
            × NoneSent (map (seat_of S.inbox S.number S.sent S.resting) seats.items) }
        requires page { page ≡ new_page J.names.ledger J.names.loans 1 }
        ensures desk { IfOk result (λ s. s.desk ≡ resting desk.entry) }
        ensures notes { IfOk result (λ s. (s.lent ≡ []) × (s.freed ≡ [])) }
    {
        let desk = Box::new(alloc, CachePadded::new(desk.adopt(0)))?;
        Ok(Station {
            desk,
            take,
            seats,
            page,
            lent: CountedNotes::new(),
            freed: CountedNotes::new(),
            of: Named::new(),
        })
    }

    /// The desk's number. Nothing is in its cache.
    pub fn number(&self) -> u16
        ensures value { result ≡ self.now.desk.number }
        ensures idle { self.now.desk.cached ≡ [] }
    {
        self.desk.number()
    }

    /// The station in the hands of a worker. It takes no memory.
    pub fn adopt(self, worker: u32) -> HeldStation<'r, T, S, J>
        ensures { let s = self.entry in result ≡ record s { desk = record s.desk { worker = worker } } }
    {
        let Station {
            mut desk,
            take,
            seats,
            page,
            lent,
            freed,
            of,
        } = self;
        desk.pass_to(worker);
        HeldStation {
            desk,
            take,
            seats,
            page,
            lent,
            freed,
            of,
        }
    }
}

// The buffers are not printed.
impl<T: Receiver, S: Sender, J: Naming> fmt::Debug for Station<'_, T, S, J> {
    fn fmt<W: fmt::Write>(&self, f: &mut fmt::Formatter<W>) -> fmt::Result {
        write!(f, "Station({})", self.number())
    }
}
