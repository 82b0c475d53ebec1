//! What all workers share.
ghost use Rattle.std.specs.Prelude.{◌≡◌, ◌<◌, ◌≤◌, [], ◌++◌, map, length, All, IsTrue, IfOk, IfErr, IfSome};
ghost use Rattle.std.specs.Prelude.{MatchOption, MatchResult};
ghost use Rattle.slot_chain.specs.Buffer.{Buffer};
ghost use Rattle.digit_route.specs.Digits.{common};
ghost use Rattle.pool_desk.specs.Steps.{CountsOf, Handles};
ghost use Rattle.slot_balance.specs.Limits.{most_taken};
ghost use Rattle.pool_fabric.specs.Names.{box_at};
ghost use Rattle.pool_fabric.specs.Seats.{seat_of, AreSeatsBy, AreBoxes};
ghost use Rattle.slot_balance.specs.Posts.{Posts, SendsOrKeeps, TakesSome, sent_at};

use crate::ledger::Ledger;
use crate::named::Named;
use crate::naming::Naming;
use crate::shelf::Shelf;
use crate::station::Station;
use crate::store::Store;
use batch_inbox::{Mail, Mailbox, Receiver, Sender};
use digit_route::{Batch, Posting, Refused};
use pool_desk::{Counts, Desk};
use slot_chain::EmptyMagazine;
use std::fmt;
use std::sync::{Mutex, Wait};

/// How many batches a worker takes at a time, at most.
pub const MOST_TAKEN: u32 = 64;

/// Of how many buffers a worker takes no further batch at a time.
pub const MOST_HANDLED: u64 = 1024;

/// The inboxes, that of each desk at its number, beside the shelf and the stock.
#[derive(Drop)]
pub struct Fabric<'r, M: Mailbox, T: Receiver, S: Sender, J: Naming> {
    pub(crate) inboxes: Vec<M>,
    pub(crate) ledger: Ledger,
    pub(crate) shelf: Mutex<Shelf<'r, T, S, J>>,
    pub(crate) stock: Mutex<Store<'r, J>>,
    pub(crate) of: Named<J>,
    ghost boxes: { AreBoxes J.names (map M.id inboxes.items) },
    ghost ledger_is: { ledger ≡ J.names.ledger },
}

impl<'r, M: Mailbox, T: Receiver, S: Sender, J: Naming> Fabric<'r, M, T, S, J> {
    /// The inbox of the desk of this number; `None` where there is no such desk. It is for a program
    /// with an inbox type of its own, to read what the inbox keeps beside its queue.
    pub fn inbox(&self, number: u16) -> Option<&M>
        ensures { MatchOption result
            (J.names.count ≤ number)
            (λ m. (number < J.names.count) × (M.id m.now ≡ box_at J.names number)) }
    {
        let at = usize::from(number);
        let inboxes = &self.inboxes;
        if at >= inboxes.len() {
            return None;
        }
        let inbox = &inboxes[at];
        Some(inbox)
    }
}

impl<'r, T: Receiver, S: Sender, M: Mail<'r, TakeSeat = T, SendSeat = S>, J: Naming> Fabric<
    'r,
    M,
    T,
    S,
    J,
> {
    /// Gets a station off the shelf; `None` where the shelf is empty. Its cache has the fabric's limit.
    pub fn station<R: Wait>(&self, rt: &R) -> Option<Station<'r, T, S, J>>
        ensures { IfSome result (λ s. s.desk.limit ≡ J.names.limit) }
    {
        self.shelf.lock(rt).get()
    }

    /// Puts a station back on the shelf, or hands it back where the shelf is full.
    pub fn put_back<R: Wait>(
        &self,
        rt: &R,
        station: Station<'r, T, S, J>,
    ) -> Result<(), Station<'r, T, S, J>>
        ensures { IfErr result (λ s. s ≡ station.entry) }
    {
        self.shelf.lock(rt).put(station)
    }

    // Posts a batch to its address, and gets the memory of one that was emptied there. The batch comes back
    // where the inbox refuses it, or there is none.
    fn post_one<R: Wait>(
        &self,
        rt: &R,
        seats: &mut [S],
        batch: Batch<'r>,
    ) -> Result<EmptyMagazine<'r>, Batch<'r>>
        requires seats { AreSeatsBy J.names batch.sender (map (seat_of S.inbox S.number S.sent S.resting) seats.old) }
        requires digits { batch.digits ≡ J.names.digits }
        ensures { let seat = seat_of S.inbox S.number S.sent S.resting in let b = batch.entry in MatchResult result
            (λ _. (b.address < length seats.old) × (map seat seats.new ≡ sent_at b.address b (map seat seats.old)))
            (λ x. (x ≡ b) × (map seat seats.new ≡ map seat seats.old)) }
    {
        let at = usize::from(batch.address());
        let inboxes = &self.inboxes;
        if at >= inboxes.len() || at >= seats.len() {
            return Err(batch);
        }
        let inbox = &inboxes[at];
        let seat = &mut seats[at];
        match inbox.post(rt, seat, batch) {
            Ok(()) => Ok(inbox.reclaim_empty(rt, seat)),
            Err((batch, _)) => Err(batch),
        }
    }

    // Posts a batch to its address, and gets the memory of one that was emptied there, if there is any.
    // Where the inbox refuses the batch, or there is none, its buffers are added to what was refused.
    fn post_or_keep<R: Wait>(
        &self,
        rt: &R,
        seats: &mut [S],
        batch: Batch<'r>,
        refused: &mut Refused<'r>,
    ) -> EmptyMagazine<'r>
        requires seats { AreSeatsBy J.names batch.sender (map (seat_of S.inbox S.number S.sent S.resting) seats.old) }
        requires digits { batch.digits ≡ J.names.digits }
        requires refused { (refused.old.number ≡ batch.sender) × (refused.old.digits ≡ batch.digits) }
        ensures same { refused.new ≡ record refused.old { items = refused.new.items } }
        ensures goes { let seat = seat_of S.inbox S.number S.sent S.resting in
            SendsOrKeeps batch.entry (map seat seats.old) refused.old.items (map seat seats.new) refused.new.items }
    {
        match self.post_one(rt, seats, batch) {
            Ok(empty) => empty,
            Err(batch) => {
                refused.add(batch);
                EmptyMagazine::new()
            }
        }
    }

    // Posts what the desk gives in the first round, where it stands, and hands back what was refused.
    // What is left goes in later rounds.
    fn post_first_round<R: Wait>(&self, rt: &R, desk: &mut Desk<'r>, seats: &mut [S]) -> Refused<'r>
        requires digits { desk.old.digits ≡ J.names.digits }
        requires seats { AreSeatsBy J.names desk.old.number
            (map (seat_of S.inbox S.number S.sent S.resting) seats.old) }
        ensures same { desk.new ≡ record desk.old { cached = desk.new.cached } }
        ensures refused { result
            ≡ record { number = desk.old.number; digits = desk.old.digits; items = result.items } }
        ensures seats { AreSeatsBy J.names desk.old.number
            (map (seat_of S.inbox S.number S.sent S.resting) seats.new) }
        ensures posts { let seat = seat_of S.inbox S.number S.sent S.resting in
            Posts desk.old.digits desk.old.number desk.old.cached (map seat seats.old)
            desk.new.cached result.items (map seat seats.new) }
        ensures later { All (λ (x : Buffer). 0 < common desk.new.digits x.owner desk.new.number) desk.new.cached }
    {
        let mut refused = Refused::new(desk.number(), desk.digits());
        while let Some(batch) = desk.next_of_first_round() {
            let address = batch.address();
            let empty = self.post_or_keep(rt, seats, batch, &mut refused);
            desk.reuse(address, empty);
        }
        refused
    }

    // Posts all that a posting gives, and hands back what was refused. A row of a later round is let go, so
    // the memory that comes back is let go too.
    fn post_rounds<R: Wait>(
        &self,
        rt: &R,
        posting: &mut Posting<'r>,
        seats: &mut [S],
    ) -> Refused<'r>
        requires digits { posting.old.digits ≡ J.names.digits }
        requires seats { AreSeatsBy J.names posting.old.number
            (map (seat_of S.inbox S.number S.sent S.resting) seats.old) }
        ensures same { posting.new ≡ record posting.old {
          round = posting.new.round;
          moves = posting.new.moves;
          items = posting.new.items;
        } }
        ensures emptied { posting.new.items ≡ [] }
        ensures refused { result ≡ record {
          number = posting.old.number;
          digits = posting.old.digits;
          items = result.items;
        } }
        ensures seats { AreSeatsBy J.names posting.old.number
            (map (seat_of S.inbox S.number S.sent S.resting) seats.new) }
        ensures posts { let seat = seat_of S.inbox S.number S.sent S.resting in let p = posting.old in
            Posts p.digits p.number p.items (map seat seats.old) [] result.items (map seat seats.new) }
    {
        let mut refused = Refused::new(posting.number(), posting.digits());
        while let Some(batch) = posting.next_batch() {
            let _empty = self.post_or_keep(rt, seats, batch, &mut refused);
        }
        refused
    }

    // Posts all of a desk's cache, which is taken out of the desk, and hands back what was refused. By
    // itself, since what it has on its stack would else be cleared at every post.
    #[cold]
    #[inline(never)]
    fn post_taken_out<R: Wait>(&self, rt: &R, desk: &mut Desk<'r>, seats: &mut [S]) -> Refused<'r>
        requires digits { desk.old.digits ≡ J.names.digits }
        requires seats { AreSeatsBy J.names desk.old.number
            (map (seat_of S.inbox S.number S.sent S.resting) seats.old) }
        ensures same { desk.new ≡ record desk.old { cached = [] } }
        ensures refused { result
            ≡ record { number = desk.old.number; digits = desk.old.digits; items = result.items } }
        ensures seats { AreSeatsBy J.names desk.old.number
            (map (seat_of S.inbox S.number S.sent S.resting) seats.new) }
        ensures posts { let seat = seat_of S.inbox S.number S.sent S.resting in
            Posts desk.old.digits desk.old.number desk.old.cached (map seat seats.old)
            [] result.items (map seat seats.new) }
    {
        let mut posting = desk.take_posting();
        self.post_rounds(rt, &mut posting, seats)
    }

    // Posts what is left behind the first round, where anything is, and hands back what was refused.
    #[inline(always)]
    fn post_later_rounds<R: Wait>(
        &self,
        rt: &R,
        desk: &mut Desk<'r>,
        seats: &mut [S],
    ) -> Refused<'r>
        requires digits { desk.old.digits ≡ J.names.digits }
        requires seats { AreSeatsBy J.names desk.old.number
            (map (seat_of S.inbox S.number S.sent S.resting) seats.old) }
        requires later { All (λ (x : Buffer). 0 < common desk.old.digits x.owner desk.old.number) desk.old.cached }
        ensures same { desk.new ≡ record desk.old { cached = [] } }
        ensures refused { result
            ≡ record { number = desk.old.number; digits = desk.old.digits; items = result.items } }
        ensures seats { AreSeatsBy J.names desk.old.number
            (map (seat_of S.inbox S.number S.sent S.resting) seats.new) }
        ensures posts { let seat = seat_of S.inbox S.number S.sent S.resting in
            Posts desk.old.digits desk.old.number desk.old.cached (map seat seats.old)
            [] result.items (map seat seats.new) }
    {
        if desk.is_posted() {
            return Refused::new(desk.number(), desk.digits());
        }
        self.post_taken_out(rt, desk, seats)
    }

    /// Posts all of a desk's cache, as [`Fabric::post_all`] does, and says whether no batch was refused.
    pub(crate) fn post_in_place<R: Wait>(
        &self,
        rt: &R,
        desk: &mut Desk<'r>,
        seats: &mut [S],
    ) -> bool
        requires digits { desk.old.digits ≡ J.names.digits }
        requires seats { AreSeatsBy J.names desk.old.number
            (map (seat_of S.inbox S.number S.sent S.resting) seats.old) }
        ensures same { desk.new ≡ record desk.old { cached = desk.new.cached } }
        ensures seats { AreSeatsBy J.names desk.old.number
            (map (seat_of S.inbox S.number S.sent S.resting) seats.new) }
        ensures posts { let seat = seat_of S.inbox S.number S.sent S.resting in
            Posts desk.old.digits desk.old.number desk.old.cached (map seat seats.old)
            [] desk.new.cached (map seat seats.new) }
        ensures all { IsTrue result → desk.new.cached ≡ [] }
    {
        let first = self.post_first_round(rt, desk, seats);
        let later = self.post_later_rounds(rt, desk, seats);
        let all = first.is_empty() && later.is_empty();
        desk.take_back(first);
        desk.take_back(later);
        all
    }

    /// Posts all of a desk's cache, round by round. A batch is refused by the inbox at its address, or
    /// where there is none. It holds back no other; its buffers are in the desk's cache again, and
    /// nothing else is. `Ok`: no batch was refused.
    pub fn post_all<R: Wait>(
        &self,
        rt: &R,
        desk: Desk<'r>,
        seats: &mut [S],
    ) -> Result<Desk<'r>, Desk<'r>>
        requires digits { desk.digits ≡ J.names.digits }
        requires seats { AreSeatsBy J.names desk.number (map (seat_of S.inbox S.number S.sent S.resting) seats.old) }
        ensures same { MatchResult result
            (λ d. d ≡ record desk.entry { cached = d.cached })
            (λ d. d ≡ record desk.entry { cached = d.cached }) }
        ensures seats { AreSeatsBy J.names desk.entry.number
            (map (seat_of S.inbox S.number S.sent S.resting) seats.new) }
        ensures posts { let seat = seat_of S.inbox S.number S.sent S.resting in MatchResult result
            (λ d. Posts d.digits d.number desk.entry.cached (map seat seats.old) [] d.cached (map seat seats.new))
            (λ d. Posts d.digits d.number desk.entry.cached (map seat seats.old) [] d.cached (map seat seats.new)) }
        ensures all { IfOk result (λ d. d.cached ≡ []) }
    {
        let mut desk = desk;
        if self.post_in_place(rt, &mut desk, seats) {
            Ok(desk)
        } else {
            Err(desk)
        }
    }

    /// Takes batches from the desk's inbox and handles each, until it is given none, has handled
    /// [`MOST_HANDLED`] buffers or more, or has taken [`MOST_TAKEN`] batches. Says how many it took. So the
    /// steps of a call are bounded by these numbers and the last batch. The emptied magazines go back to those
    /// who sent them.
    pub fn take_some<R: Wait>(&self, rt: &R, desk: &mut Desk<'r>, seat: &mut T) -> u32
        requires digits { desk.old.digits ≡ J.names.digits }
        requires seat { T.inbox seat.old ≡ box_at J.names desk.old.number }
        ensures most { result ≤ most_taken }
        ensures takes { TakesSome
            desk.old (record { inbox = T.inbox seat.old; senders = T.senders seat.old; taken = T.taken seat.old })
            result
            desk.new (record { inbox = T.inbox seat.new; senders = T.senders seat.new; taken = T.taken seat.new }) }
    {
        let at = usize::from(desk.number());
        let inboxes = &self.inboxes;
        if at >= inboxes.len() {
            return 0;
        }
        let inbox = &inboxes[at];
        let mut handled = 0u64;
        for taken in 0..MOST_TAKEN {
            let Some(batch) = inbox.take(rt, seat) else {
                return taken;
            };
            let counts = handle_taken(rt, inbox, desk, seat, batch);
            handled = handled.saturating_add(counts.home.saturating_add(counts.on));
            if handled >= MOST_HANDLED {
                return taken + 1;
            }
        }
        MOST_TAKEN
    }
}

// Handles a batch that was taken from the desk's inbox, and leaves its memory to those who send there. It is a function
// of its own, so that a look that finds no batch makes no place for one.
#[inline(never)]
fn handle_taken<'r, T: Receiver, S: Sender, M: Mail<'r, TakeSeat = T, SendSeat = S>, R: Wait>(
    rt: &R,
    inbox: &M,
    desk: &mut Desk<'r>,
    seat: &mut T,
    batch: Batch<'r>,
) -> Counts
    requires address { batch.address ≡ desk.old.number }
    requires digits { batch.digits ≡ desk.old.digits }
    requires seat { T.inbox seat.old ≡ M.id inbox.now }
    ensures parts { Handles desk.old batch.entry.items desk.new }
    ensures counts { CountsOf desk.old.number batch.entry.items result }
    ensures seat { (T.inbox seat.new ≡ T.inbox seat.old) × (T.senders seat.new ≡ T.senders seat.old)
        × (T.taken seat.new ≡ T.taken seat.old) }
{
    let (counts, empty) = desk.handle_and_empty(batch);
    inbox.return_empty(rt, seat, empty);
    counts
}

// The stations are not printed, nor what is in the inboxes.
impl<M: Mailbox, T: Receiver, S: Sender, J: Naming> fmt::Debug for Fabric<'_, M, T, S, J> {
    fn fmt<W: fmt::Write>(&self, f: &mut fmt::Formatter<W>) -> fmt::Result {
        write!(f, "Fabric({} desks)", self.inboxes.len())
    }
}
