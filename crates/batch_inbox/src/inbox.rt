//! The inbox.
ghost use Rattle.std.specs.Prelude.{◌≡◌, ℕ, ◌≤◌, [], ◌∷◌, ◌++◌};
ghost use Rattle.std.specs.Prelude.{length, Some, slice_get, IfOk, IfErr, IfNone, IsTrue, MatchResult};
ghost use Rattle.batch_inbox.specs.Limits.{sender_limit};
ghost use Rattle.batch_inbox.specs.States.{SendState, AreSeatsOf, AreNew, left};
ghost use Rattle.batch_inbox.specs.Taking.{IsSameSeat, TakesAtMostOne, ReceiverLearns, HoldsOfEmpty};
ghost use Rattle.batch_inbox.specs.Views.{batches_of, place_of};
ghost use Rattle.batch_inbox.specs.declared.error.PostError.TheVariants.{NoRoom};

use crate::opening::{opened, seated};
use crate::rule::{Line, View};
use crate::steps::{Nothing, Posts, Rests, Seats, Takes};
use crate::{PostError, Rest, SendSeat, TakeSeat};
use crossbeam_queue::SegQueue;
use crossbeam_queue::protocol::Lesson;
use digit_route::{Batch, Digits};
use slot_chain::{EmptyMagazine, NoMemory};
use std::alloc::Global;
use std::fmt;
use std::marker::{Brand, Model};
use std::sync::Wait;

/// The message queue of one desk, with a seat for each sender and one for the receiver.
///
/// Threads share it by `&`. Contracts see which inbox it is; what it holds they see in the seats.
/// It may be dropped at any time, with what it holds, and so may its seats.
///
/// Empty magazines go back from the receiver to the senders through a second queue, of which
/// contracts see nothing. Each queue takes memory for its blocks, once in 31 batches or magazines.
pub struct Inbox<'r> {
    queue: Line<'r>,
    empties: SegQueue<EmptyMagazine<'r>>,
    address: u16,
    digits: Digits,
}

impl<'r> Model for Inbox<'r> {
    ghost use Rattle.batch_inbox.specs.States.{InboxId, inbox_of};

    ghost Value = { InboxId };

    ghost view = { λ i. inbox_of i.queue.web (record { address = i.address; digits = i.digits }) };
}

impl<'r> Drop for Inbox<'r> {
    fn drop(self) {
        let Self {
            queue,
            empties,
            address: _,
            digits: _,
        } = self;
        queue.destroy();
        drop(empties);
    }
}

impl<'r> Inbox<'r> {
    /// An empty inbox of the desk `address`, with the seats of its senders, numbered from 0.
    ///
    /// Owner numbers are read as `digits` says: in its profile, and with digits of its width.
    pub fn new(
        alloc: Global,
        address: u16,
        digits: Digits,
        senders: u16,
    ) -> Result<(Inbox<'r>, TakeSeat<'r>, Vec<SendSeat<'r>>), NoMemory>
        requires senders { (1 ≤ senders) × (senders ≤ sender_limit) }
        ensures inbox { IfOk result (λ r. r.0.place ≡ record { address = address; digits = digits }) }
        ensures receiver { IfOk result (λ r. r.1 ≡ record { inbox = r.0; senders = senders; taken = [] }) }
        ensures senders { IfOk result (λ r.
            AreSeatsOf r.0 r.2.items × (length r.2.items ≡ senders) × AreNew r.2.items) }
    {
        let empties = SegQueue::new(alloc)?;
        let (queue, mut pass) = Line::with_rule(alloc)?;
        opened::<Brand>(&queue, &mut pass, address, digits);
        let inbox = Inbox {
            queue,
            empties,
            address,
            digits,
        };
        let seats = seated(alloc, &inbox.queue, &mut pass, senders)?;
        Ok((inbox, TakeSeat { pass }, seats))
    }

    /// The desk that takes from it, to which each batch in it is addressed.
    pub fn address(&self) -> u16
        ensures { result ≡ self.now.place.address }
    {
        self.address
    }

    /// How the numbers of the owners in its batches are read.
    pub fn digits(&self) -> Digits
        ensures { result ≡ self.now.place.digits }
    {
        self.digits
    }

    /// Posts a batch, which goes last.
    ///
    /// It is refused where the queue needs memory, once in 31 posts, and gets none. The batch then
    /// comes back, and the same call may be made again.
    pub fn post<R: Wait>(
        &self,
        rt: &R,
        seat: &mut SendSeat<'r>,
        batch: Batch<'r>,
    ) -> Result<(), (Batch<'r>, PostError)>
        requires seat { seat.old.inbox ≡ self.now }
        requires batch { (place_of batch ≡ self.now.place) × (batch.sender ≡ seat.old.sender) }
        ensures seat { (seat.new.inbox ≡ seat.old.inbox) × (seat.new.sender ≡ seat.old.sender) }
        ensures batch { MatchResult result
            (λ _. seat.new.sent ≡ seat.old.sent ++ batch.entry ∷ [])
            (λ e. (e.0 ≡ batch.entry) × (seat.new ≡ seat.old)) }
        ensures error { IfErr result (λ e. e.1 ≡ NoRoom) }
    {
        match self.queue.push_as::<Posts, R>(rt, &mut seat.pass, batch) {
            Ok(()) => Ok(()),
            Err(batch) => Err((batch, PostError::NoRoom)),
        }
    }

    /// Takes the first batch. `None` is answered only where the inbox was empty at some moment of
    /// the call ([`Inbox::take_and`] has that as a clause).
    pub fn take<R: Wait>(&self, rt: &R, seat: &mut TakeSeat<'r>) -> Option<Batch<'r>>
        requires { seat.old.inbox ≡ self.now }
        ensures seat { IsSameSeat seat.old seat.new }
        ensures batch { TakesAtMostOne self.now.place seat.old.taken seat.new.taken result }
    {
        self.take_and::<Nothing, R>(rt, seat)
    }

    /// Takes the first batch, and knows more at `None`: that the inbox was empty at some moment of
    /// the call.
    ///
    /// No clause can name what a shared queue holds. So the caller brings a lesson `L`: a fact that
    /// the rule of the inbox teaches the receiver, whatever the queue holds. At `None` the fact is
    /// told of the empty queue. This call knows nothing of the lesson, so it can't be told where
    /// the queue was never empty.
    pub fn take_and<L: Lesson<Batch<'r>, View<'r>>, R: Wait>(
        &self,
        rt: &R,
        seat: &mut TakeSeat<'r>,
    ) -> Option<Batch<'r>>
        requires seat { seat.old.inbox ≡ self.now }
        requires lesson { ReceiverLearns seat.old L.fact }
        ensures seat { IsSameSeat seat.old seat.new }
        ensures batch { TakesAtMostOne self.now.place seat.old.taken seat.new.taken result }
        ensures empty { IfNone result (HoldsOfEmpty seat.old L.fact) }
    {
        if self.is_empty::<L>(seat) {
            return None;
        }
        self.pop::<L, R>(rt, seat)
    }

    // Whether nothing is there. If so, the fact is true of an empty queue. It is asked first, since it makes no place for
    // a batch: most looks find none.
    #[inline(always)]
    fn is_empty<L: Lesson<Batch<'r>, View<'r>>>(&self, seat: &mut TakeSeat<'r>) -> bool
        requires seat { seat.old.inbox ≡ self.now }
        requires lesson { ReceiverLearns seat.old L.fact }
        ensures same { seat.new ≡ seat.old }
        ensures empty { IsTrue result → HoldsOfEmpty seat.old L.fact }
    {
        self.queue.is_empty_as::<L>(&mut seat.pass)
    }

    // Takes the first batch, as `take_and` does.
    #[inline(never)]
    fn pop<L: Lesson<Batch<'r>, View<'r>>, R: Wait>(
        &self,
        rt: &R,
        seat: &mut TakeSeat<'r>,
    ) -> Option<Batch<'r>>
        requires seat { seat.old.inbox ≡ self.now }
        requires lesson { ReceiverLearns seat.old L.fact }
        ensures seat { IsSameSeat seat.old seat.new }
        ensures batch { TakesAtMostOne self.now.place seat.old.taken seat.new.taken result }
        ensures empty { IfNone result (HoldsOfEmpty seat.old L.fact) }
    {
        self.queue.pop_as::<Takes<L>, R>(rt, &mut seat.pass)
    }

    /// Leaves the memory of a batch that was taken to those who send here. Where the queue needs
    /// memory, once in 31 calls, and gets none, the magazine is let go.
    pub fn return_empty<R: Wait>(&self, rt: &R, empty: EmptyMagazine<'r>) {
        drop(self.empties.push(rt, empty));
    }

    /// An empty magazine that the receiver left, or one without memory where there is none.
    pub fn reclaim_empty<R: Wait>(&self, rt: &R) -> EmptyMagazine<'r> {
        self.empties.pop(rt).unwrap_or_default()
    }

    /// Ends the inbox, given all its seats. What was sent and not taken is left, of each sender in
    /// its order.
    pub fn drain<R: Wait>(self, rt: &R, seat: TakeSeat<'r>, seats: Vec<SendSeat<'r>>) -> Rest<'r>
        requires seat { seat.inbox ≡ self }
        requires seats { AreSeatsOf self seats.items × (length seats.items ≡ seat.senders) }
        ensures all { (k : ℕ) (s : SendState) → slice_get seats.entry.items k ≡ Some s
            → s.sent ≡ batches_of k seat.entry.taken ++ left result k }
        ensures only { (k : ℕ) → length seats.entry.items ≤ k
            → (batches_of k seat.entry.taken ≡ []) × (left result k ≡ []) }
    {
        let Self {
            queue,
            empties,
            address: _,
            digits: _,
        } = self;
        drop(empties);
        let TakeSeat { mut pass } = seat;
        for seat in seats {
            let SendSeat {
                pass: other,
                sender: _,
            } = seat;
            queue.absorb::<Seats>(&mut pass, other);
        }
        queue.len_as::<Rests, R>(rt, &mut pass);
        Rest { queue, pass }
    }
}

// The batches are not printed.
impl fmt::Debug for Inbox<'_> {
    fn fmt<W: fmt::Write>(&self, f: &mut fmt::Formatter<W>) -> fmt::Result {
        write!(f, "Inbox(of {})", self.address)
    }
}
