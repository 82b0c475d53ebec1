//! What every inbox promises.
//!
//! The ghost members stand on traits of their own, which name no lifetime, so that a struct of seats
//! can have a model.
ghost use Rattle.std.specs.Prelude.{◌≡◌, ℕ, true, ◌≤◌, [], ◌∷◌, ◌++◌, length};
ghost use Rattle.std.specs.Prelude.{Some, slice_get, MatchResult, MatchOption};
ghost use Rattle.batch_inbox.specs.States.{SendState, AreSeatsOf, left};
ghost use Rattle.batch_inbox.specs.Taking.{TakesAtMostOne};
ghost use Rattle.batch_inbox.specs.Views.{batches_of, place_of};

use crate::{Inbox, PostError, Rest, SendSeat, TakeSeat};
use digit_route::Batch;
use slot_chain::EmptyMagazine;
use std::sync::Wait;

/// A sender's seat.
pub trait Sender: Drop {
    ghost use Rattle.std.specs.Prelude.{ℕ, Bool, List};
    ghost use Rattle.digit_route.specs.States.{BatchState};
    ghost use Rattle.batch_inbox.specs.States.{InboxId};

    /// The inbox that it is of.
    ghost inbox: { Self → InboxId };

    /// The sender's number.
    ghost number: { Self → ℕ };

    /// What was sent from it, first to last.
    ghost sent: { Self → List BatchState };

    /// It is at rest: no post from it is half done.
    ghost resting: { Self → Bool };
}

/// The receiver's seat.
pub trait Receiver: Drop {
    ghost use Rattle.std.specs.Prelude.{ℕ, List};
    ghost use Rattle.digit_route.specs.States.{BatchState};
    ghost use Rattle.batch_inbox.specs.States.{InboxId};

    /// The inbox that it is of.
    ghost inbox: { Self → InboxId };

    /// How many senders there are.
    ghost senders: { Self → ℕ };

    /// What was taken, first to last.
    ghost taken: { Self → List BatchState };
}

/// What is left of an inbox that was ended.
pub trait Remainder: Drop {
    ghost use Rattle.std.specs.Prelude.{ℕ, List};
    ghost use Rattle.digit_route.specs.States.{BatchState};

    /// The batches that are left of a sender, first to last.
    ghost left: { Self → ℕ → List BatchState };
}

/// Something that is one inbox.
pub trait Mailbox: Drop {
    ghost use Rattle.batch_inbox.specs.States.{InboxId};

    /// Which inbox it is.
    ghost id: { Self → InboxId };
}

/// An inbox with many senders and one receiver.
///
/// These clauses are the whole promise to those who are generic over it. A queue of a user's own may
/// implement it. It then owes, whatever the threads do and in whatever order:
///
/// - Its id is its own: no other inbox's seats carry it, and the seats made with it do.
/// - `post` appends the batch to what its seat sent, or hands the same batch back and leaves the seat.
/// - `take` appends what it gives to what was taken, and gives only what goes to its place. Of `None`
///   it says that nothing was taken, and no more: a queue may have a batch that can't be reached yet.
/// - `drain`, given all seats, keeps for each sender just what it sent and `take` didn't give, and
///   nothing was taken of a sender that has no seat. `next_rest` hands that out and nothing else.
/// - A seat that is new is at rest, and `post` leaves it so.
/// - `return_empty` and `reclaim_empty` change nothing that is seen. A queue may let go what is left to
///   it and answer `EmptyMagazine::new()`.
pub trait Mail<'r>: Mailbox {
    type TakeSeat: Receiver;

    type SendSeat: Sender;

    type Rest: Remainder;

    /// Posts a batch, which goes last, or hands it back.
    fn post<R: Wait>(
        &self,
        rt: &R,
        seat: &mut Self::SendSeat,
        batch: Batch<'r>,
    ) -> Result<(), (Batch<'r>, PostError)>
        requires seat { (Self.SendSeat.inbox seat.old ≡ Self.id self.now)
            × (Self.SendSeat.resting seat.old ≡ true) }
        requires batch { (place_of batch ≡ (Self.id self.now).place)
            × (batch.sender ≡ Self.SendSeat.number seat.old) }
        ensures seat { (Self.SendSeat.inbox seat.new ≡ Self.SendSeat.inbox seat.old)
            × (Self.SendSeat.number seat.new ≡ Self.SendSeat.number seat.old)
            × (Self.SendSeat.resting seat.new ≡ true) }
        ensures batch { MatchResult result
            (λ _. Self.SendSeat.sent seat.new ≡ Self.SendSeat.sent seat.old ++ batch.entry ∷ [])
            (λ e. (e.0 ≡ batch.entry) × (seat.new ≡ seat.old)) };

    /// Takes the first batch that can be reached, if there is one.
    fn take<R: Wait>(&self, rt: &R, seat: &mut Self::TakeSeat) -> Option<Batch<'r>>
        requires { Self.TakeSeat.inbox seat.old ≡ Self.id self.now }
        ensures seat { (Self.TakeSeat.inbox seat.new ≡ Self.TakeSeat.inbox seat.old)
            × (Self.TakeSeat.senders seat.new ≡ Self.TakeSeat.senders seat.old) }
        ensures batch { TakesAtMostOne (Self.id self.now).place
            (Self.TakeSeat.taken seat.old) (Self.TakeSeat.taken seat.new) result };

    /// Leaves the memory of a batch that was taken to those who send here. It may be let go instead.
    fn return_empty<R: Wait>(&self, rt: &R, seat: &mut Self::TakeSeat, empty: EmptyMagazine<'r>)
        requires { Self.TakeSeat.inbox seat.old ≡ Self.id self.now }
        ensures { (Self.TakeSeat.inbox seat.new ≡ Self.TakeSeat.inbox seat.old)
            × (Self.TakeSeat.senders seat.new ≡ Self.TakeSeat.senders seat.old)
            × (Self.TakeSeat.taken seat.new ≡ Self.TakeSeat.taken seat.old) };

    /// An empty magazine that the receiver left, or one without memory. Who posts asks for one behind each
    /// batch that was posted, so that no more are kept than batches are under way.
    fn reclaim_empty<R: Wait>(&self, rt: &R, seat: &mut Self::SendSeat) -> EmptyMagazine<'r>
        requires { (Self.SendSeat.inbox seat.old ≡ Self.id self.now)
            × (Self.SendSeat.resting seat.old ≡ true) }
        ensures { seat.new ≡ seat.old };

    /// Ends the inbox, given all its seats. What was sent and not taken is left.
    fn drain<R: Wait>(self, rt: &R, seat: Self::TakeSeat, seats: Vec<Self::SendSeat>) -> Self::Rest
        requires seat { Self.TakeSeat.inbox seat ≡ Self.id self }
        requires seats { ((k : ℕ) (s : Self.SendSeat) → slice_get seats.items k ≡ Some s
            → (Self.SendSeat.inbox s ≡ Self.id self) × (Self.SendSeat.number s ≡ k))
            × (length seats.items ≡ Self.TakeSeat.senders seat) }
        ensures all { (k : ℕ) (s : Self.SendSeat) → slice_get seats.items k ≡ Some s
            → Self.SendSeat.sent s ≡ batches_of k (Self.TakeSeat.taken seat) ++ Self.Rest.left result k }
        ensures only { (k : ℕ) → length seats.items ≤ k
            → (batches_of k (Self.TakeSeat.taken seat) ≡ []) × (Self.Rest.left result k ≡ []) };

    /// Hands out the first batch that is left of some sender, or says that nothing is left.
    fn next_rest<R: Wait>(rt: &R, rest: &mut Self::Rest) -> Option<Batch<'r>>
        ensures { MatchOption result
            ((k : ℕ) → Self.Rest.left rest.old k ≡ [])
            (λ x. (k : ℕ) → Self.Rest.left rest.old k ≡ batches_of k (x ∷ []) ++ Self.Rest.left rest.new k) };

    /// Whether no post from the seat is half done.
    fn at_rest(seat: &Self::SendSeat) -> bool
        ensures { result ≡ Self.SendSeat.resting seat.now };

    /// The number of the seat's sender.
    fn sender(seat: &Self::SendSeat) -> u16
        ensures { result ≡ Self.SendSeat.number seat.now };
}

impl<'r> Sender for SendSeat<'r> {
    ghost use Rattle.std.specs.Prelude.{true};

    ghost inbox = { λ s. s.inbox };

    ghost number = { λ s. s.sender };

    ghost sent = { λ s. s.sent };

    ghost resting = { λ s. true };
}

impl<'r> Receiver for TakeSeat<'r> {
    ghost inbox = { λ s. s.inbox };

    ghost senders = { λ s. s.senders };

    ghost taken = { λ s. s.taken };
}

impl<'r> Remainder for Rest<'r> {
    ghost use Rattle.batch_inbox.specs.States as states;

    ghost left = { states.left };
}

impl<'r> Mailbox for Inbox<'r> {
    ghost id = { λ i. i };
}

impl<'r> Mail<'r> for Inbox<'r> {
    type TakeSeat = TakeSeat<'r>;

    type SendSeat = SendSeat<'r>;

    type Rest = Rest<'r>;

    fn post<R: Wait>(
        &self,
        rt: &R,
        seat: &mut SendSeat<'r>,
        batch: Batch<'r>,
    ) -> Result<(), (Batch<'r>, PostError)> {
        self.post(rt, seat, batch)
    }

    fn take<R: Wait>(&self, rt: &R, seat: &mut TakeSeat<'r>) -> Option<Batch<'r>> {
        self.take(rt, seat)
    }

    fn return_empty<R: Wait>(&self, rt: &R, _seat: &mut TakeSeat<'r>, empty: EmptyMagazine<'r>) {
        self.return_empty(rt, empty);
    }

    fn reclaim_empty<R: Wait>(&self, rt: &R, _seat: &mut SendSeat<'r>) -> EmptyMagazine<'r> {
        self.reclaim_empty(rt)
    }

    fn drain<R: Wait>(self, rt: &R, seat: TakeSeat<'r>, seats: Vec<SendSeat<'r>>) -> Rest<'r>
        requires seat { seat.inbox ≡ self }
        requires seats { AreSeatsOf self seats.items × (length seats.items ≡ seat.senders) }
        ensures all { (k : ℕ) (s : SendState) → slice_get seats.entry.items k ≡ Some s
            → s.sent ≡ batches_of k seat.entry.taken ++ left result k }
        ensures only { (k : ℕ) → length seats.entry.items ≤ k
            → (batches_of k seat.entry.taken ≡ []) × (left result k ≡ []) }
    {
        self.drain(rt, seat, seats)
    }

    fn next_rest<R: Wait>(rt: &R, rest: &mut Rest<'r>) -> Option<Batch<'r>> {
        rest.next(rt)
    }

    fn at_rest(_seat: &SendSeat<'r>) -> bool {
        true
    }

    fn sender(seat: &SendSeat<'r>) -> u16 {
        seat.sender()
    }
}
