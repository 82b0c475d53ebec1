//! What every inbox promises, kept by this one.
ghost use Rattle.std.specs.Prelude.{◌≡◌, ℕ, ◌≤◌, [], ◌++◌, length, Some, slice_get};
ghost use Rattle.batch_inbox.specs.States.{left};
ghost use Rattle.batch_inbox.specs.Views.{batches_of};
ghost use Rattle.link_inbox.specs.States.{SendState, AreSeatsOf};

use crate::inbox::LinkInbox;
use crate::rest::Rest;
use crate::seats::{SendSeat, TakeSeat};
use batch_inbox::{Mail, Mailbox, NewMail, PostError, Receiver, Remainder, Sender};
use digit_route::{Batch, Digits};
use slot_chain::{EmptyMagazine, NoMemory};
use std::alloc::Global;
use std::sync::Wait;

impl<'r> Sender for SendSeat<'r> {
    ghost use Rattle.std.specs.Prelude.{is_none};

    ghost inbox = { λ s. s.inbox };

    ghost number = { λ s. s.sender };

    ghost sent = { λ s. s.sent };

    ghost resting = { λ s. is_none s.half };
}

impl<'r> Receiver for TakeSeat<'r> {
    ghost inbox = { λ s. s.inbox };

    ghost senders = { λ s. s.senders };

    ghost taken = { λ s. s.taken };
}

impl<'r> Remainder for Rest<'r> {
    ghost use Rattle.batch_inbox.specs.States as states;

    ghost left = { states.left };
}

impl<'r> Mailbox for LinkInbox<'r> {
    ghost id = { λ i. i };
}

impl<'r> Mail<'r> for LinkInbox<'r> {
    type TakeSeat = TakeSeat<'r>;

    type SendSeat = SendSeat<'r>;

    type Rest = Rest<'r>;

    fn post<R: Wait>(
        &self,
        _rt: &R,
        seat: &mut SendSeat<'r>,
        batch: Batch<'r>,
    ) -> Result<(), (Batch<'r>, PostError)> {
        self.post(seat, batch)
    }

    fn take<R: Wait>(&self, _rt: &R, seat: &mut TakeSeat<'r>) -> Option<Batch<'r>> {
        self.take(seat)
    }

    fn return_empty<R: Wait>(&self, _rt: &R, seat: &mut TakeSeat<'r>, empty: EmptyMagazine<'r>) {
        self.return_empty(seat, empty);
    }

    fn reclaim_empty<R: Wait>(&self, _rt: &R, seat: &mut SendSeat<'r>) -> EmptyMagazine<'r> {
        self.reclaim_empty(seat)
    }

    fn drain<R: Wait>(self, _rt: &R, seat: TakeSeat<'r>, seats: Vec<SendSeat<'r>>) -> Rest<'r>
        requires seat { seat.inbox ≡ self }
        requires seats { AreSeatsOf self seats.items × (length seats.items ≡ seat.senders) }
        ensures all { (k : ℕ) (s : SendState) → slice_get seats.entry.items k ≡ Some s
            → s.sent ≡ batches_of k seat.entry.taken ++ left result k }
        ensures only { (k : ℕ) → length seats.entry.items ≤ k
            → (batches_of k seat.entry.taken ≡ []) × (left result k ≡ []) }
    {
        self.drain(seat, seats)
    }

    fn next_rest<R: Wait>(_rt: &R, rest: &mut Rest<'r>) -> Option<Batch<'r>> {
        rest.next()
    }

    fn at_rest(seat: &SendSeat<'r>) -> bool {
        seat.at_rest()
    }

    fn sender(seat: &SendSeat<'r>) -> u16 {
        seat.sender()
    }
}

impl<'r> NewMail<TakeSeat<'r>, SendSeat<'r>> for LinkInbox<'r> {
    fn new_mail(
        alloc: Global,
        address: u16,
        digits: Digits,
        senders: u16,
    ) -> Result<(LinkInbox<'r>, TakeSeat<'r>, Vec<SendSeat<'r>>), NoMemory> {
        LinkInbox::new(alloc, address, digits, senders)
    }
}
