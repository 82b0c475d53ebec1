//! An inbox that refuses a post.
ghost use Rattle.std.specs.Prelude.{◌≡◌, ℕ, ◌≤◌, [], ◌++◌, length, Some, slice_get};
ghost use Rattle.batch_inbox.specs.States.{SendState, AreSeatsOf, left};
ghost use Rattle.batch_inbox.specs.Views.{batches_of};

use batch_inbox::{Inbox, Mail, Mailbox, NewMail, PostError, Rest, SendSeat, TakeSeat};
use digit_route::{Batch, Digits};
use slot_chain::{EmptyMagazine, NoMemory};
use std::alloc::Global;
use std::sync::Wait;
use std::sync::atomic::{AtomicU64, Ordering};

/// An inbox that refuses one post, as where memory is refused for its queue: the batch comes back,
/// and the seat is as it was.
#[derive(Drop)]
pub struct Refusing<'r> {
    inbox: Inbox<'r>,
    // Which post is refused, from 1.
    refused: u64,
    posts: AtomicU64,
}

impl<'r> Refusing<'r> {
    /// The inbox, which refuses the post of this number, from 1, and none where it is 0.
    pub fn new(inbox: Inbox<'r>, refused: u64) -> Refusing<'r>
        ensures { result.inbox ≡ inbox.entry }
    {
        Refusing {
            inbox,
            refused,
            posts: AtomicU64::new(0),
        }
    }
}

impl<'r> Mailbox for Refusing<'r> {
    ghost id = { λ i. i.inbox };
}

impl<'r> Mail<'r> for Refusing<'r> {
    type TakeSeat = TakeSeat<'r>;

    type SendSeat = SendSeat<'r>;

    type Rest = Rest<'r>;

    fn post<R: Wait>(
        &self,
        rt: &R,
        seat: &mut SendSeat<'r>,
        batch: Batch<'r>,
    ) -> Result<(), (Batch<'r>, PostError)> {
        let posts = self.posts.fetch_add(1, Ordering::SeqCst);
        if posts.wrapping_add(1) == self.refused {
            return Err((batch, PostError::NoRoom));
        }
        self.inbox.post(rt, seat, batch)
    }

    fn take<R: Wait>(&self, rt: &R, seat: &mut TakeSeat<'r>) -> Option<Batch<'r>> {
        self.inbox.take(rt, seat)
    }

    fn return_empty<R: Wait>(&self, rt: &R, _seat: &mut TakeSeat<'r>, empty: EmptyMagazine<'r>) {
        self.inbox.return_empty(rt, empty);
    }

    fn reclaim_empty<R: Wait>(&self, rt: &R, _seat: &mut SendSeat<'r>) -> EmptyMagazine<'r> {
        self.inbox.reclaim_empty(rt)
    }

    fn drain<R: Wait>(self, rt: &R, seat: TakeSeat<'r>, seats: Vec<SendSeat<'r>>) -> Rest<'r>
        requires seat { seat.inbox ≡ self.inbox }
        requires seats { AreSeatsOf self.inbox seats.items × (length seats.items ≡ seat.senders) }
        ensures all { (k : ℕ) (s : SendState) → slice_get seats.entry.items k ≡ Some s
            → s.sent ≡ batches_of k seat.entry.taken ++ left result k }
        ensures only { (k : ℕ) → length seats.entry.items ≤ k
            → (batches_of k seat.entry.taken ≡ []) × (left result k ≡ []) }
    {
        let Refusing {
            inbox,
            refused: _,
            posts: _,
        } = self;
        inbox.drain(rt, seat, seats)
    }

    fn next_rest<R: Wait>(rt: &R, rest: &mut Rest<'r>) -> Option<Batch<'r>> {
        rest.next(rt)
    }

    fn at_rest(_seat: &SendSeat<'r>) -> bool {
        true
    }

    fn sender(seat: &SendSeat<'r>) -> u16 {
        seat.sender()
    }
}

// The inbox of the last desk refuses its first post.
impl<'r> NewMail<TakeSeat<'r>, SendSeat<'r>> for Refusing<'r> {
    fn new_mail(
        alloc: Global,
        address: u16,
        digits: Digits,
        senders: u16,
    ) -> Result<(Refusing<'r>, TakeSeat<'r>, Vec<SendSeat<'r>>), NoMemory> {
        let (inbox, take, seats) = Inbox::new(alloc, address, digits, senders)?;
        let is_last = address.wrapping_add(1) == senders;
        Ok((Refusing::new(inbox, u64::from(is_last)), take, seats))
    }
}
