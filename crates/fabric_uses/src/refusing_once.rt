//! An inbox that refuses a post when it is told to.
ghost use Rattle.std.specs.Prelude.{◌≡◌, ℕ, ◌≤◌, [], ◌++◌, length, Some, slice_get};
ghost use Rattle.batch_inbox.specs.Views.{batches_of};

use batch_inbox::{Mail, Mailbox, NewMail, PostError, Receiver, Sender};
use digit_route::{Batch, Digits};
use slot_chain::{EmptyMagazine, NoMemory};
use std::alloc::Global;
use std::sync::Wait;
use std::sync::atomic::{AtomicBool, Ordering};

/// An inbox that refuses its next post once it is told to, and is else the inbox inside.
#[derive(Drop)]
pub struct RefusingOnce<M> {
    inner: M,
    refuses: AtomicBool,
}

impl<M> RefusingOnce<M> {
    /// Refuses the next post.
    pub fn refuse_next(&self) {
        self.refuses.store(true, Ordering::SeqCst);
    }
}

impl<M: Mailbox> Mailbox for RefusingOnce<M> {
    ghost id = { λ c. M.id c.inner };
}

impl<'r, M: Mail<'r>> Mail<'r> for RefusingOnce<M> {
    type TakeSeat = M::TakeSeat;

    type SendSeat = M::SendSeat;

    type Rest = M::Rest;

    fn post<R: Wait>(
        &self,
        rt: &R,
        seat: &mut M::SendSeat,
        batch: Batch<'r>,
    ) -> Result<(), (Batch<'r>, PostError)> {
        if self.refuses.swap(false, Ordering::SeqCst) {
            return Err((batch, PostError::NoRoom));
        }
        self.inner.post(rt, seat, batch)
    }

    fn take<R: Wait>(&self, rt: &R, seat: &mut M::TakeSeat) -> Option<Batch<'r>> {
        self.inner.take(rt, seat)
    }

    fn return_empty<R: Wait>(&self, rt: &R, seat: &mut M::TakeSeat, empty: EmptyMagazine<'r>) {
        self.inner.return_empty(rt, seat, empty);
    }

    fn reclaim_empty<R: Wait>(&self, rt: &R, seat: &mut M::SendSeat) -> EmptyMagazine<'r> {
        self.inner.reclaim_empty(rt, seat)
    }

    fn drain<R: Wait>(self, rt: &R, seat: M::TakeSeat, seats: Vec<M::SendSeat>) -> M::Rest
        requires seat { M.TakeSeat.inbox seat ≡ M.id self.inner }
        requires seats { ((k : ℕ) (s : M.SendSeat) → slice_get seats.items k ≡ Some s
            → (M.SendSeat.inbox s ≡ M.id self.inner) × (M.SendSeat.number s ≡ k))
            × (length seats.items ≡ M.TakeSeat.senders seat) }
        ensures all { (k : ℕ) (s : M.SendSeat) → slice_get seats.items k ≡ Some s
            → M.SendSeat.sent s ≡ batches_of k (M.TakeSeat.taken seat) ++ M.Rest.left result k }
        ensures only { (k : ℕ) → length seats.items ≤ k
            → (batches_of k (M.TakeSeat.taken seat) ≡ []) × (M.Rest.left result k ≡ []) }
    {
        let RefusingOnce { inner, refuses: _ } = self;
        inner.drain(rt, seat, seats)
    }

    fn next_rest<R: Wait>(rt: &R, rest: &mut M::Rest) -> Option<Batch<'r>> {
        M::next_rest(rt, rest)
    }

    fn at_rest(seat: &M::SendSeat) -> bool {
        M::at_rest(seat)
    }

    fn sender(seat: &M::SendSeat) -> u16 {
        M::sender(seat)
    }
}

impl<T: Receiver, S: Sender, M: NewMail<T, S>> NewMail<T, S> for RefusingOnce<M> {
    fn new_mail(
        alloc: Global,
        address: u16,
        digits: Digits,
        senders: u16,
    ) -> Result<(RefusingOnce<M>, T, Vec<S>), NoMemory> {
        let (inner, take, seats) = M::new_mail(alloc, address, digits, senders)?;
        let refuses = AtomicBool::new(false);
        Ok((RefusingOnce { inner, refuses }, take, seats))
    }
}
