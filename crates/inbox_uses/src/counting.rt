//! An inbox of a user's own, over which a pool can be opened: one that counts its posts.
ghost use Rattle.std.specs.Prelude.{◌≡◌, ℕ, ◌≤◌, [], ◌++◌, length, Some, slice_get};
ghost use Rattle.batch_inbox.specs.Views.{batches_of};

use batch_inbox::{Mail, Mailbox, NewMail, PostError, Receiver, Sender};
use digit_route::{Batch, Digits};
use slot_chain::{EmptyMagazine, NoMemory};
use std::alloc::Global;
use std::sync::Wait;
use std::sync::atomic::{AtomicU64, Ordering};

/// An inbox that counts the posts that were answered `Ok`, and is else the inbox inside.
#[derive(Drop)]
pub struct Counting<M> {
    inner: M,
    posts: AtomicU64,
}

impl<M> Counting<M> {
    pub fn new(inner: M) -> Counting<M>
        ensures { result.inner ≡ inner }
    {
        Counting {
            inner,
            posts: AtomicU64::new(0),
        }
    }

    /// The posts so far.
    pub fn posts(&self) -> u64 {
        self.posts.load(Ordering::SeqCst)
    }

    /// The count of its posts, which goes on.
    pub fn counter(&self) -> &AtomicU64 {
        &self.posts
    }
}

impl<M: Mailbox> Mailbox for Counting<M> {
    ghost id = { λ c. M.id c.inner };
}

impl<'r, M: Mail<'r>> Mail<'r> for Counting<M> {
    type TakeSeat = M::TakeSeat;

    type SendSeat = M::SendSeat;

    type Rest = M::Rest;

    fn post<R: Wait>(
        &self,
        rt: &R,
        seat: &mut M::SendSeat,
        batch: Batch<'r>,
    ) -> Result<(), (Batch<'r>, PostError)> {
        let posted = self.inner.post(rt, seat, batch);
        if posted.is_ok() {
            self.posts.fetch_add(1, Ordering::SeqCst);
        }
        posted
    }

    fn take<R: Wait>(&self, rt: &R, seat: &mut M::TakeSeat) -> Option<Batch<'r>> {
        self.inner.take(rt, seat)
    }

    fn return_empty<R: Wait>(&self, rt: &R, seat: &mut M::TakeSeat, empty: EmptyMagazine<'r>) {
        self.inner.return_empty(rt, seat, empty);
    }

    fn reclaim_empty<R: Wait>(&self, rt: &R, seat: &mut M::SendSeat) -> EmptyMagazine<'r> {
        self.inner.reclaim_empty(rt, seat)
    }

    fn drain<R: Wait>(self, rt: &R, seat: M::TakeSeat, seats: Vec<M::SendSeat>) -> M::Rest
        requires seat { M.TakeSeat.inbox seat ≡ M.id self.inner }
        requires seats { ((k : ℕ) (s : M.SendSeat) → slice_get seats.items k ≡ Some s
            → (M.SendSeat.inbox s ≡ M.id self.inner) × (M.SendSeat.number s ≡ k))
            × (length seats.items ≡ M.TakeSeat.senders seat) }
        ensures all { (k : ℕ) (s : M.SendSeat) → slice_get seats.items k ≡ Some s
            → M.SendSeat.sent s ≡ batches_of k (M.TakeSeat.taken seat) ++ M.Rest.left result k }
        ensures only { (k : ℕ) → length seats.items ≤ k
            → (batches_of k (M.TakeSeat.taken seat) ≡ []) × (M.Rest.left result k ≡ []) }
    {
        let Counting { inner, posts: _ } = self;
        inner.drain(rt, seat, seats)
    }

    fn next_rest<R: Wait>(rt: &R, rest: &mut M::Rest) -> Option<Batch<'r>> {
        M::next_rest(rt, rest)
    }

    fn at_rest(seat: &M::SendSeat) -> bool {
        M::at_rest(seat)
    }

    fn sender(seat: &M::SendSeat) -> u16 {
        M::sender(seat)
    }
}

impl<T: Receiver, S: Sender, M: NewMail<T, S>> NewMail<T, S> for Counting<M> {
    fn new_mail(
        alloc: Global,
        address: u16,
        digits: Digits,
        senders: u16,
    ) -> Result<(Counting<M>, T, Vec<S>), NoMemory> {
        let (inner, take, seats) = M::new_mail(alloc, address, digits, senders)?;
        let posts = AtomicU64::new(0);
        Ok((Counting { inner, posts }, take, seats))
    }
}
