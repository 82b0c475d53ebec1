//! What a sender does with its seat.
ghost use Rattle.std.specs.Prelude.{◌≡◌, [], ◌∷◌, ◌++◌, MatchResult};

use crate::Worker;
use batch_inbox::{Inbox, SendSeat};
use digit_route::Batch;
use std::sync::Wait;
use std::sync::atomic::{AtomicU64, Ordering};

/// Posts a batch, or hands it back: where it doesn't belong there, and where the queue has no room.
pub fn deliver<'r, R: Wait>(
    rt: &R,
    inbox: &Inbox<'r>,
    seat: &mut SendSeat<'r>,
    batch: Batch<'r>,
) -> Result<(), Batch<'r>>
    requires { seat.old.inbox ≡ inbox.now }
    ensures seat { (seat.new.inbox ≡ seat.old.inbox) × (seat.new.sender ≡ seat.old.sender) }
    ensures batch { MatchResult result
        (λ _. seat.new.sent ≡ seat.old.sent ++ batch.entry ∷ [])
        (λ back. (back ≡ batch.entry) × (seat.new ≡ seat.old)) }
{
    if batch.sender() != seat.sender() {
        return Err(batch);
    }
    if batch.address() != inbox.address() || batch.digits() != inbox.digits() {
        return Err(batch);
    }
    match inbox.post(rt, seat, batch) {
        Ok(()) => Ok(()),
        Err((batch, _error)) => Err(batch),
    }
}

/// Posts batches in their order, and tells how many were posted. Others are dropped.
pub fn post_all<'r, R: Wait>(
    rt: &R,
    inbox: &Inbox<'r>,
    seat: &mut SendSeat<'r>,
    batches: Vec<Batch<'r>>,
) -> u64
    requires { seat.old.inbox ≡ inbox.now }
    ensures { (seat.new.inbox ≡ seat.old.inbox) × (seat.new.sender ≡ seat.old.sender) }
{
    let mut posted = 0u64;
    for batch in batches {
        if deliver(rt, inbox, seat, batch).is_ok() {
            posted = posted.saturating_add(1);
        }
    }
    posted
}

/// A sender that posts batches in their order, and ends with its seat and how many were posted.
#[derive(Drop)]
pub struct Posting<'r, 's> {
    pub inbox: &'s Inbox<'r>,
    pub seat: SendSeat<'r>,
    pub batches: Vec<Batch<'r>>,
    pub finished: &'s AtomicU64,
}

impl<'r, 's> Worker for Posting<'r, 's> {
    type Done = (SendSeat<'r>, u64);

    ghost use Rattle.std.specs.Prelude.{◌≡◌};

    ghost ready = { λ p. p.seat.inbox ≡ p.inbox.now };

    ghost gives = { λ p d. (d.0.inbox ≡ p.seat.inbox) × (d.0.sender ≡ p.seat.sender) };

    fn run<R: Wait>(self, rt: &R) -> (SendSeat<'r>, u64) {
        let Posting {
            inbox,
            mut seat,
            batches,
            finished,
        } = self;
        let posted = post_all(rt, inbox, &mut seat, batches);
        finished.fetch_add(1, Ordering::SeqCst);
        (seat, posted)
    }
}
