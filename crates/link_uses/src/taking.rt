//! What a receiver does with its seat.
use inbox_uses::{Tally, Worker, take_all};
use link_inbox::{LinkInbox, TakeSeat};
use std::sync::Wait;
use std::sync::atomic::AtomicU64;

/// A receiver that takes until all senders have finished and nothing is left.
#[derive(Drop)]
pub struct Taking<'r, 's> {
    pub inbox: &'s LinkInbox<'r>,
    pub seat: TakeSeat<'r>,
    pub finished: &'s AtomicU64,
    pub senders: u64,
    pub tally: Tally,
}

impl<'r, 's> Worker for Taking<'r, 's> {
    type Done = (TakeSeat<'r>, Tally);

    ghost use Rattle.std.specs.Prelude.{◌≡◌};

    ghost ready = { λ t. t.seat.inbox ≡ t.inbox.now };

    ghost gives = { λ t d. (d.0.inbox ≡ t.seat.inbox) × (d.0.senders ≡ t.seat.senders) };

    fn run<R: Wait>(self, rt: &R) -> (TakeSeat<'r>, Tally) {
        let Taking {
            inbox,
            mut seat,
            finished,
            senders,
            mut tally,
        } = self;
        take_all(rt, inbox, &mut seat, finished, senders, &mut tally);
        (seat, tally)
    }
}
