//! What a receiver does with its seat.
ghost use Rattle.std.specs.Prelude.{◌≡◌};

use crate::{Tally, Worker};
use batch_inbox::{Inbox, Mail, Mailbox, Receiver, TakeSeat};
use std::sync::Wait;
use std::sync::atomic::{AtomicU64, Ordering};
use std::thread;

/// Takes from an inbox of any kind until all senders have finished and nothing is left.
pub fn take_all<'r, M: Mail<'r>, R: Wait>(
    rt: &R,
    inbox: &M,
    seat: &mut M::TakeSeat,
    finished: &AtomicU64,
    senders: u64,
    tally: &mut Tally,
)
    requires { M.TakeSeat.inbox seat.old ≡ M.id inbox.now }
    ensures { (M.TakeSeat.inbox seat.new ≡ M.TakeSeat.inbox seat.old)
        × (M.TakeSeat.senders seat.new ≡ M.TakeSeat.senders seat.old) }
{
    for _ in rt.forever() {
        let all = finished.load(Ordering::SeqCst) == senders;
        match inbox.take(rt, seat) {
            Some(batch) => tally.add(batch),
            None if all => break,
            None => thread::yield_now(),
        }
    }
}

/// A receiver that takes until all senders have finished and nothing is left.
#[derive(Drop)]
pub struct Taking<'r, 's> {
    pub inbox: &'s Inbox<'r>,
    pub seat: TakeSeat<'r>,
    pub finished: &'s AtomicU64,
    pub senders: u64,
    pub tally: Tally,
}

impl<'r, 's> Worker for Taking<'r, 's> {
    type Done = (TakeSeat<'r>, Tally);

    ghost use Rattle.std.specs.Prelude.{◌≡◌};

    ghost ready = { λ t. t.seat.inbox ≡ t.inbox.now };

    ghost gives = { λ t d. (d.0.inbox ≡ t.seat.inbox) × (d.0.senders ≡ t.seat.senders) };

    fn run<R: Wait>(self, rt: &R) -> (TakeSeat<'r>, Tally) {
        let Taking {
            inbox,
            mut seat,
            finished,
            senders,
            mut tally,
        } = self;
        take_all(rt, inbox, &mut seat, finished, senders, &mut tally);
        (seat, tally)
    }
}
