//! What a sender does with its seat.
ghost use Rattle.std.specs.Prelude.{◌≡◌, None, [], ◌∷◌, ◌++◌, MatchResult};

use digit_route::Batch;
use inbox_uses::Worker;
use link_inbox::{LinkInbox, SendSeat};
use std::sync::Wait;
use std::sync::atomic::{AtomicU64, Ordering};
use std::thread;

/// Posts a batch, or hands it back: where it doesn't belong there, and where no node is free.
pub fn deliver<'r>(
    inbox: &LinkInbox<'r>,
    seat: &mut SendSeat<'r>,
    batch: Batch<'r>,
) -> Result<(), Batch<'r>>
    requires { (seat.old.inbox ≡ inbox.now) × (seat.old.half ≡ None) }
    ensures seat { (seat.new.inbox ≡ seat.old.inbox) × (seat.new.sender ≡ seat.old.sender)
        × (seat.new.half ≡ None) }
    ensures batch { MatchResult result
        (λ _. seat.new.sent ≡ seat.old.sent ++ batch.entry ∷ [])
        (λ back. (back ≡ batch.entry) × (seat.new ≡ seat.old)) }
{
    if batch.sender() != seat.sender() {
        return Err(batch);
    }
    if batch.address() != inbox.address() || batch.digits() != inbox.digits() {
        return Err(batch);
    }
    match inbox.post(seat, batch) {
        Ok(()) => Ok(()),
        Err((batch, _error)) => Err(batch),
    }
}

// Posts a batch that belongs there, again and again until a node is free.
fn send<'r, R: Wait>(rt: &R, inbox: &LinkInbox<'r>, seat: &mut SendSeat<'r>, batch: Batch<'r>)
    requires { (seat.old.inbox ≡ inbox.now) × (seat.old.half ≡ None) }
    ensures { (seat.new.inbox ≡ seat.old.inbox) × (seat.new.sender ≡ seat.old.sender)
        × (seat.new.half ≡ None) }
{
    let mut waiting = Some(batch);
    for _ in rt.forever() {
        let Some(batch) = waiting.take() else {
            break;
        };
        match deliver(inbox, seat, batch) {
            Ok(()) => break,
            Err(batch) => waiting = Some(batch),
        }
        thread::yield_now();
    }
}

/// Posts batches in their order, each again and again until a node is free.
pub fn send_all<'r, R: Wait>(
    rt: &R,
    inbox: &LinkInbox<'r>,
    seat: &mut SendSeat<'r>,
    batches: Vec<Batch<'r>>,
)
    requires { (seat.old.inbox ≡ inbox.now) × (seat.old.half ≡ None) }
    ensures { (seat.new.inbox ≡ seat.old.inbox) × (seat.new.sender ≡ seat.old.sender)
        × (seat.new.half ≡ None) }
{
    for batch in batches {
        send(rt, inbox, seat, batch);
    }
}

/// A sender that posts batches in their order, and ends with its seat.
#[derive(Drop)]
pub struct Sending<'r, 's> {
    pub inbox: &'s LinkInbox<'r>,
    pub seat: SendSeat<'r>,
    pub batches: Vec<Batch<'r>>,
    pub finished: &'s AtomicU64,
}

impl<'r, 's> Worker for Sending<'r, 's> {
    type Done = SendSeat<'r>;

    ghost use Rattle.std.specs.Prelude.{◌≡◌, None};

    ghost ready = { λ p. (p.seat.inbox ≡ p.inbox.now) × (p.seat.half ≡ None) };

    ghost gives = { λ p d. (d.inbox ≡ p.seat.inbox) × (d.sender ≡ p.seat.sender) × (d.half ≡ None) };

    fn run<R: Wait>(self, rt: &R) -> SendSeat<'r> {
        let Sending {
            inbox,
            mut seat,
            batches,
            finished,
        } = self;
        send_all(rt, inbox, &mut seat, batches);
        finished.fetch_add(1, Ordering::SeqCst);
        seat
    }
}
