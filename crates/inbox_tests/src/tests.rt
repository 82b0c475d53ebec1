//! What no contract says: that posted batches are taken, in which order, and with real threads.
//!
//! Each test on one thread also holds where one allocation is refused: the call that meets it
//! changes nothing, and works when it is made again.
mod deep;
mod dropped;
mod empties;
mod given_back;
mod leaving;
mod order;
mod refused;
mod threads;
mod users;

ghost use Rattle.std.specs.Prelude.{◌≡◌, ◌≤◌, length};
ghost use Rattle.batch_inbox.specs.States.{AreSeatsOf};

use batch_inbox::{Inbox, PostError, SendSeat, TakeSeat};
use digit_route::{Batch, Digits};
use inbox_uses::{OWNER, Supply, mark_of};
use std::alloc::Global;
use std::process::Abort;
use std::sync::Wait;

// The owner's inbox. After a want of memory the next try works.
fn open<'r>(
    rt: &impl Abort,
    alloc: Global,
    senders: u16,
) -> (Inbox<'r>, TakeSeat<'r>, Vec<SendSeat<'r>>)
    requires { (1 ≤ senders) × (senders ≤ 64) }
    ensures receiver { (result.1.inbox ≡ result.0) × (result.1.senders ≡ senders) }
    ensures senders { AreSeatsOf result.0 result.2.items × (length result.2.items ≡ senders) }
{
    let digits = Digits::new(2).expect(rt, "two bits");
    match Inbox::new(alloc, OWNER, digits, senders) {
        Ok(made) => made,
        Err(_) => Inbox::new(alloc, OWNER, digits, senders)
            .ok()
            .expect(rt, "memory is there again"),
    }
}

// The sender's next batch, of one buffer with this mark.
fn batch_of<'r>(
    rt: &impl Abort,
    alloc: Global,
    supply: &mut Supply<'r>,
    sender: u16,
    number: u16,
) -> Batch<'r> {
    supply.batch(alloc, sender, number).expect(rt, "a batch")
}

// The batch belongs to this inbox and this seat.
fn belongs(rt: &impl Abort, inbox: &Inbox<'_>, seat: &SendSeat<'_>, batch: &Batch<'_>)
    ensures { (batch.now.sender ≡ seat.now.sender) × (batch.now.address ≡ inbox.now.place.address)
        × (batch.now.digits ≡ inbox.now.place.digits) }
{
    assert!(rt; batch.sender() == seat.sender());
    assert!(rt; batch.address() == inbox.address());
    assert!(rt; batch.digits() == inbox.digits());
}

// Posts a batch. Where it is refused it comes back, and the next try works.
fn post<'r, R: Abort + Wait>(rt: &R, inbox: &Inbox<'r>, seat: &mut SendSeat<'r>, batch: Batch<'r>)
    requires { seat.old.inbox ≡ inbox.now }
    ensures { (seat.new.inbox ≡ seat.old.inbox) × (seat.new.sender ≡ seat.old.sender) }
{
    belongs(rt, inbox, seat, &batch);
    if let Err((batch, error)) = inbox.post(rt, seat, batch) {
        assert!(rt; error == PostError::NoRoom);
        assert!(rt; inbox.post(rt, seat, batch).is_ok());
    }
}

// The batch that is taken has this sender and this mark.
fn takes<'r, R: Abort + Wait>(
    rt: &R,
    inbox: &Inbox<'r>,
    seat: &mut TakeSeat<'r>,
    sender: u16,
    number: u16,
)
    requires { seat.old.inbox ≡ inbox.now }
    ensures { (seat.new.inbox ≡ seat.old.inbox) × (seat.new.senders ≡ seat.old.senders) }
{
    let batch = inbox.take(rt, seat).expect(rt, "a batch was posted");
    assert!(rt; batch.sender() == sender);
    assert!(rt; batch.address() == OWNER);
    assert!(rt; mark_of(batch) == Some(number));
}
