//! What no contract says: that posted batches are taken and in which order, when a post is refused,
//! and all of it with real threads.
//!
//! Each test on one thread also holds where one allocation is refused: the call that meets it
//! changes nothing, and works when it is made again.
mod deep;
mod dropped;
mod empties;
mod given_back;
mod half;
mod held;
mod no_memory;
mod nodes;
mod order;
mod threads;
mod users;

ghost use Rattle.std.specs.Prelude.{◌≡◌, ◌≤◌, None, Some, length};
ghost use Rattle.link_inbox.specs.States.{AreSeatsOf, AreAtRest};

use batch_inbox::PostError;
use digit_route::{Batch, Digits};
use inbox_uses::{OWNER, Supply, mark_of};
use link_inbox::{Attached, LinkInbox, SendSeat, TakeSeat};
use std::alloc::Global;
use std::process::Abort;

// The owner's inbox. After a want of memory the next try works.
fn open<'r>(
    rt: &impl Abort,
    alloc: Global,
    senders: u16,
) -> (LinkInbox<'r>, TakeSeat<'r>, Vec<SendSeat<'r>>)
    requires { (1 ≤ senders) × (senders ≤ 64) }
    ensures receiver { (result.1.inbox ≡ result.0) × (result.1.senders ≡ senders) }
    ensures senders { AreSeatsOf result.0 result.2.items × (length result.2.items ≡ senders)
        × AreAtRest result.2.items }
{
    let digits = Digits::new(2).expect(rt, "two bits");
    match LinkInbox::new(alloc, OWNER, digits, senders) {
        Ok(made) => made,
        Err(_) => LinkInbox::new(alloc, OWNER, digits, senders)
            .ok()
            .expect(rt, "memory is there again"),
    }
}

// The sender's next batch, of one buffer with this mark.
fn batch_of<'r>(
    rt: &impl Abort,
    alloc: Global,
    supply: &mut Supply<'r>,
    sender: u16,
    number: u16,
) -> Batch<'r> {
    supply.batch(alloc, sender, number).expect(rt, "a batch")
}

// The batch belongs to this inbox and this seat.
fn belongs(rt: &impl Abort, inbox: &LinkInbox<'_>, seat: &SendSeat<'_>, batch: &Batch<'_>)
    ensures { (batch.now.sender ≡ seat.now.sender) × (batch.now.address ≡ inbox.now.place.address)
        × (batch.now.digits ≡ inbox.now.place.digits) }
{
    assert!(rt; batch.sender() == seat.sender());
    assert!(rt; batch.address() == inbox.address());
    assert!(rt; batch.digits() == inbox.digits());
}

fn attach<'r>(
    rt: &impl Abort,
    inbox: &LinkInbox<'r>,
    seat: &mut SendSeat<'r>,
    batch: Batch<'r>,
) -> Attached
    requires { (seat.old.inbox ≡ inbox.now) × (seat.old.half ≡ None) }
    ensures { (seat.new.inbox ≡ seat.old.inbox) × (seat.new.sender ≡ seat.old.sender)
        × (seat.new.half ≡ Some result) }
{
    belongs(rt, inbox, seat, &batch);
    inbox
        .attach(seat, batch)
        .ok()
        .expect(rt, "the node is free")
}

fn post<'r>(rt: &impl Abort, inbox: &LinkInbox<'r>, seat: &mut SendSeat<'r>, batch: Batch<'r>)
    requires { (seat.old.inbox ≡ inbox.now) × (seat.old.half ≡ None) }
    ensures { (seat.new.inbox ≡ seat.old.inbox) × (seat.new.sender ≡ seat.old.sender)
        × (seat.new.half ≡ None) }
{
    belongs(rt, inbox, seat, &batch);
    assert!(rt; inbox.post(seat, batch).is_ok());
}

// The post is refused, and the batch comes back.
fn post_fails<'r>(
    rt: &impl Abort,
    inbox: &LinkInbox<'r>,
    seat: &mut SendSeat<'r>,
    batch: Batch<'r>,
) -> Batch<'r>
    requires { (seat.old.inbox ≡ inbox.now) × (seat.old.half ≡ None) }
    ensures { (seat.new.inbox ≡ seat.old.inbox) × (seat.new.sender ≡ seat.old.sender)
        × (seat.new.half ≡ None) }
{
    belongs(rt, inbox, seat, &batch);
    let (batch, error) = inbox.post(seat, batch).err().expect(rt, "no node is free");
    assert!(rt; error == PostError::NoNode);
    batch
}

// The batch that is taken has this sender and this mark.
fn takes<'r>(
    rt: &impl Abort,
    inbox: &LinkInbox<'r>,
    seat: &mut TakeSeat<'r>,
    sender: u16,
    number: u16,
)
    requires { seat.old.inbox ≡ inbox.now }
    ensures { (seat.new.inbox ≡ seat.old.inbox) × (seat.new.senders ≡ seat.old.senders) }
{
    let batch = inbox.take(seat).expect(rt, "a batch can be reached");
    assert!(rt; batch.sender() == sender);
    assert!(rt; batch.address() == OWNER);
    assert!(rt; mark_of(batch) == Some(number));
}
