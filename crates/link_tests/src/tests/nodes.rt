//! A sender has 16 nodes, and uses them in turn.
ghost use Rattle.std.specs.Prelude.{◌≡◌, None};

use super::{batch_of, open, post, post_fails, takes};
use inbox_uses::{Supply, region};
use link_inbox::{LinkInbox, SendSeat, TakeSeat};
use link_uses::take_last_seat;
use std::alloc::Global;
use std::process::Abort;

// Posts batches with these marks.
pub(crate) fn post_some<'r>(
    rt: &impl Abort,
    alloc: Global,
    inbox: &LinkInbox<'r>,
    seat: &mut SendSeat<'r>,
    supply: &mut Supply<'r>,
    from: u16,
    to: u16,
)
    requires { (seat.old.inbox ≡ inbox.now) × (seat.old.half ≡ None) }
    ensures { (seat.new.inbox ≡ seat.old.inbox) × (seat.new.sender ≡ seat.old.sender)
        × (seat.new.half ≡ None) }
{
    for number in from..to {
        let batch = batch_of(rt, alloc, supply, 0, number);
        post(rt, inbox, seat, batch);
    }
}

// Batches with these marks are taken.
pub(crate) fn takes_some<'r>(
    rt: &impl Abort,
    inbox: &LinkInbox<'r>,
    take: &mut TakeSeat<'r>,
    from: u16,
    to: u16,
)
    requires { take.old.inbox ≡ inbox.now }
    ensures { (take.new.inbox ≡ take.old.inbox) × (take.new.senders ≡ take.old.senders) }
{
    for number in from..to {
        takes(rt, inbox, take, 0, number);
    }
}

// 16 batches are posted. The next is refused, and is still refused after one take, since the front
// rests on the node of the batch that was taken. After the second take it is posted.
fn fills<'r>(rt: &impl Abort, alloc: Global, mut supply: Supply<'r>) {
    let (inbox, mut take, mut seats) = open(rt, alloc, 1);
    let mut seat = take_last_seat(&inbox, &mut seats).expect(rt, "a seat");
    post_some(rt, alloc, &inbox, &mut seat, &mut supply, 0, 16);
    let batch = batch_of(rt, alloc, &mut supply, 0, 16);
    let batch = post_fails(rt, &inbox, &mut seat, batch);
    takes(rt, &inbox, &mut take, 0, 0);
    let batch = post_fails(rt, &inbox, &mut seat, batch);
    takes(rt, &inbox, &mut take, 0, 1);
    post(rt, &inbox, &mut seat, batch);
    takes_some(rt, &inbox, &mut take, 2, 17);
    assert!(rt; inbox.take(&mut take).is_none());
}

#[test]
fn the_next_of_sixteen_is_refused(rt: HostRuntime) {
    let mut region = region(rt.alloc(), 1).expect(&rt, "memory");
    let supply = Supply::new(rt.alloc(), &mut region).expect(&rt, "chunks");
    fills(&rt, rt.alloc(), supply);
}

// A hundred rounds of two: each node is used again and again.
fn rounds<'r>(
    rt: &impl Abort,
    alloc: Global,
    inbox: &LinkInbox<'r>,
    take: &mut TakeSeat<'r>,
    seat: &mut SendSeat<'r>,
    supply: &mut Supply<'r>,
)
    requires take { take.old.inbox ≡ inbox.now }
    requires seat { (seat.old.inbox ≡ inbox.now) × (seat.old.half ≡ None) }
{
    for round in 0..100u16 {
        let from = round.saturating_mul(2);
        let to = from.saturating_add(2);
        post_some(rt, alloc, inbox, seat, supply, from, to);
        takes_some(rt, inbox, take, from, to);
        assert!(rt; inbox.take(take).is_none());
    }
}

fn goes_round<'r>(rt: &impl Abort, alloc: Global, mut supply: Supply<'r>) {
    let (inbox, mut take, mut seats) = open(rt, alloc, 1);
    let mut seat = take_last_seat(&inbox, &mut seats).expect(rt, "a seat");
    rounds(rt, alloc, &inbox, &mut take, &mut seat, &mut supply);
}

#[test]
fn nodes_are_used_again(rt: HostRuntime) {
    let mut region = region(rt.alloc(), 1).expect(&rt, "memory");
    let supply = Supply::new(rt.alloc(), &mut region).expect(&rt, "chunks");
    goes_round(&rt, rt.alloc(), supply);
}
