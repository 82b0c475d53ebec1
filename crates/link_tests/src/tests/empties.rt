//! Empty magazines go back in the nodes of the batches that are taken.
ghost use Rattle.std.specs.Prelude.{◌≡◌, None};

use super::{batch_of, open, post, takes};
use inbox_uses::{Supply, has_room, region, room};
use link_inbox::{LinkInbox, SendSeat, TakeSeat};
use link_uses::take_last_seat;
use std::alloc::Global;
use std::process::Abort;

// The sender gets an empty magazine with room, or one without.
fn gets<'r>(
    rt: &impl Abort,
    alloc: Global,
    inbox: &LinkInbox<'r>,
    seat: &mut SendSeat<'r>,
    supply: &mut Supply<'r>,
    with_room: bool,
)
    requires { (seat.old.inbox ≡ inbox.now) × (seat.old.half ≡ None) }
    ensures { seat.new ≡ seat.old }
{
    let empty = inbox.reclaim_empty(seat);
    let batch = batch_of(rt, alloc, supply, 0, 99);
    assert!(rt; has_room(empty, batch) == with_room);
}

// A batch is posted and taken, and the sender gets no room by it.
fn passes<'r>(
    rt: &impl Abort,
    alloc: Global,
    inbox: &LinkInbox<'r>,
    take: &mut TakeSeat<'r>,
    seat: &mut SendSeat<'r>,
    supply: &mut Supply<'r>,
    number: u16,
)
    requires take { take.old.inbox ≡ inbox.now }
    requires seat { (seat.old.inbox ≡ inbox.now) × (seat.old.half ≡ None) }
    ensures take { (take.new.inbox ≡ take.old.inbox) × (take.new.senders ≡ take.old.senders) }
    ensures seat { (seat.new.inbox ≡ seat.old.inbox) × (seat.new.sender ≡ seat.old.sender)
        × (seat.new.half ≡ None) }
{
    let batch = batch_of(rt, alloc, supply, 0, number);
    post(rt, inbox, seat, batch);
    gets(rt, alloc, inbox, seat, supply, false);
    takes(rt, inbox, take, 0, number);
}

// Sixteen batches go through the inbox, one by one.
fn sixteen_pass<'r>(
    rt: &impl Abort,
    alloc: Global,
    inbox: &LinkInbox<'r>,
    take: &mut TakeSeat<'r>,
    seat: &mut SendSeat<'r>,
    supply: &mut Supply<'r>,
)
    requires take { take.old.inbox ≡ inbox.now }
    requires seat { (seat.old.inbox ≡ inbox.now) × (seat.old.half ≡ None) }
    ensures take { take.new.inbox ≡ take.old.inbox }
    ensures seat { (seat.new.inbox ≡ seat.old.inbox) × (seat.new.half ≡ None) }
{
    for number in 0..16 {
        passes(rt, alloc, inbox, take, seat, supply, number);
    }
}

// What is left before the first batch is taken comes back with the seventeenth, in the same node, and once.
fn goes_back<'r>(rt: &impl Abort, alloc: Global, mut supply: Supply<'r>) {
    let (inbox, mut take, mut seats) = open(rt, alloc, 1);
    let mut seat = take_last_seat(&inbox, &mut seats).expect(rt, "a seat");
    let batch = batch_of(rt, alloc, &mut supply, 0, 99);
    inbox.return_empty(&mut take, room(alloc, batch));
    sixteen_pass(rt, alloc, &inbox, &mut take, &mut seat, &mut supply);
    let batch = batch_of(rt, alloc, &mut supply, 0, 16);
    post(rt, &inbox, &mut seat, batch);
    gets(rt, alloc, &inbox, &mut seat, &mut supply, true);
    gets(rt, alloc, &inbox, &mut seat, &mut supply, false);
    takes(rt, &inbox, &mut take, 0, 16);
}

#[test]
fn an_empty_magazine_comes_back_in_the_same_node(rt: HostRuntime) {
    let mut region = region(rt.alloc(), 1).expect(&rt, "memory");
    let supply = Supply::new(rt.alloc(), &mut region).expect(&rt, "chunks");
    goes_back(&rt, rt.alloc(), supply);
}
