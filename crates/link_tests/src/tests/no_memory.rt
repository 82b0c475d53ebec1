//! The calls that take no memory, between two marks behind which `.ci/no_memory.py` refuses each
//! allocation. No clause says that a call takes none: a `post` that makes its node would meet all of
//! them.
ghost use Rattle.std.specs.Prelude.{◌≡◌, None};

use super::nodes::post_some;
use super::order::leaves;
use super::{attach, batch_of, open, post, post_fails, takes};
use digit_route::Batch;
use inbox_uses::{Supply, region};
use link_inbox::{LinkInbox, SendSeat, TakeSeat};
use link_uses::{put_seat, take_last_seat};
use memory_marks::{Mark, set};
use std::alloc::Global;
use std::process::Abort;

// A batch is attached, and can't be taken. Then it is linked.
fn attach_and_link<'r>(
    rt: &impl Abort,
    inbox: &LinkInbox<'r>,
    take: &mut TakeSeat<'r>,
    seat: &mut SendSeat<'r>,
    batch: Batch<'r>,
)
    requires take { take.old.inbox ≡ inbox.now }
    requires seat { (seat.old.inbox ≡ inbox.now) × (seat.old.half ≡ None) }
    ensures take { (take.new.inbox ≡ take.old.inbox) × (take.new.senders ≡ take.old.senders) }
    ensures seat { (seat.new.inbox ≡ seat.old.inbox) × (seat.new.sender ≡ seat.old.sender)
        × (seat.new.half ≡ None) }
{
    let attached = attach(rt, inbox, seat, batch);
    assert!(rt; inbox.take(take).is_none());
    inbox.link(seat, attached);
}

// One batch goes in two steps, and one in one.
fn passes<'r>(rt: &impl Abort, alloc: Global, mut supply: Supply<'r>) {
    let (inbox, mut take, mut seats) = open(rt, alloc, 1);
    let mut seat = take_last_seat(&inbox, &mut seats).expect(rt, "a seat");
    let first = batch_of(rt, alloc, &mut supply, 0, 0);
    let second = batch_of(rt, alloc, &mut supply, 0, 1);
    set(alloc, Mark::TakesNone);
    attach_and_link(rt, &inbox, &mut take, &mut seat, first);
    post(rt, &inbox, &mut seat, second);
    takes(rt, &inbox, &mut take, 0, 0);
    takes(rt, &inbox, &mut take, 0, 1);
    assert!(rt; inbox.take(&mut take).is_none());
    set(alloc, Mark::MayTake);
}

#[test]
fn what_is_posted_and_taken_takes_none(rt: HostRuntime) {
    let mut region = region(rt.alloc(), 1).expect(&rt, "memory");
    let supply = Supply::new(rt.alloc(), &mut region).expect(&rt, "chunks");
    passes(&rt, rt.alloc(), supply);
}

// Sixteen are posted, and the next is refused.
fn refuses<'r>(rt: &impl Abort, alloc: Global, mut supply: Supply<'r>) {
    let (inbox, _take, mut seats) = open(rt, alloc, 1);
    let mut seat = take_last_seat(&inbox, &mut seats).expect(rt, "a seat");
    post_some(rt, alloc, &inbox, &mut seat, &mut supply, 0, 16);
    let batch = batch_of(rt, alloc, &mut supply, 0, 16);
    set(alloc, Mark::TakesNone);
    let back = post_fails(rt, &inbox, &mut seat, batch);
    set(alloc, Mark::MayTake);
    assert!(rt; back.len() == 1);
}

#[test]
fn a_refused_post_takes_none(rt: HostRuntime) {
    let mut region = region(rt.alloc(), 1).expect(&rt, "memory");
    let supply = Supply::new(rt.alloc(), &mut region).expect(&rt, "chunks");
    refuses(&rt, rt.alloc(), supply);
}

// Of sixteen one is taken, and the next one is the first that is left.
fn drains<'r>(rt: &impl Abort, alloc: Global, mut supply: Supply<'r>) {
    let (inbox, mut take, mut seats) = open(rt, alloc, 1);
    let mut seat = take_last_seat(&inbox, &mut seats).expect(rt, "a seat");
    post_some(rt, alloc, &inbox, &mut seat, &mut supply, 0, 16);
    takes(rt, &inbox, &mut take, 0, 0);
    assert!(rt; put_seat(&inbox, &mut seats, seat).is_ok());
    set(alloc, Mark::TakesNone);
    let mut rest = inbox.drain(take, seats);
    leaves(rt, &mut rest, 1);
    drop(rest);
    set(alloc, Mark::MayTake);
}

#[test]
fn a_drain_takes_none(rt: HostRuntime) {
    let mut region = region(rt.alloc(), 1).expect(&rt, "memory");
    let supply = Supply::new(rt.alloc(), &mut region).expect(&rt, "chunks");
    drains(&rt, rt.alloc(), supply);
}
