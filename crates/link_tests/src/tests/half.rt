//! Batches that are attached and not linked yet.
use super::{attach, batch_of, open, post, takes};
use inbox_uses::{Supply, mark_of, region};
use link_uses::{put_seat, take_last_seat};
use std::alloc::Global;
use std::process::Abort;

// Seat 0 attaches A. Seat 1 attaches and links B, which can't be reached. Seat 0 links A, and then
// A is taken, and B.
fn holds_back<'r>(rt: &impl Abort, alloc: Global, mut supply: Supply<'r>) {
    let (inbox, mut take, mut seats) = open(rt, alloc, 2);
    let mut second = take_last_seat(&inbox, &mut seats).expect(rt, "seat 1");
    let mut first = take_last_seat(&inbox, &mut seats).expect(rt, "seat 0");
    let a = batch_of(rt, alloc, &mut supply, 0, 0);
    let b = batch_of(rt, alloc, &mut supply, 1, 1);
    let attached = attach(rt, &inbox, &mut first, a);
    post(rt, &inbox, &mut second, b);
    assert!(rt; inbox.take(&mut take).is_none());
    assert!(rt; !first.at_rest() && second.at_rest());
    inbox.link(&mut first, attached);
    assert!(rt; first.at_rest());
    takes(rt, &inbox, &mut take, 0, 0);
    takes(rt, &inbox, &mut take, 1, 1);
    assert!(rt; inbox.take(&mut take).is_none());
}

#[test]
fn a_half_linked_batch_holds_back_the_next(rt: HostRuntime) {
    let mut region = region(rt.alloc(), 1).expect(&rt, "memory");
    let supply = Supply::new(rt.alloc(), &mut region).expect(&rt, "chunks");
    holds_back(&rt, rt.alloc(), supply);
}

// Seat 0 attaches A and drops its link. The seat is not at rest, and A is drained.
fn forgets<'r>(rt: &impl Abort, alloc: Global, mut supply: Supply<'r>) {
    let (inbox, mut take, mut seats) = open(rt, alloc, 1);
    let mut seat = take_last_seat(&inbox, &mut seats).expect(rt, "a seat");
    let a = batch_of(rt, alloc, &mut supply, 0, 7);
    drop(attach(rt, &inbox, &mut seat, a));
    assert!(rt; !seat.at_rest());
    assert!(rt; inbox.take(&mut take).is_none());
    assert!(rt; put_seat(&inbox, &mut seats, seat).is_ok());
    let mut rest = inbox.drain(take, seats);
    let left = rest.next().expect(rt, "the batch that was never linked");
    assert!(rt; left.sender() == 0 && mark_of(left) == Some(7));
    assert!(rt; rest.next().is_none());
}

#[test]
fn a_batch_that_was_never_linked_is_drained(rt: HostRuntime) {
    let mut region = region(rt.alloc(), 1).expect(&rt, "memory");
    let supply = Supply::new(rt.alloc(), &mut region).expect(&rt, "chunks");
    forgets(&rt, rt.alloc(), supply);
}
