//! Inboxes and seats that are dropped, and an inbox that nobody used.
use super::nodes::post_some;
use super::open;
use inbox_uses::{Supply, region};
use link_uses::take_last_seat;
use std::alloc::Global;
use std::process::Abort;

fn drains_nothing(rt: &impl Abort, alloc: Global) {
    let (inbox, mut take, seats) = open(rt, alloc, 64);
    assert!(rt; inbox.take(&mut take).is_none());
    let mut rest = inbox.drain(take, seats);
    assert!(rt; rest.next().is_none());
}

#[test]
fn a_new_inbox_hands_out_nothing(rt: HostRuntime) {
    drains_nothing(&rt, rt.alloc());
}

// Posts to an inbox without a receiver are answered Ok, and the inbox goes with its batches.
fn posts_to_nobody<'r>(rt: &impl Abort, alloc: Global, supply: &mut Supply<'r>) {
    let (inbox, take, mut seats) = open(rt, alloc, 1);
    let mut seat = take_last_seat(&inbox, &mut seats).expect(rt, "a seat");
    drop(take);
    post_some(rt, alloc, &inbox, &mut seat, supply, 0, 16);
    drop(seat);
}

#[test]
fn a_post_succeeds_without_a_receiver(rt: HostRuntime) {
    let mut region = region(rt.alloc(), 1).expect(&rt, "memory");
    let mut supply = Supply::new(rt.alloc(), &mut region).expect(&rt, "chunks");
    posts_to_nobody(&rt, rt.alloc(), &mut supply);
}
