//! Inboxes and seats that are dropped, and an inbox that nobody used.
use super::{batch_of, open, post};
use inbox_uses::{Supply, region, take_last_seat};
use std::alloc::Global;
use std::process::Abort;
use std::sync::Wait;

fn drains_nothing<R: Abort + Wait>(rt: &R, alloc: Global) {
    let (inbox, mut take, seats) = open(rt, alloc, 3);
    assert!(rt; inbox.take(rt, &mut take).is_none());
    let mut rest = inbox.drain(rt, take, seats);
    assert!(rt; rest.next(rt).is_none());
}

#[test]
fn a_new_inbox_hands_out_nothing(rt: HostRuntime) {
    drains_nothing(&rt, rt.alloc());
}

// A post to an inbox without a receiver is answered Ok, and the inbox goes with its batch.
fn posts_to_nobody<'r, R: Abort + Wait>(rt: &R, alloc: Global, mut supply: Supply<'r>) {
    let (inbox, take, mut seats) = open(rt, alloc, 1);
    let mut seat = take_last_seat(&inbox, &mut seats).expect(rt, "a seat");
    drop(take);
    let batch = batch_of(rt, alloc, &mut supply, 0, 0);
    post(rt, &inbox, &mut seat, batch);
    drop(seat);
}

#[test]
fn a_post_succeeds_without_a_receiver(rt: HostRuntime) {
    let mut region = region(rt.alloc(), 1).expect(&rt, "memory");
    let supply = Supply::new(rt.alloc(), &mut region).expect(&rt, "chunks");
    posts_to_nobody(&rt, rt.alloc(), supply);
}
