//! One thread: what was not taken is drained in order.
use super::nodes::post_some;
use super::{open, takes};
use inbox_uses::{Supply, mark_of, region};
use link_inbox::Rest;
use link_uses::{put_seat, take_last_seat};
use std::alloc::Global;
use std::process::Abort;

// The next batch of a rest has this mark.
pub(crate) fn leaves<'r>(rt: &impl Abort, rest: &mut Rest<'r>, number: u16) {
    let batch = rest.next().expect(rt, "a batch is left");
    assert!(rt; mark_of(batch) == Some(number));
}

// 16 and 2 are posted, and 8 taken between: what is left begins in the middle of the nodes.
fn takes_and_drains<'r>(rt: &impl Abort, alloc: Global, mut supply: Supply<'r>) {
    let (inbox, mut take, mut seats) = open(rt, alloc, 1);
    let mut seat = take_last_seat(&inbox, &mut seats).expect(rt, "a seat");
    post_some(rt, alloc, &inbox, &mut seat, &mut supply, 0, 16);
    for number in 0..8 {
        takes(rt, &inbox, &mut take, 0, number);
    }
    post_some(rt, alloc, &inbox, &mut seat, &mut supply, 16, 18);
    assert!(rt; put_seat(&inbox, &mut seats, seat).is_ok());
    let mut rest = inbox.drain(take, seats);
    for number in 8..18 {
        leaves(rt, &mut rest, number);
    }
    assert!(rt; rest.next().is_none());
}

#[test]
fn what_is_not_taken_is_drained_in_order(rt: HostRuntime) {
    let mut region = region(rt.alloc(), 1).expect(&rt, "memory");
    let supply = Supply::new(rt.alloc(), &mut region).expect(&rt, "chunks");
    takes_and_drains(&rt, rt.alloc(), supply);
}
