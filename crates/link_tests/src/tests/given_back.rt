//! What is dropped gives its boxes back: behind each drop as many blocks are lent as before what was
//! dropped was made. `.ci/no_memory.py` counts them. No clause says it: an inbox that forgets its
//! batches would meet all of them.
use super::nodes::post_some;
use super::order::leaves;
use super::{attach, batch_of, open, takes};
use inbox_uses::{Supply, region};
use link_uses::{put_seat, take_last_seat};
use memory_marks::{Mark, set};
use std::alloc::Global;
use std::process::Abort;

#[test]
fn by_a_new_inbox(rt: HostRuntime) {
    set(rt.alloc(), Mark::Lent);
    let (inbox, take, seats) = open(&rt, rt.alloc(), 64);
    assert!(rt; seats.len() == 64);
    drop(inbox);
    drop(take);
    drop(seats);
    set(rt.alloc(), Mark::GivenBack);
}

// Fifteen are posted, and one is taken. Another is attached and never linked. The inbox goes with all
// that it holds.
fn drops_full<'r>(rt: &impl Abort, alloc: Global, mut supply: Supply<'r>) {
    let (inbox, mut take, mut seats) = open(rt, alloc, 1);
    let mut seat = take_last_seat(&inbox, &mut seats).expect(rt, "a seat");
    post_some(rt, alloc, &inbox, &mut seat, &mut supply, 0, 15);
    takes(rt, &inbox, &mut take, 0, 0);
    let batch = batch_of(rt, alloc, &mut supply, 0, 15);
    drop(attach(rt, &inbox, &mut seat, batch));
    assert!(rt; !seat.at_rest());
    drop(seat);
    drop(take);
    drop(inbox);
}

#[test]
fn by_an_inbox_with_batches(rt: HostRuntime) {
    let mut region = region(rt.alloc(), 1).expect(&rt, "memory");
    set(rt.alloc(), Mark::Lent);
    let supply = Supply::new(rt.alloc(), &mut region).expect(&rt, "chunks");
    drops_full(&rt, rt.alloc(), supply);
    set(rt.alloc(), Mark::GivenBack);
}

// Of sixteen that are left the first eight are handed out.
fn drops_rest<'r>(rt: &impl Abort, alloc: Global, mut supply: Supply<'r>) {
    let (inbox, take, mut seats) = open(rt, alloc, 1);
    let mut seat = take_last_seat(&inbox, &mut seats).expect(rt, "a seat");
    post_some(rt, alloc, &inbox, &mut seat, &mut supply, 0, 16);
    assert!(rt; put_seat(&inbox, &mut seats, seat).is_ok());
    let mut rest = inbox.drain(take, seats);
    for number in 0..8 {
        leaves(rt, &mut rest, number);
    }
    drop(rest);
}

#[test]
fn by_what_is_left(rt: HostRuntime) {
    let mut region = region(rt.alloc(), 1).expect(&rt, "memory");
    set(rt.alloc(), Mark::Lent);
    let supply = Supply::new(rt.alloc(), &mut region).expect(&rt, "chunks");
    drops_rest(&rt, rt.alloc(), supply);
    set(rt.alloc(), Mark::GivenBack);
}
