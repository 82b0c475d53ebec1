//! What is dropped gives its boxes back: behind each drop as many blocks are lent as before what was
//! dropped was made. `.ci/no_memory.py` counts them. No clause says it: an inbox that forgets its
//! batches would meet all of them.
use super::order::{drained, leaves, post_some};
use super::{open, takes};
use inbox_uses::{Supply, region, take_last_seat};
use memory_marks::{Mark, set};
use std::alloc::Global;
use std::process::Abort;
use std::sync::Wait;

#[test]
fn by_a_new_inbox(rt: HostRuntime) {
    set(rt.alloc(), Mark::Lent);
    let (inbox, take, seats) = open(&rt, rt.alloc(), 64);
    assert!(rt; seats.len() == 64);
    drop(inbox);
    drop(take);
    drop(seats);
    set(rt.alloc(), Mark::GivenBack);
}

// Forty are posted, for which the queue takes more than a block, and one is taken. The inbox goes with
// the others.
fn drops_full<'r, R: Abort + Wait>(rt: &R, alloc: Global, mut supply: Supply<'r>) {
    let (inbox, mut take, mut seats) = open(rt, alloc, 1);
    let mut seat = take_last_seat(&inbox, &mut seats).expect(rt, "a seat");
    post_some(rt, alloc, &inbox, &mut seat, &mut supply, 40);
    takes(rt, &inbox, &mut take, 0, 0);
    drop(seat);
    drop(take);
    drop(inbox);
}

#[test]
fn by_an_inbox_with_batches(rt: HostRuntime) {
    let mut region = region(rt.alloc(), 1).expect(&rt, "memory");
    set(rt.alloc(), Mark::Lent);
    let supply = Supply::new(rt.alloc(), &mut region).expect(&rt, "chunks");
    drops_full(&rt, rt.alloc(), supply);
    set(rt.alloc(), Mark::GivenBack);
}

// Of forty that are left the first twenty are handed out.
fn drops_rest<'r, R: Abort + Wait>(rt: &R, alloc: Global, mut supply: Supply<'r>) {
    let (inbox, take, mut seats) = open(rt, alloc, 1);
    let mut seat = take_last_seat(&inbox, &mut seats).expect(rt, "a seat");
    post_some(rt, alloc, &inbox, &mut seat, &mut supply, 40);
    let mut rest = drained(rt, inbox, take, seat, seats);
    for number in 0..20 {
        leaves(rt, &mut rest, number);
    }
    drop(rest);
}

#[test]
fn by_what_is_left(rt: HostRuntime) {
    let mut region = region(rt.alloc(), 1).expect(&rt, "memory");
    set(rt.alloc(), Mark::Lent);
    let supply = Supply::new(rt.alloc(), &mut region).expect(&rt, "chunks");
    drops_rest(&rt, rt.alloc(), supply);
    set(rt.alloc(), Mark::GivenBack);
}
