//! One thread: what was posted is taken in order, and what was not taken is drained in order.
ghost use Rattle.std.specs.Prelude.{◌≡◌, length};
ghost use Rattle.batch_inbox.specs.States.{AreSeatsOf};

use super::{batch_of, open, post, takes};
use batch_inbox::{Inbox, Rest, SendSeat, TakeSeat};
use inbox_uses::{Supply, mark_of, put_seat, region, take_last_seat};
use std::alloc::Global;
use std::process::Abort;
use std::sync::Wait;

// Posts batches with the marks from 0 on.
pub(crate) fn post_some<'r, R: Abort + Wait>(
    rt: &R,
    alloc: Global,
    inbox: &Inbox<'r>,
    seat: &mut SendSeat<'r>,
    supply: &mut Supply<'r>,
    count: u16,
)
    requires { seat.old.inbox ≡ inbox.now }
    ensures { (seat.new.inbox ≡ seat.old.inbox) × (seat.new.sender ≡ seat.old.sender) }
{
    for number in 0..count {
        let batch = batch_of(rt, alloc, supply, 0, number);
        post(rt, inbox, seat, batch);
    }
}

// The next batch of a rest has this mark.
pub(crate) fn leaves<'r, R: Abort + Wait>(rt: &R, rest: &mut Rest<'r>, number: u16) {
    let batch = rest.next(rt).expect(rt, "a batch is left");
    assert!(rt; mark_of(batch) == Some(number));
}

// The inbox of one sender is ended, with its seat put back.
pub(crate) fn drained<'r, R: Abort + Wait>(
    rt: &R,
    inbox: Inbox<'r>,
    take: TakeSeat<'r>,
    seat: SendSeat<'r>,
    mut seats: Vec<SendSeat<'r>>,
) -> Rest<'r>
    requires take { (take.inbox ≡ inbox) × (take.senders ≡ 1) }
    requires seat { (seat.inbox ≡ inbox) × (seat.sender ≡ 0) }
    requires seats { AreSeatsOf inbox seats.items × (length seats.items ≡ 0) }
{
    assert!(rt; put_seat(&inbox, &mut seats, seat).is_ok());
    inbox.drain(rt, take, seats)
}

// Three are posted. One is taken, two are left, and then none.
fn takes_and_drains<'r, R: Abort + Wait>(rt: &R, alloc: Global, mut supply: Supply<'r>) {
    let (inbox, mut take, mut seats) = open(rt, alloc, 1);
    let mut seat = take_last_seat(&inbox, &mut seats).expect(rt, "a seat");
    post_some(rt, alloc, &inbox, &mut seat, &mut supply, 3);
    takes(rt, &inbox, &mut take, 0, 0);
    let mut rest = drained(rt, inbox, take, seat, seats);
    leaves(rt, &mut rest, 1);
    leaves(rt, &mut rest, 2);
    assert!(rt; rest.next(rt).is_none());
}

#[test]
fn what_is_not_taken_is_drained_in_order(rt: HostRuntime) {
    let mut region = region(rt.alloc(), 1).expect(&rt, "memory");
    let supply = Supply::new(rt.alloc(), &mut region).expect(&rt, "chunks");
    takes_and_drains(&rt, rt.alloc(), supply);
}

// All of a hundred are taken, and then none.
fn takes_all<'r, R: Abort + Wait>(rt: &R, alloc: Global, mut supply: Supply<'r>) {
    let (inbox, mut take, mut seats) = open(rt, alloc, 1);
    let mut seat = take_last_seat(&inbox, &mut seats).expect(rt, "a seat");
    post_some(rt, alloc, &inbox, &mut seat, &mut supply, 100);
    for number in 0..100 {
        takes(rt, &inbox, &mut take, 0, number);
    }
    assert!(rt; inbox.take(rt, &mut take).is_none());
}

#[test]
fn what_was_posted_is_taken(rt: HostRuntime) {
    let mut region = region(rt.alloc(), 1).expect(&rt, "memory");
    let supply = Supply::new(rt.alloc(), &mut region).expect(&rt, "chunks");
    takes_all(&rt, rt.alloc(), supply);
}
