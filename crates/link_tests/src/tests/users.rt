//! Callers that know only that it is an inbox.
ghost use Rattle.std.specs.Prelude.{◌≡◌, None};

use super::{batch_of, belongs, open};
use batch_inbox::Mail;
use digit_route::Batch;
use inbox_uses::{Counting, Supply, mark_of, region};
use link_inbox::{LinkInbox, SendSeat, TakeSeat};
use link_uses::{end, hand_out, put_seat, take_last_seat};
use std::alloc::Global;
use std::process::Abort;
use std::sync::Wait;

// One batch through an inbox of a user's own.
fn counted<'r, R: Abort + Wait>(
    rt: &R,
    inbox: LinkInbox<'r>,
    take: &mut TakeSeat<'r>,
    seat: &mut SendSeat<'r>,
    batch: Batch<'r>,
)
    requires take { take.old.inbox ≡ inbox }
    requires seat { (seat.old.inbox ≡ inbox) × (seat.old.half ≡ None) }
{
    belongs(rt, &inbox, seat, &batch);
    let inbox = Counting::new(inbox);
    assert!(rt; inbox.post(rt, seat, batch).is_ok());
    assert!(rt; inbox.posts() == 1);
    assert!(rt; inbox.take(rt, take).is_some());
    assert!(rt; inbox.take(rt, take).is_none());
}

fn counts<'r, R: Abort + Wait>(rt: &R, alloc: Global, mut supply: Supply<'r>) {
    let (inbox, mut take, mut seats) = open(rt, alloc, 1);
    let mut seat = take_last_seat(&inbox, &mut seats).expect(rt, "a seat");
    let batch = batch_of(rt, alloc, &mut supply, 0, 0);
    counted(rt, inbox, &mut take, &mut seat, batch);
}

#[test]
fn an_inbox_of_a_users_own_takes_what_was_posted(rt: HostRuntime) {
    let mut region = region(rt.alloc(), 1).expect(&rt, "memory");
    let supply = Supply::new(rt.alloc(), &mut region).expect(&rt, "chunks");
    counts(&rt, rt.alloc(), supply);
}

fn ends<'r, R: Abort + Wait>(rt: &R, alloc: Global, mut supply: Supply<'r>) {
    let (inbox, take, mut seats) = open(rt, alloc, 1);
    let mut seat = take_last_seat(&inbox, &mut seats).expect(rt, "a seat");
    let batch = batch_of(rt, alloc, &mut supply, 0, 3);
    belongs(rt, &inbox, &seat, &batch);
    assert!(rt; inbox.post(&mut seat, batch).is_ok());
    assert!(rt; LinkInbox::at_rest(&seat) && LinkInbox::sender(&seat) == 0);
    assert!(rt; put_seat(&inbox, &mut seats, seat).is_ok());
    let mut rest = end(rt, inbox, take, seats);
    let left = hand_out::<LinkInbox<'r>, R>(rt, &mut rest).expect(rt, "one is left");
    assert!(rt; mark_of(left) == Some(3));
    assert!(rt; hand_out::<LinkInbox<'r>, R>(rt, &mut rest).is_none());
}

#[test]
fn whoever_knows_only_an_inbox_ends_it(rt: HostRuntime) {
    let mut region = region(rt.alloc(), 1).expect(&rt, "memory");
    let supply = Supply::new(rt.alloc(), &mut region).expect(&rt, "chunks");
    ends(&rt, rt.alloc(), supply);
}
