//! A batch that is too long for a recursion: all slots of 400 chunks.
ghost use Rattle.std.specs.Prelude.{◌≡◌, length};
ghost use Rattle.link_inbox.specs.States.{AreSeatsOf, AreAtRest};

use super::{open, post};
use digit_route::Batch;
use inbox_uses::{Supply, region};
use link_inbox::{LinkInbox, SendSeat};
use link_uses::{put_seat, take_last_seat};
use std::alloc::Global;
use std::process::Abort;

const CHUNKS: usize = 400;

const SLOTS: u64 = 102_400;

// One batch of all slots.
fn all_slots<'r>(rt: &impl Abort, alloc: Global, supply: &mut Supply<'r>) -> Batch<'r> {
    let batch = supply
        .long_batch(alloc, 0, 0, SLOTS)
        .expect(rt, "all slots");
    assert!(rt; batch.len() == SLOTS);
    batch
}

// Posts the batch, and puts the seat back.
fn post_it<'r>(
    rt: &impl Abort,
    inbox: &LinkInbox<'r>,
    seats: &mut Vec<SendSeat<'r>>,
    batch: Batch<'r>,
)
    requires { AreSeatsOf inbox.now seats.old.items × AreAtRest seats.old.items }
    ensures { AreSeatsOf inbox.now seats.new.items × (length seats.new.items ≡ length seats.old.items) }
{
    let mut seat = take_last_seat(inbox, seats).expect(rt, "a seat");
    post(rt, inbox, &mut seat, batch);
    assert!(rt; put_seat(inbox, seats, seat).is_ok());
}

// The inbox goes with the batch in it, or its rest does.
fn drops<'r>(rt: &impl Abort, alloc: Global, supply: &mut Supply<'r>, is_drained: bool) {
    let (inbox, take, mut seats) = open(rt, alloc, 1);
    let batch = all_slots(rt, alloc, supply);
    post_it(rt, &inbox, &mut seats, batch);
    if is_drained {
        drop(inbox.drain(take, seats));
    }
}

#[test]
fn long_batches_take_no_depth(rt: HostRuntime) {
    for is_drained in [false, true] {
        let mut region = region(rt.alloc(), CHUNKS).expect(&rt, "memory");
        let mut supply = Supply::new(rt.alloc(), &mut region).expect(&rt, "chunks");
        drops(&rt, rt.alloc(), &mut supply, is_drained);
    }
}
