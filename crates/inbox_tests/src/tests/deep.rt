//! A batch that is too long for a recursion: all slots of 400 chunks.
ghost use Rattle.std.specs.Prelude.{◌≡◌, length};
ghost use Rattle.batch_inbox.specs.States.{AreSeatsOf};

use super::{open, post};
use batch_inbox::{Inbox, SendSeat, TakeSeat};
use inbox_uses::{Supply, put_seat, region, take_last_seat};
use std::alloc::Global;
use std::process::Abort;
use std::sync::Wait;

const CHUNKS: usize = 400;

const SLOTS: u64 = 102_400;

// The inbox goes with the batch in it, or its rest does.
fn ends<'r, R: Abort + Wait>(
    rt: &R,
    inbox: Inbox<'r>,
    take: TakeSeat<'r>,
    seat: SendSeat<'r>,
    mut seats: Vec<SendSeat<'r>>,
    is_drained: bool,
)
    requires take { (take.inbox ≡ inbox) × (take.senders ≡ 1) }
    requires seat { (seat.inbox ≡ inbox) × (seat.sender ≡ 0) }
    requires seats { AreSeatsOf inbox seats.items × (length seats.items ≡ 0) }
{
    if is_drained {
        assert!(rt; put_seat(&inbox, &mut seats, seat).is_ok());
        drop(inbox.drain(rt, take, seats));
    }
}

fn drops<'r, R: Abort + Wait>(rt: &R, alloc: Global, mut supply: Supply<'r>, is_drained: bool) {
    let batch = supply
        .long_batch(alloc, 0, 0, SLOTS)
        .expect(rt, "all slots");
    assert!(rt; batch.len() == SLOTS);
    let (inbox, take, mut seats) = open(rt, alloc, 1);
    let mut seat = take_last_seat(&inbox, &mut seats).expect(rt, "a seat");
    post(rt, &inbox, &mut seat, batch);
    ends(rt, inbox, take, seat, seats, is_drained);
}

#[test]
fn long_batches_take_no_depth(rt: HostRuntime) {
    for is_drained in [false, true] {
        let mut region = region(rt.alloc(), CHUNKS).expect(&rt, "memory");
        let supply = Supply::new(rt.alloc(), &mut region).expect(&rt, "chunks");
        drops(&rt, rt.alloc(), supply, is_drained);
    }
}
