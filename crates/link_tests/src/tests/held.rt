//! A sender that is held between its two steps, in a thread of its own.
ghost use Rattle.std.specs.Prelude.{◌≡◌, None};

use super::{belongs, open};
use digit_route::Batch;
use inbox_uses::{Supply, Tally, Worker, region, run_beside};
use link_inbox::{LinkInbox, SendSeat, TakeSeat};
use link_uses::{send_all, take_last_seat};
use std::alloc::Global;
use std::process::Abort;
use std::sync::Wait;
use std::sync::atomic::{AtomicBool, Ordering};
use std::thread;
use std::thread::Threads;

// How often a thread looks for what another does before it gives up.
const LOOKS: u32 = 10_000_000;

// How many batches are posted behind the held one.
const BEHIND: u16 = 3;

fn becomes_true(flag: &AtomicBool) -> bool {
    for _ in 0..LOOKS {
        if flag.load(Ordering::SeqCst) {
            return true;
        }
        thread::yield_now();
    }
    false
}

// Attaches a batch, and links it once it may go on. Ends with whether it was told to.
#[derive(Drop)]
struct Held<'r, 's> {
    inbox: &'s LinkInbox<'r>,
    seat: SendSeat<'r>,
    batch: Batch<'r>,
    is_attached: &'s AtomicBool,
    may_go_on: &'s AtomicBool,
}

impl<'r, 's> Worker for Held<'r, 's> {
    type Done = bool;

    ghost use Rattle.std.specs.Prelude.{◌≡◌, None, ⊤};
    ghost use Rattle.batch_inbox.specs.Views.{place_of};

    ghost ready = { λ h. (h.seat.inbox ≡ h.inbox.now) × (h.seat.half ≡ None)
        × (place_of h.batch ≡ h.inbox.now.place) × (h.batch.sender ≡ h.seat.sender) };

    ghost gives = { λ h d. ⊤ };

    fn run<R: Wait>(self, _rt: &R) -> bool {
        let Held {
            inbox,
            mut seat,
            batch,
            is_attached,
            may_go_on,
        } = self;
        let Ok(attached) = inbox.attach(&mut seat, batch) else {
            return false;
        };
        is_attached.store(true, Ordering::SeqCst);
        let goes_on = becomes_true(may_go_on);
        inbox.link(&mut seat, attached);
        goes_on
    }
}

// Posts behind the held batch, lets it go on, and takes. Ends with whether nothing could be taken
// while it was held, and with what was taken then.
#[derive(Drop)]
struct Behind<'r, 's> {
    inbox: &'s LinkInbox<'r>,
    take: TakeSeat<'r>,
    seat: SendSeat<'r>,
    batches: Vec<Batch<'r>>,
    is_attached: &'s AtomicBool,
    may_go_on: &'s AtomicBool,
    tally: Tally,
}

impl<'r, 's> Worker for Behind<'r, 's> {
    type Done = (bool, Tally);

    ghost use Rattle.std.specs.Prelude.{◌≡◌, None, ⊤};

    ghost ready = { λ b. (b.take.inbox ≡ b.inbox.now) × (b.seat.inbox ≡ b.inbox.now) × (b.seat.half ≡ None) };

    ghost gives = { λ b d. ⊤ };

    fn run<R: Wait>(self, rt: &R) -> (bool, Tally) {
        let Behind {
            inbox,
            mut take,
            mut seat,
            batches,
            is_attached,
            may_go_on,
            mut tally,
        } = self;
        let is_held = becomes_true(is_attached);
        send_all(rt, inbox, &mut seat, batches);
        let is_none = inbox.take(&mut take).is_none();
        may_go_on.store(true, Ordering::SeqCst);
        take_so_many(inbox, &mut take, &mut tally, BEHIND + 1);
        (is_held && is_none, tally)
    }
}

// Takes until so many have come.
fn take_so_many<'r>(inbox: &LinkInbox<'r>, take: &mut TakeSeat<'r>, tally: &mut Tally, count: u16)
    requires { take.old.inbox ≡ inbox.now }
{
    let mut left = count;
    for _ in 0..LOOKS {
        match inbox.take(take) {
            Some(batch) => {
                tally.add(batch);
                left = left.saturating_sub(1);
            }
            None => thread::yield_now(),
        }
        if left == 0 {
            return;
        }
    }
}

// Seat 0 attaches A and is held. Seat 1 posts three behind it. None is taken before A is linked.
fn holds<'r, R: Abort + Wait + Threads + Sync>(rt: &R, alloc: Global, mut supply: Supply<'r>) {
    let is_attached = AtomicBool::new(false);
    let may_go_on = AtomicBool::new(false);
    let batch = supply.batch(alloc, 0, 0).expect(rt, "A");
    let batches = supply
        .batches(alloc, 1, BEHIND)
        .expect(rt, "those behind it");
    let tally = Tally::new(alloc, 2).expect(rt, "memory");
    let (inbox, take, mut seats) = open(rt, alloc, 2);
    let other = take_last_seat(&inbox, &mut seats).expect(rt, "seat 1");
    let seat = take_last_seat(&inbox, &mut seats).expect(rt, "seat 0");
    belongs(rt, &inbox, &seat, &batch);
    let held = Held {
        inbox: &inbox,
        seat,
        batch,
        is_attached: &is_attached,
        may_go_on: &may_go_on,
    };
    let behind = Behind {
        inbox: &inbox,
        take,
        seat: other,
        batches,
        is_attached: &is_attached,
        may_go_on: &may_go_on,
        tally,
    };
    let (went_on, (held_back, tally)) = run_beside(rt, held, behind);
    assert!(rt; went_on && held_back && tally.in_order);
    assert!(rt; tally.taken.as_slice() == [1, BEHIND as u64].as_slice());
}

#[test]
fn a_held_sender_holds_back_those_behind_it(rt: HostRuntime) {
    let mut region = region(rt.alloc(), 1).expect(&rt, "memory");
    let supply = Supply::new(rt.alloc(), &mut region).expect(&rt, "chunks");
    holds(&rt, rt.alloc(), supply);
}
