//! A desk that is dropped while others post to it.
ghost use Rattle.std.specs.Prelude.{◌≡◌, length};
ghost use Rattle.batch_inbox.specs.States.{AreSeatsOf};

use super::open;
use batch_inbox::{Inbox, Rest, SendSeat, TakeSeat};
use inbox_uses::{Posting, Supply, Tally, Worker, put_seat, region, run_beside, take_last_seat};
use std::alloc::Global;
use std::process::Abort;
use std::sync::Wait;
use std::sync::atomic::AtomicU64;
use std::thread::Threads;

// How many batches are posted.
const BATCHES: u16 = 1_000;

// How often a desk is dropped.
const RUNS: u32 = 10;

// An owner that drops its desk, with all slots that it has.
#[derive(Drop)]
struct Leaving<'r> {
    owner: Supply<'r>,
}

impl<'r> Worker for Leaving<'r> {
    type Done = ();

    ghost use Rattle.std.specs.Prelude.{⊤};

    ghost ready = { λ _. ⊤ };

    ghost gives = { λ _ _. ⊤ };

    fn run<R: Wait>(self, _rt: &R) -> () {
        drop(self.owner);
    }
}

// An inbox of one sender is ended, with the seat put back.
fn drained<'r, R: Abort + Wait>(
    rt: &R,
    inbox: Inbox<'r>,
    take: TakeSeat<'r>,
    mut seats: Vec<SendSeat<'r>>,
    seat: SendSeat<'r>,
) -> Rest<'r>
    requires take { (take.inbox ≡ inbox) × (take.senders ≡ 1) }
    requires seats { AreSeatsOf inbox seats.items × (length seats.items ≡ 0) }
    requires seat { (seat.inbox ≡ inbox) × (seat.sender ≡ 0) }
{
    assert!(rt; put_seat(&inbox, &mut seats, seat).is_ok());
    inbox.drain(rt, take, seats)
}

// All batches are left, in their order.
fn ends_with_all<'r, R: Abort + Wait>(rt: &R, mut rest: Rest<'r>, mut tally: Tally) {
    for _ in 0..BATCHES {
        tally.add(rest.next(rt).expect(rt, "a batch is left"));
    }
    assert!(rt; rest.next(rt).is_none());
    assert!(rt; tally.has_all(BATCHES as u64));
}

// The owner's buffers are posted in one thread, while another drops the owner.
fn leaves<'r, R: Abort + Wait + Threads + Sync>(rt: &R, alloc: Global, mut owner: Supply<'r>) {
    let finished = AtomicU64::new(0);
    let batches = owner.batches(alloc, 0, BATCHES).expect(rt, "batches");
    let tally = Tally::new(alloc, 1).expect(rt, "memory");
    let (inbox, take, mut seats) = open(rt, alloc, 1);
    let seat = take_last_seat(&inbox, &mut seats).expect(rt, "a seat");
    let posting = Posting {
        inbox: &inbox,
        seat,
        batches,
        finished: &finished,
    };
    let ((seat, posted), ()) = run_beside(rt, posting, Leaving { owner });
    assert!(rt; posted == BATCHES as u64);
    let rest = drained(rt, inbox, take, seats, seat);
    ends_with_all(rt, rest, tally);
}

#[test]
fn a_desk_is_dropped_while_others_post(rt: HostRuntime) {
    for _ in 0..RUNS {
        let mut region = region(rt.alloc(), 4).expect(&rt, "memory");
        let owner = Supply::new(rt.alloc(), &mut region).expect(&rt, "chunks");
        leaves(&rt, rt.alloc(), owner);
    }
}
