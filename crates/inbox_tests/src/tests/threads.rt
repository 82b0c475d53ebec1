//! Senders and a receiver in threads of their own.
ghost use Rattle.std.specs.Prelude.{◌≡◌, All, length};
ghost use Rattle.batch_inbox.specs.States.{AreSeatsOf};

use super::{open, takes};
use batch_inbox::{Inbox, Rest, SendSeat, TakeSeat};
use digit_route::Batch;
use inbox_uses::{
    Posting, Supply, Taking, Tally, add_sender, put_seat, region, run_all, run_beside, run_both,
    take_last_seat,
};
use std::alloc::Global;
use std::process::Abort;
use std::sync::Wait;
use std::sync::atomic::AtomicU64;
use std::thread::Threads;

// How many batches each sender of the storm posts.
const BATCHES: u16 = 10_000;

const SENDERS: u16 = 8;

// How often the storm is run.
const RUNS: u32 = 10;

// Chunks for all of them.
const CHUNKS: usize = 313;

// One sender posts from a thread of its own.
fn posts_from_a_thread<'r, R: Abort + Wait + Threads + Sync>(
    rt: &R,
    alloc: Global,
    inbox: &Inbox<'r>,
    seat: SendSeat<'r>,
    batches: Vec<Batch<'r>>,
)
    requires { seat.inbox ≡ inbox.now }
{
    let finished = AtomicU64::new(0);
    let mut workers = Vec::new(alloc);
    let worker = Posting {
        inbox,
        seat,
        batches,
        finished: &finished,
    };
    assert!(rt; workers.push(worker).is_ok());
    assert!(rt; run_all(rt, workers).is_ok());
}

fn joined<'r, R: Abort + Wait + Threads + Sync>(rt: &R, alloc: Global, mut supply: Supply<'r>) {
    let batches = supply.batches(alloc, 0, 1).expect(rt, "a batch");
    let (inbox, mut take, mut seats) = open(rt, alloc, 1);
    let seat = take_last_seat(&inbox, &mut seats).expect(rt, "a seat");
    posts_from_a_thread(rt, alloc, &inbox, seat, batches);
    takes(rt, &inbox, &mut take, 0, 0);
    assert!(rt; inbox.take(rt, &mut take).is_none());
}

#[test]
fn what_a_joined_thread_posted_is_taken(rt: HostRuntime) {
    let mut region = region(rt.alloc(), 1).expect(&rt, "memory");
    let supply = Supply::new(rt.alloc(), &mut region).expect(&rt, "chunks");
    joined(&rt, rt.alloc(), supply);
}

// Two senders post, each from a thread of its own.
fn post_beside<'r, R: Abort + Wait + Threads + Sync>(
    rt: &R,
    inbox: &Inbox<'r>,
    seat: SendSeat<'r>,
    batches: Vec<Batch<'r>>,
    other: SendSeat<'r>,
    others: Vec<Batch<'r>>,
) -> (SendSeat<'r>, SendSeat<'r>)
    requires seat { seat.inbox ≡ inbox.now }
    requires other { other.inbox ≡ inbox.now }
    ensures seat { (result.0.inbox ≡ inbox.now) × (result.0.sender ≡ seat.entry.sender) }
    ensures other { (result.1.inbox ≡ inbox.now) × (result.1.sender ≡ other.entry.sender) }
{
    let finished = AtomicU64::new(0);
    let one = Posting {
        inbox,
        seat,
        batches,
        finished: &finished,
    };
    let two = Posting {
        inbox,
        seat: other,
        batches: others,
        finished: &finished,
    };
    let ((seat, posted), (other, also_posted)) = run_beside(rt, one, two);
    assert!(rt; posted == 2 && also_posted == 1);
    (seat, other)
}

// An inbox of three senders is ended, with the seats put back.
fn drained<'r, R: Abort + Wait>(
    rt: &R,
    inbox: Inbox<'r>,
    take: TakeSeat<'r>,
    mut seats: Vec<SendSeat<'r>>,
    first: SendSeat<'r>,
    second: SendSeat<'r>,
    third: SendSeat<'r>,
) -> Rest<'r>
    requires take { (take.inbox ≡ inbox) × (take.senders ≡ 3) }
    requires seats { AreSeatsOf inbox seats.items × (length seats.items ≡ 0) }
    requires first { (first.inbox ≡ inbox) × (first.sender ≡ 0) }
    requires second { (second.inbox ≡ inbox) × (second.sender ≡ 1) }
    requires third { (third.inbox ≡ inbox) × (third.sender ≡ 2) }
{
    assert!(rt; put_seat(&inbox, &mut seats, first).is_ok());
    assert!(rt; put_seat(&inbox, &mut seats, second).is_ok());
    assert!(rt; put_seat(&inbox, &mut seats, third).is_ok());
    inbox.drain(rt, take, seats)
}

// The other two are left, in their order, and nothing else.
fn ends_with_two<'r, R: Abort + Wait>(rt: &R, mut rest: Rest<'r>, mut tally: Tally) {
    tally.add(rest.next(rt).expect(rt, "two are left"));
    tally.add(rest.next(rt).expect(rt, "one is left"));
    assert!(rt; rest.next(rt).is_none());
    assert!(rt; tally.in_order);
    assert!(rt; tally.taken.as_slice() == [2, 0, 1].as_slice());
}

// Seat 0 posts A and then B, seat 2 posts C. One is taken, two are drained, and B never before A.
fn three<'r, R: Abort + Wait + Threads + Sync>(rt: &R, alloc: Global, mut supply: Supply<'r>) {
    let a_and_b = supply.batches(alloc, 0, 2).expect(rt, "A and B");
    let c = supply.batches(alloc, 2, 1).expect(rt, "C");
    let mut tally = Tally::new(alloc, 3).expect(rt, "memory");
    let (inbox, mut take, mut seats) = open(rt, alloc, 3);
    let third = take_last_seat(&inbox, &mut seats).expect(rt, "seat 2");
    let second = take_last_seat(&inbox, &mut seats).expect(rt, "seat 1");
    let first = take_last_seat(&inbox, &mut seats).expect(rt, "seat 0");
    let (first, third) = post_beside(rt, &inbox, first, a_and_b, third, c);
    tally.add(inbox.take(rt, &mut take).expect(rt, "one is there"));
    let rest = drained(rt, inbox, take, seats, first, second, third);
    ends_with_two(rt, rest, tally);
}

#[test]
fn what_three_senders_posted_is_drained_in_order(rt: HostRuntime) {
    let mut region = region(rt.alloc(), 1).expect(&rt, "memory");
    let supply = Supply::new(rt.alloc(), &mut region).expect(&rt, "chunks");
    three(&rt, rt.alloc(), supply);
}

// A sender for each seat, from the last one on.
fn senders<'r, 's>(
    rt: &impl Abort,
    alloc: Global,
    inbox: &'s Inbox<'r>,
    mut seats: Vec<SendSeat<'r>>,
    mut supply: Supply<'r>,
    finished: &'s AtomicU64,
) -> Vec<Posting<'r, 's>>
    requires { AreSeatsOf inbox.now seats.items }
    ensures { All (λ p. p.seat.inbox ≡ p.inbox.now) result.items }
{
    let mut senders = Vec::new(alloc);
    for _ in 0..SENDERS {
        let seat = take_last_seat(inbox, &mut seats).expect(rt, "a seat");
        let batches = supply
            .batches(alloc, seat.sender(), BATCHES)
            .expect(rt, "batches");
        let sender = Posting {
            inbox,
            seat,
            batches,
            finished,
        };
        assert!(rt; add_sender(&mut senders, sender).is_ok());
    }
    senders
}

// All batches of eight senders are taken while they post, each once, and each sender's in its order.
fn storm<'r, R: Abort + Wait + Threads + Sync>(rt: &R, alloc: Global, supply: Supply<'r>) {
    let finished = AtomicU64::new(0);
    let tally = Tally::new(alloc, SENDERS).expect(rt, "memory");
    let (inbox, seat, seats) = open(rt, alloc, SENDERS);
    let workers = senders(rt, alloc, &inbox, seats, supply, &finished);
    let receiver = Taking {
        inbox: &inbox,
        seat,
        finished: &finished,
        senders: SENDERS as u64,
        tally,
    };
    let (posted, (_seat, tally)) = run_both(rt, workers, receiver);
    assert!(rt; posted.is_ok());
    assert!(rt; tally.has_all(BATCHES as u64));
}

#[test]
fn what_eight_threads_post_is_taken_while_they_post(rt: HostRuntime) {
    for _ in 0..RUNS {
        let mut region = region(rt.alloc(), CHUNKS).expect(&rt, "memory");
        let supply = Supply::new(rt.alloc(), &mut region).expect(&rt, "chunks");
        storm(&rt, rt.alloc(), supply);
    }
}
