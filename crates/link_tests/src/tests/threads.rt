//! Senders and a receiver in threads of their own.
ghost use Rattle.std.specs.Prelude.{◌≡◌, None, All};
ghost use Rattle.link_inbox.specs.States.{AreSeatsOf, AreAtRest};

use super::{open, takes};
use digit_route::Batch;
use inbox_uses::{Supply, Tally, region, run_all, run_both};
use link_inbox::{LinkInbox, SendSeat};
use link_uses::{Sending, Taking, add_sender, take_last_seat};
use std::alloc::Global;
use std::process::Abort;
use std::sync::Wait;
use std::sync::atomic::AtomicU64;
use std::thread::Threads;

// How many batches each sender of the storm posts.
const BATCHES: u16 = 10_000;

const SENDERS: u16 = 8;

// Chunks for all of them.
const CHUNKS: usize = 313;

// One sender posts from a thread of its own.
fn posts_from_a_thread<'r, R: Abort + Wait + Threads + Sync>(
    rt: &R,
    alloc: Global,
    inbox: &LinkInbox<'r>,
    seat: SendSeat<'r>,
    batches: Vec<Batch<'r>>,
)
    requires { (seat.inbox ≡ inbox.now) × (seat.half ≡ None) }
{
    let finished = AtomicU64::new(0);
    let mut workers = Vec::new(alloc);
    let worker = Sending {
        inbox,
        seat,
        batches,
        finished: &finished,
    };
    assert!(rt; workers.push(worker).is_ok());
    assert!(rt; run_all(rt, workers).is_ok());
}

fn joined<'r, R: Abort + Wait + Threads + Sync>(rt: &R, alloc: Global, mut supply: Supply<'r>) {
    let batches = supply.batches(alloc, 0, 1).expect(rt, "a batch");
    let (inbox, mut take, mut seats) = open(rt, alloc, 1);
    let seat = take_last_seat(&inbox, &mut seats).expect(rt, "a seat");
    posts_from_a_thread(rt, alloc, &inbox, seat, batches);
    takes(rt, &inbox, &mut take, 0, 0);
    assert!(rt; inbox.take(&mut take).is_none());
}

#[test]
fn what_a_joined_thread_posted_is_taken(rt: HostRuntime) {
    let mut region = region(rt.alloc(), 1).expect(&rt, "memory");
    let supply = Supply::new(rt.alloc(), &mut region).expect(&rt, "chunks");
    joined(&rt, rt.alloc(), supply);
}

// A sender for each seat, from the last one on.
fn senders<'r, 's>(
    rt: &impl Abort,
    alloc: Global,
    inbox: &'s LinkInbox<'r>,
    mut seats: Vec<SendSeat<'r>>,
    mut supply: Supply<'r>,
    finished: &'s AtomicU64,
) -> Vec<Sending<'r, 's>>
    requires { AreSeatsOf inbox.now seats.items × AreAtRest seats.items }
    ensures { All (λ p. (p.seat.inbox ≡ p.inbox.now) × (p.seat.half ≡ None)) result.items }
{
    let mut senders = Vec::new(alloc);
    for _ in 0..SENDERS {
        let seat = take_last_seat(inbox, &mut seats).expect(rt, "a seat");
        let batches = supply
            .batches(alloc, seat.sender(), BATCHES)
            .expect(rt, "batches");
        let sender = Sending {
            inbox,
            seat,
            batches,
            finished,
        };
        assert!(rt; add_sender(&mut senders, sender).is_ok());
    }
    senders
}

// All batches of eight senders are taken while they post, each once, and each sender's in its order.
fn storm<'r, R: Abort + Wait + Threads + Sync>(rt: &R, alloc: Global, supply: Supply<'r>) {
    let finished = AtomicU64::new(0);
    let tally = Tally::new(alloc, SENDERS).expect(rt, "memory");
    let (inbox, seat, seats) = open(rt, alloc, SENDERS);
    let workers = senders(rt, alloc, &inbox, seats, supply, &finished);
    let receiver = Taking {
        inbox: &inbox,
        seat,
        finished: &finished,
        senders: SENDERS as u64,
        tally,
    };
    let (posted, (_seat, tally)) = run_both(rt, workers, receiver);
    assert!(rt; posted.is_ok());
    assert!(rt; tally.has_all(BATCHES as u64));
}

#[test]
fn what_eight_threads_post_is_taken_while_they_post(rt: HostRuntime) {
    let mut region = region(rt.alloc(), CHUNKS).expect(&rt, "memory");
    let supply = Supply::new(rt.alloc(), &mut region).expect(&rt, "chunks");
    storm(&rt, rt.alloc(), supply);
}
