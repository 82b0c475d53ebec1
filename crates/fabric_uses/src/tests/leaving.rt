//! A desk is dropped while another posts to it.
ghost use Rattle.std.specs.Prelude.{◌≡◌, length, IfOk};
ghost use Rattle.batch_inbox.specs.States.{AreSeatsOf};
ghost use Rattle.inbox_uses.specs.Supplied.{supplied_digits};

use batch_inbox::{Inbox, SendSeat, TakeSeat};
use crossbeam_channel::{Receiver, Sender};
use digit_route::{Batch, Digits};
use inbox_uses::{Worker, deliver, put_seat, run_beside, take_last_seat};
use pool_desk::{Desk, IdleDesk};
use pool_fabric::account;
use region_cut::{CHUNK, Class, Slot, cut};
use slot_audit::{Drawn, Fault};
use slot_chain::Buf;
use std::alloc::Global;
use std::process::Abort;
use std::sync::Wait;
use std::test::Fail;
use std::thread::Threads;

// How often a desk is dropped.
const RUNS: u32 = 20;

// The numbers of desks are below this.
const DESKS: u16 = 64;

// The owner of a chunk of eight slots. It hands two of them over and is dropped, with its seat if that
// is here.
#[derive(Drop)]
struct Leaving<'r> {
    desk: Desk<'r>,
    take: Option<TakeSeat<'r>>,
    alloc: Global,
    to: Sender<Buf<'r>>,
}

impl<'r> Worker for Leaving<'r> {
    type Done = ();

    ghost use Rattle.std.specs.Prelude.{⊤};

    ghost ready = { λ _. ⊤ };

    ghost gives = { λ _ _. ⊤ };

    fn run<R: Wait>(self, rt: &R) -> () {
        let Leaving {
            mut desk,
            take,
            alloc,
            to,
        } = self;
        for _ in 0..2 {
            if let Ok(buf) = desk.alloc(alloc, 512) {
                drop(to.send(rt, buf));
            }
        }
        drop(desk);
        drop(take);
    }
}

// Desk 0, a stranger that frees what it receives, and posts it to the owner.
#[derive(Drop)]
struct Freeing<'r, 's> {
    digits: Digits,
    inbox: &'s Inbox<'r>,
    seat: SendSeat<'r>,
    from: Receiver<Buf<'r>>,
}

// What a stranger ends with: its seat, how many posts were answered Ok, and whether its desk is empty.
#[derive(Drop)]
struct Freed<'r> {
    seat: SendSeat<'r>,
    posted: u32,
    is_empty: bool,
}

// Frees a buffer and posts what is cached. Says whether the post was answered Ok.
fn free_and_post<'r, R: Wait>(
    rt: &R,
    desk: &mut Desk<'r>,
    inbox: &Inbox<'r>,
    seat: &mut SendSeat<'r>,
    buf: Buf<'r>,
) -> bool
    requires digits { desk.old.digits ≡ supplied_digits }
    requires seat { seat.old.inbox ≡ inbox.now }
    ensures digits { desk.new.digits ≡ desk.old.digits }
    ensures seat { (seat.new.inbox ≡ seat.old.inbox) × (seat.new.sender ≡ seat.old.sender) }
{
    if buf.owner() >= DESKS {
        return false;
    }
    let _freed = desk.free(buf);
    match desk.next_batch() {
        Some(batch) => deliver(rt, inbox, seat, batch).is_ok(),
        None => false,
    }
}

// Waits for a buffer, frees it and posts.
fn free_next<'r, R: Wait>(
    rt: &R,
    desk: &mut Desk<'r>,
    inbox: &Inbox<'r>,
    seat: &mut SendSeat<'r>,
    from: &Receiver<Buf<'r>>,
) -> u32
    requires digits { desk.old.digits ≡ supplied_digits }
    requires seat { seat.old.inbox ≡ inbox.now }
    ensures digits { desk.new.digits ≡ desk.old.digits }
    ensures seat { (seat.new.inbox ≡ seat.old.inbox) × (seat.new.sender ≡ seat.old.sender) }
{
    match from.recv(rt) {
        Ok(buf) => u32::from(free_and_post(rt, desk, inbox, seat, buf)),
        Err(_) => 0,
    }
}

impl<'r, 's> Worker for Freeing<'r, 's> {
    type Done = Freed<'r>;

    ghost use Rattle.std.specs.Prelude.{◌≡◌};
    ghost use Rattle.inbox_uses.specs.Supplied.{supplied_digits};

    ghost ready = { λ f. (f.seat.inbox ≡ f.inbox.now) × (f.digits ≡ supplied_digits) };

    ghost gives = { λ f d. (d.seat.inbox ≡ f.seat.inbox) × (d.seat.sender ≡ f.seat.sender) };

    fn run<R: Wait>(self, rt: &R) -> Freed<'r> {
        let Freeing {
            digits,
            inbox,
            mut seat,
            from,
        } = self;
        let mut desk = IdleDesk::new(0, digits, 0).adopt(0);
        let first = free_next(rt, &mut desk, inbox, &mut seat, &from);
        let second = free_next(rt, &mut desk, inbox, &mut seat, &from);
        Freed {
            seat,
            posted: first.saturating_add(second),
            is_empty: desk.counts() == (0, 0),
        }
    }
}

// Desk 1 with a chunk for the class of 512 bytes.
fn owner_of<'r, R: Abort>(rt: &R, alloc: Global, digits: Digits, region: &'r mut [u8]) -> Desk<'r> {
    let mut parts = cut(alloc, region).expect(rt, "memory");
    let part = parts.pop().expect(rt, "a chunk");
    let class = digits.profile().class_for(512).expect(rt, "a class");
    let mut desk = IdleDesk::new(1, digits, 0).adopt(1);
    assert!(rt; desk.claim(part, class).is_ok());
    desk
}

// The inbox of the owner is ended, and its batches listed.
fn drained<'r, R: Abort + Wait>(
    rt: &R,
    alloc: Global,
    inbox: Inbox<'r>,
    take: TakeSeat<'r>,
    mut seats: Vec<SendSeat<'r>>,
    freed: Freed<'r>,
) -> Vec<Batch<'r>>
    requires take { (take.inbox ≡ inbox) × (take.senders ≡ 1) }
    requires seats { AreSeatsOf inbox seats.items × (length seats.items ≡ 0) }
    requires seat { (freed.seat.inbox ≡ inbox) × (freed.seat.sender ≡ 0) }
{
    let Freed {
        seat,
        posted,
        is_empty,
    } = freed;
    assert!(rt; posted == 2 && is_empty);
    assert!(rt; put_seat(&inbox, &mut seats, seat).is_ok());
    let mut rest = inbox.drain(rt, take, seats);
    let mut batches = Vec::new(alloc);
    for _ in 0..2 {
        let batch = rest.next(rt).expect(rt, "both were posted");
        assert!(rt; batches.push(batch).is_ok());
    }
    assert!(rt; rest.next(rt).is_none());
    batches
}

// The inbox has the two slots, and the audit misses the next.
fn audited<'r, R: Abort>(rt: &R, alloc: Global, batches: Vec<Batch<'r>>) -> Result<(), Fail> {
    let mut slots = Vec::new(alloc);
    for batch in &batches {
        batch.list_slots(&mut slots)?;
    }
    let posted = [Slot { chunk: 0, index: 0 }, Slot { chunk: 0, index: 1 }];
    assert!(rt; slots.as_slice() == posted.as_slice());
    let mut drawn = Drawn::new(alloc)?;
    drawn.note(0, Class::new(15).ok_or("a class of 512 bytes")?);
    let audit = account(alloc, &[], &[], &batches, &drawn);
    assert!(rt; audit == Err(Fault::Missing(Slot { chunk: 0, index: 2 })));
    Ok(())
}

// The stranger frees and posts while the owner, in another thread, is dropped.
fn run_threads<'r, R: Abort + Threads + Wait + Sync>(
    rt: &R,
    alloc: Global,
    digits: Digits,
    owner: Desk<'r>,
    take: Option<TakeSeat<'r>>,
    inbox: &Inbox<'r>,
    seat: SendSeat<'r>,
) -> Result<Freed<'r>, Fail>
    requires digits { digits ≡ supplied_digits }
    requires seat { seat.inbox ≡ inbox.now }
    ensures { IfOk result (λ f. (f.seat.inbox ≡ seat.entry.inbox) × (f.seat.sender ≡ seat.entry.sender)) }
{
    let (to, from) = crossbeam_channel::unbounded::<Buf<'r>, _>(alloc)?;
    let freeing: Freeing<'r, '_> = Freeing {
        digits,
        inbox,
        seat,
        from,
    };
    let leaving: Leaving<'r> = Leaving {
        desk: owner,
        take,
        alloc,
        to,
    };
    let (freed, ()) = run_beside(rt, freeing, leaving);
    Ok(freed)
}

// What was posted is found where the receiver's seat is kept. Where it is dropped with the desk, the
// inbox goes with its batches.
fn leaves<'r, R: Abort + Threads + Wait + Sync>(
    rt: &R,
    alloc: Global,
    digits: Digits,
    owner: Desk<'r>,
    drops_seat: bool,
) -> Result<(), Fail>
    requires { digits ≡ supplied_digits }
{
    let (inbox, take, mut seats) = Inbox::new(alloc, 1, digits, 1)?;
    let seat = take_last_seat(&inbox, &mut seats).ok_or("a seat")?;
    if drops_seat {
        let freed = run_threads(rt, alloc, digits, owner, Some(take), &inbox, seat)?;
        assert!(rt; freed.posted == 2 && freed.is_empty);
        return Ok(());
    }
    let freed = run_threads(rt, alloc, digits, owner, None, &inbox, seat)?;
    let batches = drained(rt, alloc, inbox, take, seats, freed);
    audited(rt, alloc, batches)
}

// In each run an owner with a region of its own is dropped.
fn leaves_often<R: Abort + AllocGlobal + Threads + Wait + Sync>(
    rt: &R,
    drops_seat: bool,
) -> Result<(), Fail> {
    let digits = Digits::new(2).ok_or("two bits")?;
    for _ in 0..RUNS {
        let mut region = Vec::from_elem(rt.alloc(), 0u8, CHUNK)?;
        let owner = owner_of(rt, rt.alloc(), digits, region.as_mut_slice());
        leaves(rt, rt.alloc(), digits, owner, drops_seat)?;
    }
    Ok(())
}

#[test]
fn a_desk_is_dropped_while_another_posts(rt: HostRuntime) -> Result<(), Fail> {
    leaves_often(&rt, false)
}

#[test]
fn posts_are_answered_with_no_receiver(rt: HostRuntime) -> Result<(), Fail> {
    leaves_often(&rt, true)
}
