//! Parcels that are filled by one call.
ghost use Rattle.std.specs.Prelude.{◌≡◌, ◌≤◌};

use super::{BOTH, Ground, Inboxes, Outcome, outcome_of};
use pool_jobs::{Burst, Bytes, Channels, Data, Heap, Message, PoolError, Task};
use std::process::Abort;
use std::sync::Wait;
use std::test::Fail;
use std::thread::Threads;
use std::time::{Clock, Duration};

// So many slots of 512 bytes has a chunk.
const SLOTS: usize = 8;

// What a thread does. It answers with what went wrong, or with nothing.
#[derive(Drop)]
enum Act {
    // Asks for more than a chunk has, and once more.
    Exhausts,
    // Asks for more than a parcel takes, for none, and for too large ones.
    Overfills,
    // Fills a parcel, and lends the same slots again.
    Lends,
    // Hands all its slots over, and waits until they come home.
    Hands,
    // Frees the parcel that it receives, once it has tried to fill it.
    Frees,
    // Draws the only chunk for one class, and asks for another one.
    Misses,
    // Makes the only chunk's slots ready, and asks for more.
    Reserves,
    // Writes lines into the buffers of a parcel.
    Writes,
}

impl Task for Act {
    type Answer = Result<(), &'static str>;

    fn sends_to(&self, task: usize) -> bool {
        match self {
            Act::Hands => task == 1,
            _ => false,
        }
    }

    fn run<H: Heap, R: Wait + Clock>(
        self,
        rt: &R,
        heap: &mut H,
        channels: Channels<H::Buffer, H::Parcel>,
    ) -> Result<(), &'static str> {
        match self {
            Act::Exhausts => exhaust(rt, heap),
            Act::Overfills => overfill(rt, heap),
            Act::Lends => lend(rt, heap),
            Act::Hands => hand(rt, heap, &channels),
            Act::Frees => free(rt, heap, &channels),
            Act::Misses => miss(rt, heap),
            Act::Reserves => reserve(rt, heap),
            Act::Writes => write(rt, heap),
        }
    }
}

fn parcel<H: Heap>(heap: &mut H, places: usize) -> Result<H::Parcel, &'static str> {
    heap.parcel(places).map_err(|_| "no parcel")
}

// What is wrong, unless it is so.
fn check(is_so: bool, what: &'static str) -> Result<(), &'static str> {
    if is_so { Ok(()) } else { Err(what) }
}

fn exhaust<H: Heap, R: Wait>(rt: &R, heap: &mut H) -> Result<(), &'static str> {
    let mut parcel = parcel(heap, 2 * SLOTS)?;
    let first = heap.fill(rt, &mut parcel, 512, SLOTS + 2);
    check(first == Ok(SLOTS), "not all slots of the chunk")?;
    let second = heap.fill(rt, &mut parcel, 512, 1);
    check(second == Err(PoolError::UsedUp), "a ninth buffer")?;
    check(parcel.len() == SLOTS, "another number of buffers")?;
    heap.free_all(rt, parcel);
    Ok(())
}

fn overfill<H: Heap, R: Wait>(rt: &R, heap: &mut H) -> Result<(), &'static str> {
    let mut parcel = parcel(heap, 4)?;
    let places = parcel.places();
    check(heap.fill(rt, &mut parcel, 16, 0) == Ok(0), "more than none")?;
    check(heap.fill(rt, &mut parcel, 16, 3) == Ok(3), "not three")?;
    check(
        heap.fill(rt, &mut parcel, 16, places) == Ok(places.saturating_sub(3)),
        "not what was left",
    )?;
    check(
        heap.fill(rt, &mut parcel, 16, 1) == Ok(0),
        "one more than there are places",
    )?;
    let too_large = heap.fill(rt, &mut parcel, heap.largest_size().saturating_add(1), 1);
    check(too_large == Err(PoolError::TooLarge), "too large a buffer")?;
    check(parcel.len() == places, "another number of buffers")?;
    heap.free_all(rt, parcel);
    Ok(())
}

// A parcel with a buffer for each place, which has 100 bytes and as many more.
fn packed<H: Heap, R: Wait + Clock>(
    rt: &R,
    heap: &mut H,
    places: usize,
) -> Result<H::Parcel, PoolError> {
    let mut parcel = heap.parcel(places)?;
    let _lent = heap.fill_waiting(rt, &mut parcel, 512, places)?;
    for at in 0..places {
        if at >= parcel.len() {
            break;
        }
        parcel.edit_at(at, |bytes| bytes.fill(b'x'));
        let _fits = parcel.set_len_at(at, at.saturating_add(100));
    }
    Ok(parcel)
}

fn lend_once<H: Heap, R: Wait + Clock>(rt: &R, heap: &mut H) -> Result<(), &'static str> {
    let mut parcel = parcel(heap, SLOTS)?;
    check(
        heap.fill(rt, &mut parcel, 512, SLOTS) == Ok(SLOTS),
        "not all slots",
    )?;
    for buffer in parcel.buffers() {
        check(buffer.data().is_empty(), "filled already")?;
    }
    heap.free_all(rt, parcel);
    let parcel = packed(rt, heap, SLOTS).map_err(|_| "no buffers")?;
    let mut at = 0usize;
    for buffer in parcel.buffers() {
        let data = buffer.data();
        check(
            data.len() == at.saturating_add(100) && data.iter().all(|b| *b == b'x'),
            "another's bytes",
        )?;
        at = at.saturating_add(1);
    }
    heap.free_all(rt, parcel);
    check(at == SLOTS, "another number of buffers")
}

// From the third parcel on they come in the array in which they came home.
fn lend<H: Heap, R: Wait + Clock>(rt: &R, heap: &mut H) -> Result<(), &'static str> {
    for _ in 0..4 {
        lend_once(rt, heap)?;
    }
    Ok(())
}

// All slots of a class are out, and so they may come home. Of another class there is no chunk, and none is left.
fn ask_for_more<H: Heap, R: Wait + Clock>(rt: &R, heap: &mut H) -> Result<(), &'static str> {
    let mut other = parcel(heap, SLOTS)?;
    let same = heap.alloc(rt, 512).err();
    check(same == Some(PoolError::UsedUp), "a slot that is lent")?;
    let none = Some(PoolError::NoChunk);
    check(heap.alloc(rt, 16).err() == none, "a slot of no chunk")?;
    check(heap.alloc_waiting(rt, 16).err() == none, "a wait for none")?;
    let within = heap.alloc_within(rt, 16, Duration::from_secs(3_600));
    check(within.err() == none, "an hour's wait for none")?;
    let filled = heap.fill_waiting(rt, &mut other, 16, SLOTS);
    check(
        filled == Err(PoolError::NoChunk),
        "a parcel filled with none",
    )?;
    check(other.len() == 0, "something in the parcel")
}

fn miss<H: Heap, R: Wait + Clock>(rt: &R, heap: &mut H) -> Result<(), &'static str> {
    let mut held = parcel(heap, SLOTS)?;
    let filled = heap.fill(rt, &mut held, 512, SLOTS);
    let asked = ask_for_more(rt, heap);
    heap.free_all(rt, held);
    check(filled == Ok(SLOTS), "not all slots of the chunk")?;
    asked
}

// What was reserved is there. There are no more of the class, none of another, and none too large.
fn reserve<H: Heap, R: Wait>(rt: &R, heap: &mut H) -> Result<(), &'static str> {
    check(heap.reserve(rt, 512, SLOTS) == Ok(()), "not all slots")?;
    let ninth = heap.reserve(rt, 512, SLOTS + 1);
    check(ninth == Err(PoolError::UsedUp), "a ninth slot")?;
    let other = heap.reserve(rt, 16, 1);
    check(other == Err(PoolError::NoChunk), "a slot of no chunk")?;
    let large = heap.largest_size().saturating_add(1);
    let too_large = heap.reserve(rt, large, 0);
    check(too_large == Err(PoolError::TooLarge), "too large a slot")?;
    let mut parcel = parcel(heap, SLOTS)?;
    let filled = heap.fill(rt, &mut parcel, 512, SLOTS);
    heap.free_all(rt, parcel);
    check(filled == Ok(SLOTS), "a slot that isn't there")
}

// A parcel with a line in each buffer, and whether all lines are in it.
fn written<H: Heap, R: Wait + Clock>(
    rt: &R,
    heap: &mut H,
    lines: &[&[u8]],
) -> Result<(H::Parcel, bool), PoolError> {
    let mut parcel = heap.parcel(lines.len())?;
    let _lent = heap.fill_waiting(rt, &mut parcel, 512, lines.len())?;
    let mut are_all_in = true;
    for (at, line) in lines.iter().enumerate() {
        are_all_in &= parcel.extend_at(at, line).is_ok(); // too long, or no buffer was lent for it
    }
    Ok((parcel, are_all_in))
}

// What the buffer at this place is filled with.
fn holds<B: Bytes, P: Burst<B>>(parcel: &P, at: usize, want: &[u8]) -> Result<(), &'static str> {
    let buffer = parcel.buffers().get(at).ok_or("no buffer")?;
    check(buffer.data() == want, "another line")
}

// A line that is too long by a byte, or has no buffer, changes nothing. One that just fits is written.
fn extend<B: Bytes, P: Burst<B>>(parcel: &mut P) -> Result<(), &'static str> {
    holds(parcel, 0, b"GET /")?;
    holds(parcel, 1, b"")?;
    check(parcel.extend_at(2, b"none").is_err(), "a third buffer")?;
    check(parcel.extend_at(0, &[b'x'; 507]).is_ok(), "no room")?;
    check(parcel.extend_at(0, b"y").is_err(), "too much room")?;
    check(parcel.extend_at(0, b"").is_ok(), "no room for nothing")?;
    check(parcel.extend_at(1, &[b'z'; 513]).is_err(), "a long line")?;
    check(parcel.extend_at(1, &[b'z'; 512]).is_ok(), "no whole line")?;
    check(parcel.len() == 2, "another number of buffers")?;
    let first = parcel.buffers().get(0).ok_or("no buffer")?.data();
    check(
        first.starts_with(b"GET /x") && first.ends_with(b"x") && first.len() == 512,
        "another line",
    )?;
    holds(parcel, 1, &[b'z'; 512])
}

fn write<H: Heap, R: Wait + Clock>(rt: &R, heap: &mut H) -> Result<(), &'static str> {
    let lines: [&[u8]; 2] = [b"GET /", b""];
    let Ok((mut parcel, are_all_in)) = written(rt, heap, &lines) else {
        return Err("no parcel");
    };
    let extended = extend(&mut parcel);
    heap.free_all(rt, parcel);
    check(are_all_in, "a line is missing")?;
    extended
}

fn hand<H: Heap, R: Wait + Clock>(
    rt: &R,
    heap: &mut H,
    channels: &Channels<H::Buffer, H::Parcel>,
) -> Result<(), &'static str> {
    let mut first = parcel(heap, SLOTS)?;
    check(
        heap.fill_waiting(rt, &mut first, 512, SLOTS) == Ok(SLOTS),
        "not all slots",
    )?;
    if let Err(message) = channels.send_parcel(rt, heap, 1, first) {
        message.free(rt, heap);
        return Err("not handed over");
    }
    let mut second = parcel(heap, SLOTS)?;
    check(
        heap.fill_waiting(rt, &mut second, 512, SLOTS) == Ok(SLOTS),
        "not all came home",
    )?;
    heap.free_all(rt, second);
    Ok(())
}

fn free<H: Heap, R: Wait>(
    rt: &R,
    heap: &mut H,
    channels: &Channels<H::Buffer, H::Parcel>,
) -> Result<(), &'static str> {
    let Some(Message::Parcel(mut parcel)) = channels.receive(rt, heap) else {
        return Err("no parcel came");
    };
    let filled = heap.fill(rt, &mut parcel, 512, 1);
    let len = parcel.len();
    heap.free_all(rt, parcel);
    let _all = heap.flush(rt);
    check(
        filled == Ok(0) && len == SLOTS,
        "another allocator's parcel was filled",
    )
}

fn ground(inboxes: Inboxes, chunks: usize, desks: u16) -> Ground
    requires { (1 ≤ desks) × (desks ≤ 64) × (chunks ≤ 1024) }
    ensures { (result.chunks ≡ chunks) × (result.desks ≡ desks) × (result.limit ≡ 1024) }
{
    Ground {
        chunks,
        desks,
        width: 2,
        limit: 1_024,
        inboxes,
    }
}

// One task over a chunk: so many buffers are lent, and all are freed.
fn alone<R: AllocGlobal + Abort + Threads + Wait + Clock + Sync>(
    rt: &R,
    inboxes: Inboxes,
    act: Act,
    lent: u64,
) -> Result<(), Fail> {
    let tasks = vec![in rt.alloc(); act]?;
    let Outcome { answers, tally } = outcome_of(rt, ground(inboxes, 1, 1), tasks)?;
    assert_eq!(rt; answers.as_slice(), [Some(Ok(()))].as_slice());
    assert!(rt; tally.counts.allocated == lent && tally.counts.freed == lent);
    assert!(rt; tally.audit.is_ok());
    Ok(())
}

#[test]
fn a_fill_takes_what_there_is(rt: HostRuntime) -> Result<(), Fail> {
    for inboxes in BOTH {
        alone(&rt, inboxes, Act::Exhausts, 8)?;
    }
    Ok(())
}

// Refuses an allocator that waits for ever, and one that says so of a class whose slots are lent.
#[test]
fn nobody_waits_for_a_class_without_a_chunk(rt: HostRuntime) -> Result<(), Fail> {
    for inboxes in BOTH {
        alone(&rt, inboxes, Act::Misses, 8)?;
    }
    Ok(())
}

#[test]
fn what_is_reserved_is_there(rt: HostRuntime) -> Result<(), Fail> {
    for inboxes in BOTH {
        alone(&rt, inboxes, Act::Reserves, 24)?;
    }
    Ok(())
}

#[test]
fn a_line_is_written_where_it_fits(rt: HostRuntime) -> Result<(), Fail> {
    for inboxes in BOTH {
        alone(&rt, inboxes, Act::Writes, 2)?;
    }
    Ok(())
}

#[test]
fn a_parcel_is_not_overfilled(rt: HostRuntime) -> Result<(), Fail> {
    for inboxes in BOTH {
        alone(&rt, inboxes, Act::Overfills, 4)?;
    }
    Ok(())
}

#[test]
fn slots_are_lent_again_unfilled(rt: HostRuntime) -> Result<(), Fail> {
    for inboxes in BOTH {
        alone(&rt, inboxes, Act::Lends, 64)?;
    }
    Ok(())
}

#[test]
fn a_fill_waits_for_what_comes_home(rt: HostRuntime) -> Result<(), Fail> {
    for inboxes in BOTH {
        let tasks = vec![in rt.alloc(); Act::Hands, Act::Frees]?;
        let Outcome { answers, tally } = outcome_of(&rt, ground(inboxes, 1, 2), tasks)?;
        assert_eq!(rt; answers.as_slice(), [Some(Ok(())), Some(Ok(()))].as_slice());
        assert!(rt; tally.counts.allocated == 16 && tally.counts.freed == 16);
        assert!(rt; tally.audit.is_ok());
    }
    Ok(())
}
