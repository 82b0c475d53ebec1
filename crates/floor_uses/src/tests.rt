//! What no contract says: which slot comes next, that requests succeed where there is memory, and runs whose answers
//! are known from outside. Class 0 has 256 slots of 16 bytes, class 2 has 85 of 48, class 15 has 8 of 512.
use crate::{ask, open};
use digit_route::Digits;
use event_floor::{Floor, Refusal, Reply, Request};
use region_cut::{CHUNK, Profile};
use std::alloc::Global;
use std::process::Abort;

mod ending;
mod inboxes;
mod lending;
mod limits;
mod listing;
mod profiles;
mod refused;
mod routing;

type Answer = Result<Reply, Refusal>;

/// A request, and the answer that is due.
type Row = (Request, Answer);

// The answer that lends this slot of a chunk.
macro_rules! slot {
    ($chunk:expr, $index:expr) => {
        Ok(Reply::Slot(region_cut::Slot {
            chunk: $chunk,
            index: $index,
        }))
    };
}

use slot;

/// A desk's number, and how many slots it has at home, in its cache and in its inbox.
type Closing = (u32, u64, u64, u64);

/// How a floor is made: the profile, so many desks and chunks, digits of so many bits, and the limit of a cache in
/// bytes.
#[derive(Clone, Copy)]
struct Made {
    profile: Profile,
    desks: u32,
    chunks: usize,
    width: u32,
    limit: u64,
}

fn pool(desks: u32, chunks: usize, width: u32) -> Made {
    Made {
        profile: Profile::Pool,
        desks,
        chunks,
        width,
        limit: 4096,
    }
}

fn pool2(desks: u32, chunks: usize, width: u32) -> Made {
    Made {
        profile: Profile::Pool2,
        desks,
        chunks,
        width,
        limit: 4096,
    }
}

fn is_answer(rt: &impl Abort, answer: Answer, row: Row) {
    assert!(rt; answer == row.1, "{:?}", row.0);
}

fn answers(rt: &impl Abort, alloc: Global, floor: &mut Floor<'_>, row: Row) {
    let answer = ask(alloc, floor, row.0);
    is_answer(rt, answer, row);
}

fn asks(rt: &impl Abort, alloc: Global, floor: &mut Floor<'_>, rows: &[Row]) {
    for row in rows {
        answers(rt, alloc, floor, *row);
    }
}

fn counts_of(rt: &impl Abort, floor: &Floor<'_>, desk: u32) -> (u64, u64, u64) {
    assert!(rt; desk < floor.desk_count());
    floor.counts(desk)
}

fn counts_are(rt: &impl Abort, floor: &Floor<'_>, due: Closing) {
    let (desk, home, cached, queued) = due;
    assert!(rt;
        counts_of(rt, floor, desk) == (home, cached, queued),
        "at desk {desk}"
    );
}

// What all desks have together.
fn sums(rt: &impl Abort, floor: &Floor<'_>) -> (u64, u64, u64) {
    let mut sums = (0u64, 0u64, 0u64);
    for desk in 0..floor.desk_count() {
        let counts = counts_of(rt, floor, desk);
        sums.0 = sums.0.saturating_add(counts.0);
        sums.1 = sums.1.saturating_add(counts.1);
        sums.2 = sums.2.saturating_add(counts.2);
    }
    sums
}

fn sums_of(closings: &[Closing]) -> (u64, u64, u64) {
    let mut sums = (0u64, 0u64, 0u64);
    for closing in closings {
        sums.0 = sums.0.saturating_add(closing.1);
        sums.1 = sums.1.saturating_add(closing.2);
        sums.2 = sums.2.saturating_add(closing.3);
    }
    sums
}

// So many desks, chunks that are drawn and buffers that are lent. These desks have so many slots, and no other has one.
fn closes(rt: &impl Abort, floor: &Floor<'_>, desks: u32, due: &[Closing], end: (u64, u64)) {
    assert!(rt; floor.desk_count() == desks);
    assert!(rt; (floor.drawn_count(), floor.lent_count()) == end);
    for closing in due {
        counts_are(rt, floor, *closing);
    }
    assert!(rt; sums(rt, floor) == sums_of(due));
}

fn digits_of(rt: &impl Abort, made: Made) -> Digits {
    let digits = match made.profile {
        Profile::Pool => Digits::new(made.width),
        Profile::Pool2 => Digits::new2(made.width),
    };
    digits.expect(rt, "digits of so many bits")
}

// So many bytes. Where memory for them was refused, the next try works.
fn bytes_of(rt: &impl Abort, alloc: Global, len: usize, byte: u8) -> Vec<u8> {
    match Vec::from_elem(alloc, byte, len) {
        Ok(bytes) => bytes,
        Err(_) => Vec::from_elem(alloc, byte, len)
            .ok()
            .expect(rt, "memory is there again"),
    }
}

// A floor over the region, or none where memory was refused.
fn open_as<'r>(
    rt: &impl Abort,
    alloc: Global,
    region: &'r mut [u8],
    made: Made,
) -> Option<Floor<'r>> {
    let digits = digits_of(rt, made);
    assert!(rt; made.desks >= 1 && made.desks <= 1 << digits.profile().bits());
    assert!(rt; made.limit <= 1_048_576);
    open(alloc, region, made.desks, digits, made.limit)
}

// Plays on a new floor. Where memory for it was refused, there is a second region for the next try, which works.
fn on_floor<R, F: FnOnce(&mut Floor<'_>) -> R>(
    rt: &impl Abort,
    alloc: Global,
    made: Made,
    play: F,
) -> R
    requires { F.IsAlwaysCallable play }
{
    let mut first = bytes_of(rt, alloc, made.chunks.saturating_mul(CHUNK), 0);
    let mut second = bytes_of(rt, alloc, made.chunks.saturating_mul(CHUNK), 0);
    let floor = match open_as(rt, alloc, &mut first, made) {
        Some(floor) => Some(floor),
        None => open_as(rt, alloc, &mut second, made),
    };
    let mut floor = floor.expect(rt, "memory is there again");
    play(&mut floor)
}

// Asks a new floor, and looks at what it has in the end.
fn plays(
    rt: &impl Abort,
    alloc: Global,
    made: Made,
    rows: &[Row],
    left: &[Closing],
    end: (u64, u64),
) {
    on_floor(rt, alloc, made, |floor| {
        asks(rt, alloc, floor, rows);
        closes(rt, floor, made.desks, left, end);
    });
}

// Its text, also where memory for that is refused once.
fn is_printed(rt: &impl Abort, alloc: Global, refusal: Refusal, text: &str) {
    let printed = match format!(in alloc; "{refusal}") {
        Ok(printed) => printed,
        Err(_) => format!(in alloc; "{refusal}").expect(rt, "memory is there again"),
    };
    assert!(rt; printed.as_str() == text, "{text}");
}

fn is_named(rt: &impl Abort, refusal: Refusal, number: u32, name: &str) {
    assert!(rt; refusal.number() == number);
    assert!(rt; refusal.name() == name);
}

#[test]
fn refusals_have_numbers_names_and_texts(rt: HostRuntime) {
    for (refusal, number, name, text) in [
        (Refusal::NoDesk, 1, "NoDesk", "R01 NoDesk"),
        (Refusal::Idle, 2, "Idle", "R02 Idle"),
        (Refusal::TooLarge, 3, "TooLarge", "R03 TooLarge"),
        (Refusal::NeedChunk, 4, "NeedChunk", "R04 NeedChunk"),
        (Refusal::NotNeeded, 5, "NotNeeded", "R05 NotNeeded"),
        (Refusal::NoChunk, 6, "NoChunk", "R06 NoChunk"),
        (Refusal::NotLent, 7, "NotLent", "R07 NotLent"),
        (Refusal::NothingFor, 8, "NothingFor", "R08 NothingFor"),
        (Refusal::NotAnOwner, 9, "NotAnOwner", "R09 NotAnOwner"),
        (Refusal::ToSelf, 10, "ToSelf", "R10 ToSelf"),
        (Refusal::NoBatch, 11, "NoBatch", "R11 NoBatch"),
        (Refusal::Nothing, 12, "Nothing", "R12 Nothing"),
        (Refusal::Unsettled, 13, "Unsettled", "R13 Unsettled"),
        (Refusal::Held, 14, "Held", "R14 Held"),
        (Refusal::NoMemory, 15, "NoMemory", "R15 NoMemory"),
        (Refusal::BadClass, 16, "BadClass", "R16 BadClass"),
        (Refusal::Spent, 18, "Spent", "R18 Spent"),
    ] {
        is_named(&rt, refusal, number, name);
        is_printed(&rt, rt.alloc(), refusal, text);
    }
}
