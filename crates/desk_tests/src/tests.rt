//! What no contract says: which slot comes first, that calls succeed, and the rows of the tables.
//! Sizes and slots are those of the table of classes: class 15 has 8 slots of 512 bytes.
//!
//! Each test also holds where one allocation is refused: the call that meets it changes nothing,
//! and works when it is made again.
mod bursts;
mod bytes;
mod deep;
mod front;
mod given_back;
mod home;
mod listing;
mod no_memory;
mod parcels;
mod passing;
mod posting;
mod refusal;
mod room;
mod route;
mod spares;
mod whole;

use digit_route::{Batch, Digits};
use pool_desk::{Counts, Desk, DeskError, Freed, IdleDesk};
use region_cut::{CHUNK, Class, CutError, Part, Profile, cut};
use slot_chain::{Buf, Chain};
use std::alloc::Global;
use std::process::Abort;

// So many bytes. Where memory for them was refused, the next try works.
fn bytes_of(rt: &impl Abort, alloc: Global, len: usize, byte: u8) -> Vec<u8> {
    match Vec::from_elem(alloc, byte, len) {
        Ok(bytes) => bytes,
        Err(_) => Vec::from_elem(alloc, byte, len)
            .ok()
            .expect(rt, "memory is there again"),
    }
}

// A region of twice so many chunks: the second half is there for a second try to cut it.
fn region(rt: &impl Abort, alloc: Global, chunks: usize) -> Vec<u8> {
    bytes_of(rt, alloc, chunks.saturating_mul(2 * CHUNK), 0)
}

// The chunks of a region, or none where memory for the list of them was refused.
fn parts_or_not<'r>(rt: &impl Abort, alloc: Global, region: &'r mut [u8]) -> Option<Vec<Part<'r>>> {
    match cut(alloc, region) {
        Ok(parts) => Some(parts),
        Err(error) => {
            assert!(rt; error == CutError::NoMemory);
            None
        }
    }
}

// The chunks of a half of the region: of the second one where memory for the list of the first
// one's was refused.
fn parts<'r>(rt: &impl Abort, alloc: Global, region: &'r mut [u8]) -> Vec<Part<'r>> {
    let half = region.len() / 2;
    let (first, second) = region.split_at_mut(half);
    match parts_or_not(rt, alloc, first) {
        Some(parts) => parts,
        None => parts_or_not(rt, alloc, second).expect(rt, "memory is there again"),
    }
}

// A desk of the profile with 64 desks, with digits of 2 bits, held by worker 9.
fn desk<'r>(rt: &impl Abort, number: u16) -> Desk<'r> {
    let digits = Digits::new(2).expect(rt, "two bits");
    assert!(rt; number < 64);
    IdleDesk::new(number, digits, 4096).adopt(9)
}

fn class(number: u32) -> Class {
    Class::new(number).unwrap_or(Class::FIRST)
}

// The last of the chunks goes to the desk, or comes back.
fn claim_or_not<'r>(
    rt: &impl Abort,
    desk: &mut Desk<'r>,
    parts: &mut Vec<Part<'r>>,
    class: Class,
) -> Result<(), (Part<'r>, DeskError)> {
    let part = parts.pop().expect(rt, "a chunk");
    assert!(rt; class.number() < desk.digits().profile().classes());
    desk.claim(part, class)
}

fn claim<'r>(rt: &impl Abort, desk: &mut Desk<'r>, parts: &mut Vec<Part<'r>>, class: Class) {
    assert!(rt; claim_or_not(rt, desk, parts, class).is_ok());
}

fn alloc_from<'r>(alloc: Global, desk: &mut Desk<'r>, size: usize) -> Result<Buf<'r>, DeskError> {
    desk.alloc(alloc, size)
}

// How many slots are at home, and how many buffers in the cache.
fn counts(desk: &Desk<'_>) -> (u64, u64) {
    desk.counts()
}

// A want of memory leaves the desk as it was.
fn lend_or_not<'r>(
    rt: &impl Abort,
    alloc: Global,
    desk: &mut Desk<'r>,
    size: usize,
) -> Option<Buf<'r>> {
    let before = counts(desk);
    match alloc_from(alloc, desk, size) {
        Ok(buf) => Some(buf),
        Err(error) => {
            assert!(rt; error == DeskError::NoMemory);
            counts_are(rt, desk, before.0, before.1);
            None
        }
    }
}

// After a want of memory the next try works.
fn lend<'r>(rt: &impl Abort, alloc: Global, desk: &mut Desk<'r>, size: usize) -> Buf<'r> {
    if let Some(buf) = lend_or_not(rt, alloc, desk, size) {
        return buf;
    }
    lend_or_not(rt, alloc, desk, size).expect(rt, "memory is there again")
}

// So many buffers are lent, for this many bytes each.
fn lend_some<'r>(
    rt: &impl Abort,
    alloc: Global,
    desk: &mut Desk<'r>,
    size: usize,
    count: u32,
    lent: &mut Chain<'r>,
) {
    for _ in 0..count {
        lent.push(lend(rt, alloc, desk, size));
    }
}

fn free<'r>(rt: &impl Abort, desk: &mut Desk<'r>, buf: Buf<'r>) -> Freed {
    let _number = desk.number();
    match desk.digits().profile() {
        Profile::Pool => assert!(rt; buf.owner() < 64),
        Profile::Pool2 => assert!(rt; buf.owner() < 4096),
    }
    desk.free(buf)
}

// What becomes of a freed buffer.
fn free_is<'r>(rt: &impl Abort, desk: &mut Desk<'r>, buf: Buf<'r>, want: Freed) {
    assert!(rt; free(rt, desk, buf) == want);
}

// So many slots are at home, and so many buffers in the cache.
fn counts_are(rt: &impl Abort, desk: &Desk<'_>, home: u64, cached: u64) {
    let counts = counts(desk);
    assert!(rt; counts.0 == home);
    assert!(rt; counts.1 == cached);
}

// Where the cache is empty.
fn retired<'r>(rt: &impl Abort, desk: Desk<'r>) -> IdleDesk<'r> {
    desk.retire().ok().expect(rt, "the cache is empty")
}

// A batch comes to its address.
fn handle<'r>(rt: &impl Abort, desk: &mut Desk<'r>, batch: Batch<'r>) -> Counts {
    assert!(rt; batch.address() == desk.number());
    assert!(rt; batch.digits() == desk.digits());
    desk.handle(batch)
}

// One buffer comes home, and none goes on.
fn comes_home<'r>(rt: &impl Abort, owner: &mut Desk<'r>, batch: Batch<'r>) {
    let counts = handle(rt, owner, batch);
    assert!(rt; counts.home == 1 && counts.on == 0);
}

// Its next batch goes to the owner.
fn goes_home<'r>(rt: &impl Abort, desk: &mut Desk<'r>, owner: &mut Desk<'r>) {
    let batch = desk.next_batch().expect(rt, "one goes home");
    comes_home(rt, owner, batch);
}

// What is played on two desks, of which some plays use the first alone.
#[derive(Clone, Copy)]
enum Play {
    Writes,
    FreesAll,
    Gives,
    GivesAll,
    Fills,
    Keeps,
    Refuses,
    GivesLarge,
    GoesRound,
    Packs,
    PacksAnothers,
    FillsAtOnce,
    Bursts,
    BurstsLinked,
    KeepsArrays,
    PassesOver,
    LendsAgain,
    LendsAnothersAgain,
    TakesApart,
}

// Each plays on desks, chunks and a list of buffers that `hold` has.
fn run<'r>(
    rt: &impl Abort,
    alloc: Global,
    play: Play,
    desk: &mut Desk<'r>,
    other: &mut Desk<'r>,
    parts: &mut Vec<Part<'r>>,
    lent: &mut Chain<'r>,
) {
    match play {
        Play::Writes => bytes::writes(rt, alloc, desk, parts, lent),
        Play::FreesAll => deep::frees_all(rt, alloc, desk, other, parts, lent),
        Play::Gives => home::gives(rt, alloc, desk, parts),
        Play::GivesAll => home::gives_all(rt, alloc, desk, parts, lent),
        Play::Fills => home::fills_two(rt, alloc, desk, other, parts),
        Play::Keeps => listing::keeps(rt, alloc, desk, other, parts, lent),
        Play::Refuses => refusal::refuses(rt, alloc, desk, parts),
        Play::GivesLarge => refusal::gives_large(rt, alloc, desk, parts),
        Play::GoesRound => room::goes_round(rt, alloc, desk, other, parts, lent),
        Play::Packs => parcels::packs(rt, alloc, desk, parts, lent),
        Play::PacksAnothers => parcels::packs_anothers(rt, alloc, desk, other, parts, lent),
        Play::FillsAtOnce => parcels::fills_at_once(rt, alloc, desk, other, parts),
        Play::Bursts => bursts::bursts(rt, alloc, desk, other, parts, lent),
        Play::BurstsLinked => bursts::bursts_linked(rt, alloc, desk, other, parts, lent),
        Play::KeepsArrays => spares::keeps_arrays(rt, alloc, desk, other, parts),
        Play::PassesOver => spares::passes_over(rt, alloc, desk, parts),
        Play::LendsAgain => whole::lends_again(rt, alloc, desk, parts),
        Play::LendsAnothersAgain => whole::lends_anothers_again(rt, alloc, desk, other, parts),
        Play::TakesApart => whole::takes_apart(rt, alloc, desk, parts, lent),
    }
}

fn hold<'r>(
    rt: &impl Abort,
    alloc: Global,
    what: Play,
    mut desk: Desk<'r>,
    mut other: Desk<'r>,
    mut parts: Vec<Part<'r>>,
) {
    let mut lent = Chain::new();
    run(
        rt, alloc, what, &mut desk, &mut other, &mut parts, &mut lent,
    );
}

// Two desks of these numbers, and so many chunks.
fn plays(rt: &impl Abort, alloc: Global, what: Play, numbers: (u16, u16), chunks: usize) {
    let mut region = region(rt, alloc, chunks);
    let parts = parts(rt, alloc, &mut region);
    hold(
        rt,
        alloc,
        what,
        desk(rt, numbers.0),
        desk(rt, numbers.1),
        parts,
    );
}
