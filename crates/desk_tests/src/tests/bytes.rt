//! What is written through a desk's buffers is what the region holds when its borrow ends, also
//! where a class went on to a second chunk.
use super::{
    Play, bytes_of, claim, class, counts_are, desk, free_is, hold, lend_some, parts_or_not,
};
use desk_uses::lives;
use pool_desk::{Desk, Freed};
use region_cut::{CHUNK, Part};
use slot_chain::{Buf, Chain};
use std::alloc::Global;
use std::process::Abort;

// The byte tells the slot: its place, and 100 more in chunk 1.
fn write(rt: &impl Abort, buf: &mut Buf<'_>) {
    let slot = buf.slot();
    let byte = if slot.chunk == 0 { 0 } else { 100 };
    assert!(rt; slot.index < 12);
    buf.bytes_mut().fill(byte + slot.index as u8);
}

fn write_some<'r>(rt: &impl Abort, desk: &mut Desk<'r>, count: u32, lent: &mut Chain<'r>) {
    for _ in 0..count {
        let mut buf = lent.pop().expect(rt, "one is lent");
        write(rt, &mut buf);
        free_is(rt, desk, buf, Freed::Home);
    }
}

// Class 12 has 12 slots of 320 bytes, and 256 bytes at a chunk's end that are in no slot. All slots
// of two chunks are lent, and then written.
pub(crate) fn writes<'r>(
    rt: &impl Abort,
    alloc: Global,
    desk: &mut Desk<'r>,
    parts: &mut Vec<Part<'r>>,
    lent: &mut Chain<'r>,
) {
    claim(rt, desk, parts, class(12));
    lend_some(rt, alloc, desk, 300, 12, lent);
    claim(rt, desk, parts, class(12));
    lend_some(rt, alloc, desk, 300, 12, lent);
    write_some(rt, desk, 24, lent);
    counts_are(rt, desk, 24, 0);
}

// Nothing is written where memory was refused.
fn write_region(rt: &impl Abort, alloc: Global, region: &mut [u8]) -> bool {
    match parts_or_not(rt, alloc, region) {
        Some(parts) => {
            hold(rt, alloc, Play::Writes, desk(rt, 3), desk(rt, 0), parts);
            true
        }
        None => false,
    }
}

fn holds(rt: &impl Abort, region: &[u8], place: usize, want: u8) {
    match region.get(place) {
        Some(byte) => assert!(rt; *byte == want, "byte {place}"),
        None => panic!(rt; "no byte {place}"),
    }
}

// Chunk 1 is the first that the desk claimed.
fn check(rt: &impl Abort, region: &[u8]) {
    holds(rt, region, 0, 0);
    holds(rt, region, 319, 0);
    holds(rt, region, 320, 1);
    holds(rt, region, 3839, 11);
    holds(rt, region, 3840, 201);
    holds(rt, region, 4095, 201);
    holds(rt, region, 4096, 100);
    holds(rt, region, 7935, 111);
    holds(rt, region, 7936, 201);
    holds(rt, region, 8191, 201);
}

#[test]
fn writes_reach_the_region(rt: HostRuntime) {
    let alloc = rt.alloc();
    let mut region = bytes_of(&rt, alloc, 2 * CHUNK, 201);
    if write_region(&rt, alloc, &mut region) {
        check(&rt, &region);
    }
}

// The bytes behind the slot that was filled stay. Where memory was refused, all do.
fn lives_once(rt: &impl Abort, alloc: Global) {
    let mut region = bytes_of(rt, alloc, CHUNK, 201);
    assert!(rt; region.len() == CHUNK);
    let (is_filled, endings) = lives(alloc, &mut region, 7);
    drop(endings);
    let front = if is_filled { 7 } else { 201 };
    holds(rt, &region, 0, front);
    holds(rt, &region, 15, front);
    holds(rt, &region, 16, 201);
    holds(rt, &region, 4095, 201);
}

#[test]
fn a_desks_life_fills_the_front(rt: HostRuntime) {
    lives_once(&rt, rt.alloc());
}
