//! Stacks: in which order their buffers come out, and what room they have. No clause says it.
use crate::tests::{filled, same};
use region_cut::{CHUNK, class_for};
use slot_chain::{NoMemory, Stack};
use std::alloc::Global;
use std::process::Abort;

// For how many buffers there is a place.
const PLACES: usize = 100;

// A stack with room for some pointers, in which the 256 buffers of a region of one chunk were stored, the last slot
// first.
pub(super) fn stacked<'r>(
    rt: &impl Abort,
    alloc: Global,
    region: &'r mut [u8],
) -> Result<Stack<'r>, NoMemory> {
    let class = class_for(16).expect(rt, "a class of 16 bytes");
    let chain = filled(alloc, region, class, 1)?;
    let mut stack = Stack::new();
    stack.make_room(alloc, PLACES);
    for buf in chain {
        stack.store(buf);
    }
    Ok(stack)
}

// The buffers of these slots come out, one after the other.
fn pops(rt: &impl Abort, stack: &mut Stack<'_>, first: u16, end: u16) {
    for index in first..end {
        let buf = stack.pop().expect(rt, "a buffer");
        same(rt, "its slot", buf.slot().index as u64, index as u64);
    }
}

// What the array names comes out first, then what found no place there, and of each the last before the others.
fn in_turn(rt: &impl Abort, alloc: Global) -> Result<(), NoMemory> {
    let mut region = Vec::from_elem(alloc, 0u8, CHUNK)?;
    let mut stack = stacked(rt, alloc, &mut region)?;
    if stack.places() < PLACES {
        return Err(NoMemory);
    }
    same(rt, "the buffers", stack.len(), 256);
    pops(rt, &mut stack, 156, 256);
    pops(rt, &mut stack, 0, 156);
    assert!(rt; stack.is_empty() && stack.pop().is_none());
    Ok(())
}

#[test]
fn the_last_comes_out_first(rt: HostRuntime) {
    if in_turn(&rt, rt.alloc()).is_err() {
        assert!(rt; in_turn(&rt, rt.alloc()).is_ok());
    }
}

// What was stored comes out before what was pushed later.
fn named_first(rt: &impl Abort, alloc: Global) -> Result<(), NoMemory> {
    let mut region = Vec::from_elem(alloc, 0u8, CHUNK)?;
    let mut stack = stacked(rt, alloc, &mut region)?;
    if stack.places() < PLACES {
        return Err(NoMemory);
    }
    pops(rt, &mut stack, 156, 256);
    let first = stack.pop().expect(rt, "a buffer");
    let second = stack.pop().expect(rt, "another");
    stack.store(second);
    stack.push(first);
    pops(rt, &mut stack, 1, 2);
    pops(rt, &mut stack, 0, 1);
    pops(rt, &mut stack, 2, 156);
    assert!(rt; stack.is_empty());
    Ok(())
}

#[test]
fn what_is_named_comes_first(rt: HostRuntime) {
    if named_first(&rt, rt.alloc()).is_err() {
        assert!(rt; named_first(&rt, rt.alloc()).is_ok());
    }
}

// Room is made where there is less and the array names none.
fn room(rt: &impl Abort, alloc: Global) -> Result<(), NoMemory> {
    let mut region = Vec::from_elem(alloc, 0u8, CHUNK)?;
    let mut full = stacked(rt, alloc, &mut region)?;
    let before = full.places();
    full.make_room(alloc, 2 * PLACES);
    same(
        rt,
        "the places of a full one",
        full.places() as u64,
        before as u64,
    );
    let mut stack = Stack::new();
    same(rt, "the places of a new one", stack.places() as u64, 0);
    stack.make_room(alloc, 2 * PLACES);
    if stack.places() == 0 {
        return Err(NoMemory);
    }
    stack.make_room(alloc, PLACES);
    same(rt, "the places that were made", stack.places() as u64, 200);
    Ok(())
}

#[test]
fn room_is_made_where_there_is_less(rt: HostRuntime) {
    if room(&rt, rt.alloc()).is_err() {
        assert!(rt; room(&rt, rt.alloc()).is_ok());
    }
}
