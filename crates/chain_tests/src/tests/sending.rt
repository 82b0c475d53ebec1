//! Lists for other threads: what an array names, and what is linked behind it.
use crate::tests::order::chains;
use crate::tests::{filled, same};
use chain_uses::turned;
use region_cut::{CHUNK, Slot, class_for};
use slot_chain::{Magazine, NoMemory};
use std::alloc::Global;
use std::process::Abort;

// Eight slots of the chunk, from the first to the last.
fn from_first(alloc: Global, chunk: u16) -> Result<Vec<Slot>, NoMemory> {
    let mut slots = Vec::new(alloc);
    for index in [0, 1, 2, 3, 4, 5, 6, 7] {
        slots.push(Slot { chunk, index })?;
    }
    Ok(slots)
}

// The list shows and gives the slots of the chunk, from the first to the last.
fn check_list(
    rt: &impl Abort,
    alloc: Global,
    mut list: Magazine<'_>,
    chunk: u16,
) -> Result<(), NoMemory> {
    same(rt, "the slots", list.len(), 8);
    same(rt, "the bytes", list.bytes_total(), 4096);
    let want = from_first(alloc, chunk)?;
    let mut shown = Vec::new(alloc);
    list.list_slots(&mut shown)?;
    assert_eq!(rt; shown.as_slice(), want.as_slice());
    for slot in want {
        let buf = list.pop().expect(rt, "a buffer");
        assert_eq!(rt; buf.slot(), slot);
    }
    assert!(rt; list.is_empty());
    Ok(())
}

fn send_both(rt: &impl Abort, alloc: Global) -> Result<(), NoMemory> {
    let mut region = Vec::from_elem(alloc, 0u8, 2 * CHUNK)?;
    let (first, second) = chains(rt, alloc, &mut region)?;
    check_list(rt, alloc, turned(alloc, first), 0)?;
    check_list(rt, alloc, turned(alloc, second), 1)
}

#[test]
fn a_list_to_another_keeps_its_order(rt: HostRuntime) {
    if send_both(&rt, rt.alloc()).is_err() {
        assert!(rt; send_both(&rt, rt.alloc()).is_ok());
    }
}

// The slots of a chunk of 256 come from the first to the last.
fn take_all(rt: &impl Abort, list: &mut Magazine<'_>) {
    same(rt, "the slots", list.len(), 256);
    for index in 0..256 {
        let buf = list.pop().expect(rt, "a buffer");
        same(rt, "the index", u64::from(buf.slot().index), index);
    }
    assert!(rt; list.pop().is_none());
}

// More than the array has places for: the rest is linked.
fn take_linked(rt: &impl Abort, alloc: Global) -> Result<(), NoMemory> {
    let class = class_for(16).expect(rt, "a class of 16 bytes");
    let mut region = Vec::from_elem(alloc, 0u8, CHUNK)?;
    let mut list = turned(alloc, filled(alloc, &mut region, class, 1)?);
    take_all(rt, &mut list);
    Ok(())
}

#[test]
fn what_is_linked_comes_first(rt: HostRuntime) {
    if take_linked(&rt, rt.alloc()).is_err() {
        assert!(rt; take_linked(&rt, rt.alloc()).is_ok());
    }
}

// So many buffers at most go from the end of one list to that of another, the other way round.
fn turn_over<'r>(from: &mut Magazine<'r>, to: &mut Magazine<'r>, most: u32) {
    for _ in 0..most {
        if let Some(buf) = from.pop() {
            to.push(buf);
        }
    }
}

// A list is taken out whole, and leaves an empty one, with room, that is filled again.
fn take_whole(rt: &impl Abort, alloc: Global) -> Result<(), NoMemory> {
    let class = class_for(16).expect(rt, "a class of 16 bytes");
    let mut region = Vec::from_elem(alloc, 0u8, CHUNK)?;
    let mut list = turned(alloc, filled(alloc, &mut region, class, 1)?);
    for _turn in 0..3 {
        let mut taken = list.take();
        assert!(rt; list.is_empty());
        list.make_room(alloc);
        let mut other = Magazine::new();
        turn_over(&mut taken, &mut other, 256);
        turn_over(&mut other, &mut list, 256);
    }
    take_all(rt, &mut list);
    Ok(())
}

#[test]
fn a_list_is_taken_and_filled_again(rt: HostRuntime) {
    if take_whole(&rt, rt.alloc()).is_err() {
        assert!(rt; take_whole(&rt, rt.alloc()).is_ok());
    }
}

fn drop_long(rt: &impl Abort, alloc: Global) -> Result<(), NoMemory> {
    let class = class_for(16).expect(rt, "a class of 16 bytes");
    let mut region = Vec::from_elem(alloc, 0u8, 400 * CHUNK)?;
    let list = turned(alloc, filled(alloc, &mut region, class, 1)?);
    same(rt, "the slots", list.len(), 102_400);
    drop(list);
    Ok(())
}

#[test]
fn a_long_list_to_another_takes_no_depth(rt: HostRuntime) {
    if drop_long(&rt, rt.alloc()).is_err() {
        assert!(rt; drop_long(&rt, rt.alloc()).is_ok());
    }
}
