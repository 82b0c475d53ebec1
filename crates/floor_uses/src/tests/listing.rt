//! The lists of slots. One that was refused is asked for again.
use super::{Row, asks, on_floor, pool, slot};
use event_floor::{Floor, Reply, Request};
use region_cut::Slot;
use slot_chain::NoMemory;
use std::alloc::Global;
use std::process::Abort;

fn there(rt: &impl Abort, slots: Result<Vec<Slot>, NoMemory>) -> Vec<Slot> {
    slots.ok().expect(rt, "memory is there again")
}

fn lent_of(rt: &impl Abort, alloc: Global, floor: &Floor<'_>) -> Vec<Slot> {
    match floor.lent(alloc) {
        Ok(slots) => slots,
        Err(_) => there(rt, floor.lent(alloc)),
    }
}

fn queued_of(rt: &impl Abort, alloc: Global, floor: &Floor<'_>, desk: u32) -> Vec<Slot> {
    assert!(rt; desk < floor.desk_count());
    match floor.queued(alloc, desk) {
        Ok(slots) => slots,
        Err(_) => there(rt, floor.queued(alloc, desk)),
    }
}

fn home_of(rt: &impl Abort, alloc: Global, floor: &Floor<'_>, desk: u32) -> Vec<Slot> {
    assert!(rt; desk < floor.desk_count());
    match floor.home(alloc, desk) {
        Ok(slots) => slots,
        Err(_) => there(rt, floor.home(alloc, desk)),
    }
}

fn cached_of(rt: &impl Abort, alloc: Global, floor: &Floor<'_>, desk: u32) -> Vec<Slot> {
    assert!(rt; desk < floor.desk_count());
    match floor.cached(alloc, desk) {
        Ok(slots) => slots,
        Err(_) => there(rt, floor.cached(alloc, desk)),
    }
}

fn is_at(rt: &impl Abort, slot: Slot, chunk: u16, index: u16) {
    assert!(rt; slot == Slot { chunk, index }, "{chunk}.{index}");
}

// The slots are these, in whatever order.
fn are(rt: &impl Abort, slots: Vec<Slot>, due: &[(u16, u16)]) {
    let mut slots = slots;
    if slots.sort().is_err() {
        assert!(rt; slots.sort().is_ok());
    }
    assert!(rt; slots.len() == due.len());
    for (slot, place) in slots.iter().zip(due) {
        is_at(rt, *slot, place.0, place.1);
    }
}

#[test]
fn lent_and_queued(rt: HostRuntime) {
    const ROWS: [Row; 10] = [
        (Request::Adopt(0, 0), Ok(Reply::Done)),
        (Request::Adopt(1, 1), Ok(Reply::Done)),
        (Request::Claim(1, 15), Ok(Reply::Chunk(0))),
        (Request::Alloc(1, 512), slot!(0, 0)),
        (Request::Alloc(1, 512), slot!(0, 1)),
        (Request::Alloc(1, 512), slot!(0, 2)),
        (Request::Alloc(1, 512), slot!(0, 3)),
        (Request::Free(0, (0, 2)), Ok(Reply::Cached)),
        (Request::Free(0, (0, 0)), Ok(Reply::Cached)),
        (Request::Send(0, 1), Ok(Reply::Batch(1, 2))),
    ];
    on_floor(&rt, rt.alloc(), pool(2, 2, 2), |floor| {
        asks(&rt, rt.alloc(), floor, &ROWS);
        are(&rt, lent_of(&rt, rt.alloc(), floor), &[(0, 1), (0, 3)]);
        are(&rt, queued_of(&rt, rt.alloc(), floor, 1), &[(0, 0), (0, 2)]);
        are(&rt, queued_of(&rt, rt.alloc(), floor, 0), &[]);
    });
}

#[test]
fn home_and_cached(rt: HostRuntime) {
    const ROWS: [Row; 7] = [
        (Request::Adopt(0, 0), Ok(Reply::Done)),
        (Request::Adopt(1, 1), Ok(Reply::Done)),
        (Request::Claim(1, 15), Ok(Reply::Chunk(0))),
        (Request::Alloc(1, 512), slot!(0, 0)),
        (Request::Alloc(1, 512), slot!(0, 1)),
        (Request::Free(0, (0, 1)), Ok(Reply::Cached)),
        (Request::Retire(1), Ok(Reply::Done)),
    ];
    const HOME: [(u16, u16); 6] = [(0, 2), (0, 3), (0, 4), (0, 5), (0, 6), (0, 7)];
    on_floor(&rt, rt.alloc(), pool(2, 1, 2), |floor| {
        asks(&rt, rt.alloc(), floor, &ROWS);
        are(&rt, cached_of(&rt, rt.alloc(), floor, 0), &[(0, 1)]);
        are(&rt, home_of(&rt, rt.alloc(), floor, 0), &[]);
        are(&rt, home_of(&rt, rt.alloc(), floor, 1), &HOME);
        are(&rt, cached_of(&rt, rt.alloc(), floor, 1), &[]);
    });
}
