//! Claims, allocations and frees.
use super::{Row, answers, asks, closes, on_floor, plays, pool, slot};
use digit_route::Digits;
use event_floor::{Floor, Refusal, Reply, Request};
use region_cut::Class;
use std::alloc::Global;
use std::process::Abort;

#[test]
fn a_buffer_goes_out_and_home(rt: HostRuntime) {
    const ROWS: [Row; 4] = [
        (Request::Adopt(0, 5), Ok(Reply::Done)),
        (Request::Claim(0, 0), Ok(Reply::Chunk(0))),
        (Request::Alloc(0, 16), slot!(0, 0)),
        (Request::Free(0, (0, 0)), Ok(Reply::Home)),
    ];
    plays(
        &rt,
        rt.alloc(),
        pool(1, 1, 2),
        &ROWS,
        &[(0, 256, 0, 0)],
        (1, 0),
    );
}

#[test]
fn sizes_choose_classes(rt: HostRuntime) {
    const ROWS: [Row; 7] = [
        (Request::Adopt(0, 0), Ok(Reply::Done)),
        (Request::Alloc(0, 0), Err(Refusal::NeedChunk)),
        (Request::Claim(0, 0), Ok(Reply::Chunk(0))),
        (Request::Claim(0, 15), Ok(Reply::Chunk(1))),
        (Request::Alloc(0, 0), slot!(0, 0)),
        (Request::Alloc(0, 512), slot!(1, 0)),
        (Request::Alloc(0, 513), Err(Refusal::TooLarge)),
    ];
    plays(
        &rt,
        rt.alloc(),
        pool(1, 2, 2),
        &ROWS,
        &[(0, 262, 0, 0)],
        (2, 2),
    );
}

// Lends so many slots of chunk 0, from the first on.
fn lends_all(
    rt: &impl Abort,
    alloc: Global,
    floor: &mut Floor<'_>,
    desk: u32,
    size: u32,
    count: u16,
) {
    for index in 0..count {
        answers(
            rt,
            alloc,
            floor,
            (Request::Alloc(desk, size), slot!(0, index)),
        );
    }
}

#[test]
fn a_chunk_has_its_slots_and_no_more(rt: HostRuntime) {
    const ROWS: [Row; 2] = [
        (Request::Adopt(0, 0), Ok(Reply::Done)),
        (Request::Claim(0, 2), Ok(Reply::Chunk(0))),
    ];
    const ONE_MORE: Row = (Request::Alloc(0, 48), Err(Refusal::NeedChunk));
    on_floor(&rt, rt.alloc(), pool(1, 1, 2), |floor| {
        asks(&rt, rt.alloc(), floor, &ROWS);
        lends_all(&rt, rt.alloc(), floor, 0, 48, 85);
        answers(&rt, rt.alloc(), floor, ONE_MORE);
        closes(&rt, floor, 1, &[], (1, 85));
    });
}

#[test]
fn refusals_come_in_their_order(rt: HostRuntime) {
    const ROWS: [Row; 14] = [
        (Request::Claim(0, 16), Err(Refusal::Idle)),
        (Request::Alloc(0, 513), Err(Refusal::Idle)),
        (Request::Free(0, (0, 0)), Err(Refusal::Idle)),
        (Request::Adopt(0, 0), Ok(Reply::Done)),
        (Request::Adopt(0, 1), Err(Refusal::Held)),
        (Request::Claim(0, 15), Ok(Reply::Chunk(0))),
        (Request::Claim(0, 15), Err(Refusal::NotNeeded)),
        (Request::Claim(0, 14), Err(Refusal::NoChunk)),
        (Request::Claim(0, 16), Err(Refusal::BadClass)),
        (Request::Claim(1, 0), Err(Refusal::NoDesk)),
        (Request::Free(1, (0, 0)), Err(Refusal::NoDesk)),
        (Request::Free(0, (0, 8)), Err(Refusal::NotLent)),
        (Request::Free(0, (0, 256)), Err(Refusal::NotLent)),
        (
            Request::Free(0, (4_294_967_295, 4_294_967_295)),
            Err(Refusal::NotLent),
        ),
    ];
    plays(
        &rt,
        rt.alloc(),
        pool(1, 1, 2),
        &ROWS,
        &[(0, 8, 0, 0)],
        (1, 0),
    );
}

#[test]
fn the_last_freed_goes_first(rt: HostRuntime) {
    const ROWS: [Row; 10] = [
        (Request::Adopt(1, 7), Ok(Reply::Done)),
        (Request::Claim(1, 15), Ok(Reply::Chunk(0))),
        (Request::Alloc(1, 449), slot!(0, 0)),
        (Request::Alloc(1, 512), slot!(0, 1)),
        (Request::Free(1, (0, 1)), Ok(Reply::Home)),
        (Request::Free(1, (0, 1)), Err(Refusal::NotLent)),
        (Request::Free(1, (0, 0)), Ok(Reply::Home)),
        (Request::Alloc(1, 512), slot!(0, 0)),
        (Request::Alloc(1, 512), slot!(0, 1)),
        (Request::Alloc(1, 512), slot!(0, 2)),
    ];
    plays(
        &rt,
        rt.alloc(),
        pool(2, 1, 2),
        &ROWS,
        &[(1, 5, 0, 0)],
        (1, 3),
    );
}

// Frees so many slots of chunk 0 at a desk that doesn't own it, from the first on.
fn caches_all(rt: &impl Abort, alloc: Global, floor: &mut Floor<'_>, desk: u32, count: u32) {
    for index in 0..count {
        let request = Request::Free(desk, (0, index));
        answers(rt, alloc, floor, (request, Ok(Reply::Cached)));
    }
}

#[test]
fn a_cache_is_due_above_the_limit(rt: HostRuntime) {
    const ROWS: [Row; 3] = [
        (Request::Adopt(0, 0), Ok(Reply::Done)),
        (Request::Adopt(1, 1), Ok(Reply::Done)),
        (Request::Claim(1, 15), Ok(Reply::Chunk(0))),
    ];
    const ANOTHER_CHUNK: [Row; 2] = [
        (Request::Claim(1, 15), Ok(Reply::Chunk(1))),
        (Request::Alloc(1, 512), slot!(1, 0)),
    ];
    const THE_NINTH: Row = (Request::Free(0, (1, 0)), Ok(Reply::Due));
    on_floor(&rt, rt.alloc(), pool(2, 2, 2), |floor| {
        asks(&rt, rt.alloc(), floor, &ROWS);
        lends_all(&rt, rt.alloc(), floor, 1, 512, 8);
        asks(&rt, rt.alloc(), floor, &ANOTHER_CHUNK);
        caches_all(&rt, rt.alloc(), floor, 0, 8);
        answers(&rt, rt.alloc(), floor, THE_NINTH);
        closes(&rt, floor, 2, &[(0, 0, 9, 0), (1, 7, 0, 0)], (2, 0));
    });
}

// What is told of a floor whose desk 1 drew chunk 0 for class 2.
fn tells(rt: &impl Abort, floor: &Floor<'_>) {
    assert!(rt; floor.limit() == 4096);
    assert!(rt; Some(floor.digits()) == Digits::new(2));
    assert!(rt; floor.class_of(0) == Class::new(2));
    assert!(rt; floor.class_of(1).is_none());
}

#[test]
fn counts_and_classes(rt: HostRuntime) {
    const ROWS: [Row; 2] = [
        (Request::Adopt(1, 3), Ok(Reply::Done)),
        (Request::Claim(1, 2), Ok(Reply::Chunk(0))),
    ];
    on_floor(&rt, rt.alloc(), pool(2, 1, 2), |floor| {
        asks(&rt, rt.alloc(), floor, &ROWS);
        tells(&rt, floor);
        closes(&rt, floor, 2, &[(1, 85, 0, 0)], (1, 0));
    });
}
