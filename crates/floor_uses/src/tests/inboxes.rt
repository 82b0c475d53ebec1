//! Batches that wait, and desks that are left and taken up again.
use super::{Row, plays, pool, slot};
use event_floor::{Refusal, Reply, Request};

#[test]
fn batches_are_taken_in_order_of_arrival(rt: HostRuntime) {
    const ROWS: [Row; 19] = [
        (Request::Adopt(0, 0), Ok(Reply::Done)),
        (Request::Adopt(1, 1), Ok(Reply::Done)),
        (Request::Adopt(2, 2), Ok(Reply::Done)),
        (Request::Claim(2, 15), Ok(Reply::Chunk(0))),
        (Request::Alloc(2, 512), slot!(0, 0)),
        (Request::Alloc(2, 512), slot!(0, 1)),
        (Request::Free(0, (0, 0)), Ok(Reply::Cached)),
        (Request::Free(1, (0, 1)), Ok(Reply::Cached)),
        (Request::Send(0, 2), Ok(Reply::Batch(1, 1))),
        (Request::Send(1, 2), Ok(Reply::Batch(2, 1))),
        (Request::Link(2), Ok(Reply::Done)),
        (Request::Take(2), Err(Refusal::Nothing)),
        (Request::Link(1), Ok(Reply::Done)),
        (Request::Link(1), Err(Refusal::NoBatch)),
        (Request::Link(9), Err(Refusal::NoBatch)),
        (Request::Take(2), Ok(Reply::Counts(1, 0))),
        (Request::Take(2), Ok(Reply::Counts(1, 0))),
        (Request::Take(2), Err(Refusal::Nothing)),
        (Request::Alloc(2, 512), slot!(0, 1)),
    ];
    plays(
        &rt,
        rt.alloc(),
        pool(3, 1, 2),
        &ROWS,
        &[(2, 7, 0, 0)],
        (1, 1),
    );
}

#[test]
fn an_unsettled_desk_keeps_its_worker(rt: HostRuntime) {
    const ROWS: [Row; 17] = [
        (Request::Adopt(0, 0), Ok(Reply::Done)),
        (Request::Adopt(1, 7), Ok(Reply::Done)),
        (Request::Claim(1, 15), Ok(Reply::Chunk(0))),
        (Request::Alloc(1, 512), slot!(0, 0)),
        (Request::Free(0, (0, 0)), Ok(Reply::Cached)),
        (Request::Retire(0), Err(Refusal::Unsettled)),
        (Request::Send(0, 1), Ok(Reply::Batch(1, 1))),
        (Request::Retire(0), Err(Refusal::Unsettled)),
        (Request::Link(1), Ok(Reply::Done)),
        (Request::Retire(0), Ok(Reply::Done)),
        (Request::Retire(1), Ok(Reply::Done)),
        (Request::Take(1), Err(Refusal::Idle)),
        (Request::Adopt(1, 8), Ok(Reply::Done)),
        (Request::Take(1), Ok(Reply::Counts(1, 0))),
        (Request::Alloc(1, 512), slot!(0, 0)),
        (Request::Adopt(1, 9), Err(Refusal::Held)),
        (Request::Retire(0), Err(Refusal::Idle)),
    ];
    plays(
        &rt,
        rt.alloc(),
        pool(2, 1, 2),
        &ROWS,
        &[(1, 7, 0, 0)],
        (1, 1),
    );
}

#[test]
fn a_batch_of_another_is_no_bar(rt: HostRuntime) {
    const ROWS: [Row; 11] = [
        (Request::Adopt(0, 0), Ok(Reply::Done)),
        (Request::Adopt(1, 1), Ok(Reply::Done)),
        (Request::Claim(1, 15), Ok(Reply::Chunk(0))),
        (Request::Alloc(1, 512), slot!(0, 0)),
        (Request::Free(0, (0, 0)), Ok(Reply::Cached)),
        (Request::Send(0, 1), Ok(Reply::Batch(1, 1))),
        (Request::Retire(1), Ok(Reply::Done)),
        (Request::Link(1), Ok(Reply::Done)),
        (Request::Retire(0), Ok(Reply::Done)),
        (Request::Adopt(1, 2), Ok(Reply::Done)),
        (Request::Take(1), Ok(Reply::Counts(1, 0))),
    ];
    plays(
        &rt,
        rt.alloc(),
        pool(2, 1, 2),
        &ROWS,
        &[(1, 8, 0, 0)],
        (1, 0),
    );
}

#[test]
fn a_slot_that_is_not_lent_is_not_freed(rt: HostRuntime) {
    const ROWS: [Row; 12] = [
        (Request::Adopt(0, 0), Ok(Reply::Done)),
        (Request::Adopt(1, 1), Ok(Reply::Done)),
        (Request::Claim(1, 15), Ok(Reply::Chunk(0))),
        (Request::Alloc(1, 512), slot!(0, 0)),
        (Request::Free(1, (0, 1)), Err(Refusal::NotLent)),
        (Request::Free(0, (0, 0)), Ok(Reply::Cached)),
        (Request::Free(0, (0, 0)), Err(Refusal::NotLent)),
        (Request::Free(1, (0, 0)), Err(Refusal::NotLent)),
        (Request::Send(0, 1), Ok(Reply::Batch(1, 1))),
        (Request::Free(1, (0, 0)), Err(Refusal::NotLent)),
        (Request::Free(1, (0, 8)), Err(Refusal::NotLent)),
        (Request::Free(1, (3, 0)), Err(Refusal::NotLent)),
    ];
    plays(
        &rt,
        rt.alloc(),
        pool(2, 1, 2),
        &ROWS,
        &[(1, 7, 0, 1)],
        (1, 0),
    );
}
