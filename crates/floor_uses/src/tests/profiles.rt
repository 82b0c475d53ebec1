//! The profile of 4,096 desks and 20 classes. In digits of 6 bits desks 65 and 129 are 1,1 and 1,2.
use super::{Row, plays, pool, pool2, slot};
use event_floor::{Refusal, Reply, Request};

#[test]
fn numbers_of_twelve_bits(rt: HostRuntime) {
    const ROWS: [Row; 15] = [
        (Request::Adopt(0, 0), Ok(Reply::Done)),
        (Request::Adopt(65, 1), Ok(Reply::Done)),
        (Request::Adopt(129, 2), Ok(Reply::Done)),
        (Request::Claim(65, 19), Ok(Reply::Chunk(0))),
        (Request::Claim(129, 16), Ok(Reply::Chunk(1))),
        (Request::Alloc(65, 1024), slot!(0, 0)),
        (Request::Alloc(129, 513), slot!(1, 0)),
        (Request::Free(0, (0, 0)), Ok(Reply::Cached)),
        (Request::Free(0, (1, 0)), Ok(Reply::Cached)),
        (Request::Send(0, 65), Ok(Reply::Batch(1, 2))),
        (Request::Link(1), Ok(Reply::Done)),
        (Request::Take(65), Ok(Reply::Counts(1, 1))),
        (Request::Send(65, 129), Ok(Reply::Batch(2, 1))),
        (Request::Link(2), Ok(Reply::Done)),
        (Request::Take(129), Ok(Reply::Counts(1, 0))),
    ];
    let left = [(65, 4, 0, 0), (129, 6, 0, 0)];
    plays(&rt, rt.alloc(), pool2(4096, 8, 6), &ROWS, &left, (2, 0));
}

#[test]
fn four_more_classes(rt: HostRuntime) {
    const ROWS: [Row; 8] = [
        (Request::Adopt(0, 0), Ok(Reply::Done)),
        (Request::Claim(0, 17), Ok(Reply::Chunk(0))),
        (Request::Claim(0, 18), Ok(Reply::Chunk(1))),
        (Request::Claim(0, 20), Err(Refusal::BadClass)),
        (Request::Alloc(0, 1024), Err(Refusal::NeedChunk)),
        (Request::Alloc(0, 768), slot!(0, 0)),
        (Request::Alloc(0, 897), Err(Refusal::NeedChunk)),
        (Request::Alloc(0, 1025), Err(Refusal::TooLarge)),
    ];
    plays(
        &rt,
        rt.alloc(),
        pool2(1, 5, 2),
        &ROWS,
        &[(0, 8, 0, 0)],
        (2, 1),
    );
}

#[test]
fn they_are_none_of_the_smaller_profile(rt: HostRuntime) {
    const ROWS: [Row; 3] = [
        (Request::Adopt(0, 0), Ok(Reply::Done)),
        (Request::Claim(0, 16), Err(Refusal::BadClass)),
        (Request::Alloc(0, 513), Err(Refusal::TooLarge)),
    ];
    plays(&rt, rt.alloc(), pool(1, 1, 2), &ROWS, &[], (0, 0));
}
