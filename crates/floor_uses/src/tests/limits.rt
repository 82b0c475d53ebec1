//! Floors at their limits: of chunks, desks, bytes in a cache, requests in a run, and batches on their way.
use super::{Made, Row, answers, closes, counts_are, on_floor, pool, pool2, slot};
use event_floor::{Floor, Refusal, Reply, Request};
use std::alloc::Global;
use std::process::Abort;

/// How many slots of 512 bytes a chunk has, and the number of their class.
const LARGE: u32 = 15;

const LARGE_SLOTS: u16 = 8;

// Each of 64 desks draws a chunk for each of 16 classes.
fn draws_all(rt: &impl Abort, alloc: Global, floor: &mut Floor<'_>) {
    for desk in 0..64u16 {
        let worker = (Request::Adopt(desk as u32, 7), Ok(Reply::Done));
        answers(rt, alloc, floor, worker);
        for class in 0..16u16 {
            let claim = Request::Claim(desk as u32, class as u32);
            answers(
                rt,
                alloc,
                floor,
                (claim, Ok(Reply::Chunk(16 * desk + class))),
            );
        }
    }
}

#[test]
fn a_region_of_1024_chunks(rt: HostRuntime) {
    const ONE_MORE: Row = (Request::Claim(63, LARGE), Err(Refusal::NoChunk));
    on_floor(&rt, rt.alloc(), pool(64, 1024, 2), |floor| {
        draws_all(&rt, rt.alloc(), floor);
        for index in 0..LARGE_SLOTS {
            let row = (Request::Alloc(63, 512), slot!(1023, index));
            answers(&rt, rt.alloc(), floor, row);
        }
        answers(&rt, rt.alloc(), floor, ONE_MORE);
        assert!(rt; (floor.drawn_count(), floor.lent_count()) == (1024, 8));
    });
}

#[test]
fn a_pool_of_4096_desks(rt: HostRuntime) {
    const ADOPT: Row = (Request::Adopt(4095, 1), Ok(Reply::Done));
    const CLAIM: Row = (Request::Claim(4095, 19), Ok(Reply::Chunk(0)));
    const ALLOC: Row = (Request::Alloc(4095, 1024), slot!(0, 0));
    on_floor(&rt, rt.alloc(), pool2(4096, 1, 3), |floor| {
        answers(&rt, rt.alloc(), floor, ADOPT);
        answers(&rt, rt.alloc(), floor, CLAIM);
        answers(&rt, rt.alloc(), floor, ALLOC);
        closes(&rt, floor, 4096, &[(4095, 3, 0, 0)], (1, 1));
    });
}

// Desk 1 draws chunk `chunk` for slots of 512 bytes and lends all, and desk 0 frees them, each with this answer.
fn caches_chunk(rt: &impl Abort, alloc: Global, floor: &mut Floor<'_>, chunk: u16, freed: Reply) {
    let claim = (Request::Claim(1, LARGE), Ok(Reply::Chunk(chunk)));
    answers(rt, alloc, floor, claim);
    for index in 0..LARGE_SLOTS {
        answers(
            rt,
            alloc,
            floor,
            (Request::Alloc(1, 512), slot!(chunk, index)),
        );
    }
    for index in 0..LARGE_SLOTS {
        let free = Request::Free(0, (chunk as u32, index as u32));
        answers(rt, alloc, floor, (free, Ok(freed)));
    }
}

const TWO_DESKS: [Row; 2] = [
    (Request::Adopt(0, 0), Ok(Reply::Done)),
    (Request::Adopt(1, 1), Ok(Reply::Done)),
];

fn adopts_two(rt: &impl Abort, alloc: Global, floor: &mut Floor<'_>) {
    for row in &TWO_DESKS {
        answers(rt, alloc, floor, *row);
    }
}

#[test]
fn above_no_byte_each_cache_is_due(rt: HostRuntime) {
    let made = Made {
        limit: 0,
        ..pool(2, 1, 2)
    };
    on_floor(&rt, rt.alloc(), made, |floor| {
        adopts_two(&rt, rt.alloc(), floor);
        caches_chunk(&rt, rt.alloc(), floor, 0, Reply::Due);
        counts_are(&rt, floor, (0, 0, 8, 0));
    });
}

// 256 chunks of 8 slots of 512 bytes are just as many bytes as the limit.
#[test]
fn a_cache_of_a_mebibyte(rt: HostRuntime) {
    let made = Made {
        limit: 1_048_576,
        ..pool(2, 257, 2)
    };
    on_floor(&rt, rt.alloc(), made, |floor| {
        adopts_two(&rt, rt.alloc(), floor);
        for chunk in 0..256u16 {
            caches_chunk(&rt, rt.alloc(), floor, chunk, Reply::Cached);
        }
        caches_chunk(&rt, rt.alloc(), floor, 256, Reply::Due);
        counts_are(&rt, floor, (0, 0, 2056, 0));
    });
}

// So many requests, of which each second one takes the desk from its worker again.
fn turns(rt: &impl Abort, alloc: Global, count: u32) -> Vec<Request> {
    let mut requests = Vec::new(alloc);
    for turn in 0..count {
        let request = if turn % 2 == 0 {
            Request::Adopt(0, turn)
        } else {
            Request::Retire(0)
        };
        assert!(rt; requests.push(request).is_ok() || requests.push(request).is_ok());
    }
    requests
}

#[test]
fn ten_thousand_requests_in_one_run(rt: HostRuntime) {
    let requests = turns(&rt, rt.alloc(), 10_000);
    on_floor(&rt, rt.alloc(), pool(1, 0, 2), |floor| {
        let answers = match floor.run(rt.alloc(), &requests) {
            Ok(answers) => answers,
            Err(_) => floor
                .run(rt.alloc(), &requests)
                .ok()
                .expect(&rt, "memory is there again"),
        };
        assert!(rt; answers.len() == 10_000);
        for answer in &answers {
            assert!(rt; *answer == Ok(Reply::Done));
        }
    });
}

// Desk 1 draws a chunk of 256 slots, and desk 0 sends each home in a batch of its own.
fn posts_chunk(rt: &impl Abort, alloc: Global, floor: &mut Floor<'_>, chunk: u16) {
    answers(
        rt,
        alloc,
        floor,
        (Request::Claim(1, 0), Ok(Reply::Chunk(chunk))),
    );
    for index in 0..256u16 {
        answers(
            rt,
            alloc,
            floor,
            (Request::Alloc(1, 16), slot!(chunk, index)),
        );
    }
    for index in 0..256u16 {
        let free = Request::Free(0, (chunk as u32, index as u32));
        answers(rt, alloc, floor, (free, Ok(Reply::Cached)));
        let number = 256 * chunk as u32 + index as u32 + 1;
        answers(
            rt,
            alloc,
            floor,
            (Request::Send(0, 1), Ok(Reply::Batch(number, 1))),
        );
    }
}

// 1,024 batches wait. They are linked from the last to the first, and then each is taken.
#[test]
fn a_thousand_batches_are_on_their_way(rt: HostRuntime) {
    on_floor(&rt, rt.alloc(), pool(2, 4, 2), |floor| {
        adopts_two(&rt, rt.alloc(), floor);
        for chunk in 0..4u16 {
            posts_chunk(&rt, rt.alloc(), floor, chunk);
        }
        counts_are(&rt, floor, (1, 0, 0, 1024));
        for turn in 0..1024u32 {
            answers(
                &rt,
                rt.alloc(),
                floor,
                (Request::Take(1), Err(Refusal::Nothing)),
            );
            answers(
                &rt,
                rt.alloc(),
                floor,
                (Request::Link(1024 - turn), Ok(Reply::Done)),
            );
        }
        for _turn in 0..1024u32 {
            answers(
                &rt,
                rt.alloc(),
                floor,
                (Request::Take(1), Ok(Reply::Counts(1, 0))),
            );
        }
        closes(&rt, floor, 2, &[(1, 1024, 0, 0)], (4, 0));
    });
}
