//! Requests that are refused for want of memory: no list of the floor changes, and the next try works.
ghost use Rattle.std.specs.Prelude.{◌<◌};
ghost use Rattle.event_floor.specs.Floors.{desk_count};

use super::routing::{TRAVEL, TRAVELLED};
use super::{Closing, Made, Row, closes, is_answer, on_floor, pool, slot};
use event_floor::{Floor, Refusal, Reply, Request};
use region_cut::Slot;
use slot_chain::NoMemory;
use std::alloc::Global;
use std::process::Abort;

/// All lists of a floor: the lent slots, and of each desk those at home, in its cache and in its inbox.
type Lists = Vec<Vec<Slot>>;

fn list_desk(alloc: Global, floor: &Floor<'_>, desk: u32, lists: &mut Lists) -> Result<(), NoMemory>
    requires { desk < desk_count floor.now }
{
    lists.push(floor.home(alloc, desk)?)?;
    lists.push(floor.cached(alloc, desk)?)?;
    lists.push(floor.queued(alloc, desk)?)?;
    Ok(())
}

fn list(alloc: Global, floor: &Floor<'_>) -> Result<Lists, NoMemory> {
    let mut lists = Vec::new(alloc);
    lists.push(floor.lent(alloc)?)?;
    for desk in 0..floor.desk_count() {
        list_desk(alloc, floor, desk, &mut lists)?;
    }
    Ok(lists)
}

// Where memory for them was refused, the next try works.
fn lists_of(rt: &impl Abort, alloc: Global, floor: &Floor<'_>) -> Lists {
    match list(alloc, floor) {
        Ok(lists) => lists,
        Err(_) => list(alloc, floor).ok().expect(rt, "memory is there again"),
    }
}

fn lists_are(rt: &impl Abort, alloc: Global, floor: &Floor<'_>, before: &Lists) {
    assert!(rt; lists_of(rt, alloc, floor) == *before);
}

// Asks once more where there was no memory. The lists are then still those from before.
fn answers(rt: &impl Abort, alloc: Global, floor: &mut Floor<'_>, row: Row) {
    let before = lists_of(rt, alloc, floor);
    let mut answer = floor.apply(alloc, row.0);
    if answer == Err(Refusal::NoMemory) {
        lists_are(rt, alloc, floor, &before);
        answer = floor.apply(alloc, row.0);
    }
    is_answer(rt, answer, row);
}

fn plays(
    rt: &impl Abort,
    alloc: Global,
    made: Made,
    rows: &[Row],
    left: &[Closing],
    end: (u64, u64),
) {
    on_floor(rt, alloc, made, |floor| {
        for row in rows {
            answers(rt, alloc, floor, *row);
        }
        closes(rt, floor, made.desks, left, end);
    });
}

// Each batch is the first of its inbox.
#[test]
fn a_refusal_changes_no_list_of_a_travel(rt: HostRuntime) {
    plays(&rt, rt.alloc(), pool(64, 8, 2), &TRAVEL, &TRAVELLED, (3, 0));
}

// One inbox and the index of the batches that still have to be linked grow, with others in them.
#[test]
fn a_refusal_changes_no_list_of_a_queue(rt: HostRuntime) {
    const ROWS: [Row; 23] = [
        (Request::Adopt(0, 0), Ok(Reply::Done)),
        (Request::Adopt(1, 1), Ok(Reply::Done)),
        (Request::Claim(0, 15), Ok(Reply::Chunk(0))),
        (Request::Claim(1, 15), Ok(Reply::Chunk(1))),
        (Request::Alloc(1, 512), slot!(1, 0)),
        (Request::Alloc(1, 512), slot!(1, 1)),
        (Request::Alloc(1, 512), slot!(1, 2)),
        (Request::Alloc(1, 512), slot!(1, 3)),
        (Request::Alloc(1, 512), slot!(1, 4)),
        (Request::Alloc(1, 512), slot!(1, 5)),
        (Request::Free(0, (1, 0)), Ok(Reply::Cached)),
        (Request::Send(0, 1), Ok(Reply::Batch(1, 1))),
        (Request::Free(0, (1, 1)), Ok(Reply::Cached)),
        (Request::Send(0, 1), Ok(Reply::Batch(2, 1))),
        (Request::Free(0, (1, 2)), Ok(Reply::Cached)),
        (Request::Send(0, 1), Ok(Reply::Batch(3, 1))),
        (Request::Free(0, (1, 3)), Ok(Reply::Cached)),
        (Request::Send(0, 1), Ok(Reply::Batch(4, 1))),
        (Request::Free(0, (1, 4)), Ok(Reply::Cached)),
        (Request::Alloc(0, 512), slot!(0, 0)),
        (Request::Send(0, 1), Ok(Reply::Batch(5, 1))),
        (Request::Free(1, (1, 5)), Ok(Reply::Home)),
        (Request::Alloc(0, 512), slot!(0, 1)),
    ];
    let left = [(0, 6, 0, 0), (1, 3, 0, 5)];
    plays(&rt, rt.alloc(), pool(2, 2, 2), &ROWS, &left, (2, 2));
}
