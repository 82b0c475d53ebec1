//! Postings to the end, into sinks with much and with little room.
use crate::batch_row::BatchRow;
use crate::tests::samples::{filled_in, same};
use digit_route::Cache;
use slot_chain::NoMemory;
use std::alloc::Global;
use std::process::Abort;

// Posts onto a row with so much room, which has to take `given` batches. Gives what is left, and
// the moves.
fn post<'r>(
    rt: &impl Abort,
    alloc: Global,
    cache: Cache<'r>,
    room: usize,
    given: usize,
) -> Result<(Cache<'r>, u64), NoMemory> {
    let mut row = BatchRow::new(alloc, room)?;
    let posted = cache.post_all(&mut row);
    same(rt, "batches given", row.batches.len() as u64, given as u64);
    Ok(posted)
}

fn post_at_once(rt: &impl Abort, alloc: Global, cache: Cache<'_>) -> Result<(), NoMemory> {
    let (cache, moves) = post(rt, alloc, cache, 5, 5)?;
    assert!(rt; cache.is_empty());
    same(rt, "the moves", moves, 4);
    Ok(())
}

fn post_all(rt: &impl Abort, alloc: Global) -> Result<(), NoMemory> {
    let mut region = Vec::from_elem(alloc, 0u8, 4096)?;
    let cache = filled_in(rt, alloc, &mut region, 0, 2, &[1, 2, 3, 16, 32])?;
    post_at_once(rt, alloc, cache)
}

#[test]
fn posts_all(rt: HostRuntime) {
    if post_all(&rt, rt.alloc()).is_err() {
        assert!(rt; post_all(&rt, rt.alloc()).is_ok());
    }
}

// A row with room for so many of five batches, how many are left, the moves until it refused one,
// and the moves of the posting that gives what was left.
type Row = (usize, usize, u64, u64);

fn post_twice(rt: &impl Abort, alloc: Global, cache: Cache<'_>, row: Row) -> Result<(), NoMemory> {
    let (room, left, first, second) = row;
    let (cache, moves) = post(rt, alloc, cache, room, room)?;
    same(rt, "buffers left", cache.len(), left as u64);
    same(rt, "the moves until then", moves, first);
    let (cache, moves) = post(rt, alloc, cache, 5, left)?;
    assert!(rt; cache.is_empty());
    same(rt, "the moves of what was left", moves, second);
    Ok(())
}

fn post_some(rt: &impl Abort, alloc: Global, row: Row) -> Result<(), NoMemory> {
    let mut region = Vec::from_elem(alloc, 0u8, 4096)?;
    let cache = filled_in(rt, alloc, &mut region, 0, 2, &[1, 2, 3, 16, 32])?;
    post_twice(rt, alloc, cache, row)
}

// The owners 16 and 32 share two digits with desk 0, and the others none.
#[test]
fn keeps_what_is_refused(rt: HostRuntime) {
    for row in [
        (0, 5, 0, 4),
        (1, 4, 0, 4),
        (2, 3, 0, 4),
        (3, 2, 4, 4),
        (4, 1, 4, 2),
    ] {
        if post_some(&rt, rt.alloc(), row).is_err() {
            assert!(rt; post_some(&rt, rt.alloc(), row).is_ok());
        }
    }
}
