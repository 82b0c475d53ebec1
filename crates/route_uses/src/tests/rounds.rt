//! Postings in rounds.
use crate::tests::samples::{filled_in, same, same_at, take};
use digit_route::{Batch, Cache, Posting, Refused};
use slot_chain::NoMemory;
use std::alloc::Global;
use std::process::Abort;

// A batch that has to come: its round, its address and how many buffers it has.
pub(crate) type Want = (u32, u16, u64);

fn wanted(address: u16, want: &[Want]) -> Option<Want> {
    for row in want {
        if row.1 == address {
            return Some(*row);
        }
    }
    None
}

// Checks a batch of the round, and lets it go.
fn check_batch(rt: &impl Abort, batch: Batch<'_>, round: u32, want: &[Want]) {
    let address = batch.address();
    let (in_round, _, count) = wanted(address, want).expect(rt, "an owner as address");
    same_at(
        rt,
        "the round of",
        address,
        u64::from(round),
        u64::from(in_round),
    );
    same_at(rt, "the sender to", address, u64::from(batch.sender()), 0);
    same_at(rt, "the batch to", address, batch.len(), count);
}

// Posts as many batches as are wanted.
fn check_posting(rt: &impl Abort, posting: &mut Posting<'_>, want: &[Want]) {
    let mut round = 0;
    for _ in want {
        let batch = posting.next_batch().expect(rt, "a batch");
        assert!(rt; round <= posting.round());
        round = posting.round();
        check_batch(rt, batch, round, want);
    }
}

// Posts all, in so many moves.
pub(crate) fn check_all(rt: &impl Abort, mut posting: Posting<'_>, want: &[Want], moves: u64) {
    same(rt, "the first round", u64::from(posting.round()), 0);
    same(rt, "the moves at first", posting.moves(), 0);
    check_posting(rt, &mut posting, want);
    assert!(rt; posting.next_batch().is_none());
    same(rt, "the moves", posting.moves(), moves);
}

fn post(
    rt: &impl Abort,
    alloc: Global,
    width: u32,
    owners: &[u16],
    want: &[Want],
    moves: u64,
) -> Result<(), NoMemory> {
    let mut region = Vec::from_elem(alloc, 0u8, 4096)?;
    let cache = filled_in(rt, alloc, &mut region, 0, width, owners)?;
    check_all(rt, cache.posting(), want, moves);
    Ok(())
}

// Where memory was refused it is there the second time.
fn check(rt: &impl Abort, alloc: Global, width: u32, owners: &[u16], want: &[Want], moves: u64) {
    if post(rt, alloc, width, owners, want, moves).is_err() {
        assert!(rt; post(rt, alloc, width, owners, want, moves).is_ok());
    }
}

#[test]
fn one_bit(rt: HostRuntime) {
    check(
        &rt,
        rt.alloc(),
        1,
        &[32, 32, 1, 2],
        &[(0, 1, 1), (1, 2, 1), (5, 32, 2)],
        11,
    );
}

#[test]
fn two_bits(rt: HostRuntime) {
    let want = [(0, 1, 1), (0, 2, 1), (0, 3, 1), (2, 16, 1), (2, 32, 1)];
    check(&rt, rt.alloc(), 2, &[1, 2, 3, 16, 32], &want, 4);
}

#[test]
fn six_bits(rt: HostRuntime) {
    check(
        &rt,
        rt.alloc(),
        6,
        &[7, 11, 27],
        &[(0, 7, 1), (0, 11, 1), (0, 27, 1)],
        0,
    );
}

// Lets the first two batches go, and puts the third back.
pub(crate) fn put_third_back<'r>(rt: &impl Abort, mut posting: Posting<'r>) -> Cache<'r> {
    drop(posting.next_batch());
    drop(posting.next_batch());
    let batch = posting.next_batch().expect(rt, "the batch to 32");
    posting.put_back(batch)
}

// What is left of four buffers are the two of 32.
pub(crate) fn check_left(rt: &impl Abort, mut cache: Cache<'_>) {
    same(rt, "buffers left", cache.len(), 2);
    same(rt, "bytes left", cache.bytes(), 32);
    drop(take(rt, &mut cache, 32, 2));
    assert!(rt; cache.posting().end().is_empty());
}

fn put_back(rt: &impl Abort, alloc: Global) -> Result<(), NoMemory> {
    let mut region = Vec::from_elem(alloc, 0u8, 4096)?;
    let cache = filled_in(rt, alloc, &mut region, 0, 1, &[32, 32, 1, 2])?;
    check_left(rt, put_third_back(rt, cache.posting()));
    Ok(())
}

#[test]
fn is_put_back(rt: HostRuntime) {
    if put_back(&rt, rt.alloc()).is_err() {
        assert!(rt; put_back(&rt, rt.alloc()).is_ok());
    }
}

// Of three batches the first is refused, and the others go. Its buffers are in the cache again, and nothing
// else is: the next batch is the same.
pub(crate) fn set_first_aside(rt: &impl Abort, cache: Cache<'_>) {
    let mut posting = cache.posting();
    let first = posting.next_batch().expect(rt, "a batch");
    let (address, len) = (first.address(), first.len());
    let mut refused = Refused::new(first.sender(), first.digits());
    refused.add(first);
    drop(posting.next_batch());
    drop(posting.next_batch());
    assert!(rt; posting.next_batch().is_none() && !refused.is_empty());
    let mut cache = posting.end();
    assert!(rt; cache.is_empty());
    cache.take_back(refused);
    check_again(rt, cache, address, len);
}

// The cache has one batch alone, with this address and so many buffers.
fn check_again(rt: &impl Abort, mut cache: Cache<'_>, address: u16, len: u64) {
    let again = cache.next_batch().expect(rt, "the batch again");
    same(
        rt,
        "the address",
        u64::from(again.address()),
        u64::from(address),
    );
    same(rt, "the buffers", again.len(), len);
    assert!(rt; cache.is_empty());
}

fn set_aside(rt: &impl Abort, alloc: Global) -> Result<(), NoMemory> {
    let mut region = Vec::from_elem(alloc, 0u8, 4096)?;
    set_first_aside(
        rt,
        filled_in(rt, alloc, &mut region, 0, 1, &[32, 32, 1, 2])?,
    );
    Ok(())
}

#[test]
fn what_was_refused_is_kept_and_nothing_else(rt: HostRuntime) {
    if set_aside(&rt, rt.alloc()).is_err() {
        assert!(rt; set_aside(&rt, rt.alloc()).is_ok());
    }
}
