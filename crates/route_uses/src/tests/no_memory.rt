//! The calls that take no memory, between two marks behind which `.ci/no_memory.py` refuses each
//! allocation. No clause says that a call takes none.
use crate::batch_row::BatchRow;
use crate::tests::rounds::{Want, check_all, check_left, put_third_back, set_first_aside};
use crate::tests::samples::{filled_in, next_of_1, put_each, same, take, turned};
use digit_route::{Batch, Cache, Refused, RouteError};
use memory_marks::{Mark, set};
use slot_chain::{Buf, BufParcel, Magazine, NoMemory, Portion};
use std::alloc::Global;
use std::process::Abort;

// The bucket for `t`, by the two calls that `take_bucket_for` is made of.
fn taken<'r>(cache: &mut Cache<'r>, t: u16) -> Option<Batch<'r>> {
    match cache.fault_for(t) {
        Some(_) => None,
        None => Some(cache.take_for(t)),
    }
}

// All go out as one bucket and come back one by one, twice.
fn take_and_put(rt: &impl Abort, mut cache: Cache<'_>) {
    let batch = take(rt, &mut cache, 1, 40);
    assert!(rt; cache.is_empty() && cache.fault_for(1) == Some(RouteError::NothingFor));
    put_each(rt, &mut cache, batch, 40);
    let batch = taken(&mut cache, 1).expect(rt, "the bucket for 1");
    put_each(rt, &mut cache, batch, 40);
    same(rt, "the buffers", cache.len(), 40);
    same(rt, "the bytes", cache.bytes(), 640);
}

fn bucket(rt: &impl Abort, alloc: Global) -> Result<(), NoMemory> {
    let mut region = Vec::from_elem(alloc, 0u8, 4096)?;
    let cache = turned(rt, alloc, &mut region)?;
    set(alloc, Mark::TakesNone);
    take_and_put(rt, cache);
    set(alloc, Mark::MayTake);
    Ok(())
}

#[test]
fn a_bucket_takes_none(rt: HostRuntime) {
    if bucket(&rt, rt.alloc()).is_err() {
        assert!(rt; bucket(&rt, rt.alloc()).is_ok());
    }
}

// A batch goes out by each call that picks one, and comes back as a whole.
fn take_and_put_back<'r>(rt: &impl Abort, cache: &mut Cache<'r>) {
    let batch = cache.next_batch().expect(rt, "a batch");
    cache.put_back(batch);
    let batch = cache
        .next_of_first_round()
        .expect(rt, "one of the first round");
    same(rt, "the others", cache.len(), 4);
    cache.put_back(batch);
    same(rt, "all of them", cache.len(), 5);
}

// The owners 16 and 32 share two digits with desk 0, and the others none.
fn take_all(rt: &impl Abort, cache: &mut Cache<'_>) {
    for _ in 0..3 {
        assert!(rt; cache.next_of_first_round().is_some());
    }
    assert!(rt; cache.next_of_first_round().is_none());
    assert!(rt; cache.next_batch().is_some() && cache.next_batch().is_some());
    assert!(rt; cache.next_batch().is_none() && cache.is_empty());
}

fn batches(rt: &impl Abort, alloc: Global) -> Result<(), NoMemory> {
    let mut region = Vec::from_elem(alloc, 0u8, 4096)?;
    let mut cache = filled_in(rt, alloc, &mut region, 0, 2, &[1, 2, 3, 16, 32])?;
    set(alloc, Mark::TakesNone);
    take_and_put_back(rt, &mut cache);
    take_all(rt, &mut cache);
    set(alloc, Mark::MayTake);
    Ok(())
}

#[test]
fn batches_take_none(rt: HostRuntime) {
    if batches(&rt, rt.alloc()).is_err() {
        assert!(rt; batches(&rt, rt.alloc()).is_ok());
    }
}

// All buffers of the cache, which are 40 of 1, in a parcel.
fn packed<'r>(
    rt: &impl Abort,
    alloc: Global,
    cache: &mut Cache<'r>,
) -> Result<BufParcel<'r>, NoMemory> {
    let mut parcel = BufParcel::new(alloc, 1, 40)?;
    let mut magazine = next_of_1(rt, cache, 40).into_magazine();
    for _ in 0..40 {
        let buf = magazine.pop().expect(rt, "a buffer");
        assert!(rt; parcel.push(buf).is_ok());
    }
    Ok(parcel)
}

// The cache is desk 0's, and the parcel 1's.
fn put_parcel<'r>(rt: &impl Abort, cache: &mut Cache<'r>, parcel: BufParcel<'r>) {
    assert!(rt; parcel.owner() == 1 && cache.number() == 0);
    let bits = cache.digits().profile().bits();
    assert!(rt; u32::from(parcel.owner()) < 1 << bits);
    cache.put_all(parcel);
    same(rt, "the buffers", cache.len(), 40);
}

// All that is cached comes out as it lies in the parcel's array.
fn check_array(rt: &impl Abort, cache: &mut Cache<'_>) {
    let mut magazine = next_of_1(rt, cache, 40).into_magazine();
    let array = magazine
        .pop_portion()
        .and_then(Portion::into_array)
        .expect(rt, "the parcel's array");
    same(rt, "the array's buffers", array.len() as u64, 40);
}

// A parcel that finds no room is linked. Behind `make_room` the next one is kept as it is.
fn parcel(rt: &impl Abort, alloc: Global) -> Result<(), NoMemory> {
    let mut region = Vec::from_elem(alloc, 0u8, 4096)?;
    let mut cache = filled_in(rt, alloc, &mut region, 0, 2, &[1; 40])?;
    let first = packed(rt, alloc, &mut cache)?;
    set(alloc, Mark::TakesNone);
    put_parcel(rt, &mut cache, first);
    set(alloc, Mark::MayTake);
    let second = packed(rt, alloc, &mut cache)?;
    cache.make_room(alloc);
    cache.make_room(alloc);
    set(alloc, Mark::TakesNone);
    put_parcel(rt, &mut cache, second);
    set(alloc, Mark::MayTake);
    check_array(rt, &mut cache);
    Ok(())
}

#[test]
fn a_parcel_takes_none(rt: HostRuntime) {
    if parcel(&rt, rt.alloc()).is_err() {
        assert!(rt; parcel(&rt, rt.alloc()).is_ok());
    }
}

fn posting(rt: &impl Abort, alloc: Global) -> Result<(), NoMemory> {
    let mut region = Vec::from_elem(alloc, 0u8, 4096)?;
    let cache = filled_in(rt, alloc, &mut region, 0, 1, &[32, 32, 1, 2])?;
    let want: [Want; 3] = [(0, 1, 1), (1, 2, 1), (5, 32, 2)];
    set(alloc, Mark::TakesNone);
    check_all(rt, cache.posting(), &want, 11);
    set(alloc, Mark::MayTake);
    Ok(())
}

#[test]
fn a_posting_takes_none(rt: HostRuntime) {
    if posting(&rt, rt.alloc()).is_err() {
        assert!(rt; posting(&rt, rt.alloc()).is_ok());
    }
}

fn put_back(rt: &impl Abort, alloc: Global) -> Result<(), NoMemory> {
    let mut region = Vec::from_elem(alloc, 0u8, 4096)?;
    let cache = filled_in(rt, alloc, &mut region, 0, 1, &[32, 32, 1, 2])?;
    set(alloc, Mark::TakesNone);
    check_left(rt, put_third_back(rt, cache.posting()));
    set(alloc, Mark::MayTake);
    Ok(())
}

#[test]
fn what_is_put_back_takes_none(rt: HostRuntime) {
    if put_back(&rt, rt.alloc()).is_err() {
        assert!(rt; put_back(&rt, rt.alloc()).is_ok());
    }
}

fn refused(rt: &impl Abort, alloc: Global) -> Result<(), NoMemory> {
    let mut region = Vec::from_elem(alloc, 0u8, 4096)?;
    let cache = filled_in(rt, alloc, &mut region, 0, 1, &[32, 32, 1, 2])?;
    set(alloc, Mark::TakesNone);
    set_first_aside(rt, cache);
    set(alloc, Mark::MayTake);
    Ok(())
}

#[test]
fn what_was_refused_takes_none(rt: HostRuntime) {
    if refused(&rt, rt.alloc()).is_err() {
        assert!(rt; refused(&rt, rt.alloc()).is_ok());
    }
}

// The batch of a posting is refused, and goes back.
fn set_aside<'r>(rt: &impl Abort, cache: Cache<'r>) -> Cache<'r> {
    let mut posting = cache.posting();
    let batch = posting.next_batch().expect(rt, "a batch");
    let mut refused = Refused::new(batch.sender(), batch.digits());
    refused.add(batch);
    assert!(rt; posting.next_batch().is_none());
    let mut cache = posting.end();
    cache.take_back(refused);
    cache
}

// A batch that was refused has its array again.
fn in_its_array(rt: &impl Abort, alloc: Global) -> Result<(), NoMemory> {
    let mut region = Vec::from_elem(alloc, 0u8, 4096)?;
    let mut cache = filled_in(rt, alloc, &mut region, 0, 2, &[1; 40])?;
    let first = packed(rt, alloc, &mut cache)?;
    put_parcel(rt, &mut cache, first);
    let second = packed(rt, alloc, &mut cache)?;
    cache.make_room(alloc);
    cache.make_room(alloc);
    put_parcel(rt, &mut cache, second);
    set(alloc, Mark::TakesNone);
    let mut cache = set_aside(rt, cache);
    set(alloc, Mark::MayTake);
    check_array(rt, &mut cache);
    Ok(())
}

#[test]
fn what_was_refused_has_its_array(rt: HostRuntime) {
    if in_its_array(&rt, rt.alloc()).is_err() {
        assert!(rt; in_its_array(&rt, rt.alloc()).is_ok());
    }
}

// The row has room for three of five batches.
fn post_some<'r>(rt: &impl Abort, cache: Cache<'r>, row: &mut BatchRow<'r>) {
    let (cache, moves) = cache.post_all(row);
    same(rt, "buffers left", cache.len(), 2);
    same(rt, "the moves", moves, 4);
}

fn post(rt: &impl Abort, alloc: Global) -> Result<(), NoMemory> {
    let mut region = Vec::from_elem(alloc, 0u8, 4096)?;
    let cache = filled_in(rt, alloc, &mut region, 0, 2, &[1, 2, 3, 16, 32])?;
    let mut row = BatchRow::new(alloc, 3)?;
    set(alloc, Mark::TakesNone);
    post_some(rt, cache, &mut row);
    set(alloc, Mark::MayTake);
    same(rt, "batches given", row.batches.len() as u64, 3);
    Ok(())
}

#[test]
fn a_post_takes_none(rt: HostRuntime) {
    if post(&rt, rt.alloc()).is_err() {
        assert!(rt; post(&rt, rt.alloc()).is_ok());
    }
}
