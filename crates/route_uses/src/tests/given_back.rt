//! What is dropped gives its boxes back: behind each drop as many blocks are lent as before what was
//! dropped was made. `.ci/no_memory.py` counts them. No clause says it: a drop that forgets its
//! buffers would meet all of them.
use crate::tests::samples::{filled_in, next_of_1, same, turned};
use digit_route::{Batch, Cache, Posting, Refused};
use memory_marks::{Mark, set};
use slot_chain::NoMemory;
use std::alloc::Global;
use std::process::Abort;

fn cache(rt: &impl Abort, alloc: Global) -> Result<(), NoMemory> {
    let mut region = Vec::from_elem(alloc, 0u8, 4096)?;
    set(alloc, Mark::Lent);
    let cache = turned(rt, alloc, &mut region)?;
    same(rt, "the buffers", cache.len(), 40);
    drop(cache);
    set(alloc, Mark::GivenBack);
    Ok(())
}

#[test]
fn by_a_full_cache(rt: HostRuntime) {
    if cache(&rt, rt.alloc()).is_err() {
        assert!(rt; cache(&rt, rt.alloc()).is_ok());
    }
}

// All buffers of such a cache, in a batch.
fn full_batch<'r>(
    rt: &impl Abort,
    alloc: Global,
    region: &'r mut [u8],
) -> Result<Batch<'r>, NoMemory> {
    let mut cache = turned(rt, alloc, region)?;
    Ok(next_of_1(rt, &mut cache, 40))
}

fn batch(rt: &impl Abort, alloc: Global) -> Result<(), NoMemory> {
    let mut region = Vec::from_elem(alloc, 0u8, 4096)?;
    set(alloc, Mark::Lent);
    let batch = full_batch(rt, alloc, &mut region)?;
    same(rt, "the buffers", batch.len(), 40);
    drop(batch);
    set(alloc, Mark::GivenBack);
    Ok(())
}

#[test]
fn by_a_batch(rt: HostRuntime) {
    if batch(&rt, rt.alloc()).is_err() {
        assert!(rt; batch(&rt, rt.alloc()).is_ok());
    }
}

// A posting in its first round, with a batch of four gone, and four left in two later rounds.
fn begun<'r>(rt: &impl Abort, cache: Cache<'r>) -> Posting<'r> {
    let mut posting = cache.posting();
    let batch = posting.next_batch().expect(rt, "the batch to 1");
    same(rt, "the batch", batch.len(), 4);
    posting
}

fn posting(rt: &impl Abort, alloc: Global) -> Result<(), NoMemory> {
    let mut region = Vec::from_elem(alloc, 0u8, 4096)?;
    set(alloc, Mark::Lent);
    let owners = [1, 1, 1, 1, 4, 4, 16, 16];
    let cache = filled_in(rt, alloc, &mut region, 0, 2, &owners)?;
    let mut posting = begun(rt, cache);
    let batch = posting.next_batch().expect(rt, "the batch to 4");
    same(rt, "the next batch", batch.len(), 2);
    drop(posting);
    drop(batch);
    set(alloc, Mark::GivenBack);
    Ok(())
}

#[test]
fn by_a_posting(rt: HostRuntime) {
    if posting(&rt, rt.alloc()).is_err() {
        assert!(rt; posting(&rt, rt.alloc()).is_ok());
    }
}

// All buffers of such a cache were refused.
fn refuse_all<'r>(rt: &impl Abort, mut cache: Cache<'r>) -> Refused<'r> {
    let batch = cache.next_batch().expect(rt, "a batch");
    let mut refused = Refused::new(batch.sender(), batch.digits());
    refused.add(batch);
    assert!(rt; cache.is_empty() && !refused.is_empty());
    refused
}

fn refused(rt: &impl Abort, alloc: Global) -> Result<(), NoMemory> {
    let mut region = Vec::from_elem(alloc, 0u8, 4096)?;
    set(alloc, Mark::Lent);
    let cache = turned(rt, alloc, &mut region)?;
    drop(refuse_all(rt, cache));
    set(alloc, Mark::GivenBack);
    Ok(())
}

#[test]
fn by_what_was_refused(rt: HostRuntime) {
    if refused(&rt, rt.alloc()).is_err() {
        assert!(rt; refused(&rt, rt.alloc()).is_ok());
    }
}
