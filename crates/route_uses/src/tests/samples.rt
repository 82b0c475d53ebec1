//! Caches to test with, and the batches of them; and how numbers are compared.
ghost use Rattle.std.specs.Prelude.{◌≡◌, ◌<◌, []};

use crate::filling::fill;
use crate::offering::offer;
use digit_route::{Batch, Cache, Digits};
use region_cut::{Bump, Class, Part, cut};
use slot_chain::NoMemory;
use std::alloc::Global;
use std::process::Abort;

/// Both are the same. Where they are not, `what` says which value it is.
pub(crate) fn same(rt: &impl Abort, what: &str, found: u64, wanted: u64) {
    assert_eq!(rt; found, wanted, "{what}");
}

/// The same for a value of the desk `at`.
pub(crate) fn same_at(rt: &impl Abort, what: &str, at: u16, found: u64, wanted: u64) {
    assert_eq!(rt; found, wanted, "{what} {at}");
}

// The chunks of a region that has few.
fn parts<'r>(alloc: Global, region: &'r mut [u8]) -> Result<Vec<Part<'r>>, NoMemory> {
    match cut(alloc, region) {
        Ok(parts) => Ok(parts),
        Err(_) => Err(NoMemory),
    }
}

/// The slots of the region's first chunk, for the class of this number.
pub(crate) fn bump<'r>(
    rt: &impl Abort,
    alloc: Global,
    region: &'r mut [u8],
    class: u32,
) -> Result<Bump<'r>, NoMemory> {
    let class = Class::new(class).expect(rt, "a class");
    let part = parts(alloc, region)?.pop();
    Ok(part.expect(rt, "a chunk").bump(class))
}

/// An empty cache of the profile with 64 desks, which is due above 1,024 bytes.
pub(crate) fn empty<'r>(rt: &impl Abort, width: u32, desk: u16) -> Cache<'r> {
    let digits = Digits::new(width).expect(rt, "a width of 1 to 6");
    assert!(rt; desk < 64, "a desk's number");
    Cache::new(desk, digits, 1024)
}

/// A cache of the desk 0 with a buffer for each owner.
pub(crate) fn filled<'r>(
    rt: &impl Abort,
    alloc: Global,
    bump: &mut Bump<'r>,
    width: u32,
    owners: &[u16],
) -> Result<Cache<'r>, NoMemory> {
    let mut cache = empty(rt, width, 0);
    let taken = fill(alloc, bump, owners, &mut cache)?;
    same(rt, "buffers taken", taken, owners.len() as u64);
    Ok(cache)
}

/// The same in a region of its own, with slots of the class of this number.
pub(crate) fn filled_in<'r>(
    rt: &impl Abort,
    alloc: Global,
    region: &'r mut [u8],
    class: u32,
    width: u32,
    owners: &[u16],
) -> Result<Cache<'r>, NoMemory> {
    let mut bump = bump(rt, alloc, region, class)?;
    filled(rt, alloc, &mut bump, width, owners)
}

/// The batch for `t`, which has so many buffers.
pub(crate) fn take<'r>(rt: &impl Abort, cache: &mut Cache<'r>, t: u16, count: u64) -> Batch<'r> {
    let batch = cache.take_bucket_for(t).expect(rt, "a batch");
    same_at(rt, "the batch for", t, batch.len(), count);
    batch
}

/// Puts each buffer of a batch of so many into the cache, one by one.
pub(crate) fn put_each<'r>(rt: &impl Abort, cache: &mut Cache<'r>, batch: Batch<'r>, count: u64) {
    let mut magazine = batch.into_magazine();
    for _ in 0..count {
        let buf = magazine.pop().expect(rt, "a buffer");
        assert!(rt; offer(cache, buf).is_none());
    }
    assert!(rt; magazine.is_empty());
}

/// The next batch of the cache, which has so many buffers, all of 1.
pub(crate) fn next_of_1<'r>(rt: &impl Abort, cache: &mut Cache<'r>, count: u64) -> Batch<'r> {
    let batch = cache.next_batch().expect(rt, "the batch to 1");
    assert!(rt; batch.address() == 1);
    same(rt, "its buffers", batch.len(), count);
    batch
}

/// A cache of the desk 0 with 40 buffers of 1. Where memory is given, some of them stand in an array, and
/// the others are linked.
pub(crate) fn turned<'r>(
    rt: &impl Abort,
    alloc: Global,
    region: &'r mut [u8],
) -> Result<Cache<'r>, NoMemory> {
    let mut cache = filled_in(rt, alloc, region, 0, 2, &[1; 40])?;
    let batch = next_of_1(rt, &mut cache, 40);
    cache.make_room(alloc);
    put_each(rt, &mut cache, batch, 40);
    Ok(cache)
}
