//! Lists of slots, also where their growth is refused. Run these with each allocation failing in
//! turn.
use crate::tests::samples::{filled_in, take};
use digit_route::{Batch, Cache};
use region_cut::Slot;
use slot_chain::NoMemory;
use std::alloc::Global;
use std::process::Abort;

const OTHER: Slot = Slot { chunk: 7, index: 7 };

// A list that has a slot already. It has room for two, and has to grow for the others.
fn with_one(alloc: Global) -> Result<Vec<Slot>, NoMemory> {
    let mut slots = Vec::with_capacity(alloc, 2)?;
    slots.push(OTHER)?;
    Ok(slots)
}

fn same_slots(rt: &impl Abort, found: &[Slot], wanted: &[Slot]) {
    assert_eq!(rt; found, wanted);
}

fn check(rt: &impl Abort, slots: &mut Vec<Slot>) {
    slots.as_mut_slice().sort_unstable();
    let want = [
        Slot { chunk: 0, index: 0 },
        Slot { chunk: 0, index: 1 },
        Slot { chunk: 0, index: 2 },
        Slot { chunk: 0, index: 3 },
        Slot { chunk: 0, index: 4 },
        OTHER,
    ];
    same_slots(rt, slots.as_slice(), &want);
}

fn list_cache(rt: &impl Abort, alloc: Global, cache: &Cache<'_>) -> Result<(), NoMemory> {
    let mut slots = with_one(alloc)?;
    if cache.list_slots(&mut slots).is_err() {
        same_slots(rt, slots.as_slice(), &[OTHER]);
        cache.list_slots(&mut slots)?;
    }
    check(rt, &mut slots);
    Ok(())
}

fn list_batch(rt: &impl Abort, alloc: Global, batch: &Batch<'_>) -> Result<(), NoMemory> {
    let mut slots = with_one(alloc)?;
    if batch.list_slots(&mut slots).is_err() {
        same_slots(rt, slots.as_slice(), &[OTHER]);
        batch.list_slots(&mut slots)?;
    }
    check(rt, &mut slots);
    Ok(())
}

// Lists the cache, and then the batch that has all of it.
fn list_both(rt: &impl Abort, alloc: Global, mut cache: Cache<'_>) -> Result<(), NoMemory> {
    list_cache(rt, alloc, &cache)?;
    list_batch(rt, alloc, &take(rt, &mut cache, 7, 5))
}

fn list_all(rt: &impl Abort, alloc: Global) -> Result<(), NoMemory> {
    let mut region = Vec::from_elem(alloc, 0u8, 4096)?;
    let cache = filled_in(rt, alloc, &mut region, 0, 2, &[7, 11, 27, 3, 15])?;
    list_both(rt, alloc, cache)
}

// It passes whichever allocation is refused, since the second time none is.
#[test]
fn lists_all_or_none(rt: HostRuntime) {
    if list_all(&rt, rt.alloc()).is_err() {
        assert!(rt; list_all(&rt, rt.alloc()).is_ok());
    }
}
