//! What is dropped gives its boxes back: behind each drop as many blocks are lent as before what was
//! dropped was made. `.ci/no_memory.py` counts them. No clause says it: a drop that forgets its
//! buffers would meet all of them.
use super::parcels::{all_go_home, free_all_is, packed};
use super::{claim, class, counts_are, desk, free_is, lend, parts, region, retired};
use memory_marks::{Mark, set};
use pool_desk::{Desk, DeskPosting, Freed};
use region_cut::Part;
use std::alloc::Global;
use std::process::Abort;

// So many buffers of one desk are freed at another, one by one.
fn leave<'r>(rt: &impl Abort, alloc: Global, owner: &mut Desk<'r>, at: &mut Desk<'r>, count: u32) {
    for _ in 0..count {
        let buf = lend(rt, alloc, owner, 100);
        free_is(rt, at, buf, Freed::Cached);
    }
}

// A parcel of so many buffers of one desk is freed at another.
fn leave_parcel<'r>(
    rt: &impl Abort,
    alloc: Global,
    owner: &mut Desk<'r>,
    at: &mut Desk<'r>,
    count: u32,
) {
    let parcel = packed(rt, alloc, owner, 100, count);
    free_all_is(rt, at, parcel, Freed::Cached);
}

// The cache gets room for pointers and for a parcel's array. Then it has both, and linked buffers.
fn fill_cache<'r>(rt: &impl Abort, alloc: Global, owner: &mut Desk<'r>, at: &mut Desk<'r>) {
    leave_parcel(rt, alloc, owner, at, 4);
    all_go_home(rt, at, owner, 4);
    at.make_room(alloc);
    leave_parcel(rt, alloc, owner, at, 4);
    leave(rt, alloc, owner, at, 20);
    counts_are(rt, at, 0, 24);
}

// Own buffers come home one by one and as a parcel, whose array is kept.
fn fill_home<'r>(rt: &impl Abort, alloc: Global, owner: &mut Desk<'r>, parts: &mut Vec<Part<'r>>) {
    claim(rt, owner, parts, class(6));
    let parcel = packed(rt, alloc, owner, 100, 4);
    let buf = lend(rt, alloc, owner, 100);
    free_is(rt, owner, buf, Freed::Home);
    free_all_is(rt, owner, parcel, Freed::Home);
    counts_are(rt, owner, 36, 24);
}

// Desk 0 has a cache of buffers of 1, slots at home and a kept array. Of desk 1 some slots never had a box.
fn filled<'r>(
    rt: &impl Abort,
    alloc: Global,
    parts: &mut Vec<Part<'r>>,
    owner: &mut Desk<'r>,
) -> Desk<'r> {
    let mut full = desk(rt, 0);
    claim(rt, owner, parts, class(6));
    fill_cache(rt, alloc, owner, &mut full);
    fill_home(rt, alloc, &mut full, parts);
    full
}

fn drops_desk<'r>(rt: &impl Abort, alloc: Global, mut parts: Vec<Part<'r>>) {
    let mut owner = desk(rt, 1);
    let full = filled(rt, alloc, &mut parts, &mut owner);
    drop(full);
    drop(owner);
}

#[test]
fn by_a_full_desk(rt: HostRuntime) {
    let alloc = rt.alloc();
    let mut region = region(&rt, alloc, 2);
    set(alloc, Mark::Lent);
    drops_desk(&rt, alloc, parts(&rt, alloc, &mut region));
    set(alloc, Mark::GivenBack);
}

// What goes to the owner was taken out, and dropped.
fn begun<'r>(rt: &impl Abort, full: Desk<'r>, owner: &Desk<'_>) -> DeskPosting<'r> {
    let mut posting = full.posting();
    let batch = posting.next_batch().expect(rt, "the batch to 1");
    assert!(rt; batch.address() == owner.number() && batch.len() == 24);
    posting
}

// Four buffers of 4 are left behind the first round.
fn drops_posting<'r>(rt: &impl Abort, alloc: Global, mut parts: Vec<Part<'r>>) {
    let mut owner = desk(rt, 1);
    let mut four = desk(rt, 4);
    let mut full = filled(rt, alloc, &mut parts, &mut owner);
    claim(rt, &mut four, &mut parts, class(6));
    leave(rt, alloc, &mut four, &mut full, 4);
    counts_are(rt, &full, 36, 28);
    drop(begun(rt, full, &owner));
}

#[test]
fn by_a_posting(rt: HostRuntime) {
    let alloc = rt.alloc();
    let mut region = region(&rt, alloc, 3);
    set(alloc, Mark::Lent);
    drops_posting(&rt, alloc, parts(&rt, alloc, &mut region));
    set(alloc, Mark::GivenBack);
}

// The cache was sent home before.
fn drops_idle<'r>(rt: &impl Abort, alloc: Global, mut parts: Vec<Part<'r>>) {
    let mut owner = desk(rt, 1);
    let mut full = filled(rt, alloc, &mut parts, &mut owner);
    let batch = full.next_batch().expect(rt, "a batch");
    drop(batch);
    let idle = retired(rt, full);
    assert!(rt; idle.counts() == (36, 0));
    drop(idle);
}

#[test]
fn by_an_idle_desk(rt: HostRuntime) {
    let alloc = rt.alloc();
    let mut region = region(&rt, alloc, 2);
    set(alloc, Mark::Lent);
    drops_idle(&rt, alloc, parts(&rt, alloc, &mut region));
    set(alloc, Mark::GivenBack);
}
