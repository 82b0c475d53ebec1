//! A cache is posted, and what could not be posted comes back.
use super::{
    claim, class, comes_home, counts_are, desk, free_is, goes_home, lend, parts, region, retired,
};
use desk_uses::cached_were_passed_on_few_times;
use pool_desk::{Desk, Freed, IdleDesk};
use region_cut::Part;
use std::alloc::Global;
use std::process::Abort;

// So many bytes are in the cache, which is due above 4,096.
fn cached_is(rt: &impl Abort, desk: &Desk<'_>, bytes: u64) {
    assert!(rt; desk.cached_bytes() == bytes);
    assert!(rt; desk.limit() == 4096 && !desk.is_due());
    assert!(rt; cached_were_passed_on_few_times(desk) == desk.number());
}

// The cache gets one buffer of the other desk.
fn cache_one<'r>(rt: &impl Abort, alloc: Global, desk: &mut Desk<'r>, owner: &mut Desk<'r>) {
    let buf = lend(rt, alloc, owner, 512);
    cached_is(rt, desk, 0);
    free_is(rt, desk, buf, Freed::Cached);
    cached_is(rt, desk, 512);
}

// Its one batch comes back to it.
fn is_given_back<'r>(rt: &impl Abort, desk: Desk<'r>) -> Desk<'r> {
    let mut posting = desk.posting();
    let batch = posting.next_batch().expect(rt, "one goes to 1");
    assert!(rt; posting.next_batch().is_none());
    let desk = posting.refused(batch);
    counts_are(rt, &desk, 0, 1);
    desk
}

// Its one batch goes to the owner.
fn is_posted<'r>(rt: &impl Abort, desk: Desk<'r>, owner: &mut Desk<'r>) -> Desk<'r> {
    let mut posting = desk.posting();
    let batch = posting.next_batch().expect(rt, "one goes to 1");
    let desk = posting.end();
    counts_are(rt, &desk, 0, 0);
    comes_home(rt, owner, batch);
    desk
}

// It is handed back where its cache isn't empty.
fn is_unsettled<'r>(rt: &impl Abort, desk: Desk<'r>) -> Desk<'r> {
    desk.retire().err().expect(rt, "its cache is not empty")
}

pub(super) fn goes_to_another_worker(rt: &impl Abort, idle: IdleDesk<'_>, home: u64) {
    assert!(rt; idle.limit() == 4096 && idle.digits().count() == 3);
    let desk = idle.adopt(5);
    assert!(rt; desk.worker() == 5);
    counts_are(rt, &desk, home, 0);
}

// Its one batch comes back to it.
pub(super) fn comes_back(rt: &impl Abort, desk: &mut Desk<'_>) {
    let batch = desk.next_batch().expect(rt, "one goes to 1");
    assert!(rt; desk.next_batch().is_none());
    desk.refused(batch);
    counts_are(rt, desk, 0, 1);
}

// A batch is taken back and goes home, and another buffer is cached.
pub(super) fn takes_back<'r>(
    rt: &impl Abort,
    alloc: Global,
    zero: &mut Desk<'r>,
    one: &mut Desk<'r>,
    parts: &mut Vec<Part<'r>>,
) {
    claim(rt, one, parts, class(15));
    cache_one(rt, alloc, zero, one);
    comes_back(rt, zero);
    goes_home(rt, zero, one);
    cache_one(rt, alloc, zero, one);
}

// The cache is posted, in rounds.
pub(super) fn rounds<'r>(rt: &impl Abort, zero: Desk<'r>, one: &mut Desk<'r>) -> Desk<'r> {
    let zero = is_unsettled(rt, zero);
    let zero = is_given_back(rt, zero);
    is_posted(rt, zero, one)
}

// Then both workers leave.
fn posts<'r>(rt: &impl Abort, alloc: Global, mut parts: Vec<Part<'r>>) {
    let mut one = desk(rt, 1);
    let mut zero = desk(rt, 0);
    takes_back(rt, alloc, &mut zero, &mut one, &mut parts);
    let zero = rounds(rt, zero, &mut one);
    goes_to_another_worker(rt, retired(rt, zero), 0);
    goes_to_another_worker(rt, retired(rt, one), 8);
}

#[test]
fn posts_in_rounds_and_takes_back(rt: HostRuntime) {
    let alloc = rt.alloc();
    let mut region = region(&rt, alloc, 1);
    posts(&rt, alloc, parts(&rt, alloc, &mut region));
}
