//! The calls that take no memory, between two marks behind which `.ci/no_memory.py` refuses each
//! allocation. No clause says that a call takes none. Class 15 has 8 slots of 512 bytes in a chunk.
use super::parcels::{all_go_home, empty, free_all_is, packed};
use super::passing::{leave_three, post};
use super::posting::{comes_back, goes_to_another_worker, rounds, takes_back};
use super::route::send;
use super::whole::make_room;
use super::{
    alloc_from, claim, claim_or_not, class, counts_are, desk, free_is, lend_some, parts, region,
    retired,
};
use digit_route::{Refused, RouteError};
use memory_marks::{Mark, set};
use pool_desk::{Desk, DeskError, Freed};
use region_cut::Part;
use region_cut::endings::Endings;
use slot_chain::{BufParcel, Chain};
use std::alloc::Global;
use std::process::Abort;

// All eight slots are lent, so that each has its box.
fn lend_all<'r>(rt: &impl Abort, alloc: Global, owner: &mut Desk<'r>) -> Chain<'r> {
    let mut lent = Chain::new();
    lend_some(rt, alloc, owner, 512, 8, &mut lent);
    counts_are(rt, owner, 0, 0);
    lent
}

// The same where all came home before.
fn lend_again<'r>(rt: &impl Abort, alloc: Global, owner: &mut Desk<'r>) -> Chain<'r> {
    let mut lent = Chain::new();
    for _ in 0..8 {
        let buf = alloc_from(alloc, owner, 512);
        lent.push(buf.ok().expect(rt, "one came home"));
    }
    assert!(rt; !owner.has_home(class(15)));
    lent
}

fn free_each<'r>(rt: &impl Abort, at: &mut Desk<'r>, lent: Chain<'r>, want: Freed) {
    for buf in lent {
        free_is(rt, at, buf, want);
    }
}

// All come home, and are lent again.
fn go_round<'r>(rt: &impl Abort, alloc: Global, owner: &mut Desk<'r>, lent: Chain<'r>) {
    free_each(rt, owner, lent, Freed::Home);
    assert!(rt; owner.has_home(class(15)));
    counts_are(rt, owner, 8, 0);
    let lent = lend_again(rt, alloc, owner);
    assert!(rt; lent.len() == 8);
    counts_are(rt, owner, 0, 0);
}

// A chunk is drawn, and the next one isn't needed then.
fn draw<'r>(rt: &impl Abort, owner: &mut Desk<'r>, parts: &mut Vec<Part<'r>>) {
    claim(rt, owner, parts, class(15));
    counts_are(rt, owner, 8, 0);
    let refused = claim_or_not(rt, owner, parts, class(15)).err();
    let (_part, error) = refused.expect(rt, "not needed");
    assert!(rt; error == DeskError::NotNeeded);
}

fn homes<'r>(rt: &impl Abort, alloc: Global, mut parts: Vec<Part<'r>>) {
    let mut owner = desk(rt, 5);
    claim(rt, &mut owner, &mut parts, class(15));
    let lent = lend_all(rt, alloc, &mut owner);
    set(alloc, Mark::TakesNone);
    go_round(rt, alloc, &mut owner, lent);
    draw(rt, &mut owner, &mut parts);
    set(alloc, Mark::MayTake);
}

#[test]
fn what_comes_home_takes_none(rt: HostRuntime) {
    let alloc = rt.alloc();
    let mut region = region(&rt, alloc, 3);
    homes(&rt, alloc, parts(&rt, alloc, &mut region));
}

// A batch of the desk is refused, and another is set aside. Both are in the cache again.
fn takes_all_back(rt: &impl Abort, at: &mut Desk<'_>) {
    let batch = at.next_batch().expect(rt, "a batch");
    at.refused(batch);
    let batch = at.next_of_first_round().expect(rt, "the batch again");
    let mut refused = Refused::new(batch.sender(), batch.digits());
    refused.add(batch);
    assert!(rt; at.next_of_first_round().is_none());
    at.take_back(refused);
    counts_are(rt, at, 0, 8);
}

// The desk has buffers of 1 alone, and is 0.
fn has_faults(rt: &impl Abort, at: &Desk<'_>) {
    assert!(rt; at.fault_for(1).is_none());
    assert!(rt; at.fault_for(0) == Some(RouteError::ToSelf));
    assert!(rt; at.fault_for(2) == Some(RouteError::NothingFor));
}

// All eight are freed at another desk, and come home by its batches.
fn cross<'r>(
    rt: &impl Abort,
    alloc: Global,
    owner: &mut Desk<'r>,
    other: &mut Desk<'r>,
    lent: Chain<'r>,
) {
    free_each(rt, other, lent, Freed::Cached);
    has_faults(rt, other);
    takes_all_back(rt, other);
    send(rt, other, owner, 8, 0);
    let lent = lend_again(rt, alloc, owner);
    free_each(rt, other, lent, Freed::Cached);
    all_go_home(rt, other, owner, 8);
    counts_are(rt, owner, 8, 0);
}

// The cache has no room for pointers at first. Behind the batches it gets some.
fn caches<'r>(rt: &impl Abort, alloc: Global, mut parts: Vec<Part<'r>>) {
    let mut owner = desk(rt, 1);
    let mut other = desk(rt, 0);
    claim(rt, &mut owner, &mut parts, class(15));
    let lent = lend_all(rt, alloc, &mut owner);
    set(alloc, Mark::TakesNone);
    cross(rt, alloc, &mut owner, &mut other, lent);
    set(alloc, Mark::MayTake);
    other.make_room(alloc);
    let lent = lend_all(rt, alloc, &mut owner);
    set(alloc, Mark::TakesNone);
    cross(rt, alloc, &mut owner, &mut other, lent);
    set(alloc, Mark::MayTake);
}

#[test]
fn what_is_cached_takes_none(rt: HostRuntime) {
    let alloc = rt.alloc();
    let mut region = region(&rt, alloc, 1);
    caches(&rt, alloc, parts(&rt, alloc, &mut region));
}

// An own parcel comes home, and the next one lies over its array.
fn go_home<'r>(rt: &impl Abort, alloc: Global, owner: &mut Desk<'r>, parcel: BufParcel<'r>) {
    free_all_is(rt, owner, parcel, Freed::Home);
    counts_are(rt, owner, 8, 0);
    let next = packed(rt, alloc, owner, 512, 3);
    free_all_is(rt, owner, next, Freed::Home);
    counts_are(rt, owner, 8, 0);
}

fn own_parcel<'r>(rt: &impl Abort, alloc: Global, mut parts: Vec<Part<'r>>) {
    let mut owner = desk(rt, 5);
    claim(rt, &mut owner, &mut parts, class(15));
    let parcel = packed(rt, alloc, &mut owner, 512, 3);
    set(alloc, Mark::TakesNone);
    go_home(rt, alloc, &mut owner, parcel);
    set(alloc, Mark::MayTake);
}

#[test]
fn an_own_parcel_takes_none(rt: HostRuntime) {
    let alloc = rt.alloc();
    let mut region = region(&rt, alloc, 1);
    own_parcel(&rt, alloc, parts(&rt, alloc, &mut region));
}

// A parcel that comes home as a whole is lent again as a whole.
fn whole_parcel<'r>(rt: &impl Abort, alloc: Global, mut parts: Vec<Part<'r>>) {
    let mut owner = desk(rt, 5);
    claim(rt, &mut owner, &mut parts, class(15));
    make_room(rt, alloc, &mut owner);
    let parcel = packed(rt, alloc, &mut owner, 512, 3);
    let mut next = empty(rt, alloc, &mut owner, 3);
    set(alloc, Mark::TakesNone);
    free_all_is(rt, &mut owner, parcel, Freed::Home);
    assert!(rt; next.owner() == owner.number());
    assert!(rt; owner.lend_whole(alloc, class(15), &mut next, 3));
    free_all_is(rt, &mut owner, next, Freed::Home);
    set(alloc, Mark::MayTake);
    counts_are(rt, &owner, 8, 0);
}

#[test]
fn a_whole_parcel_takes_none(rt: HostRuntime) {
    let alloc = rt.alloc();
    let mut region = region(&rt, alloc, 1);
    whole_parcel(&rt, alloc, parts(&rt, alloc, &mut region));
}

// A parcel of the owner is freed at another desk, and comes home.
fn cross_as_one<'r>(
    rt: &impl Abort,
    owner: &mut Desk<'r>,
    other: &mut Desk<'r>,
    parcel: BufParcel<'r>,
) {
    free_all_is(rt, other, parcel, Freed::Cached);
    counts_are(rt, other, 0, 3);
    all_go_home(rt, other, owner, 3);
}

// The first parcel finds no room. The second does, so that its array comes home as it is, and the third
// lies over it. It finds no room.
fn parcels<'r>(rt: &impl Abort, alloc: Global, mut parts: Vec<Part<'r>>) {
    let mut owner = desk(rt, 1);
    let mut other = desk(rt, 0);
    claim(rt, &mut owner, &mut parts, class(15));
    let first = packed(rt, alloc, &mut owner, 512, 3);
    set(alloc, Mark::TakesNone);
    cross_as_one(rt, &mut owner, &mut other, first);
    set(alloc, Mark::MayTake);
    other.make_room(alloc);
    other.make_room(alloc);
    let second = packed(rt, alloc, &mut owner, 512, 3);
    set(alloc, Mark::TakesNone);
    cross_as_one(rt, &mut owner, &mut other, second);
    let third = packed(rt, alloc, &mut owner, 512, 3);
    cross_as_one(rt, &mut owner, &mut other, third);
    set(alloc, Mark::MayTake);
}

#[test]
fn anothers_parcel_takes_none(rt: HostRuntime) {
    let alloc = rt.alloc();
    let mut region = region(&rt, alloc, 1);
    parcels(&rt, alloc, parts(&rt, alloc, &mut region));
}

// All eight are freed at another desk and come home, three times. The emptied magazine goes back each time.
fn cross_thrice<'r>(
    rt: &impl Abort,
    alloc: Global,
    owner: &mut Desk<'r>,
    other: &mut Desk<'r>,
    mut lent: Chain<'r>,
) {
    for _ in 0..3 {
        free_each(rt, other, lent, Freed::Cached);
        let batch = other.next_of_first_round().expect(rt, "a batch");
        assert!(rt; batch.address() == owner.number() && batch.digits() == owner.digits());
        let (counts, empty) = owner.handle_and_empty(batch);
        assert!(rt; counts.home == 8 && counts.on == 0);
        other.reuse(owner.number(), empty);
        // there is room already, so none is made
        other.make_room(alloc);
        lent = lend_again(rt, alloc, owner);
    }
}

fn magazines<'r>(rt: &impl Abort, alloc: Global, mut parts: Vec<Part<'r>>) {
    let mut owner = desk(rt, 1);
    let mut other = desk(rt, 0);
    claim(rt, &mut owner, &mut parts, class(15));
    let lent = lend_all(rt, alloc, &mut owner);
    cross(rt, alloc, &mut owner, &mut other, lent);
    other.make_room(alloc);
    let lent = lend_all(rt, alloc, &mut owner);
    set(alloc, Mark::TakesNone);
    cross_thrice(rt, alloc, &mut owner, &mut other, lent);
    set(alloc, Mark::MayTake);
}

#[test]
fn a_magazine_that_goes_back_takes_none(rt: HostRuntime) {
    let alloc = rt.alloc();
    let mut region = region(&rt, alloc, 1);
    magazines(&rt, alloc, parts(&rt, alloc, &mut region));
}

// Parcels of an owner are freed at another desk and come home as they are, three times.
fn parcels_cross_thrice<'r>(
    rt: &impl Abort,
    alloc: Global,
    owner: &mut Desk<'r>,
    other: &mut Desk<'r>,
    mut parcel: BufParcel<'r>,
) {
    for _ in 0..3 {
        free_all_is(rt, other, parcel, Freed::Cached);
        let batch = other.next_of_first_round().expect(rt, "a batch");
        assert!(rt; batch.address() == owner.number() && batch.digits() == owner.digits());
        let (counts, empty) = owner.handle_and_empty(batch);
        assert!(rt; counts.home == 3 && counts.on == 0);
        other.reuse(owner.number(), empty);
        other.make_room(alloc);
        parcel = packed(rt, alloc, owner, 512, 3);
    }
}

// The first parcel finds no room for its array, and the second takes its array along.
fn parcels_go_back<'r>(rt: &impl Abort, alloc: Global, mut parts: Vec<Part<'r>>) {
    let mut owner = desk(rt, 1);
    let mut other = desk(rt, 0);
    claim(rt, &mut owner, &mut parts, class(15));
    let first = packed(rt, alloc, &mut owner, 512, 3);
    cross_as_one(rt, &mut owner, &mut other, first);
    other.make_room(alloc);
    let second = packed(rt, alloc, &mut owner, 512, 3);
    set(alloc, Mark::TakesNone);
    parcels_cross_thrice(rt, alloc, &mut owner, &mut other, second);
    set(alloc, Mark::MayTake);
}

#[test]
fn room_for_parcels_that_goes_back_takes_none(rt: HostRuntime) {
    let alloc = rt.alloc();
    let mut region = region(&rt, alloc, 1);
    parcels_go_back(&rt, alloc, parts(&rt, alloc, &mut region));
}

// What is cached is posted, and both workers leave.
fn leave<'r>(rt: &impl Abort, mut zero: Desk<'r>, mut one: Desk<'r>) {
    comes_back(rt, &mut zero);
    let zero = rounds(rt, zero, &mut one);
    goes_to_another_worker(rt, retired(rt, zero), 0);
    goes_to_another_worker(rt, retired(rt, one), 8);
}

fn posts<'r>(rt: &impl Abort, alloc: Global, mut parts: Vec<Part<'r>>) {
    let mut one = desk(rt, 1);
    let mut zero = desk(rt, 0);
    takes_back(rt, alloc, &mut zero, &mut one, &mut parts);
    set(alloc, Mark::TakesNone);
    leave(rt, zero, one);
    set(alloc, Mark::MayTake);
}

#[test]
fn what_is_posted_takes_none(rt: HostRuntime) {
    let alloc = rt.alloc();
    let mut region = region(&rt, alloc, 1);
    posts(&rt, alloc, parts(&rt, alloc, &mut region));
}

// While its one batch is under way the desk has another worker. Then the batch is refused.
fn pass_on(rt: &impl Abort, zero: &mut Desk<'_>) {
    let mut posting = zero.take_posting();
    let batch = posting.next_batch().expect(rt, "one goes to 1");
    assert!(rt; posting.next_batch().is_none());
    zero.pass_to(5);
    assert!(rt; zero.is_settled() && zero.worker() == 5);
    let mut refused = Refused::new(batch.sender(), batch.digits());
    refused.add(batch);
    zero.take_back(refused);
    assert!(rt; !zero.is_settled());
    counts_are(rt, zero, 0, 1);
}

fn passes_on<'r>(rt: &impl Abort, alloc: Global, mut parts: Vec<Part<'r>>) {
    let mut one = desk(rt, 1);
    let mut zero = desk(rt, 0);
    takes_back(rt, alloc, &mut zero, &mut one, &mut parts);
    set(alloc, Mark::TakesNone);
    pass_on(rt, &mut zero);
    set(alloc, Mark::MayTake);
}

#[test]
fn what_is_passed_on_takes_none(rt: HostRuntime) {
    let alloc = rt.alloc();
    let mut region = region(&rt, alloc, 1);
    passes_on(&rt, alloc, parts(&rt, alloc, &mut region));
}

// Three batches, each in a round of its own.
fn later_rounds<'r>(rt: &impl Abort, alloc: Global, mut parts: Vec<Part<'r>>) {
    let mut one = desk(rt, 1);
    let mut four = desk(rt, 4);
    let mut sixteen = desk(rt, 16);
    claim(rt, &mut one, &mut parts, class(6));
    claim(rt, &mut four, &mut parts, class(6));
    claim(rt, &mut sixteen, &mut parts, class(6));
    let mut zero = desk(rt, 0);
    leave_three(rt, alloc, &mut zero, &mut one, &mut four, &mut sixteen);
    leave_three(rt, alloc, &mut zero, &mut one, &mut four, &mut sixteen);
    set(alloc, Mark::TakesNone);
    let zero = post(rt, zero, &mut one, &mut four, &mut sixteen);
    set(alloc, Mark::MayTake);
    counts_are(rt, &zero, 0, 0);
}

#[test]
fn later_rounds_take_none(rt: HostRuntime) {
    let alloc = rt.alloc();
    let mut region = region(&rt, alloc, 3);
    later_rounds(&rt, alloc, parts(&rt, alloc, &mut region));
}

// A desk with buffers at home and in the cache is ended.
fn ended<'r>(desk: Desk<'r>) -> Endings<'r> {
    let mut endings = Endings::new();
    desk.end(&mut endings);
    endings
}

fn ends<'r>(rt: &impl Abort, alloc: Global, mut parts: Vec<Part<'r>>) {
    let mut one = desk(rt, 1);
    let mut zero = desk(rt, 0);
    takes_back(rt, alloc, &mut zero, &mut one, &mut parts);
    counts_are(rt, &zero, 0, 1);
    counts_are(rt, &one, 7, 0);
    set(alloc, Mark::TakesNone);
    drop(ended(zero));
    drop(ended(one));
    set(alloc, Mark::MayTake);
}

#[test]
fn an_ended_desk_takes_none(rt: HostRuntime) {
    let alloc = rt.alloc();
    let mut region = region(&rt, alloc, 1);
    ends(&rt, alloc, parts(&rt, alloc, &mut region));
}
