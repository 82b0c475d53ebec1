//! Parcels that come home as a whole, and are lent again so. Class 15 has 8 slots of 512 bytes in a chunk.
use super::parcels::{all_go_home, empty, free_all_is, packed};
use super::{Play, claim, class, counts_are, lend, lend_some, plays};
use pool_desk::{Desk, Freed};
use region_cut::Part;
use slot_chain::{BufParcel, Chain};
use std::alloc::Global;
use std::process::Abort;

// Whether an array of buffers of 512 bytes came into an empty parcel of so many places.
fn lends_whole<'r>(
    rt: &impl Abort,
    alloc: Global,
    owner: &mut Desk<'r>,
    places: u32,
    most: usize,
) -> Option<BufParcel<'r>> {
    let mut parcel = empty(rt, alloc, owner, places);
    assert!(rt; parcel.owner() == owner.number());
    owner
        .lend_whole(alloc, class(15), &mut parcel, most)
        .then_some(parcel)
}

// Three buffers of a parcel come home before there is room for an array, so they don't stay in theirs. Then
// there is room: where memory for it is refused, the next try works.
pub(super) fn make_room<'r>(rt: &impl Abort, alloc: Global, owner: &mut Desk<'r>) {
    let parcel = packed(rt, alloc, owner, 512, 3);
    free_all_is(rt, owner, parcel, Freed::Home);
    for _ in 0..3 {
        assert!(rt; lends_whole(rt, alloc, owner, 3, 3).is_none());
    }
}

// Three buffers of 512 bytes, the first of which is said to be filled.
fn filled<'r>(rt: &impl Abort, alloc: Global, owner: &mut Desk<'r>) -> BufParcel<'r> {
    let mut parcel = packed(rt, alloc, owner, 512, 3);
    assert!(rt; parcel.len() == 3 && parcel.buffers()[0].capacity() == 512);
    parcel.set_len_at(0, 200);
    parcel
}

// All three are lent, of other sums than their parcel had before, and nothing of them is filled.
fn are_lent<'r>(rt: &impl Abort, parcel: &BufParcel<'r>) {
    assert!(rt; parcel.len() == 3 && parcel.bytes_total() == 1536);
    for buf in parcel.buffers() {
        assert!(rt; buf.is_empty() && buf.forwards() == 0 && buf.capacity() == 512);
    }
}

// The array fits a parcel of as many places alone, and one that takes as many buffers.
pub(crate) fn lends_again<'r>(
    rt: &impl Abort,
    alloc: Global,
    owner: &mut Desk<'r>,
    parts: &mut Vec<Part<'r>>,
) {
    claim(rt, owner, parts, class(15));
    make_room(rt, alloc, owner);
    let parcel = filled(rt, alloc, owner);
    free_all_is(rt, owner, parcel, Freed::Home);
    counts_are(rt, owner, 8, 0);
    assert!(rt; lends_whole(rt, alloc, owner, 3, 2).is_none());
    assert!(rt; lends_whole(rt, alloc, owner, 4, 4).is_none());
    let parcel = lends_whole(rt, alloc, owner, 3, 3).expect(rt, "they came home together");
    are_lent(rt, &parcel);
    counts_are(rt, owner, 5, 0);
    assert!(rt; lends_whole(rt, alloc, owner, 3, 3).is_none());
}

#[test]
fn an_own_parcel_is_lent_again(rt: HostRuntime) {
    plays(&rt, rt.alloc(), Play::LendsAgain, (5, 0), 1);
}

// The other desk has room for arrays, so that one comes home in a batch as it is.
pub(crate) fn lends_anothers_again<'r>(
    rt: &impl Abort,
    alloc: Global,
    owner: &mut Desk<'r>,
    other: &mut Desk<'r>,
    parts: &mut Vec<Part<'r>>,
) {
    claim(rt, owner, parts, class(15));
    make_room(rt, alloc, owner);
    for _ in 0..3 {
        let parcel = filled(rt, alloc, owner);
        free_all_is(rt, other, parcel, Freed::Cached);
        all_go_home(rt, other, owner, 3);
        other.make_room(alloc);
        other.make_room(alloc);
    }
    let parcel = lends_whole(rt, alloc, owner, 3, 64).expect(rt, "they came home together");
    are_lent(rt, &parcel);
    counts_are(rt, owner, 5, 0);
}

#[test]
fn a_parcel_that_another_freed_is_lent_again(rt: HostRuntime) {
    plays(&rt, rt.alloc(), Play::LendsAnothersAgain, (1, 0), 1);
}

// Buffers of two classes don't stay in their array, and one that does is taken apart where a buffer is lent
// that lies in no other place.
pub(crate) fn takes_apart<'r>(
    rt: &impl Abort,
    alloc: Global,
    owner: &mut Desk<'r>,
    parts: &mut Vec<Part<'r>>,
    lent: &mut Chain<'r>,
) {
    claim(rt, owner, parts, class(15));
    claim(rt, owner, parts, class(6));
    make_room(rt, alloc, owner);
    let mut mixed = empty(rt, alloc, owner, 3);
    for size in [512, 512, 100] {
        let buf = lend(rt, alloc, owner, size);
        assert!(rt; mixed.push(buf).is_ok());
    }
    free_all_is(rt, owner, mixed, Freed::Home);
    let parcel = filled(rt, alloc, owner);
    free_all_is(rt, owner, parcel, Freed::Home);
    lend_some(rt, alloc, owner, 512, 8, lent);
    for tag in lent.walk() {
        assert!(rt; tag.class == class(15) && tag.owner == 5);
    }
    assert!(rt; lent.len() == 8 && !owner.has_home(class(15)));
}

#[test]
fn an_array_is_taken_apart_for_a_single_buffer(rt: HostRuntime) {
    plays(&rt, rt.alloc(), Play::TakesApart, (5, 0), 2);
}
