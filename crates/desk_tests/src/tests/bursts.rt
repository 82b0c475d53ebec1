//! Parcels and single buffers in one cache, with room for arrays and without.
use super::parcels::{all_go_home, free_all_is, packed};
use super::{Play, claim, class, counts_are, free_is, lend_some, plays};
use pool_desk::{Desk, Freed};
use region_cut::Part;
use slot_chain::Chain;
use std::alloc::Global;
use std::process::Abort;

// A parcel of so many buffers is freed at the other desk.
fn leave<'r>(
    rt: &impl Abort,
    alloc: Global,
    owner: &mut Desk<'r>,
    other: &mut Desk<'r>,
    count: u32,
) {
    let parcel = packed(rt, alloc, owner, 100, count);
    free_all_is(rt, other, parcel, Freed::Cached);
}

// Thirty of the owner's 36 buffers are freed at the other desk, between two parcels twenty one by one: more than the
// first array has places for. All come home.
fn burst<'r>(
    rt: &impl Abort,
    alloc: Global,
    owner: &mut Desk<'r>,
    other: &mut Desk<'r>,
    lent: &mut Chain<'r>,
) {
    leave(rt, alloc, owner, other, 6);
    lend_some(rt, alloc, owner, 100, 20, lent);
    for _ in 0..20 {
        let buf = lent.pop().expect(rt, "a buffer");
        free_is(rt, other, buf, Freed::Cached);
    }
    leave(rt, alloc, owner, other, 4);
    counts_are(rt, other, 0, 30);
    all_go_home(rt, other, owner, 30);
    counts_are(rt, owner, 36, 0);
}

// The other desk makes room behind each batch.
pub(crate) fn bursts<'r>(
    rt: &impl Abort,
    alloc: Global,
    owner: &mut Desk<'r>,
    other: &mut Desk<'r>,
    parts: &mut Vec<Part<'r>>,
    lent: &mut Chain<'r>,
) {
    claim(rt, owner, parts, class(6));
    for _ in 0..4 {
        burst(rt, alloc, owner, other, lent);
        other.make_room(alloc);
    }
}

// It never makes room.
pub(crate) fn bursts_linked<'r>(
    rt: &impl Abort,
    alloc: Global,
    owner: &mut Desk<'r>,
    other: &mut Desk<'r>,
    parts: &mut Vec<Part<'r>>,
    lent: &mut Chain<'r>,
) {
    claim(rt, owner, parts, class(6));
    for _ in 0..2 {
        burst(rt, alloc, owner, other, lent);
    }
}

#[test]
fn parcels_come_home_among_single_buffers(rt: HostRuntime) {
    plays(&rt, rt.alloc(), Play::Bursts, (1, 0), 1);
}

#[test]
fn parcels_come_home_without_room(rt: HostRuntime) {
    plays(&rt, rt.alloc(), Play::BurstsLinked, (1, 0), 1);
}
