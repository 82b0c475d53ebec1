//! Arrays of parcels that came home, kept for parcels to come.
use super::parcels::{all_go_home, empty, free_all_is};
use super::{Play, claim, class, free_is, lend, plays};
use pool_desk::{Desk, Freed};
use region_cut::Part;
use slot_chain::BufParcel;
use std::alloc::Global;
use std::process::Abort;

// Whether there was room for one more of the desk's buffers.
fn takes_one<'r>(
    rt: &impl Abort,
    alloc: Global,
    owner: &mut Desk<'r>,
    parcel: &mut BufParcel<'r>,
) -> bool {
    let buf = lend(rt, alloc, owner, 100);
    match parcel.push(buf) {
        Ok(()) => true,
        Err(back) => {
            free_is(rt, owner, back, Freed::Home);
            false
        }
    }
}

// A parcel of one buffer, with so many places, comes home by the other desk. That then has room for
// arrays: where memory for it is refused, the next try works.
fn comes_home<'r>(
    rt: &impl Abort,
    alloc: Global,
    owner: &mut Desk<'r>,
    other: &mut Desk<'r>,
    places: u32,
) {
    let mut parcel = empty(rt, alloc, owner, places);
    assert!(rt; takes_one(rt, alloc, owner, &mut parcel));
    free_all_is(rt, other, parcel, Freed::Cached);
    all_go_home(rt, other, owner, 1);
    other.make_room(alloc);
    other.make_room(alloc);
}

// Whether the next parcel lies over a larger array than it has to.
fn has_more<'r>(rt: &impl Abort, alloc: Global, owner: &mut Desk<'r>) -> bool {
    let mut parcel = empty(rt, alloc, owner, 1);
    assert!(rt; takes_one(rt, alloc, owner, &mut parcel));
    takes_one(rt, alloc, owner, &mut parcel)
}

// An array comes home by a batch only where there was room for it. One for 256 buffers is kept, a larger
// one isn't, and one that is kept serves once. An own parcel's is kept too.
pub(crate) fn keeps_arrays<'r>(
    rt: &impl Abort,
    alloc: Global,
    owner: &mut Desk<'r>,
    other: &mut Desk<'r>,
    parts: &mut Vec<Part<'r>>,
) {
    claim(rt, owner, parts, class(6));
    comes_home(rt, alloc, owner, other, 256);
    assert!(rt; !has_more(rt, alloc, owner));
    comes_home(rt, alloc, owner, other, 256);
    assert!(rt; has_more(rt, alloc, owner));
    assert!(rt; !has_more(rt, alloc, owner));
    comes_home(rt, alloc, owner, other, 257);
    assert!(rt; !has_more(rt, alloc, owner));
    let own = empty(rt, alloc, owner, 256);
    free_all_is(rt, owner, own, Freed::Home);
    assert!(rt; has_more(rt, alloc, owner));
    assert!(rt; !has_more(rt, alloc, owner));
}

// Of two arrays that are kept, the one that came last is too small for the first parcel: it is passed over,
// and kept for the second.
pub(crate) fn passes_over<'r>(
    rt: &impl Abort,
    alloc: Global,
    owner: &mut Desk<'r>,
    parts: &mut Vec<Part<'r>>,
) {
    claim(rt, owner, parts, class(6));
    let large = empty(rt, alloc, owner, 256);
    let small = empty(rt, alloc, owner, 1);
    free_all_is(rt, owner, large, Freed::Home);
    free_all_is(rt, owner, small, Freed::Home);
    let large = empty(rt, alloc, owner, 2);
    assert!(rt; large.places() >= 256);
    let small = empty(rt, alloc, owner, 1);
    assert!(rt; small.places() < 256);
}

#[test]
fn an_array_that_is_too_small_is_passed_over(rt: HostRuntime) {
    plays(&rt, rt.alloc(), Play::PassesOver, (1, 0), 1);
}

#[test]
fn arrays_are_kept_for_parcels_to_come(rt: HostRuntime) {
    plays(&rt, rt.alloc(), Play::KeepsArrays, (1, 0), 1);
}
