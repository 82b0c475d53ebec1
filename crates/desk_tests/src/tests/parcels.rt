//! Parcels: buffers that are freed as a whole.
use super::{Play, alloc_from, claim, class, counts_are, handle, lend, plays};
use pool_desk::{Desk, Freed};
use region_cut::{Part, Profile, Slot};
use slot_chain::{BufParcel, Chain};
use std::alloc::Global;
use std::process::Abort;

// An empty parcel of the desk. After a want of memory the next try works.
pub(super) fn empty<'r>(
    rt: &impl Abort,
    alloc: Global,
    owner: &mut Desk<'r>,
    places: u32,
) -> BufParcel<'r> {
    let parcel = match owner.parcel(alloc, places as usize) {
        Ok(parcel) => parcel,
        Err(_) => owner
            .parcel(alloc, places as usize)
            .ok()
            .expect(rt, "memory is there again"),
    };
    assert!(rt; parcel.is_empty() && parcel.owner() == owner.number());
    parcel
}

// So many buffers of the desk, each lent for this many bytes.
pub(super) fn packed<'r>(
    rt: &impl Abort,
    alloc: Global,
    owner: &mut Desk<'r>,
    size: usize,
    count: u32,
) -> BufParcel<'r> {
    let mut parcel = empty(rt, alloc, owner, count);
    for _ in 0..count {
        let buf = lend(rt, alloc, owner, size);
        assert!(rt; parcel.push(buf).is_ok());
    }
    parcel
}

// What becomes of a freed parcel.
pub(super) fn free_all_is<'r>(
    rt: &impl Abort,
    desk: &mut Desk<'r>,
    parcel: BufParcel<'r>,
    want: Freed,
) {
    let _number = desk.number();
    match desk.digits().profile() {
        Profile::Pool => assert!(rt; parcel.owner() < 64),
        Profile::Pool2 => assert!(rt; parcel.owner() < 4096),
    }
    assert!(rt; desk.free_all(parcel) == want);
}

// Its next batch goes to the owner, and so many buffers come home.
pub(super) fn all_go_home<'r>(
    rt: &impl Abort,
    desk: &mut Desk<'r>,
    owner: &mut Desk<'r>,
    count: u64,
) {
    let batch = desk.next_batch().expect(rt, "they go home");
    let came = handle(rt, owner, batch);
    assert!(rt; came.home == count && came.on == 0);
    assert!(rt; desk.cached_bytes() == 0);
    counts_are(rt, desk, 0, 0);
}

fn has_slot(chain: &Chain<'_>, slot: Slot) -> bool {
    for tag in chain.walk() {
        if tag.slot == slot {
            return true;
        }
    }
    false
}

// The first slots of chunk 0, which came home, are lent again. No memory is taken for that.
fn lends_again<'r>(
    rt: &impl Abort,
    alloc: Global,
    desk: &mut Desk<'r>,
    count: u16,
    lent: &mut Chain<'r>,
) {
    for _ in 0..count {
        let buf = alloc_from(alloc, desk, 512)
            .ok()
            .expect(rt, "one came home");
        assert!(rt; buf.forwards() == 0);
        lent.push(buf);
    }
    for index in 0..count {
        assert!(rt; has_slot(lent, Slot { chunk: 0, index }), "{index}");
    }
}

// Three of eight slots come home, and an empty parcel changes nothing.
pub(crate) fn packs<'r>(
    rt: &impl Abort,
    alloc: Global,
    desk: &mut Desk<'r>,
    parts: &mut Vec<Part<'r>>,
    lent: &mut Chain<'r>,
) {
    claim(rt, desk, parts, class(15));
    let parcel = packed(rt, alloc, desk, 512, 3);
    counts_are(rt, desk, 5, 0);
    free_all_is(rt, desk, parcel, Freed::Home);
    counts_are(rt, desk, 8, 0);
    let nothing = empty(rt, alloc, desk, 3);
    free_all_is(rt, desk, nothing, Freed::Home);
    counts_are(rt, desk, 8, 0);
    lends_again(rt, alloc, desk, 3, lent);
    counts_are(rt, desk, 5, 0);
}

#[test]
fn an_own_parcel_comes_home(rt: HostRuntime) {
    plays(&rt, rt.alloc(), Play::Packs, (5, 0), 1);
}

// Its next batch comes back to it.
fn comes_back(rt: &impl Abort, desk: &mut Desk<'_>) {
    let batch = desk.next_batch().expect(rt, "one goes to the owner");
    assert!(rt; batch.len() == 3 && desk.cached_bytes() == 0);
    desk.refused(batch);
    assert!(rt; desk.cached_bytes() == 1536);
}

// Three buffers go into the cache, and then home; an empty parcel changes nothing.
pub(crate) fn packs_anothers<'r>(
    rt: &impl Abort,
    alloc: Global,
    owner: &mut Desk<'r>,
    other: &mut Desk<'r>,
    parts: &mut Vec<Part<'r>>,
    lent: &mut Chain<'r>,
) {
    let nothing = empty(rt, alloc, owner, 3);
    free_all_is(rt, other, nothing, Freed::Cached);
    assert!(rt; other.next_batch().is_none());
    claim(rt, owner, parts, class(15));
    let parcel = packed(rt, alloc, owner, 512, 3);
    free_all_is(rt, other, parcel, Freed::Cached);
    assert!(rt; other.cached_bytes() == 1536);
    counts_are(rt, other, 0, 3);
    comes_back(rt, other);
    counts_are(rt, other, 0, 3);
    all_go_home(rt, other, owner, 3);
    counts_are(rt, owner, 8, 0);
    lends_again(rt, alloc, owner, 3, lent);
}

#[test]
fn anothers_parcel_is_cached_and_goes_home(rt: HostRuntime) {
    plays(&rt, rt.alloc(), Play::PacksAnothers, (1, 0), 1);
}

// A parcel of so many buffers of 512 bytes is freed at the other desk.
fn cache<'r>(
    rt: &impl Abort,
    alloc: Global,
    owner: &mut Desk<'r>,
    other: &mut Desk<'r>,
    count: u32,
    want: Freed,
) {
    let parcel = packed(rt, alloc, owner, 512, count);
    free_all_is(rt, other, parcel, want);
}

// Eight buffers are the limit: a ninth is above it, and so are nine at once.
pub(crate) fn fills_at_once<'r>(
    rt: &impl Abort,
    alloc: Global,
    owner: &mut Desk<'r>,
    other: &mut Desk<'r>,
    parts: &mut Vec<Part<'r>>,
) {
    claim(rt, owner, parts, class(15));
    cache(rt, alloc, owner, other, 8, Freed::Cached);
    claim(rt, owner, parts, class(15));
    cache(rt, alloc, owner, other, 1, Freed::Due);
    counts_are(rt, other, 0, 9);
    all_go_home(rt, other, owner, 9);
    cache(rt, alloc, owner, other, 9, Freed::Due);
    all_go_home(rt, other, owner, 9);
    cache(rt, alloc, owner, other, 8, Freed::Cached);
}

#[test]
fn parcels_are_due_above_the_limit_alone(rt: HostRuntime) {
    plays(&rt, rt.alloc(), Play::FillsAtOnce, (1, 0), 2);
}
