//! Room for the pointers to others' buffers, made behind a post.
use super::{Play, claim, class, counts_are, free_is, handle, lend_some, plays};
use pool_desk::{Desk, Freed};
use region_cut::Part;
use slot_chain::Chain;
use std::alloc::Global;
use std::process::Abort;

// Twenty buffers are lent and freed at the other desk, which posts them and makes room: for 16 at
// first, and then for 32.
fn go_round<'r>(
    rt: &impl Abort,
    alloc: Global,
    owner: &mut Desk<'r>,
    other: &mut Desk<'r>,
    lent: &mut Chain<'r>,
) {
    lend_some(rt, alloc, owner, 100, 20, lent);
    for _ in 0..20 {
        let buf = lent.pop().expect(rt, "a buffer");
        free_is(rt, other, buf, Freed::Cached);
    }
    counts_are(rt, other, 0, 20);
    let batch = other.next_batch().expect(rt, "a batch");
    let came = handle(rt, owner, batch);
    assert!(rt; came.home == 20 && came.on == 0);
    other.make_room(alloc);
    counts_are(rt, other, 0, 0);
    counts_are(rt, owner, 36, 0);
}

// They come home, whether there was room or memory for it was refused.
pub(crate) fn goes_round<'r>(
    rt: &impl Abort,
    alloc: Global,
    owner: &mut Desk<'r>,
    other: &mut Desk<'r>,
    parts: &mut Vec<Part<'r>>,
    lent: &mut Chain<'r>,
) {
    claim(rt, owner, parts, class(6));
    for _ in 0..4 {
        go_round(rt, alloc, owner, other, lent);
    }
}

#[test]
fn buffers_come_home_with_room_and_without(rt: HostRuntime) {
    plays(&rt, rt.alloc(), Play::GoesRound, (1, 0), 1);
}
