//! Lists that are too long for a recursion: 800 chunks of 256 slots.
use super::{Play, claim, class, counts_are, free, lend_some, plays};
use pool_desk::Desk;
use region_cut::Part;
use slot_chain::Chain;
use std::alloc::Global;
use std::process::Abort;

const CHUNKS: u32 = 800;

// Half of the slots.
const COUNT: u64 = 102_400;

// All slots of so many chunks of class 0 are lent.
fn lend_all<'r>(
    rt: &impl Abort,
    alloc: Global,
    desk: &mut Desk<'r>,
    parts: &mut Vec<Part<'r>>,
    lent: &mut Chain<'r>,
) {
    for _ in 0..CHUNKS {
        claim(rt, desk, parts, class(0));
        lend_some(rt, alloc, desk, 16, 256, lent);
    }
}

fn free_some<'r>(rt: &impl Abort, desk: &mut Desk<'r>, count: u64, lent: &mut Chain<'r>) {
    for _ in 0..count {
        let buf = lent.pop().expect(rt, "one is lent");
        let _freed = free(rt, desk, buf);
    }
}

// Half of all slots come home, and half are freed at another desk. Both desks go with their lists.
pub(crate) fn frees_all<'r>(
    rt: &impl Abort,
    alloc: Global,
    owner: &mut Desk<'r>,
    other: &mut Desk<'r>,
    parts: &mut Vec<Part<'r>>,
    lent: &mut Chain<'r>,
) {
    lend_all(rt, alloc, owner, parts, lent);
    free_some(rt, owner, COUNT, lent);
    free_some(rt, other, COUNT, lent);
    counts_are(rt, owner, COUNT, 0);
    counts_are(rt, other, 0, COUNT);
}

#[test]
fn long_lists_take_no_depth(rt: HostRuntime) {
    plays(&rt, rt.alloc(), Play::FreesAll, (1, 0), 800);
}
