//! Four desks, driven by hand. With digits of 2 bits 0 is 0,0,0; 7 is 3,1,0; 11 is 3,2,0; 27 is
//! 3,2,1.
use super::{alloc_from, claim, class, counts, desk, free_is, handle, lend, parts, region};
use digit_route::RouteError;
use pool_desk::{Desk, Freed};
use region_cut::Part;
use std::alloc::Global;
use std::process::Abort;

// A buffer of 512 bytes of a chunk of its owner is freed at another desk.
fn leave<'r>(
    rt: &impl Abort,
    alloc: Global,
    owner: &mut Desk<'r>,
    at: &mut Desk<'r>,
    parts: &mut Vec<Part<'r>>,
) {
    claim(rt, owner, parts, class(15));
    let buf = lend(rt, alloc, owner, 512);
    free_is(rt, at, buf, Freed::Cached);
}

// No batch for `t`, and the desk is as before.
fn is_refused(rt: &impl Abort, desk: &mut Desk<'_>, t: u16, want: RouteError) {
    assert!(rt; desk.fault_for(t) == Some(want));
    assert!(rt; desk.batch_for(t).err() == Some(want));
    assert!(rt; counts(desk).1 == 1);
}

// A batch goes from one desk to another: so many come home, and so many are passed on.
pub(super) fn send<'r>(
    rt: &impl Abort,
    from: &mut Desk<'r>,
    to: &mut Desk<'r>,
    home: u64,
    on: u64,
) {
    let batch = from.batch_for(to.number()).ok().expect(rt, "a batch");
    let count = batch.len();
    let went = handle(rt, to, batch);
    assert!(rt; went.home == home && went.on == on);
    assert!(rt; count == went.home.saturating_add(went.on));
    assert!(rt; counts(from).1 == 0);
}

// The buffer that came home last, and how often it was passed on. No memory is taken for it.
fn came_home(rt: &impl Abort, alloc: Global, desk: &mut Desk<'_>, chunk: u16, forwards: u32) {
    let buf = alloc_from(alloc, desk, 512)
        .ok()
        .expect(rt, "one came home");
    assert!(rt; buf.slot().chunk == chunk && buf.forwards() == forwards);
}

// Nothing goes at first but to 27. Then 0 has a buffer of each.
fn leaves<'r>(
    rt: &impl Abort,
    alloc: Global,
    zero: &mut Desk<'r>,
    seven: &mut Desk<'r>,
    eleven: &mut Desk<'r>,
    far: &mut Desk<'r>,
    parts: &mut Vec<Part<'r>>,
) {
    leave(rt, alloc, far, zero, parts);
    is_refused(rt, zero, 3, RouteError::NotAnOwner);
    is_refused(rt, zero, 2, RouteError::NothingFor);
    is_refused(rt, zero, 0, RouteError::ToSelf);
    leave(rt, alloc, eleven, zero, parts);
    leave(rt, alloc, seven, zero, parts);
}

fn routes<'r>(
    rt: &impl Abort,
    alloc: Global,
    zero: &mut Desk<'r>,
    seven: &mut Desk<'r>,
    eleven: &mut Desk<'r>,
    far: &mut Desk<'r>,
) {
    send(rt, zero, seven, 1, 2);
    send(rt, seven, eleven, 1, 1);
    send(rt, eleven, far, 1, 0);
    came_home(rt, alloc, far, 2, 2);
    came_home(rt, alloc, eleven, 1, 1);
    came_home(rt, alloc, seven, 0, 0);
}

fn four<'r>(rt: &impl Abort, alloc: Global, mut parts: Vec<Part<'r>>) {
    let mut zero = desk(rt, 0);
    let mut seven = desk(rt, 7);
    let mut eleven = desk(rt, 11);
    let mut far = desk(rt, 27);
    leaves(
        rt,
        alloc,
        &mut zero,
        &mut seven,
        &mut eleven,
        &mut far,
        &mut parts,
    );
    routes(rt, alloc, &mut zero, &mut seven, &mut eleven, &mut far);
}

#[test]
fn goes_home_by_way_of_nearer_desks(rt: HostRuntime) {
    let alloc = rt.alloc();
    let mut region = region(&rt, alloc, 3);
    four(&rt, alloc, parts(&rt, alloc, &mut region));
}
