//! Parcels of several owners at one desk, and what goes on from the desk that a batch comes to. With digits of 2 bits
//! 0 is 0,0,0; 1 is 1,0,0; 4 is 0,1,0; 16 is 0,0,1; 7 is 3,1,0; 11 is 3,2,0; 27 is 3,2,1. Class 6 has 36 slots of 112
//! bytes in a chunk.
use super::parcels::{free_all_is, packed};
use super::route::send;
use super::{alloc_from, claim, class, counts_are, desk, free_is, handle, lend, parts, region};
use digit_route::Batch;
use pool_desk::{Desk, Freed};
use region_cut::Part;
use std::alloc::Global;
use std::process::Abort;

// So many buffers of the owner are freed at another desk, as a parcel.
fn leave<'r>(rt: &impl Abort, alloc: Global, owner: &mut Desk<'r>, at: &mut Desk<'r>, count: u32) {
    let parcel = packed(rt, alloc, owner, 100, count);
    free_all_is(rt, at, parcel, Freed::Cached);
}

// Four as a parcel, and ten one by one.
fn leave_both<'r>(rt: &impl Abort, alloc: Global, owner: &mut Desk<'r>, at: &mut Desk<'r>) {
    leave(rt, alloc, owner, at, 4);
    for _ in 0..10 {
        let buf = lend(rt, alloc, owner, 100);
        free_is(rt, at, buf, Freed::Cached);
    }
}

// Four buffers of 27, and fourteen each of 11 and 7, are freed at 0. An array for those that come one by one has places
// for 16 at first, so of these four are linked.
fn leave_all<'r>(
    rt: &impl Abort,
    alloc: Global,
    zero: &mut Desk<'r>,
    seven: &mut Desk<'r>,
    eleven: &mut Desk<'r>,
    far: &mut Desk<'r>,
) {
    leave(rt, alloc, far, zero, 4);
    leave_both(rt, alloc, eleven, zero);
    leave_both(rt, alloc, seven, zero);
    counts_are(rt, zero, 0, 32);
}

// So many buffers of a batch come home, and the others go on.
fn arrives<'r>(rt: &impl Abort, owner: &mut Desk<'r>, batch: Batch<'r>, home: u64, on: u64) {
    let came = handle(rt, owner, batch);
    assert!(rt; came.home == home && came.on == on);
}

// All go to one of the owners.
fn send_all<'r>(
    rt: &impl Abort,
    zero: &mut Desk<'r>,
    seven: &mut Desk<'r>,
    eleven: &mut Desk<'r>,
    far: &mut Desk<'r>,
) {
    let batch = zero.next_batch().expect(rt, "a batch");
    match batch.address() {
        7 => arrives(rt, seven, batch, 14, 18),
        11 => arrives(rt, eleven, batch, 14, 18),
        _ => arrives(rt, far, batch, 4, 28),
    }
    counts_are(rt, zero, 0, 0);
}

// A batch goes to its address.
fn deliver<'r>(
    rt: &impl Abort,
    batch: Batch<'r>,
    seven: &mut Desk<'r>,
    eleven: &mut Desk<'r>,
    far: &mut Desk<'r>,
) {
    let _came = match batch.address() {
        7 => handle(rt, seven, batch),
        11 => handle(rt, eleven, batch),
        _ => handle(rt, far, batch),
    };
}

// What the three have of one another goes on until all is home: in two steps at most, a digit each.
fn send_on<'r>(rt: &impl Abort, seven: &mut Desk<'r>, eleven: &mut Desk<'r>, far: &mut Desk<'r>) {
    for _ in 0..4 {
        if let Some(batch) = seven.next_batch() {
            deliver(rt, batch, seven, eleven, far);
        }
        if let Some(batch) = eleven.next_batch() {
            deliver(rt, batch, seven, eleven, far);
        }
        if let Some(batch) = far.next_batch() {
            deliver(rt, batch, seven, eleven, far);
        }
    }
    counts_are(rt, seven, 36, 0);
    counts_are(rt, eleven, 36, 0);
    counts_are(rt, far, 36, 0);
}

// So many slots that came home are lent again, and were passed on so often. No memory is taken for that.
fn lends_again(rt: &impl Abort, alloc: Global, desk: &mut Desk<'_>, count: u32, forwards: u32) {
    for _ in 0..count {
        let buf = alloc_from(alloc, desk, 100)
            .ok()
            .expect(rt, "one came home");
        assert!(rt; buf.forwards() == forwards);
    }
}

// At first without room, and then with room. In the end the batches go to 7, from there to 11, and on to 27.
fn passes<'r>(
    rt: &impl Abort,
    alloc: Global,
    zero: &mut Desk<'r>,
    seven: &mut Desk<'r>,
    eleven: &mut Desk<'r>,
    far: &mut Desk<'r>,
) {
    for _ in 0..3 {
        leave_all(rt, alloc, zero, seven, eleven, far);
        send_all(rt, zero, seven, eleven, far);
        send_on(rt, seven, eleven, far);
        zero.make_room(alloc);
    }
    leave_all(rt, alloc, zero, seven, eleven, far);
    send(rt, zero, seven, 14, 18);
    send(rt, seven, eleven, 14, 4);
    send(rt, eleven, far, 4, 0);
    lends_again(rt, alloc, far, 4, 2);
    lends_again(rt, alloc, eleven, 14, 1);
    lends_again(rt, alloc, seven, 14, 0);
}

fn four<'r>(rt: &impl Abort, alloc: Global, mut parts: Vec<Part<'r>>) {
    let mut zero = desk(rt, 0);
    let mut seven = desk(rt, 7);
    let mut eleven = desk(rt, 11);
    let mut far = desk(rt, 27);
    claim(rt, &mut far, &mut parts, class(6));
    claim(rt, &mut eleven, &mut parts, class(6));
    claim(rt, &mut seven, &mut parts, class(6));
    passes(rt, alloc, &mut zero, &mut seven, &mut eleven, &mut far);
}

#[test]
fn parcels_go_home_by_way_of_nearer_desks(rt: HostRuntime) {
    let alloc = rt.alloc();
    let mut region = region(&rt, alloc, 3);
    four(&rt, alloc, parts(&rt, alloc, &mut region));
}

// Two buffers of each owner are freed at 0, as three parcels.
pub(super) fn leave_three<'r>(
    rt: &impl Abort,
    alloc: Global,
    zero: &mut Desk<'r>,
    one: &mut Desk<'r>,
    four: &mut Desk<'r>,
    sixteen: &mut Desk<'r>,
) {
    leave(rt, alloc, one, zero, 2);
    leave(rt, alloc, four, zero, 2);
    leave(rt, alloc, sixteen, zero, 2);
}

// Three batches are posted, each in a round of its own: four buffers to each owner.
pub(super) fn post<'r>(
    rt: &impl Abort,
    zero: Desk<'r>,
    one: &mut Desk<'r>,
    four: &mut Desk<'r>,
    sixteen: &mut Desk<'r>,
) -> Desk<'r> {
    let mut posting = zero.posting();
    for _ in 0..3 {
        let batch = posting.next_batch().expect(rt, "a batch");
        match batch.address() {
            1 => arrives(rt, one, batch, 4, 0),
            4 => arrives(rt, four, batch, 4, 0),
            _ => arrives(rt, sixteen, batch, 4, 0),
        }
    }
    assert!(rt; posting.next_batch().is_none());
    posting.end()
}

// The first parcels find no room, and the others find it.
fn posts<'r>(rt: &impl Abort, alloc: Global, mut parts: Vec<Part<'r>>) {
    let mut one = desk(rt, 1);
    let mut four = desk(rt, 4);
    let mut sixteen = desk(rt, 16);
    claim(rt, &mut one, &mut parts, class(6));
    claim(rt, &mut four, &mut parts, class(6));
    claim(rt, &mut sixteen, &mut parts, class(6));
    let mut zero = desk(rt, 0);
    leave_three(rt, alloc, &mut zero, &mut one, &mut four, &mut sixteen);
    zero.make_room(alloc);
    leave_three(rt, alloc, &mut zero, &mut one, &mut four, &mut sixteen);
    counts_are(rt, &zero, 0, 12);
    let zero = post(rt, zero, &mut one, &mut four, &mut sixteen);
    counts_are(rt, &zero, 0, 0);
    counts_are(rt, &one, 36, 0);
    counts_are(rt, &four, 36, 0);
    counts_are(rt, &sixteen, 36, 0);
}

#[test]
fn parcels_are_posted_in_rounds(rt: HostRuntime) {
    let alloc = rt.alloc();
    let mut region = region(&rt, alloc, 3);
    posts(&rt, alloc, parts(&rt, alloc, &mut region));
}
