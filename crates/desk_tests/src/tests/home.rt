//! What is at home.
use super::{
    Play, alloc_from, claim, class, counts, counts_are, free_is, lend, lend_or_not, plays,
};
use pool_desk::{Desk, Freed};
use region_cut::Part;
use slot_chain::{Buf, Chain};
use std::alloc::Global;
use std::process::Abort;

fn is_slot(rt: &impl Abort, buf: &Buf<'_>, index: u16) {
    let slot = buf.slot();
    assert!(rt; slot.chunk == 0);
    assert!(rt; slot.index == index);
    assert!(rt; buf.owner() == 5);
    assert!(rt; buf.forwards() == 0);
}

// A slot that was never handed out: the next of chunk 0.
fn lend_next<'r>(rt: &impl Abort, alloc: Global, desk: &mut Desk<'r>, index: u16) -> Buf<'r> {
    let buf = lend(rt, alloc, desk, 512);
    is_slot(rt, &buf, index);
    buf
}

// A slot that came home before, for which no memory is taken.
fn lend_again<'r>(rt: &impl Abort, alloc: Global, desk: &mut Desk<'r>, index: u16) -> Buf<'r> {
    let buf = alloc_from(alloc, desk, 449)
        .ok()
        .expect(rt, "one came home");
    is_slot(rt, &buf, index);
    buf
}

fn has(rt: &impl Abort, desk: &Desk<'_>, number: u32, want: bool) {
    assert!(rt; desk.has_home(class(number)) == want);
}

fn has_drawn(rt: &impl Abort, desk: &Desk<'_>, number: u32, want: bool) {
    assert!(rt; desk.has_drawn(class(number)) == want);
}

// It has the slots and the chunk of its class alone.
pub(crate) fn gives<'r>(
    rt: &impl Abort,
    alloc: Global,
    desk: &mut Desk<'r>,
    parts: &mut Vec<Part<'r>>,
) {
    has(rt, desk, 15, false);
    has_drawn(rt, desk, 15, false);
    claim(rt, desk, parts, class(15));
    has(rt, desk, 15, true);
    has(rt, desk, 14, false);
    has_drawn(rt, desk, 15, true);
    has_drawn(rt, desk, 14, false);
    let first = lend_next(rt, alloc, desk, 0);
    let second = lend_next(rt, alloc, desk, 1);
    let _third = lend_next(rt, alloc, desk, 2);
    free_is(rt, desk, second, Freed::Home);
    free_is(rt, desk, first, Freed::Home);
    let _first = lend_again(rt, alloc, desk, 0);
    let _second = lend_again(rt, alloc, desk, 1);
    let _fourth = lend_next(rt, alloc, desk, 3);
}

#[test]
fn gives_the_last_freed_first(rt: HostRuntime) {
    plays(&rt, rt.alloc(), Play::Gives, (5, 0), 1);
}

// Lends where memory is there, and counts what stays at home.
fn lend_what_goes<'r>(
    rt: &impl Abort,
    alloc: Global,
    desk: &mut Desk<'r>,
    count: u32,
    lent: &mut Chain<'r>,
) {
    for _ in 0..count {
        if let Some(buf) = lend_or_not(rt, alloc, desk, 512) {
            lent.push(buf);
        }
    }
}

// Of eight slots.
fn at_most_one(rt: &impl Abort, desk: &Desk<'_>, lent: &Chain<'_>) {
    assert!(rt; counts(desk).0 <= 1);
    assert!(rt; lent.len() >= 7);
}

// Of the eight slots each is given out at its first try, but for one where an allocation is
// refused.
pub(crate) fn gives_all<'r>(
    rt: &impl Abort,
    alloc: Global,
    desk: &mut Desk<'r>,
    parts: &mut Vec<Part<'r>>,
    lent: &mut Chain<'r>,
) {
    claim(rt, desk, parts, class(15));
    lend_what_goes(rt, alloc, desk, 8, lent);
    at_most_one(rt, desk, lent);
}

#[test]
fn wants_memory_only_where_it_was_refused(rt: HostRuntime) {
    plays(&rt, rt.alloc(), Play::GivesAll, (5, 0), 1);
}

// Buffers of 512 bytes of one desk are freed at another. A chunk has eight of them.
fn cache<'r>(
    rt: &impl Abort,
    alloc: Global,
    owner: &mut Desk<'r>,
    other: &mut Desk<'r>,
    count: u32,
    want: Freed,
) {
    for _ in 0..count {
        let buf = lend(rt, alloc, owner, 512);
        free_is(rt, other, buf, want);
    }
}

// Eight buffers of 512 bytes are the limit, and the ninth is above it.
pub(crate) fn fills_two<'r>(
    rt: &impl Abort,
    alloc: Global,
    owner: &mut Desk<'r>,
    other: &mut Desk<'r>,
    parts: &mut Vec<Part<'r>>,
) {
    claim(rt, owner, parts, class(15));
    cache(rt, alloc, owner, other, 8, Freed::Cached);
    claim(rt, owner, parts, class(15));
    cache(rt, alloc, owner, other, 1, Freed::Due);
    counts_are(rt, other, 0, 9);
    counts_are(rt, owner, 7, 0);
}

#[test]
fn is_due_above_the_limit_alone(rt: HostRuntime) {
    plays(&rt, rt.alloc(), Play::Fills, (1, 0), 2);
}
