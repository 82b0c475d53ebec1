//! Why a desk refuses.
use super::{
    Play, alloc_from, claim, claim_or_not, class, counts_are, desk, hold, lend, parts, plays,
    region, retired,
};
use digit_route::Digits;
use pool_desk::{Desk, DeskError, IdleDesk};
use region_cut::{Class, Part};
use std::alloc::Global;
use std::fmt::Debug;
use std::process::Abort;

// The last of the chunks comes back where it isn't needed.
fn claim_is_refused<'r>(
    rt: &impl Abort,
    desk: &mut Desk<'r>,
    parts: &mut Vec<Part<'r>>,
    class: Class,
) {
    let refused = claim_or_not(rt, desk, parts, class).err();
    let (part, error) = refused.expect(rt, "not needed");
    assert!(rt; part.chunk() == 0);
    assert!(rt; error == DeskError::NotNeeded);
}

fn alloc_is_refused(
    rt: &impl Abort,
    alloc: Global,
    desk: &mut Desk<'_>,
    size: usize,
    want: DeskError,
) {
    let refused = alloc_from(alloc, desk, size).err();
    assert!(rt; refused == Some(want));
}

pub(crate) fn refuses<'r>(
    rt: &impl Abort,
    alloc: Global,
    desk: &mut Desk<'r>,
    parts: &mut Vec<Part<'r>>,
) {
    alloc_is_refused(rt, alloc, desk, 513, DeskError::TooLarge);
    let want = DeskError::NeedChunk(class(0));
    alloc_is_refused(rt, alloc, desk, 0, want);
    claim(rt, desk, parts, class(0));
    claim_is_refused(rt, desk, parts, class(0));
    counts_are(rt, desk, 256, 0);
}

#[test]
fn says_why_nothing_is_given_out_or_claimed(rt: HostRuntime) {
    plays(&rt, rt.alloc(), Play::Refuses, (63, 0), 2);
}

// Number and words, also where memory for the words is refused once.
fn check(rt: &impl Abort, alloc: Global, error: DeskError, number: u32, words: &str) {
    assert!(rt; error.number() == number);
    let text = match format!(in alloc; "{error}") {
        Ok(text) => text,
        Err(_) => format!(in alloc; "{error}").expect(rt, "memory is there again"),
    };
    assert!(rt; text.as_str() == words);
}

#[test]
fn has_numbers_and_words(rt: HostRuntime) {
    let alloc = rt.alloc();
    check(&rt, alloc, DeskError::TooLarge, 1, "too large");
    let need = DeskError::NeedChunk(class(0));
    check(&rt, alloc, need, 2, "needs a chunk");
    check(&rt, alloc, DeskError::NotNeeded, 3, "not needed");
    check(
        &rt,
        alloc,
        DeskError::Unsettled,
        4,
        "the cache is not empty",
    );
    check(&rt, alloc, DeskError::NoMemory, 5, "no memory");
}

// How a value is printed, also where memory for that is refused once.
fn check_debug(rt: &impl Abort, alloc: Global, value: &impl Debug, words: &str) {
    let text = match format!(in alloc; "{value:?}") {
        Ok(text) => text,
        Err(_) => format!(in alloc; "{value:?}").expect(rt, "memory is there again"),
    };
    assert!(rt; text.as_str() == words);
}

#[test]
fn desks_are_printed_without_their_slots(rt: HostRuntime) {
    let alloc = rt.alloc();
    let desk = desk(&rt, 1);
    check_debug(&rt, alloc, &desk, "Desk(1, held by 9)");
    let posting = desk.posting();
    check_debug(&rt, alloc, &posting, "DeskPosting(held by 9)");
    let idle = retired(&rt, posting.end());
    check_debug(&rt, alloc, &idle, "IdleDesk(1)");
}

// A desk of the profile with 4,096 desks, whose classes go up to 1,024 bytes.
fn large<'r>(rt: &impl Abort) -> Desk<'r> {
    let digits = Digits::new2(6).expect(rt, "six bits");
    IdleDesk::new(4095, digits, 4096).adopt(0)
}

fn lends_most(rt: &impl Abort, alloc: Global, desk: &mut Desk<'_>) {
    let buf = lend(rt, alloc, desk, 897);
    assert!(rt; buf.owner() == 4095);
    assert!(rt; buf.bytes().len() == 1024);
}

// Class 19 has 4 slots.
pub(crate) fn gives_large<'r>(
    rt: &impl Abort,
    alloc: Global,
    desk: &mut Desk<'r>,
    parts: &mut Vec<Part<'r>>,
) {
    alloc_is_refused(rt, alloc, desk, 1025, DeskError::TooLarge);
    claim(rt, desk, parts, class(19));
    lends_most(rt, alloc, desk);
    counts_are(rt, desk, 3, 0);
}

#[test]
fn is_of_its_profile(rt: HostRuntime) {
    let alloc = rt.alloc();
    let mut region = region(&rt, alloc, 1);
    let parts = parts(&rt, alloc, &mut region);
    hold(&rt, alloc, Play::GivesLarge, large(&rt), large(&rt), parts);
}
