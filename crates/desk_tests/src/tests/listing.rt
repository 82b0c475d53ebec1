//! Slots are listed.
use super::{
    Play, claim, class, counts_are, desk, free_is, goes_home, lend, lend_or_not, parts, plays,
    region, retired,
};
use pool_desk::{Desk, Freed, IdleDesk};
use region_cut::{Part, Slot};
use slot_chain::{Buf, Chain, NoMemory};
use std::alloc::Global;
use std::process::Abort;

// Which of its slots a desk lists.
#[derive(Clone, Copy)]
enum Which {
    All,
    Home,
    Cached,
}

fn list(desk: &Desk<'_>, which: Which, slots: &mut Vec<Slot>) -> Result<(), NoMemory> {
    match which {
        Which::All => desk.list_slots(slots),
        Which::Home => desk.list_home(slots),
        Which::Cached => desk.list_cached(slots),
    }
}

// After a want of memory the list has what it had, and the next try works.
fn list_held(rt: &impl Abort, desk: &Desk<'_>, which: Which, slots: &mut Vec<Slot>) {
    let before = slots.len();
    if list(desk, which, slots).is_err() {
        assert!(rt; slots.len() == before);
        assert!(rt; list(desk, which, slots).is_ok());
    }
}

fn slots_of(rt: &impl Abort, alloc: Global, desk: &Desk<'_>, which: Which) -> Vec<Slot> {
    let mut slots = Vec::new(alloc);
    list_held(rt, desk, which, &mut slots);
    slots
}

fn list_idle(rt: &impl Abort, desk: &IdleDesk<'_>, slots: &mut Vec<Slot>) {
    let before = slots.len();
    if desk.list_slots(slots).is_err() {
        assert!(rt; slots.len() == before);
        assert!(rt; desk.list_slots(slots).is_ok());
    }
}

// The slots of chunk 0 from the second on, each once.
fn check(rt: &impl Abort, slots: &[Slot]) {
    assert!(rt; slots.len() == 8);
    for index in 1..9u16 {
        assert!(rt; slots.contains(&Slot { chunk: 0, index }), "{index}");
    }
}

fn list_both(rt: &impl Abort, alloc: Global, owner: &Desk<'_>, other: &Desk<'_>) {
    let mut slots = Vec::new(alloc);
    list_held(rt, owner, Which::All, &mut slots);
    list_held(rt, other, Which::All, &mut slots);
    check(rt, slots.as_slice());
}

// Seven slots are at home with their owner, and the third is in the other's cache.
fn list_apart(rt: &impl Abort, alloc: Global, owner: &Desk<'_>, other: &Desk<'_>) {
    let third = Slot { chunk: 0, index: 2 };
    assert!(rt; slots_of(rt, alloc, other, Which::Home).is_empty());
    let home = slots_of(rt, alloc, owner, Which::Home);
    assert!(rt; home.len() == 7 && !home.contains(&third));
    assert!(rt; slots_of(rt, alloc, owner, Which::Cached).is_empty());
    let cached = slots_of(rt, alloc, other, Which::Cached);
    assert!(rt; cached.as_slice() == [third].as_slice());
}

fn list_left(rt: &impl Abort, alloc: Global, idle: &IdleDesk<'_>) {
    let mut slots = Vec::new(alloc);
    list_idle(rt, idle, &mut slots);
    check(rt, slots.as_slice());
}

// The first slot stays lent, the second comes home, and the third is given to the caller. Six were
// never handed out.
fn spread<'r>(
    rt: &impl Abort,
    alloc: Global,
    owner: &mut Desk<'r>,
    parts: &mut Vec<Part<'r>>,
    lent: &mut Chain<'r>,
) -> Buf<'r> {
    claim(rt, owner, parts, class(14));
    lent.push(lend(rt, alloc, owner, 448));
    let home = lend(rt, alloc, owner, 448);
    let away = lend(rt, alloc, owner, 448);
    free_is(rt, owner, home, Freed::Home);
    away
}

// The third slot is cached at the other desk, and then sent home.
fn lists<'r>(
    rt: &impl Abort,
    alloc: Global,
    owner: &mut Desk<'r>,
    other: &mut Desk<'r>,
    parts: &mut Vec<Part<'r>>,
    lent: &mut Chain<'r>,
) {
    let away = spread(rt, alloc, owner, parts, lent);
    free_is(rt, other, away, Freed::Cached);
    list_both(rt, alloc, owner, other);
    list_apart(rt, alloc, owner, other);
    goes_home(rt, other, owner);
}

// What is listed then is there also when the worker leaves.
fn leaves<'r>(rt: &impl Abort, alloc: Global, mut parts: Vec<Part<'r>>) {
    let mut lent = Chain::new();
    let mut owner = desk(rt, 1);
    let mut other = desk(rt, 0);
    lists(rt, alloc, &mut owner, &mut other, &mut parts, &mut lent);
    list_left(rt, alloc, &retired(rt, owner));
}

#[test]
fn lists_what_is_there(rt: HostRuntime) {
    let alloc = rt.alloc();
    let mut region = region(&rt, alloc, 1);
    leaves(&rt, alloc, parts(&rt, alloc, &mut region));
}

fn lists_are(rt: &impl Abort, alloc: Global, desk: &Desk<'_>, home: &[Slot], cached: &[Slot]) {
    assert!(rt; slots_of(rt, alloc, desk, Which::Home).as_slice() == home);
    assert!(rt; slots_of(rt, alloc, desk, Which::Cached).as_slice() == cached);
}

// A want of memory leaves both lists as they were, and the next try works.
fn lend_listed<'r>(rt: &impl Abort, alloc: Global, desk: &mut Desk<'r>, size: usize) -> Buf<'r> {
    let home = slots_of(rt, alloc, desk, Which::Home);
    let cached = slots_of(rt, alloc, desk, Which::Cached);
    if let Some(buf) = lend_or_not(rt, alloc, desk, size) {
        return buf;
    }
    lists_are(rt, alloc, desk, &home, &cached);
    lend_or_not(rt, alloc, desk, size).expect(rt, "memory is there again")
}

// Lends one buffer of a chunk, which is freed at a desk.
fn fill_from<'r>(
    rt: &impl Abort,
    alloc: Global,
    owner: &mut Desk<'r>,
    at: &mut Desk<'r>,
    parts: &mut Vec<Part<'r>>,
) {
    claim(rt, owner, parts, class(14));
    let buf = lend_listed(rt, alloc, owner, 448);
    free_is(rt, at, buf, Freed::Cached);
}

// A buffer of the other's is in the cache, and one of its own came home. Of another class each slot is lent.
pub(crate) fn keeps<'r>(
    rt: &impl Abort,
    alloc: Global,
    desk: &mut Desk<'r>,
    other: &mut Desk<'r>,
    parts: &mut Vec<Part<'r>>,
    lent: &mut Chain<'r>,
) {
    fill_from(rt, alloc, other, desk, parts);
    claim(rt, desk, parts, class(14));
    let home = lend_listed(rt, alloc, desk, 448);
    free_is(rt, desk, home, Freed::Home);
    claim(rt, desk, parts, class(15));
    for _ in 0..8 {
        lent.push(lend_listed(rt, alloc, desk, 512));
    }
    counts_are(rt, desk, 9, 1);
}

#[test]
fn a_refused_alloc_changes_no_list(rt: HostRuntime) {
    plays(&rt, rt.alloc(), Play::Keeps, (1, 0), 3);
}
