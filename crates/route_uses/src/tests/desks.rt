//! How buffers of 7, 11 and 27 travel from desk 0, in digits of 2 bits.
use crate::filling::fill;
use crate::offering::offer;
use crate::tests::samples::{bump, empty, filled, filled_in, same, same_at, take};
use digit_route::{Batch, Cache, Digits, RouteError};
use region_cut::Bump;
use slot_chain::{Buf, NoMemory};
use std::alloc::Global;
use std::process::Abort;

// Passes a buffer on into the cache.
fn put_on<'r>(rt: &impl Abort, cache: &mut Cache<'r>, mut buf: Buf<'r>) {
    buf.set_forwards(buf.forwards().saturating_add(1));
    assert!(rt; offer(cache, buf).is_none());
}

// Takes a buffer home, or passes it on into the cache. Says whether it is home.
fn take_in<'r>(rt: &impl Abort, cache: &mut Cache<'r>, buf: Buf<'r>) -> bool {
    let is_home = buf.owner() == cache.number();
    if !is_home {
        put_on(rt, cache, buf);
    }
    is_home
}

// So many buffers of the batch come home, and so many are passed on into the cache.
fn receive<'r>(rt: &impl Abort, cache: &mut Cache<'r>, batch: Batch<'r>, home: u64, on: u64) {
    same(
        rt,
        "the address",
        u64::from(batch.address()),
        u64::from(cache.number()),
    );
    let (mut came, mut left) = (0u64, 0u64);
    let mut magazine = batch.into_magazine();
    while let Some(buf) = magazine.pop() {
        if take_in(rt, cache, buf) {
            came = came.saturating_add(1);
        } else {
            left = left.saturating_add(1);
        }
    }
    same(rt, "buffers at home", came, home);
    same(rt, "buffers passed on", left, on);
}

// The one buffer of the last batch.
fn check_last(rt: &impl Abort, batch: Batch<'_>) {
    let mut magazine = batch.into_magazine();
    let buf = magazine.pop().expect(rt, "the buffer of 27");
    same(rt, "the owner", u64::from(buf.owner()), 27);
    same(rt, "the hops", u64::from(buf.forwards()), 2);
}

// The batch of `count` buffers for the desk of the cache `to` goes there.
fn send<'r>(
    rt: &impl Abort,
    from: &mut Cache<'r>,
    to: &mut Cache<'r>,
    count: u64,
    home: u64,
    on: u64,
) {
    let batch = take(rt, from, to.number(), count);
    receive(rt, to, batch, home, on);
}

// From desk 0 to 7, to 11, to 27.
fn travel(rt: &impl Abort, mut at_0: Cache<'_>) {
    let mut at_7 = empty(rt, 2, 7);
    send(rt, &mut at_0, &mut at_7, 3, 1, 2);
    assert!(rt; at_0.is_empty());
    let mut at_11 = empty(rt, 2, 11);
    send(rt, &mut at_7, &mut at_11, 2, 1, 1);
    check_last(rt, take(rt, &mut at_11, 27, 1));
}

fn pass_on(rt: &impl Abort, alloc: Global) -> Result<(), NoMemory> {
    let mut region = Vec::from_elem(alloc, 0u8, 4096)?;
    travel(rt, filled_in(rt, alloc, &mut region, 15, 2, &[7, 11, 27])?);
    Ok(())
}

#[test]
fn passes_buffers_on(rt: HostRuntime) {
    if pass_on(&rt, rt.alloc()).is_err() {
        assert!(rt; pass_on(&rt, rt.alloc()).is_ok());
    }
}

// The buffers of 7 and 27 go first, since those of 4 and 16 share desk 0's first digit and are left.
fn give_first_round(rt: &impl Abort, mut at_0: Cache<'_>) {
    let batch = at_0.next_of_first_round().expect(rt, "a first batch");
    same(rt, "buffers of the first round", batch.len(), 2);
    drop(batch);
    assert!(rt; at_0.next_of_first_round().is_none());
    same(rt, "buffers left", at_0.len(), 2);
    drop(take(rt, &mut at_0, 4, 1));
    drop(take(rt, &mut at_0, 16, 1));
    assert!(rt; at_0.is_empty());
}

fn fill_and_give(rt: &impl Abort, alloc: Global) -> Result<(), NoMemory> {
    let mut region = Vec::from_elem(alloc, 0u8, 4096)?;
    let owners = [7, 4, 27, 16];
    give_first_round(rt, filled_in(rt, alloc, &mut region, 15, 2, &owners)?);
    Ok(())
}

#[test]
fn gives_the_first_round_alone(rt: HostRuntime) {
    if fill_and_give(&rt, rt.alloc()).is_err() {
        assert!(rt; fill_and_give(&rt, rt.alloc()).is_ok());
    }
}

fn check_fault(rt: &impl Abort, fault: Option<RouteError>, t: u16, want: RouteError) {
    assert_eq!(rt; fault, Some(want), "at {t}");
}

// The cache gives no batch for `t`, and keeps its one buffer.
fn refuse_for(rt: &impl Abort, cache: &mut Cache<'_>, t: u16, want: RouteError) {
    check_fault(rt, cache.fault_for(t), t, want);
    check_fault(rt, cache.take_bucket_for(t).err(), t, want);
    same_at(rt, "buffers after that for", t, cache.len(), 1);
}

// A cache with one buffer, of 27.
fn refuse_all(rt: &impl Abort, mut cache: Cache<'_>) {
    refuse_for(rt, &mut cache, 3, RouteError::NotAnOwner);
    refuse_for(rt, &mut cache, 2, RouteError::NothingFor);
    refuse_for(rt, &mut cache, 0, RouteError::ToSelf);
    assert!(rt; cache.fault_for(27).is_none());
    drop(take(rt, &mut cache, 27, 1));
    check_fault(rt, cache.fault_for(27), 27, RouteError::NothingFor);
}

fn refuse(rt: &impl Abort, alloc: Global) -> Result<(), NoMemory> {
    let mut region = Vec::from_elem(alloc, 0u8, 4096)?;
    refuse_all(rt, filled_in(rt, alloc, &mut region, 15, 2, &[27])?);
    Ok(())
}

#[test]
fn refuses_in_order(rt: HostRuntime) {
    if refuse(&rt, rt.alloc()).is_err() {
        assert!(rt; refuse(&rt, rt.alloc()).is_ok());
    }
}

// How many bytes the cache has, and whether it is due.
fn check_bytes(rt: &impl Abort, cache: &Cache<'_>, bytes: u64, due: bool) {
    same(rt, "the bytes", cache.bytes(), bytes);
    assert!(rt; cache.is_due() == due);
}

// Takes a batch of one buffer out of a cache that is due, and puts it back.
fn take_and_put_back(rt: &impl Abort, mut cache: Cache<'_>) {
    check_bytes(rt, &cache, 1536, true);
    let batch = cache.next_batch().expect(rt, "a batch");
    check_bytes(rt, &cache, 1024, false);
    cache.put_back(batch);
    check_bytes(rt, &cache, 1536, true);
}

fn fill_both(rt: &impl Abort, alloc: Global, bump: &mut Bump<'_>) -> Result<(), NoMemory> {
    check_bytes(rt, &filled(rt, alloc, bump, 2, &[7, 1])?, 1024, false);
    take_and_put_back(rt, filled(rt, alloc, bump, 2, &[7, 1, 2])?);
    Ok(())
}

fn fill_to_the_limit(rt: &impl Abort, alloc: Global) -> Result<(), NoMemory> {
    let mut region = Vec::from_elem(alloc, 0u8, 4096)?;
    let mut bump = bump(rt, alloc, &mut region, 15)?;
    fill_both(rt, alloc, &mut bump)
}

#[test]
fn is_due_above_the_limit(rt: HostRuntime) {
    if fill_to_the_limit(&rt, rt.alloc()).is_err() {
        assert!(rt; fill_to_the_limit(&rt, rt.alloc()).is_ok());
    }
}

// An empty cache of the profile with 4,096 desks.
fn empty_of_many<'r>(rt: &impl Abort, desk: u16) -> Cache<'r> {
    let digits = Digits::new2(6).expect(rt, "a width of 1 to 6");
    assert!(rt; desk < 4096, "a desk's number");
    Cache::new(desk, digits, 4096)
}

// From desk 0 to 65, to 129.
fn travel_by_twelve_bits(rt: &impl Abort, mut at_0: Cache<'_>) {
    let mut at_65 = empty_of_many(rt, 65);
    send(rt, &mut at_0, &mut at_65, 2, 1, 1);
    drop(take(rt, &mut at_65, 129, 1));
}

fn pass_on_by_twelve_bits(rt: &impl Abort, alloc: Global) -> Result<(), NoMemory> {
    let mut region = Vec::from_elem(alloc, 0u8, 4096)?;
    let mut bump = bump(rt, alloc, &mut region, 19)?;
    let mut at_0 = empty_of_many(rt, 0);
    let taken = fill(alloc, &mut bump, &[65, 129], &mut at_0)?;
    same(rt, "buffers taken", taken, 2);
    travel_by_twelve_bits(rt, at_0);
    Ok(())
}

#[test]
fn reads_twelve_bits(rt: HostRuntime) {
    if pass_on_by_twelve_bits(&rt, rt.alloc()).is_err() {
        assert!(rt; pass_on_by_twelve_bits(&rt, rt.alloc()).is_ok());
    }
}
