//! The calls that take no memory, between two marks behind which `.ci/no_memory.py` refuses each
//! allocation. No clause says that a call takes none.
ghost use Rattle.std.specs.Prelude.{◌≡◌};

use crate::lend;
use crate::tests::two_stations::{
    Held, Idle, Opened, Over, TwoStations, fill, open_two, opening_of_two, region, retired,
};
use batch_inbox::{SendSeat, TakeSeat};
use memory_marks::{Mark, set};
use pool_desk::Freed;
use pool_fabric::{Buffer, Naming, Parcel, Shelf};
use region_cut::Class;
use std::alloc::Global;
use std::marker::Brand;
use std::process::Abort;
use std::sync::Wait;

// What is done with the stations.
#[derive(Clone, Copy)]
enum Play {
    GoesHome,
    GoesHomeAsOne,
    IsCached,
    IsShelved,
}

// What becomes of a freed buffer.
fn free_is<'r, J: Naming>(
    rt: &impl Abort,
    station: &mut Held<'r, J>,
    buffer: Buffer<'r, J>,
    want: Freed,
) {
    assert!(rt; station.free(buffer) == want);
}

fn free_all_is<'r, J: Naming>(
    rt: &impl Abort,
    station: &mut Held<'r, J>,
    parcel: Parcel<'r, J>,
    want: Freed,
) {
    assert!(rt; station.free_all(parcel) == want);
}

// The slot that came home last is lent again.
fn lend_again<'r, J: Naming>(
    rt: &impl Abort,
    alloc: Global,
    station: &mut Held<'r, J>,
) -> Buffer<'r, J> {
    assert!(rt; station.has_home(Class::FIRST));
    station.alloc(alloc, 16).ok().expect(rt, "one came home")
}

// A buffer comes home, is lent again, and comes home once more.
fn go_round<'r, J: Naming>(
    rt: &impl Abort,
    alloc: Global,
    station: &mut Held<'r, J>,
    buffer: Buffer<'r, J>,
) {
    let slot = buffer.slot();
    free_is(rt, station, buffer, Freed::Home);
    let again = lend_again(rt, alloc, station);
    assert!(rt; again.slot() == slot);
    free_is(rt, station, again, Freed::Home);
}

fn goes_home<'r, J: Naming, R: Abort + Wait>(
    rt: &R,
    alloc: Global,
    fabric: &Over<'r, J>,
    mut first: Held<'r, J>,
) -> bool {
    let Some(buf) = lend(rt, alloc, fabric, &mut first, 16) else {
        return false;
    };
    set(alloc, Mark::TakesNone);
    go_round(rt, alloc, &mut first, buf);
    set(alloc, Mark::MayTake);
    true
}

// One buffer, in a parcel with a place for it, where there is memory.
fn packed<'r, J: Naming, R: Abort + Wait>(
    rt: &R,
    alloc: Global,
    fabric: &Over<'r, J>,
    station: &mut Held<'r, J>,
) -> Option<Parcel<'r, J>> {
    let mut parcel = station.parcel(alloc, 1).ok()?;
    let buf = lend(rt, alloc, fabric, station, 16)?;
    assert!(rt; parcel.push(buf).is_ok());
    Some(parcel)
}

// An own parcel comes home, and the next one lies over its array.
fn goes_home_as_one<'r, J: Naming, R: Abort + Wait>(
    rt: &R,
    alloc: Global,
    fabric: &Over<'r, J>,
    mut first: Held<'r, J>,
) -> bool {
    let Some(parcel) = packed(rt, alloc, fabric, &mut first) else {
        return false;
    };
    set(alloc, Mark::TakesNone);
    free_all_is(rt, &mut first, parcel, Freed::Home);
    let next = packed(rt, alloc, fabric, &mut first).expect(rt, "an array is kept");
    free_all_is(rt, &mut first, next, Freed::Home);
    set(alloc, Mark::MayTake);
    true
}

// Four buffers of the first station came home by a batch. They are lent again, and freed to the second.
fn is_cached<'r, J: Naming, R: Abort + Wait>(
    rt: &R,
    alloc: Global,
    fabric: &Over<'r, J>,
    mut first: Held<'r, J>,
    mut second: Held<'r, J>,
) -> bool {
    if !fill(rt, alloc, fabric, &mut first, &mut second) || !second.post(rt, fabric) {
        return false;
    }
    assert!(rt; first.take(rt, fabric) == 1);
    set(alloc, Mark::TakesNone);
    assert!(rt; fill(rt, alloc, fabric, &mut first, &mut second));
    set(alloc, Mark::MayTake);
    true
}

// A station goes onto a shelf, and is got off it.
fn put_and_get<'r, J: Naming>(
    rt: &impl Abort,
    shelf: &mut Shelf<'r, TakeSeat<'r>, SendSeat<'r>, J>,
    station: Idle<'r, J>,
) -> Idle<'r, J> {
    let number = station.number();
    assert!(rt; shelf.put(station).is_ok());
    assert!(rt; shelf.len() == 1);
    let station = shelf.get().expect(rt, "the station");
    assert!(rt; station.number() == number && shelf.get().is_none());
    station
}

// A station without its worker goes onto a shelf, onto that of the fabric, and to another worker.
fn go_to_another<'r, J: Naming, R: Abort + Wait>(
    rt: &R,
    fabric: &Over<'r, J>,
    shelf: &mut Shelf<'r, TakeSeat<'r>, SendSeat<'r>, J>,
    station: Held<'r, J>,
) -> Held<'r, J> {
    let station = put_and_get(rt, shelf, retired(rt, station));
    assert!(rt; fabric.put_back(rt, station).is_ok());
    fabric.station(rt).expect(rt, "the station").adopt(7)
}

fn is_shelved<'r, J: Naming, R: Abort + Wait>(
    rt: &R,
    alloc: Global,
    fabric: &Over<'r, J>,
    first: Held<'r, J>,
) -> bool {
    let Ok(mut shelf) = Shelf::<'r, TakeSeat<'r>, SendSeat<'r>, J>::new(alloc) else {
        return false;
    };
    set(alloc, Mark::TakesNone);
    let first = go_to_another(rt, fabric, &mut shelf, first);
    set(alloc, Mark::MayTake);
    assert!(rt; first.cached_bytes() == 0);
    true
}

fn play_on<'r, J: Naming, R: Abort + Wait>(
    rt: &R,
    alloc: Global,
    opened: TwoStations<'r, J>,
    play: Play,
) -> bool {
    let TwoStations {
        fabric,
        first,
        second,
    } = opened;
    match play {
        Play::GoesHome => goes_home(rt, alloc, &fabric, first),
        Play::GoesHomeAsOne => goes_home_as_one(rt, alloc, &fabric, first),
        Play::IsCached => is_cached(rt, alloc, &fabric, first, second),
        Play::IsShelved => is_shelved(rt, alloc, &fabric, first),
    }
}

// The same at a fabric that `J` names.
fn play_at<'r, J: Naming, R: Abort + Wait>(
    rt: &R,
    alloc: Global,
    opening: Opened<'r>,
    play: Play,
) -> bool
    requires { J.names ≡ opening }
{
    match open_two::<J, R>(rt, alloc, opening) {
        None => false,
        Some(opened) => play_on(rt, alloc, opened, play),
    }
}

// Says whether there was memory.
fn plays<R: Abort + Wait>(rt: &R, alloc: Global, play: Play) -> bool {
    let Ok(mut region) = region(alloc) else {
        return false;
    };
    match opening_of_two(alloc, &mut region) {
        None => false,
        Some(opening) => play_at::<Brand, R>(rt, alloc, opening, play),
    }
}

// Where memory was refused it is there the second time.
fn check<R: Abort + Wait>(rt: &R, alloc: Global, play: Play) {
    if !plays(rt, alloc, play) {
        assert!(rt; plays(rt, alloc, play));
    }
}

#[test]
fn what_comes_home_takes_none(rt: HostRuntime) {
    check(&rt, rt.alloc(), Play::GoesHome);
}

#[test]
fn an_own_parcel_takes_none(rt: HostRuntime) {
    check(&rt, rt.alloc(), Play::GoesHomeAsOne);
}

#[test]
fn what_is_cached_takes_none(rt: HostRuntime) {
    check(&rt, rt.alloc(), Play::IsCached);
}

#[test]
fn a_station_on_a_shelf_takes_none(rt: HostRuntime) {
    check(&rt, rt.alloc(), Play::IsShelved);
}
