//! What is dropped gives its boxes back: behind each drop as many blocks are lent as before what was
//! dropped was made. `.ci/no_memory.py` counts them. No clause says it: a drop that forgets its
//! buffers would meet all of them.
ghost use Rattle.std.specs.Prelude.{◌≡◌};

use crate::tests::two_stations::{
    Held, Opened, Over, TwoStations, fill, open_two, opening_of_two, region, retired,
};
use memory_marks::{Mark, set};
use pool_fabric::{Found, Naming, gather};
use slot_chain::NoMemory;
use std::alloc::Global;
use std::marker::Brand;
use std::process::Abort;
use std::sync::Wait;

// What is dropped at the end.
#[derive(Clone, Copy)]
enum Last {
    Fabric,
    Stations,
    HeldStations,
    Found,
}

// Both stations are on the shelf, and go with the fabric: one has slots at home, and in its inbox is a batch.
fn drop_fabric<'r, J: Naming, R: Abort + Wait>(
    rt: &R,
    fabric: Over<'r, J>,
    first: Held<'r, J>,
    second: Held<'r, J>,
) {
    assert!(rt; fabric.put_back(rt, retired(rt, first)).is_ok());
    assert!(rt; fabric.put_back(rt, retired(rt, second)).is_ok());
    drop(fabric);
}

// The stations are dropped behind their fabric, and have nothing cached.
fn drop_stations<'r, J: Naming>(
    rt: &impl Abort,
    fabric: Over<'r, J>,
    first: Held<'r, J>,
    second: Held<'r, J>,
) {
    drop(fabric);
    drop(retired(rt, first));
    drop(retired(rt, second));
}

// The second has four buffers cached.
fn drop_held<'r, J: Naming, R: Abort + Wait>(
    rt: &R,
    alloc: Global,
    fabric: Over<'r, J>,
    mut first: Held<'r, J>,
    mut second: Held<'r, J>,
) -> bool {
    let is_filled = fill(rt, alloc, &fabric, &mut first, &mut second);
    drop(fabric);
    drop(first);
    drop(second);
    is_filled
}

// Two desks, a batch of four buffers, and four that are cached. One chunk was drawn.
fn drop_found(rt: &impl Abort, found: Found<'_>) {
    assert!(rt; found.desks.len() == 2 && found.batches.len() == 1 && found.parts.len() == 3);
    drop(found);
}

// The second gets four buffers more, and all is gathered.
fn find<'r, J: Naming, R: Abort + Wait>(
    rt: &R,
    alloc: Global,
    fabric: Over<'r, J>,
    mut first: Held<'r, J>,
    mut second: Held<'r, J>,
) -> Result<(), NoMemory> {
    if !fill(rt, alloc, &fabric, &mut first, &mut second) {
        return Err(NoMemory);
    }
    let mut held = Vec::new(alloc);
    held.push(first)?;
    held.push(second)?;
    match gather(rt, alloc, fabric, held) {
        Ok(found) => {
            drop_found(rt, found);
            Ok(())
        }
        Err(_) => Err(NoMemory),
    }
}

// Four buffers of the first station were freed to the second, and posted. Says whether there was memory.
fn drop_last<'r, J: Naming, R: Abort + Wait>(
    rt: &R,
    alloc: Global,
    opened: TwoStations<'r, J>,
    last: Last,
) -> bool {
    let TwoStations {
        fabric,
        mut first,
        mut second,
    } = opened;
    if !fill(rt, alloc, &fabric, &mut first, &mut second) || !second.post(rt, &fabric) {
        return false;
    }
    match last {
        Last::Fabric => drop_fabric(rt, fabric, first, second),
        Last::Stations => drop_stations(rt, fabric, first, second),
        Last::HeldStations => return drop_held(rt, alloc, fabric, first, second),
        Last::Found => return find(rt, alloc, fabric, first, second).is_ok(),
    }
    true
}

// The same at a fabric that `J` names.
fn drops_at<'r, J: Naming, R: Abort + Wait>(
    rt: &R,
    alloc: Global,
    opening: Opened<'r>,
    last: Last,
) -> bool
    requires { J.names ≡ opening }
{
    match open_two::<J, R>(rt, alloc, opening) {
        None => false,
        Some(opened) => drop_last(rt, alloc, opened, last),
    }
}

fn drops<'r, R: Abort + Wait>(rt: &R, alloc: Global, region: &'r mut [u8], last: Last) -> bool {
    match opening_of_two(alloc, region) {
        None => false,
        Some(opening) => drops_at::<Brand, R>(rt, alloc, opening, last),
    }
}

// Says whether there was memory.
fn counted<R: Abort + Wait>(rt: &R, alloc: Global, last: Last) -> bool {
    let Ok(mut region) = region(alloc) else {
        return false;
    };
    set(alloc, Mark::Lent);
    let was_there = drops(rt, alloc, &mut region, last);
    set(alloc, Mark::GivenBack);
    was_there
}

// Where memory was refused it is there the second time.
fn check<R: Abort + Wait>(rt: &R, alloc: Global, last: Last) {
    if !counted(rt, alloc, last) {
        assert!(rt; counted(rt, alloc, last));
    }
}

#[test]
fn by_a_fabric(rt: HostRuntime) {
    check(&rt, rt.alloc(), Last::Fabric);
}

#[test]
fn by_stations(rt: HostRuntime) {
    check(&rt, rt.alloc(), Last::Stations);
}

#[test]
fn by_held_stations(rt: HostRuntime) {
    check(&rt, rt.alloc(), Last::HeldStations);
}

#[test]
fn by_what_was_found(rt: HostRuntime) {
    check(&rt, rt.alloc(), Last::Found);
}
