//! A batch that was refused is posted again.
ghost use Rattle.std.specs.Prelude.{◌≡◌, IfOk};
ghost use Rattle.pool_fabric.specs.Whole.{IsWhole, IsEachDesk, AreNoted};

use crate::lending::lend_across;
use crate::refusing::Refusing;
use batch_inbox::{SendSeat, TakeSeat};
use pool_fabric::{Fabric, Found, GatherError, HeldStation, Naming, Opening, gather};
use std::alloc::{AllocError, Global};
use std::marker::Brand;
use std::sync::Wait;

type Held<'r, J> = HeldStation<'r, TakeSeat<'r>, SendSeat<'r>, J>;

type Over<'r, J> = Fabric<'r, Refusing<'r>, TakeSeat<'r>, SendSeat<'r>, J>;

/// How many batches came to the other stations, and all that was found in the end.
#[derive(Drop)]
pub struct Resent<'r> {
    /// Those of the first try.
    pub first: u32,
    /// Those of the second.
    pub second: u32,
    pub found: Found<'r>,
}

// How many batches came to the other stations at each try, and all stations.
#[derive(Drop)]
struct Tried<'r, J: Naming> {
    first: u32,
    second: u32,
    held: Vec<Held<'r, J>>,
}

// All stations that are on the shelf lend a buffer each, which is freed to this one.
fn lend_all<'r, J: Naming, R: Wait>(
    rt: &R,
    alloc: Global,
    fabric: &Over<'r, J>,
    to: &mut Held<'r, J>,
    desks: usize,
) -> Result<Vec<Held<'r, J>>, AllocError> {
    let mut others = Vec::new(alloc);
    for _ in 1..desks {
        let Some(station) = fabric.station(rt) else {
            return Ok(others);
        };
        let mut other = station.adopt(1);
        lend_across(rt, alloc, fabric, &mut other, to, 16);
        others.push(other)?;
    }
    Ok(others)
}

// Each station takes what is in its inbox. Says how many batches there were.
fn take_all<'r, J: Naming, R: Wait>(
    rt: &R,
    fabric: &Over<'r, J>,
    stations: &mut [Held<'r, J>],
) -> u32 {
    let mut taken = 0u32;
    for station in stations {
        taken = taken.saturating_add(station.take(rt, fabric));
    }
    taken
}

// One station posts what was freed to it, twice, and the others take.
fn tries<'r, J: Naming, R: Wait>(
    rt: &R,
    alloc: Global,
    fabric: &Over<'r, J>,
    poster: Held<'r, J>,
    desks: usize,
) -> Result<Tried<'r, J>, AllocError> {
    let mut poster = poster;
    let mut held = lend_all(rt, alloc, fabric, &mut poster, desks)?;
    let _went = poster.post(rt, fabric);
    let first = take_all(rt, fabric, &mut held);
    let _went = poster.post(rt, fabric);
    let second = take_all(rt, fabric, &mut held);
    held.push(poster)?;
    Ok(Tried {
        first,
        second,
        held,
    })
}

// The same at a fabric that `J` names.
fn post_twice_at<'r, J: Naming, R: Wait>(
    rt: &R,
    alloc: Global,
    opening: Opening<'r, Refusing<'r>, TakeSeat<'r>, SendSeat<'r>>,
) -> Result<Resent<'r>, GatherError<'r>>
    requires { J.names ≡ opening }
    ensures whole { IfOk result (λ r. IsWhole r.found.desks.items r.found.batches.items r.found.lent
        r.found.freed r.found.parts.items opening.entry.chunks) }
    ensures desks { IfOk result (λ r. IsEachDesk opening.entry.count r.found.desks.items) }
    ensures drawn { IfOk result (λ r. AreNoted r.found.desks.items r.found.drawn) }
{
    let desks = opening.desks();
    let Ok(fabric) = Over::<'r, J>::open(alloc, opening) else {
        return Err(GatherError::NoMemory);
    };
    let Some(station) = fabric.station(rt) else {
        return Err(GatherError::NoMemory);
    };
    let Ok(tried) = tries(rt, alloc, &fabric, station.adopt(0), desks) else {
        return Err(GatherError::NoMemory);
    };
    let Tried {
        first,
        second,
        held,
    } = tried;
    let found = gather(rt, alloc, fabric, held)?;
    Ok(Resent {
        first,
        second,
        found,
    })
}

/// Each desk but one lends a buffer, which is freed to that one. It posts what it has, and again:
/// where the inbox of the last desk refuses the first batch, all come to their desks.
pub fn post_twice<'r, R: Wait>(
    rt: &R,
    alloc: Global,
    opening: Opening<'r, Refusing<'r>, TakeSeat<'r>, SendSeat<'r>>,
) -> Result<Resent<'r>, GatherError<'r>>
    ensures whole { IfOk result (λ r. IsWhole r.found.desks.items r.found.batches.items r.found.lent
        r.found.freed r.found.parts.items opening.entry.chunks) }
    ensures desks { IfOk result (λ r. IsEachDesk opening.entry.count r.found.desks.items) }
    ensures drawn { IfOk result (λ r. AreNoted r.found.desks.items r.found.drawn) }
{
    post_twice_at::<Brand, R>(rt, alloc, opening)
}
