//! Two workers of one fabric, one after the other in one thread.

use link_inbox::{LinkInbox, SendSeat, TakeSeat};
use pool_fabric::{Fabric, HeldStation, Naming};
use pool_jobs::{Allocator, Entrance, NoGate};
use std::alloc::{AllocError, Global};
use std::sync::Wait;

/// A fabric over inboxes of two atomic steps.
pub type Over<'r, J> = Fabric<'r, LinkInbox<'r>, TakeSeat<'r>, SendSeat<'r>, J>;

/// An allocator of it.
pub type Worker<'a, 'r, J> = Allocator<
    'a,
    'r,
    LinkInbox<'r>,
    TakeSeat<'r>,
    SendSeat<'r>,
    NoGate,
    J,
>;

/// A station of it.
pub type Held<'r, J> = HeldStation<'r, TakeSeat<'r>, SendSeat<'r>, J>;

/// The workers 0 and 1, if there are stations for both.
pub fn two_workers<'a, 'r, J: Naming, R: Wait>(
    rt: &R,
    alloc: Global,
    fabric: &'a Over<'r, J>,
    gate: &'a NoGate,
) -> Option<(Worker<'a, 'r, J>, Worker<'a, 'r, J>)> {
    let first = Entrance::new(alloc, fabric, gate, 0).enter(rt)?;
    let second = Entrance::new(alloc, fabric, gate, 1).enter(rt)?;
    Some((first, second))
}

// Keeps a station that didn't go back on the shelf.
fn keep<'r, J: Naming>(
    held: &mut Vec<Held<'r, J>>,
    station: Option<Held<'r, J>>,
) -> Result<(), AllocError> {
    if let Some(station) = station {
        held.push(station)?;
    }
    Ok(())
}

/// Both retire: the stations that don't go back on the shelf.
pub fn both_retire<'a, 'r, J: Naming, R: Wait>(
    rt: &R,
    alloc: Global,
    first: Worker<'a, 'r, J>,
    second: Worker<'a, 'r, J>,
) -> Result<Vec<Held<'r, J>>, AllocError> {
    let mut held = Vec::new(alloc);
    keep(&mut held, first.retire(rt))?;
    keep(&mut held, second.retire(rt))?;
    Ok(held)
}
