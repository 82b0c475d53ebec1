//! A station that goes back on the shelf.
ghost use Rattle.std.specs.Prelude.{◌≡◌};

use crate::pair::Over;
use link_inbox::{LinkInbox, SendSeat, TakeSeat};
use pool_fabric::{Naming, Opening};
use pool_jobs::{Entrance, JobError, NoGate};
use std::alloc::Global;
use std::marker::Brand;
use std::sync::Wait;

// Whether a worker takes up a station and puts it back.
fn puts_back<'a, 'r, J: Naming, R: Wait>(
    rt: &R,
    alloc: Global,
    fabric: &'a Over<'r, J>,
    gate: &'a NoGate,
    worker: u32,
) -> bool {
    let entrance = Entrance::new(alloc, fabric, gate, worker);
    let Some(allocator) = entrance.enter(rt) else {
        return false;
    };
    match allocator.retire(rt) {
        Some(_station) => false,
        None => true,
    }
}

// How many workers do, of so many, one after the other.
fn at_work<'a, 'r, J: Naming, R: Wait>(
    rt: &R,
    alloc: Global,
    fabric: &'a Over<'r, J>,
    gate: &'a NoGate,
    workers: u32,
) -> u32 {
    let mut entered = 0u32;
    for worker in 0..workers {
        if puts_back(rt, alloc, fabric, gate, worker) {
            entered = entered.saturating_add(1);
        }
    }
    entered
}

// The same at a fabric that `J` names.
fn at_fabric<'r, J: Naming, R: Wait>(
    rt: &R,
    alloc: Global,
    opening: Opening<'r, LinkInbox<'r>, TakeSeat<'r>, SendSeat<'r>>,
    workers: u32,
) -> Result<u32, JobError>
    requires { J.names ≡ opening }
{
    let fabric = Over::<'r, J>::open(alloc, opening)?;
    Ok(at_work(rt, alloc, &fabric, &NoGate, workers))
}

/// How many workers take up a station and put it back, of so many, one after the other.
pub fn enter_again<'r, R: Wait>(
    rt: &R,
    alloc: Global,
    opening: Opening<'r, LinkInbox<'r>, TakeSeat<'r>, SendSeat<'r>>,
    workers: u32,
) -> Result<u32, JobError> {
    at_fabric::<Brand, R>(rt, alloc, opening, workers)
}
