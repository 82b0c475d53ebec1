//! A worker whose posts are refused for a while.
ghost use Rattle.std.specs.Prelude.{◌≡◌, IfOk};
ghost use Rattle.pool_fabric.specs.Whole.{IsWhole, IsEachDesk, AreNoted};

use crate::pair::{Held, Over, Worker, both_retire, two_workers};
use link_inbox::{LinkInbox, SendSeat, TakeSeat};
use pool_fabric::{Found, GatherError, Naming, Opening, gather};
use pool_jobs::{Buffer, NoGate, PoolError};
use std::alloc::{AllocError, Global};
use std::marker::Brand;
use std::sync::Wait;

// The bytes that are asked for.
const SIZE: usize = 16;

/// What is freed to a stranger.
#[derive(Clone, Copy, Debug, PartialEq, Eq)]
pub struct Frees {
    /// How many buffers before the owner takes from its inbox.
    pub early: usize,
    /// Whether the stranger asks for a buffer then.
    pub asks: bool,
    /// How many buffers after that.
    pub late: usize,
}

// All buffers that the worker gets.
fn allocated<'a, 'r, J: Naming, R: Wait>(
    rt: &R,
    alloc: Global,
    worker: &mut Worker<'a, 'r, J>,
    most: usize,
) -> Result<Vec<Buffer<'r, J>>, AllocError> {
    let mut buffers = Vec::new(alloc);
    for _ in 0..most {
        match worker.alloc(rt, SIZE) {
            Ok(buffer) => buffers.push(buffer)?,
            Err(_) => return Ok(buffers),
        }
    }
    Ok(buffers)
}

// Frees the last buffers, so many.
fn free_some<'a, 'r, J: Naming, R: Wait>(
    rt: &R,
    worker: &mut Worker<'a, 'r, J>,
    buffers: &mut Vec<Buffer<'r, J>>,
    count: usize,
) {
    for _ in 0..count {
        if let Some(buffer) = buffers.pop() {
            worker.free(rt, buffer);
        }
    }
}

// Asks for a buffer, which is freed at once.
fn ask<'a, 'r, J: Naming, R: Wait>(
    rt: &R,
    worker: &mut Worker<'a, 'r, J>,
) -> Result<(), PoolError> {
    let buffer = worker.alloc(rt, SIZE)?;
    worker.free(rt, buffer);
    Ok(())
}

// The owner allocates all that it gets, the stranger frees as is said, and the owner the rest.
fn allocate_and_free<'a, 'r, J: Naming, R: Wait>(
    rt: &R,
    alloc: Global,
    owner: &mut Worker<'a, 'r, J>,
    stranger: &mut Worker<'a, 'r, J>,
    slots: usize,
    frees: Frees,
) -> Result<(), AllocError> {
    let mut buffers = allocated(rt, alloc, owner, slots)?;
    free_some(rt, stranger, &mut buffers, frees.early);
    let _asked = ask(rt, owner);
    if frees.asks {
        let _asked = ask(rt, stranger);
    }
    free_some(rt, stranger, &mut buffers, frees.late);
    let left = buffers.len();
    free_some(rt, owner, &mut buffers, left);
    Ok(())
}

// Two workers of a fabric, and the stations that don't go back on the shelf.
fn at_work<'a, 'r, J: Naming, R: Wait>(
    rt: &R,
    alloc: Global,
    fabric: &'a Over<'r, J>,
    gate: &'a NoGate,
    slots: usize,
    frees: Frees,
) -> Result<Vec<Held<'r, J>>, AllocError> {
    let Some((mut owner, mut stranger)) = two_workers(rt, alloc, fabric, gate) else {
        return Ok(Vec::new(alloc));
    };
    allocate_and_free(rt, alloc, &mut owner, &mut stranger, slots, frees)?;
    both_retire(rt, alloc, owner, stranger)
}

// The same at a fabric that `J` names, and its end.
fn unheard<'r, J: Naming, R: Wait>(
    rt: &R,
    alloc: Global,
    opening: Opening<'r, LinkInbox<'r>, TakeSeat<'r>, SendSeat<'r>>,
    slots: usize,
    frees: Frees,
) -> Result<Found<'r>, GatherError<'r>>
    requires { J.names ≡ opening }
    ensures whole { IfOk result (λ f. IsWhole f.desks.items f.batches.items f.lent f.freed
        f.parts.items opening.entry.chunks) }
    ensures desks { IfOk result (λ f. IsEachDesk opening.entry.count f.desks.items) }
    ensures drawn { IfOk result (λ f. AreNoted f.desks.items f.drawn) }
{
    let Ok(fabric) = Over::<'r, J>::open(alloc, opening) else {
        return Err(GatherError::NoMemory);
    };
    let Ok(held) = at_work(rt, alloc, &fabric, &NoGate, slots, frees) else {
        return Err(GatherError::NoMemory);
    };
    gather(rt, alloc, fabric, held)
}

/// The owner allocates all slots, at most so many of 16 bytes. A stranger frees some of them, the
/// owner takes from its inbox, and the stranger frees some more. Says all that there is then.
///
/// It wants two desks. The owner takes only where no slot is left to it.
pub fn free_unheard<'r, R: Wait>(
    rt: &R,
    alloc: Global,
    opening: Opening<'r, LinkInbox<'r>, TakeSeat<'r>, SendSeat<'r>>,
    slots: usize,
    frees: Frees,
) -> Result<Found<'r>, GatherError<'r>>
    ensures whole { IfOk result (λ f. IsWhole f.desks.items f.batches.items f.lent f.freed
        f.parts.items opening.entry.chunks) }
    ensures desks { IfOk result (λ f. IsEachDesk opening.entry.count f.desks.items) }
    ensures drawn { IfOk result (λ f. AreNoted f.desks.items f.drawn) }
{
    unheard::<Brand, R>(rt, alloc, opening, slots, frees)
}
