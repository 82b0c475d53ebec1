//! What comes to a worker's inbox, and when the worker looks there though it never runs out of slots.
ghost use Rattle.std.specs.Prelude.{◌≡◌, IfOk};
ghost use Rattle.pool_jobs.specs.Ends.{IsAccounted};

use crate::pair::{Held, Over, Worker, both_retire, two_workers};
use link_inbox::{LinkInbox, SendSeat, TakeSeat};
use pool_fabric::{Naming, Opening};
use pool_jobs::{JobError, NoGate, PoolError, WorkReport, settle};
use std::alloc::Global;
use std::marker::Brand;
use std::sync::Wait;

// The size that the owner asks for all the while, and that of the buffer which another worker frees.
const SIZE: usize = 16;

const FREED_SIZE: usize = 512;

// How many buffers of that size a chunk has.
const IN_A_CHUNK: usize = 8;

/// What an owner and a stranger do.
#[derive(Clone, Copy)]
pub enum Trial {
    /// The stranger frees a buffer of 512 bytes and posts. The owner lends so many of 16 bytes, one after the other.
    Look(u32),
    /// The stranger frees so many buffers of 16 bytes, one after the other.
    Post(u32),
    /// The owner lends all eight buffers of 512 bytes. The stranger frees so many of 16 bytes and posts, and then
    /// those eight. The owner asks for one of them.
    Search(u32),
}

/// What there is when both workers have ended.
#[derive(Drop)]
pub struct Looked<'r> {
    /// How many batches the owner still found in its inbox.
    pub batches: Result<u32, PoolError>,
    pub report: WorkReport<'r>,
}

// Allocates a buffer and frees it at once, so many times.
fn go_on<'a, 'r, J: Naming, R: Wait>(
    rt: &R,
    worker: &mut Worker<'a, 'r, J>,
    loans: u32,
) -> Result<(), PoolError> {
    for _ in 0..loans {
        let buffer = worker.alloc(rt, SIZE)?;
        worker.free(rt, buffer);
    }
    Ok(())
}

// The owner draws a chunk for each size. The stranger frees one of its buffers, and the owner goes on
// without the size of that one.
fn look<'a, 'r, J: Naming, R: Wait>(
    rt: &R,
    owner: &mut Worker<'a, 'r, J>,
    stranger: &mut Worker<'a, 'r, J>,
    loans: u32,
) -> Result<(), PoolError> {
    go_on(rt, owner, 1)?;
    let buffer = owner.alloc(rt, FREED_SIZE)?;
    stranger.free(rt, buffer);
    let _all = stranger.flush(rt);
    go_on(rt, owner, loans)
}

// The stranger frees what the owner lends.
fn post<'a, 'r, J: Naming, R: Wait>(
    rt: &R,
    owner: &mut Worker<'a, 'r, J>,
    stranger: &mut Worker<'a, 'r, J>,
    frees: u32,
) -> Result<(), PoolError> {
    for _ in 0..frees {
        let buffer = owner.alloc(rt, SIZE)?;
        stranger.free(rt, buffer);
    }
    Ok(())
}

// What the owner asks for in the end comes behind all else that the stranger freed.
fn search<'a, 'r, J: Naming, R: Wait>(
    rt: &R,
    owner: &mut Worker<'a, 'r, J>,
    stranger: &mut Worker<'a, 'r, J>,
    frees: u32,
) -> Result<(), PoolError> {
    let mut parcel = owner.parcel(IN_A_CHUNK)?;
    let filled = owner.fill(rt, &mut parcel, FREED_SIZE, IN_A_CHUNK);
    let posted = post(rt, owner, stranger, frees);
    stranger.free_all(rt, parcel);
    let _all = stranger.flush(rt);
    filled?;
    posted?;
    let again = owner.alloc(rt, FREED_SIZE)?;
    owner.free(rt, again);
    Ok(())
}

// How many batches the owner finds behind it.
fn both_work<'a, 'r, J: Naming, R: Wait>(
    rt: &R,
    owner: &mut Worker<'a, 'r, J>,
    stranger: &mut Worker<'a, 'r, J>,
    trial: Trial,
) -> Result<u32, PoolError> {
    match trial {
        Trial::Look(loans) => look(rt, owner, stranger, loans)?,
        Trial::Post(frees) => post(rt, owner, stranger, frees)?,
        Trial::Search(frees) => search(rt, owner, stranger, frees)?,
    }
    Ok(owner.collect(rt))
}

// Both workers: the batches, and the stations that don't go back on the shelf.
fn at_work<'a, 'r, J: Naming, R: Wait>(
    rt: &R,
    alloc: Global,
    fabric: &'a Over<'r, J>,
    gate: &'a NoGate,
    trial: Trial,
) -> Option<(Result<u32, PoolError>, Vec<Held<'r, J>>)> {
    let (mut owner, mut stranger) = two_workers(rt, alloc, fabric, gate)?;
    let batches = both_work(rt, &mut owner, &mut stranger, trial);
    let held = both_retire(rt, alloc, owner, stranger).ok()?;
    Some((batches, held))
}

// The same at a fabric that `J` names, and its end.
fn at_fabric<'r, J: Naming, R: Wait>(
    rt: &R,
    alloc: Global,
    opening: Opening<'r, LinkInbox<'r>, TakeSeat<'r>, SendSeat<'r>>,
    trial: Trial,
) -> Result<Looked<'r>, JobError>
    requires { J.names ≡ opening }
    ensures accounted { let n = opening.entry in
        IfOk result (λ t. IsAccounted n.chunks n.count t.report.found t.report.tally) }
{
    let fabric = Over::<'r, J>::open(alloc, opening)?;
    let Some((batches, held)) = at_work(rt, alloc, &fabric, &NoGate, trial) else {
        return Err(JobError::NoMemory);
    };
    let report = settle(rt, alloc, fabric, held)?;
    Ok(Looked { batches, report })
}

/// An owner and a stranger do what `trial` says, and the owner looks into its inbox.
///
/// It wants two desks, and two chunks, or one for each 256 buffers that are freed, and for a search one more.
pub fn look_after<'r, R: Wait>(
    rt: &R,
    alloc: Global,
    opening: Opening<'r, LinkInbox<'r>, TakeSeat<'r>, SendSeat<'r>>,
    trial: Trial,
) -> Result<Looked<'r>, JobError>
    ensures accounted { let n = opening.entry in
        IfOk result (λ t. IsAccounted n.chunks n.count t.report.found t.report.tally) }
{
    at_fabric::<Brand, R>(rt, alloc, opening, trial)
}
