//! A worker takes up the desk of one that has left.
ghost use Rattle.std.specs.Prelude.{◌≡◌, IfOk};
ghost use Rattle.pool_jobs.specs.Ends.{IsAccounted};

use crate::pair::{Held, Over, Worker, both_retire, two_workers};
use link_inbox::{LinkInbox, SendSeat, TakeSeat};
use pool_fabric::{Naming, Opening};
use pool_jobs::{Entrance, JobError, NoGate, PoolError, WorkReport, settle};
use std::alloc::Global;
use std::marker::Brand;
use std::sync::Wait;

// The size that is asked for.
const SIZE: usize = 512;

/// What a worker was answered that asked for a buffer.
#[derive(Clone, Copy, Debug, PartialEq, Eq)]
pub struct Answers {
    /// With a station of its own.
    pub own: Result<(), PoolError>,
    /// With the station of a worker that had left.
    pub taken_up: Result<(), PoolError>,
}

/// What there is when both workers have ended.
#[derive(Drop)]
pub struct TakenUp<'r> {
    pub answers: Answers,
    pub report: WorkReport<'r>,
}

// Allocates a buffer and frees it at once.
fn ask<'a, 'r, J: Naming, R: Wait>(
    rt: &R,
    worker: &mut Worker<'a, 'r, J>,
) -> Result<(), PoolError> {
    match worker.alloc(rt, SIZE) {
        Ok(buffer) => {
            worker.free(rt, buffer);
            Ok(())
        }
        Err(error) => Err(error),
    }
}

// Worker 0 draws the chunk, and frees what it lent. The slots are at home at its desk then, so worker 1
// finds none.
fn both_ask<'a, 'r, J: Naming, R: Wait>(
    rt: &R,
    leaving: &mut Worker<'a, 'r, J>,
    staying: &mut Worker<'a, 'r, J>,
) -> Result<(), PoolError> {
    let _drawn = ask(rt, leaving);
    ask(rt, staying)
}

// Worker 0 leaves, and worker 1 takes its station off the shelf, where no other one is.
fn take_up<'a, 'r, J: Naming, R: Wait>(
    rt: &R,
    alloc: Global,
    fabric: &'a Over<'r, J>,
    gate: &'a NoGate,
    leaving: Worker<'a, 'r, J>,
) -> Option<Worker<'a, 'r, J>> {
    match leaving.retire(rt) {
        Some(_station) => None,
        None => Entrance::new(alloc, fabric, gate, 1).enter(rt),
    }
}

// Both workers: what the second was answered, and the stations that don't go back on the shelf.
fn at_work<'a, 'r, J: Naming, R: Wait>(
    rt: &R,
    alloc: Global,
    fabric: &'a Over<'r, J>,
    gate: &'a NoGate,
) -> Option<(Answers, Vec<Held<'r, J>>)> {
    let (mut leaving, mut staying) = two_workers(rt, alloc, fabric, gate)?;
    let own = both_ask(rt, &mut leaving, &mut staying);
    let mut second = take_up(rt, alloc, fabric, gate, leaving)?;
    let taken_up = ask(rt, &mut second);
    let held = both_retire(rt, alloc, staying, second).ok()?;
    Some((Answers { own, taken_up }, held))
}

// The same at a fabric that `J` names, and its end.
fn at_fabric<'r, J: Naming, R: Wait>(
    rt: &R,
    alloc: Global,
    opening: Opening<'r, LinkInbox<'r>, TakeSeat<'r>, SendSeat<'r>>,
) -> Result<TakenUp<'r>, JobError>
    requires { J.names ≡ opening }
    ensures accounted { let n = opening.entry in
        IfOk result (λ t. IsAccounted n.chunks n.count t.report.found t.report.tally) }
{
    let fabric = Over::<'r, J>::open(alloc, opening)?;
    let Some((answers, held)) = at_work(rt, alloc, &fabric, &NoGate) else {
        return Err(JobError::NoMemory);
    };
    let report = settle(rt, alloc, fabric, held)?;
    Ok(TakenUp { answers, report })
}

/// A worker draws the only chunk of a pool of two desks, frees what it lent, and leaves. No chunk goes
/// from desk to desk: so another worker finds no slot with a station of its own, and finds all with the
/// station that the first one left. Says what it was answered, and all that there is then.
pub fn take_up_desk<'r, R: Wait>(
    rt: &R,
    alloc: Global,
    opening: Opening<'r, LinkInbox<'r>, TakeSeat<'r>, SendSeat<'r>>,
) -> Result<TakenUp<'r>, JobError>
    ensures accounted { let n = opening.entry in
        IfOk result (λ t. IsAccounted n.chunks n.count t.report.found t.report.tally) }
{
    at_fabric::<Brand, R>(rt, alloc, opening)
}
