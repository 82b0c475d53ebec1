//! Rows of buffers, one replaced at a time.
ghost use Rattle.std.specs.Prelude.{◌≡◌, length, IfOk};

use crate::crew::Job;
use crate::workloads::worker::{BuildWorker, Worker};
use std::alloc::{AllocError, Global};
use std::sync::Wait;
use std::time::Clock;

/// How many buffers a row has.
const PLACES: u32 = 16;

/// A row of places for buffers.
#[derive(Drop)]
pub struct Row<B: Drop> {
    places: Vec<Option<B>>,
}

impl<B: Drop> Row<B> {
    /// A row of empty places.
    pub(crate) fn new(alloc: Global) -> Result<Row<B>, AllocError> {
        let mut places = Vec::new(alloc);
        for _ in 0..PLACES {
            places.push(None)?;
        }
        Ok(Row { places })
    }

    /// No places.
    pub(crate) fn none(alloc: Global) -> Row<B> {
        Row {
            places: Vec::new(alloc),
        }
    }

    // Takes out what stands at the place.
    fn take(&mut self, at: u32) -> Option<B> {
        match self.places.get_mut(at as usize) {
            Some(place) => place.take(),
            None => None,
        }
    }

    // Puts a buffer at an empty place.
    fn put(&mut self, at: u32, buffer: Option<B>) {
        if let Some(place) = self.places.get_mut(at as usize) {
            *place = buffer;
        }
    }
}

/// Which round it is.
#[derive(Clone, Copy)]
pub struct Round {
    pub(crate) count: u32,
    pub(crate) is_first: bool,
    pub(crate) is_last: bool,
}

/// A worker with its row.
#[derive(Drop)]
pub(crate) struct ReplaceJob<S: BuildWorker> {
    builder: S,
    row: Row<S::Buffer>,
    round: Round,
}

/// What one worker gives back after a round, with its row. There is no outcome where it got no allocator.
#[derive(Drop)]
pub struct RoundResult<S: BuildWorker> {
    pub(crate) outcome: Option<S::Outcome>,
    pub(crate) row: Row<S::Buffer>,
}

// Fills the row.
fn fill<W: Worker, R: Wait>(rt: &R, worker: &mut W, row: &mut Row<W::Buffer>) {
    for at in 0..PLACES {
        let buffer = worker.allocate(rt);
        row.put(at, buffer);
    }
}

// Frees the buffer at a place and allocates another into it, so often.
fn replace_some<W: Worker, R: Wait>(rt: &R, worker: &mut W, row: &mut Row<W::Buffer>, count: u32) {
    for _i in 0..count {
        let at = worker.pick(PLACES);
        if let Some(buffer) = row.take(at) {
            worker.give_back(rt, buffer);
        }
        let buffer = worker.allocate(rt);
        row.put(at, buffer);
    }
}

// Frees the row.
fn empty<W: Worker, R: Wait>(rt: &R, worker: &mut W, row: &mut Row<W::Buffer>) {
    for at in 0..PLACES {
        if let Some(buffer) = row.take(at) {
            worker.give_back(rt, buffer);
        }
    }
}

/// A round of work over a row.
pub(crate) fn replace<W: Worker, R: Wait>(
    rt: &R,
    worker: W,
    row: &mut Row<W::Buffer>,
    round: Round,
) -> W::Outcome {
    let mut worker = worker;
    if round.is_first {
        fill(rt, &mut worker, row);
    }
    replace_some(rt, &mut worker, row, round.count);
    if round.is_last {
        empty(rt, &mut worker, row);
    }
    worker.end(rt)
}

impl<S: BuildWorker> Job for ReplaceJob<S> {
    type Out = RoundResult<S>;

    fn run<R: Wait + Clock>(self, rt: &R) -> RoundResult<S> {
        let ReplaceJob {
            builder,
            mut row,
            round,
        } = self;
        let outcome = builder.replace(rt, &mut row, round);
        RoundResult { outcome, row }
    }
}

/// Gives each worker its row, of which the last worker's comes first.
pub(crate) fn jobs_with_rows<S: BuildWorker>(
    alloc: Global,
    builders: Vec<S>,
    rows: Vec<Row<S::Buffer>>,
    round: Round,
) -> Result<Vec<ReplaceJob<S>>, AllocError>
    ensures each { IfOk result (λ jobs. length jobs.items ≡ length builders.items) }
{
    let mut rows = rows;
    let mut jobs = Vec::new(alloc);
    for builder in builders {
        let row = match rows.pop() {
            Some(row) => row,
            None => Row::new(alloc)?,
        };
        jobs.push(ReplaceJob {
            builder,
            row,
            round,
        })?;
    }
    Ok(jobs)
}
