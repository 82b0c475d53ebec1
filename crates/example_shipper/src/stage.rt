//! The stages, as tasks of a pool: task 0 reads, the last one writes, and those between them parse.

use crate::counts::Counts;
use crate::parsing::Parsing;
use crate::reading::Reading;
use crate::writing::Writing;
use fustrevol::{Edges, Heap, Task};
use std::rt::Files;
use std::sync::Wait;
use std::time::Clock;

/// The number of the task that reads.
pub const READER: usize = 0;

/// The number of the first task that parses.
pub const FIRST_PARSER: usize = 1;

/// How many parcels may wait at the end of an edge.
const PARCELS: usize = 4;

/// What a task does. `P` is what it reads, writes and prints by.
#[derive(Drop)]
pub enum Stage<P: Files + Drop> {
    Read(Reading<P>),
    Parse(Parsing),
    Write(Writing<P>),
}

/// A stage answers with what it counted, or with what failed.
impl<P: Files + Input + Print + Eprint + AllocGlobal + Drop> Task for Stage<P> {
    type Answer = anyhow::Result<Counts>;

    // A stage that gives up hands a message to the reader, which stops.
    fn sends_to(&self, task: usize) -> bool {
        match self {
            Stage::Read(reading) => reading.is_parser(task),
            Stage::Parse(parsing) => task == READER || task == parsing.writer(),
            Stage::Write(_) => task == READER,
        }
    }

    fn bound(&self, _task: usize) -> usize {
        PARCELS
    }

    fn run<H: Heap, R: Wait + Clock>(self, rt: &R, heap: &mut H, to: Edges<H>) -> Self::Answer {
        match self {
            Stage::Read(reading) => reading.run(rt, heap, &to),
            Stage::Parse(parsing) => parsing.run(rt, heap, &to),
            Stage::Write(writing) => writing.run(rt, heap, &to),
        }
    }
}
