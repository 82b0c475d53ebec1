//! A log shipper: a reader, several parsers and a writer, over a pool of buffers.
//!
//! The reader puts each line into a buffer and deals parcels of them to the parsers in turn. A parser reads a
//! line's head and writes its JSON object in place of the line. The writer puts the parcels back into the order
//! of the input, writes what is kept, and frees them.
#![tactic(auto)]

mod block;
mod counts;
mod dealer;
mod drain;
mod label;
mod output;
mod parsing;
mod reading;
mod ship;
mod stage;
mod writing;

use std::process::ExitCode;

fn main(rt: HostRuntime) -> ExitCode {
    ship::run(&rt, rt)
}
