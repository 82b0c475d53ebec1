//! The command line over the buffer pool: traces replayed, the size classes, and routes.
#![tactic(auto)]

mod classes;
mod commands;
mod lines;
mod outcome;
mod route;
mod streams;
mod work;

pub use commands::command;
pub use outcome::Outcome;
use std::process::ExitCode;

fn main(rt: HostRuntime) -> ExitCode {
    let outcome = streams::run(&rt);
    let _ = rt.eprint(outcome.words());
    ExitCode::from(outcome.status())
}
