//! Counts the packets of a capture. One thread reads packets into buffers of a pool, some decode them, and
//! one counts.
#![tactic(auto)]

mod bundle;
mod capture;
mod counts;
mod json;
mod note;
mod outcome;
mod reader;
mod report;
mod run;
mod stages;
mod table;

use outcome::Outcome;
use std::process::ExitCode;

fn main(rt: HostRuntime) -> ExitCode {
    let outcome = match run::run(&rt, rt.stdin()) {
        Ok(outcome) => outcome,
        Err(error) => Outcome::Failed(error),
    };
    let _ = outcome.tell(&rt);
    ExitCode::from(outcome.status())
}
