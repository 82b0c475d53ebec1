//! How the program ends.

use crate::capture::Stop;
use anyhow::Error;
use std::io;

/// How the program ends: a variant for each exit status and what is said of it.
#[derive(Drop)]
pub enum Outcome {
    /// All was read. Status 0.
    Done,
    /// The words ask for help, and this is it. Status 0.
    Helped(String),
    /// The capture is broken at some place; what came before is reported. Status 1.
    Stopped(String, Stop),
    /// Packets or buffers are missing, or memory for the audit was; this says which. Status 1.
    Lost(String),
    /// The words are refused, with this text. Status 2.
    Refused(String),
    /// Reading, writing or the pool failed. Status 3.
    Failed(Error),
}

impl Outcome {
    /// The exit status.
    pub fn status(&self) -> u8 {
        match self {
            Outcome::Done | Outcome::Helped(_) => 0,
            Outcome::Stopped(_, stop) if stop.is_of_the_capture() => 1,
            Outcome::Lost(_) => 1,
            Outcome::Refused(_) => 2,
            Outcome::Stopped(..) | Outcome::Failed(_) => 3,
        }
    }

    /// Says what there is to say, on standard error but for the help.
    pub fn tell(&self, rt: &(impl Print + Eprint)) -> io::Result<()> {
        match self {
            Outcome::Done => Ok(()),
            Outcome::Helped(text) => print!(rt; "{text}"),
            Outcome::Stopped(name, stop) => eprintln!(rt; "example_decoder: {name}: {stop}"),
            Outcome::Lost(account) => eprintln!(rt; "example_decoder: {account}"),
            Outcome::Refused(text) => eprint!(rt; "{text}"),
            Outcome::Failed(error) => eprintln!(rt; "example_decoder: {error:#}"),
        }
    }
}
