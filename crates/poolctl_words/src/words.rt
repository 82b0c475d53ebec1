//! The words of the command line, read with `clap`.
ghost use Rattle.std.specs.Prelude.{◌≡◌, map, string_bytes, IfOk, IfErr};
ghost use Rattle.clap.specs.Words.{kind_of};
ghost use Rattle.poolctl_words.specs.Asked.{AreGood, Asks};

mod arguments;
mod found;
mod limits;
mod subcommands;

use crate::asked::Asked;
use clap::Error;
use clap::error::ErrorKind;
use found::{asked_of, asks_for_no_workload};
use std::alloc::Global;
use subcommands::{commands, refusal_of_work};

/// Why nothing is asked for.
#[derive(Drop)]
pub enum Unread {
    /// There was no memory to read the words.
    Memory,
    /// The words are refused, or ask for help, with this text.
    Refused(String),
}

fn why(alloc: Global, error: &Error) -> Unread
    ensures { kind_of error.now ≡ ErrorKind.OutOfMemory → result ≡ Unread.Memory }
{
    if error.kind() == ErrorKind::OutOfMemory {
        return Unread::Memory;
    }
    match format!(in alloc; "{error}") {
        Ok(text) => Unread::Refused(text),
        Err(_) => Unread::Memory,
    }
}

/// There is no workload of the name that was given.
fn no_workload(alloc: Global) -> Unread {
    match refusal_of_work(alloc) {
        Ok(error) => why(alloc, &error),
        Err(_) => Unread::Memory,
    }
}

/// Reads the words. The program's own name stands first among them.
pub fn read(alloc: Global, words: &[String]) -> Result<Asked, Unread>
    ensures asked { IfOk result (λ asked. Asks (map string_bytes words.now) asked) }
    ensures refused { IfErr result (λ e. AreGood (map string_bytes words.now) → e ≡ Unread.Memory) }
{
    let Ok(command) = commands(alloc) else {
        return Err(Unread::Memory);
    };
    match command.try_get_matches_from(words) {
        Ok(matches) => match asked_of(&matches) {
            Some(asked) => Ok(asked),
            None if asks_for_no_workload(&matches) => Err(no_workload(alloc)),
            None => Err(Unread::Memory),
        },
        Err(error) => Err(why(alloc, &error)),
    }
}
