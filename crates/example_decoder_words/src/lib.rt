//! What the words of `example_decoder`'s command line ask for, read with `clap`.
//!
//! [`read`] reads them. It knows nothing of captures, so it is proved beside the crates that the program
//! stands on.
#![tactic(auto)]

ghost use Rattle.std.specs.Prelude.{◌≡◌, IfOk, IfErr};
ghost use Rattle.clap.specs.Words.{kind_of};
ghost use Rattle.example_decoder_words.specs.Asked.{IsPossible};

mod asked;
mod words;

pub use asked::{Asked, MOST_CHUNKS, MOST_DECODERS};
use clap::Error;
use clap::error::ErrorKind;
use std::alloc::Global;

/// Why nothing is asked for.
#[derive(Drop)]
pub enum Unread {
    /// There was no memory to read the words.
    Memory,
    /// The words are refused, with this text.
    Refused(String),
    /// The words ask for help, and this is it.
    Help(String),
}

fn why(alloc: Global, error: &Error) -> Unread
    ensures { kind_of error.now ≡ ErrorKind.OutOfMemory → result ≡ Unread.Memory }
{
    if error.kind() == ErrorKind::OutOfMemory {
        return Unread::Memory;
    }
    match format!(in alloc; "{error}") {
        Ok(text) if error.kind() == ErrorKind::DisplayHelp => Unread::Help(text),
        Ok(text) => Unread::Refused(text),
        Err(_) => Unread::Memory,
    }
}

/// Reads the words. The program's own name stands first among them.
pub fn read(alloc: Global, words: &[String]) -> Result<Asked, Unread>
    ensures { IfOk result IsPossible }
{
    let Ok(command) = words::command(alloc) else {
        return Err(Unread::Memory);
    };
    match command.try_get_matches_from(words) {
        Ok(matches) => words::asked_of(alloc, &matches).ok_or(Unread::Memory),
        Err(error) => Err(why(alloc, &error)),
    }
}
