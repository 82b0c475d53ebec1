//! The words of the command line, read with `clap`.

use crate::asked::Asked;
use crate::options::{
    CHUNKS, FILES, LEVEL, MATCH, OUTPUT, PARSERS, PROGRESS, ROTATE, command_line,
};
use clap::error::ErrorKind;
use clap::{ArgMatches, Command, Error};
use std::alloc::{AllocError, Global};
use syslog_lines::Severity;

/// Why nothing is asked for.
#[derive(Debug, Drop)]
pub enum Unread {
    /// There was no memory to read the words.
    Memory,
    /// The words are refused, with this text.
    Refused(String),
    /// The words ask for help, and this is it.
    Help(String),
}

impl From<AllocError> for Unread {
    fn from(_refused: AllocError) -> Unread {
        Unread::Memory
    }
}

/// Reads the words. The program's own name stands first among them.
pub fn read(alloc: Global, words: &[String]) -> Result<Asked, Unread> {
    let command = command_line(alloc)?;
    match command.try_get_matches_from(words) {
        Ok(matches) => asked_of(alloc, &matches),
        Err(error) => Err(why(alloc, &error)),
    }
}

fn why(alloc: Global, error: &Error) -> Unread {
    let Ok(text) = format!(in alloc; "{error}") else {
        return Unread::Memory;
    };
    match error.kind() {
        ErrorKind::OutOfMemory => Unread::Memory,
        ErrorKind::DisplayHelp => Unread::Help(text),
        _ => Unread::Refused(text),
    }
}

fn asked_of(alloc: Global, matches: &ArgMatches<'_>) -> Result<Asked, Unread> {
    Ok(Asked {
        files: texts_of(alloc, matches.get_strs(FILES).unwrap_or(&[]))?,
        pattern: text_of(alloc, matches.get_str(MATCH))?,
        level: matches.get_str(LEVEL).and_then(Severity::from_keyword),
        output: text_of(alloc, matches.get_str(OUTPUT))?,
        rotate: matches.get_one::<u64>(ROTATE),
        parsers: number_of(matches, PARSERS),
        chunks: number_of(matches, CHUNKS),
        progress: matches.get_flag(PROGRESS),
    })
}

// A number that `clap` has found in its range, or its default.
fn number_of(matches: &ArgMatches<'_>, name: &str) -> usize {
    matches.get_one::<u32>(name).unwrap_or(1) as usize
}

fn text_of(alloc: Global, text: Option<&str>) -> Result<Option<String>, AllocError> {
    match text {
        Some(text) => Ok(Some(String::from_str(alloc, text)?)),
        None => Ok(None),
    }
}

fn texts_of(alloc: Global, texts: &[&str]) -> Result<Vec<String>, AllocError> {
    let mut all = Vec::new(alloc);
    for text in texts {
        all.push(String::from_str(alloc, text)?)?;
    }
    Ok(all)
}
