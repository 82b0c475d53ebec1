//! The options that the program takes, and their help.

use clap::{Arg, ArgAction, Command, value_parser};
use std::alloc::{AllocError, Global};

pub(crate) const FILES: &str = "FILE";

pub(crate) const MATCH: &str = "match";

pub(crate) const LEVEL: &str = "level";

pub(crate) const OUTPUT: &str = "output";

pub(crate) const ROTATE: &str = "rotate";

pub(crate) const PARSERS: &str = "parsers";

pub(crate) const CHUNKS: &str = "chunks";

pub(crate) const PROGRESS: &str = "progress";

static LEVELS: [&str; 8] = [
    "emerg", "alert", "crit", "err", "warning", "notice", "info", "debug",
];

const ABOUT: &str =
    "Reads lines of logs and writes each as a JSON object, in the order of the input";

const AFTER: &str =
    "An object has the line's number and, where the line has a head by RFC 5424 or RFC 3164, its parts:
  {\"line\":7,\"priority\":34,\"facility\":\"auth\",\"severity\":\"crit\",\"time\":\"Oct 11 22:14:15\",
   \"host\":\"mymachine\",\"app\":\"su\",\"procid\":\"12\",\"message\":\"'su root' failed\"}

A line of more than 1,004 bytes comes in pieces, each an object of its own with \"piece\", which counts
from 1, and \"last\". --match and --level look at the first piece, and keep or leave the whole line.

A piece that isn't UTF-8 has \"escaped\":true. In its texts, once JSON is read, \\xHH stands for a byte
from 128 on, and \\\\ for a backslash.

Exit status: 0 done, 1 something failed, 2 the words are wrong.";

/// The program's command line.
pub(crate) fn command_line<'a>(alloc: Global) -> Result<Command<'a>, AllocError> {
    let command = Command::new(alloc, "example_shipper")
        .about(ABOUT)
        .after_help(AFTER)
        .arg(files(alloc))?;
    let command = with_filters(alloc, command)?;
    let command = with_outputs(alloc, command)?;
    with_settings(alloc, command)
}

fn files<'a>(alloc: Global) -> Arg<'a> {
    Arg::new(alloc, FILES)
        .num_args(0..)
        .action(ArgAction::Append)
        .help("Files to read, in order; - is standard input, and so is no file")
}

fn with_filters<'a>(alloc: Global, command: Command<'a>) -> Result<Command<'a>, AllocError> {
    let pattern = valued(alloc, MATCH, 'm', "REGEX").help(
        "Keep only lines that match this regular expression",
    );
    let level = valued(alloc, LEVEL, 'l', "LEVEL")
        .value_parser(LEVELS.as_slice())
        .help("Keep only lines of this severity or a more urgent one");
    command.arg(pattern)?.arg(level)
}

fn with_outputs<'a>(alloc: Global, command: Command<'a>) -> Result<Command<'a>, AllocError> {
    let output = valued(alloc, OUTPUT, 'o', "FILE").help(
        "Append to this file, and not to standard output",
    );
    let rotate = valued(alloc, ROTATE, 'r', "BYTES")
        .value_parser(value_parser!(u64).range(1..))
        .requires_arg(OUTPUT)?
        .help("Rename that file to FILE.1, FILE.2 .. before it grows beyond so many bytes");
    command.arg(output)?.arg(rotate)
}

fn with_settings<'a>(alloc: Global, command: Command<'a>) -> Result<Command<'a>, AllocError> {
    let parsers = valued(alloc, PARSERS, 'p', "COUNT")
        .value_parser(value_parser!(u32).range(1..=16))
        .default_value("2")
        .help("Threads that parse");
    let chunks = valued(alloc, CHUNKS, 'c', "COUNT")
        .value_parser(value_parser!(u32).range(64..=1_024))
        .default_value("96")
        .help("Chunks of 4,096 bytes that hold lines on their way");
    let progress = Arg::new(alloc, PROGRESS)
        .long(PROGRESS)
        .action(ArgAction::SetTrue)
        .help("Say on standard error each second how many lines and bytes were read");
    command.arg(parsers)?.arg(chunks)?.arg(progress)
}

// An option with a value.
fn valued<'a>(alloc: Global, name: &'a str, short: char, value: &'a str) -> Arg<'a> {
    Arg::new(alloc, name)
        .long(name)
        .short(short)
        .value_name(value)
        .action(ArgAction::Set)
}
