//! The command line, and what `clap` found in it.
ghost use Rattle.std.specs.Prelude.{◌≡◌, ◌≤◌, IfSome};
ghost use Rattle.example_decoder_words.specs.Asked.{IsPossible};

use crate::asked::{Asked, MOST_CHUNKS, MOST_DECODERS};
use clap::{Arg, ArgAction, ArgMatches, Command, value_parser};
use std::alloc::{AllocError, Global};

const ABOUT: &str =
    "Counts the packets of a capture by protocol, and finds the flows with most bytes";

const BEHIND: &str = "\
Reads a pcap file of Ethernet frames or raw IP packets, and prints a table. A pcapng file has to be made \
a pcap file before, as by `editcap -F pcap`. One thread reads packets into buffers of a pool, others \
decode them, and one counts; the answer is the same for any number of threads.

Exit status: 0 where the whole capture was read; 1 where it is broken, and what came before is reported; \
2 where the words are refused; 3 where reading or writing failed.";

const FILE: &str = "FILE";

const FILE_HELP: &str = "The capture; standard input where it is left out or is -";

/// An option with a number, and what that is where it isn't given.
struct Choice {
    name: &'static str,
    low: u32,
    high: u32,
    default: &'static str,
    help: &'static str,
}

const TOP: Choice = Choice {
    name: "top",
    low: 0,
    high: 1_000_000,
    default: "10",
    help: "How many flows to print, those with most bytes first",
};

const DECODERS: Choice = Choice {
    name: "decoders",
    low: 1,
    high: MOST_DECODERS,
    default: "2",
    help: "Threads that decode, 1 to 62, beside the one that reads and the one that counts",
};

const CHUNKS: Choice = Choice {
    name: "chunks",
    low: 32,
    high: MOST_CHUNKS,
    default: "128",
    help: "Size of the pool: 32 to 1024 chunks of 4,096 bytes",
};

const WIDE: &str = "wide";

const WIDE_HELP: &str = "Keep up to 1,024 bytes of a packet, and not 512";

const JSON: &str = "json";

const JSON_HELP: &str = "Print JSON, and no table";

const AUDIT: &str = "audit";

const AUDIT_HELP: &str = "Print the pool's audit too: whether each buffer came home";

fn with_number<'a>(
    alloc: Global,
    command: Command<'a>,
    choice: &Choice,
) -> Result<Command<'a>, AllocError> {
    let range = i64::from(choice.low)..=i64::from(choice.high);
    let argument = Arg::new(alloc, choice.name)
        .long(choice.name)
        .value_name("N")
        .action(ArgAction::Set)
        .value_parser(value_parser!(u32).range(range))
        .default_value(choice.default)
        .help(choice.help);
    command.arg(argument)
}

fn with_flag<'a>(
    alloc: Global,
    command: Command<'a>,
    name: &'a str,
    help: &'a str,
) -> Result<Command<'a>, AllocError> {
    let argument = Arg::new(alloc, name)
        .long(name)
        .action(ArgAction::SetTrue)
        .help(help);
    command.arg(argument)
}

fn with_file<'a>(alloc: Global, command: Command<'a>) -> Result<Command<'a>, AllocError> {
    let argument = Arg::new(alloc, FILE).action(ArgAction::Set).help(FILE_HELP);
    command.arg(argument)
}

/// The command line.
pub fn command<'a>(alloc: Global) -> Result<Command<'a>, AllocError> {
    let command = Command::new(alloc, "example_decoder")
        .about(ABOUT)
        .after_help(BEHIND);
    let command = with_file(alloc, command)?;
    let command = with_number(alloc, command, &TOP)?;
    let command = with_number(alloc, command, &DECODERS)?;
    let command = with_number(alloc, command, &CHUNKS)?;
    let command = with_flag(alloc, command, WIDE, WIDE_HELP)?;
    let command = with_flag(alloc, command, JSON, JSON_HELP)?;
    with_flag(alloc, command, AUDIT, AUDIT_HELP)
}

// The number of this option, which `clap` has found in its range.
fn number_of(matches: &ArgMatches<'_>, choice: &Choice) -> Option<u32>
    ensures { IfSome result (λ n. (choice.now.low ≤ n) × (n ≤ choice.now.high)) }
{
    let number = matches.get_one::<u32>(choice.name)?;
    if choice.low <= number && number <= choice.high {
        Some(number)
    } else {
        None
    }
}

// The file that is named; `Some(None)` stands for standard input, and `None` for want of memory.
fn file_of(alloc: Global, matches: &ArgMatches<'_>) -> Option<Option<String>> {
    match matches.get_str(FILE) {
        None | Some("-") => Some(None),
        Some(name) => Some(Some(String::from_str(alloc, name).ok()?)),
    }
}

/// What `clap` found. It is `None` only for want of memory.
pub fn asked_of(alloc: Global, matches: &ArgMatches<'_>) -> Option<Asked>
    ensures { IfSome result IsPossible }
{
    Some(Asked {
        file: file_of(alloc, matches)?,
        top: number_of(matches, &TOP)?,
        decoders: number_of(matches, &DECODERS)?,
        chunks: number_of(matches, &CHUNKS)?,
        is_wide: matches.get_flag(WIDE),
        is_json: matches.get_flag(JSON),
        has_audit: matches.get_flag(AUDIT),
    })
}
