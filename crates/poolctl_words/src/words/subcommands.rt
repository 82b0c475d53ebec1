//! The program's subcommands.
ghost use Rattle.std.specs.Prelude.{◌≡◌, codes, false, IfOk};
ghost use Rattle.clap.specs.Words.{app_of, kind_of, new_app, with_rule, with_subcommand};
ghost use Rattle.clap.specs.declared.Command.TheViews.{out-Command as fields_of};
ghost use Rattle.poolctl_words.specs.CommandLine.{command_line, replay_app, route_app, wants_subcommand, work_app};

use super::arguments::{Choice, flag, number, option, plain_command, text, with_argument};
use super::limits::{LAST_DESK, LAST_DESK2, LEAST_THREADS, MOST_CHUNKS, MOST_LIMIT};
use clap::error::ErrorKind;
use clap::{Command, Error};
use pool_jobs::{MOST_BUFFERS, MOST_ROUNDS, MOST_THREADS};
use std::alloc::{AllocError, Global};

/// The command, with one subcommand more.
fn with_subcommand<'a>(
    command: Command<'a>,
    subcommand: Command<'a>,
) -> Result<Command<'a>, AllocError>
    requires { (fields_of subcommand).has_globals ≡ false }
    ensures { IfOk result (λ c. app_of c ≡ with_subcommand (app_of command.entry) (app_of subcommand.entry).top) }
{
    command.subcommand(subcommand)
}

fn route_command<'a>(
    alloc: Global,
    name: &'a str,
    about: &'a str,
    greatest: u32,
) -> Result<Command<'a>, AllocError>
    ensures app { IfOk result (λ c. app_of c ≡ route_app name.entry.now greatest) }
    ensures local { IfOk result (λ c. (fields_of c).has_globals ≡ false) }
{
    let command = plain_command(alloc, name, about);
    let command = with_argument(command, number(alloc, "WIDTH", 1, 6, "Bits of a digit"))?;
    let from = number(
        alloc,
        "FROM",
        0,
        greatest,
        "Number of the desk that has the buffer",
    );
    let command = with_argument(command, from)?;
    let owner = number(
        alloc,
        "OWNER",
        0,
        greatest,
        "Number of the desk that owns it",
    );
    with_argument(command, owner)
}

/// The flag that asks for an audit.
pub const AUDIT: &str = "audit";

/// What the help says of that flag.
const AUDIT_HELP: &str =
    "Audit the pool at the end: whether each slot of each drawn chunk is there once";

const REPLAY: &str = "Replay a trace from standard input and print the report";

fn replay_command<'a>(alloc: Global) -> Result<Command<'a>, AllocError>
    ensures app { IfOk result (λ c. app_of c ≡ replay_app) }
    ensures local { IfOk result (λ c. (fields_of c).has_globals ≡ false) }
{
    let command = plain_command(alloc, "replay", REPLAY);
    with_argument(command, flag(alloc, AUDIT, AUDIT_HELP))
}

/// The argument that names a workload.
pub const NAME: &str = "NAME";

const NO_WORKLOAD: &str = "no workload has this name [possible values: prodcons, ring, replace]";

const NAME_HELP: &str = "Which workload: prodcons, ring or replace";

const THREADS: Choice<'static> = Choice {
    name: "threads",
    low: LEAST_THREADS,
    high: MOST_THREADS,
    default: "4",
    help: "Workers, each in a thread of its own",
};

const COUNT: Choice<'static> = Choice {
    name: "count",
    low: 1,
    high: MOST_BUFFERS,
    default: "1000",
    help: "Buffers that a worker allocates, or replaces in a round",
};

const ROUNDS: Choice<'static> = Choice {
    name: "rounds",
    low: 1,
    high: MOST_ROUNDS,
    default: "1",
    help: "Rounds of replace",
};

const CHUNKS: Choice<'static> = Choice {
    name: "chunks",
    low: 0,
    high: MOST_CHUNKS,
    default: "1024",
    help: "Chunks of the region, of 4,096 bytes each",
};

const WIDTH: Choice<'static> = Choice {
    name: "width",
    low: 1,
    high: 6,
    default: "2",
    help: "Bits of a digit",
};

const LIMIT: Choice<'static> = Choice {
    name: "limit",
    low: 0,
    high: MOST_LIMIT,
    default: "4096",
    help: "Bytes in a desk's cache above which it posts",
};

const SEED: Choice<'static> = Choice {
    name: "seed",
    low: 0,
    high: u32::MAX,
    default: "1",
    help: "What the sizes are drawn from",
};

/// The flag of a run that loses a buffer.
pub const DROP: &str = "drop";

const DROP_HELP: &str = "Let the first worker drop its first buffer";

const WORK: &str = "Run a workload in threads and audit its pool";

fn work_command<'a>(alloc: Global) -> Result<Command<'a>, AllocError>
    ensures app { IfOk result (λ c. app_of c ≡ work_app) }
    ensures local { IfOk result (λ c. (fields_of c).has_globals ≡ false) }
{
    let command = plain_command(alloc, "work", WORK);
    let command = with_argument(command, text(alloc, NAME, NAME_HELP))?;
    let command = with_argument(command, option(alloc, THREADS))?;
    let command = with_argument(command, option(alloc, COUNT))?;
    let command = with_argument(command, option(alloc, ROUNDS))?;
    let command = with_argument(command, option(alloc, CHUNKS))?;
    let command = with_argument(command, option(alloc, WIDTH))?;
    let command = with_argument(command, option(alloc, LIMIT))?;
    let command = with_argument(command, option(alloc, SEED))?;
    with_argument(command, flag(alloc, DROP, DROP_HELP))
}

/// The refusal of a name that no workload has, in `clap`'s form.
pub fn refusal_of_work(alloc: Global) -> Result<Error, AllocError>
    ensures { IfOk result (λ e. kind_of e ≡ ErrorKind.InvalidValue) }
{
    let mut command = work_command(alloc)?.bin_name("poolctl work")?;
    command.error(ErrorKind::InvalidValue, NO_WORKLOAD)
}

/// The program, without its subcommands.
fn program<'a>(alloc: Global) -> Command<'a>
    ensures { app_of result ≡ wants_subcommand (new_app (codes "poolctl")) }
{
    Command::new(alloc, "poolctl")
        .about("A message-passing buffer pool after snmalloc, driven from the command line")
        .subcommand_required(true)
}

const CLASSES: &str =
    "Print the size classes, one line each: number, slot size, slots of a chunk, bytes left over";

const CLASSES2: &str = "The same for the profile of 4,096 desks";

const ROUTE: &str = "Print how two of 64 desks' numbers read in digits, and how many they share";

const ROUTE2: &str = "The same for two of 4,096 desks";

/// The program's command line.
pub fn commands<'a>(alloc: Global) -> Result<Command<'a>, AllocError>
    ensures { IfOk result (λ c. app_of c ≡ command_line) }
{
    let classes = plain_command(alloc, "classes", CLASSES);
    let command = with_subcommand(program(alloc), classes)?;
    let classes2 = plain_command(alloc, "classes2", CLASSES2);
    let command = with_subcommand(command, classes2)?;
    let route = route_command(alloc, "route", ROUTE, LAST_DESK)?;
    let command = with_subcommand(command, route)?;
    let route2 = route_command(alloc, "route2", ROUTE2, LAST_DESK2)?;
    let command = with_subcommand(command, route2)?;
    let replay = replay_command(alloc)?;
    let command = with_subcommand(command, replay)?;
    let work = work_command(alloc)?;
    with_subcommand(command, work)
}
