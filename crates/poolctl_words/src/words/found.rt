//! What `clap` found in the words.
ghost use Rattle.std.specs.Prelude.{◌≡◌, ◌≢◌, ◌≤◌, true, codes, Some, IfSome};
ghost use Rattle.clap.specs.Words.{first_of, found_of, rows_of, subcommand_rows_of};
ghost use Rattle.poolctl_words.specs.Asked.{AskedBy, HasFlag, IsReplay, IsRoute, IsWork, NamesWorkload, Reads};
ghost use Rattle.poolctl_words.specs.Asked.{workload_name};
ghost use Rattle.pool_jobs.specs.declared.workloads.workload.Workload.{Workload};

use super::limits::{LEAST_THREADS, MOST_CHUNKS, MOST_LIMIT};
use super::subcommands::{AUDIT, DROP, NAME};
use crate::asked::{Asked, Route, Work};
use clap::ArgMatches;
use digit_route::Digits;
use pool_jobs::{MOST_BUFFERS, MOST_ROUNDS, MOST_THREADS, Workload};
use region_cut::Profile;

fn number_of(matches: &ArgMatches<'_>, name: &str) -> Option<u32>
    ensures { IfSome result (λ n. Reads (rows_of (found_of matches.now)) name.now n) }
{
    matches.get_one::<u32>(name)
}

fn flag_of(matches: &ArgMatches<'_>, name: &str) -> bool
    ensures { HasFlag (rows_of (found_of matches.now)) name.now result }
{
    matches.get_flag(name)
}

/// The route between these two desks of the profile, in digits of this width. `clap` has found the numbers in their
/// ranges.
fn route_of(matches: &ArgMatches<'_>, profile: Profile) -> Option<Route>
    ensures { IfSome result (λ r. IsRoute (rows_of (found_of matches.now)) profile r) }
{
    let width = number_of(matches, "WIDTH")?;
    let digits = match profile {
        Profile::Pool => Digits::new(width)?,
        Profile::Pool2 => Digits::new2(width)?,
    };
    Some(Route {
        digits,
        from: u16::try_from(number_of(matches, "FROM")?).ok()?,
        owner: u16::try_from(number_of(matches, "OWNER")?).ok()?,
    })
}

fn replay_of(matches: &ArgMatches<'_>) -> Asked
    ensures { IsReplay (rows_of (found_of matches.now)) result }
{
    if flag_of(matches, AUDIT) {
        Asked::AuditedReplay
    } else {
        Asked::Replay
    }
}

fn workload_of(matches: &ArgMatches<'_>) -> Option<Workload>
    ensures { IfSome result (λ w. first_of (codes "NAME") (rows_of (found_of matches.now)) ≡ Some (workload_name w)) }
{
    match matches.get_str(NAME)? {
        "prodcons" => Some(Workload::ProdCons),
        "ring" => Some(Workload::Ring),
        "replace" => Some(Workload::Replace),
        _ => None,
    }
}

/// Whether a name is given that no workload has.
fn names_no_workload(matches: &ArgMatches<'_>) -> bool
    ensures { result ≡ true → (w : Workload)
        → first_of (codes "NAME") (rows_of (found_of matches.now)) ≢ Some (workload_name w) }
{
    match matches.get_str(NAME) {
        Some("prodcons") | Some("ring") | Some("replace") | None => false,
        Some(_) => true,
    }
}

/// Whether a workload is asked for by a name that none has.
pub fn asks_for_no_workload(matches: &ArgMatches<'_>) -> bool
    ensures { result ≡ true → NamesWorkload (subcommand_rows_of matches.now) → ⊥ }
{
    match matches.subcommand() {
        Some(("work", words)) => names_no_workload(words),
        _ => false,
    }
}

/// A number of these, which `clap` has looked at already.
fn within(number: u32, low: u32, high: u32) -> Option<u32>
    ensures { IfSome result (λ n. (n ≡ number) × (low ≤ n) × (n ≤ high)) }
{
    if low <= number && number <= high {
        Some(number)
    } else {
        None
    }
}

/// The workload that is to be run. `clap` has found its numbers in their ranges.
fn work_of(matches: &ArgMatches<'_>) -> Option<Work>
    ensures { IfSome result (IsWork (rows_of (found_of matches.now))) }
{
    Some(Work {
        workload: workload_of(matches)?,
        threads: within(number_of(matches, "threads")?, LEAST_THREADS, MOST_THREADS)?,
        count: within(number_of(matches, "count")?, 1, MOST_BUFFERS)?,
        rounds: within(number_of(matches, "rounds")?, 1, MOST_ROUNDS)?,
        chunks: within(number_of(matches, "chunks")?, 0, MOST_CHUNKS)?,
        digits: Digits::new(number_of(matches, "width")?)?,
        limit: within(number_of(matches, "limit")?, 0, MOST_LIMIT)?,
        seed: number_of(matches, "seed")?,
        drop_first: flag_of(matches, DROP),
    })
}

/// What a subcommand asks for. `clap` knows no other subcommand, and has found all its numbers.
pub fn asked_of(matches: &ArgMatches<'_>) -> Option<Asked>
    ensures { IfSome result (λ asked. AskedBy (subcommand_rows_of matches.now) asked) }
{
    let (name, words) = matches.subcommand()?;
    match name {
        "classes" => Some(Asked::Classes(Profile::Pool)),
        "classes2" => Some(Asked::Classes(Profile::Pool2)),
        "route" => Some(Asked::Route(route_of(words, Profile::Pool)?)),
        "route2" => Some(Asked::Route(route_of(words, Profile::Pool2)?)),
        "replay" => Some(replay_of(words)),
        "work" => Some(Asked::Work(work_of(words)?)),
        _ => None,
    }
}
