//! The program: its words, its capture, its threads, and its report.

use crate::capture::{Capture, Stop};
use crate::counts::Counts;
use crate::json::json_of;
use crate::outcome::Outcome;
use crate::reader::Reader;
use crate::report::Report;
use crate::stages::Stage;
use crate::table::write_table;
use anyhow::{Context, Result};
use example_decoder_words::{Asked, Unread, read};
use fustrevol::{CHUNK, Digits, Pool};
use std::alloc::Global;
use std::env;
use std::fs::File;
use std::io::{self, BufReader, BufWriter, Read, Stdin, Write};
use std::rt::{Env, Files};
use std::sync::Wait;
use std::thread::Threads;
use std::time::Clock;

// How much is read of the capture at once.
const READ_AHEAD: usize = 1 << 16;

/// How many bytes of a packet a buffer holds.
const MOST: usize = 512;

/// The same in the pool's wide profile.
const MOST_WIDE: usize = 1_024;

/// Does what the words of the command line ask for.
pub fn run<R>(rt: &R, stdin: Stdin) -> Result<Outcome>
where
    R: AllocGlobal + Env + Files<File = File> + Print + Threads + Wait + Clock + Sync,
{
    let alloc = rt.alloc();
    let words = env::args(rt)?.collect::<Vec<String>>(alloc)?;
    let asked = match read(alloc, words.as_slice()) {
        Ok(asked) => asked,
        Err(Unread::Help(text)) => return Ok(Outcome::Helped(text)),
        Err(Unread::Refused(text)) => return Ok(Outcome::Refused(text)),
        Err(Unread::Memory) => anyhow::bail!("no memory"),
    };
    match &asked.file {
        Some(name) => {
            let file = File::open(rt, name.as_str()).context(format_args!("{name}"))?;
            decode_all(rt, &asked, name.as_str(), file)
        }
        None => decode_all(rt, &asked, "standard input", stdin),
    }
}

// Decodes the capture of this name, and prints the report.
fn decode_all<I, R>(rt: &R, asked: &Asked, name: &str, input: I) -> Result<Outcome>
where
    I: Read + Send + Drop,
    R: AllocGlobal + Print + Threads + Wait + Clock + Sync,
{
    let alloc = rt.alloc();
    let capture = match Capture::open(BufReader::with_capacity(alloc, READ_AHEAD, input)?) {
        Ok(capture) => capture,
        Err(stop) => return stopped(alloc, name, stop),
    };
    let Some(report) = report_of(rt, asked, capture)? else {
        anyhow::bail!("a thread didn't run");
    };
    print_report(rt, asked, &report)?;
    let missing = if report.is_whole() {
        None
    } else {
        Some(report.account(alloc)?)
    };
    match (report.stop, missing) {
        (Some(stop), _) => stopped(alloc, name, stop),
        (None, Some(account)) => Ok(Outcome::Lost(account)),
        (None, None) => Ok(Outcome::Done),
    }
}

fn stopped(alloc: Global, name: &str, stop: Stop) -> Result<Outcome> {
    Ok(Outcome::Stopped(String::from_str(alloc, name)?, stop))
}

// Runs the threads over a pool.
fn report_of<I, R>(rt: &R, asked: &Asked, capture: Capture<I>) -> Result<Option<Report>>
where
    I: Read + Send + Drop,
    R: AllocGlobal + Threads + Wait + Clock + Sync,
{
    let alloc = rt.alloc();
    let decoders = asked.decoders as usize;
    let link = capture.link;
    let mut stages = Vec::new(alloc);
    let reader = Reader::new(capture, decoders, most_of(asked));
    stages.push(Stage::Read(reader))?;
    for _ in 0..decoders {
        let counter = decoders + 1;
        stages.push(Stage::Decode { link, counter })?;
    }
    stages.push(Stage::Count(Counts::new(alloc)?))?;
    let mut region = vec![in alloc; 0u8; asked.chunks as usize * CHUNK]?;
    let pool = Pool::new(alloc, &mut region)?;
    let pool = match Digits::new2(6) {
        Some(digits) if asked.is_wide => pool.digits(digits),
        _ => pool,
    };
    let ended = pool.run(rt, stages)?;
    Ok(Report::of(alloc, ended, asked.top as usize)?)
}

fn most_of(asked: &Asked) -> usize {
    if asked.is_wide { MOST_WIDE } else { MOST }
}

fn print_report<R: AllocGlobal + Print>(rt: &R, asked: &Asked, report: &Report) -> Result<()> {
    let alloc = rt.alloc();
    let mut out = BufWriter::new(alloc, io::writer(rt))?;
    if asked.is_json {
        let text = json_of(alloc, report, asked.has_audit)?.to_string_pretty(alloc)?;
        writeln!(out, "{text}")?;
    } else {
        write_table(alloc, report, most_of(asked), &mut out)?;
        if asked.has_audit {
            writeln!(out, "\n{}", report.account(alloc)?)?;
        }
    }
    out.flush()?;
    Ok(())
}
