//! From the words of the command line to the exit status.

use crate::counts::Counts;
use crate::output::{LogFile, Output};
use crate::parsing::{Parsing, compiled};
use crate::reading::Reading;
use crate::stage::Stage;
use crate::writing::Writing;
use anyhow::{Context, Result, bail};
use example_shipper_words::{Asked, Unread, read};
use fustrevol::{CHUNK, Digits, Pool};
use std::alloc::Global;
use std::env;
use std::process::ExitCode;
use std::sync::Wait;
use std::thread::Threads;
use std::time::{Clock, Instant};

/// Does what the program's words ask for, and says what failed. `rt` starts the threads, `host` reads, writes and prints.
pub fn run<R: Threads + Wait + Clock + Sync>(rt: &R, host: HostRuntime) -> ExitCode {
    match try_run(rt, host) {
        Ok(status) => ExitCode::from(status),
        Err(error) => {
            let _told = eprintln!(host; "example_shipper: {error:#}");
            ExitCode::from(1)
        }
    }
}

fn try_run<R: Threads + Wait + Clock + Sync>(rt: &R, host: HostRuntime) -> Result<u8> {
    let alloc = host.alloc();
    let words = env::args(&host)?
        .collect::<Vec<String>>(alloc)
        .context("the words")?;
    match read(alloc, words.as_slice()) {
        Ok(asked) => {
            if let Err(error) = compiled(alloc, &asked.pattern) {
                eprintln!(host; "example_shipper: {error:#}")?;
                return Ok(2);
            }
            ship(rt, host, asked)?;
            Ok(0)
        }
        Err(Unread::Memory) => bail!("no memory"),
        Err(Unread::Help(text)) => {
            print!(host; "{text}")?;
            Ok(0)
        }
        Err(Unread::Refused(text)) => {
            eprint!(host; "{text}")?;
            Ok(2)
        }
    }
}

// Ships the lines. What failed first in the order of the stages is said, a failed write before all.
fn ship<R: Threads + Wait + Clock + Sync>(rt: &R, host: HostRuntime, asked: Asked) -> Result<()> {
    let alloc = host.alloc();
    let began = Instant::now(rt)?;
    let progress = asked.progress;
    let mut region = vec![in alloc; 0u8; asked.chunks.min(1_024) * CHUNK]?;
    let mut pool = Pool::new(alloc, &mut region)?;
    if let Some(digits) = Digits::new2(6) {
        pool = pool.digits(digits);
    }
    let stages = stages(host, asked)?;
    let mut report = pool.run(rt, stages)?;
    let written = report.answers.pop().flatten().context("no writer")??;
    let mut read = Counts::NONE;
    for (number, answer) in report.answers.into_iter().enumerate() {
        let counts = answer.context("no thread for a stage")??;
        if number == 0 {
            read = counts;
        }
    }
    report.tally.audit.context("the audit")?;
    if progress {
        let a_second = read.over(began.elapsed(rt)?);
        let lines = written.lines;
        eprintln!(host; "{read} read, {lines} lines written; a second: {a_second}")?;
    }
    Ok(())
}

// The reader, the parsers and the writer.
fn stages(host: HostRuntime, asked: Asked) -> Result<Vec<Stage<HostRuntime>>> {
    let alloc = host.alloc();
    let Asked {
        files,
        pattern,
        level,
        output,
        rotate,
        parsers,
        chunks: _,
        progress,
    } = asked;
    let file = match output {
        Some(path) => Some(LogFile::open(&host, path, rotate).context("the output file")?),
        None => None,
    };
    let mut stages = Vec::new(alloc);
    stages.push(Stage::Read(Reading {
        host,
        files,
        parsers,
        progress,
    }))?;
    for _ in 0..parsers {
        let pattern = copied(alloc, &pattern)?;
        stages.push(Stage::Parse(Parsing {
            alloc,
            pattern,
            level,
            parsers,
        }))?;
    }
    stages.push(Stage::Write(Writing {
        alloc,
        output: Output::new(host, alloc, file),
    }))?;
    Ok(stages)
}

fn copied(alloc: Global, text: &Option<String>) -> Result<Option<String>> {
    match text {
        Some(text) => Ok(Some(String::from_str(alloc, text.as_str())?)),
        None => Ok(None),
    }
}
