//! Standard input and standard output, each behind a buffer.
ghost use Rattle.std.specs.Prelude.{◌≡◌, ◌⊎◌};

use crate::{Outcome, command};
use std::alloc::Global;
use std::env;
use std::io::{self, BufReader, BufWriter, ErrorKind, Write};
use std::rt::Env;
use std::sync::Wait;
use std::thread::Threads;
use std::time::Clock;
use trace_audit::{FromReader, ToWriter};

/// Runs what the program's words ask for over standard input and standard output.
pub fn run<R: Input + Print + Env + AllocGlobal + Threads + Wait + Clock + Sync>(
    rt: &R,
) -> Outcome {
    match try_run(rt) {
        Ok(outcome) => outcome,
        Err(error) if error.kind() == ErrorKind::OutOfMemory => Outcome::NoMemory,
        Err(_) => refused(rt.alloc(), "poolctl: a word is not UTF-8\n"),
    }
}

fn try_run<R: Input + Print + Env + AllocGlobal + Threads + Wait + Clock + Sync>(
    rt: &R,
) -> io::Result<Outcome> {
    let alloc = rt.alloc();
    let words = env::args(rt)?.collect::<Vec<String>>(alloc)?;
    let mut source = FromReader::new(BufReader::new(alloc, rt.reader())?);
    let mut sink = ToWriter::new(BufWriter::new(alloc, io::writer(rt))?);
    let outcome = command(rt, alloc, words.as_slice(), &mut source, &mut sink);
    Ok(settled(outcome, sink.into_inner()))
}

fn refused(alloc: Global, text: &str) -> Outcome {
    match String::from_str(alloc, text) {
        Ok(text) => Outcome::Refused(text),
        Err(_) => Outcome::NoMemory,
    }
}

/// Writes what the writer still holds back, unless a write failed before: then nothing more is
/// written, and what is held back is let go.
pub fn settled<W: Write + Drop>(outcome: Outcome, writer: BufWriter<W>) -> Outcome
    ensures { (result ≡ outcome) ⊎ (result ≡ Outcome.WriteFailed) }
{
    if outcome == Outcome::WriteFailed {
        let _unwritten = writer.into_parts();
        return outcome;
    }
    match writer.into_inner() {
        Ok(_) => outcome,
        Err(error) => {
            let (_, writer) = error.into_parts();
            let _unwritten = writer.into_parts();
            Outcome::WriteFailed
        }
    }
}
