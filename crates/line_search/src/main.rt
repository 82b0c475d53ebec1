//! Prints the lines of standard input that contain a word, each with its number, as `grep -n` does:
//!
//!     line_search WORD < FILE
//!
//! The first task reads lines into buffers, the second one looks for the word, and the third one prints.
#![tactic(auto)]

use anyhow::{Context, Result};
use fustrevol::{Bytes, CHUNK, Edges, Heap, Message, Pool, Task};
use std::alloc::Global;
use std::env;
use std::io::{self, BufRead, BufReader, BufWriter, Read, Write};
use std::sync::Wait;
use std::time::Clock;

// The line's number stands in front of it, in so many bytes.
const NUMBER: usize = 8;

/// What a task does, and by what it reads or prints.
#[derive(Drop)]
enum Job<I: Read + Drop, P: Print + Drop> {
    Read { alloc: Global, input: I },
    Search { word: String },
    Print { alloc: Global, host: P },
}

/// A job answers with how many lines it handled.
impl<I: Read + Drop, P: Print + Drop> Task for Job<I, P> {
    type Answer = Result<u64>;

    fn sends_to(&self, task: usize) -> bool {
        matches!(
            (self, task),
            (Job::Read { .. }, 1) | (Job::Search { .. }, 2)
        )
    }

    fn run<H: Heap, R: Wait + Clock>(self, rt: &R, heap: &mut H, edges: Edges<H>) -> Self::Answer {
        match self {
            Job::Read { alloc, input } => read_all(rt, heap, &edges, alloc, input),
            Job::Search { word } => Ok(search_all(rt, heap, &edges, word.as_bytes())),
            Job::Print { alloc, host } => {
                let printed = print_all(rt, heap, &edges, alloc, &host);
                let _messages = edges.free_rest(rt, heap); // none, unless printing failed
                printed
            }
        }
    }
}

// Each line goes into a buffer of the largest size, and what doesn't fit is cut off. Sizes that vary would take
// chunks of more classes.
fn read_all<H: Heap, R: Wait + Clock, I: Read + Drop>(
    rt: &R,
    heap: &mut H,
    edges: &Edges<H>,
    alloc: Global,
    input: I,
) -> Result<u64> {
    let mut input = BufReader::new(alloc, input)?;
    let mut line = Vec::new(alloc);
    let size = heap.largest_size();
    let mut lines = 0u64;
    for _ in rt.forever() {
        line.clear();
        if input.read_until(b'\n', &mut line)? == 0 {
            break;
        }
        lines = lines.wrapping_add(1);
        let text = line.strip_suffix(b"\n").unwrap_or(&line);
        let kept = text.get(..size.saturating_sub(NUMBER)).unwrap_or(text);
        let mut buffer = heap.alloc_waiting(rt, size)?;
        let _fits = buffer.extend_from_slice(&lines.to_le_bytes());
        let _fits = buffer.extend_from_slice(kept);
        edges.send_or_free(rt, heap, 1, Message::Buffer(buffer));
    }
    Ok(lines)
}

fn contains(text: &[u8], word: &[u8]) -> bool {
    word.is_empty() || text.windows(word.len()).any(|part| part == word)
}

// Hands on each line that contains the word, and frees the others.
fn search_all<H: Heap, R: Wait>(rt: &R, heap: &mut H, edges: &Edges<H>, word: &[u8]) -> u64 {
    let mut found = 0u64;
    for _ in rt.forever() {
        let Some(message) = edges.receive(rt, heap) else {
            break;
        };
        match &message {
            Message::Buffer(line) if contains(line.data().get(NUMBER..).unwrap_or(&[]), word) => {
                found = found.wrapping_add(1);
                edges.send_or_free(rt, heap, 2, message);
            }
            _ => message.free(rt, heap),
        }
    }
    found
}

fn print_all<H: Heap, R: Wait, P: Print>(
    rt: &R,
    heap: &mut H,
    edges: &Edges<H>,
    alloc: Global,
    host: &P,
) -> Result<u64> {
    let mut out = BufWriter::new(alloc, io::writer(host))?;
    let mut lines = 0u64;
    for _ in rt.forever() {
        let Some(message) = edges.receive(rt, heap) else {
            break;
        };
        // A `?` before the buffer is freed would lose it.
        let printed = match &message {
            Message::Buffer(line) => print(&mut out, line.data()),
            Message::Parcel(_) => Ok(()),
        };
        message.free(rt, heap);
        printed?;
        lines = lines.wrapping_add(1);
    }
    out.flush()?;
    Ok(lines)
}

fn print<W: Write>(out: &mut W, line: &[u8]) -> io::Result<()> {
    if let Some((number, text)) = line.split_first_chunk::<NUMBER>() {
        write!(out, "{}:", u64::from_le_bytes(*number))?;
        out.write_all(text)?;
        out.write_all(b"\n")?;
    }
    Ok(())
}

fn main(rt: HostRuntime) -> Result<()> {
    let alloc = rt.alloc();
    let word = env::args(&rt)?.nth(1).context("line_search WORD")?;
    let mut region = vec![in alloc; 0u8; 64 * CHUNK]?;
    let input = rt.stdin();
    let jobs = vec![in alloc;
        Job::Read { alloc, input },
        Job::Search { word },
        Job::Print { alloc, host: rt },
    ]?;
    let report = Pool::new(alloc, &mut region)?.run(&rt, jobs)?;
    report.tally.audit.context("the audit")?;
    for answer in report.answers {
        let _lines = answer.context("a task that wasn't begun")??;
    }
    Ok(())
}
