//! The first stage: reads the inputs and deals their lines.

use crate::block::Block;
use crate::counts::Counts;
use crate::dealer::Dealer;
use anyhow::{Context, Result};
use fustrevol::{Edges, Heap};
use std::fs;
use std::io::{ErrorKind, Read};
use std::rt::Files;
use std::sync::Wait;
use std::time::{Clock, Duration, Instant};
use syslog_lines::Mark;

/// What is read, and for whom.
#[derive(Drop)]
pub struct Reading<P: Files + Drop> {
    pub host: P,
    pub files: Vec<String>,
    pub parsers: usize,
    pub progress: bool,
}

// How the reading of an input goes on.
#[derive(Clone, Copy, PartialEq, Eq)]
enum Next {
    GoOn,
    Stop,
}

// What the reader carries from line to line.
#[derive(Drop)]
struct Reader<'p, P: Eprint, H: Heap> {
    host: &'p P,
    dealer: Dealer<H>,
    block: Block,
    mark: Mark,
    counts: Counts,
    progress: Option<Progress>,
}

impl<P: Files + Input + Eprint + AllocGlobal + Drop> Reading<P> {
    /// Whether the task of this number parses.
    pub fn is_parser(&self, task: usize) -> bool {
        1 <= task && task <= self.parsers
    }

    /// Reads all inputs, or until it is stopped. Where one can't be read the rest isn't, and all that was read
    /// before is on its way.
    pub fn run<H: Heap, R: Wait + Clock>(
        self,
        rt: &R,
        heap: &mut H,
        to: &Edges<H>,
    ) -> Result<Counts> {
        let mut reader = Reader {
            host: &self.host,
            dealer: Dealer::new(rt, heap, self.parsers)?,
            block: Block::new(self.host.alloc())?,
            mark: Mark {
                line: 1,
                piece: 0,
                is_last: true,
            },
            counts: Counts::NONE,
            progress: None,
        };
        if self.progress {
            reader.progress = Some(Progress::new(rt)?);
        }
        if self.files.is_empty() {
            let _next = reader.read_standard(rt, heap, to)?;
        }
        for name in &self.files {
            let next = if name.as_str() == "-" {
                reader.read_standard(rt, heap, to)?
            } else {
                reader.read_file(rt, heap, to, name.as_str())?
            };
            if next == Next::Stop {
                break;
            }
        }
        Ok(reader.counts)
    }
}

impl<P: Files + Input + Eprint, H: Heap> Reader<'_, P, H> {
    fn read_standard<R: Wait + Clock>(
        &mut self,
        rt: &R,
        heap: &mut H,
        to: &Edges<H>,
    ) -> Result<Next> {
        let mut input = self.host.reader();
        self.read_input(rt, heap, to, &mut input, "standard input")
    }

    fn read_file<R: Wait + Clock>(
        &mut self,
        rt: &R,
        heap: &mut H,
        to: &Edges<H>,
        name: &str,
    ) -> Result<Next> {
        let mut input = fs::open(self.host, name).context(format_args!("{name}"))?;
        self.read_input(rt, heap, to, &mut input, name)
    }

    // Deals all lines of an input. A parcel that isn't full is handed over before a read, which may wait.
    fn read_input<R: Wait + Clock, I: Read>(
        &mut self,
        rt: &R,
        heap: &mut H,
        to: &Edges<H>,
        input: &mut I,
        name: &str,
    ) -> Result<Next> {
        self.block.begin();
        for _ in rt.forever() {
            let read = self.block.read_from(input);
            if let Err(error) = &read {
                if error.kind() == ErrorKind::Interrupted {
                    continue;
                }
                self.block.end();
            }
            self.deal(rt, heap, to)?;
            read.context(format_args!("{name}"))?;
            self.tell(rt);
            if let Some(message) = to.try_receive(rt) {
                message.free(rt, heap);
                return Ok(Next::Stop);
            }
            if self.block.is_last() {
                break;
            }
        }
        Ok(Next::GoOn)
    }

    // Deals all pieces that are there.
    fn deal<R: Wait + Clock>(&mut self, rt: &R, heap: &mut H, to: &Edges<H>) -> Result<()> {
        for _ in 0..u64::MAX {
            let Some((piece, bytes)) = self.block.next_piece() else {
                break;
            };
            self.mark.is_last = piece.is_last();
            self.counts.add(piece.bytes(), piece.is_last());
            self.dealer.put(rt, heap, to, self.mark, bytes)?;
            self.mark = self.mark.next();
        }
        self.dealer.hand_over(rt, heap, to)
    }

    // Says how far it is, once a second. That the clock or standard error fails is no matter.
    fn tell<R: Clock>(&mut self, rt: &R) {
        if let Some(progress) = &mut self.progress
            && let Some(time) = progress.due(rt)
        {
            let a_second = self.counts.over(time);
            let counts = self.counts;
            let _told = eprintln!(self.host; "{counts} read; a second: {a_second}");
        }
    }
}

// When it was last said how far the reader is.
#[derive(Drop)]
struct Progress {
    began: Instant,
    told: Duration,
}

impl Progress {
    fn new<R: Clock>(rt: &R) -> Result<Progress> {
        Ok(Progress {
            began: Instant::now(rt)?,
            told: Duration::from_secs(0),
        })
    }

    // How long it has run, where a second has gone by since it was last said.
    fn due<R: Clock>(&mut self, rt: &R) -> Option<Duration> {
        let time = self.began.elapsed(rt).ok()?;
        if time.saturating_sub(self.told) < Duration::from_secs(1) {
            return None;
        }
        self.told = time;
        Some(time)
    }
}
