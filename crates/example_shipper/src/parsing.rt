//! The middle stages: each decides which lines are kept, and writes their objects in place of them.

use crate::counts::Counts;
use crate::label::{Form, LABEL_BYTES, Label};
use anyhow::{Context, Result};
use fustrevol::{Burst, Edges, Heap, Message};
use regex::bytes::{Matcher, Regex};
use std::alloc::{AllocError, Global};
use std::sync::Wait;
use syslog_lines::{Priority, Severity, push_object};

/// What is kept, and who writes it.
#[derive(Drop)]
pub struct Parsing {
    pub alloc: Global,
    pub pattern: Option<String>,
    pub level: Option<Severity>,
    pub parsers: usize,
}

// What a parser carries from line to line.
#[derive(Drop)]
struct Parser<'r> {
    matcher: Option<Matcher<'r>>,
    level: Option<Severity>,
    // Had no memory to compile the pattern: nothing is kept, and all goes on, so that the writer waits for nothing.
    is_broken: bool,
    keeps: bool,
    object: Vec<u8>,
    kept: Counts,
}

impl Parsing {
    /// The number of the task that writes.
    pub fn writer(&self) -> usize {
        self.parsers.saturating_add(1)
    }

    /// Parses what comes until the reader has ended.
    pub fn run<H: Heap, R: Wait>(self, rt: &R, heap: &mut H, to: &Edges<H>) -> Result<Counts> {
        let (pattern, fault) = match compiled(self.alloc, &self.pattern) {
            Ok(pattern) => (pattern, None),
            Err(error) => (None, Some(error)),
        };
        let (matcher, fault) = match matcher_of(self.alloc, &pattern) {
            Ok(matcher) => (matcher, fault),
            Err(error) => (None, Some(error.into())),
        };
        let mut parser = Parser {
            matcher,
            level: self.level,
            is_broken: fault.is_some(),
            keeps: false,
            object: Vec::new(self.alloc),
            kept: Counts::NONE,
        };
        for _ in rt.forever() {
            let Some(message) = to.receive(rt, heap) else {
                break;
            };
            let message = match message {
                Message::Parcel(parcel) => Message::Parcel(parser.parse(parcel)),
                message => message,
            };
            to.send_or_free(rt, heap, self.writer(), message);
        }
        match fault {
            None => Ok(parser.kept),
            Some(fault) => Err(fault),
        }
    }
}

/// The pattern, compiled. A parser compiles its own, since it is cheap to hand over as text.
pub fn compiled(alloc: Global, pattern: &Option<String>) -> Result<Option<Regex>> {
    match pattern {
        Some(pattern) => Ok(Some(Regex::new(alloc, pattern.as_str()).context("--match")?)),
        None => Ok(None),
    }
}

fn matcher_of(alloc: Global, pattern: &Option<Regex>) -> Result<Option<Matcher<'_>>, AllocError> {
    match pattern {
        Some(pattern) => Ok(Some(pattern.matcher(alloc)?)),
        None => Ok(None),
    }
}

impl Parser<'_> {
    // Parses each line of a parcel.
    fn parse<P, B>(&mut self, parcel: P) -> P
    where
        P: Burst<B>,
        B: fustrevol::Bytes,
    {
        let mut parcel = parcel;
        for at in 0..parcel.len() {
            parcel.edit_at(at, |bytes| self.edit(bytes));
        }
        parcel
    }

    // Writes the object of a piece in place of it. The piece stays where its object doesn't fit, or where there is no
    // memory to make it: the writer makes it then.
    fn edit(&mut self, bytes: &mut [u8]) {
        let Some((label, piece)) = Label::read(bytes) else {
            return;
        };
        if label.mark.piece == 0 {
            self.keeps = self.is_wanted(piece);
        }
        if !self.keeps {
            Label {
                form: Form::LeftOut,
                len: 0,
                ..label
            }
            .write(&[], bytes);
            return;
        }
        self.kept.add(piece.len(), label.mark.is_last);
        self.object.clear();
        if push_object(&mut self.object, label.mark, piece).is_ok()
            && self.object.len() + LABEL_BYTES <= bytes.len()
            && let Ok(len) = u16::try_from(self.object.len())
        {
            Label {
                form: Form::Object,
                len,
                ..label
            }
            .write(&self.object, bytes);
        }
    }

    // Whether the line of this first piece is kept.
    fn is_wanted(&mut self, piece: &[u8]) -> bool {
        if self.is_broken {
            return false;
        }
        if let Some(level) = self.level {
            match Priority::read(piece) {
                Some((priority, _)) if priority.severity() <= level => {}
                _ => return false,
            }
        }
        match &mut self.matcher {
            Some(matcher) => matcher.is_match(piece),
            None => true,
        }
    }
}
