//! The last stage: puts parcels back into the order of the input, and writes what is kept.
ghost use Rattle.std.specs.Prelude.{◌<◌, length, IfSome};

use crate::counts::Counts;
use crate::drain::drain;
use crate::label::{Form, Label};
use crate::output::Output;
use anyhow::{Result, anyhow};
use fustrevol::{Burst, Data, Edges, Heap, Message};
use std::alloc::Global;
use std::io;
use std::rt::Files;
use std::sync::Wait;
use syslog_lines::{Mark, push_object};

/// Where the objects go.
#[derive(Drop)]
pub struct Writing<P: Files + Drop> {
    pub alloc: Global,
    pub output: Output<P>,
}

// What the writer carries from parcel to parcel.
#[derive(Drop)]
struct Writer<P: Files + Drop, H: Heap> {
    output: Output<P>,
    // Parcels whose turn hasn't come.
    early: Vec<H::Parcel>,
    next: Mark,
    object: Vec<u8>,
    counts: Counts,
}

impl<P: Files + Print + Drop> Writing<P> {
    /// Writes what comes until all parsers have ended. Where a write fails it stops the reader, and says which line
    /// was the last one written.
    pub fn run<H: Heap, R: Wait>(self, rt: &R, heap: &mut H, to: &Edges<H>) -> Result<Counts> {
        let stop = heap.parcel(1)?;
        let mut writer: Writer<P, H> = Writer {
            output: self.output,
            early: Vec::new(self.alloc),
            next: Mark {
                line: 1,
                piece: 0,
                is_last: true,
            },
            object: Vec::new(self.alloc),
            counts: Counts::NONE,
        };
        let ended = writer.write_all(rt, heap, to);
        writer.free_early(rt, heap);
        match ended {
            Ok(()) => Ok(writer.counts),
            Err(error) => {
                drain(rt, heap, to, stop);
                Err(fault(&error, writer.output.written()))
            }
        }
    }
}

// What to say of a failed write.
fn fault(error: &io::Error, written: Option<Mark>) -> anyhow::Error {
    match written {
        None => anyhow!("write failed: {error}; no line was written"),
        Some(mark) if mark.is_whole() => {
            let line = mark.line;
            anyhow!("write failed: {error}; the last line written is {line}")
        }
        Some(mark) => {
            let line = mark.line;
            let piece = mark.piece.saturating_add(1);
            anyhow!("write failed: {error}; the last one written is piece {piece} of line {line}")
        }
    }
}

impl<P: Files + Print + Drop, H: Heap> Writer<P, H> {
    // Before it waits for a message, it writes what it has.
    fn write_all<R: Wait>(&mut self, rt: &R, heap: &mut H, to: &Edges<H>) -> io::Result<()> {
        for _ in rt.forever() {
            let message = match to.try_receive(rt) {
                Some(message) => message,
                None => {
                    self.output.flush()?;
                    match to.receive(rt, heap) {
                        Some(message) => message,
                        None => return Ok(()),
                    }
                }
            };
            match message {
                Message::Parcel(parcel) => {
                    self.early.push(parcel)?;
                    self.write_due(rt, heap)?;
                }
                message => message.free(rt, heap),
            }
        }
        Ok(())
    }

    // Writes and frees the parcels whose turn it is.
    fn write_due<R: Wait>(&mut self, rt: &R, heap: &mut H) -> io::Result<()> {
        for _ in 0..u64::MAX {
            let Some(at) = place_of(self.early.as_slice(), self.next) else {
                break;
            };
            let parcel = self.early.swap_remove(at);
            let result = self.write_parcel(&parcel);
            heap.free_all(rt, parcel);
            result?;
        }
        Ok(())
    }

    fn write_parcel(&mut self, parcel: &H::Parcel) -> io::Result<()> {
        for buffer in parcel.buffers() {
            if let Some((label, text)) = Label::read(buffer.data()) {
                self.write_object(label, text)?;
                self.next = label.mark.next();
            }
        }
        Ok(())
    }

    fn write_object(&mut self, label: Label, text: &[u8]) -> io::Result<()> {
        match label.form {
            Form::LeftOut => return Ok(()),
            Form::Object => self.output.add(label.mark, text)?,
            Form::Piece => {
                self.object.clear();
                push_object(&mut self.object, label.mark, text)?;
                self.output.add(label.mark, &self.object)?;
            }
        }
        self.counts.add(text.len(), label.mark.is_last);
        Ok(())
    }

    // Frees the parcels whose turn didn't come.
    fn free_early<R: Wait>(&mut self, rt: &R, heap: &mut H) {
        for _ in 0..u64::MAX {
            let Some(parcel) = self.early.pop() else {
                break;
            };
            heap.free_all(rt, parcel);
        }
    }
}

// Where the parcel is that begins with this piece.
fn place_of<B: fustrevol::Bytes, P: Burst<B>>(parcels: &[P], next: Mark) -> Option<usize>
    ensures { IfSome result (λ at. at < length parcels.now) }
{
    for (at, parcel) in parcels.iter().enumerate() {
        if begins_at(parcel, next) {
            return Some(at);
        }
    }
    None
}

// Whether a parcel begins with this piece.
fn begins_at<B: fustrevol::Bytes, P: Burst<B>>(parcel: &P, next: Mark) -> bool {
    let Some(first) = parcel.buffers().first() else {
        return false;
    };
    match Label::read(first.data()) {
        Some((label, _)) => label.mark.line == next.line && label.mark.piece == next.piece,
        None => false,
    }
}
