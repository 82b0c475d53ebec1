//! Lines on their way to the parsers: put into buffers, packed into parcels, and dealt in turn.

use crate::label::{Form, LABEL_BYTES, Label};
use crate::stage::FIRST_PARSER;
use anyhow::{Context, Result, bail};
use fustrevol::{Burst, Bytes, Edges, Heap, PoolError};
use std::sync::Wait;
use std::time::Clock;
use syslog_lines::Mark;

/// How many lines a parcel has at most.
const PARCEL_LINES: usize = 64;

/// The sizes of buffers. Only these are used, so that each has as many slots as a parcel takes from the start on.
const SIZES: [usize; 4] = [256, 384, 512, 1_024];

/// How many bytes an object is expected to have beyond those of its line.
const OBJECT_ROOM: usize = 160;

/// Who deals lines to parsers.
#[derive(Drop)]
pub struct Dealer<H: Heap> {
    parcel: Option<H::Parcel>,
    parsers: usize,
    turn: usize,
    ends_line: bool,
}

impl<H: Heap> Dealer<H> {
    /// A dealer to so many parsers. It takes as many slots of each size as a parcel has lines, and gives them back:
    /// they stay with this allocator. So a parcel can always be filled, whatever the others hold.
    pub fn new<R: Wait + Clock>(rt: &R, heap: &mut H, parsers: usize) -> Result<Dealer<H>> {
        for size in SIZES {
            heap.reserve(rt, size, PARCEL_LINES)
                .context("taking the first buffers")?;
        }
        Ok(Dealer {
            parcel: None,
            parsers,
            turn: 0,
            ends_line: true,
        })
    }

    /// Puts a piece into a buffer, and hands over the parcel once it is full.
    pub fn put<R: Wait + Clock>(
        &mut self,
        rt: &R,
        heap: &mut H,
        to: &Edges<H>,
        mark: Mark,
        piece: &[u8],
    ) -> Result<()> {
        let buffer = labelled(rt, heap, mark, piece)?;
        let mut parcel = match self.parcel.take() {
            Some(parcel) => parcel,
            None => heap.parcel(PARCEL_LINES)?,
        };
        if parcel.push(buffer).is_err() {
            bail!("a parcel without room");
        }
        self.ends_line = mark.is_last;
        let is_full = parcel.len() >= PARCEL_LINES;
        self.parcel = Some(parcel);
        if is_full {
            self.hand_over(rt, heap, to)
        } else {
            Ok(())
        }
    }

    /// Hands over what there is. The pieces of a line all go to one parser.
    pub fn hand_over<R: Wait + Clock>(
        &mut self,
        rt: &R,
        heap: &mut H,
        to: &Edges<H>,
    ) -> Result<()> {
        let Some(parcel) = self.parcel.take() else {
            return Ok(());
        };
        if let Err(message) = to.send_parcel(
            rt,
            heap,
            FIRST_PARSER.saturating_add(self.turn),
            parcel,
        ) {
            message.free(rt, heap);
            bail!("a parser has ended");
        }
        if self.ends_line {
            let next = self.turn.saturating_add(1);
            self.turn = if next < self.parsers { next } else { 0 };
        }
        Ok(())
    }
}

// A buffer with a piece of a line, and room for its object. All its bytes count as filled: the label says how many
// do.
fn labelled<H: Heap, R: Wait + Clock>(
    rt: &R,
    heap: &mut H,
    mark: Mark,
    piece: &[u8],
) -> Result<H::Buffer, PoolError> {
    let mut buffer = heap.alloc_waiting(rt, size_for(piece.len()))?;
    let label = Label {
        mark,
        form: Form::Piece,
        len: u16::try_from(piece.len()).unwrap_or(0),
    };
    buffer.edit(|bytes| label.write(piece, bytes));
    let capacity = buffer.capacity();
    buffer.set_len(capacity);
    Ok(buffer)
}

// The size of buffer for a piece: with room for its object, or at least for itself.
fn size_for(piece: usize) -> usize {
    let wanted = piece.saturating_add(LABEL_BYTES + OBJECT_ROOM);
    for size in SIZES {
        if wanted <= size {
            return size;
        }
    }
    1_024
}
