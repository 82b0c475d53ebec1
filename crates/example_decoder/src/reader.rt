//! The thread that reads a capture, and deals its packets to the decoders.
ghost use Rattle.std.specs.Prelude.{◌≤◌, IfOk};

use crate::bundle::Bundle;
use crate::capture::{Capture, Cause, Stop};
use crate::note::NOTE;
use crate::stages::ReadEnd;
use fustrevol::{Bytes, Edges, Heap, Message, PoolError};
use std::io::Read;
use std::sync::Wait;
use std::time::Clock;

/// The reader of a capture.
#[derive(Drop)]
pub struct Reader<I: Read + Drop> {
    capture: Capture<I>,
    /// The decoders have the numbers from 1 on.
    decoders: usize,
    /// How many bytes of a packet are kept at most.
    most: usize,
    /// Who gets the next bundle.
    next: usize,
    /// How many packets were read.
    packets: u64,
}

// No two size classes are nearer than this, and none is larger than so many times it.
const STEP: usize = 16;

const MOST_STEPS: usize = 64;

impl<I: Read + Drop> Reader<I> {
    /// A reader that keeps at most so many bytes of each packet, and deals to so many decoders.
    pub fn new(capture: Capture<I>, decoders: usize, most: usize) -> Reader<I> {
        Reader {
            capture,
            decoders,
            most,
            next: 1,
            packets: 0,
        }
    }

    /// Whether it hands packets to the task of this number.
    pub fn deals_to(&self, task: usize) -> bool {
        1 <= task && task <= self.decoders
    }

    /// Reads all packets and deals them. What was read before something went wrong is dealt too.
    pub fn run<H: Heap, R: Wait + Clock>(self, rt: &R, heap: &mut H, to: &Edges<H>) -> ReadEnd {
        let mut reader = self;
        let mut held = None;
        let stop = reader.read_all(rt, heap, to, &mut held).err();
        reader.deal(rt, heap, to, held);
        ReadEnd {
            packets: reader.packets,
            stop,
        }
    }

    fn read_all<H: Heap, R: Wait + Clock>(
        &mut self,
        rt: &R,
        heap: &mut H,
        to: &Edges<H>,
        held: &mut Option<Bundle<H>>,
    ) -> Result<(), Stop> {
        if let Err(error) = draw_chunks(rt, heap, self.most) {
            return Err(self.capture.stop(Cause::Pool(error)));
        }
        for _ in 0..u64::MAX {
            if !self.read_one(rt, heap, to, held)? {
                break;
            }
        }
        Ok(())
    }

    // Reads a packet into the bundle that is held. False at the end of the capture.
    fn read_one<H: Heap, R: Wait + Clock>(
        &mut self,
        rt: &R,
        heap: &mut H,
        to: &Edges<H>,
        held: &mut Option<Bundle<H>>,
    ) -> Result<bool, Stop> {
        let Some(record) = self.capture.next_record()? else {
            return Ok(false);
        };
        let size = (record.captured as usize).min(self.most).max(NOTE);
        let mut packet = match self.buffer_for(rt, heap, to, held, size) {
            Ok(packet) => packet,
            Err(error) => return Err(self.capture.stop(Cause::Pool(error))),
        };
        packet.set_len(size);
        let read = packet.edit(|bytes| self.capture.read_packet(&record, bytes));
        if let Err(stop) = read {
            heap.free(rt, packet);
            return Err(stop);
        }
        self.packets = self.packets.saturating_add(1);
        if let Some(bundle) = held
            && let Err(packet) = bundle.push(packet, &record)
        {
            heap.free(rt, packet);
        }
        Ok(true)
    }

    // A buffer for a packet, and a bundle with room for it. Where the pool is used up, what is held is dealt
    // before this waits: its buffers may be those that are to come home.
    fn buffer_for<H: Heap, R: Wait + Clock>(
        &mut self,
        rt: &R,
        heap: &mut H,
        to: &Edges<H>,
        held: &mut Option<Bundle<H>>,
        size: usize,
    ) -> Result<H::Buffer, PoolError>
        ensures { IfOk result (λ b. size ≤ H.Buffer.size b) }
    {
        if held.as_ref().is_none_or(Bundle::is_full) {
            self.deal(rt, heap, to, held.take());
            *held = Some(Bundle::new(rt, heap)?);
        }
        match heap.alloc(rt, size) {
            Err(PoolError::UsedUp) => {
                self.deal(rt, heap, to, held.take());
                *held = Some(Bundle::new(rt, heap)?);
                heap.alloc_waiting(rt, size)
            }
            given => given,
        }
    }

    // Hands a bundle to the next decoder.
    fn deal<H: Heap, R: Wait>(
        &mut self,
        rt: &R,
        heap: &mut H,
        to: &Edges<H>,
        held: Option<Bundle<H>>,
    ) {
        let Some(bundle) = held else {
            return;
        };
        if bundle.is_empty() {
            return bundle.free(rt, heap);
        }
        match bundle.close() {
            Ok(parcel) => {
                to.send_or_free(rt, heap, self.next, Message::Parcel(parcel));
            }
            Err(bundle) => bundle.free(rt, heap),
        }
        self.next = if self.next < self.decoders {
            self.next + 1
        } else {
            1
        };
    }
}

// Draws a chunk for each size class that a packet may need, so that none is left without one where the others have
// drawn all.
fn draw_chunks<H: Heap, R: Wait>(rt: &R, heap: &mut H, most: usize) -> Result<(), PoolError> {
    for number in 1..=MOST_STEPS {
        let buffer = heap.alloc(rt, (STEP * number).max(NOTE).min(most))?;
        heap.free(rt, buffer);
    }
    Ok(())
}
