//! What the threads do: one reads, some decode, one counts.

use crate::bundle::{Entry, MOST_PACKETS, entry_of};
use crate::capture::Stop;
use crate::counts::Counts;
use crate::note::Note;
use crate::reader::Reader;
use fustrevol::{Burst, Bytes, Data, Edges, Heap, Message, Task};
use packet_headers::{Layer, LinkType, decode};
use std::alloc::AllocError;
use std::io::Read;
use std::sync::Wait;
use std::time::Clock;

/// How many bundles may wait for a decoder, and for each decoder at the counter.
const BOUND: usize = 4;

/// The thread that reads has the number 0, the decoders have the numbers behind it, and the counter the last.
#[derive(Drop)]
pub enum Stage<I: Read + Drop> {
    Read(Reader<I>),
    Decode { link: LinkType, counter: usize },
    Count(Counts),
}

/// What a thread found.
#[derive(Drop)]
pub enum Answer {
    Read(ReadEnd),
    Decoded,
    Counted(Result<Counts, AllocError>),
}

/// How reading ended: how many packets were read, and why there were no more, if it was before the end.
#[derive(Drop)]
pub struct ReadEnd {
    pub packets: u64,
    pub stop: Option<Stop>,
}

impl<I: Read + Drop> Task for Stage<I> {
    type Answer = Answer;

    fn sends_to(&self, task: usize) -> bool {
        match self {
            Stage::Read(reader) => reader.deals_to(task),
            Stage::Decode { counter, .. } => task == *counter,
            Stage::Count(_) => false,
        }
    }

    fn bound(&self, _task: usize) -> usize {
        BOUND
    }

    fn run<H: Heap, R: Wait + Clock>(self, rt: &R, heap: &mut H, to: Edges<H>) -> Answer {
        match self {
            Stage::Read(reader) => Answer::Read(reader.run(rt, heap, &to)),
            Stage::Decode { link, counter } => {
                decode_all(rt, heap, &to, link, counter);
                Answer::Decoded
            }
            Stage::Count(counts) => Answer::Counted(count_all(rt, heap, &to, counts)),
        }
    }
}

// Decodes each packet that comes, and hands on what is known of it.
fn decode_all<H: Heap, R: Wait>(
    rt: &R,
    heap: &mut H,
    to: &Edges<H>,
    link: LinkType,
    counter: usize,
) {
    for _ in rt.forever() {
        let Some(message) = to.receive(rt, heap) else {
            break;
        };
        let message = match message {
            Message::Parcel(parcel) => Message::Parcel(decode_bundle(link, parcel)),
            Message::Buffer(buffer) => Message::Buffer(buffer),
        };
        to.send_or_free(rt, heap, counter, message);
    }
}

// A bundle whose packets are decoded: a note stands in place of each.
fn decode_bundle<B: Bytes, P: Burst<B>>(link: LinkType, parcel: P) -> P {
    let mut parcel = parcel;
    for place in 0..MOST_PACKETS {
        if place + 1 >= parcel.len() {
            break;
        }
        if let Some(entry) = entry_of(&parcel, place) {
            parcel.edit_at(place, |bytes| decode_in_place(link, &entry, bytes));
        }
    }
    parcel
}

// Decodes the packet in this buffer, and writes a note over it.
fn decode_in_place(link: LinkType, entry: &Entry, bytes: &mut [u8]) {
    let kept = (entry.captured as usize).min(bytes.len());
    let size = (entry.size as usize).max(kept);
    let decoded = decode(link, Layer::new(&bytes[..kept], size));
    let note = Note {
        kept: u16::try_from(kept).unwrap_or(u16::MAX),
        decoded,
    };
    note.write(bytes);
}

// Counts what the notes of each bundle say, and frees it. Where memory runs out the rest is freed alone.
fn count_all<H: Heap, R: Wait>(
    rt: &R,
    heap: &mut H,
    to: &Edges<H>,
    counts: Counts,
) -> Result<Counts, AllocError> {
    let mut counts = counts;
    let mut refused = None;
    for _ in rt.forever() {
        let Some(message) = to.receive(rt, heap) else {
            break;
        };
        if refused.is_none()
            && let Message::Parcel(parcel) = &message
        {
            refused = count_bundle(&mut counts, parcel).err();
        }
        message.free(rt, heap);
    }
    match refused {
        Some(error) => Err(error),
        None => Ok(counts),
    }
}

// Counts the packets of a bundle.
fn count_bundle<B: Bytes, P: Burst<B>>(counts: &mut Counts, parcel: &P) -> Result<(), AllocError> {
    for place in 0..MOST_PACKETS {
        if place + 1 >= parcel.len() {
            break;
        }
        let note = parcel
            .buffers()
            .get(place)
            .and_then(|packet| Note::read(packet.data()));
        if let (Some(entry), Some(note)) = (entry_of(parcel, place), note) {
            counts.add(&entry, &note)?;
        }
    }
    Ok(())
}
