//! A packet pipeline: the first thread fills buffers, the second one looks at them, the third one looks again and frees
//! them. A thousand packets go in parcels, a thousand one by one. Each edge holds eight messages. Two packets are spoiled
//! on purpose, for the other stages to find.
#![tactic(auto)]

use anyhow::Context;
use fustrevol::{Burst, Bytes, CHUNK, Data, Edges, Heap, Message, Pool, PoolError, Task};
use std::sync::Wait;
use std::time::Clock;

#[derive(Drop)]
enum Stage {
    Fill,
    Look,
    Check,
}

/// A stage answers with how many packets it saw, and how many of them were whole.
impl Task for Stage {
    type Answer = Result<(u32, u32), PoolError>;

    fn sends_to(&self, task: usize) -> bool {
        matches!((self, task), (Stage::Fill, 1) | (Stage::Look, 2))
    }

    fn bound(&self, _task: usize) -> usize {
        8
    }

    fn run<H: Heap, R: Wait + Clock>(self, rt: &R, heap: &mut H, edges: Edges<H>) -> Self::Answer {
        match self {
            Stage::Fill => fill(rt, heap, &edges),
            Stage::Look => Ok(look(rt, heap, &edges, Some(2))),
            Stage::Check => Ok(look(rt, heap, &edges, None)),
        }
    }
}

// How many bytes the packet of this number has, all of them the number's byte.
fn length_of(number: u32) -> usize {
    1 + (number % 1_009) as usize % 512
}

fn byte_of(number: u32) -> u8 {
    (number % 251) as u8
}

// A buffer with the packet of this number. Where the pool is used up it waits until a slot comes home. Each
// thousandth packet is spoiled.
fn packet<H: Heap, R: Wait + Clock>(rt: &R, heap: &mut H, n: u32) -> Result<H::Buffer, PoolError> {
    let mut buffer = heap.alloc_waiting(rt, length_of(n))?;
    buffer.fill(if n % 1_000 == 999 { 255 } else { byte_of(n) });
    buffer.truncate(length_of(n));
    Ok(buffer)
}

// Puts 25 packets into a parcel, of this number and those behind it.
fn pack<H: Heap, R: Wait + Clock>(
    rt: &R,
    heap: &mut H,
    parcel: &mut H::Parcel,
    first: u32,
) -> Result<(), PoolError> {
    for n in 0..25 {
        let _full = parcel.push(packet(rt, heap, first.wrapping_add(n))?);
    }
    Ok(())
}

fn fill<H: Heap, R: Wait + Clock>(
    rt: &R,
    heap: &mut H,
    edges: &Edges<H>,
) -> <Stage as Task>::Answer {
    for burst in 0..40 {
        let mut parcel = heap.parcel(25)?;
        let packed = pack(rt, heap, &mut parcel, 25 * burst);
        edges.send_or_free(rt, heap, 1, Message::Parcel(parcel)); // a `?` before would lose it
        packed?;
    }
    for n in 1_000..2_000 {
        let buffer = packet(rt, heap, n)?;
        edges.send_or_free(rt, heap, 1, Message::Buffer(buffer));
    }
    Ok((2_000, 1_998))
}

// Counts the next packet, and whether it has the length and the bytes of its number.
fn see(seen: &mut (u32, u32), data: &[u8]) {
    let byte = byte_of(seen.0);
    let whole = data.len() == length_of(seen.0) && data.iter().all(|b| *b == byte);
    seen.0 = seen.0.wrapping_add(1);
    seen.1 = seen.1.wrapping_add(u32::from(whole));
}

// Looks at each packet, and hands it on or frees it.
fn look<H: Heap, R: Wait>(
    rt: &R,
    heap: &mut H,
    edges: &Edges<H>,
    next: Option<usize>,
) -> (u32, u32) {
    let mut seen = (0, 0);
    for _ in rt.forever() {
        let Some(message) = edges.receive(rt, heap) else {
            break;
        };
        match &message {
            Message::Buffer(buffer) => see(&mut seen, buffer.data()),
            Message::Parcel(parcel) => {
                for buffer in parcel.buffers() {
                    see(&mut seen, buffer.data());
                }
            }
        }
        match next {
            None => message.free(rt, heap),
            Some(next) => {
                edges.send_or_free(rt, heap, next, message);
            }
        }
    }
    seen
}

fn main(rt: HostRuntime) -> anyhow::Result<()> {
    let mut region = vec![in rt.alloc(); 0u8; 64 * CHUNK]?;
    let stages = vec![in rt.alloc(); Stage::Fill, Stage::Look, Stage::Check]?;
    let report = Pool::new(rt.alloc(), &mut region)?.run(&rt, stages)?;
    for answer in report.answers {
        let (packets, whole) = answer.context("a stage without a desk")??;
        println!(rt; "{packets} packets, {whole} whole")?;
    }
    println!(rt; "{:?}", report.tally)?;
    report.tally.audit.context("the audit")
}
