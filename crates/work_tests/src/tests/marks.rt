//! Each worker of each round draws from a seed of its own, and marks what it allocates.

ghost use Rattle.std.specs.Prelude.{◌≤◌};

use super::{BOTH, Ground, Inboxes, ended_over};
use crate::Echo;
use pool_jobs::{NoGate, Plan, Workload};
use region_cut::{CHUNK, Class};
use slot_audit::Drawn;
use std::alloc::{AllocError, Global};
use std::sync::Wait;
use std::test::Fail;
use std::thread::Threads;
use std::time::Clock;

const CHUNKS: u16 = 8;

// How many buffers a worker allocates, where it has no row.
const COUNT: u32 = 5;

// No worker has this number.
const UNMARKED: u8 = 255;

// The number of a class, and the first byte of its buffers.
type Mark = (u32, u8);

// The chunks that were drawn, with their classes, the least class first.
fn chunks_of(alloc: Global, drawn: &Drawn) -> Result<Vec<(u16, Class)>, AllocError> {
    let mut chunks = Vec::new(alloc);
    for number in 0..16 {
        for chunk in 0..CHUNKS {
            if let Some(class) = drawn.class_of(chunk) {
                if class.number() == number {
                    chunks.push((chunk, class))?;
                }
            }
        }
    }
    Ok(chunks)
}

// The first byte of the first slots of a chunk, so many, where it is the same in each.
fn mark_in(bytes: &[u8], size: usize, count: u32) -> u8 {
    let mut mark = None;
    for slot in bytes.chunks(size.max(1)).take(count as usize) {
        match (slot.first(), mark) {
            (Some(first), None) => mark = Some(*first),
            (Some(first), Some(other)) if *first == other => {}
            _ => return UNMARKED,
        }
    }
    mark.unwrap_or(UNMARKED)
}

// The classes that were drawn, and what stands in the first slots of their chunks, so many.
fn marks_of(
    alloc: Global,
    region: &[u8],
    chunks: &[(u16, Class)],
    count: u32,
) -> Result<Vec<Mark>, AllocError> {
    let mut marks = Vec::new(alloc);
    for (chunk, class) in chunks {
        let bytes = region.chunks(CHUNK).nth(usize::from(*chunk)).unwrap_or(&[]);
        marks.push((class.number(), mark_in(bytes, class.size(), count)))?;
    }
    Ok(marks)
}

// What a workload of so many desks and rounds leaves in its region, whose first word is the seed.
fn marks_after<R: AllocGlobal + Threads + Wait + Clock + Sync>(
    rt: &R,
    inboxes: Inboxes,
    desks: u16,
    workload: Workload,
    plan: &Plan,
) -> Result<Vec<Mark>, Fail>
    requires { (1 ≤ desks) × (desks ≤ 64) }
{
    let alloc = rt.alloc();
    let ground = Ground {
        chunks: usize::from(CHUNKS),
        desks,
        width: 2,
        limit: 4_096,
        inboxes,
    };
    let mut region = Vec::from_elem(alloc, UNMARKED, usize::from(CHUNKS) * CHUNK)?;
    let ended = ended_over::<Echo, NoGate, R>(rt, &mut region, &NoGate, ground, workload, plan)?;
    let chunks = chunks_of(alloc, &ended.found.drawn)?;
    drop(ended);
    Ok(marks_of(alloc, region.as_slice(), chunks.as_slice(), plan.count)?)
}

fn plan(seed: u32, count: u32, rounds: u32) -> Plan
    requires { (1 ≤ count) × (count ≤ 100000) × (1 ≤ rounds) × (rounds ≤ 1000) }
{
    Plan {
        count,
        rounds,
        seed,
        drop_first: false,
    }
}

// Producers are the workers 0 and 2, whose words are 14 and 16. Nothing else is drawn. Refuses workers
// that all draw the same words, and buffers that nobody marks.
#[test]
fn producers_mark_their_buffers(rt: HostRuntime) -> Result<(), Fail> {
    for inboxes in BOTH {
        let plan = plan(14, COUNT, 1);
        let marks = marks_after(&rt, inboxes, 4, Workload::ProdCons, &plan)?;
        assert!(rt; marks.as_slice() == [(0, 0), (1, 2)].as_slice());
    }
    Ok(())
}

// Worker 2 has no partner. It frees each buffer before the next, so that it has one slot again and again.
#[test]
fn a_worker_without_a_partner_marks_its_own(rt: HostRuntime) -> Result<(), Fail> {
    for inboxes in BOTH {
        let plan = plan(14, 1, 1);
        let marks = marks_after(&rt, inboxes, 3, Workload::ProdCons, &plan)?;
        assert!(rt; marks.as_slice() == [(0, 0), (1, 2)].as_slice());
    }
    Ok(())
}

// The words of two neighbours are 15 and 16.
#[test]
fn neighbours_mark_their_buffers(rt: HostRuntime) -> Result<(), Fail> {
    for inboxes in BOTH {
        let plan = plan(15, COUNT, 1);
        let marks = marks_after(&rt, inboxes, 2, Workload::Ring, &plan)?;
        assert!(rt; marks.as_slice() == [(0, 0), (1, 1)].as_slice());
    }
    Ok(())
}

// In the second round the words are 15 + 64 and 16 + 64. Refuses rounds that all draw the same words.
#[test]
fn each_round_draws_anew(rt: HostRuntime) -> Result<(), Fail> {
    for inboxes in BOTH {
        let plan = plan(15, 1, 2);
        let marks = marks_after(&rt, inboxes, 2, Workload::Replace, &plan)?;
        assert!(rt; marks.as_slice() == [(0, 0), (1, 1), (4, 0), (5, 1)].as_slice());
    }
    Ok(())
}
