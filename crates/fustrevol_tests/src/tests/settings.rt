//! A pool does its work with each of its settings.

use super::{Outcome, relayed};
use fustrevol::{CHUNK, Digits, InboxKind, Pool};
use std::alloc::Global;
use std::process::Abort;
use std::sync::Wait;
use std::test::Fail;
use std::thread::Threads;
use std::time::Clock;

// How many buffers go from task to task, over a region of 16 chunks. That has 128 of 512 bytes.
const COUNT: u32 = 300;

// Runs the pool, whose greatest size this is, and looks at what was counted.
fn works<R: Abort + AllocGlobal + Threads + Wait + Clock + Sync>(
    rt: &R,
    pool: Pool<'_>,
    size: usize,
) -> Result<(), Fail> {
    let Outcome { answers, tally } = relayed(rt, rt.alloc(), pool, COUNT)?;
    assert!(rt; answers.as_slice() == [Some(Ok(size)), Some(Ok(size))].as_slice());
    assert!(rt; tally.counts.allocated == 300 && tally.counts.freed == 300);
    assert!(rt; tally.counts.lost == 0 && tally.audit.is_ok());
    Ok(())
}

fn region(alloc: Global) -> Result<Vec<u8>, Fail> {
    Ok(vec![in alloc; 0u8; 16 * CHUNK]?)
}

#[test]
fn with_its_defaults(rt: HostRuntime) -> Result<(), Fail> {
    let mut region = region(rt.alloc())?;
    works(&rt, Pool::new(rt.alloc(), &mut region)?, 512)
}

#[test]
fn each_free_posts(rt: HostRuntime) -> Result<(), Fail> {
    let mut region = region(rt.alloc())?;
    let pool = Pool::new(rt.alloc(), &mut region)?;
    works(&rt, pool.limit(0).inbox(InboxKind::Linked), 512)
}

#[test]
fn each_free_posts_to_a_queue(rt: HostRuntime) -> Result<(), Fail> {
    let mut region = region(rt.alloc())?;
    let pool = Pool::new(rt.alloc(), &mut region)?;
    works(&rt, pool.limit(0).inbox(InboxKind::Queued), 512)
}

// The cache is never due. The second task posts since it waits for the next message.
#[test]
fn the_greatest_limit(rt: HostRuntime) -> Result<(), Fail> {
    let mut region = region(rt.alloc())?;
    let pool = Pool::new(rt.alloc(), &mut region)?;
    works(&rt, pool.limit(1_048_576), 512)
}

#[test]
fn digits_of_one_bit(rt: HostRuntime) -> Result<(), Fail> {
    let mut region = region(rt.alloc())?;
    let digits = Digits::new(1).ok_or("a width of 1 to 6")?;
    let pool = Pool::new(rt.alloc(), &mut region)?;
    works(&rt, pool.digits(digits), 512)
}

#[test]
fn buffers_of_1_024_bytes(rt: HostRuntime) -> Result<(), Fail> {
    let mut region = region(rt.alloc())?;
    let digits = Digits::new2(6).ok_or("a width of 1 to 6")?;
    let pool = Pool::new(rt.alloc(), &mut region)?;
    works(&rt, pool.digits(digits).inbox(InboxKind::Queued), 1_024)
}
