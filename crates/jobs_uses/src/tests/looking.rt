//! What another thread freed comes home though the owner never runs out of slots, and though it is little.
use crate::tests::opening_over;
use crate::{Trial, look_after};
use region_cut::CHUNK;
use std::sync::Wait;
use std::test::Fail;

// How many batches are left behind a trial, where each slot is accounted for.
fn batches_left<R: AllocGlobal + Wait>(rt: &R, trial: Trial) -> Result<u32, Fail> {
    let alloc = rt.alloc();
    let mut region = Vec::from_elem(alloc, 0u8, 5 * CHUNK)?;
    let opening = opening_over(alloc, &mut region, 2, 65_536)?;
    let looked = look_after(rt, alloc, opening, trial)?;
    looked.report.tally.audit.ok().ok_or("an audit")?;
    Ok(looked.batches.ok().ok_or("a buffer")?)
}

// Two buffers were lent before: with 126 more, 128 are. Refuses an allocator that looks at each loan.
#[test]
fn no_look_before_the_129th_loan(rt: HostRuntime) -> Result<(), Fail> {
    assert_eq!(rt; batches_left(&rt, Trial::Look(126))?, 1);
    Ok(())
}

// Refuses an allocator that looks only where a class runs out.
#[test]
fn the_129th_loan_brings_a_look(rt: HostRuntime) -> Result<(), Fail> {
    assert_eq!(rt; batches_left(&rt, Trial::Look(127))?, 0);
    Ok(())
}

// They have 16,368 bytes of the 65,536 above which a post is due.
#[test]
fn few_small_buffers_wait(rt: HostRuntime) -> Result<(), Fail> {
    assert_eq!(rt; batches_left(&rt, Trial::Post(1_023))?, 0);
    Ok(())
}

// Refuses an allocator that posts by the limit in bytes alone.
#[test]
fn the_1024th_posts_all(rt: HostRuntime) -> Result<(), Fail> {
    assert_eq!(rt; batches_left(&rt, Trial::Post(1_024))?, 1);
    Ok(())
}

// The first look ends behind 1,024 buffers, and the stock is empty. Refuses an allocator that is used up then.
#[test]
fn what_comes_behind_a_look_is_found(rt: HostRuntime) -> Result<(), Fail> {
    assert_eq!(rt; batches_left(&rt, Trial::Search(1_024))?, 0);
    Ok(())
}
