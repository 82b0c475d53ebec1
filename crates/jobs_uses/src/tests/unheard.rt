//! A worker whose posts are refused goes on, and tries again only now and then.
use crate::tests::opening_over;
use crate::{Frees, free_unheard};
use pool_fabric::account;
use region_cut::CHUNK;
use std::process::Abort;
use std::sync::Wait;
use std::test::Fail;

// The slots of 16 bytes of a chunk.
const SLOTS: usize = 256;

// How many batches are left in the inboxes, where every free is due.
fn batches_left<R: Abort + AllocGlobal + Wait>(rt: &R, frees: Frees) -> Result<usize, Fail> {
    let alloc = rt.alloc();
    let mut region = Vec::from_elem(alloc, 0u8, CHUNK)?;
    let opening = opening_over(alloc, &mut region, 2, 0)?;
    let found = free_unheard(rt, alloc, opening, SLOTS, frees)
        .ok()
        .ok_or("all that there is")?;
    let audit = account(alloc, &[], &found.desks, &found.batches, &found.drawn);
    assert!(rt; audit.is_ok());
    Ok(found.batches.len())
}

// 16 batches of a buffer each are posted, and the next is refused. So 148 are cached when a post is
// refused for the last time, and it is tried again at 185: ten more buffers wait for the end. Refuses an owner that
// takes one batch where there are more: 15 others would be left.
#[test]
fn few_posts_are_tried_again(rt: HostRuntime) -> Result<(), Fail> {
    let frees = Frees {
        early: 16 + 148,
        asks: false,
        late: 10,
    };
    assert_eq!(rt; batches_left(&rt, frees)?, 1);
    Ok(())
}

// The stranger finds no slot, neither at home nor in its inbox. So the first of the later buffers goes
// with all that is cached, the others alone.
#[test]
fn a_want_of_slots_lets_it_try_again(rt: HostRuntime) -> Result<(), Fail> {
    let frees = Frees {
        early: 16 + 148,
        asks: true,
        late: 10,
    };
    assert_eq!(rt; batches_left(&rt, frees)?, 10);
    Ok(())
}

// A quarter more than the 148 are cached at the 37th of the later buffers: it goes with all of them.
#[test]
fn a_longer_cache_is_tried_again(rt: HostRuntime) -> Result<(), Fail> {
    let frees = Frees {
        early: 16 + 148,
        asks: false,
        late: 38,
    };
    assert_eq!(rt; batches_left(&rt, frees)?, 2);
    Ok(())
}
