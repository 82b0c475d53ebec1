//! Whichever one allocation is refused, a second try has its answer, and nothing is lost.

use crate::{Refusing, Resent, post_twice};
use batch_inbox::{SendSeat, TakeSeat};
use digit_route::Digits;
use pool_fabric::{Opening, account};
use region_cut::{CHUNK, cut};
use slot_audit::Fault;
use std::alloc::Global;
use std::process::Abort;
use std::sync::Wait;

const DESKS: u16 = 4;

// So many bytes. Where memory for them was refused, the next try works.
fn bytes_of(rt: &impl Abort, alloc: Global, len: usize) -> Vec<u8> {
    match Vec::from_elem(alloc, 0u8, len) {
        Ok(bytes) => bytes,
        Err(_) => Vec::from_elem(alloc, 0u8, len)
            .ok()
            .expect(rt, "memory is there again"),
    }
}

// How many batches came to their desks, or none where memory was refused to more than a buffer.
fn batches_over<R: Abort + Wait>(rt: &R, alloc: Global, region: &mut [u8]) -> Option<u32> {
    let parts = cut(alloc, region).ok()?;
    let digits = Digits::new(6)?;
    let opening = Opening::<Refusing<'_>, TakeSeat<'_>, SendSeat<'_>>::new(
        alloc, parts, DESKS, digits, 4_096,
    ).ok()?;
    let Resent {
        first,
        second,
        found,
    } = post_twice(rt, alloc, opening).ok()?;
    let audit = account(alloc, &[], &found.desks, &found.batches, &found.drawn);
    assert!(rt; audit == Ok(()) || audit == Err(Fault::NoMemory));
    first.checked_add(second)
}

// All desks but one lend a buffer. One of them may have found no memory for it.
#[test]
fn a_post_tries_again(rt: HostRuntime) {
    let alloc = rt.alloc();
    let mut region = bytes_of(&rt, alloc, 6 * CHUNK);
    let batches = match batches_over(&rt, alloc, &mut region) {
        Some(batches) => batches,
        None => batches_over(&rt, alloc, &mut region).expect(&rt, "memory is there again"),
    };
    let others = u32::from(DESKS) - 1;
    assert!(rt; batches == others || batches == others - 1);
}
