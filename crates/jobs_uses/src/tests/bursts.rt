//! Parcels that a stranger frees come home.

ghost use Rattle.std.specs.Prelude.{◌≤◌};

use crate::pass_in_bursts;
use crate::passing::Passed;
use crate::tests::opening_over;
use pool_fabric::account;
use region_cut::CHUNK;
use std::process::Abort;
use std::sync::Wait;
use std::test::Fail;

// How many buffers of 512 bytes go in so many bursts of 8 from one worker to another, over a region of one chunk,
// which has 8 of them.
fn passed<R: Abort + AllocGlobal + Wait>(rt: &R, limit: u64, bursts: u32) -> Result<u32, Fail>
    requires { limit ≤ 1048576 }
{
    let alloc = rt.alloc();
    let mut region = Vec::from_elem(alloc, 0u8, CHUNK)?;
    let opening = opening_over(alloc, &mut region, 2, limit)?;
    let Passed { allocated, found } = pass_in_bursts(rt, alloc, opening, bursts, 8)
        .ok()
        .ok_or("all that there is")?;
    let audit = account(alloc, &[], &found.desks, &found.batches, &found.drawn);
    assert!(rt; audit.is_ok());
    Ok(allocated)
}

// The cache is due at each parcel, and the eight are at home again when the next is packed.
#[test]
fn one_chunk_is_enough(rt: HostRuntime) -> Result<(), Fail> {
    assert_eq!(rt; passed(&rt, 0, 1_000)?, 8_000);
    assert_eq!(rt; passed(&rt, 4_095, 1_000)?, 8_000);
    Ok(())
}

// The cache isn't due at 4,096 bytes, and the first eight stay in it.
#[test]
fn what_is_not_due_stays(rt: HostRuntime) -> Result<(), Fail> {
    assert_eq!(rt; passed(&rt, 4_096, 3)?, 8);
    Ok(())
}
