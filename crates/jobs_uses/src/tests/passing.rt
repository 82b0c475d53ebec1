//! A small pool is enough however many buffers go through it.

ghost use Rattle.std.specs.Prelude.{◌≤◌};

use crate::tests::opening_over;
use crate::{Passed, pass_on};
use pool_fabric::account;
use rand_core::SeedableRng;
use rand_pcg::Pcg32;
use region_cut::CHUNK;
use std::process::Abort;
use std::sync::Wait;
use std::test::Fail;

// Three chunks for each class.
const CHUNKS: usize = 48;

const BUFFERS: u32 = 100_000;

// How many buffers of random sizes go from one worker to another, one after the other.
fn passed<R: Abort + AllocGlobal + Wait>(rt: &R, limit: u64) -> Result<u32, Fail>
    requires { limit ≤ 1048576 }
{
    let alloc = rt.alloc();
    let mut region = Vec::from_elem(alloc, 0u8, CHUNKS * CHUNK)?;
    let opening = opening_over(alloc, &mut region, 2, limit)?;
    let mut random = Pcg32::seed_from_u64(1);
    let Passed { allocated, found } = pass_on(rt, alloc, opening, &mut random, BUFFERS)
        .ok()
        .ok_or("all that there is")?;
    let audit = account(alloc, &[], &found.desks, &found.batches, &found.drawn);
    assert!(rt; audit.is_ok());
    Ok(allocated)
}

// The caches are due at each buffer, at some, or rarely: a desk that is full of slots doesn't leave
// what comes home in its inbox, so that its senders needn't keep the rest.
#[test]
fn a_small_pool_is_not_used_up(rt: HostRuntime) -> Result<(), Fail> {
    for limit in [0, 64, 4_096] {
        assert_eq!(rt; passed(&rt, limit)?, BUFFERS);
    }
    Ok(())
}
