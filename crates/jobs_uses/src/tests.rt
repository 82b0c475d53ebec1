//! Tests of allocators: alone, two that share a pool, buffer by buffer and in bursts, a task that promises its answer,
//! and a workload whose posts are counted. The words of refusals.

mod again;
mod alone;
mod bursts;
mod counted;
mod handing;
mod looking;
mod passing;
mod promised;
mod refused;
mod taking_up;
mod unheard;
mod words;

ghost use Rattle.std.specs.Prelude.{◌≤◌};

use batch_inbox::{NewMail, Receiver, Sender};
use digit_route::Digits;
use pool_fabric::Opening;
use region_cut::cut;
use std::alloc::Global;
use std::test::Fail;

// All that a pool of so many desks is made of, in this region.
fn opening_over<'r, T: Receiver, S: Sender, M: NewMail<T, S>>(
    alloc: Global,
    region: &'r mut Vec<u8>,
    desks: u16,
    limit: u64,
) -> Result<Opening<'r, M, T, S>, Fail>
    requires { (1 ≤ desks) × (desks ≤ 4) × (limit ≤ 1048576) }
{
    let digits = Digits::new(2).ok_or("two bits")?;
    let parts = cut(alloc, region.as_mut_slice())?;
    Ok(Opening::new(alloc, parts, desks, digits, limit)?)
}
