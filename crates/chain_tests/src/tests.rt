//! What no clause says, and what crosses the two crates: from a region to chains of its buffers, and back to its bytes.
//!
//! A test that takes memory is made again where it was refused, since then it is there.
ghost use Rattle.std.specs.Prelude.{◌<◌};
ghost use Rattle.slot_chain.specs.Buffer.{owner_limit};

mod bytes;
mod filling;
mod given_back;
mod giving;
mod long;
mod no_memory;
mod order;
mod packing;
mod refusal;
mod sending;
mod stacks;
mod whole;

use chain_uses::fill_region;
use region_cut::{Class, Part, cut};
use slot_chain::{Chain, NoMemory};
use std::alloc::Global;
use std::process::Abort;

// Both are the same. Where they are not, `what` says which value it is.
fn same(rt: &impl Abort, what: &str, found: u64, wanted: u64) {
    assert_eq!(rt; found, wanted, "{what}");
}

// The chunks of a region that has few.
fn parts<'r>(alloc: Global, region: &'r mut [u8]) -> Result<Vec<Part<'r>>, NoMemory> {
    match cut(alloc, region) {
        Ok(parts) => Ok(parts),
        Err(_) => Err(NoMemory),
    }
}

// A chain of all slots of a region that has few chunks.
fn filled<'r>(
    alloc: Global,
    region: &'r mut [u8],
    class: Class,
    owner: u16,
) -> Result<Chain<'r>, NoMemory>
    requires { owner < owner_limit }
{
    match fill_region(alloc, region, class, owner) {
        Ok(chain) => Ok(chain),
        Err(_) => Err(NoMemory),
    }
}
