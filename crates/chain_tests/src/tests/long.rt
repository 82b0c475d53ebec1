//! A chain that is too long for a recursion.
use crate::tests::{filled, same};
use chain_uses::count_owned;
use region_cut::{CHUNK, class_for};
use slot_chain::{Chain, NoMemory};
use std::alloc::Global;
use std::process::Abort;

// 400 chunks of 256 slots.
const COUNT: u64 = 102_400;

fn append(rt: &impl Abort, mut chain: Chain<'_>) {
    same(rt, "the slots", chain.len(), COUNT);
    same(rt, "the bytes", chain.bytes_total(), 16 * COUNT);
    let mut other = Chain::new();
    other.append(&mut chain);
    same(rt, "those of 1", count_owned(&other, 1), COUNT);
}

fn append_all(rt: &impl Abort, alloc: Global) -> Result<(), NoMemory> {
    let class = class_for(16).expect(rt, "a class of 16 bytes");
    let mut region = Vec::from_elem(alloc, 0u8, 400 * CHUNK)?;
    append(rt, filled(alloc, &mut region, class, 1)?);
    Ok(())
}

#[test]
fn long_chains_take_no_depth(rt: HostRuntime) {
    if append_all(&rt, rt.alloc()).is_err() {
        assert!(rt; append_all(&rt, rt.alloc()).is_ok());
    }
}
