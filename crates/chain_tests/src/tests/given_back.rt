//! What is dropped gives its boxes back: behind each drop as many blocks are lent as before what was
//! dropped was made. `.ci/no_memory.py` counts them. No clause says it: a drop that forgets its
//! buffers would meet all of them.
use crate::tests::stacks::stacked;
use crate::tests::{filled, same};
use chain_uses::turned;
use memory_marks::{Mark, set};
use region_cut::{CHUNK, Class};
use slot_chain::{BufParcel, Chain, NoMemory};
use std::alloc::Global;
use std::process::Abort;

// Eight slots of 512 bytes, of the allocator 7.
fn eight<'r>(rt: &impl Abort, alloc: Global, region: &'r mut [u8]) -> Result<Chain<'r>, NoMemory> {
    let class = Class::new(15).expect(rt, "the class of 512 bytes");
    filled(alloc, region, class, 7)
}

fn chain(rt: &impl Abort, alloc: Global) -> Result<(), NoMemory> {
    let mut region = Vec::from_elem(alloc, 0u8, CHUNK)?;
    set(alloc, Mark::Lent);
    let chain = eight(rt, alloc, &mut region)?;
    same(rt, "the slots", chain.len(), 8);
    drop(chain);
    set(alloc, Mark::GivenBack);
    Ok(())
}

#[test]
fn by_a_full_chain(rt: HostRuntime) {
    if chain(&rt, rt.alloc()).is_err() {
        assert!(rt; chain(&rt, rt.alloc()).is_ok());
    }
}

// All buffers of the chain, in a parcel with a place for each.
fn packed<'r>(alloc: Global, chain: Chain<'r>) -> Result<BufParcel<'r>, NoMemory> {
    let mut parcel = BufParcel::new(alloc, 7, 8)?;
    for buf in chain {
        drop(parcel.push(buf));
    }
    Ok(parcel)
}

fn parcel(rt: &impl Abort, alloc: Global) -> Result<(), NoMemory> {
    let mut region = Vec::from_elem(alloc, 0u8, CHUNK)?;
    set(alloc, Mark::Lent);
    let parcel = packed(alloc, eight(rt, alloc, &mut region)?)?;
    same(rt, "the buffers", parcel.buffers().len() as u64, 8);
    drop(parcel);
    set(alloc, Mark::GivenBack);
    Ok(())
}

#[test]
fn by_a_full_parcel(rt: HostRuntime) {
    if parcel(&rt, rt.alloc()).is_err() {
        assert!(rt; parcel(&rt, rt.alloc()).is_ok());
    }
}

// Of 256 buffers some lie in the stack's array, and the others are linked.
fn stack(rt: &impl Abort, alloc: Global) -> Result<(), NoMemory> {
    let mut region = Vec::from_elem(alloc, 0u8, CHUNK)?;
    set(alloc, Mark::Lent);
    let full = stacked(rt, alloc, &mut region)?;
    same(rt, "the slots", full.len(), 256);
    drop(full);
    set(alloc, Mark::GivenBack);
    Ok(())
}

#[test]
fn by_a_full_stack(rt: HostRuntime) {
    if stack(&rt, rt.alloc()).is_err() {
        assert!(rt; stack(&rt, rt.alloc()).is_ok());
    }
}

// Of 256 buffers some lie in the list's array, and some are linked. One is popped, and dropped alone.
fn magazine(rt: &impl Abort, alloc: Global) -> Result<(), NoMemory> {
    let mut region = Vec::from_elem(alloc, 0u8, CHUNK)?;
    set(alloc, Mark::Lent);
    let mut list = turned(alloc, filled(alloc, &mut region, Class::FIRST, 7)?);
    same(rt, "the slots", list.len(), 256);
    drop(list.pop());
    drop(list);
    set(alloc, Mark::GivenBack);
    Ok(())
}

#[test]
fn by_a_full_magazine(rt: HostRuntime) {
    if magazine(&rt, rt.alloc()).is_err() {
        assert!(rt; magazine(&rt, rt.alloc()).is_ok());
    }
}
