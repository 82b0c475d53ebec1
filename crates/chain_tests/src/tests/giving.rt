//! A chain gives its buffers one by one, takes those of another, and lists its slots.
use crate::tests::{filled, same};
use region_cut::{CHUNK, Class, Slot};
use slot_chain::{Chain, NoMemory};
use std::alloc::Global;
use std::process::Abort;

// The chunk's slots, from the last of 8 to the first; then they lie on another chain, turned round.
fn turn(rt: &impl Abort, alloc: Global) -> Result<(), NoMemory> {
    let class = Class::new(15).expect(rt, "the class of 512 bytes");
    let mut region = Vec::from_elem(alloc, 0u8, CHUNK)?;
    let chain = filled(alloc, &mut region, class, 7)?;
    let mut turned = Chain::new();
    turned.extend(chain)?;
    same(rt, "the buffers", turned.len(), 8);
    let mut index = 0u64;
    for buf in turned {
        same(rt, "the index", u64::from(buf.slot().index), index);
        same(rt, "the bytes", buf.capacity() as u64, 512);
        index = index.wrapping_add(1);
    }
    same(rt, "all of them", index, 8);
    Ok(())
}

#[test]
fn a_chain_is_turned_round(rt: HostRuntime) {
    if turn(&rt, rt.alloc()).is_err() {
        assert!(rt; turn(&rt, rt.alloc()).is_ok());
    }
}

// The last slots of the list are the chain's, each once; after a refusal the list is as before.
fn list(rt: &impl Abort, alloc: Global, chain: &Chain<'_>) -> Result<(), NoMemory> {
    let first = Slot { chunk: 9, index: 9 };
    let mut slots = Vec::new(alloc);
    slots.push(first)?;
    if let Err(refused) = chain.list_slots(&mut slots) {
        same(rt, "after a refusal", slots.len() as u64, 1);
        return Err(refused);
    }
    same(rt, "listed", slots.len() as u64, 9);
    assert!(rt; slots[0] == first);
    for index in 0..8u16 {
        let slot = Slot { chunk: 0, index };
        same(
            rt,
            "each once",
            slots.iter().filter(|other| **other == slot).count() as u64,
            1,
        );
    }
    Ok(())
}

fn list_filled(rt: &impl Abort, alloc: Global) -> Result<(), NoMemory> {
    let class = Class::new(15).expect(rt, "the class of 512 bytes");
    let mut region = Vec::from_elem(alloc, 0u8, CHUNK)?;
    let chain = filled(alloc, &mut region, class, 7)?;
    list(rt, alloc, &chain)
}

#[test]
fn a_chain_lists_its_slots(rt: HostRuntime) {
    if list_filled(&rt, rt.alloc()).is_err() {
        assert!(rt; list_filled(&rt, rt.alloc()).is_ok());
    }
}

// What is printed of a buffer.
fn print(rt: &impl Abort, alloc: Global) -> Result<(), NoMemory> {
    let class = Class::new(15).expect(rt, "the class of 512 bytes");
    let mut region = Vec::from_elem(alloc, 0u8, CHUNK)?;
    let mut chain = filled(alloc, &mut region, class, 7)?;
    let buf = chain.pop().expect(rt, "a buffer");
    let text = format!(in alloc; "{buf:?}")?;
    assert!(rt; text.as_str() == "Buf(0.7 of class 15, owner 7)");
    Ok(())
}

#[test]
fn a_buffer_is_printed_without_bytes(rt: HostRuntime) {
    if print(&rt, rt.alloc()).is_err() {
        assert!(rt; print(&rt, rt.alloc()).is_ok());
    }
}
