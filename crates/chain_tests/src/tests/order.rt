//! The order of a chain's buffers, and what each of them shows.
use crate::tests::{parts, same};
use chain_uses::{count_owned, fill_part, list_slots};
use region_cut::{CHUNK, Class, Slot};
use slot_chain::{Buf, Chain, NoMemory, Tag};
use std::alloc::Global;
use std::process::Abort;

// A chain for each chunk of the region, which has eight slots of 512 bytes, and belongs to the
// allocator 7 or, from its second chunk on, to 4,095.
pub(super) fn chains<'r>(
    rt: &impl Abort,
    alloc: Global,
    region: &'r mut [u8],
) -> Result<(Chain<'r>, Chain<'r>), NoMemory> {
    let class = Class::new(15).expect(rt, "the class of 512 bytes");
    let (mut first, mut second) = (Chain::new(), Chain::new());
    for part in parts(alloc, region)? {
        if part.chunk() == 0 {
            fill_part(alloc, part, class, 7, &mut first)?;
        } else {
            fill_part(alloc, part, class, 4095, &mut second)?;
        }
    }
    Ok((first, second))
}

// The slots that a chain gives, from the one that came last.
fn popped(alloc: Global, mut chain: Chain<'_>) -> Result<Vec<Slot>, NoMemory> {
    let mut slots = Vec::new(alloc);
    while let Some(buf) = chain.pop() {
        slots.push(buf.slot())?;
    }
    Ok(slots)
}

// Eight slots of the chunk, from the last to the first.
fn from_last(chunk: u16, slots: &mut Vec<Slot>) -> Result<(), NoMemory> {
    for index in [7, 6, 5, 4, 3, 2, 1, 0] {
        slots.push(Slot { chunk, index })?;
    }
    Ok(())
}

// The slots of these chunks, each from the last to the first.
fn wanted(alloc: Global, chunks: &[u16]) -> Result<Vec<Slot>, NoMemory> {
    let mut slots = Vec::new(alloc);
    for chunk in chunks {
        from_last(*chunk, &mut slots)?;
    }
    Ok(slots)
}

fn check_slots(rt: &impl Abort, slots: &[Slot], want: &[Slot]) {
    assert_eq!(rt; slots, want);
}

// The chain gives the slots of these chunks.
fn check_popped(
    rt: &impl Abort,
    alloc: Global,
    chain: Chain<'_>,
    chunks: &[u16],
) -> Result<(), NoMemory> {
    let slots = popped(alloc, chain)?;
    let want = wanted(alloc, chunks)?;
    check_slots(rt, slots.as_slice(), want.as_slice());
    Ok(())
}

// The last slot of the second chunk.
fn check_last(rt: &impl Abort, buf: Buf<'_>) {
    let slot = buf.slot();
    same(rt, "the chunk", u64::from(slot.chunk), 1);
    same(rt, "the index", u64::from(slot.index), 7);
    same(rt, "the class", u64::from(buf.class().number()), 15);
    same(rt, "the owner", u64::from(buf.owner()), 4095);
    same(rt, "the hops", u64::from(buf.forwards()), 0);
}

fn take_last(rt: &impl Abort, mut second: Chain<'_>) {
    check_last(rt, second.pop().expect(rt, "the last slot"));
    same(rt, "the slots that are left", second.len(), 7);
}

fn take_all(rt: &impl Abort, alloc: Global) -> Result<(), NoMemory> {
    let mut region = Vec::from_elem(alloc, 0u8, 2 * CHUNK)?;
    let (first, second) = chains(rt, alloc, &mut region)?;
    same(rt, "the slots", first.len(), 8);
    same(rt, "the bytes", first.bytes_total(), 4096);
    check_popped(rt, alloc, first, &[0])?;
    take_last(rt, second);
    Ok(())
}

#[test]
fn last_in_is_first_out(rt: HostRuntime) {
    if take_all(&rt, rt.alloc()).is_err() {
        assert!(rt; take_all(&rt, rt.alloc()).is_ok());
    }
}

// Appends the second to the first, an empty one, and then the first to the second.
fn append_both<'r>(rt: &impl Abort, first: &mut Chain<'r>, second: &mut Chain<'r>) {
    first.append(second);
    same(rt, "the slots of both", first.len(), 16);
    assert!(rt; second.is_empty());
    first.append(second);
    same(rt, "the slots with none", first.len(), 16);
    second.append(first);
    assert!(rt; first.is_empty());
    same(rt, "the bytes of both", second.bytes_total(), 8192);
}

fn append_twice(rt: &impl Abort, alloc: Global) -> Result<(), NoMemory> {
    let mut region = Vec::from_elem(alloc, 0u8, 2 * CHUNK)?;
    let (mut first, mut second) = chains(rt, alloc, &mut region)?;
    append_both(rt, &mut first, &mut second);
    check_popped(rt, alloc, second, &[1, 0])
}

#[test]
fn appended_go_on_top(rt: HostRuntime) {
    if append_twice(&rt, rt.alloc()).is_err() {
        assert!(rt; append_twice(&rt, rt.alloc()).is_ok());
    }
}

// A walk lists the slots of these chunks.
fn check_listed(
    rt: &impl Abort,
    alloc: Global,
    chain: &Chain<'_>,
    chunks: &[u16],
) -> Result<(), NoMemory> {
    let slots = list_slots(alloc, chain)?;
    let want = wanted(alloc, chunks)?;
    check_slots(rt, slots.as_slice(), want.as_slice());
    Ok(())
}

fn check_owned(rt: &impl Abort, chain: &Chain<'_>) {
    same(rt, "those of 7", count_owned(chain, 7), 8);
    same(rt, "those of 4095", count_owned(chain, 4095), 8);
    same(rt, "those of 8", count_owned(chain, 8), 0);
}

// On top is the last slot of the second chunk.
fn check_top(rt: &impl Abort, chain: &Chain<'_>) {
    let tag = Tag {
        slot: Slot { chunk: 1, index: 7 },
        class: Class::new(15).expect(rt, "the class of 512 bytes"),
        owner: 4095,
    };
    assert_eq!(rt; chain.walk().next(), Some(tag));
}

fn walk_both(rt: &impl Abort, alloc: Global) -> Result<(), NoMemory> {
    let mut region = Vec::from_elem(alloc, 0u8, 2 * CHUNK)?;
    let (mut first, mut second) = chains(rt, alloc, &mut region)?;
    first.append(&mut second);
    assert!(rt; second.walk().next().is_none());
    assert!(rt; Chain::default().is_empty());
    check_listed(rt, alloc, &first, &[1, 0])?;
    check_owned(rt, &first);
    check_top(rt, &first);
    Ok(())
}

#[test]
fn walks_from_the_top(rt: HostRuntime) {
    if walk_both(&rt, rt.alloc()).is_err() {
        assert!(rt; walk_both(&rt, rt.alloc()).is_ok());
    }
}
