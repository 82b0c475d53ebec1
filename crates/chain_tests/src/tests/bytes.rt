//! What is written through buffers is what the region holds when its borrow ends.
use crate::tests::{filled, same};
use chain_uses::{clear, copy_in, mark, mark_first, mark_top, stamped};
use region_cut::{CHUNK, class_for};
use slot_chain::{Buf, Chain, NoMemory};
use std::alloc::Global;
use std::process::Abort;

fn check_byte(rt: &impl Abort, region: &[u8], place: usize, want: u8) {
    assert_eq!(rt; region.get(place).copied(), Some(want), "byte {place}");
}

// The bytes that the region has at these places.
fn check_bytes(rt: &impl Abort, region: &[u8], want: &[(usize, u8)]) {
    for (place, byte) in want {
        check_byte(rt, region, *place, *byte);
    }
}

// Sets each byte of a slot to the slot's index, or to 100 more outside of the first chunk.
fn write_index(rt: &impl Abort, buf: &mut Buf<'_>) {
    let slot = buf.slot();
    let byte = if slot.chunk == 0 { 0 } else { 100 };
    assert!(rt; slot.index < 85);
    buf.bytes_mut().fill(byte + slot.index as u8);
}

// Writes through each buffer of the chain, and keeps all until the last is written.
fn write_each(rt: &impl Abort, mut chain: Chain<'_>) {
    let mut written = Chain::new();
    while let Some(mut buf) = chain.pop() {
        write_index(rt, &mut buf);
        written.push(buf);
    }
}

// Class 2 has 85 slots of 48 bytes in a chunk, and 16 bytes at its end that are in no slot.
fn write_all(rt: &impl Abort, alloc: Global) -> Result<(), NoMemory> {
    let class = class_for(48).expect(rt, "a class of 48 bytes");
    let mut region = Vec::from_elem(alloc, 201u8, 2 * CHUNK + 100)?;
    let chain = filled(alloc, &mut region, class, 0)?;
    same(rt, "the slots", chain.len(), 170);
    write_each(rt, chain);
    let want = [
        (0, 0),
        (47, 0),
        (48, 1),
        (4031, 83),
        (4032, 84),
        (4079, 84),
        (4080, 201),
        (4095, 201),
        (4096, 100),
        (8175, 184),
        (8176, 201),
        (8291, 201),
    ];
    check_bytes(rt, &region, &want);
    Ok(())
}

#[test]
fn writes_reach_the_region(rt: HostRuntime) {
    if write_all(&rt, rt.alloc()).is_err() {
        assert!(rt; write_all(&rt, rt.alloc()).is_ok());
    }
}

fn check_text(rt: &impl Abort, buf: &Buf<'_>, want: &[u8]) {
    assert_eq!(rt; buf.bytes(), want);
}

fn write_text(rt: &impl Abort, buf: &mut Buf<'_>, text: &[u8]) {
    let size = buf.bytes().len();
    assert!(rt; text.len() == size);
    copy_in(buf, text);
}

// A buffer of 16 bytes shows what was written to it last, and ends with zeros.
fn rewrite(rt: &impl Abort, mut buf: Buf<'_>) {
    check_text(rt, &buf, &[7, 3, 3, 3, 3, 3, 3, 3, 3, 3, 3, 3, 3, 3, 3, 3]);
    same(rt, "the bytes", buf.bytes().len() as u64, 16);
    write_text(rt, &mut buf, b"sixteen bytes...");
    check_text(rt, &buf, b"sixteen bytes...");
    let mut buf = stamped(buf, 2, 83);
    check_text(rt, &buf, b"Sixteen bytes...");
    same(rt, "the hops", u64::from(buf.forwards()), 2);
    clear(&mut buf);
    check_text(rt, &buf, &[0; 16]);
}

fn rewrite_top(rt: &impl Abort, mut chain: Chain<'_>) {
    assert!(rt; mark_top(&mut chain, 7));
    let buf = chain.pop().expect(rt, "the last slot");
    rewrite(rt, buf);
}

fn write_and_read(rt: &impl Abort, alloc: Global) -> Result<(), NoMemory> {
    let class = class_for(16).expect(rt, "a class of 16 bytes");
    let mut region = Vec::from_elem(alloc, 3u8, CHUNK)?;
    rewrite_top(rt, filled(alloc, &mut region, class, 63)?);
    assert!(rt; !mark_top(&mut Chain::new(), 7));
    check_bytes(rt, &region, &[(4079, 3), (4080, 0)]);
    Ok(())
}

#[test]
fn writes_are_read_back(rt: HostRuntime) {
    if write_and_read(&rt, rt.alloc()).is_err() {
        assert!(rt; write_and_read(&rt, rt.alloc()).is_ok());
    }
}

// Writes the first byte of each buffer, and drops it before the next is taken.
fn mark_each(mut chain: Chain<'_>, byte: u8) {
    while let Some(mut buf) = chain.pop() {
        mark(&mut buf, byte);
        drop(buf);
    }
}

fn mark_all(rt: &impl Abort, alloc: Global) -> Result<(), NoMemory> {
    let class = class_for(512).expect(rt, "a class of 512 bytes");
    let mut region = Vec::from_elem(alloc, 1u8, 2 * CHUNK + 1)?;
    mark_each(filled(alloc, &mut region, class, 0)?, 9);
    let want = [(0, 9), (1, 1), (511, 1), (512, 9), (7680, 9), (8192, 1)];
    check_bytes(rt, &region, &want);
    Ok(())
}

#[test]
fn marks_each_slot(rt: HostRuntime) {
    if mark_all(&rt, rt.alloc()).is_err() {
        assert!(rt; mark_all(&rt, rt.alloc()).is_ok());
    }
}

#[test]
fn the_first_byte_is_written_through_a_buffer(rt: HostRuntime) {
    let mut region = [7u8; 10000];
    mark_first(rt.alloc(), &mut region, 9);
    for (at, byte) in region.iter().copied().enumerate() {
        assert!(rt; byte == if at == 0 { 9 } else { 7 }, "byte {at}");
    }
}
