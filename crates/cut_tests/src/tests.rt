//! The table of the classes, requests and their classes, and regions that are cut. Each test also holds where an
//! allocation is refused.
mod words;

use cut_uses::mark;
use region_cut::{Bump, CHUNK, Class, CutError, Part, Profile, Slot, class_for, cut};
use std::alloc::Global;
use std::process::Abort;
use std::test::Fail;

fn same(rt: &impl Abort, what: &str, found: usize, wanted: usize) {
    assert_eq!(rt; found, wanted, "{what}");
}

// A class, its size, the slots of a chunk, and the bytes behind them.
fn is_class(rt: &impl Abort, number: u32, size: usize, slots: usize, rest: usize) {
    let class = Class::new(number).expect(rt, "a class");
    same(rt, "number", class.number() as usize, number as usize);
    same(rt, "size", class.size(), size);
    same(rt, "slots", class.slots(), slots);
    same(
        rt,
        "chunk",
        slots.wrapping_mul(size).wrapping_add(rest),
        CHUNK,
    );
}

#[test]
fn classes_are_those_of_the_table(rt: HostRuntime) {
    for (number, size, slots, rest) in [
        (0, 16, 256, 0),
        (1, 32, 128, 0),
        (2, 48, 85, 16),
        (3, 64, 64, 0),
        (4, 80, 51, 16),
        (5, 96, 42, 64),
        (6, 112, 36, 64),
        (7, 128, 32, 0),
        (8, 160, 25, 96),
        (9, 192, 21, 64),
        (10, 224, 18, 64),
        (11, 256, 16, 0),
        (12, 320, 12, 256),
        (13, 384, 10, 256),
        (14, 448, 9, 64),
        (15, 512, 8, 0),
        (16, 640, 6, 256),
        (17, 768, 5, 256),
        (18, 896, 4, 512),
        (19, 1024, 4, 0),
    ] {
        is_class(&rt, number, size, slots, rest);
    }
    assert!(rt; Class::new(20).is_none());
    assert!(rt; Class::new(u32::MAX).is_none());
    same(&rt, "the first", Class::FIRST.number() as usize, 0);
}

fn number_of(class: Option<Class>) -> Option<u32> {
    match class {
        Some(class) => Some(class.number()),
        None => None,
    }
}

// The class of a request in either profile.
fn takes(rt: &impl Abort, n: usize, pool: Option<u32>, pool2: Option<u32>) {
    assert_eq!(rt; number_of(class_for(n)), pool, "{n} bytes");
    assert_eq!(rt; number_of(Profile::Pool2.class_for(n)), pool2, "{n} bytes");
}

#[test]
fn a_request_takes_the_least_class(rt: HostRuntime) {
    takes(&rt, 0, Some(0), Some(0));
    takes(&rt, 16, Some(0), Some(0));
    takes(&rt, 17, Some(1), Some(1));
    takes(&rt, 129, Some(8), Some(8));
    takes(&rt, 512, Some(15), Some(15));
    takes(&rt, 513, None, Some(16));
    takes(&rt, 897, None, Some(19));
    takes(&rt, 1024, None, Some(19));
    takes(&rt, 1025, None, None);
}

fn has(rt: &impl Abort, profile: Profile, bits: u32, classes: u32) {
    same(rt, "bits", profile.bits() as usize, bits as usize);
    same(rt, "classes", profile.classes() as usize, classes as usize);
}

#[test]
fn profiles_have_bits_and_classes(rt: HostRuntime) {
    has(&rt, Profile::Pool, 6, 16);
    has(&rt, Profile::Pool2, 12, 20);
}

fn is_printed(
    rt: &(impl Abort + AllocGlobal),
    chunk: u16,
    index: u16,
    text: &str,
) -> Result<(), Fail> {
    let slot = Slot { chunk, index };
    match format!(in rt.alloc(); "{slot}") {
        Ok(printed) => assert!(rt; printed.as_str() == text, "{text}"),
        Err(_) => {
            let printed = format!(in rt.alloc(); "{slot}")?;
            assert!(rt; printed.as_str() == text, "{text}");
        }
    }
    Ok(())
}

#[test]
fn a_slot_is_printed(rt: HostRuntime) -> Result<(), Fail> {
    is_printed(&rt, 0, 0, "0.0")?;
    is_printed(&rt, 1023, 255, "1023.255")?;
    is_printed(&rt, 10, 7, "10.7")
}

// So many bytes. Where memory for them was refused, the next try works.
fn bytes_of(rt: &impl Abort, alloc: Global, len: usize, byte: u8) -> Vec<u8> {
    match Vec::from_elem(alloc, byte, len) {
        Ok(bytes) => bytes,
        Err(_) => Vec::from_elem(alloc, byte, len)
            .ok()
            .expect(rt, "memory is there again"),
    }
}

// The next slot of a class of 12 slots of 320 bytes.
fn fill_next(rt: &impl Abort, bump: &mut Bump<'_>, index: u16, byte: u8) {
    same(rt, "given", bump.given() as usize, index as usize);
    same(
        rt,
        "left",
        bump.left(),
        12usize.wrapping_sub(index as usize),
    );
    let chunk = bump.chunk();
    let piece = bump.next().expect(rt, "a slot");
    same(rt, "bytes", piece.bytes().len(), 320);
    let (slot, bytes) = piece.into_parts();
    same(rt, "chunk", slot.chunk as usize, chunk as usize);
    same(rt, "index", slot.index as usize, index as usize);
    bytes.fill(byte);
}

// Each slot of the chunk is filled with a byte of its own.
fn fill_all(rt: &impl Abort, bump: &mut Bump<'_>, first: u8) {
    for index in 0..12u8 {
        fill_next(rt, bump, u16::from(index), first.wrapping_add(index));
    }
    same(rt, "left", bump.left(), 0);
    assert!(rt; bump.next().is_none());
}

fn slots_of<'r>(rt: &impl Abort, part: Part<'r>) -> Bump<'r> {
    let class = class_for(320).expect(rt, "a class");
    part.bump(class)
}

// Says how many chunks the region has, or that memory for the list of them was refused.
fn fill_chunks(rt: &impl Abort, alloc: Global, region: &mut [u8]) -> Result<usize, CutError> {
    let parts = cut(alloc, region)?;
    let count = parts.len();
    for part in parts {
        let first = if part.chunk() == 0 { 100 } else { 200 };
        let mut bump = slots_of(rt, part);
        fill_all(rt, &mut bump, first);
    }
    Ok(count)
}

// Where memory for the list of the chunks was refused, the next try works.
fn fill_all_chunks(rt: &impl Abort, alloc: Global, region: &mut [u8]) -> usize {
    match fill_chunks(rt, alloc, region) {
        Ok(count) => count,
        Err(_) => fill_chunks(rt, alloc, region)
            .ok()
            .expect(rt, "memory is there again"),
    }
}

#[test]
fn a_region_is_cut(rt: HostRuntime) {
    let mut region = bytes_of(&rt, rt.alloc(), 2 * CHUNK + 1808, 1);
    same(
        &rt,
        "chunks",
        fill_all_chunks(&rt, rt.alloc(), &mut region),
        2,
    );
    for (at, byte) in [
        (0, 100),
        (319, 100),
        (320, 101),
        (3839, 111),
        (3840, 1),
        (4095, 1),
        (4096, 200),
        (8191, 1),
        (8192, 1),
        (9999, 1),
    ] {
        assert!(rt; region.get(at).copied() == Some(byte), "byte {at}");
    }
    same(&rt, "bytes", region.len(), 10000);
}

fn all_are(rt: &impl Abort, region: &[u8], byte: u8) {
    for other in region {
        assert!(rt; *other == byte);
    }
}

// How many chunks the region has, or why it is not cut.
fn chunks_of(alloc: Global, region: &mut [u8]) -> Result<usize, CutError> {
    Ok(cut(alloc, region)?.len())
}

// The region has so many chunks. Where memory for the list of them was refused, the next try works.
fn is_cut(rt: &impl Abort, alloc: Global, region: &mut [u8], count: usize) {
    match chunks_of(alloc, region) {
        Ok(found) => same(rt, "chunks", found, count),
        Err(error) => {
            assert!(rt; error == CutError::NoMemory);
            assert!(rt; chunks_of(alloc, region) == Ok(count));
        }
    }
}

#[test]
fn a_region_of_1025_chunks_is_refused(rt: HostRuntime) {
    let mut region = bytes_of(&rt, rt.alloc(), 1025 * CHUNK, 7);
    assert!(rt; chunks_of(rt.alloc(), &mut region) == Err(CutError::TooMany));
    all_are(&rt, &region, 7);
    let (_, less) = region.split_first_mut().expect(&rt, "a first byte");
    is_cut(&rt, rt.alloc(), less, 1024);
    all_are(&rt, &region, 7);
}

#[test]
fn a_cut_writes_no_byte(rt: HostRuntime) {
    let mut region = [7u8; 5000];
    is_cut(&rt, rt.alloc(), &mut region, 1);
    all_are(&rt, &region, 7);
}

#[test]
fn a_region_without_a_chunk_takes_no_memory(rt: HostRuntime) {
    let mut region = [7u8; 4095];
    assert!(rt; chunks_of(rt.alloc(), &mut region) == Ok(0));
}

#[test]
fn a_mark_changes_one_byte(rt: HostRuntime) {
    let mut region = [7u8; 10000];
    mark(rt.alloc(), &mut region, 9);
    for (at, byte) in region.iter().copied().enumerate() {
        assert!(rt; byte == if at == 64 { 9 } else { 7 }, "byte {at}");
    }
}
