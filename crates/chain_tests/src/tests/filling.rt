//! What a buffer is filled with, and that it goes with the buffer.
use crate::tests::{filled, same};
use region_cut::{CHUNK, class_for};
use slot_chain::{Buf, BufParcel, Full, NoMemory};
use std::alloc::Global;
use std::io::Write;
use std::process::Abort;

fn holds(rt: &impl Abort, buf: &Buf<'_>, want: &[u8]) {
    assert_eq!(rt; buf.data(), want);
    same(rt, "the length", buf.len() as u64, want.len() as u64);
    assert!(rt; buf.is_empty() == want.is_empty());
}

// A buffer of 16 bytes is appended to as long as there is room, and else not changed.
fn append(rt: &impl Abort, buf: &mut Buf<'_>) {
    holds(rt, buf, b"");
    same(rt, "the room", buf.capacity() as u64, 16);
    assert!(rt; buf.extend_from_slice(b"packet").is_ok());
    holds(rt, buf, b"packet");
    assert!(rt; buf.extend_from_slice(b"much too long").err() == Some(Full));
    holds(rt, buf, b"packet");
    assert!(rt; write!(buf, " {} of {}", 7, 12).is_ok());
    holds(rt, buf, b"packet 7 of 12");
    assert!(rt; write!(buf, "345").is_err());
    holds(rt, buf, b"packet 7 of 1234");
    assert!(rt; buf.extend_from_slice(b"").is_ok());
    buf.truncate(20);
    holds(rt, buf, b"packet 7 of 1234");
    buf.truncate(6);
    holds(rt, buf, b"packet");
}

// A read goes behind what is filled, and no further than the buffer.
fn read(rt: &impl Abort, buf: &mut Buf<'_>) {
    let mut source: &[u8] = b"et and more than fits";
    buf.truncate(4);
    assert!(rt; buf.read_from(&mut source).ok() == Some(12));
    holds(rt, buf, b"packet and more ");
    assert_eq!(rt; source, b"than fits".as_slice());
    assert!(rt; buf.read_from(&mut source).ok() == Some(0));
    holds(rt, buf, b"packet and more ");
}

// Whether it was filled, passed on or both, it is then neither, and has its bytes.
fn reset(rt: &impl Abort, buf: &mut Buf<'_>) {
    for (filled, forwards) in [(4, 0), (0, 2), (16, u32::MAX), (0, 0)] {
        assert!(rt; filled <= buf.capacity());
        buf.set_len(filled);
        buf.set_forwards(forwards);
        buf.reset();
        holds(rt, buf, b"");
        assert!(rt; buf.forwards() == 0);
        assert_eq!(rt; buf.bytes(), b"packet and more ".as_slice());
    }
}

// Bytes are written in place, and then as many count as are said.
fn edit(rt: &impl Abort, buf: &mut Buf<'_>) {
    buf.clear();
    holds(rt, buf, b"");
    assert!(rt; buf.capacity() == 16);
    buf.copy_in(2, b"xy");
    holds(rt, buf, b"");
    let first = buf.edit(|bytes| {
        bytes.fill(b'z');
        bytes.len()
    });
    same(rt, "the bytes lent", first as u64, 16);
    buf.set_len(3);
    holds(rt, buf, b"zzz");
    buf.fill(b'a');
    holds(rt, buf, b"aaaaaaaaaaaaaaaa");
    buf.truncate(5);
}

// It stays with the buffer through a chain and a parcel.
fn hand_over(rt: &impl Abort, alloc: Global) -> Result<(), NoMemory> {
    let class = class_for(16).expect(rt, "a class of 16 bytes");
    let mut region = Vec::from_elem(alloc, 3u8, CHUNK)?;
    let mut chain = filled(alloc, &mut region, class, 0)?;
    let mut parcel = BufParcel::new(alloc, 0, 2)?;
    let mut buf = chain.pop().expect(rt, "a buffer");
    append(rt, &mut buf);
    read(rt, &mut buf);
    reset(rt, &mut buf);
    edit(rt, &mut buf);
    chain.push(buf);
    let buf = chain.pop().expect(rt, "the same");
    assert!(rt; parcel.push(buf).is_ok());
    assert!(rt; parcel.len() == 1);
    holds(rt, &parcel.buffers()[0], b"aaaaa");
    parcel.edit_at(0, |bytes| bytes.fill(b'b'));
    holds(rt, &parcel.buffers()[0], b"bbbbb");
    assert!(rt; parcel.extend_at(0, b"nine more b").is_ok());
    assert!(rt; parcel.extend_at(0, b"!").err() == Some(Full));
    holds(rt, &parcel.buffers()[0], b"bbbbbnine more b");
    let buf = parcel.pop().expect(rt, "the same");
    holds(rt, &buf, b"bbbbbnine more b");
    Ok(())
}

#[test]
fn what_is_filled_goes_with_the_buffer(rt: HostRuntime) {
    if hand_over(&rt, rt.alloc()).is_err() {
        assert!(rt; hand_over(&rt, rt.alloc()).is_ok());
    }
}
