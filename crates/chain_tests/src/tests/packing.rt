//! Parcels: buffers of one allocator that are handed over as a whole.
use crate::tests::order::chains;
use crate::tests::{filled, parts, same};
use chain_uses::fill_part;
use region_cut::{CHUNK, Class, class_for};
use slot_chain::{Buf, BufParcel, Chain, NoMemory};
use std::alloc::Global;
use std::process::Abort;

// The buffer goes in, however often it was passed on.
fn put<'r>(rt: &impl Abort, parcel: &mut BufParcel<'r>, mut buf: Buf<'r>) {
    buf.set_forwards(3);
    assert!(rt; parcel.push(buf).is_ok());
}

fn put_all<'r>(rt: &impl Abort, parcel: &mut BufParcel<'r>, chain: Chain<'r>) {
    for buf in chain {
        put(rt, parcel, buf);
    }
}

// These buffers have slots with these indices, in this order, and none was passed on.
fn check_buffers(rt: &impl Abort, buffers: &[Buf<'_>], want: &[u16]) {
    let mut want = want.iter();
    for buf in buffers {
        assert_eq!(rt; want.next().copied(), Some(buf.slot().index));
        same(rt, "the chunk", u64::from(buf.slot().chunk), 0);
        same(rt, "the hops", u64::from(buf.forwards()), 0);
    }
    assert!(rt; want.next().is_none());
}

// Another's buffer comes back as it was.
fn is_kept_out<'r>(rt: &impl Abort, parcel: &mut BufParcel<'r>, mut buf: Buf<'r>) {
    let slot = buf.slot();
    buf.set_forwards(2);
    let back = parcel.push(buf).err().expect(rt, "another's");
    assert!(rt; back.slot() == slot);
    same(rt, "the owner", u64::from(back.owner()), 4095);
    same(rt, "the hops", u64::from(back.forwards()), 2);
}

// It has room for all sixteen, and takes the eight of the allocator 7.
fn pack_both(rt: &impl Abort, alloc: Global) -> Result<(), NoMemory> {
    let mut region = Vec::from_elem(alloc, 0u8, 2 * CHUNK)?;
    let (first, second) = chains(rt, alloc, &mut region)?;
    let mut parcel = BufParcel::new(alloc, 7, 16)?;
    assert!(rt; parcel.is_empty());
    put_all(rt, &mut parcel, first);
    for buf in second {
        is_kept_out(rt, &mut parcel, buf);
    }
    assert!(rt; !parcel.is_empty());
    same(rt, "the owner", u64::from(parcel.owner()), 7);
    same(rt, "the bytes", parcel.bytes_total(), 4096);
    check_buffers(rt, parcel.buffers(), &[7, 6, 5, 4, 3, 2, 1, 0]);
    Ok(())
}

#[test]
fn a_parcel_takes_buffers_of_its_owner_alone(rt: HostRuntime) {
    if pack_both(&rt, rt.alloc()).is_err() {
        assert!(rt; pack_both(&rt, rt.alloc()).is_ok());
    }
}

// Buffers go in until one finds no place, which comes back. Tells how many went in.
fn fill_up<'r>(rt: &impl Abort, parcel: &mut BufParcel<'r>, chain: Chain<'r>) -> u64 {
    let mut count = 0u64;
    for buf in chain {
        let slot = buf.slot();
        if let Err(back) = parcel.push(buf) {
            assert!(rt; back.slot() == slot);
            return count;
        }
        count = count.wrapping_add(1);
    }
    count
}

// A parcel with a few places isn't filled by fewer buffers, but by a chunk's 256.
fn fill(rt: &impl Abort, alloc: Global, places: usize) -> Result<(), NoMemory> {
    let class = class_for(16).expect(rt, "a class of 16 bytes");
    let mut region = Vec::from_elem(alloc, 0u8, CHUNK)?;
    let chain = filled(alloc, &mut region, class, 1)?;
    let mut parcel = BufParcel::new(alloc, 1, places)?;
    assert!(rt; parcel.places() >= places && parcel.is_full() == (parcel.places() == 0));
    let count = fill_up(rt, &mut parcel, chain);
    assert!(rt; count >= places as u64 && count < 256 && parcel.is_full());
    same(rt, "the buffers", parcel.len() as u64, count);
    same(rt, "the places", parcel.places() as u64, count);
    same(
        rt,
        "the bytes",
        parcel.bytes_total(),
        count.wrapping_mul(16),
    );
    Ok(())
}

#[test]
fn what_finds_no_place_comes_back(rt: HostRuntime) {
    for places in [0, 3, 100] {
        if fill(&rt, rt.alloc(), places).is_err() {
            assert!(rt; fill(&rt, rt.alloc(), places).is_ok());
        }
    }
}

// A buffer of the chain goes in, and then so many bytes are in it.
fn put_one<'r>(rt: &impl Abort, parcel: &mut BufParcel<'r>, chain: &mut Chain<'r>, bytes: u64) {
    put(rt, parcel, chain.pop().expect(rt, "a buffer"));
    same(rt, "the bytes behind a push", parcel.bytes_total(), bytes);
}

// A buffer of this size comes out, and then so many bytes are in it.
fn take_one(rt: &impl Abort, parcel: &mut BufParcel<'_>, size: u64, bytes: u64) {
    let buf = parcel.pop().expect(rt, "a buffer");
    same(rt, "the size", buf.capacity() as u64, size);
    same(rt, "the hops", u64::from(buf.forwards()), 0);
    same(rt, "the bytes behind a pop", parcel.bytes_total(), bytes);
}

// The one chain has buffers of 512 bytes, the other of 16.
fn count_bytes<'r>(
    rt: &impl Abort,
    parcel: &mut BufParcel<'r>,
    large: &mut Chain<'r>,
    small: &mut Chain<'r>,
) {
    same(rt, "no bytes", parcel.bytes_total(), 0);
    put_one(rt, parcel, large, 512);
    put_one(rt, parcel, small, 528);
    take_one(rt, parcel, 16, 512);
    put_one(rt, parcel, small, 528);
    put_one(rt, parcel, large, 1040);
    take_one(rt, parcel, 512, 528);
    take_one(rt, parcel, 16, 512);
    take_one(rt, parcel, 512, 0);
    assert!(rt; parcel.pop().is_none());
    same(rt, "no bytes again", parcel.bytes_total(), 0);
}

// Two chains of the allocator 9: of buffers of 512 bytes, and of 16.
fn two_sizes<'r>(
    rt: &impl Abort,
    alloc: Global,
    region: &'r mut [u8],
) -> Result<(Chain<'r>, Chain<'r>), NoMemory> {
    let of_512 = Class::new(15).expect(rt, "the class of 512 bytes");
    let of_16 = class_for(16).expect(rt, "a class of 16 bytes");
    let mut large = Chain::new();
    let mut small = Chain::new();
    for part in parts(alloc, region)? {
        if part.chunk() == 0 {
            fill_part(alloc, part, of_512, 9, &mut large)?;
        } else {
            fill_part(alloc, part, of_16, 9, &mut small)?;
        }
    }
    Ok((large, small))
}

fn count_two_sizes(rt: &impl Abort, alloc: Global) -> Result<(), NoMemory> {
    let mut region = Vec::from_elem(alloc, 0u8, 2 * CHUNK)?;
    let (mut large, mut small) = two_sizes(rt, alloc, &mut region)?;
    let mut parcel = BufParcel::new(alloc, 9, 3)?;
    count_bytes(rt, &mut parcel, &mut large, &mut small);
    Ok(())
}

#[test]
fn a_parcel_knows_its_bytes(rt: HostRuntime) {
    if count_two_sizes(&rt, rt.alloc()).is_err() {
        assert!(rt; count_two_sizes(&rt, rt.alloc()).is_ok());
    }
}

// The eight buffers were packed from the last slot to the first.
fn take_back(rt: &impl Abort, parcel: &mut BufParcel<'_>) {
    for index in 0..8 {
        let buf = parcel.pop().expect(rt, "a buffer");
        same(rt, "the index", u64::from(buf.slot().index), index);
    }
    assert!(rt; parcel.pop().is_none() && parcel.is_empty());
}

fn pack_and_take(rt: &impl Abort, alloc: Global) -> Result<(), NoMemory> {
    let mut region = Vec::from_elem(alloc, 0u8, 2 * CHUNK)?;
    let (first, _second) = chains(rt, alloc, &mut region)?;
    let mut parcel = BufParcel::new(alloc, 7, 8)?;
    put_all(rt, &mut parcel, first);
    take_back(rt, &mut parcel);
    Ok(())
}

#[test]
fn a_parcel_gives_the_last_first(rt: HostRuntime) {
    if pack_and_take(&rt, rt.alloc()).is_err() {
        assert!(rt; pack_and_take(&rt, rt.alloc()).is_ok());
    }
}

// The last that was packed was taken out again.
fn unpack(rt: &impl Abort, alloc: Global) -> Result<(), NoMemory> {
    let mut region = Vec::from_elem(alloc, 0u8, 2 * CHUNK)?;
    let (first, _second) = chains(rt, alloc, &mut region)?;
    let mut parcel = BufParcel::new(alloc, 7, 8)?;
    put_all(rt, &mut parcel, first);
    let last = parcel.pop().expect(rt, "a buffer");
    same(rt, "the last index", u64::from(last.slot().index), 0);
    let buffers = parcel.into_buffers();
    check_buffers(rt, buffers.as_slice(), &[7, 6, 5, 4, 3, 2, 1]);
    Ok(())
}

#[test]
fn a_parcel_becomes_an_array_in_order(rt: HostRuntime) {
    if unpack(&rt, rt.alloc()).is_err() {
        assert!(rt; unpack(&rt, rt.alloc()).is_ok());
    }
}

// No machine has memory for the first parcel. What was to go into it goes into the next.
fn pack_after_a_refusal(rt: &impl Abort, alloc: Global) -> Result<(), NoMemory> {
    let mut region = Vec::from_elem(alloc, 0u8, 2 * CHUNK)?;
    let (first, _second) = chains(rt, alloc, &mut region)?;
    assert!(rt; BufParcel::new(alloc, 7, usize::MAX).err() == Some(NoMemory));
    same(rt, "the buffers", first.len(), 8);
    let mut parcel = BufParcel::new(alloc, 7, 8)?;
    put_all(rt, &mut parcel, first);
    check_buffers(rt, parcel.buffers(), &[7, 6, 5, 4, 3, 2, 1, 0]);
    Ok(())
}

#[test]
fn nothing_is_lost_where_a_parcel_is_refused(rt: HostRuntime) {
    if pack_after_a_refusal(&rt, rt.alloc()).is_err() {
        assert!(rt; pack_after_a_refusal(&rt, rt.alloc()).is_ok());
    }
}

// What is printed of a parcel.
fn print(rt: &impl Abort, alloc: Global) -> Result<(), NoMemory> {
    let mut region = Vec::from_elem(alloc, 0u8, 2 * CHUNK)?;
    let (first, _second) = chains(rt, alloc, &mut region)?;
    let mut parcel = BufParcel::new(alloc, 7, 8)?;
    put_all(rt, &mut parcel, first);
    let text = format!(in alloc; "{parcel:?}")?;
    assert!(rt; text.as_str() == "BufParcel(8 buffers of 7)");
    Ok(())
}

#[test]
fn a_parcel_is_printed_without_its_buffers(rt: HostRuntime) {
    if print(&rt, rt.alloc()).is_err() {
        assert!(rt; print(&rt, rt.alloc()).is_ok());
    }
}

// A buffer of the chain goes in, of which so many bytes are filled.
fn put_filled<'r>(
    rt: &impl Abort,
    parcel: &mut BufParcel<'r>,
    chain: &mut Chain<'r>,
    filled: usize,
) {
    let mut buf = chain.pop().expect(rt, "a buffer");
    assert!(rt; filled <= buf.capacity());
    buf.set_len(filled);
    assert!(rt; parcel.push(buf).is_ok());
}

// So many bytes of its buffers are filled, from the first to the last.
fn has_filled(rt: &impl Abort, parcel: &BufParcel<'_>, want: &[usize]) {
    let mut want = want.iter();
    for buf in parcel.buffers() {
        assert_eq!(rt; want.next().copied(), Some(buf.len()));
    }
    assert!(rt; want.next().is_none());
}

// An empty parcel is alike in each class, and stays empty.
fn empty_no_buffer(rt: &impl Abort, alloc: Global) -> Result<(), NoMemory> {
    let of_512 = Class::new(15).expect(rt, "the class of 512 bytes");
    let mut parcel = BufParcel::new(alloc, 9, 2)?;
    assert!(rt; parcel.empty_alike(of_512) && parcel.empty_alike(Class::FIRST));
    assert!(rt; parcel.is_empty());
    Ok(())
}

#[test]
fn an_empty_parcel_is_alike_in_each_class(rt: HostRuntime) {
    if empty_no_buffer(&rt, rt.alloc()).is_err() {
        assert!(rt; empty_no_buffer(&rt, rt.alloc()).is_ok());
    }
}

// Some are filled, one of them wholly: then none is. Those of one class are not alike in another.
fn empty_all(rt: &impl Abort, alloc: Global) -> Result<(), NoMemory> {
    let of_512 = Class::new(15).expect(rt, "the class of 512 bytes");
    let of_16 = class_for(16).expect(rt, "a class of 16 bytes");
    let mut region = Vec::from_elem(alloc, 0u8, 2 * CHUNK)?;
    let (mut large, _small) = two_sizes(rt, alloc, &mut region)?;
    let mut parcel = BufParcel::new(alloc, 9, 3)?;
    put_filled(rt, &mut parcel, &mut large, 512);
    put_filled(rt, &mut parcel, &mut large, 0);
    put_filled(rt, &mut parcel, &mut large, 1);
    assert!(rt; !parcel.empty_alike(of_16));
    has_filled(rt, &parcel, &[512, 0, 1]);
    assert!(rt; parcel.empty_alike(of_512));
    has_filled(rt, &parcel, &[0, 0, 0]);
    same(rt, "the bytes of three", parcel.bytes_total(), 1536);
    check_buffers(rt, parcel.buffers(), &[7, 6, 5]);
    Ok(())
}

#[test]
fn all_are_emptied_where_all_are_of_the_class(rt: HostRuntime) {
    if empty_all(&rt, rt.alloc()).is_err() {
        assert!(rt; empty_all(&rt, rt.alloc()).is_ok());
    }
}

// The last is of another class, and then one behind it is of the class again: those before it are emptied.
fn empty_some(rt: &impl Abort, alloc: Global) -> Result<(), NoMemory> {
    let of_512 = Class::new(15).expect(rt, "the class of 512 bytes");
    let mut region = Vec::from_elem(alloc, 0u8, 2 * CHUNK)?;
    let (mut large, mut small) = two_sizes(rt, alloc, &mut region)?;
    let mut parcel = BufParcel::new(alloc, 9, 4)?;
    put_filled(rt, &mut parcel, &mut large, 512);
    put_filled(rt, &mut parcel, &mut large, 3);
    put_filled(rt, &mut parcel, &mut small, 16);
    assert!(rt; !parcel.empty_alike(of_512));
    has_filled(rt, &parcel, &[0, 0, 16]);
    put_filled(rt, &mut parcel, &mut large, 5);
    assert!(rt; !parcel.empty_alike(of_512));
    has_filled(rt, &parcel, &[0, 0, 16, 5]);
    Ok(())
}

#[test]
fn those_before_one_of_another_class_are_emptied(rt: HostRuntime) {
    if empty_some(&rt, rt.alloc()).is_err() {
        assert!(rt; empty_some(&rt, rt.alloc()).is_ok());
    }
}
