//! Parcels in lists for other threads: kept as they came where there is room for them, and put buffer by buffer where
//! there is none. Slots are those of one chunk of 256, and are put from the last to the first.
use crate::tests::{filled, same};
use chain_uses::mark;
use region_cut::endings::Endings;
use region_cut::{CHUNK, Slot, class_for};
use slot_chain::{BufParcel, Chain, Magazine, NoMemory, Parcels, Portion, Stack};
use std::alloc::Global;
use std::process::Abort;

// The places of a parcel, more than it has buffers: that its array is the same is seen by them.
const PLACES: usize = 50;

// Whose buffers they all are.
const OWNER: u16 = 1;

// The 256 buffers of a region of one chunk, on top the last.
fn chunk<'r>(rt: &impl Abort, alloc: Global, region: &'r mut [u8]) -> Result<Chain<'r>, NoMemory> {
    let class = class_for(16).expect(rt, "a class of 16 bytes");
    filled(alloc, region, class, OWNER)
}

// A parcel of so many buffers from the top of the chain. One that found no place in it would be answered as no memory.
fn parcel_of<'r>(
    alloc: Global,
    chain: &mut Chain<'r>,
    count: u32,
) -> Result<BufParcel<'r>, NoMemory> {
    let mut parcel = BufParcel::new(alloc, OWNER, PLACES)?;
    for _ in 0..count {
        if let Some(buf) = chain.pop() {
            if parcel.push(buf).is_err() {
                return Err(NoMemory);
            }
        }
    }
    Ok(parcel)
}

fn put_some<'r>(rt: &impl Abort, list: &mut Magazine<'r>, chain: &mut Chain<'r>, count: u32) {
    for _ in 0..count {
        list.push(chain.pop().expect(rt, "a buffer"));
    }
}

// An empty list with room for 16 parcels, and for the pointers to 16 buffers: what found no place came out of it.
fn roomy<'r>(
    rt: &impl Abort,
    alloc: Global,
    chain: &mut Chain<'r>,
) -> Result<Magazine<'r>, NoMemory> {
    let mut list = Magazine::new();
    list.append(parcel_of(alloc, chain, 1)?);
    same(rt, "the one that comes out", list.take().len(), 1);
    list.make_room(alloc);
    Ok(list)
}

// The list has the slots from the one index up to below the other, each once, and no others.
fn has_each(
    rt: &impl Abort,
    alloc: Global,
    list: &Magazine<'_>,
    first: u16,
    end: u16,
) -> Result<(), NoMemory> {
    let count = u64::from(end.saturating_sub(first));
    same(rt, "the buffers", list.len(), count);
    same(rt, "the bytes", list.bytes_total(), count.wrapping_mul(16));
    let mut slots = Vec::new(alloc);
    list.list_slots(&mut slots)?;
    same(rt, "the slots", slots.len() as u64, count);
    for index in first..end {
        assert!(rt; slots.contains(&Slot { chunk: 0, index }), "{index}");
    }
    Ok(())
}

// Their slots come from the one index up to below the other.
fn gives(rt: &impl Abort, list: &mut Magazine<'_>, first: u16, end: u16) {
    for index in first..end {
        let buf = list.pop().expect(rt, "a buffer");
        assert_eq!(rt; buf.slot(), Slot { chunk: 0, index });
    }
}

// All buffers are linked, and their slots come from the one index up to below the other.
fn gives_linked(rt: &impl Abort, list: &mut Magazine<'_>, first: u16, end: u16) {
    let Some(Portion::Linked(mut chain)) = list.pop_portion() else {
        assert!(rt; false, "linked buffers");
        return;
    };
    for index in first..end {
        let buf = chain.pop().expect(rt, "a buffer");
        assert_eq!(rt; buf.slot(), Slot { chunk: 0, index });
    }
    assert!(rt; chain.is_empty());
}

// The array that came last is one of a parcel that `parcel_of` made, of buffers with these indices. Where none comes,
// or one that was made for buffers that come one by one, memory for room was refused.
fn gives_array(rt: &impl Abort, list: &mut Magazine<'_>, want: &[u16]) -> Result<(), NoMemory> {
    let array = list
        .pop_portion()
        .and_then(Portion::into_array)
        .ok_or(NoMemory)?;
    if array.capacity() < PLACES {
        return Err(NoMemory);
    }
    let mut want = want.iter();
    for buf in array {
        assert_eq!(rt; want.next().copied(), Some(buf.slot().index));
    }
    assert!(rt; want.next().is_none());
    Ok(())
}

fn gives_none(rt: &impl Abort, list: &mut Magazine<'_>) {
    assert!(rt; list.is_empty());
    assert!(rt; list.pop_portion().is_none());
    assert!(rt; list.pop().is_none());
    same(rt, "no buffers", list.len(), 0);
}

fn append_without_room(rt: &impl Abort, alloc: Global) -> Result<(), NoMemory> {
    let mut region = Vec::from_elem(alloc, 0u8, CHUNK)?;
    let mut chain = chunk(rt, alloc, &mut region)?;
    let mut list = Magazine::new();
    list.append(parcel_of(alloc, &mut chain, 3)?);
    list.append(parcel_of(alloc, &mut chain, 2)?);
    has_each(rt, alloc, &list, 251, 256)?;
    gives_linked(rt, &mut list, 251, 256);
    gives_none(rt, &mut list);
    Ok(())
}

#[test]
fn without_room_a_parcel_is_put_buffer_by_buffer(rt: HostRuntime) {
    if append_without_room(&rt, rt.alloc()).is_err() {
        assert!(rt; append_without_room(&rt, rt.alloc()).is_ok());
    }
}

// Without room at first, then taken out, and with room.
fn append_with_room(rt: &impl Abort, alloc: Global) -> Result<(), NoMemory> {
    let mut region = Vec::from_elem(alloc, 0u8, CHUNK)?;
    let mut chain = chunk(rt, alloc, &mut region)?;
    let mut list = roomy(rt, alloc, &mut chain)?;
    list.append(parcel_of(alloc, &mut chain, 3)?);
    list.append(parcel_of(alloc, &mut chain, 2)?);
    has_each(rt, alloc, &list, 250, 255)?;
    gives_array(rt, &mut list, &[251, 250])?;
    has_each(rt, alloc, &list, 252, 255)?;
    gives_array(rt, &mut list, &[254, 253, 252])?;
    gives_none(rt, &mut list);
    Ok(())
}

#[test]
fn with_room_a_parcel_comes_back_as_it_was(rt: HostRuntime) {
    if append_with_room(&rt, rt.alloc()).is_err() {
        assert!(rt; append_with_room(&rt, rt.alloc()).is_ok());
    }
}

// A walk shows the slots from the one index up to below the other, and then no more.
fn shows(rt: &impl Abort, list: &Magazine<'_>, first: u16, end: u16) {
    let mut walk = list.walk();
    for index in first..end {
        let tag = walk.next().expect(rt, "a buffer");
        assert_eq!(rt; tag.slot, Slot { chunk: 0, index });
    }
    assert!(rt; walk.next().is_none());
}

// Two parcels, and then twenty buffers: four more than the array of those that come one by one has places for.
fn walk_over_all(rt: &impl Abort, alloc: Global) -> Result<(), NoMemory> {
    let mut region = Vec::from_elem(alloc, 0u8, CHUNK)?;
    let mut chain = chunk(rt, alloc, &mut region)?;
    let mut list = roomy(rt, alloc, &mut chain)?;
    list.append(parcel_of(alloc, &mut chain, 3)?);
    list.append(parcel_of(alloc, &mut chain, 2)?);
    shows(rt, &list, 250, 255);
    put_some(rt, &mut list, &mut chain, 16);
    shows(rt, &list, 234, 255);
    put_some(rt, &mut list, &mut chain, 4);
    shows(rt, &list, 230, 255);
    has_each(rt, alloc, &list, 230, 255)
}

#[test]
fn a_walk_goes_over_what_is_linked_and_all_parcels(rt: HostRuntime) {
    if walk_over_all(&rt, rt.alloc()).is_err() {
        assert!(rt; walk_over_all(&rt, rt.alloc()).is_ok());
    }
}

// A parcel also comes behind buffers that came one by one.
fn append_between(rt: &impl Abort, alloc: Global) -> Result<(), NoMemory> {
    let mut region = Vec::from_elem(alloc, 0u8, CHUNK)?;
    let mut chain = chunk(rt, alloc, &mut region)?;
    let mut list = roomy(rt, alloc, &mut chain)?;
    put_some(rt, &mut list, &mut chain, 20);
    list.append(parcel_of(alloc, &mut chain, 3)?);
    put_some(rt, &mut list, &mut chain, 2);
    list.append(parcel_of(alloc, &mut chain, 5)?);
    has_each(rt, alloc, &list, 225, 255)
}

#[test]
fn parcels_and_single_buffers_are_all_there(rt: HostRuntime) {
    if append_between(&rt, rt.alloc()).is_err() {
        assert!(rt; append_between(&rt, rt.alloc()).is_ok());
    }
}

fn pop_all(rt: &impl Abort, alloc: Global) -> Result<(), NoMemory> {
    let mut region = Vec::from_elem(alloc, 0u8, CHUNK)?;
    let mut chain = chunk(rt, alloc, &mut region)?;
    let mut list = roomy(rt, alloc, &mut chain)?;
    list.append(parcel_of(alloc, &mut chain, 3)?);
    list.append(parcel_of(alloc, &mut chain, 2)?);
    put_some(rt, &mut list, &mut chain, 20);
    gives(rt, &mut list, 230, 251);
    has_each(rt, alloc, &list, 251, 255)?;
    gives(rt, &mut list, 251, 255);
    gives_none(rt, &mut list);
    Ok(())
}

#[test]
fn buffers_are_taken_one_by_one_out_of_parcels(rt: HostRuntime) {
    if pop_all(&rt, rt.alloc()).is_err() {
        assert!(rt; pop_all(&rt, rt.alloc()).is_ok());
    }
}

// The last buffer of the last parcel is taken, and the next is put in its place.
fn pop_and_put(rt: &impl Abort, alloc: Global) -> Result<(), NoMemory> {
    let mut region = Vec::from_elem(alloc, 0u8, CHUNK)?;
    let mut chain = chunk(rt, alloc, &mut region)?;
    let mut list = roomy(rt, alloc, &mut chain)?;
    list.append(parcel_of(alloc, &mut chain, 3)?);
    list.append(parcel_of(alloc, &mut chain, 2)?);
    gives(rt, &mut list, 250, 251);
    put_some(rt, &mut list, &mut chain, 1);
    gives_array(rt, &mut list, &[251, 249])?;
    gives_array(rt, &mut list, &[254, 253, 252])?;
    gives_none(rt, &mut list);
    Ok(())
}

#[test]
fn what_is_left_of_a_parcel_comes_as_one_array(rt: HostRuntime) {
    if pop_and_put(&rt, rt.alloc()).is_err() {
        assert!(rt; pop_and_put(&rt, rt.alloc()).is_ok());
    }
}

// Seventeen parcels of two buffers.
fn append_many<'r>(
    alloc: Global,
    list: &mut Magazine<'r>,
    chain: &mut Chain<'r>,
) -> Result<(), NoMemory> {
    for _ in 0..17 {
        list.append(parcel_of(alloc, chain, 2)?);
    }
    Ok(())
}

// The arrays of seventeen parcels come out, and no more. Where none comes, memory for room was refused.
fn gives_many(rt: &impl Abort, list: &mut Magazine<'_>) -> Result<(), NoMemory> {
    for _ in 0..17 {
        let array = list
            .pop_portion()
            .and_then(Portion::into_array)
            .ok_or(NoMemory)?;
        same(rt, "the buffers of an array", array.len() as u64, 2);
    }
    gives_none(rt, list);
    Ok(())
}

// There is room for sixteen, and then for all.
fn append_more(rt: &impl Abort, alloc: Global) -> Result<(), NoMemory> {
    let mut region = Vec::from_elem(alloc, 0u8, CHUNK)?;
    let mut chain = chunk(rt, alloc, &mut region)?;
    let mut list = roomy(rt, alloc, &mut chain)?;
    append_many(alloc, &mut list, &mut chain)?;
    has_each(rt, alloc, &list, 221, 255)?;
    has_each(rt, alloc, &list.take(), 221, 255)?;
    list.make_room(alloc);
    append_many(alloc, &mut list, &mut chain)?;
    has_each(rt, alloc, &list, 187, 221)?;
    gives_many(rt, &mut list)
}

#[test]
fn a_parcel_too_many_is_put_and_the_next_time_there_is_room(rt: HostRuntime) {
    if append_more(&rt, rt.alloc()).is_err() {
        assert!(rt; append_more(&rt, rt.alloc()).is_ok());
    }
}

// No buffer, so none comes out.
fn append_nothing(rt: &impl Abort, alloc: Global) -> Result<(), NoMemory> {
    let mut region = Vec::from_elem(alloc, 0u8, CHUNK)?;
    let mut chain = chunk(rt, alloc, &mut region)?;
    let mut list = Magazine::new();
    list.append(parcel_of(alloc, &mut chain, 0)?);
    gives_none(rt, &mut list);
    let mut list = roomy(rt, alloc, &mut chain)?;
    list.append(parcel_of(alloc, &mut chain, 0)?);
    gives_none(rt, &mut list);
    list.append(parcel_of(alloc, &mut chain, 2)?);
    list.append(parcel_of(alloc, &mut chain, 0)?);
    has_each(rt, alloc, &list, 253, 255)?;
    gives_array(rt, &mut list, &[254, 253])?;
    gives_none(rt, &mut list);
    Ok(())
}

#[test]
fn an_empty_parcel_changes_nothing(rt: HostRuntime) {
    if append_nothing(&rt, rt.alloc()).is_err() {
        assert!(rt; append_nothing(&rt, rt.alloc()).is_ok());
    }
}

// Writes the first byte of each buffer. The order of the buffers turns round.
fn marked<'r>(chain: Chain<'r>, byte: u8) -> Chain<'r> {
    let mut written = Chain::new();
    for buf in chain {
        let mut buf = buf;
        mark(&mut buf, byte);
        written.push(buf);
    }
    written
}

// All buffers are written, some then let go with a list, and the others dropped.
fn end_all(rt: &impl Abort, alloc: Global, region: &mut [u8]) -> Result<(), NoMemory> {
    let mut chain = marked(chunk(rt, alloc, region)?, 9);
    let mut list = roomy(rt, alloc, &mut chain)?;
    list.append(parcel_of(alloc, &mut chain, 3)?);
    put_some(rt, &mut list, &mut chain, 20);
    list.append(parcel_of(alloc, &mut chain, 2)?);
    let mut endings = Endings::new();
    list.end(&mut endings);
    endings.agree();
    Ok(())
}

fn end_and_look(rt: &impl Abort, alloc: Global) -> Result<(), NoMemory> {
    let mut region = Vec::from_elem(alloc, 0u8, CHUNK)?;
    end_all(rt, alloc, &mut region)?;
    for (at, byte) in region.iter().copied().enumerate() {
        assert!(rt; byte == if at % 16 == 0 { 9 } else { 0 }, "byte {at}");
    }
    Ok(())
}

#[test]
fn a_list_is_ended_with_its_parcels(rt: HostRuntime) {
    if end_and_look(&rt, rt.alloc()).is_err() {
        assert!(rt; end_and_look(&rt, rt.alloc()).is_ok());
    }
}

// Puts so many buffers of the chain as a parcel, or hands it back.
fn put_whole<'r>(
    rt: &impl Abort,
    alloc: Global,
    parcels: &mut Parcels<'r>,
    chain: &mut Chain<'r>,
    count: u32,
) -> Result<Option<BufParcel<'r>>, NoMemory> {
    let parcel = parcel_of(alloc, chain, count)?;
    assert!(rt; !parcel.is_empty());
    Ok(parcels.put(parcel))
}

// Two parcels find a place where there is room for two, and a third comes back. The last comes out for so many places
// and buffers alone.
fn depot(rt: &impl Abort, alloc: Global) -> Result<(), NoMemory> {
    let mut region = Vec::from_elem(alloc, 0u8, CHUNK)?;
    let mut chain = chunk(rt, alloc, &mut region)?;
    let mut parcels = Parcels::new();
    let back = put_whole(rt, alloc, &mut parcels, &mut chain, 1)?;
    same(
        rt,
        "the one without room",
        back.ok_or(NoMemory)?.len() as u64,
        1,
    );
    assert!(rt; parcels.is_empty());
    if !parcels.make_room(alloc, 2) {
        same(rt, "the room that was refused", parcels.places() as u64, 0);
        return Err(NoMemory);
    }
    assert!(rt; put_whole(rt, alloc, &mut parcels, &mut chain, 3)?.is_none());
    assert!(rt; put_whole(rt, alloc, &mut parcels, &mut chain, 2)?.is_none());
    assert!(rt; !parcels.has_room() && parcels.len() == 5 && parcels.places() == 2);
    assert!(rt; parcels.take_fitting(1, PLACES).is_none());
    assert!(rt; parcels.take_fitting(2, PLACES + 1).is_none());
    let last = parcels.take_fitting(2, PLACES).expect(rt, "the last one");
    same(rt, "its buffers", last.len() as u64, 2);
    same(rt, "its owner", u64::from(last.owner()), u64::from(OWNER));
    let mut slots = Vec::new(alloc);
    Stack::new().list_slots_with(&parcels, &mut slots)?;
    same(rt, "those left", slots.len() as u64, 3);
    let mut endings = Endings::new();
    parcels.end(&mut endings);
    Ok(())
}

#[test]
fn a_depot_has_so_many_places(rt: HostRuntime) {
    if depot(&rt, rt.alloc()).is_err() {
        assert!(rt; depot(&rt, rt.alloc()).is_ok());
    }
}
