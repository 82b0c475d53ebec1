//! The calls that take no memory, between two marks behind which `.ci/no_memory.py` refuses each
//! allocation. No clause says that a call takes none: a `push` that grows its array would meet all
//! of them.
ghost use Rattle.std.specs.Prelude.{◌≡◌, []};

use crate::tests::order::chains;
use crate::tests::same;
use memory_marks::{Mark, set};
use region_cut::CHUNK;
use slot_chain::{Buf, BufParcel, Chain, EmptyMagazine, Magazine, NoMemory, Portion, Stack};
use std::alloc::Global;
use std::process::Abort;

// Each buffer of one chain goes to the other, and all are appended to the first again.
fn move_all<'r>(rt: &impl Abort, first: &mut Chain<'r>, second: &mut Chain<'r>) {
    for _ in 0..8 {
        if let Some(buf) = first.pop() {
            second.push(buf);
        }
    }
    assert!(rt; first.is_empty());
    first.append(second);
    same(rt, "the slots of both", first.len(), 16);
    same(rt, "the bytes of both", first.bytes_total(), 8192);
    assert!(rt; first.walk().next().is_some() && second.is_empty());
}

fn chain(rt: &impl Abort, alloc: Global) -> Result<(), NoMemory> {
    let mut region = Vec::from_elem(alloc, 0u8, 2 * CHUNK)?;
    let (mut first, mut second) = chains(rt, alloc, &mut region)?;
    set(alloc, Mark::TakesNone);
    move_all(rt, &mut first, &mut second);
    drop(Chain::new());
    drop(first);
    set(alloc, Mark::MayTake);
    Ok(())
}

#[test]
fn a_chain_takes_none(rt: HostRuntime) {
    if chain(&rt, rt.alloc()).is_err() {
        assert!(rt; chain(&rt, rt.alloc()).is_ok());
    }
}

// As many go in as the parcel has places for, and the rest comes back.
fn pack<'r>(parcel: &mut BufParcel<'r>, chain: &mut Chain<'r>, back: &mut Chain<'r>) {
    for _ in 0..8 {
        let Some(buf) = chain.pop() else {
            return;
        };
        if let Err(buf) = parcel.push(buf) {
            back.push(buf);
        }
    }
}

fn unpack<'r>(parcel: &mut BufParcel<'r>, chain: &mut Chain<'r>) {
    for _ in 0..8 {
        if let Some(buf) = parcel.pop() {
            chain.push(buf);
        }
    }
}

// Five of eight have a place.
fn fill_parcel<'r>(
    rt: &impl Abort,
    mut parcel: BufParcel<'r>,
    mut chain: Chain<'r>,
) -> Vec<Buf<'r>> {
    let mut back = Chain::new();
    pack(&mut parcel, &mut chain, &mut back);
    same(rt, "those with a place", parcel.buffers().len() as u64, 5);
    same(rt, "those without", back.len(), 3);
    unpack(&mut parcel, &mut chain);
    pack(&mut parcel, &mut chain, &mut back);
    same(rt, "the bytes of five", parcel.bytes_total(), 2560);
    parcel.into_buffers()
}

fn parcel(rt: &impl Abort, alloc: Global) -> Result<(), NoMemory> {
    let mut region = Vec::from_elem(alloc, 0u8, 2 * CHUNK)?;
    let (first, _second) = chains(rt, alloc, &mut region)?;
    let parcel = BufParcel::new(alloc, 7, 5)?;
    set(alloc, Mark::TakesNone);
    let array = fill_parcel(rt, parcel, first);
    set(alloc, Mark::MayTake);
    same(rt, "the array's buffers", array.len() as u64, 5);
    Ok(())
}

#[test]
fn a_parcel_takes_none(rt: HostRuntime) {
    if parcel(&rt, rt.alloc()).is_err() {
        assert!(rt; parcel(&rt, rt.alloc()).is_ok());
    }
}

fn pour<'r>(from: &mut Magazine<'r>, to: &mut Magazine<'r>) {
    for _ in 0..8 {
        if let Some(buf) = from.pop() {
            to.push(buf);
        }
    }
}

// A list without an array and one with some are filled and emptied by turns.
fn fill_lists<'r>(rt: &impl Abort, chain: Chain<'r>, mut roomy: Magazine<'r>) {
    let mut linked = Magazine::new();
    for buf in chain {
        linked.push(buf);
    }
    pour(&mut linked, &mut roomy);
    let taken = roomy.take();
    same(rt, "the slots", taken.len(), 8);
    assert!(rt; roomy.is_empty() && roomy.pop_portion().is_none());
}

fn magazine(rt: &impl Abort, alloc: Global) -> Result<(), NoMemory> {
    let mut region = Vec::from_elem(alloc, 0u8, 2 * CHUNK)?;
    let (first, _second) = chains(rt, alloc, &mut region)?;
    let mut roomy = Magazine::new();
    roomy.make_room(alloc);
    set(alloc, Mark::TakesNone);
    fill_lists(rt, first, roomy);
    set(alloc, Mark::MayTake);
    Ok(())
}

#[test]
fn a_magazine_takes_none(rt: HostRuntime) {
    if magazine(&rt, rt.alloc()).is_err() {
        assert!(rt; magazine(&rt, rt.alloc()).is_ok());
    }
}

// Eight buffers are stored in a stack with five places, and come back.
fn stack_up<'r>(rt: &impl Abort, mut chain: Chain<'r>, mut stack: Stack<'r>) {
    for _ in 0..8 {
        if let Some(buf) = chain.pop() {
            stack.store(buf);
        }
    }
    same(rt, "the slots", stack.len(), 8);
    for _ in 0..8 {
        if let Some(buf) = stack.pop() {
            chain.push(buf);
        }
    }
    assert!(rt; stack.is_empty());
}

fn stack(rt: &impl Abort, alloc: Global) -> Result<(), NoMemory> {
    let mut region = Vec::from_elem(alloc, 0u8, 2 * CHUNK)?;
    let (first, _second) = chains(rt, alloc, &mut region)?;
    let mut roomy = Stack::new();
    roomy.make_room(alloc, 5);
    set(alloc, Mark::TakesNone);
    stack_up(rt, first, roomy);
    set(alloc, Mark::MayTake);
    Ok(())
}

#[test]
fn a_stack_takes_none(rt: HostRuntime) {
    if stack(&rt, rt.alloc()).is_err() {
        assert!(rt; stack(&rt, rt.alloc()).is_ok());
    }
}

// Two parcels, of which a list without room keeps none: their buffers are linked.
fn append_parcels<'r>(
    rt: &impl Abort,
    first: BufParcel<'r>,
    second: BufParcel<'r>,
    mut list: Magazine<'r>,
) {
    list.append(first);
    list.append(second);
    same(rt, "the slots of both", list.len(), 8);
}

fn packed<'r>(alloc: Global, chain: &mut Chain<'r>) -> Result<BufParcel<'r>, NoMemory> {
    let mut parcel = BufParcel::new(alloc, 7, 4)?;
    for _ in 0..4 {
        if let Some(buf) = chain.pop() {
            drop(parcel.push(buf));
        }
    }
    Ok(parcel)
}

fn append(rt: &impl Abort, alloc: Global) -> Result<(), NoMemory> {
    let mut region = Vec::from_elem(alloc, 0u8, 2 * CHUNK)?;
    let (mut chain, _second) = chains(rt, alloc, &mut region)?;
    let first = packed(alloc, &mut chain)?;
    let second = packed(alloc, &mut chain)?;
    set(alloc, Mark::TakesNone);
    append_parcels(rt, first, second, Magazine::new());
    set(alloc, Mark::MayTake);
    Ok(())
}

#[test]
fn appended_parcels_take_none(rt: HostRuntime) {
    if append(&rt, rt.alloc()).is_err() {
        assert!(rt; append(&rt, rt.alloc()).is_ok());
    }
}

// The array, whose eight buffers go to a chain.
fn unloaded<'r>(mut array: Vec<Buf<'r>>, chain: &mut Chain<'r>) -> Vec<Buf<'r>>
    ensures { result.items ≡ [] }
{
    for _ in 0..8 {
        if let Some(buf) = array.pop() {
            chain.push(buf);
        }
    }
    array.clear();
    array
}

// Empties a list, which has an array of its own and nothing else, and gives what is left of it. Where memory for that
// array was refused, its buffers are linked.
fn emptied<'r>(
    rt: &impl Abort,
    mut list: Magazine<'r>,
    chain: &mut Chain<'r>,
) -> Result<EmptyMagazine<'r>, NoMemory> {
    for _ in 0..2 {
        match list.pop_portion() {
            None => return Ok(list.into_empty()),
            Some(Portion::Array(array)) => list.put_back(unloaded(array, chain)),
            Some(Portion::Linked(_chain)) => return Err(NoMemory),
            Some(Portion::Whole(_parcel)) => assert!(rt; false, "no parcel came as a whole"),
        }
    }
    assert!(rt; false, "one array");
    Err(NoMemory)
}

// What a list had goes out with its buffers, comes back empty, and names buffers again, three times.
fn go_round<'r>(
    rt: &impl Abort,
    mut list: Magazine<'r>,
    mut chain: Chain<'r>,
) -> Result<(), NoMemory> {
    for _ in 0..3 {
        for _ in 0..8 {
            list.push(chain.pop().expect(rt, "a buffer"));
        }
        let sent = list.take();
        same(rt, "the buffers that go out", sent.len(), 8);
        list.reuse(emptied(rt, sent, &mut chain)?);
    }
    Ok(())
}

fn reuse(rt: &impl Abort, alloc: Global) -> Result<(), NoMemory> {
    let mut region = Vec::from_elem(alloc, 0u8, 2 * CHUNK)?;
    let (chain, mut second) = chains(rt, alloc, &mut region)?;
    let mut list = Magazine::new();
    list.push(second.pop().expect(rt, "a buffer"));
    let first = list.take();
    same(rt, "the one that shows what is wanted", first.len(), 1);
    list.make_room(alloc);
    set(alloc, Mark::TakesNone);
    let went_round = go_round(rt, list, chain);
    set(alloc, Mark::MayTake);
    went_round
}

#[test]
fn what_is_used_again_takes_none(rt: HostRuntime) {
    if reuse(&rt, rt.alloc()).is_err() {
        assert!(rt; reuse(&rt, rt.alloc()).is_ok());
    }
}
