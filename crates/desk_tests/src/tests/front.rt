//! What a desk's buffer was filled with stands in front of the region, and every other byte is as it
//! was.
use super::bytes_of;
use desk_uses::{fills_front, lend_by_hand};
use pool_desk::Freed;
use region_cut::CHUNK;
use std::alloc::Global;
use std::process::Abort;

// No byte of the region is this one before.
const FILL: u8 = 255;

// What stands at the place before: another byte than at the places beside it.
fn before(place: usize) -> u8 {
    (place % 251) as u8
}

fn holds(rt: &impl Abort, region: &[u8], filled: usize) {
    assert!(rt; region.len() == CHUNK);
    for place in 0..CHUNK {
        let want = if place < filled { FILL } else { before(place) };
        match region.get(place) {
            Some(byte) => assert!(rt; *byte == want, "byte {place}"),
            None => panic!(rt; "no byte {place}"),
        }
    }
}

// Whether there was memory. Where there was none, no byte is another.
fn fills(rt: &impl Abort, alloc: Global, region: &mut [u8]) -> bool {
    assert!(rt; region.len() == CHUNK);
    let is_filled = fills_front(alloc, region, FILL);
    holds(rt, region, if is_filled { 16 } else { 0 });
    is_filled
}

#[test]
fn a_buffer_fills_the_front_and_nothing_else(rt: HostRuntime) {
    let alloc = rt.alloc();
    let mut region = bytes_of(&rt, alloc, CHUNK, 0);
    for (place, byte) in region.iter_mut().enumerate() {
        *byte = before(place);
    }
    if !fills(&rt, alloc, &mut region) {
        assert!(&rt; fills(&rt, alloc, &mut region));
    }
}

#[test]
fn a_buffer_is_lent_by_hand_and_goes_home(rt: HostRuntime) {
    let alloc = rt.alloc();
    let mut region = bytes_of(&rt, alloc, CHUNK, 0);
    if lend_by_hand(alloc, &mut region).is_none() {
        assert!(&rt; lend_by_hand(alloc, &mut region) == Some(Freed::Home));
    }
    assert!(&rt; region.first() == Some(&1));
    assert!(&rt; lend_by_hand(alloc, &mut region[1..]).is_none());
}
