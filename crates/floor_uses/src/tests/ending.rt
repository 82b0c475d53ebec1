//! A floor's end: the region is whole again, and holds what it held.
use super::{bytes_of, digits_of, pool};
use crate::{Life, leaves_as_it_was, lives};
use digit_route::Digits;
use event_floor::Request;
use region_cut::CHUNK;
use std::alloc::Global;
use std::process::Abort;

/// How many bytes the region has: three chunks and a tail.
const LENGTH: usize = 3 * CHUNK + 5;

/// Buffers are lent, at home and in a cache in the end, and a batch waits.
const REQUESTS: [Request; 12] = [
    Request::Adopt(0, 1),
    Request::Adopt(1, 2),
    Request::Claim(0, 2),
    Request::Claim(1, 15),
    Request::Alloc(0, 48),
    Request::Alloc(0, 40),
    Request::Alloc(0, 33),
    Request::Alloc(1, 512),
    Request::Free(0, (0, 0)),
    Request::Free(1, (0, 1)),
    Request::Free(0, (1, 0)),
    Request::Send(1, 0),
];

/// The byte of a place. 251 is prime, so two neighbours differ, and so do the same places of two slots and of two
/// chunks.
fn byte_at(place: usize) -> u8 {
    (place % 251) as u8
}

fn write_all(region: &mut [u8]) {
    for place in 0..region.len() {
        region[place] = byte_at(place);
    }
}

fn are_all(rt: &impl Abort, region: &[u8]) {
    for place in 0..region.len() {
        assert!(rt; region[place] == byte_at(place), "at {place}");
    }
}

// Whether the floor lived, and did all that was asked of it.
fn lived(rt: &impl Abort, alloc: Global, region: &mut [u8], digits: Digits) -> bool {
    assert!(rt; 2 <= 1 << digits.profile().bits());
    let Ok(requests) = Vec::from_array(alloc, REQUESTS) else {
        return false;
    };
    let life = Life {
        desks: 2,
        digits,
        requests,
    };
    let (answers, _endings) = lives(alloc, region, life);
    match answers {
        Some(answers) => answers.iter().all(|answer| answer.is_ok()),
        None => false,
    }
}

fn passes(rt: &impl Abort, alloc: Global, region: &mut [u8], digits: Digits) {
    assert!(rt; 2 <= 1 << digits.profile().bits());
    if let Ok(requests) = Vec::from_array(alloc, REQUESTS) {
        let life = Life {
            desks: 2,
            digits,
            requests,
        };
        leaves_as_it_was(alloc, region, life);
    }
}

// Where memory was refused, the next floor lives to its end.
#[test]
fn a_floor_lives_and_the_region_is_as_it_was(rt: HostRuntime) {
    let digits = digits_of(&rt, pool(2, 3, 2));
    let mut region = bytes_of(&rt, rt.alloc(), LENGTH, 0);
    write_all(&mut region);
    if !lived(&rt, rt.alloc(), &mut region, digits) {
        are_all(&rt, &region);
        assert!(rt; lived(&rt, rt.alloc(), &mut region, digits));
    }
    are_all(&rt, &region);
}

#[test]
fn a_region_goes_on_as_it_was(rt: HostRuntime) {
    let digits = digits_of(&rt, pool(2, 3, 2));
    let mut region = bytes_of(&rt, rt.alloc(), LENGTH, 0);
    write_all(&mut region);
    passes(&rt, rt.alloc(), &mut region, digits);
    are_all(&rt, &region);
}
