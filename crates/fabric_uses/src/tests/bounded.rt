//! A take goes on until it has handled 1,024 buffers; what is behind them stays in the inbox for the next.
ghost use Rattle.std.specs.Prelude.{◌≡◌};

use crate::lend_across;
use crate::tests::two_stations::{Held, Opened, Over, TwoStations, open_two, opening_of_two};
use pool_fabric::{MOST_HANDLED, Naming};
use region_cut::CHUNK;
use slot_chain::NoMemory;
use std::alloc::Global;
use std::marker::Brand;
use std::process::Abort;
use std::sync::Wait;

// The batches of a trial, each of so many buffers, and how many of them the takes have, one after the other.
#[derive(Clone, Copy)]
struct Trial {
    batches: [u64; 3],
    takes: [u32; 4],
}

// So many buffers of the first station are freed to the second, which posts them. Says whether there was memory.
fn sends<'r, J: Naming, R: Abort + Wait>(
    rt: &R,
    alloc: Global,
    fabric: &Over<'r, J>,
    first: &mut Held<'r, J>,
    second: &mut Held<'r, J>,
    buffers: u64,
) -> bool {
    for _ in 0..buffers {
        if !lend_across(rt, alloc, fabric, first, second, 16) {
            return false;
        }
    }
    second.post(rt, fabric)
}

fn sends_all<'r, J: Naming, R: Abort + Wait>(
    rt: &R,
    alloc: Global,
    fabric: &Over<'r, J>,
    first: &mut Held<'r, J>,
    second: &mut Held<'r, J>,
    batches: [u64; 3],
) -> bool {
    for buffers in batches {
        if !sends(rt, alloc, fabric, first, second, buffers) {
            return false;
        }
    }
    true
}

// The first station takes as often as numbers are told, and so many batches each time.
fn takes_each<'r, J: Naming, R: Abort + Wait>(
    rt: &R,
    fabric: &Over<'r, J>,
    first: &mut Held<'r, J>,
    takes: [u32; 4],
) {
    for taken in takes {
        assert_eq!(rt; first.take(rt, fabric), taken);
    }
}

// The trial at a fabric that `J` names. Says whether there was memory.
fn tried_at<'r, J: Naming, R: Abort + Wait>(
    rt: &R,
    alloc: Global,
    opening: Opened<'r>,
    trial: Trial,
) -> bool
    requires { J.names ≡ opening }
{
    let Some(opened) = open_two::<J, R>(rt, alloc, opening) else {
        return false;
    };
    let TwoStations {
        fabric,
        mut first,
        mut second,
    } = opened;
    if !sends_all(rt, alloc, &fabric, &mut first, &mut second, trial.batches) {
        return false;
    }
    takes_each(rt, &fabric, &mut first, trial.takes);
    true
}

// Five chunks have 1,280 buffers of 16 bytes.
fn five_chunks(alloc: Global) -> Result<Vec<u8>, NoMemory> {
    let region = Vec::from_elem(alloc, 0u8, 5 * CHUNK)?;
    Ok(region)
}

fn tried<R: Abort + Wait>(rt: &R, alloc: Global, trial: Trial) -> bool {
    let Ok(mut region) = five_chunks(alloc) else {
        return false;
    };
    match opening_of_two(alloc, &mut region) {
        None => false,
        Some(opening) => tried_at::<Brand, R>(rt, alloc, opening, trial),
    }
}

// Where memory was refused it is there the second time.
fn check<R: Abort + Wait>(rt: &R, alloc: Global, trial: Trial) {
    if !tried(rt, alloc, trial) {
        assert!(rt; tried(rt, alloc, trial));
    }
}

#[test]
fn short_batches_come_at_once(rt: HostRuntime) {
    let trial = Trial {
        batches: [1, 1, 1],
        takes: [3, 0, 0, 0],
    };
    check(&rt, rt.alloc(), trial);
}

#[test]
fn one_buffer_less_and_the_next_comes_too(rt: HostRuntime) {
    let trial = Trial {
        batches: [MOST_HANDLED - 1, 1, 1],
        takes: [2, 1, 0, 0],
    };
    check(&rt, rt.alloc(), trial);
}

#[test]
fn a_long_batch_comes_alone(rt: HostRuntime) {
    let trial = Trial {
        batches: [MOST_HANDLED, 1, 1],
        takes: [1, 2, 0, 0],
    };
    check(&rt, rt.alloc(), trial);
}
