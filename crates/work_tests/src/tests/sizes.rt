//! A size is one more than the word that was drawn, by 512.

use super::{BOTH, Ground, Inboxes, ended_over};
use crate::Echo;
use pool_jobs::{NoGate, Plan, Workload};
use region_cut::CHUNK;
use std::sync::Wait;
use std::test::Fail;
use std::thread::Threads;
use std::time::Clock;

// The first and the last word of each class from 0 to 7, with the number of the class.
const SMALL: [(u32, u32); 16] = [
    (0, 0),
    (15, 0),
    (16, 1),
    (31, 1),
    (32, 2),
    (47, 2),
    (48, 3),
    (63, 3),
    (64, 4),
    (79, 4),
    (80, 5),
    (95, 5),
    (96, 6),
    (111, 6),
    (112, 7),
    (127, 7),
];

// Those of the classes from 8 to 15, and words above 511.
const LARGE: [(u32, u32); 19] = [
    (128, 8),
    (159, 8),
    (160, 9),
    (191, 9),
    (192, 10),
    (223, 10),
    (224, 11),
    (255, 11),
    (256, 12),
    (319, 12),
    (320, 13),
    (383, 13),
    (384, 14),
    (447, 14),
    (448, 15),
    (511, 15),
    (512, 0),
    (528, 1),
    (4_294_967_295, 15),
];

// The class of the one chunk that a worker draws whose one word is this, or none.
fn class_drawn<R: AllocGlobal + Threads + Wait + Clock + Sync>(
    rt: &R,
    inboxes: Inboxes,
    word: u32,
) -> Result<Option<u32>, Fail> {
    let ground = Ground {
        chunks: 1,
        desks: 1,
        width: 2,
        limit: 4_096,
        inboxes,
    };
    let plan = Plan {
        count: 1,
        rounds: 1,
        seed: word,
        drop_first: false,
    };
    let mut region = Vec::from_elem(rt.alloc(), 0u8, CHUNK)?;
    let prodcons = Workload::ProdCons;
    let ended = ended_over::<Echo, NoGate, R>(rt, &mut region, &NoGate, ground, prodcons, &plan)?;
    match ended.found.drawn.class_of(0) {
        Some(class) => Ok(Some(class.number())),
        None => Ok(None),
    }
}

// Refuses a worker that asks for 512 bytes each time, and one that asks for the word's number of bytes.
#[test]
fn small_words(rt: HostRuntime) -> Result<(), Fail> {
    for inboxes in BOTH {
        for (word, class) in SMALL {
            assert_eq!(rt; class_drawn(&rt, inboxes, word)?, Some(class));
        }
    }
    Ok(())
}

#[test]
fn large_words(rt: HostRuntime) -> Result<(), Fail> {
    for inboxes in BOTH {
        for (word, class) in LARGE {
            assert_eq!(rt; class_drawn(&rt, inboxes, word)?, Some(class));
        }
    }
    Ok(())
}
