//! The words of refusals, and how caches, batches and postings are printed.
use crate::tests::samples::{empty, filled_in, same, take};
use digit_route::{Cache, RouteError};
use slot_chain::NoMemory;
use std::alloc::Global;
use std::fmt::Debug;
use std::process::Abort;

// How a value is printed, also where memory for that is refused once.
fn check_debug(rt: &impl Abort, alloc: Global, value: &impl Debug, words: &str) {
    let text = match format!(in alloc; "{value:?}") {
        Ok(text) => text,
        Err(_) => format!(in alloc; "{value:?}").expect(rt, "memory is there again"),
    };
    assert!(rt; text.as_str() == words);
}

fn check_printed(rt: &impl Abort, alloc: Global, mut cache: Cache<'_>) {
    check_debug(rt, alloc, &cache, "Cache(of 0, 32 bytes)");
    let batch = take(rt, &mut cache, 1, 2);
    check_debug(rt, alloc, &batch, "Batch(from 0 to 1)");
    check_debug(rt, alloc, &cache.posting(), "Posting(round 0)");
}

fn print(rt: &impl Abort, alloc: Global) -> Result<(), NoMemory> {
    let mut region = Vec::from_elem(alloc, 0u8, 4096)?;
    let cache = filled_in(rt, alloc, &mut region, 0, 2, &[1, 1])?;
    check_printed(rt, alloc, cache);
    Ok(())
}

#[test]
fn are_printed_without_their_buffers(rt: HostRuntime) {
    check_debug(&rt, rt.alloc(), &empty(&rt, 2, 63), "Cache(of 63, 0 bytes)");
    if print(&rt, rt.alloc()).is_err() {
        assert!(rt; print(&rt, rt.alloc()).is_ok());
    }
}

// Number and words, also where memory for the words is refused once.
fn check(rt: &impl Abort, alloc: Global, error: RouteError, number: u32, words: &str) {
    same(
        rt,
        "the number",
        u64::from(error.number()),
        u64::from(number),
    );
    let text = match format!(in alloc; "{error}") {
        Ok(text) => text,
        Err(_) => format!(in alloc; "{error}").expect(rt, "memory is there again"),
    };
    assert!(rt; text.as_str() == words);
}

#[test]
fn have_numbers_and_words(rt: HostRuntime) {
    let rows = [
        (RouteError::ToSelf, 1, "a desk sends no batch to itself"),
        (
            RouteError::NothingFor,
            2,
            "no cached buffer goes to that desk",
        ),
        (
            RouteError::NotAnOwner,
            3,
            "that desk owns none of the buffers that would go to it",
        ),
    ];
    for (error, number, words) in rows {
        check(&rt, rt.alloc(), error, number, words);
    }
}
