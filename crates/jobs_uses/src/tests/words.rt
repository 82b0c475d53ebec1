//! The numbers and the texts of refusals.
use pool_jobs::{JobError, PoolError};
use std::alloc::Global;
use std::fmt::Display;
use std::process::Abort;

// How a value is printed, also where memory for that is refused once.
fn is_printed(rt: &impl Abort, alloc: Global, value: &impl Display, text: &str) {
    let printed = match format!(in alloc; "{value}") {
        Ok(printed) => printed,
        Err(_) => format!(in alloc; "{value}").expect(rt, "memory is there again"),
    };
    assert!(rt; printed.as_str() == text, "{text}");
}

#[test]
fn an_allocator_says_why_there_is_no_buffer(rt: HostRuntime) {
    for (error, number, text) in [
        (PoolError::TooLarge, 1, "no size class has as many bytes"),
        (
            PoolError::UsedUp,
            2,
            "the pool has no slot of this size left",
        ),
        (PoolError::NoMemory, 3, "no memory for a slot's first use"),
        (
            PoolError::NoChunk,
            4,
            "every chunk is drawn, and none for this size",
        ),
    ] {
        assert_eq!(rt; error.number(), number);
        is_printed(&rt, rt.alloc(), &error, text);
    }
}

#[test]
fn workers_say_why_there_is_no_tally(rt: HostRuntime) {
    for (error, number, text) in [
        (JobError::NoMemory, 1, "no memory for the run"),
        (JobError::NoThread, 2, "a thread couldn't be started"),
    ] {
        assert_eq!(rt; error.number(), number);
        is_printed(&rt, rt.alloc(), &error, text);
    }
}
