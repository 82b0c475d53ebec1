//! Marks that a test sets for `.ci/no_memory.py`.
//!
//! A mark is an allocation of a size that nothing else asks for. The small library that the script
//! puts before the C library's knows these sizes, and refuses them. Without it a mark is a vector that
//! is made and dropped.
#![tactic(auto)]

use std::alloc::Global;

/// What holds from a mark on. The sizes are the greatest primes below 2 to the power of 16, and
/// stand in `.ci/no_memory.py` too.
#[derive(Clone, Copy)]
pub enum Mark {
    /// Each allocation is refused and counted, and the test fails for it.
    TakesNone,
    /// Allocations are answered again.
    MayTake,
    /// The blocks that are lent are counted.
    Lent,
    /// As many blocks have to be lent as at the last mark `Lent`.
    GivenBack,
    /// From one such mark to the next is a window, in which allocations and frees are counted.
    Window,
}

impl Mark {
    fn bytes(self) -> usize {
        match self {
            Mark::TakesNone => 65_521,
            Mark::MayTake => 65_519,
            Mark::Lent => 65_497,
            Mark::GivenBack => 65_479,
            Mark::Window => 65_449,
        }
    }
}

/// Sets a mark.
pub fn set(alloc: Global, what: Mark) {
    drop(asked(alloc, what.bytes()));
}

// Not inlined: a compiler that sees the vector made and dropped may leave both out.
#[inline(never)]
fn asked(alloc: Global, bytes: usize) -> Option<Vec<u8>> {
    Vec::with_capacity(alloc, bytes).ok()
}
