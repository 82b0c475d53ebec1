//! Who is told of each call.

/// Called before and after each `alloc`, `fill`, `free` and `free_all` of a worker. What an `alloc` takes from
/// its inbox or draws lies between the two calls; what a free posts comes after them. A worker's calls
/// at one allocator are numbered from 1.
///
/// A gate may hold a worker back. The worker holds no lock while the gate is called.
pub trait Gate {
    /// Whether it wants to be told of calls. Where it doesn't, none is counted.
    fn is_told(&self) -> bool {
        true
    }

    /// The call comes next.
    fn before(&self, worker: u32, call: u64);

    /// The call was answered.
    fn after(&self, worker: u32, call: u64);
}

/// A gate that does nothing.
#[derive(Clone, Copy, Debug)]
pub struct NoGate;

impl Gate for NoGate {
    fn is_told(&self) -> bool {
        false
    }

    fn before(&self, _worker: u32, _call: u64) {}

    fn after(&self, _worker: u32, _call: u64) {}
}
