//! A row of batches as the sink of a posting.
ghost use Rattle.std.specs.Prelude.{◌≡◌, ◌≤◌, [], vec_len, vec_capacity, IfOk};

use digit_route::{Batch, BatchSink};
use slot_chain::NoMemory;
use std::alloc::Global;

/// Batches that were posted. It takes no memory after it was made, and refuses a batch where it is
/// full.
#[derive(Drop)]
pub struct BatchRow<'r> {
    pub batches: Vec<Batch<'r>>,
}

impl<'r> BatchRow<'r> {
    /// A row with room for `room` batches.
    pub fn new(alloc: Global, room: usize) -> Result<BatchRow<'r>, NoMemory>
        ensures empty { IfOk result (λ s. s.batches.items ≡ []) }
        ensures room { IfOk result (λ s. vec_capacity s.batches ≡ room) }
    {
        let batches = Vec::with_capacity(alloc, room)?;
        Ok(BatchRow { batches })
    }
}

impl<'r> BatchSink<'r> for BatchRow<'r> {
    ghost given = { λ s. s.batches.items };

    ghost refuses = { λ s b. vec_capacity s.batches ≤ vec_len s.batches };

    fn give(&mut self, batch: Batch<'r>) -> Result<(), Batch<'r>> {
        if self.batches.len() >= self.batches.capacity() {
            return Err(batch);
        }
        match self.batches.push(batch) {
            Ok(()) => Ok(()),
            Err(_) => unreachable!(),
        }
    }
}
