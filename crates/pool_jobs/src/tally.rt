//! What was counted.
ghost use Rattle.std.specs.Prelude.{◌≡◌, ◌+◌, MatchBool};
ghost use Rattle.pool_fabric.specs.Whole.{FreesNoMore};
ghost use Rattle.slot_chain.specs.Counts.{capped};
ghost use Rattle.pool_jobs.specs.Counted.{both, none_counted};
ghost use Rattle.pool_jobs.specs.Tallies.{AreCountsOf};

use pool_fabric::Found;
use slot_audit::Fault;

/// What a worker counts that its station doesn't tell. Each count stops at the greatest `u64`.
#[derive(Clone, Copy, Debug, PartialEq, Eq)]
pub struct WorkerCounts {
    /// How many calls that lend buffers answered with an error.
    pub starved: u64,
    /// The buffers that it dropped since its workload says so.
    pub dropped: u64,
}

impl WorkerCounts {
    /// Nothing was counted.
    pub fn none() -> WorkerCounts
        ensures { result ≡ none_counted }
    {
        WorkerCounts {
            starved: 0,
            dropped: 0,
        }
    }

    /// Counts a call of an allocator that gave no buffer.
    pub(crate) fn count(&mut self, is_given: bool)
        ensures { MatchBool is_given
            (self.new ≡ self.old)
            (self.new ≡ record self.old { starved = capped (self.old.starved + 1) }) }
    {
        if !is_given {
            self.starved = self.starved.saturating_add(1);
        }
    }

    /// Both counts, added up.
    pub fn plus(self, other: WorkerCounts) -> WorkerCounts
        ensures { result ≡ both self other }
    {
        WorkerCounts {
            starved: self.starved.saturating_add(other.starved),
            dropped: self.dropped.saturating_add(other.dropped),
        }
    }
}

/// What was counted of the buffers of a pool. What was lent, freed and lost is counted modulo 2^64.
#[derive(Clone, Copy, Debug, PartialEq, Eq)]
pub struct BufferCounts {
    /// The buffers that were lent.
    pub allocated: u64,
    /// The buffers that were freed, one by one or in parcels.
    pub freed: u64,
    /// How many calls of `alloc`, `fill` and those that wait answered with an error, `TooLarge` and
    /// `NoMemory` too. A `fill` that lent fewer than were asked for isn't one. It stops at the greatest
    /// `u64`, and is 0 after [`settle`](crate::settle), which doesn't know it.
    pub starved: u64,
    /// The buffers that were lent and not freed: they were dropped, or are still held. Their slots are
    /// missing.
    pub lost: u64,
}

impl BufferCounts {
    /// What was lent and freed, of all that was found.
    pub(crate) fn of(found: &Found<'_>) -> BufferCounts
        requires bounded { FreesNoMore found.now.lent found.now.freed }
        ensures counts { AreCountsOf found.now.lent found.now.freed result }
        ensures starved { result.starved ≡ 0 }
    {
        let (allocated, freed) = (found.lent.count(), found.freed.count());
        BufferCounts {
            allocated,
            freed,
            starved: 0,
            lost: allocated.wrapping_sub(freed),
        }
    }
}

/// What was counted, and what the audit says of all that was found when all workers had ended.
#[derive(Clone, Copy, Debug, PartialEq, Eq)]
pub struct Tally {
    /// What was counted of buffers.
    pub counts: BufferCounts,
    /// `Ok` where each slot of each drawn chunk was found once, and no other. Where buffers were dropped it
    /// names the least slot that is missing. It is no error of the run: a program asks for it.
    pub audit: Result<(), Fault>,
}
