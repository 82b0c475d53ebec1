//! Buffers that are dropped in several threads: the audit names the least of their slots.

ghost use Rattle.std.specs.Prelude.{◌≡◌};

use super::{BOTH, Ground, Inboxes, Outcome, outcome_of};
use pool_jobs::{Channels, Heap, PoolError, Task};
use region_cut::Slot;
use slot_audit::Fault;
use std::sync::Wait;
use std::test::Fail;
use std::time::Clock;

// A chunk has eight slots of this size.
const SIZE: usize = 512;

// Stages that begin one after the other, so that stage k draws chunk k. Each allocates two buffers, drops one of
// them and frees the other. The first stage drops its second one.
#[derive(Drop)]
struct Stage {
    number: usize,
    drops: bool,
}

impl Task for Stage {
    type Answer = Result<(), PoolError>;

    fn sends_to(&self, task: usize) -> bool {
        task == self.number.wrapping_add(1)
    }

    fn run<H: Heap, R: Wait + Clock>(
        self,
        rt: &R,
        heap: &mut H,
        channels: Channels<H::Buffer, H::Parcel>,
    ) -> Self::Answer {
        if let Some(message) = channels.receive(rt, heap) {
            message.free(rt, heap);
        }
        let first = heap.alloc(rt, SIZE)?;
        let second = heap.alloc(rt, SIZE)?;
        if !self.drops {
            heap.free(rt, first);
            heap.free(rt, second);
        } else if self.number == 0 {
            heap.free(rt, first);
            drop(second);
        } else {
            drop(first);
            heap.free(rt, second);
        }
        begin_next(rt, heap, &channels, self.number)
    }
}

// Hands a buffer to the next stage, if there is one, which frees it.
fn begin_next<H: Heap, R: Wait>(
    rt: &R,
    heap: &mut H,
    channels: &Channels<H::Buffer, H::Parcel>,
    number: usize,
) -> Result<(), PoolError> {
    let buffer = heap.alloc(rt, SIZE)?;
    if let Err(message) = channels.send_buffer(rt, heap, number.wrapping_add(1), buffer) {
        message.free(rt, heap);
    }
    Ok(())
}

// Four chunks for three stages.
fn ground(inboxes: Inboxes) -> Ground
    ensures { (result.chunks ≡ 4) × (result.desks ≡ 3) × (result.limit ≡ 0) }
{
    Ground {
        chunks: 4,
        desks: 3,
        width: 2,
        limit: 0,
        inboxes,
    }
}

#[test]
fn three_dropped_buffers_are_lost(rt: HostRuntime) -> Result<(), Fail> {
    for inboxes in BOTH {
        let mut stages = Vec::new(rt.alloc());
        for number in 0usize..3 {
            let drops = true;
            stages.push(Stage { number, drops })?;
        }
        let Outcome { answers, tally } = outcome_of(&rt, ground(inboxes), stages)?;
        assert!(rt; answers.as_slice() == [Some(Ok(())), Some(Ok(())), Some(Ok(()))].as_slice());
        assert!(rt; tally.counts.allocated == 9 && tally.counts.freed == 6);
        assert!(rt; tally.counts.lost == 3);
        let least = Slot { chunk: 0, index: 1 };
        assert!(rt; tally.audit == Err(Fault::Missing(least)));
    }
    Ok(())
}

#[test]
fn where_all_are_freed_none_is_lost(rt: HostRuntime) -> Result<(), Fail> {
    for inboxes in BOTH {
        let mut stages = Vec::new(rt.alloc());
        for number in 0usize..3 {
            let drops = false;
            stages.push(Stage { number, drops })?;
        }
        let Outcome { answers, tally } = outcome_of(&rt, ground(inboxes), stages)?;
        assert!(rt; answers.as_slice() == [Some(Ok(())), Some(Ok(())), Some(Ok(()))].as_slice());
        assert!(rt; tally.counts.allocated == 9 && tally.counts.freed == 9);
        assert!(rt; tally.counts.lost == 0 && tally.audit.is_ok());
    }
    Ok(())
}
