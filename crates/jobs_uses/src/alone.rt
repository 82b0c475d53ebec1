//! One worker, alone.
ghost use Rattle.std.specs.Prelude.{◌≡◌, IfOk};
ghost use Rattle.pool_jobs.specs.Ends.{IsAccounted};

use batch_inbox::{Inbox, SendSeat, TakeSeat};
use pool_fabric::{Fabric, HeldStation, Naming, Opening};
use pool_jobs::{Allocator, Entrance, JobError, NoGate, WorkReport, settle};
use std::alloc::{AllocError, Global};
use std::marker::Brand;
use std::sync::Wait;

type Alone<'a, 'r, J> = Allocator<'a, 'r, Inbox<'r>, TakeSeat<'r>, SendSeat<'r>, NoGate, J>;

/// What a worker leaves: its station where that doesn't go back on the shelf, and how often no buffer was
/// to be had.
#[derive(Drop)]
struct Left<'r, J: Naming> {
    held: Vec<HeldStation<'r, TakeSeat<'r>, SendSeat<'r>, J>>,
    starved: u64,
}

// Allocates a buffer, writes each byte and frees it, so often. Says how often there was none.
fn allocate_some<'a, 'r, J: Naming, R: Wait>(
    rt: &R,
    allocator: &mut Alone<'a, 'r, J>,
    count: u32,
    size: usize,
) -> u64 {
    let mut starved = 0u64;
    for _i in 0..count {
        match allocator.alloc(rt, size) {
            Ok(buffer) => {
                let mut buffer = buffer;
                buffer.fill(1);
                allocator.free(rt, buffer);
            }
            Err(_) => starved = starved.saturating_add(1),
        }
    }
    starved
}

// Takes up an allocator, works, and retires.
fn at_work<'a, 'r, J: Naming, R: Wait>(
    rt: &R,
    alloc: Global,
    fabric: &'a Fabric<'r, Inbox<'r>, TakeSeat<'r>, SendSeat<'r>, J>,
    gate: &'a NoGate,
    count: u32,
    size: usize,
) -> Result<Left<'r, J>, AllocError> {
    let mut held = Vec::new(alloc);
    let entrance = Entrance::new(alloc, fabric, gate, 0);
    let Some(mut allocator) = entrance.enter(rt) else {
        return Ok(Left { held, starved: 0 });
    };
    let starved = allocate_some(rt, &mut allocator, count, size);
    if let Some(station) = allocator.retire(rt) {
        held.push(station)?;
    }
    Ok(Left { held, starved })
}

// The same at a pool that `J` names, and its end.
fn worked<'r, J: Naming, R: Wait>(
    rt: &R,
    alloc: Global,
    opening: Opening<'r, Inbox<'r>, TakeSeat<'r>, SendSeat<'r>>,
    count: u32,
    size: usize,
) -> Result<WorkReport<'r>, JobError>
    requires { J.names ≡ opening }
    ensures accounted { let n = opening.entry in IfOk result (λ e. IsAccounted n.chunks n.count e.found e.tally) }
{
    let fabric = Fabric::<'r, Inbox<'r>, TakeSeat<'r>, SendSeat<'r>, J>::open(alloc, opening)?;
    let Left { held, starved } = at_work(rt, alloc, &fabric, &NoGate, count, size)?;
    let mut report = settle(rt, alloc, fabric, held)?;
    report.tally.counts.starved = starved;
    Ok(report)
}

/// One worker allocates and frees, so often, and all that there is then is accounted for.
pub fn work_alone<'r, R: Wait>(
    rt: &R,
    alloc: Global,
    opening: Opening<'r, Inbox<'r>, TakeSeat<'r>, SendSeat<'r>>,
    count: u32,
    size: usize,
) -> Result<WorkReport<'r>, JobError>
    ensures accounted { let n = opening.entry in IfOk result (λ e. IsAccounted n.chunks n.count e.found e.tally) }
{
    worked::<Brand, R>(rt, alloc, opening, count, size)
}
