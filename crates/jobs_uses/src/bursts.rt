//! Buffers that one worker allocates and packs, and another frees as a whole.
ghost use Rattle.std.specs.Prelude.{◌≡◌, IfOk};
ghost use Rattle.pool_fabric.specs.Whole.{IsWhole, IsEachDesk, AreNoted};

use crate::pair::{Held, Over, Worker, both_retire, two_workers};
use crate::passing::Passed;
use link_inbox::{LinkInbox, SendSeat, TakeSeat};
use pool_fabric::{GatherError, Naming, Opening, gather};
use pool_jobs::NoGate;
use slot_chain::NoMemory;
use std::alloc::Global;
use std::marker::Brand;
use std::sync::Wait;

// The size that is asked for.
const SIZE: usize = 512;

// So many parcels go from the owner to the stranger, one after the other. Says how many buffers went.
fn pass_bursts<'a, 'r, J: Naming, R: Wait>(
    rt: &R,
    owner: &mut Worker<'a, 'r, J>,
    stranger: &mut Worker<'a, 'r, J>,
    bursts: u32,
    count: u32,
) -> Result<u32, NoMemory> {
    let mut passed = 0u32;
    for _burst in 0..bursts {
        let mut parcel = owner.parcel(count as usize)?;
        let lent = owner
            .fill(rt, &mut parcel, SIZE, count as usize)
            .unwrap_or(0);
        passed = passed.saturating_add(lent as u32);
        stranger.free_all(rt, parcel);
    }
    Ok(passed)
}

// Two workers of a fabric: how many buffers there were, and the stations that don't go back on the shelf.
fn at_work<'a, 'r, J: Naming, R: Wait>(
    rt: &R,
    alloc: Global,
    fabric: &'a Over<'r, J>,
    gate: &'a NoGate,
    bursts: u32,
    count: u32,
) -> Result<(u32, Vec<Held<'r, J>>), NoMemory> {
    let Some((mut owner, mut stranger)) = two_workers(rt, alloc, fabric, gate) else {
        return Ok((0, Vec::new(alloc)));
    };
    let passed = pass_bursts(rt, &mut owner, &mut stranger, bursts, count);
    let held = both_retire(rt, alloc, owner, stranger)?;
    Ok((passed?, held))
}

// The same at a fabric that `J` names, and its end.
fn at_fabric<'r, J: Naming, R: Wait>(
    rt: &R,
    alloc: Global,
    opening: Opening<'r, LinkInbox<'r>, TakeSeat<'r>, SendSeat<'r>>,
    bursts: u32,
    count: u32,
) -> Result<Passed<'r>, GatherError<'r>>
    requires { J.names ≡ opening }
    ensures whole { IfOk result (λ p. IsWhole p.found.desks.items p.found.batches.items p.found.lent
        p.found.freed p.found.parts.items opening.entry.chunks) }
    ensures desks { IfOk result (λ p. IsEachDesk opening.entry.count p.found.desks.items) }
    ensures drawn { IfOk result (λ p. AreNoted p.found.desks.items p.found.drawn) }
{
    let Ok(fabric) = Over::<'r, J>::open(alloc, opening) else {
        return Err(GatherError::NoMemory);
    };
    let Ok((allocated, held)) = at_work(rt, alloc, &fabric, &NoGate, bursts, count) else {
        return Err(GatherError::NoMemory);
    };
    let found = gather(rt, alloc, fabric, held)?;
    Ok(Passed { allocated, found })
}

/// One worker lends so many buffers of 512 bytes, another frees them as a whole, and so on, so often.
/// Says how many there were, and all that there is then. It wants two desks.
pub fn pass_in_bursts<'r, R: Wait>(
    rt: &R,
    alloc: Global,
    opening: Opening<'r, LinkInbox<'r>, TakeSeat<'r>, SendSeat<'r>>,
    bursts: u32,
    count: u32,
) -> Result<Passed<'r>, GatherError<'r>>
    ensures whole { IfOk result (λ p. IsWhole p.found.desks.items p.found.batches.items p.found.lent
        p.found.freed p.found.parts.items opening.entry.chunks) }
    ensures desks { IfOk result (λ p. IsEachDesk opening.entry.count p.found.desks.items) }
    ensures drawn { IfOk result (λ p. AreNoted p.found.desks.items p.found.drawn) }
{
    at_fabric::<Brand, R>(rt, alloc, opening, bursts, count)
}
