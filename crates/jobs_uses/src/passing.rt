//! Buffers that one worker allocates and another frees, one after the other.
ghost use Rattle.std.specs.Prelude.{◌≡◌, IfOk};
ghost use Rattle.pool_fabric.specs.Whole.{IsWhole, IsEachDesk, AreNoted};

use crate::pair::{Held, Over, Worker, both_retire, two_workers};
use link_inbox::{LinkInbox, SendSeat, TakeSeat};
use pool_fabric::{Found, GatherError, Naming, Opening, gather};
use pool_jobs::NoGate;
use rand_core::Rng;
use std::alloc::{AllocError, Global};
use std::marker::Brand;
use std::sync::Wait;

// The greatest size that is asked for.
const LARGEST: u32 = 512;

/// Buffers on their way, and what is left when all have gone it.
#[derive(Drop)]
pub struct Passed<'r> {
    /// How many buffers were allocated.
    pub allocated: u32,
    pub found: Found<'r>,
}

// So many buffers go from the owner to the stranger. Says how many there were.
fn pass_all<'a, 'r, J: Naming, N: Rng, R: Wait>(
    rt: &R,
    owner: &mut Worker<'a, 'r, J>,
    stranger: &mut Worker<'a, 'r, J>,
    random: &mut N,
    count: u32,
) -> u32 {
    let mut allocated = 0u32;
    for _ in 0..count {
        let size = 1 + random.next_u32() % LARGEST;
        if let Ok(buffer) = owner.alloc(rt, size as usize) {
            allocated = allocated.saturating_add(1);
            stranger.free(rt, buffer);
        }
    }
    allocated
}

// Two workers of a fabric: how many buffers there were, and the stations that don't go back on the
// shelf.
fn at_work<'a, 'r, J: Naming, N: Rng, R: Wait>(
    rt: &R,
    alloc: Global,
    fabric: &'a Over<'r, J>,
    gate: &'a NoGate,
    random: &mut N,
    count: u32,
) -> Result<(u32, Vec<Held<'r, J>>), AllocError> {
    let Some((mut owner, mut stranger)) = two_workers(rt, alloc, fabric, gate) else {
        return Ok((0, Vec::new(alloc)));
    };
    let allocated = pass_all(rt, &mut owner, &mut stranger, random, count);
    let held = both_retire(rt, alloc, owner, stranger)?;
    Ok((allocated, held))
}

// The same at a fabric that `J` names, and its end.
fn at_fabric<'r, J: Naming, N: Rng, R: Wait>(
    rt: &R,
    alloc: Global,
    opening: Opening<'r, LinkInbox<'r>, TakeSeat<'r>, SendSeat<'r>>,
    random: &mut N,
    count: u32,
) -> Result<Passed<'r>, GatherError<'r>>
    requires { J.names ≡ opening }
    ensures whole { IfOk result (λ p. IsWhole p.found.desks.items p.found.batches.items p.found.lent
        p.found.freed p.found.parts.items opening.entry.chunks) }
    ensures desks { IfOk result (λ p. IsEachDesk opening.entry.count p.found.desks.items) }
    ensures drawn { IfOk result (λ p. AreNoted p.found.desks.items p.found.drawn) }
{
    let Ok(fabric) = Over::<'r, J>::open(alloc, opening) else {
        return Err(GatherError::NoMemory);
    };
    let Ok((allocated, held)) = at_work(rt, alloc, &fabric, &NoGate, random, count) else {
        return Err(GatherError::NoMemory);
    };
    let found = gather(rt, alloc, fabric, held)?;
    Ok(Passed { allocated, found })
}

/// One worker allocates a buffer of a size drawn by lot, another frees it at once, and so on, so
/// often. Says how many there were, and all that there is then. It wants two desks.
pub fn pass_on<'r, N: Rng, R: Wait>(
    rt: &R,
    alloc: Global,
    opening: Opening<'r, LinkInbox<'r>, TakeSeat<'r>, SendSeat<'r>>,
    random: &mut N,
    count: u32,
) -> Result<Passed<'r>, GatherError<'r>>
    ensures whole { IfOk result (λ p. IsWhole p.found.desks.items p.found.batches.items p.found.lent
        p.found.freed p.found.parts.items opening.entry.chunks) }
    ensures desks { IfOk result (λ p. IsEachDesk opening.entry.count p.found.desks.items) }
    ensures drawn { IfOk result (λ p. AreNoted p.found.desks.items p.found.drawn) }
{
    at_fabric::<Brand, N, R>(rt, alloc, opening, random, count)
}
